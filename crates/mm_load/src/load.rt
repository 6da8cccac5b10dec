//! The bytes of a document are read.
ghost use Rattle.mm_load.specs.Loaded.{Loads, metamodel_of_bytes};

use crate::document::Document;
use crate::from_json::FromJson;
use json_fields::ReadFault;
use mm_types::{MetaFault, RawMeta};
use serde_json::Value;
use std::alloc::Global;

/// The metamodel that a document describes, with its names unresolved; else the first of these faults that applies:
///
/// - `Syntax` if the bytes are no JSON in UTF-8, if the JSON has more than 127 levels, or if a number is too large for a float;
/// - `Layout` if the value does not have the shape of a metamodel, or has a key that is not listed;
/// - `Limit` if a count or a length is above its limit.
///
/// `Memory` may be returned in place of the metamodel or of any of these faults, but only if memory is refused. If members of an object
/// have the same key, the last of them counts. The time is linear in the length of the document, except that a look-up of a key takes time
/// in the logarithm of the number of keys of its object. Each part of the parsed JSON is freed as soon as it is read, and long texts are
/// moved out of it, and not copied.
pub fn load_meta(alloc: Global, bytes: &[u8]) -> Result<RawMeta, MetaFault>
    ensures { Loads result (metamodel_of_bytes bytes.now) }
{
    let value = match Value::from_slice(alloc, bytes) {
        Ok(value) => value,
        Err(error) if error.is_memory() => return Err(MetaFault::Memory),
        Err(_) => return Err(MetaFault::Syntax),
    };
    match Document::from_json(alloc, value) {
        Ok(document) => document.into_raw(),
        Err(ReadFault::Memory) => Err(MetaFault::Memory),
        Err(ReadFault::Layout) => Err(MetaFault::Layout),
    }
}
