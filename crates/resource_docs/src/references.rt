//! Reads the texts of references, and looks up the objects to which the texts lead, among the parts that were found.
ghost use Rattle.std.specs.Prelude.{◌≡◌, IfOk, IfSome, List, None, Some, if◌then◌else◌, slice_get};
ghost use Rattle.borrowed_json.specs.View.{view};
ghost use Rattle.doc_parts.specs.FoundParts.{Knows, conforms_seen, part_seen};
ghost use Rattle.doc_parts.specs.Parts.{Part};
ghost use Rattle.doc_parts.specs.declared.found.FoundPart.{FoundPart};
ghost use Rattle.resource_docs.specs.Texts.{IsProxyReferent, base_of};
ghost use Rattle.resource_docs.specs.Values.{IsProxyValue, led_to as led_meant, object_of, reference_value as value_meant};
ghost use Rattle.resource_docs.specs.declared.referent.Referent.TheVariants.{Here};

use crate::read_context::ReadContext;
use crate::referent::{Referent, target_of};
use borrowed_json::Json;
use doc_parts::{FoundPart, FoundParts};
use mm_meta::Meta;
use mm_types::{ClassNo, ObjectNo, Value};
use std::alloc::AllocError;
use web_uris::Path;

/// Whether the object of a part conforms to a class; false if the part is no object of a known class.
fn conforms_to(meta: &Meta, class: ClassNo, part: FoundPart) -> bool
    ensures { result ≡ conforms_seen meta.now class (part_seen part.entry) }
{
    match part.class() {
        Some(own) => meta.conforms(own, class),
        None => false,
    }
}

/// The object with the number `number`, if it conforms to a class.
fn object_of_number(meta: &Meta, found: &FoundParts, class: ClassNo, number: u32) -> Option<Value>
    ensures value { (r : FoundPart) → slice_get found.now.parts.items number ≡ Some r → result ≡ (if conforms_seen meta.now class (part_seen r) then Some (object_of number) else None) }
    ensures proxy { IfSome result IsProxyValue }
{
    match found.parts.as_slice().get(number as usize).copied() {
        Some(part) if conforms_to(meta, class, part) => Some(Value::Object(ObjectNo(number))),
        _ => None,
    }
}

/// The object that a path leads to, if it conforms to a class.
fn object_at(meta: &Meta, found: &FoundParts, class: ClassNo, path: &Path) -> Option<Value>
    ensures value { (ps : List Part) → Knows meta.now found.now ps → result ≡ led_meant meta.now ps class (Here path.now) }
    ensures proxy { IfSome result IsProxyValue }
{
    match found.numbers.of_path(path) {
        Some(number) => object_of_number(meta, found, class, number),
        None => None,
    }
}

fn led_to(meta: &Meta, found: &FoundParts, class: ClassNo, target: Referent) -> Option<Value>
    ensures value { (ps : List Part) → Knows meta.now found.now ps → result ≡ led_meant meta.now ps class target }
    ensures proxy { IsProxyReferent target → IfSome result IsProxyValue }
{
    match target {
        Referent::Here(path) => object_at(meta, found, class, &path),
        Referent::Elsewhere(address) => Some(Value::Proxy(address)),
    }
}

/// The value of a reference to a class: an object of the document that conforms to the class, or a proxy; `None` if the JSON value is no
/// text, if the text leads nowhere, or if it leads to an object of a wrong class. Fails only if memory is refused, or if the joined URI
/// would be longer than URIs can be.
pub(crate) fn reference_value(
    source: &ReadContext,
    class: ClassNo,
    json: &Json,
) -> Result<Option<Value>, AllocError>
    ensures value { IfOk result (λ v. (ps : List Part) → Knows source.now.meta.now source.now.found.now ps → v ≡ value_meant source.now.meta.now (base_of source.now.uri.now) ps class (view json.now)) }
    ensures proxy { IfOk result (λ v. IfSome v IsProxyValue) }
{
    let Some(text) = json.as_str() else {
        return Ok(None);
    };
    match target_of(source.alloc, source.uri, text)? {
        Some(target) => Ok(led_to(source.meta, source.found, class, target)),
        None => Ok(None),
    }
}
