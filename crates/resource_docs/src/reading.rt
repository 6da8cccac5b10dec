//! Reads the bytes of a document.
ghost use Rattle.std.specs.Prelude.{◌≡◌, ◌≤◌, List, Some, false, map, true};
ghost use Rattle.std.specs.List.{All};
ghost use Rattle.std.specs.Option.{option_map_or};
ghost use Rattle.serde_json.specs.Data.{Data, depth};
ghost use Rattle.borrowed_json.specs.View.{items_view, view};
ghost use Rattle.doc_parts.specs.Faults.{has_other_key, of_written};
ghost use Rattle.doc_parts.specs.FoundParts.{Knows, roots_from};
ghost use Rattle.doc_parts.specs.Layout.{new_top, top as top_meant};
ghost use Rattle.doc_parts.specs.Parts.{Part, parts, root_parts};
ghost use Rattle.resource_docs.specs.Causes.{Answers, Reads, has_first_format as first_meant, reads, unless_faulty};
ghost use Rattle.resource_docs.specs.Read.{doc_read};
ghost use Rattle.resource_docs.specs.Reading.{IsProxyObject, late_cause as late_meant, named_cause as named_meant, objects_so_far};
ghost use Rattle.resource_docs.specs.Texts.{base_of};

use crate::doc::Doc;
use crate::faults::{Noted, early_cause, has_first_format, sense_cause};
use crate::objects::{ReadObjects, read_objects};
use crate::read_context::ReadContext;
use crate::roots::read_roots;
use borrowed_json::{Json, JsonFault, read_json};
use bumpalo::Bump;
use doc_parts::{TopMembers, find_parts, has_unknown_feature, top};
use json::Scratch;
use mm_meta::Meta;
use mm_types::{DocFault, Refused};
use std::alloc::Global;

/// The greatest depth to which arrays and objects nest in JSON that `read_json` reads.
const NESTING: usize = 127;

/// The document with the objects that were read, or the first cause that applies, of `Value` and the causes of `sense_cause`.
/// `has_first_format` says whether the document has the first format.
fn read_rest(
    source: &ReadContext,
    has_first_format: bool,
    roots: &[Json],
    read: ReadObjects,
) -> Result<Doc, Refused>
    requires { All IsProxyObject read.objects }
    ensures { (d : Data) → Knows source.now.meta.now source.now.found.now (parts source.now.meta.now d) → has_first_format ≡ option_map_or first_meant (top_meant d) false
        → root_parts d ≡ roots_from (map view roots.now)
        → read ≡ objects_so_far source.now.meta.now (base_of source.now.uri.now) (parts source.now.meta.now d) (parts source.now.meta.now d)
        → Answers result (unless_faulty (late_meant source.now.meta.now (base_of source.now.uri.now) d (parts source.now.meta.now d) (doc_read source.now.meta.now (base_of source.now.uri.now) d))
        (doc_read source.now.meta.now (base_of source.now.uri.now) d)) }
{
    if read.has_other {
        return Err(Refused::Document(DocFault::Value));
    }
    let noted = Noted {
        has_first_format,
        root_count: roots.len(),
        is_lost: read.is_lost,
        has_long: read.has_long,
    };
    let numbers = match read_roots(source.alloc, source.found, roots) {
        Ok(numbers) => numbers,
        Err(_) => return Err(Refused::Memory),
    };
    let doc = Doc {
        objects: read.objects,
        roots: numbers,
    };
    match sense_cause(source, noted, &doc) {
        Ok(None) => Ok(doc),
        Ok(Some(fault)) => Err(Refused::Document(fault)),
        Err(_) => Err(Refused::Memory),
    }
}

/// Whether some object of a known class has a member that is no feature of the class, or that is a container reference. `is_all` may be
/// true only if no object has a member of this kind; then no name is looked up.
fn has_other_member(source: &ReadContext, is_all: bool) -> bool
    ensures { (ps : List Part) → Knows source.now.meta.now source.now.found.now ps → (is_all ≡ true → of_written (has_other_key source.now.meta.now) ps ≡ false) → result ≡ of_written (has_other_key source.now.meta.now) ps }
{
    !is_all && has_unknown_feature(source.meta, source.found)
}

/// Reads the document whose parts were found, and to which none of the causes `Layout`, `Format` and `Class` applies; `has_first_format`
/// says whether the document has the first format.
fn read_found(source: &ReadContext, has_first_format: bool, roots: &[Json]) -> Result<Doc, Refused>
    ensures { (d : Data) → Knows source.now.meta.now source.now.found.now (parts source.now.meta.now d) → has_first_format ≡ option_map_or first_meant (top_meant d) false
        → root_parts d ≡ roots_from (map view roots.now)
        → Answers result (unless_faulty (named_meant source.now.meta.now (base_of source.now.uri.now) d (parts source.now.meta.now d) (doc_read source.now.meta.now (base_of source.now.uri.now) d))
        (doc_read source.now.meta.now (base_of source.now.uri.now) d)) }
{
    match read_objects(source) {
        Ok((read, is_all)) => {
            if has_other_member(source, is_all) {
                return Err(Refused::Document(DocFault::Feature));
            }
            read_rest(source, has_first_format, roots, read)
        }
        Err(_) => Err(Refused::Memory),
    }
}

/// Reads the document whose parts were found.
fn read_parts(source: &ReadContext, top: TopMembers) -> Result<Doc, Refused>
    ensures { (d : Data) → Knows source.now.meta.now source.now.found.now (parts source.now.meta.now d) → top_meant d ≡ Some (new_top top.entry.format (items_view top.entry.roots.now))
        → Answers result (reads source.now.meta.now (base_of source.now.uri.now) d) }
{
    match early_cause(source.meta, top, source.found) {
        Some(fault) => Err(Refused::Document(fault)),
        None => read_found(source, has_first_format(top), top.roots),
    }
}

/// Reads the document that has the top members `top`.
fn read_top(alloc: Global, meta: &Meta, uri: &str, top: TopMembers) -> Result<Doc, Refused>
    ensures { (d : Data) → depth d ≤ NESTING → top_meant d ≡ Some (new_top top.entry.format (items_view top.entry.roots.now)) → Answers result (reads meta.now (base_of uri.now) d) }
{
    match find_parts(alloc, meta, NESTING, top.roots) {
        Ok(found) => read_parts(
            &ReadContext {
                alloc,
                meta,
                uri,
                found: &found,
            },
            top,
        ),
        Err(_) => Err(Refused::Memory),
    }
}

/// Reads a document whose arrays and objects nest at most `NESTING` levels deep.
fn read_value(alloc: Global, meta: &Meta, uri: &str, json: &Json) -> Result<Doc, Refused>
    requires { depth (view json.now) ≤ NESTING }
    ensures { Answers result (reads meta.now (base_of uri.now) (view json.now)) }
{
    match top(json) {
        Some(top) => read_top(alloc, meta, uri, top),
        None => Err(Refused::Document(DocFault::Layout)),
    }
}

/// Reads the text of a document as `read_doc` reads its bytes: returns the same document or the same cause, and takes the same time.
pub fn read_doc_text(alloc: Global, meta: &Meta, uri: &str, text: &str) -> Result<Doc, Refused>
    ensures { Reads result meta.now uri.now text.now }
{
    let arena = Bump::new(alloc);
    let mut scratch = Scratch::new(alloc);
    match read_json(alloc, &arena, text, &mut scratch) {
        Ok(value) => read_value(alloc, meta, uri, &value),
        Err(JsonFault::Memory) => Err(Refused::Memory),
        Err(JsonFault::Syntax) => Err(Refused::Document(DocFault::Syntax)),
    }
}

/// Reads the bytes of a document of the resource with the URI `uri`. Returns the objects and roots of the document, or else `Document` with
/// the first cause of this list that applies:
///
/// - `Syntax` if the bytes are no JSON in UTF-8, if the JSON has more than 127 levels, or if a number is too large for a float;
/// - `Layout` if the JSON value is not laid out as a document, or if a root, or a JSON object under a containment, is not laid out as an
///   object: the value is no JSON object, or a key in it is missing, has a value of a wrong kind, or is not listed in `docs/DOCUMENTS.md`;
/// - `Format` if the format of the document is neither 1 nor 2;
/// - `Class` if an object names a class that the metamodel does not have, or an abstract class;
/// - `Feature` if a key under `features` names no feature of the object's class, or names a container reference;
/// - `Value` if the content of a feature is not of the feature's type, or a text has more than 65,535 bytes;
/// - `Reference` if the text of a reference is neither a fragment, with or without a `#` before it, nor a URI or relative reference with a
///   `#` and a fragment; if this URI or relative reference, joined with `uri`, gives no URI of http or https; or if the text leads into the
///   document itself, but to no object that conforms to the type of the reference;
/// - `Duplicate` if a unique list repeats a value (the list of a reference is always unique);
/// - `Bound` if a list has more values than its upper bound, or more than 1,000,000, or if there are more than 1,000,000 roots;
/// - `OneSided` if an object A names an object B of the document under a feature that has an opposite and is no containment, and B does not
///   name A under the opposite (B may be A itself);
/// - `Cross` if the format of the document is 1, and a reference with an opposite leads to a different resource;
/// - `Depth` if an object is at a level deeper than 40 (a root is at level 1).
///
/// Nothing is looked at under the key `features` of an object with a wrong layout or of an unknown class, in the content of an unknown
/// feature, or in the content of a container reference. The only other refusal is `Memory`, which may come instead of any cause: if memory
/// is refused, if there are more than 2^32 objects, if a list has more than 2^32 values, or if a joined URI would be longer than URIs can
/// be.
///
/// A reference into another resource becomes a proxy: the joined URI, `#` and the fragment as it is written. For each metamodel the time is
/// linear in the size of the document: the members of an object are searched at most twice for each feature of its class.
pub fn read_doc(alloc: Global, meta: &Meta, uri: &str, bytes: &[u8]) -> Result<Doc, Refused>
    ensures { Reads result meta.now uri.now bytes.now }
{
    match str::from_utf8(bytes) {
        Ok(text) => read_doc_text(alloc, meta, uri, text),
        Err(_) => Err(Refused::Document(DocFault::Syntax)),
    }
}
