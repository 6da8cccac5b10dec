//! Why a document is refused: the first cause that applies.
ghost use Rattle.std.specs.Prelude.{◌≡◌, IfOk, List, Some, false, length, not};
ghost use Rattle.std.specs.Option.{option_map_or};
ghost use Rattle.mm_types.specs.Shapes.{contents_shape, is_bounded};
ghost use Rattle.serde_json.specs.Data.{Data};
ghost use Rattle.borrowed_json.specs.View.{items_view};
ghost use Rattle.doc_parts.specs.Faults.{is_long as long_meant, of_entry};
ghost use Rattle.doc_parts.specs.FoundParts.{Knows};
ghost use Rattle.doc_parts.specs.Layout.{new_top, top as top_meant};
ghost use Rattle.doc_parts.specs.Parts.{Part, root_parts};
ghost use Rattle.resource_docs.specs.Causes.{has_first_format as first_meant, sense_cause as sense_meant};
ghost use Rattle.resource_docs.specs.Reading.{early_cause as early_meant};
ghost use Rattle.resource_docs.specs.Texts.{base_of};
ghost use Rattle.resource_docs.specs.Values.{has_lost};

use crate::cross::has_crosses;
use crate::doc::Doc;
use crate::ends::has_one_sided;
use crate::read_context::ReadContext;
use crate::repeats::has_repeats;
use doc_parts::{FoundParts, TopMembers, has_deep, has_misshapen, has_unknown_class};
use mm_meta::Meta;
use mm_types::{DocFault, limits};
use std::alloc::AllocError;

/// Whether the format of a document is 1, the first format.
pub(crate) fn has_first_format(top: TopMembers) -> bool
    ensures { result ≡ first_meant (new_top top.entry.format (items_view top.entry.roots.now)) }
{
    top.format == i64::from(limits::FIRST_DOCUMENT_FORMAT)
}

/// The first of the causes `Layout`, `Format` and `Class` that applies; `None` if none of them applies. These causes are about the layout
/// of the parts, the format of the document, and the classes that the parts name. Takes no memory.
pub(crate) fn early_cause(meta: &Meta, top: TopMembers, found: &FoundParts) -> Option<DocFault>
    ensures { (ps : List Part) → Knows meta.now found.now ps → result ≡ early_meant meta.now (Some (new_top top.entry.format (items_view top.entry.roots.now))) ps }
{
    if has_misshapen(found) {
        return Some(DocFault::Layout);
    }
    if !has_first_format(top) && top.format != i64::from(limits::DOCUMENT_FORMAT) {
        return Some(DocFault::Format);
    }
    if has_unknown_class(meta, found) {
        return Some(DocFault::Class);
    }
    None
}

/// Whether `count` roots are more than a resource may have.
fn has_many_roots(meta: &Meta, count: usize) -> bool
    ensures { result ≡ not (is_bounded (contents_shape meta.now) count) }
{
    count > limits::LIST_VALUES
}

/// What is known of a document beside the objects that were read: whether it has the first format, the number of its roots, whether a
/// reference leads nowhere or to an object of a wrong class, and whether a list is too long.
#[derive(Clone, Copy)]
pub(crate) struct Noted {
    pub has_first_format: bool,
    pub root_count: usize,
    pub is_lost: bool,
    pub has_long: bool,
}

/// The first of the causes `Reference`, `Duplicate`, `Bound`, `OneSided`, `Cross` and `Depth` that applies; `None` if none of them applies.
/// These causes are about the targets of references, repeated values, the number of values and of roots, opposites, and the level of a
/// part. Fails only if memory is refused.
pub(crate) fn sense_cause(
    source: &ReadContext,
    noted: Noted,
    doc: &Doc,
) -> Result<Option<DocFault>, AllocError>
    ensures { IfOk result (λ o. (ps : List Part) (d : Data) → Knows source.now.meta.now source.now.found.now ps → noted.has_first_format ≡ option_map_or first_meant (top_meant d) false → noted.root_count ≡ length (root_parts d)
        → noted.is_lost ≡ of_entry source.now.meta.now (has_lost source.now.meta.now (base_of source.now.uri.now) ps) ps
        → noted.has_long ≡ of_entry source.now.meta.now (long_meant source.now.meta.now) ps
        → o ≡ sense_meant source.now.meta.now (base_of source.now.uri.now) d ps doc.now) }
{
    if noted.is_lost {
        return Ok(Some(DocFault::Reference));
    }
    if has_repeats(source.alloc, source.meta, doc)? {
        return Ok(Some(DocFault::Duplicate));
    }
    if has_many_roots(source.meta, noted.root_count) || noted.has_long {
        return Ok(Some(DocFault::Bound));
    }
    if has_one_sided(source.alloc, source.meta, doc)? {
        return Ok(Some(DocFault::OneSided));
    }
    if noted.has_first_format && has_crosses(source.meta, doc) {
        return Ok(Some(DocFault::Cross));
    }
    if has_deep(source.found) {
        return Ok(Some(DocFault::Depth));
    }
    Ok(None)
}
