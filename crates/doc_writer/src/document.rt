//! The document of a resource.
ghost use Rattle.std.specs.Prelude.{◌≡◌, [], IfOk, OnOk, codes, map, string_bytes};
ghost use Rattle.fragment_paths.specs.Finding.{roots as roots_of};
ghost use Rattle.json.specs.Lex.{tokens};
ghost use Rattle.json.specs.Print.{print};
ghost use Rattle.models.specs.Model.{reading};
ghost use Rattle.serde_json.specs.Data.{array, number, unsigned};
ghost use Rattle.serde_json.specs.View.{items_of};
ghost use Rattle.mm_types.specs.declared.limits.TheConstants.{DOCUMENT_FORMAT};
ghost use Rattle.doc_writer.specs.Added.{Adds, AddsMember, IsOrder};
ghost use Rattle.doc_writer.specs.Document as spec;
ghost use Rattle.doc_writer.specs.Saved.{IsReadAs};

use crate::order::ClassOrder;
use crate::values::write_object;
use crate::write_context::WriteContext;
use fragment_paths::Positions;
use json::Writer;
use links::LinkStore;
use mm_types::{ObjectNo, ResourceNo, limits};
use std::alloc::{AllocError, Global};

/// Writes the roots of a resource, with all objects below them, as an array. The features of the first root's class are sorted by name;
/// this order is used for all roots of that class.
fn write_roots<L: LinkStore>(
    source: &WriteContext<L>,
    roots: &[ObjectNo],
    out: &mut Writer,
) -> Result<(), AllocError>
    ensures { OnOk result (Adds (array (items_of (map (spec.object_data (reading source.now.positions.now) source.now.resource (reading source.now.positions.now).next) roots.now))) out.old out.new) }
{
    let class = match roots.first() {
        Some(root) => source.positions.model().class(*root),
        None => None,
    };
    let order = ClassOrder::of(source.alloc, source.positions.model().meta(), class)?;
    write_list(source, &order, roots, out)
}

/// Writes objects, with all objects below them, as an array. `order` has the features of some class, sorted by name, and is used for those
/// of `roots` that have this class.
fn write_list<L: LinkStore>(
    source: &WriteContext<L>,
    order: &ClassOrder,
    roots: &[ObjectNo],
    out: &mut Writer,
) -> Result<(), AllocError>
    requires order { IsOrder (reading source.now.positions.now).metamodel order.now }
    ensures { OnOk result (Adds (array (items_of (map (spec.object_data (reading source.now.positions.now) source.now.resource (reading source.now.positions.now).next) roots.now))) out.old out.new) }
{
    out.begin_array()?;
    'roots: for root in roots {
        write_object(source, source.positions.model().next(), order, *root, out)?;
    }
    out.end_array()
}

/// Writes the member `format`, the number of the format in which documents are saved.
fn write_format(out: &mut Writer) -> Result<(), AllocError>
    ensures { OnOk result (AddsMember (codes "format") (number (unsigned DOCUMENT_FORMAT)) out.old out.new) }
{
    out.key("format")?;
    out.u64(u64::from(limits::DOCUMENT_FORMAT))
}

/// Writes the document of the resource of `source`; `roots` are the roots of this resource.
fn write_document<L: LinkStore>(
    source: &WriteContext<L>,
    roots: &[ObjectNo],
    out: &mut Writer,
) -> Result<(), AllocError>
    requires roots { roots.now ≡ roots_of (reading source.now.positions.now) source.now.resource }
    ensures { OnOk result (Adds (spec.document (reading source.now.positions.now) source.now.resource) out.old out.new) }
{
    out.begin_object()?;
    write_format(out)?;
    out.key("roots")?;
    write_roots(source, roots, out)?;
    out.end_object()
}

/// The text that the writer `out` has written. It is required that `out` began with no text.
fn text_of(out: Writer) -> String
    requires alone { out.before ≡ [] }
    ensures text { string_bytes result ≡ print out.tokens }
    ensures reads_back { tokens (print out.tokens) ≡ out.tokens }
{
    match String::from_utf8(out.into_inner()) {
        Ok(text) => text,
        Err(_) => unreachable!(),
    }
}

/// The text of the document of `resource`; `roots` are the roots of this resource. Fails only if memory is refused.
pub(crate) fn document_text<L: LinkStore>(
    alloc: Global,
    positions: &Positions<L>,
    resource: ResourceNo,
    roots: &[ObjectNo],
) -> Result<String, AllocError>
    requires roots { roots.now ≡ roots_of (reading positions.now) resource }
    ensures text { IfOk result (λ t. string_bytes t ≡ spec.saved_text (reading positions.now) resource) }
    ensures reads { IfOk result (λ t. IsReadAs (reading positions.now) resource (string_bytes t)) }
{
    let source = WriteContext {
        alloc,
        positions,
        resource,
    };
    let mut out = Writer::new(Vec::new(alloc));
    write_document(&source, roots, &mut out)?;
    Ok(text_of(out))
}
