//! The edits that put a document's links and proxies.
ghost use Rattle.std.specs.Prelude.{◌≡◌, ◌≤◌, ◌++◌, IfOk, OnOk, length, map};
ghost use Rattle.std.specs.List.{All, enumerate_from};
ghost use Rattle.mm_types.specs.declared.limits.TheConstants.{LIST_VALUES};
ghost use Rattle.doc_loader.specs.Fits.{IsFitting, IsNumbered};
ghost use Rattle.doc_loader.specs.LoadEdits as e;

use crate::far;
use crate::near::put_at;
use crate::passes::{Pass, push_objects};
use links::Edit;
use mm_meta::Meta;
use mm_types::{End, ObjectNo, ResourceNo};
use models::contents_end;
use resource_docs::Doc;
use std::alloc::{AllocError, Global};

/// The edits that put the roots of a document into a resource, and put the links and proxies of the document. When these edits are applied,
/// the objects of the document have to exist; the first of them has the number `next`. Fails only if memory is refused.
pub fn link_edits(
    alloc: Global,
    meta: &Meta,
    next: usize,
    resource: ResourceNo,
    doc: &Doc,
) -> Result<Vec<Edit>, AllocError>
    requires fits { IsFitting next doc.now }
    ensures { IfOk result (λ es. es.items ≡ e.load_edits meta.now next resource doc.now) }
{
    let objects = doc.objects.as_slice();
    // Most objects are put by one edit: the edit that puts them into their container.
    let mut edits = Vec::with_capacity(alloc, objects.len())?;
    let roots = contents_end(meta, resource);
    push_roots(meta, next, roots, doc.roots.as_slice(), &mut edits)?;
    push_objects(meta, next, Pass::Near, objects, &mut edits)?;
    // Most documents have no content under the higher feature of a pair, so all their links are put by now.
    if !far::has_higher(meta, objects) {
        return Ok(edits);
    }
    far::push_in_order(alloc, meta, next, doc, &mut edits)?;
    push_objects(meta, next, Pass::Proxies, objects, &mut edits)?;
    Ok(edits)
}

/// Adds the edits that put the roots of a document into an end, in the order of `roots`.
fn push_roots(
    meta: &Meta,
    next: usize,
    end: End,
    roots: &[ObjectNo],
    edits: &mut Vec<Edit>,
) -> Result<(), AllocError>
    requires few { length roots.now ≤ LIST_VALUES }
    requires fits { All (IsNumbered next) roots.now }
    ensures { OnOk result (edits.new.items ≡ edits.old.items ++ map (λ x. e.put_at meta.now next end x.0 x.1) (enumerate_from 0 roots.now)) }
{
    'roots: for (i, root) in roots.iter().enumerate() {
        edits.push(put_at(meta, next, end, i as u32, *root))?;
    }
    Ok(())
}
