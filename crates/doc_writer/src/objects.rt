//! The objects of a resource.
ghost use Rattle.std.specs.Prelude.{◌≡◌, IfOk, flat_map, true};
ghost use Rattle.std.specs.List.{list_all};
ghost use Rattle.containment.specs.Forest.{subtree as subtree_of};
ghost use Rattle.fragment_paths.specs.Finding as finding;
ghost use Rattle.models.specs.Model.{reading};
ghost use Rattle.models.specs.Reading.{is_live};

use containment::{push_some, subtree};
use links::LinkStore;
use mm_types::{ObjectNo, ResourceNo};
use models::{ModelRef, roots_end};
use std::alloc::{AllocError, Global};

/// The roots of a resource (EMF: Resource.getContents). Fails only if memory is refused.
pub(crate) fn roots<L: LinkStore>(
    alloc: Global,
    model: &ModelRef<L>,
    resource: ResourceNo,
) -> Result<Vec<ObjectNo>, AllocError>
    ensures all { IfOk result (λ r. r.items ≡ finding.roots (reading model.now) resource) }
    ensures live { IfOk result (λ r. list_all (is_live (reading model.now)) r.items ≡ true) }
{
    model.lemma_is_legal();
    let end = roots_end(model, resource);
    let mut found = Vec::new(alloc);
    'positions: for index in 0..model.len(end) {
        push_some(model.object_in(end, index), &mut found)?;
    }
    Ok(found)
}

/// The objects `roots` and all objects below them, root by root; each object is directly followed by all objects below it (EMF:
/// Resource.getAllContents). Fails only if memory is refused.
pub(crate) fn objects_below<L: LinkStore>(
    alloc: Global,
    model: &ModelRef<L>,
    roots: &[ObjectNo],
) -> Result<Vec<ObjectNo>, AllocError>
    requires live { list_all (is_live (reading model.now)) roots.now ≡ true }
    ensures { IfOk result (λ r. r.items ≡ flat_map (subtree_of (reading model.now)) roots.now) }
{
    let mut found = Vec::new(alloc);
    'roots: for root in roots {
        let mut part = subtree(alloc, model, *root)?;
        found.append(&mut part)?;
    }
    Ok(found)
}
