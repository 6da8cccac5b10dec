//! The links that are cut when an object is deleted.
ghost use Rattle.std.specs.Prelude.{◌≡◌, IfOk};
ghost use Rattle.models.specs.Model.{reading};
ghost use Rattle.removal.specs.Removals.{IsRemoval};
ghost use Rattle.removal.specs.TreeLinkEnds as t;

use crate::gone::Removal;
use crate::inner_link_ends::push_inner;
use crate::link_end::LinkEnd;
use crate::outer_link_ends::push_outer;
use links::LinkStore;
use models::ModelRef;
use std::alloc::{AllocError, Global};

/// The links of the deleted object and of all objects below it, each named once. A proxy that is a value of one of these objects counts as
/// a link too. Fails only if memory is refused.
pub fn tree_link_ends<L: LinkStore>(
    alloc: Global,
    model: &ModelRef<L>,
    removal: &Removal,
) -> Result<Vec<LinkEnd>, AllocError>
    requires removal { IsRemoval (reading model.now) removal.now }
    ensures { IfOk result (λ ts. ts.items ≡ t.tree_link_ends (reading model.now) removal.now.object) }
{
    let mut link_ends = Vec::new(alloc);
    push_inner(model, &removal.objects, &removal.numbers, &mut link_ends)?;
    push_outer(model, &removal.ends, &removal.numbers, &mut link_ends)?;
    Ok(link_ends)
}
