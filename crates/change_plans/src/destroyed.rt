//! The objects that a change destroys.
ghost use Rattle.std.specs.Prelude.{◌≡◌, None, IfOk};
ghost use Rattle.models.specs.Model.{reading};
ghost use Rattle.handshake.specs.Changes.{IsRemovalOf};
ghost use Rattle.handshake.specs.Refusals as refusals;

use handshake::Change;
use links::LinkStore;
use models::ModelRef;
use removal::Removal;
use std::alloc::{AllocError, Global};

/// The removal of the object that a change deletes; `None` if the change is no deletion. Fails only if memory is refused.
pub(crate) fn removal_of<L: LinkStore>(
    alloc: Global,
    model: &ModelRef<L>,
    change: &Change,
) -> Result<Option<Removal>, AllocError>
    requires asked { refusals.early_refusal (reading model.now) change.now ≡ None }
    ensures { IfOk result (IsRemovalOf (reading model.now) change.now) }
{
    match change {
        Change::Delete(object) => Ok(Some(Removal::of(alloc, model, *object)?)),
        _ => Ok(None),
    }
}
