//! The target of the proxy that a change resolves.
ghost use Rattle.std.specs.Prelude.{◌≡◌, IfErr, IfOk, IsTrue};
ghost use Rattle.models.specs.Model.{reading};
ghost use Rattle.handshake.specs.FeatureChanges as t;
ghost use Rattle.change_plans.specs.Plans.{looks_first};

use handshake::{Act, Change};
use links::LinkStore;
use models::ModelRef;
use proxies::{ResolvedProxy, target_at};
use std::alloc::{AllocError, Global};

/// The target of the proxy that a change resolves. `None` if the change is no resolve of one proxy, if no proxy is at the index that the
/// change names, or if no object is at the address of the proxy. Fails only for a resolve of one proxy, and only if memory is refused.
pub(crate) fn target_of<L: LinkStore>(
    alloc: Global,
    model: &ModelRef<L>,
    change: &Change,
) -> Result<Option<ResolvedProxy>, AllocError>
    ensures found { IfOk result (λ q. q ≡ t.target_of (reading model.now) change.now) }
    ensures failed { IfErr result (λ _. IsTrue (looks_first change.now)) }
{
    match change {
        Change::At(end, Act::Resolve(index)) => target_at(alloc, model, *end, *index),
        _ => Ok(None),
    }
}
