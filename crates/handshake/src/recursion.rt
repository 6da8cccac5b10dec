//! Whether an object would become a part of itself.
ghost use Rattle.std.specs.Prelude.{◌≡◌};
ghost use Rattle.models.specs.Model.{reading};
ghost use Rattle.handshake.specs.Refusals as refusals;

use containment::is_within;
use links::LinkStore;
use mm_types::{End, Node, ObjectNo};
use models::ModelRef;

/// Whether a link from `end` to `object` would put `object`, or the node of `end`, into itself or into a node that is below it. Takes no
/// memory.
pub(crate) fn is_recursive<L: LinkStore>(model: &ModelRef<L>, end: End, object: ObjectNo) -> bool
    ensures { result ≡ refusals.is_recursive (reading model.now) end object }
{
    match model.meta().containing(end.feature) {
        Some(containing) if containing == end.feature => {
            is_within(model, Node::Object(object), end.node)
        }
        Some(_) => is_within(model, end.node, Node::Object(object)),
        None => false,
    }
}
