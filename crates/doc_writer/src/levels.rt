//! How deep objects are in their resources.
ghost use Rattle.std.specs.Prelude.{◌≡◌};
ghost use Rattle.std.specs.List.{list_any};
ghost use Rattle.models.specs.Model.{reading};
ghost use Rattle.doc_writer.specs.Saved as saved;

use links::LinkStore;
use mm_types::limits::LEVELS;
use mm_types::{Node, ObjectNo};
use models::ModelRef;

/// Whether an object is at a deeper level than a document may have (`LEVELS`). Takes no memory.
pub(crate) fn is_too_deep<L: LinkStore>(model: &ModelRef<L>, object: ObjectNo) -> bool
    ensures { result ≡ saved.is_too_deep (reading model.now) object }
{
    model.lemma_is_legal();
    let mut at = Node::Object(object);
    'up: for step in 0..LEVELS {
        match model.holder(at) {
            Some(end) => at = end.node,
            None => return false,
        }
    }
    model.holder(at).is_some()
}

/// Whether any of `objects` is at a deeper level than a document may have. Takes no memory.
pub(crate) fn any_too_deep<L: LinkStore>(model: &ModelRef<L>, objects: &[ObjectNo]) -> bool
    ensures { result ≡ list_any (saved.is_too_deep (reading model.now)) objects.now }
{
    objects.iter().any(|object| is_too_deep(model, *object))
}
