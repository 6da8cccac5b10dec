//! The ends of a link.
ghost use Rattle.std.specs.Prelude.{◌≡◌};
ghost use Rattle.links.specs.Links.{far_end as far_end_of};
ghost use Rattle.models.specs.Model.{reading};
ghost use Rattle.proxies.specs.Resolving as resolving;

use links::LinkStore;
use mm_types::{End, FeatureNo, Node, ObjectNo};
use models::ModelRef;

/// The end of an object under a feature.
pub fn far_end(object: ObjectNo, feature: FeatureNo) -> End
    ensures { result ≡ far_end_of object feature }
{
    End {
        node: Node::Object(object),
        feature,
    }
}

/// The opposite end of a link between `end` and `object`; `None` if the feature of `end` has no opposite.
pub fn opposite_end<L: LinkStore>(model: &ModelRef<L>, end: End, object: ObjectNo) -> Option<End>
    ensures { result ≡ resolving.opposite_end (reading model.now) end object }
{
    match model.meta().opposite(end.feature) {
        Some(feature) => Some(far_end(object, feature)),
        None => None,
    }
}
