//! The objects at positions of containments.
ghost use Rattle.std.specs.Prelude.{◌≡◌, true, slice_get};
ghost use Rattle.mm_types.specs.Shapes.{is_containment};
ghost use Rattle.models.specs.Model.{reading};
ghost use Rattle.models.specs.Reading.{objects_of, roots_end as roots_end_of};

use links::LinkStore;
use mm_types::{End, ObjectNo, ResourceNo};
use models::{ModelRef, roots_end};

/// The object at a position of a containment; `None` past the last position.
pub(crate) fn object_in<L: LinkStore>(model: &ModelRef<L>, end: End, index: u32) -> Option<ObjectNo>
    requires contains { is_containment model.now.metamodel end.feature ≡ true }
    ensures { result ≡ slice_get (objects_of ((reading model.now).values end)) index }
{
    model.lemma_is_legal();
    model.object_in(end, index)
}

/// The root of a resource at a position; `None` past the last position, and if no resource has the number.
pub(crate) fn root_at<L: LinkStore>(
    model: &ModelRef<L>,
    resource: ResourceNo,
    index: u32,
) -> Option<ObjectNo>
    ensures { result ≡ slice_get (objects_of ((reading model.now).values (roots_end_of (reading model.now) resource))) index }
{
    object_in(model, roots_end(model, resource), index)
}
