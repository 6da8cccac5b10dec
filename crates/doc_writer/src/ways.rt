//! Notes the ways to the objects to which the objects of a resource refer. The way to an object consists of the positions that this object
//! and all objects above it have in the ends that contain them (`Positions::note_way`). All positions of an end are noted together, so each
//! end on these ways is gone through once, and not once for each reference. The functions that note the ways also find out whether an
//! object of the resource refers to an object that is in no resource.
ghost use Rattle.std.specs.Prelude.{◌≡◌, IfOk, OnOk, false, slice_get, true};
ghost use Rattle.std.specs.List.{All, list_any};
ghost use Rattle.std.specs.Option.{option_and_then, option_map_or};
ghost use Rattle.models.specs.Model.{reading};
ghost use Rattle.models.specs.Reading as r;
ghost use Rattle.doc_writer.specs.Saved as saved;
ghost use Rattle.doc_writer.specs.References.{IsReferences, may_refer};

use crate::class_references::ClassReferences;
use containment::holder_resource;
use fragment_paths::Positions;
use links::LinkStore;
use mm_types::{End, FeatureNo, Node, ObjectNo};
use models::ModelRef;
use std::alloc::{AllocError, Global};

/// Whether an object is in no resource. Takes no memory.
fn is_dangling<L: LinkStore>(model: &ModelRef<L>, object: ObjectNo) -> bool
    ensures { result ≡ saved.is_dangling (reading model.now) object }
{
    holder_resource(model.store(), object).is_none()
}

/// If an object is in no resource, returns true. Else notes the way to the object, and returns false.
fn note_target<L: LinkStore>(
    positions: &mut Positions<L>,
    object: ObjectNo,
) -> Result<bool, AllocError>
    ensures same { positions.new ≡ positions.old }
    ensures dangling { IfOk result (λ b. b ≡ saved.is_dangling (reading positions.old) object) }
{
    if is_dangling(positions.model(), object) {
        return Ok(true);
    }
    positions.note_way(object)?;
    Ok(false)
}

/// Returns whether the value at a position of an end is an object that is in no resource. If the value is an object in a resource, notes
/// the way to this object.
fn note_at<L: LinkStore>(
    positions: &mut Positions<L>,
    end: End,
    index: u32,
) -> Result<bool, AllocError>
    ensures same { positions.new ≡ positions.old }
    ensures dangling { IfOk result (λ b. b ≡ option_map_or (saved.is_dangling (reading positions.old)) (option_and_then r.object_of (slice_get ((reading positions.old).values end) index)) false) }
{
    match positions.model().value_in(end, index) {
        Some(found) => match found.object() {
            Some(object) => note_target(positions, object),
            None => Ok(false),
        },
        None => Ok(false),
    }
}

/// Notes the ways to the objects at an end, and stops at the first object that is in no resource. Returns whether there is such an object.
fn note_end<L: LinkStore>(positions: &mut Positions<L>, end: End) -> Result<bool, AllocError>
    ensures same { positions.new ≡ positions.old }
    ensures dangling { IfOk result (λ b. b ≡ list_any (saved.is_dangling (reading positions.old)) (r.objects_of ((reading positions.old).values end))) }
{
    'positions: for index in 0..positions.model().len(end) {
        if note_at(positions, end, index)? {
            return Ok(true);
        }
    }
    Ok(false)
}

/// Notes the ways to the objects to which an object refers by a feature. Stops at the first of these targets that is in no resource, and
/// returns whether there is such a target.
fn note_feature<L: LinkStore>(
    positions: &mut Positions<L>,
    object: ObjectNo,
    feature: FeatureNo,
) -> Result<bool, AllocError>
    requires refers { may_refer positions.old.metamodel feature ≡ true }
    ensures same { positions.new ≡ positions.old }
    ensures dangling { IfOk result (λ b. b ≡ saved.dangles_by (reading positions.old) object feature) }
{
    let node = Node::Object(object);
    let end = End { node, feature };
    if !positions.model().is_set(end) {
        return Ok(false);
    }
    note_end(positions, end)
}

/// Notes the ways to the objects to which an object refers by any of `features`. Stops at the first of these targets that is in no
/// resource, and returns whether there is such a target.
fn note_features<L: LinkStore>(
    positions: &mut Positions<L>,
    object: ObjectNo,
    features: &[FeatureNo],
) -> Result<bool, AllocError>
    requires refer { All (λ f. may_refer positions.old.metamodel f ≡ true) features.now }
    ensures same { positions.new ≡ positions.old }
    ensures dangling { IfOk result (λ b. b ≡ list_any (saved.dangles_by (reading positions.old) object) features.now) }
{
    'features: for feature in features {
        if note_feature(positions, object, *feature)? {
            return Ok(true);
        }
    }
    Ok(false)
}

/// Notes the ways to the objects to which an object refers. Stops at the first of these targets that is in no resource, and returns whether
/// there is such a target. If `by_class` has the features of a different class, these features are replaced by those of the object's class.
fn note_object<L: LinkStore>(
    positions: &mut Positions<L>,
    by_class: &mut ClassReferences,
    object: ObjectNo,
) -> Result<bool, AllocError>
    requires references { IsReferences positions.old.metamodel by_class.old }
    ensures same { positions.new ≡ positions.old }
    ensures references { OnOk result (IsReferences positions.old.metamodel by_class.new) }
    ensures dangling { IfOk result (λ b. b ≡ saved.has_dangling (reading positions.old) object) }
{
    positions.model().lemma_is_legal();
    let class = positions.model().class(object);
    by_class.turn_to(positions.model().meta(), class)?;
    note_features(positions, object, by_class.as_slice())
}

/// Notes the ways to the objects to which `objects` refer. Stops at the first of these targets that is in no resource, and returns whether
/// there is such a target. Fails only if memory is refused.
pub(crate) fn note_ways<L: LinkStore>(
    alloc: Global,
    positions: &mut Positions<L>,
    objects: &[ObjectNo],
) -> Result<bool, AllocError>
    ensures same { positions.new ≡ positions.old }
    ensures dangling { IfOk result (λ b. b ≡ list_any (saved.has_dangling (reading positions.old)) objects.now) }
{
    let mut by_class = ClassReferences::none(alloc);
    'objects: for object in objects {
        if note_object(positions, &mut by_class, *object)? {
            return Ok(true);
        }
    }
    Ok(false)
}
