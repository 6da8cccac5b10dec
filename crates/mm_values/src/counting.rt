//! How much capacity a plan needs.
ghost use Rattle.std.specs.Prelude.{◌≡◌, ℕ, count_by, IfOk};
ghost use Rattle.std.specs.List.{list_any};
ghost use Rattle.mm_values.specs.Room.{capacity_needed, is_insert, is_insert_at, is_new_object, is_new_uri};

use crate::value_edit::ValueEdit;
use mm_types::{FeatureNo, ObjectNo};
use std::alloc::AllocError;

/// How many objects a plan makes.
pub(crate) fn objects_made(plan: &[ValueEdit]) -> usize
    ensures { result ≡ count_by is_new_object plan.now }
{
    plan.iter().filter(|e| e.is_new_object()).count()
}

/// How many `NewUri` edits a plan has; an edit whose URI is there already counts too.
pub(crate) fn uris_added(plan: &[ValueEdit]) -> usize
    ensures { result ≡ count_by is_new_uri plan.now }
{
    plan.iter().filter(|e| e.is_new_uri()).count()
}

/// Whether a plan inserts a value into at least one list (`InsertValue`).
fn has_insert(plan: &[ValueEdit]) -> bool
    ensures { result ≡ list_any is_insert plan.now }
{
    plan.iter().any(|e| e.is_insert())
}

/// The edits for which capacity has to be counted: all edits of the plan if one of them inserts a value into a list (`InsertValue`), and
/// otherwise no edits. With no edits, `places_needed` takes no time.
pub(crate) fn counted(plan: &[ValueEdit]) -> &[ValueEdit]
    ensures { (o f : ℕ) → capacity_needed result.now o f ≡ capacity_needed plan.now o f }
{
    if has_insert(plan) { plan } else { &[] }
}

/// Whether a plan inserts a value into the list that an object has under an attribute.
fn is_inserted_at(plan: &[ValueEdit], object: ObjectNo, feature: FeatureNo) -> bool
    ensures { result ≡ list_any (is_insert_at object.0 feature.0) plan.now }
{
    plan.iter().any(|e| e.is_insert_at(object, feature))
}

/// How much capacity a plan needs in the list that an object has under an attribute. The result is 0 if the plan inserts no value into this
/// list (`InsertValue`), since a list that the plan puts (`PutList`) brings its own memory. Fails only if the count overflows.
pub(crate) fn places_needed(
    plan: &[ValueEdit],
    object: ObjectNo,
    feature: FeatureNo,
) -> Result<usize, AllocError>
    ensures { IfOk result (λ n. n ≡ capacity_needed plan.now object.0 feature.0) }
{
    if !is_inserted_at(plan, object, feature) {
        return Ok(0);
    }
    let mut places: usize = 0;
    for edit in plan {
        let more = edit.places_taken(object, feature);
        places = places.checked_add(more).ok_or(AllocError)?;
    }
    Ok(places)
}
