//! Whether an end can gain a value. No function here takes memory.
ghost use Rattle.std.specs.Prelude.{◌≡◌, ◌&&◌, ◌||◌, false, int_lt, pos};
ghost use Rattle.std.specs.Option.{option_map_or};
ghost use Rattle.mm_types.specs.Shapes.{shape};
ghost use Rattle.models.specs.Model.{reading};
ghost use Rattle.handshake.specs.Refusals as refusals;

use crate::recursion::is_recursive;
use links::LinkStore;
use mm_meta::Meta;
use mm_types::{End, FeatureNo, ObjectNo, Refused, Value, limits};
use models::ModelRef;
use proxies::opposite_end;

/// Why an end can't gain a value: `Bound`, `Recursive` or `Limit`.
#[inline(always)]
pub fn gain_refusal<L: LinkStore>(model: &ModelRef<L>, end: End, value: &Value) -> Option<Refused>
    ensures { result ≡ refusals.gain_refusal (reading model.now) end value.now }
{
    match value {
        Value::Object(object) => link_refusal(model, end, *object),
        _ if is_full_at(model, end) => Some(Refused::Bound),
        _ if is_at_limit(model, end) => Some(Refused::Limit),
        _ => None,
    }
}

/// Why an end can't gain a link to an object: `Bound`, `Recursive` or `Limit`.
pub fn link_refusal<L: LinkStore>(
    model: &ModelRef<L>,
    end: End,
    object: ObjectNo,
) -> Option<Refused>
    ensures { result ≡ refusals.link_refusal (reading model.now) end object }
{
    let far = opposite_end(model, end, object);
    if is_either_full(model, end, far) {
        return Some(Refused::Bound);
    }
    if is_recursive(model, end, object) {
        return Some(Refused::Recursive);
    }
    if is_either_at_limit(model, end, far) {
        return Some(Refused::Limit);
    }
    None
}

/// Whether `end`, or its opposite end `far`, if there is one, has an upper bound above 1 and has reached this bound.
fn is_either_full<L: LinkStore>(model: &ModelRef<L>, end: End, far: Option<End>) -> bool
    ensures { result ≡ (refusals.is_full_at (reading model.now) end || option_map_or (refusals.is_full_at (reading model.now)) far false) }
{
    if is_full_at(model, end) {
        return true;
    }
    match far {
        Some(far) => is_full_at(model, far),
        None => false,
    }
}

/// Whether `end`, or its opposite end `far`, if there is one, has the greatest number of values that a list may have
/// (`limits::LIST_VALUES`).
fn is_either_at_limit<L: LinkStore>(model: &ModelRef<L>, end: End, far: Option<End>) -> bool
    ensures { result ≡ (refusals.is_at_limit (reading model.now) end || option_map_or (refusals.is_at_limit (reading model.now)) far false) }
{
    if is_at_limit(model, end) {
        return true;
    }
    match far {
        Some(far) => is_at_limit(model, far),
        None => false,
    }
}

/// Whether an end has an upper bound above 1, and has reached this bound.
fn is_full_at<L: LinkStore>(model: &ModelRef<L>, end: End) -> bool
    ensures { result ≡ refusals.is_full_at (reading model.now) end }
{
    // few features have such a bound, and the values of a feature without such a bound need not be counted
    has_bound(model.meta(), end.feature) && model.meta().is_full(end.feature, model.len(end))
}

/// Whether a feature has an upper bound above 1, so that its lists can be full.
fn has_bound(meta: &Meta, feature: FeatureNo) -> bool
    ensures { result ≡ int_lt (pos 1) (shape meta.now feature).upper }
{
    match meta.feature(feature) {
        Some(found) => found.upper > 1,
        None => false,
    }
}

/// Whether an end has the greatest number of values that a list may have (`limits::LIST_VALUES`).
fn is_at_limit<L: LinkStore>(model: &ModelRef<L>, end: End) -> bool
    ensures { result ≡ refusals.is_at_limit (reading model.now) end }
{
    model.lemma_is_legal();
    // a single reference has at most one value
    if is_single_reference(model.meta(), end.feature) {
        return false;
    }
    model.len(end) as usize >= limits::LIST_VALUES
}

/// Whether a feature is a single reference.
fn is_single_reference(meta: &Meta, feature: FeatureNo) -> bool
    ensures { result ≡ ((shape meta.now feature).is_reference && (shape meta.now feature).is_single) }
{
    meta.is_reference(feature) && meta.is_single(feature)
}
