//! Which features have too few values.
ghost use Rattle.std.specs.Prelude.{◌≡◌, IfOk, option_map, unwrap_or};
ghost use Rattle.mm_types.specs.Same.{same_value};
ghost use Rattle.mm_types.specs.Shapes.{shape};
ghost use Rattle.mm_types.specs.declared.value.Value.TheVariants.{Null};
ghost use Rattle.models.specs.Found.{found_value};
ghost use Rattle.models.specs.Model.{reading};
ghost use Rattle.validation.specs.Bounds as bounds;

use links::LinkStore;
use mm_meta::Meta;
use mm_types::{End, FeatureNo, Node, ObjectNo, Value};
use models::{Found, ModelRef, is_same};
use std::alloc::{AllocError, Global};

/// The features of an object that have fewer values than their lower bounds, in the order of all features of its class (EMF:
/// Diagnostician.validate, but only for multiplicities; MOF 2.5.1: MultiplicityElement.lower). A single feature whose lower bound is 1 has
/// too few values if its value is null, or if the feature is unsettable and not set. Fails only if memory is refused.
pub fn short_features<L: LinkStore>(
    alloc: Global,
    model: &ModelRef<L>,
    object: ObjectNo,
) -> Result<Vec<FeatureNo>, AllocError>
    ensures { IfOk result (λ fs. fs.items ≡ bounds.short_features (reading model.now) object) }
{
    let mut out = Vec::new(alloc);
    let node = Node::Object(object);
    let features = model.all_features(node);
    for feature in features {
        let end = End {
            node,
            feature: *feature,
        };
        if is_too_few(model, end) {
            out.push(*feature)?;
        }
    }
    Ok(out)
}

/// Whether an end has too few values.
fn is_too_few<L: LinkStore>(model: &ModelRef<L>, end: End) -> bool
    ensures { result ≡ bounds.is_too_few (reading model.now) end }
{
    let lower = lower_bound(model.meta(), end.feature);
    if model.meta().is_single(end.feature) {
        return lower >= 1 && is_missing(model, end);
    }
    i64::from(model.len(end)) < i64::from(lower)
}

/// The lower bound of a feature; 0 if the metamodel has no feature of this number.
fn lower_bound(meta: &Meta, feature: FeatureNo) -> i32
    ensures { result ≡ (shape meta.now feature).lower }
{
    match meta.feature(feature) {
        Some(feature) => feature.lower,
        None => 0,
    }
}

/// Whether the value of a single end is null, or the end's feature is unsettable and not set.
fn is_missing<L: LinkStore>(model: &ModelRef<L>, end: End) -> bool
    ensures { result ≡ bounds.is_missing (reading model.now) end }
{
    is_null(model.value_at(end)) || model.meta().is_unsettable(end.feature) && !model.is_set(end)
}

fn is_null(found: Option<Found<'_>>) -> bool
    ensures { result ≡ same_value Null (unwrap_or (option_map found_value found.entry) Null) }
{
    match found {
        Some(Found::Kept(value)) => is_same(&Value::Null, value),
        Some(Found::Object(_) | Found::Proxy(_)) => false,
        None => true,
    }
}
