//! Whether the content of a feature is of the feature's type, and has not too many values.
ghost use Rattle.std.specs.Prelude.{◌≡◌, ◌||◌, Some, is_some, map, true};
ghost use Rattle.mm_types.specs.Lookups.{conforms};
ghost use Rattle.std.specs.List.{list_all};
ghost use Rattle.mm_types.specs.Shapes.{is_bounded as bounded, shape};
ghost use Rattle.serde_json.specs.Find.{as_array};
ghost use Rattle.borrowed_json.specs.View.{view};
ghost use Rattle.doc_parts.specs.Contents.{attribute_value, is_content as is_meant, is_value as is_value_meant, may_stand as may_be};
ghost use Rattle.doc_parts.specs.Faults.{is_long as long};
ghost use Rattle.doc_parts.specs.Parts.{class_of as class_meant, new_entry, values_of as values_meant};

use crate::attributes::is_attribute_value;
use crate::entries::{class_of, values_of};
use crate::layout::written;
use borrowed_json::Json;
use mm_meta::Meta;
use mm_types::{ClassNo, FeatureNo, Kind, limits};

/// Whether an object names the class with the number `class`. The name in the object is compared with the name of that class, and no name
/// is looked up.
fn names_class(meta: &Meta, class: ClassNo, json: &Json) -> bool
    ensures class { result ≡ true → class_meant meta.now (view json.now) ≡ Some class }
    ensures conforms { result ≡ true → conforms meta.now class class ≡ true }
{
    meta.lemma_is_of_document();
    match (written(json), meta.class(class)) {
        (Some(object), Some(found)) => object.class == found.name.as_str(),
        _ => false,
    }
}

/// Whether a JSON value may be under a containment whose target is the class `target`. The value must be a JSON object, and its class must
/// conform to `target`. A JSON object that lacks the layout of an object, or names no class of the metamodel, is accepted here, since it
/// has a fault of its own (`specs/Faults.antt`). Most objects name `target` itself, so this class is tried first.
fn may_stand(meta: &Meta, target: ClassNo, json: &Json) -> bool
    ensures { result ≡ may_be meta.now target (view json.now) }
{
    if !json.is_object() {
        return false;
    }
    if names_class(meta, target, json) {
        return true;
    }
    match class_of(meta, json) {
        Some(class) => meta.conforms(class, target),
        None => true,
    }
}

fn is_value(meta: &Meta, is_single: bool, kind: &Kind, json: &Json) -> bool
    ensures { result ≡ is_value_meant meta.now is_single kind.now (view json.now) }
{
    match kind {
        Kind::Attribute { value_type, .. } => is_attribute_value(
            meta,
            is_single,
            *value_type,
            json,
        ),
        Kind::Reference {
            target,
            containment: true,
            ..
        } => may_stand(meta, *target, json),
        Kind::Reference { .. } => match json.as_str() {
            Some(text) => text.len() <= limits::TEXT_BYTES,
            None => false,
        },
    }
}

fn are_values(meta: &Meta, is_single: bool, kind: &Kind, values: &[Json]) -> bool
    ensures { result ≡ list_all (λ v. is_value_meant meta.now is_single kind.now (view v)) values.now }
{
    values
        .iter()
        .all(|value| is_value(meta, is_single, kind, value))
}

fn is_shaped(is_single: bool, content: &Json) -> bool
    ensures { result ≡ is_single || is_some (as_array (view content.now)) }
{
    is_single || content.is_array()
}

/// Whether the content of a feature is of the feature's type: an array if the feature is many-valued, and each value is one that the
/// feature may hold. Takes no memory.
pub fn is_content<'t>(meta: &Meta, feature: FeatureNo, content: &'t Json<'t>) -> bool
    ensures { result ≡ is_meant meta.now (new_entry feature (view content.now)) }
{
    let single = meta.is_single(feature);
    if !is_shaped(single, content) {
        return false;
    }
    match meta.feature(feature) {
        Some(found) => are_values(meta, single, &found.kind, values_of(meta, feature, content)),
        None => false,
    }
}

fn is_bounded(meta: &Meta, feature: FeatureNo, count: usize) -> bool
    ensures { result ≡ bounded (shape meta.now feature) count }
{
    if count > limits::LIST_VALUES {
        return false;
    }
    match meta.feature(feature) {
        Some(found) => found.upper < 1 || count as i64 <= i64::from(found.upper),
        None => true,
    }
}

/// Whether the content of a feature has more values than the feature may have. Takes no memory.
pub fn is_long<'t>(meta: &Meta, feature: FeatureNo, content: &'t Json<'t>) -> bool
    ensures { result ≡ long meta.now (new_entry feature (view content.now)) }
{
    // One value is never too many.
    if meta.is_single(feature) {
        return false;
    }
    !is_bounded(meta, feature, values_of(meta, feature, content).len())
}
