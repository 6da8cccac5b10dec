//! The objects of a document, as they are written in it. This crate reads the document as a `serde_json::Value`: such a value can be
//! printed, and it has the keys of each object in the order of their bytes.
use json_fields::{find, has_only_keys};
use mm_meta::Meta;
use mm_types::{ClassNo, DataType, FeatureNo, limits};
use serde_json::{Map, Value};
use std::slice;

/// The class of an object; `None` if `known` returns `None` for the object.
pub(crate) fn class_of(meta: &Meta, json: &Value) -> Option<ClassNo> {
    let (class, _) = known(meta, json)?;
    Some(class)
}

/// The class of an object, and the members of its `features`. `None` if the JSON is no object, has other keys than `class` and `features`
/// or lacks one of them, has no text as `class` or no object as `features`, or names a class that the metamodel lacks.
pub(crate) fn known<'v>(meta: &Meta, json: &'v Value) -> Option<(ClassNo, &'v Map<String, Value>)> {
    let members = json.as_object()?;
    if !has_only_keys(members, &["class", "features"]) {
        return None;
    }
    let name = find(members, "class")?.as_str()?;
    let features = find(members, "features")?.as_object()?;
    let class = meta.class_by_name(name)?;
    Some((class, features))
}

/// Whether an object is of a class that conforms to the class `target`; false if its class is not known (`known`).
pub(crate) fn conforms_to(meta: &Meta, target: ClassNo, json: &Value) -> bool {
    match class_of(meta, json) {
        Some(class) => meta.conforms(class, target),
        None => false,
    }
}

/// The content of a feature: the value of the member that has the feature's name. `None` if no member has this name, or if the feature is a
/// container reference.
pub(crate) fn content_at<'v>(
    meta: &Meta,
    members: &'v Map<String, Value>,
    feature: FeatureNo,
) -> Option<&'v Value> {
    if meta.is_container(feature) {
        return None;
    }
    find(members, meta.feature_name(feature))
}

/// The values of a feature's content: the content itself if the feature is single, and otherwise the items of the array. If the content of
/// a many-valued feature is no array, there are no values.
pub(crate) fn values_of<'v>(meta: &Meta, feature: FeatureNo, content: &'v Value) -> &'v [Value] {
    if meta.is_single(feature) {
        return slice::from_ref(content);
    }
    match content.as_array() {
        Some(values) => values.as_slice(),
        None => &[],
    }
}

fn is_text(is_single: bool, json: &Value) -> bool {
    match json.as_str() {
        Some(text) => text.len() <= limits::TEXT_BYTES,
        None => is_single && json.is_null(),
    }
}

fn is_int(json: &Value) -> bool {
    match json.as_i64() {
        Some(n) => i64::from(i32::MIN) <= n && n <= i64::from(i32::MAX),
        None => false,
    }
}

fn is_literal(meta: &Meta, enumeration: u32, json: &Value) -> bool {
    match json.as_str() {
        Some(name) => meta.literal_by_name(enumeration, name).is_some(),
        None => false,
    }
}

/// Whether a JSON value may be written as a value of an attribute of a data type. The attribute is single if `is_single` is set, and
/// otherwise many-valued.
pub(crate) fn is_attribute_value(
    meta: &Meta,
    is_single: bool,
    data_type: DataType,
    json: &Value,
) -> bool {
    match data_type {
        DataType::EString => is_text(is_single, json),
        DataType::EInt => is_int(json),
        DataType::ELong => json.as_i64().is_some(),
        DataType::EBoolean => json.is_boolean(),
        DataType::Enum(enumeration) => is_literal(meta, enumeration, json),
    }
}
