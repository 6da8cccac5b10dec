//! What is wrong with the layout of a document: unknown and absent keys, values that are not written as their fields say, and limits that
//! are exceeded.
use crate::fields::{
    ATTRIBUTE, CLASS, DOCUMENT, ENUMERATION, FEATURE, Field, Hint, MISPLACED, REFERENCE, advice_in,
};
use crate::named::Bare;
use crate::near::{is_among, nearest};
use crate::shown::{SHOWN_BYTES, Shown, front_of};
use crate::values::explain_value;
use serde_json::{Map, Value};
use std::alloc::{AllocError, Global};

/// If an explanation has more than this many bytes, no further object is looked at.
const ENOUGH: usize = 4096;

/// The keys of some fields.
fn listed(alloc: Global, fields: &[Field]) -> Result<Vec<&'static str>, AllocError> {
    let mut keys = Vec::new(alloc);
    for field in fields {
        keys.push(field.key)?;
    }
    Ok(keys)
}

fn explain_unknown(
    alloc: Global,
    out: &mut String,
    place: &str,
    keys: &[&str],
    hints: &[Hint],
    key: &str,
) -> Result<(), AllocError> {
    if let Some(advice) = advice_in(hints, key) {
        return writeln!(out, "{place}: unknown key {key:?}; {advice}");
    }
    match nearest(alloc, key, keys)? {
        Some(meant) => writeln!(out, "{place}: unknown key {key:?}; is {meant:?} meant?"),
        None => writeln!(out, "{place}: unknown key {key:?}"),
    }
}

/// Explains the keys of an object that are not among `keys`.
fn explain_keys(
    alloc: Global,
    out: &mut String,
    place: &str,
    keys: &[&str],
    hints: &[Hint],
    members: &Map<String, Value>,
) -> Result<(), AllocError> {
    for key in members.keys() {
        if !is_among(keys, key.as_str()) {
            explain_unknown(alloc, out, place, keys, hints, key.as_str())?;
        }
    }
    Ok(())
}

fn explain_field(
    out: &mut String,
    place: &str,
    field: &Field,
    members: &Map<String, Value>,
) -> Result<(), AllocError> {
    match members.get(field.key) {
        Some(json) => explain_value(out, place, field, json),
        None if field.is_required => writeln!(out, "{place}: the key {:?} is absent", field.key),
        None => Ok(()),
    }
}

fn explain_fields(
    out: &mut String,
    place: &str,
    fields: &[Field],
    members: &Map<String, Value>,
) -> Result<(), AllocError> {
    for field in fields {
        explain_field(out, place, field, members)?;
    }
    Ok(())
}

/// Adds a line for each fault of an object, with hints for keys that are not among the fields. If `out` already has more than 4,096 bytes,
/// nothing is added.
fn explain_listed(
    alloc: Global,
    out: &mut String,
    place: &str,
    fields: &[Field],
    hints: &[Hint],
    json: &Value,
) -> Result<(), AllocError> {
    if out.len() > ENOUGH {
        return Ok(());
    }
    match json.as_object() {
        Some(members) => {
            explain_fields(out, place, fields, members)?;
            let keys = listed(alloc, fields)?;
            explain_keys(alloc, out, place, keys.as_slice(), hints, members)
        }
        None => writeln!(
            out,
            "{place}: it is {}, and has to be an object",
            Shown(json)
        ),
    }
}

/// Adds a line for each key of an object for which there is no field, for each required key that the object lacks, and for each value that
/// is not written as its field says. A `json` that is no object gets one line. `out` is the explanation of one document; if `out` already
/// has more than 4,096 bytes, nothing is added. Fails only if memory is refused.
pub fn explain_object(
    alloc: Global,
    out: &mut String,
    place: &str,
    fields: &[Field],
    json: &Value,
) -> Result<(), AllocError> {
    explain_listed(alloc, out, place, fields, &[], json)
}

/// The items of the array under a key; none if there is no such array.
fn items_at<'v>(json: &'v Value, key: &str) -> &'v [Value] {
    match json.get(key) {
        Some(Value::Array(items)) => items.as_slice(),
        _ => &[],
    }
}

/// Whether the JSON object of an attribute says that the attribute is unsettable and not single.
fn unsets_many(json: &Value) -> bool {
    let is_single = match json.get("upper") {
        Some(upper) => upper.as_i64() == Some(1),
        None => true,
    };
    match json.get("unsettable") {
        Some(Value::Bool(true)) => !is_single,
        _ => false,
    }
}

fn explain_attribute(
    alloc: Global,
    out: &mut String,
    place: &str,
    json: &Value,
) -> Result<(), AllocError> {
    if out.len() > ENOUGH {
        return Ok(());
    }
    explain_listed(alloc, out, place, &ATTRIBUTE, &MISPLACED, json)?;
    if unsets_many(json) {
        return writeln!(
            out,
            "{place}: \"unsettable\" is true, and goes with \"upper\" 1 alone"
        );
    }
    Ok(())
}

fn explain_feature(
    alloc: Global,
    out: &mut String,
    place: &str,
    json: &Value,
) -> Result<(), AllocError> {
    match json.get("kind") {
        Some(Value::String(kind)) if kind.as_str() == "attribute" => {
            explain_attribute(alloc, out, place, json)
        }
        Some(Value::String(kind)) if kind.as_str() == "reference" => {
            explain_listed(alloc, out, place, &REFERENCE, &MISPLACED, json)
        }
        _ => explain_listed(alloc, out, place, &FEATURE, &MISPLACED, json),
    }
}

/// The name that an object has, if the name is a text: at most its first 60 bytes, in whole characters.
fn name_in(json: &Value) -> Option<&str> {
    match json.get("name") {
        Some(Value::String(name)) => Some(front_of(name.as_str(), SHOWN_BYTES)),
        _ => None,
    }
}

/// The place of an enumeration or a class in words for a reader, with the name of the enumeration or class if it can be read.
fn place_of(
    alloc: Global,
    key: &str,
    i: usize,
    what: &str,
    json: &Value,
) -> Result<String, AllocError> {
    match name_in(json) {
        Some(name) => format!(in alloc; "{key}[{i}] ({what} {})", Bare(name)),
        None => format!(in alloc; "{key}[{i}]"),
    }
}

/// The place of a feature in words for a reader, with the names of its class and of the feature, as far as the names can be read.
fn feature_place(
    alloc: Global,
    c: usize,
    class: &Value,
    i: usize,
    json: &Value,
) -> Result<String, AllocError> {
    let place = format!(in alloc; "classes[{c}].features[{i}]")?;
    match (name_in(class), name_in(json)) {
        (Some(class), Some(name)) => {
            let (class, name) = (Bare(class), Bare(name));
            format!(in alloc; "{place} (class {class}, feature {name})")
        }
        (Some(class), None) => format!(in alloc; "{place} (class {})", Bare(class)),
        (None, Some(name)) => format!(in alloc; "{place} (feature {})", Bare(name)),
        (None, None) => Ok(place),
    }
}

fn explain_features(
    alloc: Global,
    out: &mut String,
    c: usize,
    class: &Value,
) -> Result<(), AllocError> {
    for (i, json) in items_at(class, "features").iter().enumerate() {
        let place = feature_place(alloc, c, class, i, json)?;
        explain_feature(alloc, out, place.as_str(), json)?;
    }
    Ok(())
}

fn explain_classes(alloc: Global, out: &mut String, classes: &[Value]) -> Result<(), AllocError> {
    for (c, json) in classes.iter().enumerate() {
        let place = place_of(alloc, "classes", c, "class", json)?;
        explain_listed(alloc, out, place.as_str(), &CLASS, &MISPLACED, json)?;
        explain_features(alloc, out, c, json)?;
    }
    Ok(())
}

fn explain_enums(alloc: Global, out: &mut String, enums: &[Value]) -> Result<(), AllocError> {
    for (i, json) in enums.iter().enumerate() {
        let place = place_of(alloc, "enums", i, "enumeration", json)?;
        explain_listed(alloc, out, place.as_str(), &ENUMERATION, &MISPLACED, json)?;
    }
    Ok(())
}

/// Adds a line for each fault of the layout of a document, and for each limit that is exceeded. Once `out` has more than 4,096 bytes, no
/// further object is looked at.
pub(crate) fn explain_layout(
    alloc: Global,
    out: &mut String,
    json: &Value,
) -> Result<(), AllocError> {
    explain_listed(alloc, out, "document", &DOCUMENT, &MISPLACED, json)?;
    explain_enums(alloc, out, items_at(json, "enums"))?;
    explain_classes(alloc, out, items_at(json, "classes"))
}
