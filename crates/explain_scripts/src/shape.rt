//! What is wrong with the shape of a document: its layout, the names of classes and features in it, and its depth.
use crate::listed::{class_names, feature_names};
use crate::parts::Part;
use crate::written::known;
use explain::{Field, Sort, explain_object, nearest};
use mm_meta::Meta;
use mm_types::{ClassNo, limits};
use serde_json::{Map, Value};
use std::alloc::{AllocError, Global};

const DOCUMENT: [Field; 2] = [
    Field {
        key: "format",
        sort: Sort::Long,
        is_required: true,
    },
    Field {
        key: "roots",
        sort: Sort::Objects(limits::LIST_VALUES),
        is_required: true,
    },
];

const OBJECT: [Field; 2] = [
    Field {
        key: "class",
        sort: Sort::Text(limits::TEXT_BYTES),
        is_required: true,
    },
    Field {
        key: "features",
        sort: Sort::Object,
        is_required: true,
    },
];

/// Explains what is wrong with the keys of the document itself, `format` and `roots`, and with their values.
pub(crate) fn explain_top(
    alloc: Global,
    out: &mut String,
    prefix: &str,
    json: &Value,
) -> Result<(), AllocError> {
    explain_object(alloc, out, prefix, &DOCUMENT, json)
}

/// Explains what is wrong with the keys of each object, `class` and `features`, and with their values. A value that is no object is a fault
/// of the layout only if it is a root. Under a containment, it is a fault with the cause `Value`.
pub(crate) fn explain_objects(
    alloc: Global,
    out: &mut String,
    parts: &[Part<'_>],
) -> Result<(), AllocError> {
    for part in parts {
        if part.level == 1 || part.json.is_object() {
            explain_object(alloc, out, part.path.as_str(), &OBJECT, part.json)?;
        }
    }
    Ok(())
}

fn explain_class(
    alloc: Global,
    out: &mut String,
    meta: &Meta,
    path: &str,
    name: &str,
) -> Result<(), AllocError> {
    if let Some(class) = meta.class_by_name(name) {
        return if meta.is_concrete(class) {
            Ok(())
        } else {
            writeln!(out, "{path}: class {name} is abstract; name a subclass")
        };
    }
    let names = class_names(alloc, meta)?;
    match nearest(alloc, name, names.as_slice())? {
        Some(meant) => writeln!(out, "{path}: {name:?} is no class; is {meant:?} meant?"),
        None => writeln!(out, "{path}: {name:?} is no class"),
    }
}

fn explain_key(
    alloc: Global,
    out: &mut String,
    meta: &Meta,
    path: &str,
    class: ClassNo,
    key: &str,
) -> Result<(), AllocError> {
    let name = meta.class_name(class);
    if let Some(feature) = meta.feature_by_name(class, key) {
        return if meta.is_container(feature) {
            writeln!(
                out,
                "{path}.features: {key:?} leads to the container, and has to be left out"
            )
        } else {
            Ok(())
        };
    }
    let names = feature_names(alloc, meta, meta.features(class).unwrap_or(&[]))?;
    match nearest(alloc, key, names.as_slice())? {
        Some(meant) => writeln!(
            out,
            "{path}.features: {key:?} is no feature of {name}; is {meant:?} meant?"
        ),
        None => writeln!(out, "{path}.features: {key:?} is no feature of {name}"),
    }
}

fn explain_members(
    alloc: Global,
    out: &mut String,
    meta: &Meta,
    path: &str,
    class: ClassNo,
    members: &Map<String, Value>,
) -> Result<(), AllocError> {
    for key in members.keys() {
        explain_key(alloc, out, meta, path, class, key.as_str())?;
    }
    Ok(())
}

/// Which names of a document are looked at.
#[derive(Clone, Copy)]
pub(crate) enum Names {
    /// The names of classes: a name that is unknown, or that is the name of an abstract class, is not allowed.
    Classes,
    /// The names of features: a name that is unknown, or that is the name of a container reference, is not allowed.
    Features,
}

fn explain_names_in(
    alloc: Global,
    out: &mut String,
    meta: &Meta,
    part: &Part<'_>,
    names: Names,
) -> Result<(), AllocError> {
    let path = part.path.as_str();
    match names {
        Names::Classes => match part.json.get("class") {
            Some(Value::String(name)) => explain_class(alloc, out, meta, path, name.as_str()),
            _ => Ok(()),
        },
        Names::Features => match known(meta, part.json) {
            Some((class, members)) => explain_members(alloc, out, meta, path, class, members),
            None => Ok(()),
        },
    }
}

/// Explains which names in a document are not allowed at their places; `names` says whether names of classes or of features are looked at.
pub(crate) fn explain_names(
    alloc: Global,
    out: &mut String,
    meta: &Meta,
    parts: &[Part<'_>],
    names: Names,
) -> Result<(), AllocError> {
    for part in parts {
        explain_names_in(alloc, out, meta, part, names)?;
    }
    Ok(())
}

/// Explains which object is the first at a deeper level than `limits::LEVELS`, the deepest level that a document can have.
pub(crate) fn explain_depth(out: &mut String, parts: &[Part<'_>]) -> Result<(), AllocError> {
    for part in parts {
        if part.level > limits::LEVELS {
            let path = part.path.as_str();
            return writeln!(
                out,
                "{path}: it stands at level {}, and the last is {}",
                part.level,
                limits::LEVELS
            );
        }
    }
    Ok(())
}
