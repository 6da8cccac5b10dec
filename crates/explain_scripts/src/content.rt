//! What is wrong with the contents of features: values of a wrong type, and lists that are too long.
use crate::parts::{At, Entry};
use crate::written::{class_of, is_attribute_value, values_of};
use explain::Shown;
use mm_meta::Meta;
use mm_types::{ClassNo, DataType, Kind, limits};
use serde_json::Value;
use std::alloc::AllocError;
use std::fmt;

/// The values of a data type, in words for a reader.
#[derive(Drop)]
struct Values<'m> {
    data_type: DataType,
    meta: &'m Meta,
}

impl fmt::Display for Values<'_> {
    fn fmt<W: fmt::Write>(&self, f: &mut fmt::Formatter<W>) -> fmt::Result {
        match self.data_type {
            DataType::EString => write!(f, "a text of at most {} bytes", limits::TEXT_BYTES),
            DataType::EInt => write!(f, "a whole number of 32 bits"),
            DataType::ELong => write!(f, "a whole number of 64 bits"),
            DataType::EBoolean => write!(f, "true or false"),
            DataType::Enum(e) => match self.meta.literal(e, 0) {
                Some(first) => write!(f, "a literal of its enumeration, as {first:?}"),
                None => write!(f, "a literal of its enumeration"),
            },
        }
    }
}

fn explain_part(
    out: &mut String,
    meta: &Meta,
    at: At<'_>,
    target: ClassNo,
    json: &Value,
) -> Result<(), AllocError> {
    let wanted = meta.class_name(target);
    match class_of(meta, json) {
        Some(class) if meta.conforms(class, target) => Ok(()),
        Some(class) => {
            let found = meta.class_name(class);
            writeln!(out, "{at}: it is a {found}, and has to be a {wanted}")
        }
        None if json.is_object() => Ok(()),
        None => writeln!(
            out,
            "{at}: it is {}, and has to be an object of class {wanted}",
            Shown(json)
        ),
    }
}

fn explain_reference(out: &mut String, at: At<'_>, json: &Value) -> Result<(), AllocError> {
    match json.as_str() {
        Some(text) if text.len() <= limits::TEXT_BYTES => Ok(()),
        _ => writeln!(
            out,
            "{at}: it is {}, and has to be the text of a reference, as \"//@books.0\"",
            Shown(json)
        ),
    }
}

fn explain_attribute(
    out: &mut String,
    meta: &Meta,
    at: At<'_>,
    data_type: DataType,
    json: &Value,
) -> Result<(), AllocError> {
    if is_attribute_value(meta, at.is_single, data_type, json) {
        return Ok(());
    }
    let wanted = Values { data_type, meta };
    writeln!(out, "{at}: it is {}, and has to be {wanted}", Shown(json))
}

fn explain_value(
    out: &mut String,
    meta: &Meta,
    at: At<'_>,
    kind: &Kind,
    json: &Value,
) -> Result<(), AllocError> {
    match kind {
        Kind::Attribute { value_type, .. } => {
            explain_attribute(out, meta, at, *value_type, json)
        }
        Kind::Reference {
            target,
            containment: true,
            ..
        } => explain_part(out, meta, at, *target, json),
        Kind::Reference { .. } => explain_reference(out, at, json),
    }
}

fn explain_entry(out: &mut String, meta: &Meta, entry: &Entry<'_>) -> Result<(), AllocError> {
    if !entry.is_single && !entry.content.is_array() {
        let path = entry.path.as_str();
        return writeln!(
            out,
            "{path}: it is {}, and has to be an array",
            Shown(entry.content)
        );
    }
    let Some(feature) = meta.feature(entry.feature) else {
        return Ok(());
    };
    for (i, json) in values_of(meta, entry.feature, entry.content)
        .iter()
        .enumerate()
    {
        explain_value(out, meta, entry.at(i), &feature.kind, json)?;
    }
    Ok(())
}

/// Explains which values are not of their feature's type, and which contents of many-valued features are no arrays.
pub(crate) fn explain_values(
    out: &mut String,
    meta: &Meta,
    entries: &[Entry<'_>],
) -> Result<(), AllocError> {
    for entry in entries {
        explain_entry(out, meta, entry)?;
    }
    Ok(())
}

fn explain_bound(out: &mut String, meta: &Meta, entry: &Entry<'_>) -> Result<(), AllocError> {
    let Some(feature) = meta.feature(entry.feature) else {
        return Ok(());
    };
    let most = match usize::try_from(feature.upper) {
        Ok(upper) => upper.min(limits::LIST_VALUES),
        Err(_) => limits::LIST_VALUES,
    };
    let count = values_of(meta, entry.feature, entry.content).len();
    if count <= most {
        return Ok(());
    }
    let path = entry.path.as_str();
    writeln!(
        out,
        "{path}: it has {count} values, and at most {most} are accepted"
    )
}

/// Explains which lists have too many values: more than their upper bounds, or more than `limits::LIST_VALUES`.
pub(crate) fn explain_bounds(
    out: &mut String,
    meta: &Meta,
    entries: &[Entry<'_>],
) -> Result<(), AllocError> {
    for entry in entries {
        explain_bound(out, meta, entry)?;
    }
    Ok(())
}
