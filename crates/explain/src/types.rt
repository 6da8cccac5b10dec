//! Names that should be names of classes or types, and are not.
use crate::named::{Named, class_at, class_named, enum_named};
use crate::near::{is_among, nearest};
use mm_types::{RawFeature, RawKind, RawMeta};
use std::alloc::{AllocError, Global};

/// The names of the data types.
const DATA_TYPES: [&str; 4] = ["EString", "EInt", "ELong", "EBoolean"];

/// The names of the classes.
fn class_names<'m>(alloc: Global, raw: &'m RawMeta) -> Result<Vec<&'m str>, AllocError> {
    let mut names = Vec::new(alloc);
    for class in raw.classes() {
        names.push(class.name.as_str())?;
    }
    Ok(names)
}

/// The names of the enumerations.
fn enum_names<'m>(alloc: Global, raw: &'m RawMeta) -> Result<Vec<&'m str>, AllocError> {
    let mut names = Vec::new(alloc);
    for found in raw.enums() {
        names.push(found.name.as_str())?;
    }
    Ok(names)
}

/// Explains a name that is not among the allowed names `names`; `wanted` says what the name has to name, such as a class.
fn explain_name(
    alloc: Global,
    out: &mut String,
    at: Named<'_>,
    name: &str,
    wanted: &str,
    names: &[&str],
) -> Result<(), AllocError> {
    match nearest(alloc, name, names)? {
        Some(meant) => writeln!(out, "{at}: {name:?} is no {wanted}; is {meant:?} meant?"),
        None => writeln!(out, "{at}: {name:?} is no {wanted}"),
    }
}

/// Explains a name that no class has, and that has to be the name of a class.
fn explain_class(
    alloc: Global,
    out: &mut String,
    at: Named<'_>,
    name: &str,
) -> Result<(), AllocError> {
    let names = class_names(alloc, at.raw)?;
    explain_name(alloc, out, at, name, "class", names.as_slice())
}

/// Explains a name that no data type and no enumeration has, and that has to be the name of a data type or an enumeration.
fn explain_data_type(
    alloc: Global,
    out: &mut String,
    at: Named<'_>,
    name: &str,
) -> Result<(), AllocError> {
    if nearest(alloc, name, &DATA_TYPES)?.is_some() {
        return explain_name(alloc, out, at, name, "data type", &DATA_TYPES);
    }
    let names = enum_names(alloc, at.raw)?;
    match nearest(alloc, name, names.as_slice())? {
        Some(meant) => writeln!(
            out,
            "{at}: {name:?} is no data type and no enumeration; is {meant:?} meant?"
        ),
        None => writeln!(
            out,
            "{at}: {name:?} is no data type and no enumeration; the data types are EString, EInt, ELong and EBoolean"
        ),
    }
}

/// The first name among a class's direct supertypes that no class has; `None` if all are names of classes.
fn lost_super(raw: &RawMeta, c: usize) -> Option<&str> {
    for name in class_at(raw, c)?.supers.as_slice() {
        if class_named(raw, name.as_str()).is_none() {
            return Some(name.as_str());
        }
    }
    None
}

/// Explains the first name among the direct supertypes of a class that no class has.
pub(crate) fn explain_super(
    alloc: Global,
    out: &mut String,
    at: Named<'_>,
    c: usize,
) -> Result<(), AllocError> {
    match lost_super(at.raw, c) {
        Some(name) => explain_class(alloc, out, at, name),
        None => Ok(()),
    }
}

/// Explains what is wrong with the type of a feature. The feature is an attribute whose type is no data type and no enumeration, or a
/// reference whose type is no class.
pub(crate) fn explain_type(
    alloc: Global,
    out: &mut String,
    at: Named<'_>,
    feature: &RawFeature,
) -> Result<(), AllocError> {
    let name = feature.type_name.as_str();
    let is_class = class_named(at.raw, name).is_some();
    let is_attribute = matches!(feature.kind, RawKind::Attribute { .. });
    if is_attribute && !is_class {
        return explain_data_type(alloc, out, at, name);
    }
    if !is_class && !is_among(&DATA_TYPES, name) && enum_named(at.raw, name).is_none() {
        return explain_class(alloc, out, at, name);
    }
    let (what, kind) = if is_class {
        ("a class", "reference")
    } else {
        ("no class", "attribute")
    };
    writeln!(
        out,
        "{at}: its type {name:?} is {what}; its \"kind\" may be meant to be {kind:?}"
    )
}
