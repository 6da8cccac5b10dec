//! What is wrong with the bounds and the default of a feature.
use crate::named::{Named, enum_at, enum_named};
use crate::shown::{Listed, SHOWN_BYTES, front_of};
use mm_types::{Enumeration, RawFeature, RawKind, RawMeta};
use std::alloc::{AllocError, Global};

/// Explains bounds that are out of range, or a lower bound that is above the upper bound.
pub(crate) fn explain_bounds(
    out: &mut String,
    at: Named<'_>,
    feature: &RawFeature,
) -> Result<(), AllocError> {
    let lower = feature.lower;
    let upper = feature.upper;
    let wanted = if lower < 0 {
        "a lower is 0 at least"
    } else if upper < 1 {
        "an upper is 1 at least, or -1 for any number"
    } else {
        "a lower is not above the upper, which is 1 where it is absent"
    };
    writeln!(
        out,
        "{at}: its lower is {lower} and its upper {upper}; {wanted}"
    )
}

/// Says how a default of the type EBoolean, EInt or ELong may be written.
fn literals_of(type_name: &str) -> &'static str {
    match type_name {
        "EBoolean" => "true or false",
        _ =>
            "a whole number within the type's range, without a plus sign and without leading zeros",
    }
}

/// The literals of an enumeration.
fn literals_in<'m>(alloc: Global, found: &'m Enumeration) -> Result<Vec<&'m str>, AllocError> {
    let mut literals = Vec::new(alloc);
    for literal in found.literals.as_slice() {
        literals.push(literal.as_str())?;
    }
    Ok(literals)
}

/// The enumeration with the name `type_name`, which is the type of a feature; `None` if no enumeration has this name.
fn enumeration_of<'m>(raw: &'m RawMeta, type_name: &str) -> Option<&'m Enumeration> {
    enum_at(raw, enum_named(raw, type_name)?)
}

/// Explains the default `literal`, which is no literal of the type `type_name`.
fn explain_literal(
    alloc: Global,
    out: &mut String,
    at: Named<'_>,
    literal: &str,
    type_name: &str,
) -> Result<(), AllocError> {
    let literal = front_of(literal, SHOWN_BYTES);
    match enumeration_of(at.raw, type_name) {
        Some(found) => {
            let literals = literals_in(alloc, found)?;
            writeln!(
                out,
                "{at}: its default {literal:?} is none of {type_name}; it has to be the name of a literal: {}",
                Listed(literals.as_slice())
            )
        }
        None => writeln!(
            out,
            "{at}: its default {literal:?} is none of {type_name}; it has to be {}",
            literals_of(type_name)
        ),
    }
}

/// Explains a default of a many-valued attribute, or a default that is no literal of the attribute's type.
pub(crate) fn explain_default(
    alloc: Global,
    out: &mut String,
    at: Named<'_>,
    feature: &RawFeature,
) -> Result<(), AllocError> {
    let RawKind::Attribute {
        default: Some(literal),
        ..
    } = &feature.kind
    else {
        return Ok(());
    };
    if feature.upper != 1 {
        return writeln!(
            out,
            "{at}: it is many-valued, and begins empty; leave its default out"
        );
    }
    explain_literal(alloc, out, at, literal.as_str(), feature.type_name.as_str())
}
