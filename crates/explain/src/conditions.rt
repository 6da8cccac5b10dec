//! What is wrong with a metamodel whose document has the right layout.
use crate::bounds::{explain_bounds, explain_default};
use crate::duplicates::explain_duplicate;
use crate::inherited::explain_cycle;
use crate::named::{Named, enum_at, feature_at, name_at};
use crate::opposites::explain_opposite;
use crate::types::{explain_super, explain_type};
use mm_types::names::is_name;
use mm_types::{Condition, Place, RawMeta};
use std::alloc::{AllocError, Global};

fn is_bad(name: &str) -> bool {
    !is_name(name.as_bytes())
}

/// The first literal of an enumeration that is no name; `None` if all literals are names.
fn bad_literal(raw: &RawMeta, i: usize) -> Option<&str> {
    for literal in enum_at(raw, i)?.literals.as_slice() {
        if is_bad(literal.as_str()) {
            return Some(literal.as_str());
        }
    }
    None
}

/// The badly written name at a place: the name of the enumeration, class or feature there. If the name of an enumeration is well written,
/// the badly written name is the first of its literals that is no name.
fn bad_name(at: Named<'_>) -> &str {
    let name = name_at(at.raw, at.place);
    match at.place {
        Place::Enum(i) if !is_bad(name) => bad_literal(at.raw, i).unwrap_or(name),
        _ => name,
    }
}

/// Explains a name that is badly written.
fn explain_name(out: &mut String, at: Named<'_>) -> Result<(), AllocError> {
    let name = bad_name(at);
    writeln!(
        out,
        "{at}: {name:?} is no name; a name is a letter or _, and then letters, digits and _"
    )
}

/// Explains what is wrong with the feature at a place at which `condition` applies.
fn explain_feature(
    alloc: Global,
    out: &mut String,
    condition: Condition,
    at: Named<'_>,
) -> Result<(), AllocError> {
    let Some(feature) = feature_at(at.raw, at.place) else {
        return Ok(());
    };
    match condition {
        Condition::NoType => explain_type(alloc, out, at, feature),
        Condition::Bounds => explain_bounds(out, at, feature),
        Condition::Default => explain_default(alloc, out, at, feature),
        _ => explain_opposite(alloc, out, condition, at, feature),
    }
}

/// Explains what is wrong at a place at which a condition applies.
pub(crate) fn explain_condition(
    alloc: Global,
    out: &mut String,
    condition: Condition,
    at: Named<'_>,
) -> Result<(), AllocError> {
    match (condition, at.place) {
        (Condition::Name, _) => explain_name(out, at),
        (Condition::DuplicateName, _) => explain_duplicate(alloc, out, at),
        (Condition::NoType, Place::Class(c)) => explain_super(alloc, out, at, c),
        (Condition::Cycle, Place::Class(c)) => explain_cycle(alloc, out, at, c),
        _ => explain_feature(alloc, out, condition, at),
    }
}
