//! What is wrong with the opposite of a reference.
use crate::inherited::Ancestry;
use crate::named::{Named, class_at, class_named, feature_at, feature_named, name_at, opposite_of};
use crate::near::nearest;
use mm_types::{Condition, Place, RawFeature, RawKind, RawMeta};
use std::alloc::{AllocError, Global};

/// The feature that the type of the reference `feature` declares under the name `name`. Features that the type inherits do not count.
fn declared_of<'m>(raw: &'m RawMeta, feature: &RawFeature, name: &str) -> Option<&'m RawFeature> {
    let class = class_named(raw, feature.type_name.as_str())?;
    feature_named(class_at(raw, class)?, name)
}

/// The name of the class that declares the feature at a place; empty for the place of an enumeration or a class.
fn owner_of(at: Named<'_>) -> &str {
    match at.place {
        Place::Feature(c, _) => name_at(at.raw, Place::Class(c)),
        Place::Enum(_) | Place::Class(_) => "",
    }
}

/// What is wrong with a feature that a reference names as its opposite.
#[derive(Clone, Copy)]
enum Wrong<'m> {
    IsAttribute,
    NoOpposite,
    /// The feature names a different opposite.
    Names(&'m str),
    /// The type of the feature is not the class that declares the reference.
    HasType(&'m str),
    IsItself,
}

/// What is wrong with `other`, the feature that the reference `feature` names as its opposite. `at` is the place of the reference.
fn wrong_with<'m>(at: Named<'_>, feature: &RawFeature, other: &'m RawFeature) -> Wrong<'m> {
    if matches!(other.kind, RawKind::Attribute { .. }) {
        return Wrong::IsAttribute;
    }
    let Some(back) = opposite_of(other) else {
        return Wrong::NoOpposite;
    };
    if back != feature.name.as_str() {
        return Wrong::Names(back);
    }
    if other.type_name.as_str() != owner_of(at) {
        return Wrong::HasType(other.type_name.as_str());
    }
    Wrong::IsItself
}

/// Whether the class with the name `name` inherits from a different class, which has the name `from`.
fn inherits(alloc: Global, raw: &RawMeta, name: &str, from: &str) -> Result<bool, AllocError> {
    let (Some(class), Some(other)) = (class_named(raw, name), class_named(raw, from)) else {
        return Ok(false);
    };
    let ancestry = Ancestry::of(alloc, raw, class)?;
    Ok(class != other && ancestry.has(other))
}

/// Ends a line about the opposite of the reference `feature`. The type of the opposite, `found`, is not the class that declares `feature`.
fn explain_type(
    alloc: Global,
    out: &mut String,
    at: Named<'_>,
    feature: &RawFeature,
    found: &str,
) -> Result<(), AllocError> {
    let owner = owner_of(at);
    if inherits(alloc, at.raw, found, owner)? {
        let name = feature.name.as_str();
        return writeln!(
            out,
            "has the type {found:?}, which inherits this reference; declare {name:?} in {found} and not in {owner}, or give the opposite the type {owner:?}"
        );
    }
    writeln!(
        out,
        "has the type {found:?}, and has to have {owner:?}, the class that declares this reference"
    )
}

/// Explains a reference that can't have its opposite: the type of the reference declares a feature with the opposite's name, but this
/// feature does not fit.
fn explain_declared(
    alloc: Global,
    out: &mut String,
    at: Named<'_>,
    feature: &RawFeature,
    other: &RawFeature,
) -> Result<(), AllocError> {
    let name = other.name.as_str();
    let class = feature.type_name.as_str();
    write!(out, "{at}: its opposite {name:?} of {class} ")?;
    match wrong_with(at, feature, other) {
        Wrong::IsAttribute => writeln!(out, "is an attribute"),
        Wrong::NoOpposite => writeln!(out, "names no opposite"),
        Wrong::Names(back) => writeln!(out, "names {back:?}"),
        Wrong::HasType(found) => explain_type(alloc, out, at, feature, found),
        Wrong::IsItself => writeln!(out, "is the reference itself"),
    }
}

/// Whether a feature is a reference.
fn is_reference(feature: &RawFeature) -> bool {
    matches!(feature.kind, RawKind::Reference { .. })
}

/// Whether the feature at a place is a reference with a given name.
fn is_reference_at(raw: &RawMeta, place: Place, name: &str) -> bool {
    match feature_at(raw, place) {
        Some(feature) => is_reference(feature) && feature.name.as_str() == name,
        None => false,
    }
}

/// The name of the class that declares a reference with the name `name`: the class at the position `class`, or a class from which it
/// inherits; `None` if none of these classes does.
fn declaring<'m>(
    alloc: Global,
    raw: &'m RawMeta,
    class: usize,
    name: &str,
) -> Result<Option<&'m str>, AllocError> {
    let ancestry = Ancestry::of(alloc, raw, class)?;
    for place in ancestry.features(alloc, raw)? {
        if let Place::Feature(c, _) = place
            && is_reference_at(raw, place, name)
        {
            return Ok(Some(name_at(raw, Place::Class(c))));
        }
    }
    Ok(None)
}

/// The names of the references that a class itself declares.
fn reference_names<'m>(
    alloc: Global,
    raw: &'m RawMeta,
    class: usize,
) -> Result<Vec<&'m str>, AllocError> {
    let mut names = Vec::new(alloc);
    let features = match class_at(raw, class) {
        Some(class) => class.features.as_slice(),
        None => &[],
    };
    for feature in features {
        if is_reference(feature) {
            names.push(feature.name.as_str())?;
        }
    }
    Ok(names)
}

/// Explains a reference that names no valid opposite.
fn explain_none(
    alloc: Global,
    out: &mut String,
    at: Named<'_>,
    feature: &RawFeature,
    opposite: &str,
) -> Result<(), AllocError> {
    if let Some(other) = declared_of(at.raw, feature, opposite) {
        return explain_declared(alloc, out, at, feature, other);
    }
    let class = feature.type_name.as_str();
    let Some(number) = class_named(at.raw, class) else {
        return Ok(());
    };
    write!(
        out,
        "{at}: its opposite {opposite:?} is no feature that {class} declares itself"
    )?;
    if let Some(owner) = declaring(alloc, at.raw, number, opposite)? {
        return writeln!(
            out,
            "; declare it in {class} and not in {owner}, or give this reference the type {owner:?}"
        );
    }
    let names = reference_names(alloc, at.raw, number)?;
    match nearest(alloc, opposite, names.as_slice())? {
        Some(meant) => writeln!(out, "; is {meant:?} meant?"),
        None => writeln!(out),
    }
}

/// Explains one of the conditions `Opposite`, `BothContain` and `ContainerBound`, which concern a reference and its opposite.
pub(crate) fn explain_opposite(
    alloc: Global,
    out: &mut String,
    condition: Condition,
    at: Named<'_>,
    feature: &RawFeature,
) -> Result<(), AllocError> {
    let Some(opposite) = opposite_of(feature) else {
        return Ok(());
    };
    let class = feature.type_name.as_str();
    let upper = feature.upper;
    match condition {
        Condition::BothContain => writeln!(
            out,
            "{at}: it and its opposite {opposite:?} of {class} are both containments; only the end of the holder may be one"
        ),
        Condition::ContainerBound => writeln!(
            out,
            "{at}: its upper is {upper}, and has to be 1, since its opposite {opposite:?} of {class} is a containment"
        ),
        _ => explain_none(alloc, out, at, feature, opposite),
    }
}
