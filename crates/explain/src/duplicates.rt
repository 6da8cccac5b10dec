//! Names that occur twice, although they may occur only once, and names that are reserved.
use crate::inherited::Ancestry;
use crate::named::{Named, class_at, class_named, enum_at, enum_named, name_at};
use crate::near::is_among;
use mm_types::{Place, RawMeta, Text};
use std::alloc::{AllocError, Global};
use std::collections::BTreeMap;

/// The names that no enumeration and no class may have.
const RESERVED: [&str; 5] = ["EString", "EInt", "ELong", "EBoolean", "Resource"];

/// The position of the first of `texts` that is the same as `text`; `None` if no text before the position `end` is the same.
fn position_before(texts: &[Text], end: usize, text: &str) -> Option<usize> {
    for (i, other) in texts.iter().enumerate() {
        if i < end && other.as_str() == text {
            return Some(i);
        }
    }
    None
}

/// Adds a line for each text of an array that is the same as an earlier text of this array; `key` is the key of the array.
fn explain_repeated(
    out: &mut String,
    at: Named<'_>,
    key: &str,
    texts: &[Text],
) -> Result<(), AllocError> {
    for (j, text) in texts.iter().enumerate() {
        if let Some(i) = position_before(texts, j, text.as_str()) {
            writeln!(out, "{at}: {key}[{i}] and {key}[{j}] are the same name")?;
        }
    }
    Ok(())
}

fn features_of(alloc: Global, raw: &RawMeta, class: usize) -> Result<Vec<Place>, AllocError> {
    let ancestry = Ancestry::of(alloc, raw, class)?;
    ancestry.features(alloc, raw)
}

/// Two places with the same name, the earlier place first; `None` if no two places have the same name. The later place is the first place
/// whose name an earlier place has.
fn clash_in(
    alloc: Global,
    raw: &RawMeta,
    places: &[Place],
) -> Result<Option<(Place, Place)>, AllocError> {
    let mut seen: BTreeMap<&str, Place> = BTreeMap::new(alloc);
    for place in places {
        if let Some(first) = seen.insert(name_at(raw, *place), *place)? {
            return Ok(Some((first, *place)));
        }
    }
    Ok(None)
}

/// Explains two features with the same name. If one class declares both, their positions distinguish them.
fn explain_pair(
    out: &mut String,
    at: Named<'_>,
    first: Place,
    second: Place,
) -> Result<(), AllocError> {
    let raw = at.raw;
    let one = Named { raw, place: first };
    let other = Named { raw, place: second };
    match (first, second) {
        (Place::Feature(c, i), Place::Feature(d, j)) if c == d => writeln!(
            out,
            "{at}: it has two features of one name: {one}, at features[{i}] and features[{j}]"
        ),
        _ => writeln!(
            out,
            "{at}: it has two features of one name: {one}, and {other}"
        ),
    }
}

fn explain_places(
    alloc: Global,
    out: &mut String,
    at: Named<'_>,
    places: &[Place],
) -> Result<(), AllocError> {
    match clash_in(alloc, at.raw, places)? {
        Some((first, second)) => explain_pair(out, at, first, second),
        None => Ok(()),
    }
}

/// Explains which two features of a class, own or inherited, have the same name. Adds nothing if all features have different names.
fn explain_clash(
    alloc: Global,
    out: &mut String,
    at: Named<'_>,
    class: usize,
) -> Result<(), AllocError> {
    let places = features_of(alloc, at.raw, class)?;
    explain_places(alloc, out, at, places.as_slice())
}

/// Explains what occurs twice in an enumeration or a class: a literal of the enumeration; a supertype of the class, or the name of a
/// feature.
fn explain_inner(alloc: Global, out: &mut String, at: Named<'_>) -> Result<(), AllocError> {
    match at.place {
        Place::Enum(i) => match enum_at(at.raw, i) {
            Some(found) => explain_repeated(out, at, "literals", found.literals.as_slice()),
            None => Ok(()),
        },
        Place::Class(c) => {
            if let Some(found) = class_at(at.raw, c) {
                explain_repeated(out, at, "supers", found.supers.as_slice())?;
            }
            explain_clash(alloc, out, at, c)
        }
        Place::Feature(_, _) => Ok(()),
    }
}

/// The place of the first enumeration or class with a name; `None` if this place does not come before `place`, which is the place of an
/// enumeration or a class. All enumerations come before all classes.
fn earlier(raw: &RawMeta, name: &str, place: Place) -> Option<Place> {
    match (place, enum_named(raw, name), class_named(raw, name)) {
        (Place::Enum(i), Some(e), _) if e < i => Some(Place::Enum(e)),
        (Place::Class(_), Some(e), _) => Some(Place::Enum(e)),
        (Place::Class(c), None, Some(k)) if k < c => Some(Place::Class(k)),
        _ => None,
    }
}

/// Explains a name that occurs twice, although it may occur only once, or a name that is reserved.
pub(crate) fn explain_duplicate(
    alloc: Global,
    out: &mut String,
    at: Named<'_>,
) -> Result<(), AllocError> {
    let name = name_at(at.raw, at.place);
    if is_among(&RESERVED, name) {
        return writeln!(out, "{at}: the name is reserved for a type of EMF");
    }
    match earlier(at.raw, name, at.place) {
        Some(first) => writeln!(out, "{at}: {first} and {} have one name", at.place),
        None => explain_inner(alloc, out, at),
    }
}
