//! Finds the classes, features and enumerations of a document by name or by place, and prints places for a reader.
use mm_types::{Enumeration, Place, RawClass, RawFeature, RawKind, RawMeta};
use std::fmt;

/// A place of a document. It is printed for a reader by the names at the place, as `class Book, feature pages`.
#[derive(Clone, Copy)]
pub(crate) struct Named<'m> {
    pub(crate) raw: &'m RawMeta,
    pub(crate) place: Place,
}

/// A name. It is printed as `{:?}` prints it, but without the quotation marks around it.
#[derive(Drop)]
pub(crate) struct Bare<'m>(pub(crate) &'m str);

impl fmt::Display for Bare<'_> {
    fn fmt<W: fmt::Write>(&self, f: &mut fmt::Formatter<W>) -> fmt::Result {
        for character in self.0.chars() {
            if character == '\'' {
                write!(f, "{character}")?;
            } else {
                write!(f, "{}", character.escape_debug())?;
            }
        }
        Ok(())
    }
}

impl fmt::Display for Named<'_> {
    fn fmt<W: fmt::Write>(&self, f: &mut fmt::Formatter<W>) -> fmt::Result {
        let name = Bare(name_at(self.raw, self.place));
        match self.place {
            Place::Enum(_) => write!(f, "enumeration {name}"),
            Place::Class(_) => write!(f, "class {name}"),
            Place::Feature(c, _) => {
                let class = Bare(name_at(self.raw, Place::Class(c)));
                write!(f, "class {class}, feature {name}")
            }
        }
    }
}

/// The enumeration at a position.
pub(crate) fn enum_at(raw: &RawMeta, i: usize) -> Option<&Enumeration> {
    raw.enums().get(i)
}

/// The class at a position.
pub(crate) fn class_at(raw: &RawMeta, c: usize) -> Option<&RawClass> {
    raw.classes().get(c)
}

/// The feature at a place.
pub(crate) fn feature_at(raw: &RawMeta, place: Place) -> Option<&RawFeature> {
    match place {
        Place::Feature(c, i) => class_at(raw, c)?.features.as_slice().get(i),
        Place::Enum(_) | Place::Class(_) => None,
    }
}

fn found_name(raw: &RawMeta, place: Place) -> Option<&str> {
    match place {
        Place::Enum(i) => Some(enum_at(raw, i)?.name.as_str()),
        Place::Class(c) => Some(class_at(raw, c)?.name.as_str()),
        Place::Feature(_, _) => Some(feature_at(raw, place)?.name.as_str()),
    }
}

/// The name at a place; empty if there is no such place.
pub(crate) fn name_at(raw: &RawMeta, place: Place) -> &str {
    found_name(raw, place).unwrap_or("")
}

/// The position of the first enumeration with a given name.
pub(crate) fn enum_named(raw: &RawMeta, name: &str) -> Option<usize> {
    for (i, found) in raw.enums().iter().enumerate() {
        if found.name.as_str() == name {
            return Some(i);
        }
    }
    None
}

/// The position of the first class with a given name.
pub(crate) fn class_named(raw: &RawMeta, name: &str) -> Option<usize> {
    for (i, found) in raw.classes().iter().enumerate() {
        if found.name.as_str() == name {
            return Some(i);
        }
    }
    None
}

/// The first feature that a class itself declares under a name; inherited features do not count.
pub(crate) fn feature_named<'m>(class: &'m RawClass, name: &str) -> Option<&'m RawFeature> {
    for found in class.features.as_slice() {
        if found.name.as_str() == name {
            return Some(found);
        }
    }
    None
}

/// The name of the opposite of a reference; `None` for a reference without opposite, and for an attribute.
pub(crate) fn opposite_of(feature: &RawFeature) -> Option<&str> {
    match &feature.kind {
        RawKind::Reference {
            opposite: Some(opposite),
            ..
        } => Some(opposite.as_str()),
        _ => None,
    }
}
