//! The classes from which a class inherits, the features of these classes, and cycles of supertypes.
use crate::named::{Named, class_at, class_named, name_at};
use mm_types::{Place, RawMeta};
use std::alloc::{AllocError, Global};
use std::fmt;

/// A class that was reached through supertypes: `class` is a direct supertype of the class at the position `before` among the reached
/// classes. For the class at which the search begins, `before` is 0.
#[derive(Drop)]
struct Reached {
    class: usize,
    before: usize,
}

/// The classes that are reached from a class through supertypes, each once, the class itself first.
#[derive(Drop)]
pub(crate) struct Ancestry {
    reached: Vec<Reached>,
}

impl Ancestry {
    /// Whether a class was reached.
    pub(crate) fn has(&self, class: usize) -> bool {
        for reached in &self.reached {
            if reached.class == class {
                return true;
            }
        }
        false
    }

    fn class_at(&self, position: usize) -> Option<usize> {
        Some(self.reached.get(position)?.class)
    }

    /// Adds the direct supertypes of `class`, which was reached, except the supertypes that were reached already. `before` is the position
    /// of `class` among the reached classes.
    fn add_supers(&mut self, raw: &RawMeta, class: usize, before: usize) -> Result<(), AllocError> {
        let supers = match class_at(raw, class) {
            Some(class) => class.supers.as_slice(),
            None => &[],
        };
        for name in supers {
            match class_named(raw, name.as_str()) {
                Some(class) if !self.has(class) => self.reached.push(Reached { class, before })?,
                _ => {}
            }
        }
        Ok(())
    }

    /// The classes that are reached from `class`. Fails only if memory is refused.
    pub(crate) fn of(alloc: Global, raw: &RawMeta, class: usize) -> Result<Ancestry, AllocError> {
        let mut found = Ancestry {
            reached: Vec::new(alloc),
        };
        found.reached.push(Reached { class, before: 0 })?;
        for i in 0..raw.classes().len() {
            match found.class_at(i) {
                Some(class) => found.add_supers(raw, class, i)?,
                None => return Ok(found),
            }
        }
        Ok(found)
    }
}

/// Adds the places of the `count` features that a class declares.
fn add_features(places: &mut Vec<Place>, class: usize, count: usize) -> Result<(), AllocError> {
    for i in 0..count {
        places.push(Place::Feature(class, i))?;
    }
    Ok(())
}

/// The classes on a path of supertypes. They are printed from the last class to the first, each by its name with a comma after it.
#[derive(Drop)]
struct Way<'m> {
    raw: &'m RawMeta,
    classes: &'m [usize],
}

impl fmt::Display for Way<'_> {
    fn fmt<W: fmt::Write>(&self, f: &mut fmt::Formatter<W>) -> fmt::Result {
        for class in self.classes.iter().rev() {
            let name = name_at(self.raw, Place::Class(*class));
            write!(f, "{name}, ")?;
        }
        Ok(())
    }
}

impl Ancestry {
    /// The places of the features of all classes that were reached.
    pub(crate) fn features(&self, alloc: Global, raw: &RawMeta) -> Result<Vec<Place>, AllocError> {
        let mut places = Vec::new(alloc);
        for reached in &self.reached {
            if let Some(class) = class_at(raw, reached.class) {
                add_features(&mut places, reached.class, class.features.len())?;
            }
        }
        Ok(places)
    }

    /// The position of the first reached class that has `name` among the names of its direct supertypes.
    fn below(&self, raw: &RawMeta, name: &str) -> Option<usize> {
        for (i, reached) in self.reached.as_slice().iter().enumerate() {
            if names_super(raw, reached.class, name) {
                return Some(i);
            }
        }
        None
    }

    /// The classes on the way from the class at which the search began to the reached class at a position. The list begins with the class
    /// at the position, and ends with the class at which the search began.
    fn way_to(&self, alloc: Global, position: usize) -> Result<Vec<usize>, AllocError> {
        let mut way = Vec::new(alloc);
        let mut at = position;
        for _ in 0..self.reached.len() {
            let Some(reached) = self.reached.get(at) else {
                return Ok(way);
            };
            way.push(reached.class)?;
            if at == 0 {
                return Ok(way);
            }
            at = reached.before;
        }
        Ok(way)
    }
}

fn names_super(raw: &RawMeta, class: usize, name: &str) -> bool {
    let Some(class) = class_at(raw, class) else {
        return false;
    };
    for found in class.supers.as_slice() {
        if found.as_str() == name {
            return true;
        }
    }
    false
}

/// Explains the cycle of supertypes by which a class inherits from itself.
pub(crate) fn explain_cycle(
    alloc: Global,
    out: &mut String,
    at: Named<'_>,
    class: usize,
) -> Result<(), AllocError> {
    let raw = at.raw;
    let name = name_at(raw, at.place);
    let ancestry = Ancestry::of(alloc, raw, class)?;
    let Some(last) = ancestry.below(raw, name) else {
        return Ok(());
    };
    let way = ancestry.way_to(alloc, last)?;
    let classes = way.as_slice();
    writeln!(
        out,
        "{at}: its supertypes lead back to it: {}{name}",
        Way { raw, classes }
    )
}
