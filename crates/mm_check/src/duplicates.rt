//! Names that occur twice, and reserved names.
ghost use Rattle.std.specs.Prelude.{◌≡◌, ◌↔◌, ◌||◌, ◌++◌, [], IfOk, IsTrue, codes, map, take, length, ◌<◌};
ghost use Rattle.mm_types.specs.Names.{is_among, repeats};
ghost use Rattle.mm_types.specs.Resolved.{graph_of};
ghost use Rattle.mm_types.specs.Clashes.{Clash};
ghost use Rattle.mm_types.specs.WellFormed.{HasDuplicate, class_names, enum_names, own_names, reserved_names};

use crate::checker::Checker;
use mm_graph::{clashes, has_repeats};
use mm_types::{Enumeration, Place, RawClass, Text};
use std::alloc::{AllocError, Global};

/// Whether a name is reserved, so that no enumeration or class may have it.
fn is_reserved(name: &str) -> bool
    ensures { result ≡ is_among reserved_names name.now }
{
    name == "EString"
        || (name == "EInt" || (name == "ELong" || (name == "EBoolean" || name == "Resource")))
}

/// Whether some text occurs twice in `texts`.
fn has_repeated_text(alloc: Global, texts: &[Text]) -> Result<bool, AllocError>
    ensures { IfOk result (λ b. b ≡ repeats [] texts.now) }
{
    let mut words: Vec<&str> = Vec::new(alloc);
    'texts: for text in texts {
        words.push(text.as_str())?;
    }
    has_repeats(alloc, words.as_slice())
}

impl<'a> Checker<'a> {
    /// Whether one of the enumerations before the index `i` has the name `name`.
    fn has_enum_before(&self, i: usize, name: &str) -> bool
        ensures { result ≡ is_among (take i (enum_names self.now)) name.now }
    {
        match self.resolver.enumeration(name) {
            Some(first) => first < i,
            None => false,
        }
    }

    fn has_enum(&self, name: &str) -> bool
        ensures { result ≡ is_among (enum_names self.now) name.now }
    {
        self.resolver.enumeration(name).is_some()
    }

    /// Whether one of the classes before the index `c` has the name `name`.
    fn has_class_before(&self, c: usize, name: &str) -> bool
        ensures { result ≡ is_among (take c (class_names self.now)) name.now }
    {
        match self.resolver.class(name) {
            Some(first) => first < c,
            None => false,
        }
    }

    fn repeats_in_enum(&self, alloc: Global, i: usize, e: &Enumeration) -> Result<bool, AllocError>
        ensures { IfOk result (λ b. b ≡ (is_among (reserved_names ++ take i (enum_names self.now)) e.now.name || repeats [] e.now.literals)) }
    {
        let name = e.name.as_str();
        if is_reserved(name) || self.has_enum_before(i, name) {
            return Ok(true);
        }
        has_repeated_text(alloc, e.literals.as_slice())
    }

    fn repeats_in_class(&self, alloc: Global, c: usize, k: &RawClass) -> Result<bool, AllocError>
        ensures { IfOk result (λ b. b ≡ (is_among (reserved_names ++ enum_names self.now ++ take c (class_names self.now)) k.now.name || repeats [] k.now.supers)) }
    {
        let name = k.name.as_str();
        if is_reserved(name) || (self.has_enum(name) || self.has_class_before(c, name)) {
            return Ok(true);
        }
        has_repeated_text(alloc, k.supers.as_slice())
    }

    /// Whether two features of a class, own or inherited, share a name.
    fn has_clash(&self, alloc: Global, c: usize) -> Result<bool, AllocError>
        requires { c < length self.now.classes }
        ensures { IfOk result (λ b. IsTrue b ↔ Clash (graph_of self.now.classes) (own_names self.now) c) }
    {
        clashes(alloc, self.graph.as_slice(), self.names.as_slice(), c)
    }

    /// Whether the condition `DuplicateName` applies at a place. It applies to an enumeration or class that has a reserved name, or the
    /// name of an enumeration or class before it; all enumerations are before all classes. It applies to an enumeration with two equal
    /// literals, and to a class that names a supertype twice, or has two features, own or inherited, of the same name. It applies to no
    /// feature. Fails only if memory is refused.
    pub fn has_duplicate(&self, alloc: Global, place: Place) -> Result<bool, AllocError>
        ensures { IfOk result (λ b. IsTrue b ↔ HasDuplicate self.now place) }
    {
        match place {
            Place::Enum(i) => match self.enum_at(i) {
                Some(e) => self.repeats_in_enum(alloc, i, e),
                None => Ok(false),
            },
            Place::Class(c) => match self.class_at(c) {
                Some(class) => {
                    if self.repeats_in_class(alloc, c, class)? {
                        return Ok(true);
                    }
                    self.has_clash(alloc, c)
                }
                None => Ok(false),
            },
            Place::Feature(_, _) => Ok(false),
        }
    }
}
