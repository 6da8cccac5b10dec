//! Conditions on names, types, bounds and defaults; each is tested at one enumeration, class or feature.
ghost use Rattle.std.specs.Prelude.{◌≡◌, ◌||◌, ◌&&◌, not, pos, int_lt, is_none, IfOk};
ghost use Rattle.std.specs.List.{list_any};
ghost use Rattle.std.specs.Ordering.{int_eq};
ghost use Rattle.mm_types.specs.Names.{is_name as is_a_name};
ghost use Rattle.mm_types.specs.Resolved.{class_named};
ghost use Rattle.mm_check.specs.Literals.{is_no_literal_of};
ghost use Rattle.mm_types.specs.WellFormed.{any_number, has_bad_bounds as has_bad_bounds_at, has_bad_default as has_bad_default_at, has_bad_name as has_bad_name_at, is_no_default, lacks_type as lacks_type_at, names_no_type as is_of_no_type};

use crate::checker::Checker;
use mm_types::names::is_name;
use mm_types::{Place, RawClass, RawFeature, RawKind, Text};
use std::alloc::{AllocError, Global};

fn is_bad_name(name: &Text) -> bool
    ensures { result ≡ not (is_a_name name.now) }
{
    !is_name(name.as_str().as_bytes())
}

fn has_bad_literal(literals: &[Text]) -> bool
    ensures { result ≡ list_any (λ l. not (is_a_name l)) literals.now }
{
    literals.iter().any(|l| is_bad_name(l))
}

/// Whether a feature has bad bounds: the lower bound is below 0; or the upper bound is not -1, and is below 1 or below the lower bound.
fn has_odd_bounds(f: &RawFeature) -> bool
    ensures { result ≡ (int_lt f.now.lower (pos 0) || (not (int_eq f.now.upper any_number) && (int_lt f.now.upper (pos 1) || int_lt f.now.upper f.now.lower))) }
{
    f.lower < 0 || (f.upper != -1 && (f.upper < 1 || f.upper < f.lower))
}

impl<'a> Checker<'a> {
    /// Whether a name at a place is not formed as names must be: the name of the enumeration, class or feature, or a literal of the
    /// enumeration.
    pub fn has_bad_name(&self, place: Place) -> bool
        ensures { result ≡ has_bad_name_at self.now place }
    {
        match place {
            Place::Enum(i) => match self.enum_at(i) {
                Some(e) => is_bad_name(&e.name) || has_bad_literal(e.literals.as_slice()),
                None => false,
            },
            Place::Class(c) => match self.class_at(c) {
                Some(class) => is_bad_name(&class.name),
                None => false,
            },
            Place::Feature(c, i) => match self.feature_at(c, i) {
                Some(feature) => is_bad_name(&feature.name),
                None => false,
            },
        }
    }

    fn names_no_class(&self, name: &Text) -> bool
        ensures { result ≡ is_none (class_named self.now.classes name.now) }
    {
        self.resolver.class(name.as_str()).is_none()
    }

    fn lacks_super(&self, names: &[Text]) -> bool
        ensures { result ≡ list_any (λ s. is_none (class_named self.now.classes s)) names.now }
    {
        names.iter().any(|name| self.names_no_class(name))
    }

    fn names_no_type(&self, f: &RawFeature) -> bool
        ensures { result ≡ is_of_no_type self.now f.now f.now.kind }
    {
        match &f.kind {
            RawKind::Attribute { .. } => self.resolver.data_type(f.type_name.as_str()).is_none(),
            RawKind::Reference { .. } => self.resolver.class(f.type_name.as_str()).is_none(),
        }
    }

    /// Whether a place is a class with a supertype that is no class, an attribute whose type is no data type and no enumeration, or a
    /// reference whose type is no class.
    pub fn lacks_type(&self, place: Place) -> bool
        ensures { result ≡ lacks_type_at self.now place }
    {
        match place {
            Place::Enum(_) => false,
            Place::Class(c) => match self.class_at(c) {
                Some(class) => self.lacks_super(class.supers.as_slice()),
                None => false,
            },
            Place::Feature(c, i) => match self.feature_at(c, i) {
                Some(feature) => self.names_no_type(feature),
                None => false,
            },
        }
    }

    /// Whether a place is a feature with bad bounds, as `has_odd_bounds` says.
    pub fn has_bad_bounds(&self, place: Place) -> bool
        ensures { result ≡ has_bad_bounds_at self.now place }
    {
        match place {
            Place::Enum(_) | Place::Class(_) => false,
            Place::Feature(c, i) => match self.feature_at(c, i) {
                Some(feature) => has_odd_bounds(feature),
                None => false,
            },
        }
    }

    /// Whether a literal is not of the type of the attribute `f`; true if that type is no data type and no enumeration.
    fn is_no_literal(
        &self,
        alloc: Global,
        f: &RawFeature,
        literal: &Text,
    ) -> Result<bool, AllocError>
        ensures { IfOk result (λ b. b ≡ is_no_literal_of self.now.enums f.now.type_name literal.now) }
    {
        match self.resolver.data_type(f.type_name.as_str()) {
            Some(t) => {
                let value = self.resolver.literal_value(alloc, t, literal.as_str())?;
                Ok(value.is_none())
            }
            None => Ok(true),
        }
    }

    fn has_odd_default(&self, alloc: Global, f: &RawFeature) -> Result<bool, AllocError>
        ensures { IfOk result (λ b. b ≡ is_no_default self.now.enums f.now f.now.kind) }
    {
        match &f.kind {
            RawKind::Attribute {
                default: Some(literal),
                ..
            } => {
                if f.upper != 1 {
                    return Ok(true);
                }
                self.is_no_literal(alloc, f, literal)
            }
            _ => Ok(false),
        }
    }

    /// Whether a place is an attribute with a bad default: the attribute has a default literal, and either its upper bound is not 1, or the
    /// literal is not of its type. Fails only if memory is refused.
    pub fn has_bad_default(&self, alloc: Global, place: Place) -> Result<bool, AllocError>
        ensures { IfOk result (λ b. b ≡ has_bad_default_at self.now place) }
    {
        match place {
            Place::Enum(_) | Place::Class(_) => Ok(false),
            Place::Feature(c, i) => match self.feature_at(c, i) {
                Some(feature) => self.has_odd_default(alloc, feature),
                None => Ok(false),
            },
        }
    }
}
