//! Conditions on opposites, containments and container references.
ghost use Rattle.std.specs.Prelude.{◌≡◌, ◌↔◌, IsTrue, is_some, not, pos};
ghost use Rattle.std.specs.Option.{option_copied};
ghost use Rattle.std.specs.Ordering.{int_eq};
ghost use Rattle.mm_types.specs.WellFormed.{BothContain, HasBadContainerBound, LacksOpposite, is_containment as contains, is_reference as refers, opposite_name as name_of_opposite, test_feature_at};
ghost use Rattle.mm_types.specs.Opposites.{NamesAreUnique, is_at as is_at_index, is_container_at, lacks_opposite as lacks_opposite_at, leads_astray as goes_astray, opposite_at, opposite_of as opposite_of_feature, reference_named};

use crate::checker::Checker;
use mm_types::{Place, RawFeature, RawKind, Text};

fn opposite_name(kind: &RawKind) -> Option<&Text>
    ensures { option_copied result ≡ name_of_opposite kind.now }
{
    match kind {
        RawKind::Attribute { .. } => None,
        RawKind::Reference { opposite, .. } => opposite.as_ref(),
    }
}

fn is_reference(kind: &RawKind) -> bool
    ensures { result ≡ refers kind.now }
{
    match kind {
        RawKind::Attribute { .. } => false,
        RawKind::Reference { .. } => true,
    }
}

fn is_containment(kind: &RawKind) -> bool
    ensures { result ≡ contains kind.now }
{
    match kind {
        RawKind::Attribute { .. } => false,
        RawKind::Reference { containment, .. } => *containment,
    }
}

fn is_at(c: usize, i: usize, found: (usize, usize)) -> bool
    ensures { result ≡ is_at_index c i found }
{
    found.0 == c && found.1 == i
}

impl<'a> Checker<'a> {
    fn is_reference_at(&self, c: usize, i: usize) -> bool
        ensures { result ≡ test_feature_at (λ f. refers f.kind) self.now c i }
    {
        match self.feature_at(c, i) {
            Some(feature) => is_reference(&feature.kind),
            None => false,
        }
    }

    fn is_containment_at(&self, c: usize, i: usize) -> bool
        ensures { result ≡ test_feature_at (λ f. contains f.kind) self.now c i }
    {
        match self.feature_at(c, i) {
            Some(feature) => is_containment(&feature.kind),
            None => false,
        }
    }

    fn has_opposite_name(&self, c: usize, i: usize) -> bool
        ensures { result ≡ test_feature_at (λ f. is_some (name_of_opposite f.kind)) self.now c i }
    {
        match self.feature_at(c, i) {
            Some(feature) => opposite_name(&feature.kind).is_some(),
            None => false,
        }
    }

    /// Whether the class `c` declares a feature at the index `i`, and the upper bound of this feature is not 1.
    fn is_not_bounded_by_one(&self, c: usize, i: usize) -> bool
        ensures { result ≡ test_feature_at (λ f. not (int_eq f.upper (pos 1))) self.now c i }
    {
        match self.feature_at(c, i) {
            Some(feature) => feature.upper != 1,
            None => false,
        }
    }

    fn reference_named(&self, d: usize, name: &str) -> Option<(usize, usize)>
        ensures { result ≡ reference_named self.now d name.now }
    {
        let j = self.resolver.own_position(d, name)?;
        if self.is_reference_at(d, j) {
            Some((d, j))
        } else {
            None
        }
    }

    fn opposite_of(&self, feature: &RawFeature) -> Option<(usize, usize)>
        ensures { result ≡ opposite_of_feature self.now feature.now }
    {
        let name = opposite_name(&feature.kind)?;
        let d = self.resolver.class(feature.type_name.as_str())?;
        self.reference_named(d, name.as_str())
    }

    /// The reference that the feature at the index `i` of the class `c` names as its opposite: the class of this reference, and the
    /// reference's index in its class. `None` if there is no such feature, or no such reference.
    fn opposite_at(&self, c: usize, i: usize) -> Option<(usize, usize)>
        ensures { result ≡ opposite_at self.now c i }
    {
        let feature = self.feature_at(c, i)?;
        self.opposite_of(feature)
    }

    /// Whether the opposite of a reference is the reference itself, or does not name the reference as its own opposite.
    fn leads_astray(&self, c: usize, i: usize, opposite: (usize, usize)) -> bool
        ensures { result ≡ goes_astray self.now c i opposite }
    {
        if is_at(c, i, opposite) {
            return true;
        }
        match self.opposite_at(opposite.0, opposite.1) {
            Some(back) => !is_at(c, i, back),
            None => true,
        }
    }

    fn lacks_opposite_at(&self, c: usize, i: usize) -> bool
        ensures { result ≡ lacks_opposite_at self.now c i }
    {
        if !self.has_opposite_name(c, i) {
            return false;
        }
        match self.opposite_at(c, i) {
            Some(opposite) => self.leads_astray(c, i, opposite),
            None => true,
        }
    }

    fn is_container(&self, c: usize, i: usize) -> bool
        ensures { result ≡ is_container_at self.now c i }
    {
        match self.opposite_at(c, i) {
            Some(opposite) => self.is_containment_at(opposite.0, opposite.1),
            None => false,
        }
    }

    /// Whether a place is a reference that names an opposite, and there is no other reference such that the two references name each other.
    pub fn lacks_opposite(&self, place: Place) -> bool
        requires { NamesAreUnique self.now }
        ensures { IsTrue result ↔ LacksOpposite self.now place }
    {
        match place {
            Place::Enum(_) | Place::Class(_) => false,
            Place::Feature(c, i) => self.lacks_opposite_at(c, i),
        }
    }

    /// Whether a place is a reference, and both it and its opposite are containments.
    pub fn both_contain(&self, place: Place) -> bool
        requires { NamesAreUnique self.now }
        ensures { IsTrue result ↔ BothContain self.now place }
    {
        match place {
            Place::Enum(_) | Place::Class(_) => false,
            Place::Feature(c, i) => self.is_containment_at(c, i) && self.is_container(c, i),
        }
    }

    /// Whether a place is a container reference whose upper bound is not 1. A container reference is a reference whose opposite is a
    /// containment.
    pub fn has_bad_container_bound(&self, place: Place) -> bool
        requires { NamesAreUnique self.now }
        ensures { IsTrue result ↔ HasBadContainerBound self.now place }
    {
        match place {
            Place::Enum(_) | Place::Class(_) => false,
            Place::Feature(c, i) => self.is_not_bounded_by_one(c, i) && self.is_container(c, i),
        }
    }
}
