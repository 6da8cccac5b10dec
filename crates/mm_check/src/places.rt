//! The first place at which a condition applies.
ghost use Rattle.std.specs.Prelude.{◌≡◌, ◌↔◌, IfOk, IsTrue};
ghost use Rattle.mm_types.specs.WellFormed.{Applies};
ghost use Rattle.mm_types.specs.declared.meta_fault.Condition.TheVariants.{Cycle};
ghost use Rattle.mm_types.specs.declared.meta_fault.Place.TheVariants.{Enum, Feature};
ghost use Rattle.mm_check.specs.Search.{AppliesToNoEnum, IsFirstPlace, IsLeast, NoneBefore};

use crate::checker::Checker;
use mm_graph::first_on_cycle;
use mm_types::{Condition, Place};
use std::alloc::{AllocError, Global};

impl<'a> Checker<'a> {
    /// Whether a condition applies at a place. The condition must not be `Cycle`, and no condition with a lower number may apply anywhere.
    fn applies(&self, alloc: Global, condition: Condition, place: Place) -> Result<bool, AllocError>
        requires none_before { NoneBefore self.now condition }
        requires no_cycle { condition ≡ Cycle → ⊥ }
        ensures { IfOk result (λ b. IsTrue b ↔ Applies self.now condition place) }
    {
        match condition {
            Condition::Name => Ok(self.has_bad_name(place)),
            Condition::DuplicateName => self.has_duplicate(alloc, place),
            Condition::NoType => Ok(self.lacks_type(place)),
            Condition::Cycle => unreachable!(),
            Condition::Bounds => Ok(self.has_bad_bounds(place)),
            Condition::Opposite => Ok(self.lacks_opposite(place)),
            Condition::BothContain => Ok(self.both_contain(place)),
            Condition::ContainerBound => Ok(self.has_bad_container_bound(place)),
            Condition::Default => self.has_bad_default(alloc, place),
        }
    }

    /// The first enumeration to which a condition applies; `None` if there is none.
    fn first_enum(&self, alloc: Global, condition: Condition) -> Result<Option<usize>, AllocError>
        requires none_before { NoneBefore self.now condition }
        requires no_cycle { condition ≡ Cycle → ⊥ }
        ensures { IfOk result (IsLeast (λ i. Applies self.now condition (Enum i))) }
    {
        'enums: for i in 0..self.enum_count() {
            if self.applies(alloc, condition, Place::Enum(i))? {
                return Ok(Some(i));
            }
        }
        Ok(None)
    }

    /// Of the features that a class declares, the first one to which a condition applies; `None` if there is none.
    fn first_feature(
        &self,
        alloc: Global,
        condition: Condition,
        c: usize,
    ) -> Result<Option<usize>, AllocError>
        requires none_before { NoneBefore self.now condition }
        requires no_cycle { condition ≡ Cycle → ⊥ }
        ensures { IfOk result (IsLeast (λ i. Applies self.now condition (Feature c i))) }
    {
        'features: for i in 0..self.feature_count(c) {
            if self.applies(alloc, condition, Place::Feature(c, i))? {
                return Ok(Some(i));
            }
        }
        Ok(None)
    }

    /// The first class or feature to which a condition applies; each class is before its own features, and these are before the next class.
    /// `None` if there is none. The condition must apply to no enumeration.
    fn first_in_classes(
        &self,
        alloc: Global,
        condition: Condition,
    ) -> Result<Option<Place>, AllocError>
        requires none_before { NoneBefore self.now condition }
        requires no_cycle { condition ≡ Cycle → ⊥ }
        requires no_enum { AppliesToNoEnum self.now condition }
        ensures { IfOk result (IsFirstPlace self.now condition) }
    {
        'classes: for c in 0..self.class_count() {
            if self.applies(alloc, condition, Place::Class(c))? {
                return Ok(Some(Place::Class(c)));
            }
            if let Some(i) = self.first_feature(alloc, condition, c)? {
                return Ok(Some(Place::Feature(c, i)));
            }
        }
        Ok(None)
    }

    /// The first class that is its own supertype, directly or through other classes; `None` if there is none.
    fn first_cycle(&self, alloc: Global) -> Result<Option<Place>, AllocError>
        ensures { IfOk result (IsFirstPlace self.now Cycle) }
    {
        match first_on_cycle(alloc, self.graph.as_slice())? {
            Some(c) => Ok(Some(Place::Class(c))),
            None => Ok(None),
        }
    }

    /// The first place at which a condition applies; `None` if the condition applies nowhere. The caller has made sure that no condition
    /// with a lower number applies anywhere. Fails only if memory is refused.
    pub fn first_place(
        &self,
        alloc: Global,
        condition: Condition,
    ) -> Result<Option<Place>, AllocError>
        requires { NoneBefore self.now condition }
        ensures { IfOk result (IsFirstPlace self.now condition) }
    {
        match condition {
            Condition::Cycle => self.first_cycle(alloc),
            _ => match self.first_enum(alloc, condition)? {
                Some(i) => Ok(Some(Place::Enum(i))),
                None => self.first_in_classes(alloc, condition),
            },
        }
    }
}
