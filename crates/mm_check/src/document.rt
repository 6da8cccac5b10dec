//! Checks a metamodel document, and resolves it.
ghost use Rattle.std.specs.Prelude.{◌≡◌, IfOk};
ghost use Rattle.mm_types.specs.WellFormed.{IsFault};
ghost use Rattle.mm_check.specs.Checks.{Checks};
ghost use Rattle.mm_check.specs.Documents.{Gives};
ghost use Rattle.mm_check.specs.Outcome.{Finds};

use crate::checker::Checker;
use mm_load::load_meta;
use mm_meta::{Meta, Resolution};
use mm_types::{Condition, MetaFault, Place, RawMeta};
use std::alloc::{AllocError, Global};

/// The conditions that apply nowhere in a well-formed metamodel, in the order of their numbers.
const CONDITIONS: [Condition; 9] = [
    Condition::Name,
    Condition::DuplicateName,
    Condition::NoType,
    Condition::Cycle,
    Condition::Bounds,
    Condition::Opposite,
    Condition::BothContain,
    Condition::ContainerBound,
    Condition::Default,
];

/// What the check of a document finds.
#[derive(Drop)]
enum Outcome {
    /// Of the conditions that apply somewhere, the one with the lowest number, and the first place at which it applies.
    Fault(Condition, Place),
    /// The document is well-formed, and resolves to this resolution.
    Resolution(Resolution),
}

/// Of the conditions that apply somewhere, the one with the lowest number, and the first place at which it applies; `None` if no condition
/// applies anywhere. Fails only if memory is refused.
fn first_fault(
    alloc: Global,
    checker: &Checker<'_>,
) -> Result<Option<(Condition, Place)>, AllocError>
    ensures { IfOk result (λ f. IsFault checker.now f) }
{
    'conditions: for condition in CONDITIONS.iter() {
        if let Some(place) = checker.first_place(alloc, *condition)? {
            return Ok(Some((*condition, place)));
        }
    }
    Ok(None)
}

/// What a checker finds. Fails only if memory is refused.
fn found_by(alloc: Global, checker: &Checker<'_>) -> Result<Outcome, AllocError>
    ensures { IfOk result (Finds checker.now) }
{
    match first_fault(alloc, checker)? {
        Some((condition, place)) => Ok(Outcome::Fault(condition, place)),
        None => Ok(Outcome::Resolution(checker.resolution(alloc)?)),
    }
}

/// What the check of a document finds. Fails only if memory is refused.
fn found_in(alloc: Global, raw: &RawMeta) -> Result<Outcome, AllocError>
    ensures { IfOk result (Finds raw.now) }
{
    let checker = Checker::new(alloc, raw)?;
    found_by(alloc, &checker)
}

/// Returns the metamodel that a document gives, if the document is well-formed. Otherwise fails with the first fault of the document. Fails
/// with `Memory` if memory is refused.
pub fn check(alloc: Global, raw: RawMeta) -> Result<Meta, MetaFault>
    ensures { Checks raw result }
{
    match found_in(alloc, &raw) {
        Ok(Outcome::Resolution(resolution)) => {
            match Meta::new(alloc, raw, resolution) {
                Ok(meta) => Ok(meta),
                Err(_) => Err(MetaFault::Memory),
            }
        }
        Ok(Outcome::Fault(condition, place)) => Err(MetaFault::IllFormed(condition, place)),
        Err(_) => Err(MetaFault::Memory),
    }
}

/// Returns the metamodel of a document, if the document can be read and is well-formed. Otherwise fails with the first fault of the
/// document. Fails with `Memory` if memory is refused.
#[tactic(auto, using(crate::proofs::DocumentLemmas::gives_unread, crate::proofs::DocumentLemmas::gives_checked))]
pub fn check_document(alloc: Global, document: &[u8]) -> Result<Meta, MetaFault>
    ensures { Gives document.now result }
{
    check(alloc, load_meta(alloc, document)?)
}
