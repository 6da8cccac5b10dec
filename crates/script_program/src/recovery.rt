//! Runs the lines of a journal again.
ghost use Rattle.std.specs.Prelude.{◌≡◌, ◌≢◌, ◌∷◌, ℕ, List, Some, IfErr, OnOk};
ghost use Rattle.journal.specs.Lines.{recovered_lines};
ghost use Rattle.mm_types.specs.Resolved.{Metamodel};
ghost use Rattle.repository.specs.State.{empty_state};
ghost use Rattle.models.specs.Model.{Model};
ghost use Rattle.durable.specs.Heads.{IsOfHead, begun_lines};
ghost use Rattle.script_program.specs.Kept.{IsJournalOf, model_of, session_of};

use crate::journaled::Journaled;
use crate::listener::Listener;
use adapters::Adapter;
use durable::{JournalFault, ReplayFault, behind_head, replay};
use links::LinkStore;
use std::alloc::Global;

/// Runs the lines of a file again, over an empty repository; `bytes` is the content of the file. No line is run if the file is empty, or if
/// a crash may have left it before the head was completely written: then the journal is still to be begun.
///
/// Any other file has to begin with the head. Fails with `OtherMetamodel` if the file begins with the head of a different metamodel
/// document; with `NoJournal` if it begins with no head; with `Line` at the first line that is bad, asks for no change of the model, or is
/// refused for a reason other than memory; and with `Memory` if memory is refused.
pub fn run_again<L: LinkStore, A: Adapter, H: Listener>(
    alloc: Global,
    session: &mut Journaled<L, A, H>,
    bytes: &[u8],
    head: &[u8],
) -> Result<(), JournalFault>
    // After `Ok` the session has the model that the lines leave.
    ensures model { (m : Metamodel) → (session_of session.old).state ≡ empty_state m
        → OnOk result (model_of m (begun_lines head.now (recovered_lines bytes.now)) ≡ Some (session_of session.new).state.model) }
    // `NoJournal` and `OtherMetamodel` are returned only if the file does not begin with the head. If the file begins with the head, and
    // the lines after the head leave a model, then `Memory` is the only fault that is returned.
    ensures head { IfErr result (λ fault. IsOfHead fault → (rest : List (List ℕ)) → recovered_lines bytes.now ≢ head.now ∷ rest) }
    ensures taken { (m : Metamodel) (model : Model) → (session_of session.old).state ≡ empty_state m → IsJournalOf m head.now bytes.now model
        → IfErr result (λ fault. fault ≡ JournalFault.Memory) }
{
    let Some(lines) = behind_head(bytes, head)? else {
        return Ok(());
    };
    match replay(alloc, session, lines) {
        Ok(()) => Ok(()),
        Err(ReplayFault::Memory) => Err(JournalFault::Memory),
        Err(ReplayFault::Refused) => Err(JournalFault::Line(session.lines().saturating_add(1))),
    }
}
