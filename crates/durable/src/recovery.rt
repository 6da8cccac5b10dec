//! Runs the lines of a journal again.
ghost use Rattle.std.specs.Prelude.{◌≡◌, IsErrOf, OnOk};
ghost use Rattle.journal.specs.Lines.{recovered_lines};
ghost use Rattle.durable.specs.Printed.{Refuses, RunsKept};
ghost use Rattle.durable.specs.declared.recovery.ReplayFault.TheVariants.{Memory};

use crate::session::Session;
use journal::next_entry;
use std::alloc::{AllocError, Global};

/// Why the lines of a journal can't be run again.
#[derive(Clone, Copy, Debug, PartialEq, Eq)]
pub enum ReplayFault {
    /// Memory was refused.
    Memory,
    /// A line was not done, although memory was not refused to it, or the line is not to be kept. If the session had nothing that concerns
    /// only this session when it began (`Twin::is_alone`), then no session that was the same when it began (`Twin::alike`) has kept exactly
    /// these lines.
    Refused,
}

impl From<AllocError> for ReplayFault {
    ghost from_gives = { λ _ fault. fault ≡ Memory };

    fn from(_error: AllocError) -> Self {
        ReplayFault::Memory
    }
}

/// Runs the lines that the bytes of a file stand for. Fails with `Memory` if memory is refused, to a line or for the text that it prints.
/// Otherwise fails with `Refused` at the first line that is not done, or that is not to be kept.
pub fn replay<S: Session>(alloc: Global, session: &mut S, file: &[u8]) -> Result<(), ReplayFault>
    ensures ok { OnOk result (RunsKept S.runs session.old (recovered_lines file.now) session.new) }
    ensures refused { IsErrOf result ReplayFault.Refused → Refuses S.runs session.old (recovered_lines file.now) }
{
    let mut text = Vec::new(alloc);
    let mut rest = file;
    'lines: while let Some((line, more)) = next_entry(rest) {
        text.clear();
        let turn = session.answer(line, &mut text)?;
        if turn.is_lost() {
            return Err(ReplayFault::Memory);
        }
        if !turn.is_kept() {
            return Err(ReplayFault::Refused);
        }
        rest = more;
    }
    Ok(())
}
