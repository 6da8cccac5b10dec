//! A live run whose changes a journal keeps.
ghost use Rattle.std.specs.Prelude.{◌≡◌, ◌<◌, ◌⊎◌, [], Some, IfErr, IfSome, IsErrOf, OnOk, OnSome};
ghost use Rattle.std.specs.Io.Buffered.{reader_remaining};
ghost use Rattle.std.specs.Io.KnownBytes.{IsAtEnd};
ghost use Rattle.mm_types.specs.Resolved.{Metamodel};
ghost use Rattle.script_lines.specs.Lines.{lines};
ghost use Rattle.journal.specs.Disk.{LeavesOnly};
ghost use Rattle.durable.specs.Outboxes.{IsAtRest, IsFull, disk_under, held_by, kept_by, noted_by, writer_of};
ghost use Rattle.script_program.specs.Live.{IsTooLong};
ghost use Rattle.script_program.specs.Kept.{EndsJournaled, LeavesJournaled, StopsJournaled, model_of, session_of};

use crate::journaled::Journaled;
use crate::listener::Listener;
use adapters::Adapter;
use durable::{Outbox, run_dialogue};
use journal::Disk;
use links::LinkStore;
use script_streams::RunFault;
use std::alloc::Global;
use std::io::{BufReader, Read, Write};

/// Runs a script live, as `run_live` does. Each line that changes the model is kept in a journal before the line is answered.
///
/// Answered lines are kept: after a crash at any moment, the journal has the model of all lines that were answered, and perhaps of some
/// further lines. Answers are held back until their lines are on the disk. Lines are put on the disk before each read that may wait, when
/// 65,536 bytes of answers or more are held back, and at the end of the script. Of the lines that are put on the disk together, a crash
/// leaves all or none.
///
/// Fails with `Read` if a read fails; with `TooLong` if a line has more than `INPUT_BYTES` bytes, or if the script has `u64::MAX` lines or
/// more; with `Journal` if the disk fails, or if the journal is full; with `Write` if a write or a flush fails, or if a write takes no
/// byte; and with `Memory` if memory is refused to the run itself.
pub fn run_journal<R: Read, D: Disk, W: Write, L: LinkStore, A: Adapter, H: Listener>(
    alloc: Global,
    reader: &mut BufReader<R>,
    session: &mut Journaled<L, A, H>,
    outbox: &mut Outbox<D, W>,
) -> Result<(), RunFault>
    requires at_rest { IsAtRest D.seen D.may_leave outbox.old }
    requires noted { noted_by outbox.old ≡ [] }
    requires held { held_by outbox.old ≡ [] }
    ensures ok { (m : Metamodel) → model_of m (kept_by D.seen outbox.old) ≡ Some (session_of session.old).state.model
        → OnOk result (IfSome (reader_remaining R.remaining reader.old) (λ input. EndsJournaled m (session_of session.old) (lines input)
        (W.contents (writer_of outbox.old)) (W.contents (writer_of outbox.new)) (kept_by D.seen outbox.new) (session_of session.new))) }
    ensures end { OnOk result (OnSome (reader_remaining R.remaining reader.old) (IsAtEnd (reader_remaining R.remaining reader.new))) }
    ensures at_rest { OnOk result (IsAtRest D.seen D.may_leave outbox.new) }
    // Whatever stops the run, each file that a crash may leave is a journal of the model of all lines that were answered, and perhaps of
    // some further lines. This also holds if the run stops because the machine fails, so that each call of the disk fails.
    ensures stopped { (m : Metamodel) → model_of m (kept_by D.seen outbox.old) ≡ Some (session_of session.old).state.model
        → IfErr result (λ fault. IfSome (reader_remaining R.remaining reader.old) (λ input. StopsJournaled m fault (session_of session.old) (lines input)
        (W.contents (writer_of outbox.old)) (W.contents (writer_of outbox.new)) (D.may_leave (disk_under outbox.new)))) }
    // `TooLong` is returned only if a line is too long, or if there are too many lines, and `Journal` only if the disk failed or the file
    // is full.
    ensures long { IsErrOf result RunFault.TooLong → IfSome (reader_remaining R.remaining reader.old) IsTooLong }
    ensures disk { IsErrOf result RunFault.Journal → (D.faults (disk_under outbox.old) < D.faults (disk_under outbox.new)) ⊎ IsFull D.seen outbox.new }
    // A crash at any moment of the run leaves a journal of the model that the first n lines of the script left, for some n.
    ensures any_moment { (m : Metamodel) → model_of m (kept_by D.seen outbox.old) ≡ Some (session_of session.old).state.model
        → LeavesOnly D.moment D.left_since (disk_under outbox.old) (disk_under outbox.new)
        (λ file. IfSome (reader_remaining R.remaining reader.old) (λ input. LeavesJournaled m (session_of session.old) (lines input) file)) }
{
    run_dialogue(alloc, reader, session, outbox)
}
