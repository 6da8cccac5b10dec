//! Runs a script after the lines of a journal.
ghost use Rattle.std.specs.Prelude.{◌≡◌, [], Err, Some, IfErr, IfOk, IfSome, OnOk, OnSome};
ghost use Rattle.std.specs.Io.Buffered.{reader_remaining};
ghost use Rattle.std.specs.Io.KnownBytes.{IsAtEnd};
ghost use Rattle.journal.specs.Disk.{IsDurable, LeavesOnly};
ghost use Rattle.journal.specs.Journal.{IsSettled, disk_of, journal_lines, noted_lines};
ghost use Rattle.journal.specs.Lines.{IsLine, recovered_lines};
ghost use Rattle.mm_types.specs.Resolved.{Metamodel};
ghost use Rattle.repository.specs.State.{empty_state};
ghost use Rattle.script_lines.specs.Lines.{lines};
ghost use Rattle.durable.specs.Heads.{IsBegunOrNot, begun_lines};
ghost use Rattle.script_program.specs.Kept.{EndsJournaled, EndsKept, LeavesJournaled, LeavesKeptIn, StopsJournaled, StopsKept, kept_outcome, model_of, session_of};
ghost use Rattle.durable.specs.declared.opening.JournalFault.{JournalFault};
ghost use Rattle.script_streams.specs.declared.run_fault.RunFault.{RunFault};

use crate::journal_run::run_journal;
use crate::journaled::Journaled;
use crate::listener::Listener;
use crate::recovery::run_again;
use adapters::Adapter;
use durable::{JournalFault, Outbox, open_journal};
use journal::{Disk, Journal};
use links::LinkStore;
use script_streams::RunFault;
use std::alloc::Global;
use std::io::{BufReader, Read, Write};

/// Why a run with a journal stops.
#[derive(Clone, Copy, Debug, PartialEq, Eq)]
pub enum KeptFault {
    /// The journal is not opened. No line of the script was read.
    Unopened(JournalFault),
    /// The run of the script stops.
    Stopped(RunFault),
}

/// The result of a run with a journal.
#[derive(Drop)]
pub struct KeptRun<D, W> {
    /// `Ok` if the run came to its end; otherwise why the run stopped.
    pub outcome: Result<(), KeptFault>,
    /// The disk that has the journal.
    pub disk: D,
    /// The writer of the answers.
    pub writer: W,
}

/// The outcome of a run whose journal was opened; a fault of `run_journal` is `Stopped`.
fn stopped_by(outcome: Result<(), RunFault>) -> Result<(), KeptFault>
    ensures { result ≡ kept_outcome outcome }
{
    match outcome {
        Ok(()) => Ok(()),
        Err(fault) => Err(KeptFault::Stopped(fault)),
    }
}

/// Runs the lines of a file again, and then opens the journal in that file; `bytes` is the content of the file. If the file has no line,
/// `head` is put into the file as its first line. Fails with a fault of `run_again` or `open_journal`, and then gives the disk back.
fn opened<D: Disk + Drop, L: LinkStore, A: Adapter, H: Listener>(
    alloc: Global,
    session: &mut Journaled<L, A, H>,
    disk: D,
    bytes: Vec<u8>,
    head: &[u8],
) -> Result<Journal<D>, (JournalFault, D)>
    requires head { IsLine head.now }
    requires bytes { D.seen disk ≡ bytes.items }
    requires durable { IsDurable (D.seen disk) (D.may_leave disk) }
    ensures settled { IfOk result (λ journal. IsSettled D.seen D.may_leave journal) }
    ensures kept { IfOk result (λ journal. journal_lines D.seen journal ≡ begun_lines head.now (recovered_lines bytes.items)) }
    ensures noted { IfOk result (λ journal. noted_lines journal ≡ []) }
    ensures model { (m : Metamodel) → (session_of session.old).state ≡ empty_state m
        → OnOk result (model_of m (begun_lines head.now (recovered_lines bytes.items)) ≡ Some (session_of session.new).state.model) }
    ensures any_moment { IfOk result (λ journal. LeavesOnly D.moment D.left_since disk (disk_of journal)
        (IsBegunOrNot head.now (recovered_lines bytes.items))) }
    ensures any_moment_err { IfErr result (λ e. LeavesOnly D.moment D.left_since disk e.1 (IsBegunOrNot head.now (recovered_lines bytes.items))) }
{
    // A file that is refused is left as it is.
    match run_again(alloc, session, bytes.as_slice(), head) {
        Ok(()) => {
            session.begin_script();
            open_journal(alloc, disk, bytes.as_slice(), head)
        }
        Err(fault) => Err((fault, disk)),
    }
}

/// Runs a script live, and keeps its changes in a journal. Returns the outcome of the run, the disk of the journal, and the writer.
fn run_opened<R: Read, D: Disk, W: Write, L: LinkStore, A: Adapter, H: Listener>(
    alloc: Global,
    reader: &mut BufReader<R>,
    writer: W,
    session: &mut Journaled<L, A, H>,
    journal: Journal<D>,
) -> KeptRun<D, W>
    requires settled { IsSettled D.seen D.may_leave journal }
    requires noted { noted_lines journal ≡ [] }
    ensures ok { (m : Metamodel) → model_of m (journal_lines D.seen journal) ≡ Some (session_of session.old).state.model
        → OnOk result.outcome (IfSome (reader_remaining R.remaining reader.old) (λ input. EndsJournaled m (session_of session.old) (lines input)
        (W.contents writer) (W.contents result.writer) (recovered_lines (D.seen result.disk)) (session_of session.new))) }
    ensures end { OnOk result.outcome (OnSome (reader_remaining R.remaining reader.old) (IsAtEnd (reader_remaining R.remaining reader.new))) }
    ensures durable { OnOk result.outcome (IsDurable (D.seen result.disk) (D.may_leave result.disk)) }
    ensures stopped { (m : Metamodel) (fault : RunFault) → model_of m (journal_lines D.seen journal) ≡ Some (session_of session.old).state.model
        → result.outcome ≡ Err (KeptFault.Stopped fault)
        → IfSome (reader_remaining R.remaining reader.old) (λ input. StopsJournaled m fault (session_of session.old) (lines input)
        (W.contents writer) (W.contents result.writer) (D.may_leave result.disk)) }
    ensures opened { (fault : JournalFault) → result.outcome ≡ Err (KeptFault.Unopened fault) → ⊥ }
    ensures any_moment { (m : Metamodel) → model_of m (journal_lines D.seen journal) ≡ Some (session_of session.old).state.model
        → LeavesOnly D.moment D.left_since (disk_of journal) result.disk
        (λ file. IfSome (reader_remaining R.remaining reader.old) (λ input. LeavesJournaled m (session_of session.old) (lines input) file)) }
{
    let mut outbox = Outbox::new(alloc, journal, writer);
    let outcome = run_journal(alloc, reader, session, &mut outbox);
    let (journal, writer) = outbox.into_parts();
    KeptRun {
        outcome: stopped_by(outcome),
        disk: journal.into_disk(),
        writer,
    }
}

/// Runs the lines of a journal again, and then runs a script live, whose changes the journal keeps. `bytes` is the content of the journal's
/// file. If the file has no line, `head` is put into the file as its first line. The session has to be new: its repository has to be empty.
///
/// Answered lines are kept. A crash may happen in the recovery, between two calls of the disk, or inside a call of the disk. The file that
/// the crash leaves is a journal of the model of all lines that were answered, and perhaps of some further lines. A run that opens this
/// file begins with that model. There is one exception: if the file had no line, a crash before the first answer may leave the file without
/// a line. A run that opens a file without a line begins with the empty model.
///
/// Stops with `Unopened` and a fault of `run_again` or `open_journal`, before the script is read; or with `Stopped` and a fault of
/// `run_journal`.
pub fn run_kept<R: Read, D: Disk + Drop, W: Write, L: LinkStore, A: Adapter, H: Listener>(
    alloc: Global,
    reader: &mut BufReader<R>,
    writer: W,
    session: &mut Journaled<L, A, H>,
    disk: D,
    bytes: Vec<u8>,
    head: &[u8],
) -> KeptRun<D, W>
    requires head { IsLine head.now }
    requires bytes { D.seen disk ≡ bytes.items }
    requires durable { IsDurable (D.seen disk) (D.may_leave disk) }
    // The lines of the file were run again, and then all lines of the script were run and answered. The file is a journal of the model that
    // the run left.
    ensures ok { (m : Metamodel) → (session_of session.old).state ≡ empty_state m
        → OnOk result.outcome (IfSome (reader_remaining R.remaining reader.old) (λ input. EndsKept m head.now bytes.items (lines input)
        (W.contents writer) (W.contents result.writer) (D.seen result.disk) (session_of session.new))) }
    ensures end { OnOk result.outcome (OnSome (reader_remaining R.remaining reader.old) (IsAtEnd (reader_remaining R.remaining reader.new))) }
    ensures durable { OnOk result.outcome (IsDurable (D.seen result.disk) (D.may_leave result.disk)) }
    // Whatever stops the script, each file that a crash may leave is a journal of the model of all lines that were answered, and perhaps of
    // some further lines.
    ensures stopped { (m : Metamodel) (fault : RunFault) → (session_of session.old).state ≡ empty_state m
        → result.outcome ≡ Err (KeptFault.Stopped fault)
        → IfSome (reader_remaining R.remaining reader.old) (λ input. StopsKept m fault head.now bytes.items (lines input)
        (W.contents writer) (W.contents result.writer) (D.may_leave result.disk)) }
    // If the journal is not opened, nothing of the script was read, and nothing was answered.
    ensures unopened { (fault : JournalFault) → result.outcome ≡ Err (KeptFault.Unopened fault)
        → (result.writer ≡ writer) × (reader.new ≡ reader.old) }
    // A crash at any moment leaves a file with the lines of the old file, or with the head alone if the old file had no line; or a journal
    // of the model that the first n lines of the script left, for some n.
    ensures any_moment { (m : Metamodel) → (session_of session.old).state ≡ empty_state m
        → LeavesOnly D.moment D.left_since disk result.disk (LeavesKeptIn m head.now bytes.items (reader_remaining R.remaining reader.old)) }
{
    match opened(alloc, session, disk, bytes, head) {
        Ok(journal) => run_opened(alloc, reader, writer, session, journal),
        Err((fault, disk)) => KeptRun {
            outcome: Err(KeptFault::Unopened(fault)),
            disk,
            writer,
        },
    }
}
