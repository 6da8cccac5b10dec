//! The answers to lines are held back until each of these lines that is to be kept is on the disk.
ghost use Rattle.std.specs.Prelude.{◌≡◌, ◌≤◌, ◌⊎◌, [], IfErr, OnErr, OnOk};
ghost use Rattle.std.specs.Io.KnownBytes.{Appends};
ghost use Rattle.script_streams.specs.Streams.{AppendsFront};
ghost use Rattle.journal.specs.Lines.{IsLine};
ghost use Rattle.durable.specs.Outboxes.{FailsToGive, Gives, IsAtRest, LeavesBoth, Takes, disk_under, held_by, journal_of, noted_by, run_fault, writer_of};

use crate::session::{NEWLINE, Session};
use journal::{Disk, DiskFault, Journal};
use script_streams::{RunFault, Waits, write_all};
use std::alloc::Global;
use std::io::Write;

/// If at least this many bytes of answers are held back, `settle_if_full` calls `settle`, which writes them.
const HELD_BYTES: usize = 1 << 16;

/// A journal, answers that are held back, and the writer of the answers.
#[derive(Drop)]
pub struct Outbox<D: Disk, W> {
    journal: Journal<D>,
    held: Vec<u8>,
    writer: W,
}

/// Writes some answers, and flushes the writer.
fn write_answers<W: Write>(writer: &mut W, answers: &[u8]) -> Result<(), RunFault>
    ensures ok { OnOk result (Appends (W.contents writer.old) (W.contents writer.new) answers.now) }
    ensures err { OnErr result (AppendsFront (W.contents writer.old) (W.contents writer.new) answers.now) }
    ensures kind { IfErr result (λ e. e ≡ RunFault.Write) }
{
    write_all(writer, answers)?;
    if writer.flush().is_err() {
        return Err(RunFault::Write);
    }
    Ok(())
}

/// The fault that a run stops with, if its journal fails with `fault`.
fn fault_of(fault: DiskFault) -> RunFault
    ensures { result ≡ run_fault fault }
{
    match fault {
        DiskFault::Memory => RunFault::Memory,
        DiskFault::Failed | DiskFault::Full => RunFault::Journal,
    }
}

impl<D: Disk, W> Outbox<D, W> {
    /// An outbox that holds no answer back.
    pub fn new(alloc: Global, journal: Journal<D>, writer: W) -> Self
        ensures journal { journal_of result ≡ journal }
        ensures held { held_by result ≡ [] }
        ensures writer { writer_of result ≡ writer }
    {
        Outbox {
            journal,
            held: Vec::new(alloc),
            writer,
        }
    }

    /// The journal and the writer. Answers that are held back are lost.
    pub fn into_parts(self) -> (Journal<D>, W)
        ensures journal { result.0 ≡ journal_of self }
        ensures writer { result.1 ≡ writer_of self }
    {
        (self.journal, self.writer)
    }
}

impl<D: Disk, W: Write> Outbox<D, W> {
    /// Runs a line and holds its answer back. Notes the line if it is to be kept. Writes nothing.
    ///
    /// Fails only with `Memory`. After a failure the session may have run the line, and the answer or a part of it may be held back; but
    /// the line is not noted.
    pub(crate) fn take<S: Session>(&mut self, session: &mut S, line: &[u8]) -> Result<(), RunFault>
        requires line { IsLine line.now }
        requires at_rest { IsAtRest D.seen D.may_leave self.old }
        ensures at_rest { IsAtRest D.seen D.may_leave self.new }
        ensures ok { OnOk result (Takes S.runs session.old line.now session.new self.old self.new) }
        ensures kind { IfErr result (λ e. e ≡ RunFault.Memory) }
        ensures disk { disk_under self.new ≡ disk_under self.old }
        ensures writer { writer_of self.new ≡ writer_of self.old }
    {
        let turn = session.answer(line, &mut self.held)?;
        self.held.extend_from_slice(&[NEWLINE])?;
        if turn.is_kept() {
            self.journal.note(line)?;
        }
        Ok(())
    }

    /// Puts the noted lines on the disk, and then writes the answers that are held back.
    ///
    /// Fails with `Journal` if the disk fails or the file is full, with `Write` if a write or the flush fails or a write takes no byte, and
    /// with `Memory` if memory is refused.
    pub fn settle(&mut self) -> Result<(), RunFault>
        requires { IsAtRest D.seen D.may_leave self.old }
        ensures ok { OnOk result (Gives W.contents D.seen D.may_leave self.old self.new) }
        // No byte of an answer is written before all noted lines are on the disk.
        ensures stopped { IfErr result (λ fault. FailsToGive W.contents D.seen D.may_leave D.faults self.old fault self.new) }
        ensures any_moment { LeavesBoth D.seen D.moment D.left_since self.old self.new }
        ensures later { D.faults (disk_under self.old) ≤ D.faults (disk_under self.new) }
    {
        if let Err(fault) = self.journal.commit() {
            return Err(fault_of(fault));
        }
        write_answers(&mut self.writer, &self.held)?;
        self.held.clear();
        Ok(())
    }

    /// Calls `settle` if at least `HELD_BYTES` bytes of answers are held back.
    pub(crate) fn settle_if_full(&mut self) -> Result<(), RunFault>
        requires { IsAtRest D.seen D.may_leave self.old }
        ensures ok { OnOk result ((self.new ≡ self.old) ⊎ Gives W.contents D.seen D.may_leave self.old self.new) }
        ensures stopped { IfErr result (λ fault. FailsToGive W.contents D.seen D.may_leave D.faults self.old fault self.new) }
        ensures any_moment { LeavesBoth D.seen D.moment D.left_since self.old self.new }
        ensures later { D.faults (disk_under self.old) ≤ D.faults (disk_under self.new) }
    {
        if self.held.len() < HELD_BYTES {
            return Ok(());
        }
        self.settle()
    }
}

impl<D: Disk, W: Write> Waits for Outbox<D, W> {
    ghost use Rattle.durable.specs.Waiting.{Becomes, Fails, IsEmptied, becomes_more, stays_so};

    ghost can_wait = { λ outbox. IsAtRest D.seen D.may_leave outbox };

    ghost is_ready = { IsEmptied };

    ghost becomes = { Becomes W.contents D.seen D.may_leave D.moment D.left_since D.faults };

    ghost fails = { Fails W.contents D.seen D.may_leave D.moment D.left_since D.faults };

    ghost stays = { stays_so W.contents D.seen D.may_leave D.moment D.left_since D.faults D.only_now };

    ghost goes_on = { becomes_more W.contents D.seen D.may_leave D.moment D.left_since D.faults };

    fn before_wait(&mut self) -> Result<(), RunFault> {
        self.settle()
    }
}
