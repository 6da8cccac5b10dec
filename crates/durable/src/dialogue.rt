//! Runs lines as they come in.
ghost use Rattle.std.specs.Prelude.{◌≡◌, ◌<◌, ◌⊎◌, [], true, false, length, IfErr, IfSome, IsErrOf, OnOk, OnSome};
ghost use Rattle.std.specs.Io.Buffered.{reader_remaining};
ghost use Rattle.std.specs.Io.KnownBytes.{IsAtEnd};
ghost use Rattle.journal.specs.Disk.{LeavesOnly};
ghost use Rattle.script_lines.specs.Lines.{lines};
ghost use Rattle.durable.specs.Answered.{EndsIn, IsTooLong, LeavesIn, StopsIn};
ghost use Rattle.durable.specs.Outboxes.{IsAtRest, IsFull, disk_under, held_by, kept_by, noted_by, writer_of};

use crate::outbox::Outbox;
use crate::session::Session;
use journal::Disk;
use script_streams::{LineEnd, RunFault, read_line_waiting};
use std::alloc::Global;
use std::io::{BufReader, Read, Write};

/// Whether no line was read because the input has ended.
fn is_over(end: LineEnd, line: &[u8]) -> bool
    ensures none { result ≡ true → length line.now ≡ 0 }
    ensures last { result ≡ true → end ≡ LineEnd.Input }
    ensures some { result ≡ false → end ≡ LineEnd.Input → 0 < length line.now }
{
    match end {
        LineEnd::Input => line.is_empty(),
        LineEnd::Newline => false,
    }
}

/// Runs the lines of an input in turn, and answers each line with the text that the line prints and an empty line. Answers are held back
/// until one of three moments: before a read that may wait, when 65,536 bytes of answers or more are held back, or at the end of the input.
/// At such a moment each line that was run so far and is to be kept is put on the disk, and then the answers are written. So the lines that
/// the reader has read ahead are put on the disk together, unless their answers have 65,536 bytes or more.
///
/// Fails with `Read` if a read fails; with `TooLong` if a line has more than `INPUT_BYTES` bytes, or the input more than `u64::MAX - 1`
/// lines; with `Journal` if the disk fails, or the file is full; with `Write` if a write or a flush fails, or a write takes no byte; and
/// with `Memory` if memory is refused to the run itself (if memory is refused to the command of a line, only this command is refused).
pub fn run_dialogue<R: Read, S: Session, D: Disk, W: Write>(
    alloc: Global,
    reader: &mut BufReader<R>,
    session: &mut S,
    outbox: &mut Outbox<D, W>,
) -> Result<(), RunFault>
    requires at_rest { IsAtRest D.seen D.may_leave outbox.old }
    requires noted { noted_by outbox.old ≡ [] }
    requires held { held_by outbox.old ≡ [] }
    // All lines were run and answered, and the lines to be kept are on the disk.
    ensures ok { OnOk result (EndsIn S.runs (reader_remaining R.remaining reader.old) session.old (kept_by D.seen outbox.old)
        (W.contents (writer_of outbox.old)) (W.contents (writer_of outbox.new)) (kept_by D.seen outbox.new) session.new) }
    ensures end { OnOk result (OnSome (reader_remaining R.remaining reader.old) (IsAtEnd (reader_remaining R.remaining reader.new))) }
    ensures at_rest { OnOk result (IsAtRest D.seen D.may_leave outbox.new) }
    // Whatever stops the run, each file that a crash may leave has the lines to be kept among the lines that were answered. This is also
    // true if calls fail because the machine stops.
    ensures stopped { IfErr result (λ fault. StopsIn S.runs fault (reader_remaining R.remaining reader.old) session.old (kept_by D.seen outbox.old)
        (W.contents (writer_of outbox.old)) (W.contents (writer_of outbox.new)) (D.may_leave (disk_under outbox.new))) }
    // `TooLong` is returned only if a line is too long, or if there are too many lines, and `Journal` only if the disk failed or the file
    // is full.
    ensures long { IsErrOf result RunFault.TooLong → IfSome (reader_remaining R.remaining reader.old) (λ input. IsTooLong (lines input)) }
    ensures disk { IsErrOf result RunFault.Journal → (D.faults (disk_under outbox.old) < D.faults (disk_under outbox.new)) ⊎ IsFull D.seen outbox.new }
    // A crash at any moment leaves a file with the lines from before the run, followed by the lines to be kept among the first n lines of
    // the input, for some n.
    ensures any_moment { LeavesOnly D.moment D.left_since (disk_under outbox.old) (disk_under outbox.new)
        (LeavesIn S.runs (reader_remaining R.remaining reader.old) session.old (kept_by D.seen outbox.old)) }
{
    let mut line = Vec::new(alloc);
    let mut number = 0;
    'lines: while number < u64::MAX {
        let end = read_line_waiting(reader, outbox, &mut line)?;
        let over = is_over(end, line.as_slice());
        if over {
            return outbox.settle();
        }
        outbox.take(session, line.as_slice())?;
        outbox.settle_if_full()?;
        number += 1;
    }
    Err(RunFault::TooLong)
}
