//! Reads a line for a caller that does something before each wait.
ghost use Rattle.std.specs.Prelude.{◌≡◌, ◌≤◌, ◌⊎◌, IfErr, IfOk, OnOk, length};
ghost use Rattle.std.specs.Io.Buffered.{reader_inner, reader_remaining};
ghost use Rattle.script_streams.specs.Line.{ReadsLine, ReadsPiece};
ghost use Rattle.script_streams.specs.Waiting.{StopsLine, StopsPiece};

use crate::line::{LineEnd, read_piece, take_piece};
use crate::run_fault::RunFault;
use mm_types::limits::INPUT_BYTES;
use std::io::{BufRead, BufReader, Read};

/// A caller that does something before it waits for input; for example, it writes the answers that it holds back.
pub trait Waits {
    ghost use Rattle.script_streams.specs.declared.run_fault.RunFault.{RunFault};

    /// In a given state, `before_wait` may be called.
    ghost can_wait: { Self → Type 0 };

    /// In a given state, nothing is left to do before a wait.
    ghost is_ready: { Self → Type 0 };

    /// The second state may follow from the first state by any number of calls of `before_wait` that succeed, or by no call.
    ghost becomes: { Self → Self → Type 0 };

    /// The second state may follow from the first state by a call of `before_wait` that fails with this fault.
    ghost fails: { Self → RunFault → Self → Type 0 };

    /// Does the work that has to be done before a wait.
    fn before_wait(&mut self) -> Result<(), RunFault>
        requires { can_wait self.old }
        ensures ok { OnOk result (becomes self.old self.new) }
        ensures again { OnOk result (can_wait self.new) }
        ensures ready { OnOk result (is_ready self.new) }
        ensures err { IfErr result (λ fault. fails self.old fault self.new) };

    /// `becomes` is reflexive: without a call, the state stays as it is.
    ghost stays: { (x : Self) → becomes x x };

    /// `becomes` is transitive: a line may need several reads, and so several calls of `before_wait`.
    ghost goes_on: { (x y z : Self) → becomes x y → becomes y z → becomes x z };
}

/// Appends the next piece of a line to `line`. Returns what ends the line, or `None` if the line goes on. If the buffer of the reader is
/// empty, a read is needed, which may wait, so `before_wait` is called before this read. Fails with `Read` if the read fails, with `Memory`
/// if memory is refused, and with the fault of `before_wait` if that call fails.
#[inline(always)]
fn wait_and_read<R: Read, X: Waits>(
    reader: &mut BufReader<R>,
    waits: &mut X,
    line: &mut Vec<u8>,
) -> Result<Option<LineEnd>, RunFault>
    requires { X.can_wait waits.old }
    ensures ok { IfOk result (λ end. ReadsPiece (reader_remaining R.remaining reader.old) (reader_remaining R.remaining reader.new)
        line.old.items line.new.items end) }
    ensures waited { OnOk result (X.becomes waits.old waits.new) }
    ensures again { OnOk result (X.can_wait waits.new) }
    ensures ready { OnOk result (((reader_inner reader.new ≡ reader_inner reader.old) × (waits.new ≡ waits.old)) ⊎ X.is_ready waits.new) }
    ensures stopped { IfErr result (λ fault. StopsPiece X.can_wait X.is_ready X.becomes X.fails waits.old fault waits.new) }
{
    if !reader.buffer().is_empty() {
        return Ok(take_piece(reader, line)?);
    }
    waits.before_wait()?;
    read_piece(reader, line)
}

/// Reads a line, without its newline, into the vector `line`, and replaces the old content of the vector. Returns what ended the line. If
/// the result is `LineEnd::Input` and `line` is empty, no line was left in the input. Before each read that may wait, `before_wait` is
/// called.
///
/// Fails with `Read` if a read fails, with `TooLong` if the line has more than `INPUT_BYTES` bytes, with `Memory` if memory is refused, and
/// with the fault of `before_wait` if that call fails.
pub fn read_line_waiting<R: Read, X: Waits>(
    reader: &mut BufReader<R>,
    waits: &mut X,
    line: &mut Vec<u8>,
) -> Result<LineEnd, RunFault>
    requires { X.can_wait waits.old }
    // The reader loses a line and its newline; at the end of the input it loses a line without a newline, and this line may be empty.
    ensures ok { IfOk result (λ end. ReadsLine (reader_remaining R.remaining reader.old) (reader_remaining R.remaining reader.new) line.new.items end) }
    ensures bound { OnOk result (length line.new.items ≤ INPUT_BYTES) }
    ensures waited { OnOk result (X.becomes waits.old waits.new) }
    ensures again { OnOk result (X.can_wait waits.new) }
    // The stream under the reader's buffer is read only when nothing is left to do before a wait.
    ensures ready { OnOk result ((reader_inner reader.new ≡ reader_inner reader.old) ⊎ X.is_ready waits.new) }
    // The call fails only if `before_wait` fails, if a read fails when nothing is left to do, if the line is too long, or if memory is
    // refused.
    ensures stopped { IfErr result (λ fault. StopsLine X.can_wait X.is_ready X.becomes X.fails (reader_remaining R.remaining reader.old)
        waits.old fault waits.new) }
{
    line.clear();
    'pieces: while line.len() <= INPUT_BYTES {
        if let Some(end) = wait_and_read(reader, waits, line)? {
            return if line.len() <= INPUT_BYTES {
                Ok(end)
            } else {
                Err(RunFault::TooLong)
            };
        }
    }
    Err(RunFault::TooLong)
}
