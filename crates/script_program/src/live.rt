//! Runs scripts live: each line is answered before the next is read.
ghost use Rattle.std.specs.Prelude.{◌≡◌, ◌⊎◌, IfErr, IfOk, IfSome, IsErrOf, OnErr, OnOk, OnSome, length};
ghost use Rattle.std.specs.Io.Buffered.{reader_remaining};
ghost use Rattle.std.specs.Io.KnownBytes.{IsAtEnd};
ghost use Rattle.script_streams.specs.Faults.{IsWriteOrMemory};
ghost use Rattle.script_program.specs.Live.{AnswersLive, AnswersLiveFront, IsTooLong, PrintsInputLive, PrintsInputLiveFront};
ghost use Rattle.script_program.specs.Session.{first_session, session, session_with};

use crate::listener::{Listener, NoListener};
use crate::pool::Pool;
use crate::script::answer_line;
use crate::summary::Summary;
use adapters::Adapter;
use links::LinkStore;
use mm_meta::Meta;
use repository::Repository;
use script_answers::{Dress, Turn};
use script_lines::Source;
use script_output::Output;
use script_streams::{LineEnd, RunFault, read_line, write_all};
use std::alloc::Global;
use std::io::{BufReader, Read, Write};

/// The bytes after an answer: an empty line.
const BEHIND: &[u8] = b"\n";

/// Runs a line, writes its output, calls the listener, and writes an empty line; `output` is a buffer for the output.
///
/// Fails with `Memory` if memory is refused to the run itself, and with `Write` if a write fails or takes no byte.
fn answer_live<W: Write, L: LinkStore, A: Adapter, H: Listener>(
    alloc: Global,
    line: &[u8],
    writer: &mut W,
    repository: &mut Repository<L, A>,
    pool: &mut Pool<A>,
    output: &mut Output,
    listener: &mut H,
) -> Result<Turn, RunFault>
    ensures ok { IfOk result (λ t. AnswersLive line.now (session repository.old pool.old) (W.contents writer.old) (W.contents writer.new) t
        (session repository.new pool.new)) }
    ensures err { OnErr result ((W.contents writer.new ≡ W.contents writer.old)
        ⊎ AnswersLiveFront line.now (session repository.old pool.old) (W.contents writer.old) (W.contents writer.new)) }
    ensures kind { IfErr result (λ e. IsWriteOrMemory e) }
{
    // Without output options no line number is written, so the number that is passed here has no effect.
    let turn = answer_line(
        alloc,
        writer,
        repository,
        pool,
        output,
        listener,
        Dress::plain(),
        0,
        Source::Bytes(line),
    )?;
    write_all(writer, BEHIND)?;
    Ok(turn)
}

/// Reads the lines of a script in turn, and answers each before it reads the next.
fn answer_lines<R: Read, W: Write, L: LinkStore, A: Adapter, H: Listener>(
    alloc: Global,
    reader: &mut BufReader<R>,
    writer: &mut W,
    repository: &mut Repository<L, A>,
    pool: &mut Pool<A>,
    listener: &mut H,
) -> Result<Summary, RunFault>
    ensures ok { IfOk result (λ s. PrintsInputLive (reader_remaining R.remaining reader.old) (session repository.old pool.old) (W.contents writer.old) (W.contents writer.new) s) }
    ensures end { OnOk result (OnSome (reader_remaining R.remaining reader.old) (IsAtEnd (reader_remaining R.remaining reader.new))) }
    ensures err { OnErr result (PrintsInputLiveFront (reader_remaining R.remaining reader.old) (session repository.old pool.old) (W.contents writer.old) (W.contents writer.new)) }
    ensures long { IsErrOf result RunFault.TooLong → IfSome (reader_remaining R.remaining reader.old) IsTooLong }
{
    let (mut line, mut output) = (Vec::new(alloc), Output::new(alloc));
    let mut summary = Summary::new();
    let mut number = 0;
    'lines: while number < u64::MAX {
        let end = read_line(reader, writer, &mut line)?;
        if end == LineEnd::Input && line.is_empty() {
            return Ok(summary);
        }
        let turn = answer_live(
            alloc,
            line.as_slice(),
            writer,
            repository,
            pool,
            &mut output,
            listener,
        )?;
        summary = summary.with(turn);
        if end == LineEnd::Input {
            return Ok(summary);
        }
        number += 1;
    }
    Err(RunFault::TooLong)
}

/// Runs a script live as `run_live` does, but over a repository that the caller lends and that is not closed at the end. The listener is
/// called with each line that was run.
///
/// Fails as `run_live` does.
pub fn live_over<R: Read, W: Write, L: LinkStore, A: Adapter, H: Listener>(
    alloc: Global,
    reader: &mut BufReader<R>,
    writer: &mut W,
    repository: &mut Repository<L, A>,
    boxes: Vec<A>,
    listener: &mut H,
) -> Result<Summary, RunFault>
    // All the input was read, and the answers of its lines were written, with an empty line after each.
    ensures ok { IfOk result (λ s. PrintsInputLive (reader_remaining R.remaining reader.old) (session_with A.heard repository.old boxes.items) (W.contents writer.old) (W.contents writer.new) s) }
    ensures end { OnOk result (OnSome (reader_remaining R.remaining reader.old) (IsAtEnd (reader_remaining R.remaining reader.new))) }
    // Whatever stops the run, a prefix of the output of the first lines was written.
    ensures stopped { OnErr result (PrintsInputLiveFront (reader_remaining R.remaining reader.old) (session_with A.heard repository.old boxes.items) (W.contents writer.old) (W.contents writer.new)) }
    // `TooLong` is returned only if a line is too long, or if there are too many lines.
    ensures long { IsErrOf result RunFault.TooLong → IfSome (reader_remaining R.remaining reader.old) IsTooLong }
{
    let Ok(mut pool) = Pool::new(alloc, boxes) else {
        return Err(RunFault::Memory);
    };
    answer_lines(alloc, reader, writer, repository, &mut pool, listener)
}

/// Runs a script as `run` does, but answers each line before it reads the next: the text that a line prints is written with an empty line
/// after it, and for a blank line only an empty line is written. Before a read that may wait, the writer is flushed.
///
/// Fails with `Read` if a read fails; with `TooLong` if a line has more than `INPUT_BYTES` bytes, or if the script has `u64::MAX` newlines
/// or more; with `Write` if a write or a flush fails, or if a write takes no byte; and with `Memory` if memory is refused to the run
/// itself. After each of these faults, a prefix of the answers to the first lines was written. If memory is refused to the repository, the
/// line prints `refused 28 MEMORY`, and the run goes on.
pub fn run_live<R: Read, W: Write, L: LinkStore, A: Adapter>(
    alloc: Global,
    reader: &mut BufReader<R>,
    writer: &mut W,
    meta: Meta,
    boxes: Vec<A>,
) -> Result<Summary, RunFault>
    // All the input was read, and the answers of its lines were written, with an empty line after each.
    ensures ok { IfOk result (λ s. PrintsInputLive (reader_remaining R.remaining reader.old) (first_session A.heard meta boxes.items) (W.contents writer.old) (W.contents writer.new) s) }
    ensures end { OnOk result (OnSome (reader_remaining R.remaining reader.old) (IsAtEnd (reader_remaining R.remaining reader.new))) }
    // Whatever stops the run, a prefix of the output of the first lines was written.
    ensures stopped { OnErr result (PrintsInputLiveFront (reader_remaining R.remaining reader.old) (first_session A.heard meta boxes.items) (W.contents writer.old) (W.contents writer.new)) }
    // `TooLong` is returned only if a line is too long, or if there are too many lines.
    ensures long { IsErrOf result RunFault.TooLong → IfSome (reader_remaining R.remaining reader.old) IsTooLong }
{
    let mut repository: Repository<L, A> = Repository::new(alloc, meta);
    let listener = &mut NoListener;
    let outcome = live_over(alloc, reader, writer, &mut repository, boxes, listener);
    let _ = repository.close();
    outcome
}
