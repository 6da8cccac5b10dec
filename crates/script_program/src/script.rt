//! Runs scripts.
ghost use Rattle.std.specs.Prelude.{◌≡◌, ◌≤◌, ◌<◌, ◌⊎◌, IfErr, IfOk, IfSome, IsErrOf, OnErr, OnOk, length};
ghost use Rattle.std.specs.Io.KnownBytes.{IsAtEnd, Keeps};
ghost use Rattle.script_lines.specs.Source.{bytes_of};
ghost use Rattle.script_streams.specs.Faults.{IsReadOrTooLong, IsWriteOrMemory};
ghost use Rattle.script_program.specs.Batch.{AnswersFront, AnswersLine, EndsAnywhere, EndsIn, PrintsDressed, PrintsDressedFront, PrintsInputDressed, PrintsInputDressedFront};
ghost use Rattle.script_program.specs.Script.{PrintsInput, PrintsInputFront};
ghost use Rattle.script_program.specs.Session.{first_session, session, session_with};

use crate::line::run_line;
use crate::listener::{Listener, NoListener};
use crate::plain::run_plain;
use crate::pool::Pool;
use crate::summary::Summary;
use adapters::Adapter;
use links::LinkStore;
use mm_meta::Meta;
use mm_types::limits::INPUT_BYTES;
use repository::Repository;
use script_answers::{Dress, Turn, write_dressed};
use script_lines::Source;
use script_output::Output;
use script_streams::{RunFault, read_all};
use std::alloc::Global;
use std::io::{Read, Write};

/// Calls a listener with a line that was run, if the listener has to be called.
fn tell<L: LinkStore, A: Adapter, H: Listener>(
    listener: &mut H,
    repository: &Repository<L, A>,
    line: Source<'_>,
    output: &Output,
) {
    if listener.is_listening() {
        listener.line_was_run(repository, line.as_bytes(), output.as_bytes());
    }
}

/// Runs a line of a script, writes its output as the output options say, and calls the listener; `output` is a buffer for the output of
/// lines.
///
/// Fails with `Memory` if memory is refused to the run itself, and with `Write` if a write fails or takes no byte.
pub(crate) fn answer_line<W: Write, L: LinkStore, A: Adapter, H: Listener>(
    alloc: Global,
    writer: &mut W,
    repository: &mut Repository<L, A>,
    pool: &mut Pool<A>,
    output: &mut Output,
    listener: &mut H,
    dress: Dress,
    number: u64,
    source: Source<'_>,
) -> Result<Turn, RunFault>
    ensures ok { IfOk result (λ t. AnswersLine dress number (bytes_of source.entry) (session repository.old pool.old) (W.contents writer.old) (W.contents writer.new) t
        (session repository.new pool.new)) }
    ensures err { OnErr result (((W.contents writer.new ≡ W.contents writer.old) × (repository.new ≡ repository.old))
        ⊎ AnswersFront dress number (bytes_of source.entry) (session repository.old pool.old) (EndsIn repository.new) (W.contents writer.old) (W.contents writer.new)) }
    ensures kind { IfErr result (λ e. IsWriteOrMemory e) }
{
    output.clear();
    let Ok(turn) = run_line(alloc, repository, pool, output, source) else {
        return Err(RunFault::Memory);
    };
    let line = source.as_bytes();
    write_dressed(writer, dress, number, line, turn, output.as_bytes())?;
    tell(listener, repository, source, output);
    Ok(turn)
}

/// Runs the lines of a script in turn, and writes the output of each, as the output options say.
fn run_lines<W: Write, L: LinkStore, A: Adapter, H: Listener>(
    alloc: Global,
    writer: &mut W,
    repository: &mut Repository<L, A>,
    pool: &mut Pool<A>,
    listener: &mut H,
    dress: Dress,
    input: &[u8],
) -> Result<Summary, RunFault>
    requires { length input.now ≤ INPUT_BYTES }
    ensures ok { IfOk result (λ s. PrintsDressed dress (session repository.old pool.old) (EndsIn repository.new) (W.contents writer.old) (W.contents writer.new) input.now s) }
    ensures err { OnErr result (PrintsDressedFront dress (session repository.old pool.old) (EndsIn repository.new) (W.contents writer.old) (W.contents writer.new) input.now) }
    ensures kind { IfErr result (λ e. IsWriteOrMemory e) }
{
    let mut output = Output::new(alloc);
    let mut summary = Summary::new();
    let mut number = 0;
    let mut rest = Source::new(input);
    'lines: while let Some((line, more)) = rest.next_line() {
        number += 1;
        let turn = answer_line(
            alloc,
            writer,
            repository,
            pool,
            &mut output,
            listener,
            dress,
            number,
            line,
        )?;
        summary = summary.with(turn);
        if dress.ends_at(turn) {
            return Ok(summary);
        }
        rest = more;
    }
    Ok(summary)
}

/// Runs a script over a repository, and writes the output of each line, as the output options say.
fn run_input<W: Write, L: LinkStore, A: Adapter, H: Listener>(
    alloc: Global,
    writer: &mut W,
    repository: &mut Repository<L, A>,
    boxes: Vec<A>,
    listener: &mut H,
    dress: Dress,
    input: &[u8],
) -> Result<Summary, RunFault>
    requires { length input.now ≤ INPUT_BYTES }
    ensures ok { IfOk result (PrintsDressed dress (session_with A.heard repository.old boxes.items) (EndsIn repository.new) (W.contents writer.old) (W.contents writer.new) input.now) }
    ensures err { OnErr result (PrintsDressedFront dress (session_with A.heard repository.old boxes.items) (EndsIn repository.new) (W.contents writer.old) (W.contents writer.new) input.now) }
    ensures kind { IfErr result (λ e. IsWriteOrMemory e) }
{
    let Ok(mut pool) = Pool::new(alloc, boxes) else {
        return Err(RunFault::Memory);
    };
    if dress.is_plain() && !listener.is_listening() {
        return run_plain(alloc, writer, repository, &mut pool, input);
    }
    run_lines(alloc, writer, repository, &mut pool, listener, dress, input)
}

/// Reads a whole script, runs it over a repository that the caller lends, and writes the output of its lines, as the output options say.
/// The listener is called with each line that was run. The repository is not closed.
///
/// Fails as `run` does. The script is read to its end before its first line is run, even if the option `stop` ends the run early.
pub fn run_over<R: Read, W: Write, L: LinkStore, A: Adapter, H: Listener>(
    alloc: Global,
    reader: &mut R,
    writer: &mut W,
    repository: &mut Repository<L, A>,
    boxes: Vec<A>,
    listener: &mut H,
    dress: Dress,
) -> Result<Summary, RunFault>
    // All the input was read, the output of its lines was written, as the output options say, and the repository is as the lines left it.
    ensures ok { IfOk result (PrintsInputDressed dress (R.remaining reader.old) (session_with A.heard repository.old boxes.items) (EndsIn repository.new) (W.contents writer.old) (W.contents writer.new)) }
    ensures end { OnOk result (IsAtEnd (R.remaining reader.new)) }
    // If a write fails or the run is out of memory, a prefix of the output of the first lines was written, and the repository is as these
    // lines left it.
    ensures stopped { IfErr result (λ e. IsWriteOrMemory e
        → PrintsInputDressedFront dress (R.remaining reader.old) (session_with A.heard repository.old boxes.items) (EndsIn repository.new)
        (W.contents writer.old) (W.contents writer.new)) }
    // After a fault in reading nothing was written, and nothing was run.
    ensures unread { IfErr result (λ e. IsReadOrTooLong e → Keeps (W.contents writer.old) (W.contents writer.new)) }
    ensures unrun { IfErr result (λ e. IsReadOrTooLong e → repository.new ≡ repository.old) }
    // `TooLong` is returned only if the input is too long.
    ensures long { IsErrOf result RunFault.TooLong → IfSome (R.remaining reader.old) (λ input. INPUT_BYTES < length input) }
{
    match read_all(alloc, reader) {
        Ok(input) => run_input(
            alloc,
            writer,
            repository,
            boxes,
            listener,
            dress,
            input.as_slice(),
        ),
        Err(fault) => Err(fault),
    }
}

/// Reads a whole script and runs it over an empty repository, as `run` does, but writes the output of its lines as the output options say.
/// With the option `stop`, the run ends after the first line that is refused or bad.
///
/// Fails as `run` does. The script is read to its end before its first line is run, even if the option `stop` ends the run early.
pub fn run_dressed<R: Read, W: Write, L: LinkStore, A: Adapter>(
    alloc: Global,
    reader: &mut R,
    writer: &mut W,
    meta: Meta,
    boxes: Vec<A>,
    dress: Dress,
) -> Result<Summary, RunFault>
    // All the input was read, and the output of its lines was written, as the output options say.
    ensures ok { IfOk result (PrintsInputDressed dress (R.remaining reader.old) (first_session A.heard meta boxes.items) EndsAnywhere (W.contents writer.old) (W.contents writer.new)) }
    ensures end { OnOk result (IsAtEnd (R.remaining reader.new)) }
    // If a write fails or the run is out of memory, a prefix of the output of the first lines was written.
    ensures stopped { IfErr result (λ e. IsWriteOrMemory e
        → PrintsInputDressedFront dress (R.remaining reader.old) (first_session A.heard meta boxes.items) EndsAnywhere (W.contents writer.old) (W.contents writer.new)) }
    // After a fault in reading nothing was written.
    ensures unread { IfErr result (λ e. IsReadOrTooLong e → Keeps (W.contents writer.old) (W.contents writer.new)) }
    // `TooLong` is returned only if the input is too long.
    ensures long { IsErrOf result RunFault.TooLong → IfSome (R.remaining reader.old) (λ input. INPUT_BYTES < length input) }
{
    let mut repository: Repository<L, A> = Repository::new(alloc, meta);
    let outcome = run_over(
        alloc,
        reader,
        writer,
        &mut repository,
        boxes,
        &mut NoListener,
        dress,
    );
    let _ = repository.close();
    outcome
}

/// Reads a whole script, runs it over an empty repository of a metamodel, and writes the output of its lines. The adapters are named A1, A2
/// and so on, in the order of `boxes`. The repository keeps its links in a store of the type `L`. At the end the repository is closed,
/// which prints nothing.
///
/// Fails with `Read` if a read fails and with `TooLong` if the script has more than `INPUT_BYTES` bytes: then no line was run. Fails with
/// `Write` if a write fails or takes no byte, and with `Memory` if memory is refused to the run itself: then a prefix of the output of the
/// first lines was written. If memory is refused to the repository, the line prints `refused 28 MEMORY`, and the run goes on.
pub fn run<R: Read, W: Write, L: LinkStore, A: Adapter>(
    alloc: Global,
    reader: &mut R,
    writer: &mut W,
    meta: Meta,
    boxes: Vec<A>,
) -> Result<Summary, RunFault>
    // All the input was read, and the output of its lines was written.
    ensures ok { IfOk result (PrintsInput (R.remaining reader.old) (first_session A.heard meta boxes.items) (W.contents writer.old) (W.contents writer.new)) }
    ensures end { OnOk result (IsAtEnd (R.remaining reader.new)) }
    // If a write fails or the run is out of memory, a prefix of the output of the first lines was written.
    ensures stopped { IfErr result (λ e. IsWriteOrMemory e
        → PrintsInputFront (R.remaining reader.old) (first_session A.heard meta boxes.items) (W.contents writer.old) (W.contents writer.new)) }
    // After a fault in reading nothing was written.
    ensures unread { IfErr result (λ e. IsReadOrTooLong e → Keeps (W.contents writer.old) (W.contents writer.new)) }
    // `TooLong` is returned only if the input is too long.
    ensures long { IsErrOf result RunFault.TooLong → IfSome (R.remaining reader.old) (λ input. INPUT_BYTES < length input) }
{
    run_dressed::<R, W, L, A>(alloc, reader, writer, meta, boxes, Dress::plain())
}
