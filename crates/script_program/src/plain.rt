//! Runs scripts without output options, and writes their answers in blocks.
ghost use Rattle.std.specs.Prelude.{◌≡◌, ◌≤◌, [], IfErr, IfOk, OnErr, OnOk, length};
ghost use Rattle.std.specs.Io.KnownBytes.{Appends};
ghost use Rattle.mm_types.specs.declared.limits.TheConstants.{INPUT_BYTES};
ghost use Rattle.script_streams.specs.Faults.{IsWriteOrMemory};
ghost use Rattle.script_streams.specs.Streams.{AppendsFront};
ghost use Rattle.script_program.specs.Batch.{EndsIn, PrintsDressed, PrintsDressedFront};
ghost use Rattle.script_answers.specs.Dressed.{plain_dress};
ghost use Rattle.script_program.specs.Session.{session};

use crate::line::run_line;
use crate::pool::Pool;
use crate::summary::Summary;
use adapters::Adapter;
use links::LinkStore;
use repository::Repository;
use script_lines::Source;
use script_output::Output;
use script_streams::{RunFault, write_all};
use std::alloc::Global;
use std::io::Write;

/// A block of answers is written once it has at least this many bytes.
const BLOCK_BYTES: usize = 8192;

/// Writes a block, and empties it. Fails with `Write` if a write fails or takes no byte.
fn write_block<W: Write>(writer: &mut W, block: &mut Output) -> Result<(), RunFault>
    ensures ok { OnOk result (Appends (W.contents writer.old) (W.contents writer.new) block.old) }
    ensures empty { OnOk result (block.new ≡ []) }
    ensures err { OnErr result (AppendsFront (W.contents writer.old) (W.contents writer.new) block.old) }
    ensures kind { IfErr result (λ e. e ≡ RunFault.Write) }
{
    write_all(writer, block.as_bytes())?;
    block.clear();
    Ok(())
}

/// Runs the lines of a script in turn, and writes their output. If memory is refused to the run itself, the answers that wait in the block
/// are not written: the call to which memory was refused may have added only a part of its text to the block.
pub(crate) fn run_plain<W: Write, L: LinkStore, A: Adapter>(
    alloc: Global,
    writer: &mut W,
    repository: &mut Repository<L, A>,
    pool: &mut Pool<A>,
    input: &[u8],
) -> Result<Summary, RunFault>
    requires { length input.now ≤ INPUT_BYTES }
    ensures ok { IfOk result (λ s. PrintsDressed plain_dress (session repository.old pool.old) (EndsIn repository.new) (W.contents writer.old) (W.contents writer.new) input.now s) }
    ensures err { OnErr result (PrintsDressedFront plain_dress (session repository.old pool.old) (EndsIn repository.new) (W.contents writer.old) (W.contents writer.new) input.now) }
    ensures kind { IfErr result (λ e. IsWriteOrMemory e) }
{
    let mut block = Output::new(alloc);
    let mut summary = Summary::new();
    let mut rest = Source::new(input);
    'lines: while let Some((line, more)) = rest.next_line() {
        let Ok(turn) = run_line(alloc, repository, pool, &mut block, line) else {
            return Err(RunFault::Memory);
        };
        summary = summary.with(turn);
        if block.as_bytes().len() >= BLOCK_BYTES {
            write_block(writer, &mut block)?;
        }
        rest = more;
    }
    write_all(writer, block.as_bytes())?;
    Ok(summary)
}
