//! Writes the answers of lines, as the output options say.
ghost use Rattle.std.specs.Prelude.{◌≡◌, IfErr, OnErr, OnOk};
ghost use Rattle.std.specs.Io.KnownBytes.{Appends};
ghost use Rattle.script_answers.specs.Dressed.{dressed_answer, dressed_line, each_behind, echoed_line, numbered_lines};
ghost use Rattle.script_answers.specs.Turns.{printed_line};
ghost use Rattle.script_streams.specs.Streams.{AppendsFront};

use crate::dress::Dress;
use crate::turn::Turn;
use script_lines::next_line;
use script_streams::{RunFault, write_all, write_parts};
use std::io::Write;

/// The text before a line that is echoed.
const ECHO: &[u8] = b"> ";

/// The text between the number of a script line and a line of its answer.
const NUMBERED: &[u8] = b": ";

/// Ends a line.
const LINE_END: &[u8] = b"\n";

/// Writes a line of the script, if lines are echoed and the line is not skipped.
fn write_echo<W: Write>(
    writer: &mut W,
    dress: Dress,
    line: &[u8],
    turn: Turn,
) -> Result<(), RunFault>
    ensures ok { OnOk result (Appends (W.contents writer.old) (W.contents writer.new) (echoed_line dress line.now turn)) }
    ensures err { OnErr result (AppendsFront (W.contents writer.old) (W.contents writer.new) (echoed_line dress line.now turn)) }
    ensures kind { IfErr result (λ e. e ≡ RunFault.Write) }
{
    if !dress.echo || turn == Turn::Blank {
        return Ok(());
    }
    write_parts(writer, &[ECHO, line, LINE_END])
}

/// For each line of an answer, writes the number of the script line that is answered, and then the line of the answer.
fn write_numbered<W: Write>(writer: &mut W, number: u64, answer: &[u8]) -> Result<(), RunFault>
    ensures ok { OnOk result (Appends (W.contents writer.old) (W.contents writer.new) (numbered_lines number answer.now)) }
    ensures err { OnErr result (AppendsFront (W.contents writer.old) (W.contents writer.new) (numbered_lines number answer.now)) }
    ensures kind { IfErr result (λ e. e ≡ RunFault.Write) }
{
    let mut buffer = itoa::Buffer::new();
    let digits = buffer.format(number).as_bytes();
    let mut rest = answer;
    'lines: while let Some((line, more)) = next_line(rest) {
        write_parts(writer, &[digits, NUMBERED, line, LINE_END])?;
        rest = more;
    }
    Ok(())
}

/// Writes the answer of a line of the script. If answers are numbered, `number` comes before each line of the answer.
fn write_answer<W: Write>(
    writer: &mut W,
    dress: Dress,
    number: u64,
    answer: &[u8],
) -> Result<(), RunFault>
    ensures ok { OnOk result (Appends (W.contents writer.old) (W.contents writer.new) (dressed_answer dress number answer.now)) }
    ensures err { OnErr result (AppendsFront (W.contents writer.old) (W.contents writer.new) (dressed_answer dress number answer.now)) }
    ensures kind { IfErr result (λ e. e ≡ RunFault.Write) }
{
    if dress.number {
        write_numbered(writer, number, answer)
    } else {
        write_all(writer, answer)
    }
}

/// Writes the output of a line of the script, as the output options say.
///
/// Fails with `Write` if a write fails or takes no byte; then a prefix of the output was written.
pub fn write_dressed<W: Write>(
    writer: &mut W,
    dress: Dress,
    number: u64,
    line: &[u8],
    turn: Turn,
    answer: &[u8],
) -> Result<(), RunFault>
    ensures ok { OnOk result (Appends (W.contents writer.old) (W.contents writer.new) (dressed_line dress number line.now (printed_line answer.now turn))) }
    ensures err { OnErr result (AppendsFront (W.contents writer.old) (W.contents writer.new) (dressed_line dress number line.now (printed_line answer.now turn))) }
    ensures kind { IfErr result (λ e. e ≡ RunFault.Write) }
{
    write_echo(writer, dress, line, turn)?;
    write_answer(writer, dress, number, answer)
}
