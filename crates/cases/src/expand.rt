//! Marks in a case's text, which write long or invisible text in a short way.
//!
//! `<<xFF>>` is the byte with these two hexadecimal digits. `<<3* ab%,>>` repeats a text three times. The repetitions are numbered from 0,
//! and each `%` in the text is replaced by the number of the repetition: `ab0,ab1,ab2,`. A `^` is replaced by this number plus one, and a
//! `|` by a newline.
use crate::fault::Fault;
use std::io::Write;

/// Adds a text once, with `number` instead of each `%`, `number + 1` instead of each `^`, and a newline instead of each `|`.
fn push_numbered(out: &mut Vec<u8>, text: &str, number: u32) -> Result<(), Fault> {
    for byte in text.bytes() {
        match byte {
            b'%' => write!(out, "{number}")?,
            b'^' => write!(out, "{}", u64::from(number) + 1)?,
            b'|' => out.push(b'\n')?,
            _ => out.push(byte)?,
        }
    }
    Ok(())
}

/// Adds what a mark stands for. `mark` is the text between `<<` and `>>`.
fn push_mark(out: &mut Vec<u8>, mark: &str) -> Result<(), Fault> {
    if let Some(digits) = mark.strip_prefix('x') {
        let Ok(byte) = u8::from_str_radix(digits, 16) else {
            return Err(Fault::Mark);
        };
        out.push(byte)?;
        return Ok(());
    }
    let Some((count, text)) = mark.split_once("* ") else {
        return Err(Fault::Mark);
    };
    let Ok(count) = count.parse::<u32>() else {
        return Err(Fault::Mark);
    };
    for number in 0..count {
        push_numbered(out, text, number)?;
    }
    Ok(())
}

/// Adds what the text after a `<<` stands for. `text` has the mark up to its `>>`, and then the rest. The mark is replaced by what it
/// stands for, and the rest is added as it is.
fn push_after_mark(out: &mut Vec<u8>, text: &str) -> Result<(), Fault> {
    let Some((mark, rest)) = text.split_once(">>") else {
        return Err(Fault::Mark);
    };
    push_mark(out, mark)?;
    out.extend_from_slice(rest.as_bytes())?;
    Ok(())
}

/// Adds a line: its text with each mark replaced by what it stands for, and a newline.
pub(crate) fn push_line(out: &mut Vec<u8>, text: &str) -> Result<(), Fault> {
    for (i, piece) in text.split("<<").enumerate() {
        if i == 0 {
            out.extend_from_slice(piece.as_bytes())?;
        } else {
            push_after_mark(out, piece)?;
        }
    }
    out.push(b'\n')?;
    Ok(())
}
