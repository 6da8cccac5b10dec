//! The bytes of a script, which may be known to be UTF-8.
ghost use Rattle.std.specs.Prelude.{◌≡◌, MatchOption};
ghost use Rattle.std.specs.List.{after_first, before_first};
ghost use Rattle.script_lines.specs.Forms.{form, text_line};
ghost use Rattle.script_lines.specs.Lines.{is_newline};
ghost use Rattle.script_lines.specs.Source.{CutsSource, bytes_of};
ghost use Rattle.script_lines.specs.declared.line.Line.TheVariants as asked;

use crate::line::text_of_line;
use crate::lines::{line_len_of, next_line};
use crate::words::after_byte;
use std::str;

/// Bytes of a script: the whole script, the rest of a script, or a line. If a whole script is known to be UTF-8, so is each of its lines.
#[derive(Clone, Copy)]
pub enum Source<'a> {
    /// Bytes that are known to be UTF-8.
    Text(&'a str),
    /// Bytes that are not known to be UTF-8.
    Bytes(&'a [u8]),
}

/// The text before the first newline, and the text after that newline. If there is no newline, the second text is empty.
fn cut_at_newline(text: &str) -> (&str, &str)
    ensures before { result.0.now ≡ before_first is_newline text.now }
    ensures after { result.1.now ≡ after_first is_newline text.now }
{
    let (line, rest) = text.split_at(line_len_of(text.as_bytes()));
    if rest.is_empty() {
        (line, rest)
    } else {
        (line, after_byte(rest))
    }
}

/// The text of a line that is known to be UTF-8.
fn known_text(text: &str) -> &str
    ensures same { result.now ≡ text.now }
    ensures line { form text.now ≡ text_line text.now }
{
    text
}

impl<'a> Source<'a> {
    /// A source of the bytes of a script. The call checks, once for the whole script, whether the bytes are UTF-8.
    pub fn new(bytes: &'a [u8]) -> Self
        ensures { bytes_of result ≡ bytes.now }
    {
        match str::from_utf8(bytes) {
            Ok(text) => Source::Text(text),
            Err(_) => Source::Bytes(bytes),
        }
    }

    /// The bytes.
    pub fn as_bytes(self) -> &'a [u8]
        ensures { result.now ≡ bytes_of self.entry }
    {
        match self {
            Source::Text(text) => text.as_bytes(),
            Source::Bytes(bytes) => bytes,
        }
    }

    /// The first line, without its newline, and the bytes after that newline; `None` if there are no bytes. The cut is that of the function
    /// `next_line` of this crate.
    pub fn next_line(self) -> Option<(Self, Self)>
        ensures { CutsSource result (bytes_of self.entry) }
    {
        match self {
            Source::Text(text) => {
                if text.is_empty() {
                    return None;
                }
                let (line, more) = cut_at_newline(text);
                Some((Source::Text(line), Source::Text(more)))
            }
            Source::Bytes(bytes) => {
                let (line, more) = next_line(bytes)?;
                Some((Source::Bytes(line), Source::Bytes(more)))
            }
        }
    }

    /// The text of a line; `None` if the line is not UTF-8, which makes it a bad line.
    pub fn text_of_line(self) -> Option<&'a str>
        ensures { MatchOption result (form (bytes_of self.entry) ≡ asked.Bad) (λ text. form (bytes_of self.entry) ≡ text_line text.now) }
    {
        match self {
            Source::Text(text) => Some(known_text(text)),
            Source::Bytes(line) => text_of_line(line),
        }
    }
}
