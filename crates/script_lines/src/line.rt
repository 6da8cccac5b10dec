//! A line of a script, and its form.
ghost use Rattle.std.specs.Prelude.{◌≡◌, IfOk, MatchOption, map};
ghost use Rattle.script_lines.specs.Forms.{form, line_of as the_line_of, line_with as the_line_with, text_line};
ghost use Rattle.script_lines.specs.declared.line.Line.TheVariants as asked;

use crate::form::Form;
use crate::load::{load_of, loaded_of};
use crate::parse::form_of;
use crate::words::words_of;
use std::alloc::{AllocError, Global};
use std::str;

/// A line of a script.
#[derive(Drop)]
pub enum Line<'a> {
    /// The line is empty or has only spaces, and is skipped.
    Blank,
    /// The line is not UTF-8, or fits no form.
    Bad,
    /// The line fits a form, which says what the line asks for.
    Form(Form<'a>),
}

/// The `Line` for a line that has words, from the form that the line fits; `Bad` if the line fits no form.
fn line_with(form: Option<Form<'_>>) -> Line<'_>
    ensures { result ≡ the_line_with form.entry }
{
    match form {
        Some(form) => Line::Form(form),
        None => Line::Bad,
    }
}

/// What the words of a line ask for; `Blank` if there are none.
fn line_of<'a>(alloc: Global, words: &[&'a str]) -> Result<Line<'a>, AllocError>
    ensures { IfOk result (λ l. l ≡ the_line_of (map (λ w. w.now) words.now)) }
{
    if words.is_empty() {
        return Ok(Line::Blank);
    }
    Ok(line_with(form_of(alloc, words)?))
}

/// What the text of a line asks for. Fails only if memory is refused for a text in the line, such as a value or a document.
pub fn text_line_of(alloc: Global, text: &str) -> Result<Line<'_>, AllocError>
    ensures { IfOk result (λ l. l ≡ text_line text.now) }
{
    match loaded_of(text) {
        Some(rest) => Ok(line_with(load_of(alloc, rest)?)),
        None => line_of(alloc, words_of(text).as_slice()),
    }
}

/// The text of a line; `None` if the line is not UTF-8, which makes it a bad line.
pub(crate) fn text_of_line(line: &[u8]) -> Option<&str>
    ensures { MatchOption result (form line.now ≡ asked.Bad) (λ text. form line.now ≡ text_line text.now) }
{
    match str::from_utf8(line) {
        Ok(text) => Some(text),
        Err(_) => None,
    }
}

/// What a line asks for. Fails only if memory is refused for a text in the line, such as a value or a document.
///
/// A line is passed without its newline. The line is blank if it is empty or has only spaces, and bad if it is not UTF-8 or fits no form of
/// the language. The text of a `load` line is not cut into words: it is the rest of the line after the one space that follows the resource.
/// The time is linear in the line's length.
pub fn parse_line(alloc: Global, line: &[u8]) -> Result<Line<'_>, AllocError>
    ensures { IfOk result (λ l. l ≡ form line.now) }
{
    match text_of_line(line) {
        Some(text) => text_line_of(alloc, text),
        None => Ok(Line::Bad),
    }
}
