//! `load` lines. The text of a document is written in the line as it is, up to the end of the line, and is not cut into words.
ghost use Rattle.std.specs.Prelude.{◌≡◌, true, false, IfOk, IfSome, MatchOption, option_map};
ghost use Rattle.script_lines.specs.Words.{after_spaces, is_space};
ghost use Rattle.script_lines.specs.Forms.{behind_verb, is_load, load_form, may_load as the_may_load, text_line, verb_in};
ghost use Rattle.script_lines.specs.declared.form.Form.TheVariants as asks;
ghost use Rattle.script_lines.specs.declared.line.Line.TheVariants as asked;

use crate::form::Form;
use crate::grammar::SPACE;
use crate::values::resource_no_of;
use crate::words::cut_at_space;
use mm_types::{ResourceNo, Text};
use std::alloc::{AllocError, Global};

/// A text without its leading spaces.
fn after_spaces_of(text: &str) -> &str
    ensures { result.now ≡ after_spaces text.now }
{
    text.trim_start_matches(' ')
}

/// Whether a line may be a `load` line, by its first byte alone: a space, or `l`.
fn may_load(line: &str) -> bool
    ensures { result ≡ the_may_load line.now }
{
    match line.as_bytes().first() {
        Some(byte) => *byte == SPACE || *byte == b'l',
        None => false,
    }
}

/// The verb of a line, and the text after the space that follows the verb; this text is empty if no space follows the verb.
fn verb_of(line: &str) -> (&str, &str)
    ensures verb { result.0.now ≡ verb_in line.now }
    ensures rest { result.1.now ≡ behind_verb line.now }
{
    cut_at_space(after_spaces_of(line))
}

/// The text of a `load` line after its verb and one space; empty if no space follows the verb. `None` for any other line. Most other lines
/// are recognised by their first byte.
pub fn loaded_of(line: &str) -> Option<&str>
    ensures { MatchOption result (is_load line.now ≡ false) (λ rest. (is_load line.now ≡ true) × (rest.now ≡ behind_verb line.now)) }
{
    if !may_load(line) {
        return None;
    }
    let (verb, rest) = verb_of(line);
    if verb == "load" { Some(rest) } else { None }
}

/// The resource and the text of `load RES REST`, from the text after the verb; `None` if no space follows RES, or RES is not written like
/// `r0`.
fn parts_of(rest: &str) -> Option<(ResourceNo, &str)>
    ensures { option_map (λ p. asks.Load p.0 p.1.now) result ≡ load_form (after_spaces rest.now) }
{
    let (resource, text) = after_spaces_of(rest).split_once(' ')?;
    let resource = resource_no_of(resource)?;
    Some((resource, text))
}

/// The resource and the text of a `load` line; `None` for any other line and for a bad `load` line. The result is also `None` if the line
/// begins with a space. After `None` the caller calls `text_line_of`, which skips leading spaces.
pub fn load_parts(line: &str) -> Option<(ResourceNo, &str)>
    ensures { IfSome result (λ p. text_line line.now ≡ asked.Form (asks.Load p.0 p.1.now)) }
{
    if line.as_bytes().first() == Some(&SPACE) {
        return None;
    }
    match loaded_of(line) {
        Some(rest) => parts_of(rest),
        None => None,
    }
}

/// The form of `load RES REST`, from the text after the verb; `None` if no space follows RES, or RES is not written like `r0`. Fails only
/// if memory is refused for the text.
pub fn load_of<'a>(alloc: Global, rest: &str) -> Result<Option<Form<'a>>, AllocError>
    ensures { IfOk result (λ o. o ≡ load_form (after_spaces rest.now)) }
{
    match parts_of(rest) {
        Some((resource, text)) => {
            let text = Text::from_str(alloc, text)?;
            Ok(Some(Form::Load { resource, text }))
        }
        None => Ok(None),
    }
}
