//! Texts, read from words that are JSON strings.
ghost use Rattle.std.specs.Prelude.{◌≡◌, IfOk, IfSome, Some};
ghost use Rattle.std.specs.List.{list_all};
ghost use Rattle.serde_json.specs.Find.{as_str};
ghost use Rattle.serde_json.specs.View.{view};
ghost use Rattle.script_lines.specs.Values.{is_plain, text_in};

use crate::grammar::{BACKSLASH, QUOTE, SPACE};
use mm_types::Text;
use serde_json::Value;
use std::alloc::{AllocError, Global};

/// Whether each byte stands for itself in a JSON string.
fn are_plain(bytes: &[u8]) -> bool
    ensures { result ≡ list_all is_plain bytes.now }
{
    bytes
        .iter()
        .all(|b| *b >= SPACE && (*b != QUOTE && *b != BACKSLASH))
}

/// The text between the quotation marks of a word. `None` if the word does not begin and end with a quotation mark, or if some byte between
/// them does not stand for itself in a JSON string.
fn plain_text(word: &str) -> Option<&str>
    ensures { IfSome result (λ t. text_in word.now ≡ Some t.now) }
{
    let bytes = word.as_bytes();
    let len = bytes.len();
    if len < 2 || bytes[0] != QUOTE || bytes[len - 1] != QUOTE {
        return None;
    }
    if !are_plain(&bytes[1..len - 1]) {
        return None;
    }
    Some(&word[1..len - 1])
}

/// The text of a JSON value that is a string; `None` for any other value. A text of at most 22 bytes is copied, and a longer text is moved
/// out of the value.
fn string_of(alloc: Global, value: Value) -> Result<Option<Text>, AllocError>
    ensures { IfOk result (λ o. o ≡ as_str (view value)) }
{
    match value {
        Value::String(text) => Ok(Some(Text::from_string(alloc, text)?)),
        _ => Ok(None),
    }
}

/// The text of a word that is a JSON string, read by `serde_json`; `None` for any other word.
fn escaped_text(alloc: Global, word: &str) -> Result<Option<Text>, AllocError>
    ensures { IfOk result (λ o. o ≡ text_in word.now) }
{
    let bytes = word.as_bytes();
    if bytes.is_empty() || bytes[bytes.len() - 1] != QUOTE {
        return Ok(None);
    }
    match Value::from_str(alloc, word) {
        Ok(value) => string_of(alloc, value),
        Err(error) if error.is_memory() => Err(AllocError),
        Err(_) => Ok(None),
    }
}

/// The text of a word that is a JSON string; `None` for any other word.
///
/// The text of a word without escapes is copied: to read the word as JSON would take many times as long.
pub fn text_of(alloc: Global, word: &str) -> Result<Option<Text>, AllocError>
    ensures { IfOk result (λ o. o ≡ text_in word.now) }
{
    match plain_text(word) {
        Some(text) => Ok(Some(Text::from_str(alloc, text)?)),
        None => escaped_text(alloc, word),
    }
}
