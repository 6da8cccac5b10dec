//! Bytes that are no JSON.
use crate::shown::front_of;
use std::{fmt, str};

/// The greatest number of bytes that are shown of the bytes that are no JSON.
const SHOWN_BYTES: usize = 20;

/// The mark that some programs write before a text in UTF-8.
const BYTE_ORDER_MARK: &[u8] = b"\xef\xbb\xbf";

/// Why bytes are no JSON. `NotUtf8`, `Shown` and `Before` speak of the place at which the reader stopped.
#[derive(Clone, Copy)]
pub(crate) enum NoJson<'b> {
    /// The bytes end before the JSON ends.
    EndsEarly,
    /// The bytes begin with a byte order mark.
    ByteOrderMark,
    /// The bytes from the place on do not begin with a character in UTF-8.
    NotUtf8,
    /// The bytes from the place on are no JSON; they begin with this text.
    Shown(&'b str),
    /// No bytes follow the place. The reader passed over white space after the part that is no JSON.
    Before,
}

impl fmt::Display for NoJson<'_> {
    fn fmt<W: fmt::Write>(&self, f: &mut fmt::Formatter<W>) -> fmt::Result {
        match self {
            NoJson::EndsEarly => write!(f, "the bytes end within the JSON"),
            NoJson::ByteOrderMark => write!(
                f,
                "the bytes begin with a byte order mark; take it out"
            ),
            NoJson::NotUtf8 => write!(
                f,
                "from here on the bytes are no JSON: this one is not UTF-8"
            ),
            NoJson::Shown(text) => { write!(f, "from here on the bytes are no JSON: {text:?}") }
            NoJson::Before => write!(f, "just before this place the bytes are no JSON"),
        }
    }
}

/// How many bytes come before a line; lines are counted from 1.
fn start_of(bytes: &[u8], line: usize) -> usize {
    let mut start = 0usize;
    for (i, found) in bytes.split(|byte| *byte == b'\n').enumerate() {
        if i.saturating_add(1) >= line {
            return start;
        }
        start = start.saturating_add(found.len()).saturating_add(1);
    }
    start
}

/// How many bytes come before the byte at a line and a column, both counted from 1.
pub fn offset_of(bytes: &[u8], line: usize, column: usize) -> usize {
    start_of(bytes, line).saturating_add(column.saturating_sub(1))
}

/// The longest beginning of some bytes that is UTF-8.
fn text_at(bytes: &[u8]) -> &str {
    match str::from_utf8(bytes) {
        Ok(text) => text,
        Err(error) => {
            let valid = bytes.get(..error.valid_up_to()).unwrap_or(&[]);
            str::from_utf8(valid).unwrap_or("")
        }
    }
}

/// Why bytes are no JSON from a place on, if they do not end too early. The place is given by `line` and `column`, both counted from 1. If
/// the bytes begin with a byte order mark, the mark is the reason, whatever the place.
pub(crate) fn no_json_at(bytes: &[u8], line: usize, column: usize) -> NoJson<'_> {
    if bytes.starts_with(BYTE_ORDER_MARK) {
        return NoJson::ByteOrderMark;
    }
    let rest = bytes.get(offset_of(bytes, line, column)..).unwrap_or(&[]);
    if rest.is_empty() {
        return NoJson::Before;
    }
    // A character that would be cut in two is left out.
    let front = rest.get(..SHOWN_BYTES).unwrap_or(rest);
    match text_at(front) {
        "" => NoJson::NotUtf8,
        text => NoJson::Shown(front_of(text, SHOWN_BYTES)),
    }
}
