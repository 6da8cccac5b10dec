//! The lines of a script.
ghost use Rattle.std.specs.Prelude.{◌≡◌, ◌<◌, ◌≤◌, ◌+◌, drop, length, slice_index};
ghost use Rattle.std.specs.List.{position_or_len};
ghost use Rattle.script_lines.specs.Lines.{CutsLine, is_newline};

use crate::grammar::NEWLINE;
use memchr::memchr;

/// How many bytes come before the first newline; the number of all bytes, if there is no newline.
pub(crate) fn line_len_of(bytes: &[u8]) -> usize
    ensures value { result ≡ position_or_len is_newline bytes.now }
    ensures within { result ≤ length bytes.now }
    ensures end { result < length bytes.now → slice_index bytes.now result ≡ NEWLINE }
{
    match memchr(NEWLINE, bytes) {
        Some(n) => n,
        None => bytes.len(),
    }
}

/// The bytes after a line of `n` bytes and its newline; none if no newline follows the line.
fn after_line(bytes: &[u8], n: usize) -> &[u8]
    requires { n ≤ length bytes.now }
    ensures { result.now ≡ drop (n + 1) bytes.now }
{
    if n < bytes.len() {
        &bytes[n + 1..]
    } else {
        &bytes[n..]
    }
}

/// The first line of a script, without its newline, and the bytes after that newline; `None` if the script is empty.
///
/// The last line of a script need not end with a newline. The bytes after the last line are empty in either case.
pub fn next_line(bytes: &[u8]) -> Option<(&[u8], &[u8])>
    ensures { CutsLine result bytes.now }
{
    if bytes.is_empty() {
        return None;
    }
    let n = line_len_of(bytes);
    Some((&bytes[..n], after_line(bytes, n)))
}
