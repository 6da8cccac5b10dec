//! The entry of a line in a file: a mark, the line, and a newline.
ghost use Rattle.std.specs.Prelude.{◌≡◌, ◌++◌, [], ◌∷◌, drop, length, take, OnOk, OnErr};
ghost use Rattle.journal.specs.Lines.{CutsEntry, CutsLine, entries, entry, recovered_lines};

use memchr::memchr;
use std::alloc::AllocError;

/// The first byte of an entry. If a line of a file does not begin with this byte, neither that line nor any line after it is recovered from
/// the file.
pub(crate) const MARK: u8 = b' ';

/// The last byte of an entry.
pub(crate) const NEWLINE: u8 = b'\n';

/// The bytes before the first newline, and the bytes after that newline; `None` if there is no newline.
fn cut_line(bytes: &[u8]) -> Option<(&[u8], &[u8])>
    ensures { CutsLine result bytes.now }
{
    match memchr(NEWLINE, bytes) {
        Some(n) => Some((&bytes[..n], &bytes[n + 1..])),
        None => None,
    }
}

/// The first line that is recovered from the bytes of a file, and the bytes after the entry of this line. `None` if no line is recovered
/// from the bytes.
pub fn next_entry(bytes: &[u8]) -> Option<(&[u8], &[u8])>
    ensures { CutsEntry result bytes.now }
{
    match bytes {
        [MARK, rest @ ..] => cut_line(rest),
        _ => None,
    }
}

/// The total length, in bytes, of the entries at the front of a file: the entries of the lines that are recovered from the file.
pub(crate) fn entries_len(bytes: &[u8]) -> usize
    ensures split { bytes.now ≡ entries (recovered_lines bytes.now) ++ drop result bytes.now }
    ensures len { result ≡ length (entries (recovered_lines bytes.now)) }
    ensures rest { recovered_lines (drop result bytes.now) ≡ [] }
{
    let mut rest = bytes;
    'entries: while let Some((_, more)) = next_entry(rest) {
        rest = more;
    }
    bytes.len() - rest.len()
}

/// Appends the entry of a line. If memory is refused, a prefix of the entry may have been appended.
pub(crate) fn put_entry(pending: &mut Vec<u8>, line: &[u8]) -> Result<(), AllocError>
    ensures ok { OnOk result (pending.new.items ≡ pending.old.items ++ entry line.now) }
    ensures err { OnErr result (take (length pending.old.items) pending.new.items ≡ pending.old.items) }
{
    pending.push(MARK)?;
    pending.extend_from_slice(line)?;
    pending.push(NEWLINE)?;
    Ok(())
}
