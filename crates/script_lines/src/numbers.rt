//! Reads numbers. A number of up to nine digits is read in one loop.
ghost use Rattle.std.specs.Prelude.{◌≡◌, ◌≢◌, ◌≤◌, ◌<◌, IfSome, Some, length, option_map, slice_index, take};
ghost use Rattle.std.specs.Char.{is_ascii_digit};
ghost use Rattle.std.specs.List.{after_first, before_first, prefix_len};
ghost use Rattle.std.specs.Str.Parse.{digits_value};
ghost use Rattle.mm_types.specs.Integers.{integer, natural_number};
ghost use Rattle.script_lines.specs.Words.{is_space};

use crate::grammar::{MINUS, SPACE};
use crate::words::cut_at_space;
use mm_types::integers;
use mm_types::integers::integer_of;

/// The greatest number of digits that the loop reads. Each number of nine digits is below 2^32.
const MOST_DIGITS: usize = 9;

/// The first bytes: at most `MOST_DIGITS` of them.
#[inline]
fn first_bytes(bytes: &[u8]) -> &[u8]
    ensures { result.now ≡ take MOST_DIGITS bytes.now }
{
    if bytes.len() <= MOST_DIGITS {
        bytes
    } else {
        &bytes[..MOST_DIGITS]
    }
}

/// The number that the leading digits write, and how many leading digits there are. The number is 0 if there are none.
#[inline]
fn digits_of(bytes: &[u8]) -> (u32, usize)
    requires { length bytes.now ≤ MOST_DIGITS }
    ensures len { result.1 ≡ prefix_len is_ascii_digit bytes.now }
    ensures number { result.0 ≡ digits_value 10 (take result.1 bytes.now) }
{
    let mut number = 0;
    'bytes: for (i, byte) in bytes.iter().enumerate() {
        if !byte.is_ascii_digit() {
            return (number, i);
        }
        number = number * 10 + u32::from(*byte - b'0');
    }
    (number, bytes.len())
}

/// The number that the leading digits write, and how many digits were read. At most nine digits are read: the number is that of the first
/// nine, even if more digits follow. `None` if there is no leading digit, or if the first of several digits is 0.
#[inline]
pub(crate) fn number_begun(bytes: &[u8]) -> Option<(u32, usize)>
    ensures { IfSome result (λ p. (natural_number (take p.1 bytes.now) ≡ Some p.0) × (p.1 ≤ length bytes.now)) }
{
    let (number, len) = digits_of(first_bytes(bytes));
    if len == 0 {
        return None;
    }
    if len > 1 && bytes[0] == b'0' {
        return None;
    }
    Some((number, len))
}

/// The unsigned 32-bit number that a word writes; `None` if the word writes no such number, or writes it with leading zeros.
#[inline]
pub fn natural_of(word: &str) -> Option<u32>
    ensures { result ≡ natural_number word.now }
{
    match number_begun(word.as_bytes()) {
        Some((number, len)) if len == word.len() => Some(number),
        _ => integers::natural_of(word),
    }
}

/// Reads an unsigned 32-bit number from the bytes before the first space of a text, or from the whole text if it has no space. `None` if
/// these bytes write no such number. The function is never inlined into the code that reads a number of up to nine digits.
#[inline(never)]
fn long_number_of(text: &str) -> Option<u32>
    ensures { result ≡ natural_number (before_first is_space text.now) }
{
    integers::natural_of(cut_at_space(text).0)
}

/// The text after the first space of a text; empty if there is no space. The function is never inlined, like `long_number_of`.
#[inline(never)]
fn behind_space(text: &str) -> &str
    ensures { result.now ≡ after_first is_space text.now }
{
    cut_at_space(text).1
}

/// Reads an unsigned 32-bit number from the bytes before the first space of a text. Returns the number, and the text after that space. If
/// the text has no space, the number is read from the whole text, and the returned text is empty. `None` if the bytes that are read write
/// no such number.
#[inline(always)]
pub fn number_before_space(text: &str) -> Option<(u32, &str)>
    ensures number { option_map (λ p. p.0) result ≡ natural_number (before_first is_space text.now) }
    ensures rest { IfSome result (λ p. p.1.now ≡ after_first is_space text.now) }
{
    let bytes = text.as_bytes();
    match number_begun(bytes) {
        Some((number, len)) if len < bytes.len() && bytes[len] == SPACE => {
            let rest = &text[len + 1..];
            Some((number, rest))
        }
        _ => Some((long_number_of(text)?, behind_space(text))),
    }
}

/// The signed 64-bit number that a word writes; `None` if the word writes no such number. The word does not begin with a minus sign.
#[inline]
fn non_negative_of(word: &str) -> Option<i64>
    requires { slice_index word.now 0 ≢ MINUS }
    ensures { result ≡ integer word.now }
{
    match number_begun(word.as_bytes()) {
        Some((number, len)) if len == word.len() => Some(i64::from(number)),
        _ => integer_of(word),
    }
}

/// The signed 64-bit number that a word writes; `None` if the word writes no such number. The word begins with a minus sign.
fn negative_of(word: &str) -> Option<i64>
    requires some { 0 < length word.now }
    requires minus { slice_index word.now 0 ≡ MINUS }
    ensures { result ≡ integer word.now }
{
    match number_begun(&word.as_bytes()[1..]) {
        Some((number, len)) if len + 1 == word.len() && number != 0 => Some(-i64::from(number)),
        _ => integer_of(word),
    }
}

/// The signed 64-bit number that a word writes, with or without a minus sign; `None` if the word writes no such number.
pub(crate) fn int_of(word: &str) -> Option<i64>
    requires { 0 < length word.now }
    ensures { result ≡ integer word.now }
{
    if word.as_bytes()[0] == MINUS {
        negative_of(word)
    } else {
        non_negative_of(word)
    }
}
