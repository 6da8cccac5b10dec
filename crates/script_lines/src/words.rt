//! A line is cut into words at its spaces. Only a word that begins with a quotation mark may have spaces in it. This word goes on to the
//! next quotation mark that no backslash escapes, and from there to the next space. If that quotation mark or that space is missing, the
//! word goes on to the end of the line.
ghost use Rattle.std.specs.Prelude.{◌≡◌, ◌<◌, ◌≤◌, ◌+◌, drop, false, length, map, position, slice_index, take};
ghost use Rattle.std.specs.List.{after_first, before_first};
ghost use Rattle.std.specs.Str.{IsUtf8, bytes_eq};
ghost use Rattle.script_lines.specs.Words.{is_mark, is_one_word, is_space, plain_len, quoted_len, word_len, words};

use crate::grammar::{BACKSLASH, QUOTE, SPACE};
use arrayvec::ArrayVec;

fn first_space(bytes: &[u8]) -> Option<usize>
    ensures { result ≡ position is_space bytes.now }
{
    bytes.iter().position(|b| *b == SPACE)
}

/// How many bytes come before the first space; the number of all bytes, if there is no space.
fn plain_len_of(bytes: &[u8]) -> usize
    ensures value { result ≡ plain_len bytes.now }
    ensures within { result ≤ length bytes.now }
    ensures end { result < length bytes.now → slice_index bytes.now result ≡ SPACE }
{
    match first_space(bytes) {
        Some(n) => n,
        None => bytes.len(),
    }
}

/// The index of the first byte that is a quotation mark or a backslash.
fn first_mark(bytes: &[u8]) -> Option<usize>
    ensures { result ≡ position is_mark bytes.now }
{
    bytes.iter().position(|b| *b == QUOTE || *b == BACKSLASH)
}

/// How many bytes of a word follow the quotation mark with which the word begins; `bytes` has all bytes of the line after that mark. Most
/// words have no escape, so the next quotation mark usually ends the quotation. The function is never inlined into the code that reads a
/// word without quotation marks.
#[inline(never)]
fn quoted_len_of(bytes: &[u8]) -> usize
    ensures value { result ≡ quoted_len false bytes.now }
    ensures within { result ≤ length bytes.now }
    ensures end { result < length bytes.now → slice_index bytes.now result ≡ SPACE }
{
    match first_mark(bytes) {
        Some(i) if bytes[i] == QUOTE => i + 1 + plain_len_of(&bytes[i + 1..]),
        _ => escaped_len_of(bytes),
    }
}

/// How many bytes of a word follow the quotation mark with which the word begins; `bytes` has all bytes of the line after that mark. The
/// word may have escapes.
fn escaped_len_of(bytes: &[u8]) -> usize
    ensures value { result ≡ quoted_len false bytes.now }
    ensures within { result ≤ length bytes.now }
    ensures end { result < length bytes.now → slice_index bytes.now result ≡ SPACE }
{
    let mut escaped = false;
    'bytes: for (i, byte) in bytes.iter().enumerate() {
        if escaped {
            escaped = false;
        } else if *byte == QUOTE {
            return i + 1 + plain_len_of(&bytes[i + 1..]);
        } else if *byte == BACKSLASH {
            escaped = true;
        }
    }
    bytes.len()
}

/// The length of the word with which the bytes begin.
#[inline(always)]
pub fn word_len_of(bytes: &[u8]) -> usize
    requires { 0 < length bytes.now }
    ensures value { result ≡ word_len bytes.now }
    ensures some { 0 < result }
    ensures within { result ≤ length bytes.now }
    ensures end { result < length bytes.now → slice_index bytes.now result ≡ SPACE }
{
    let rest = &bytes[1..];
    if bytes[0] == QUOTE {
        1 + quoted_len_of(rest)
    } else {
        1 + plain_len_of(rest)
    }
}

/// The word with which a text begins, and the rest of the text.
fn first_word(text: &str) -> (&str, &str)
    requires { 0 < length text.now }
    ensures word { result.0.now ≡ take (word_len text.now) text.now }
    ensures rest { result.1.now ≡ drop (word_len text.now) text.now }
    ensures shorter { length result.1.now < length text.now }
    ensures text { IsUtf8 result.1.now }
{
    text.split_at(word_len_of(text.as_bytes()))
}

/// The first `len` bytes of a text, and the text after the space that follows these bytes; the second text is empty if no space follows.
#[inline]
pub fn cut_at(text: &str, len: usize) -> (&str, &str)
    requires within { len ≤ length text.now }
    requires end { len < length text.now → slice_index text.now len ≡ SPACE }
    ensures before { result.0.now ≡ take len text.now }
    ensures after { result.1.now ≡ drop (len + 1) text.now }
{
    let (before, rest) = text.split_at(len);
    if rest.is_empty() {
        (before, rest)
    } else {
        (before, after_byte(rest))
    }
}

/// The text before the first space, and the text after that space. If there is no space, the first text is the whole text, and the second
/// is empty.
pub fn cut_at_space(text: &str) -> (&str, &str)
    ensures before { result.0.now ≡ before_first is_space text.now }
    ensures after { result.1.now ≡ after_first is_space text.now }
{
    cut_at(text, plain_len_of(text.as_bytes()))
}

/// Whether a word is the verb `verb`. The function is inlined, so that words of different lengths are compared without a call.
#[inline(always)]
pub(crate) fn is_verb(word: &str, verb: &str) -> bool
    ensures { result ≡ bytes_eq word.now verb.now }
{
    word.len() == verb.len() && word == verb
}

/// Whether a text is one word.
pub fn is_word(text: &str) -> bool
    ensures { result ≡ is_one_word text.now }
{
    let bytes = text.as_bytes();
    !bytes.is_empty() && (bytes[0] != SPACE && word_len_of(bytes) == bytes.len())
}

/// A text without its first byte, which is ASCII.
pub fn after_byte(text: &str) -> &str
    requires some { 0 < length text.now }
    requires ascii { slice_index text.now 0 < 128 }
    ensures { result.now ≡ drop 1 text.now }
{
    &text[1..]
}

/// How many words of a line are looked at: one more than the longest form has. A line that has so many words fits no form. A `load` line is
/// cut into words only to explain why it is bad.
pub const MOST_WORDS: usize = 6;

/// The first words of a line, at most `MOST_WORDS` of them.
pub fn words_of(line: &str) -> ArrayVec<&str, MOST_WORDS>
    ensures { map (λ w. w.now) result.items ≡ take MOST_WORDS (words line.now) }
{
    let mut found = ArrayVec::new();
    let mut rest = line;
    'words: while !rest.is_empty() && !found.is_full() {
        if rest.as_bytes()[0] == SPACE {
            rest = after_byte(rest);
        } else {
            let (word, more) = first_word(rest);
            found.push(word);
            rest = more;
        }
    }
    found
}
