//! Names.
ghost use Rattle.std.specs.Prelude.{◌≡◌, IfSome, not, option_map, position};
ghost use Rattle.std.specs.List.{after_first, before_first, prefix_len};
ghost use Rattle.mm_types.specs.Names.{is_name_byte as is_a_name_byte};
ghost use Rattle.script_lines.specs.Values.{name_in};
ghost use Rattle.script_lines.specs.Words.{is_space};

use crate::grammar::SPACE;
use crate::words::cut_at;
use mm_types::names::is_name;
use std::marker::Model;

/// A name, borrowed from the line that it is in. Contracts see it as the list of its bytes.
#[derive(Drop)]
pub struct Name<'a> {
    text: &'a str,
}

impl<'a> Model for Name<'a> {
    ghost use Rattle.std.specs.Prelude.{List, ℕ};

    ghost Value = { List ℕ };

    ghost view = { λ n. n.text.now };
}

/// Whether a byte may be in a name.
fn is_name_byte(byte: u8) -> bool
    ensures { result ≡ is_a_name_byte byte }
{
    byte.is_ascii_alphabetic() || (byte.is_ascii_digit() || byte == b'_')
}

fn first_other(bytes: &[u8]) -> Option<usize>
    ensures { result ≡ position (λ b. not (is_a_name_byte b)) bytes.now }
{
    bytes.iter().position(|b| !is_name_byte(*b))
}

/// The length of the longest prefix whose bytes may all be in a name.
fn name_len_of(bytes: &[u8]) -> usize
    ensures { result ≡ prefix_len is_a_name_byte bytes.now }
{
    match first_other(bytes) {
        Some(n) => n,
        None => bytes.len(),
    }
}

impl<'a> Name<'a> {
    /// Reads a name from the bytes before the first space of a text. Returns the name, and the text after that space. If the text has no
    /// space, the name is read from the whole text, and the returned text is empty. `None` if the bytes that are read are no name.
    pub fn before_space(text: &'a str) -> Option<(Self, &'a str)>
        ensures name { option_map (λ p. p.0) result ≡ name_in (before_first is_space text.now) }
        ensures rest { IfSome result (λ p. p.1.now ≡ after_first is_space text.now) }
    {
        let bytes = text.as_bytes();
        let len = name_len_of(bytes);
        if len == 0 || bytes[0].is_ascii_digit() {
            return None;
        }
        if len < bytes.len() && bytes[len] != SPACE {
            return None;
        }
        let (name, rest) = cut_at(text, len);
        Some((Name { text: name }, rest))
    }

    /// The word as a name; `None` if the word is no name. A name begins with an ASCII letter or `_`, and all its further bytes are ASCII
    /// letters, digits or `_`.
    pub fn from_word(word: &'a str) -> Option<Self>
        ensures { result ≡ name_in word.now }
    {
        if is_name(word.as_bytes()) {
            Some(Name { text: word })
        } else {
            None
        }
    }

    /// The name, as a `&str`.
    pub fn as_str(&self) -> &'a str
        ensures { result.now ≡ self.now }
    {
        self.text
    }
}
