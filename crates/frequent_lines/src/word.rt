//! Words.
use std::marker::Model;

/// A word of a line, borrowed from the line. Contracts see a `Word` as the list of its bytes.
#[derive(Drop)]
pub struct Word<'a> {
    text: &'a str,
}

impl<'a> Model for Word<'a> {
    ghost use Rattle.std.specs.Prelude.{List, ℕ};

    ghost Value = { List ℕ };

    ghost view = { λ w. w.text.now };
}

impl<'a> Word<'a> {
    ghost use Rattle.std.specs.Prelude.{◌≡◌};

    /// The text as a word.
    pub(crate) fn new(text: &'a str) -> Self
        ensures { result ≡ text.now }
    {
        Word { text }
    }

    /// The word, as a `&str`.
    pub fn as_str(&self) -> &'a str
        ensures { result.now ≡ self.now }
    {
        self.text
    }
}
