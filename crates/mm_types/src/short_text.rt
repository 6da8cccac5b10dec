//! Short texts, which are stored inline, without an allocation.
ghost use Rattle.std.specs.Prelude.{◌≡◌, IfSome, is_some, length, nat_le};

use std::marker::Model;
use std::str;

/// The greatest length of a short text, in bytes.
const SHORT: usize = 22;

/// A text of at most 22 bytes of UTF-8. The field `len` is a single byte, since a longer field would be aligned, and a short text with the
/// tag of the enum `Layout` would take more than 24 bytes.
#[derive(Drop)]
pub(crate) struct ShortText {
    bytes: [u8; SHORT],
    len: u8,
}

impl Model for ShortText {
    ghost use Rattle.std.specs.Prelude.{ℕ, List, IsUtf8, take, ◌≤◌};

    ghost Value = { List ℕ };

    ghost view = { λ s. take s.len s.bytes };

    ghost invariant = { λ s. (s.len ≤ 22) × ∥ IsUtf8 (take s.len s.bytes) ∥₁ };
}

impl ShortText {
    /// A copy of a text; `None` if the text is longer than 22 bytes.
    #[inline]
    pub fn from_str(text: &str) -> Option<Self>
        ensures fits { is_some result ≡ nat_le (length text.now) 22 }
        ensures text { IfSome result (λ s. s ≡ text.now) }
    {
        let len = text.len();
        if len > SHORT {
            return None;
        }
        let mut bytes = [0; SHORT];
        bytes[..len].copy_from_slice(text.as_bytes());
        Some(ShortText {
            bytes,
            len: len as u8,
        })
    }

    /// The text, as a `&str`.
    #[inline]
    pub fn as_str(&self) -> &str
        ensures { result.now ≡ self.now }
    {
        unsafe { str::from_utf8_unchecked(&self.bytes[..self.len as usize]) }
    }

    /// A copy of the text.
    #[inline]
    pub fn copied(&self) -> Self
        ensures { result ≡ self.now }
    {
        ShortText {
            bytes: self.bytes,
            len: self.len,
        }
    }
}
