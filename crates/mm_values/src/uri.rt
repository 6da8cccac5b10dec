//! A URI in a set.
ghost use Rattle.std.specs.Prelude.{◌≡◌};
ghost use Rattle.std.specs.Cmp.{on_equiv, on_per, partial_equiv_from_equiv};
ghost use Rattle.std.specs.Cmp.Lexicographic.{bytes_decides, nat_list_eq_equiv};
ghost use Rattle.std.specs.Cmp.Rules.{hashing};
ghost use Rattle.std.specs.Hash as fed;
ghost use Rattle.std.specs.Str.{bytes_eq};
ghost use Rattle.std.proofs.Common.{ap, rules};

use indexmap::Equivalent;
use mm_types::Text;
use std::hash::{Hash, Hasher};

/// A URI. A set of URIs finds a URI by its text, given as a `&str`.
#[derive(Drop)]
pub(crate) struct Uri {
    text: Text,
}

impl Uri {
    /// The URI with the text `text`, which is moved and not copied.
    pub fn new(text: Text) -> Self
        ensures { result.text ≡ text }
    {
        Uri { text }
    }

    /// The text.
    pub fn as_str(&self) -> &str
        ensures { result.now ≡ self.now.text }
    {
        self.text.as_str()
    }
}

impl PartialEq for Uri {
    ghost eq = { λ a b. bytes_eq a.text b.text };

    ghost laws = { on_per (λ u. u.text) (partial_equiv_from_equiv nat_list_eq_equiv) };

    fn eq(&self, other: &Uri) -> bool {
        self.as_str() == other.as_str()
    }
}

impl Eq for Uri {
    ghost laws = { on_equiv (λ u. u.text) nat_list_eq_equiv };
}

impl Hash for Uri {
    ghost hash_input = { λ u. fed.str u.text };

    ghost respects_eq = { Prim.search (hashing, rules) };

    fn hash<H: Hasher>(&self, state: &mut H) {
        self.as_str().hash(state);
    }
}

impl Equivalent<Uri> for &str {
    ghost equivalent = { λ q k. bytes_eq q.now k.text };

    ghost respects_hash = { λ q k h. ap fed.str ((bytes_decides q.now k.text).0 h) };

    ghost respects_eq = { λ q x y. nat_list_eq_equiv.congr q.now x.text y.text };

    fn equivalent(&self, key: &Uri) -> bool {
        *self == key.as_str()
    }
}
