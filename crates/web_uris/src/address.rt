//! Addresses: a URI, `#`, and a fragment.
ghost use Rattle.std.specs.Prelude.{◌≡◌, IfOk, MatchOption, false, string_bytes, true};
ghost use Rattle.web_uris.specs.Addresses.{address_text, fragment_part, has_mark as has_a_mark, uri_part};

use std::alloc::{AllocError, Global};

/// Whether a text has a `#`. Takes no memory.
pub(crate) fn has_mark(text: &str) -> bool
    ensures { result ≡ has_a_mark text.now }
{
    text.as_bytes().iter().any(|byte| *byte == b'#')
}

/// The text before the first `#` and the text after it; `None` if there is no `#`. Takes no memory.
pub fn split_address(text: &str) -> Option<(&str, &str)>
    ensures { MatchOption result (has_a_mark text.now ≡ false)
        (λ parts. (has_a_mark text.now ≡ true) × (parts.0.now ≡ uri_part text.now) × (parts.1.now ≡ fragment_part text.now)) }
{
    text.split_once('#')
}

/// The address of a URI and a fragment: the URI, `#`, and the fragment. Fails only if memory is refused.
pub fn address_of(alloc: Global, uri: &str, fragment: &str) -> Result<String, AllocError>
    ensures { IfOk result (λ t. string_bytes t ≡ address_text uri.now fragment.now) }
{
    let mut text = String::with_capacity(
        alloc,
        uri.len().saturating_add(fragment.len()).saturating_add(1),
    )?;
    text.push_str(uri)?;
    text.push_str("#")?;
    text.push_str(fragment)?;
    Ok(text)
}
