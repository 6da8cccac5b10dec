//! Laws of the definitions, each the contract of a function that does nothing.
ghost use Rattle.std.specs.Prelude.{◌≡◌, ℕ, List, Some, false};
ghost use Rattle.url.specs.Parts.{Parts, IsValid, kind_of, serialize};
ghost use Rattle.url.specs.declared.scheme.SchemeType.TheVariants.{SpecialNotFile};
ghost use Rattle.web_uris.specs.Addresses.{address_text, fragment_part, has_mark, uri_part};
ghost use Rattle.web_uris.specs.Joined.{IsWebUri, joined_uri, web_text};
ghost use Rattle.web_uris.specs.Paths.{Writes, parse};
ghost use Rattle.web_uris.specs.declared.path.Path.{Path};

/// Joining a normalised URI with any base gives the URI itself. A URI is normalised if its scheme is http or https, it has no fragment, and
/// it is written as the crate `url` writes it (`IsWebUri`).
pub fn web_uris_join_to_themselves()
    ensures { (base uri : List ℕ) → IsWebUri uri → joined_uri base uri ≡ Some uri }
{}

/// The text of a valid URL of http or https without a fragment is normalised: the crate `url` reads the text as a URL, and writes this URL
/// as the same text.
pub fn urls_of_the_web_are_web_uris()
    ensures { (url : Parts) → IsValid url → kind_of url ≡ SpecialNotFile → web_text url ≡ Some (serialize url) → IsWebUri (serialize url) }
{}

/// A fragment is read as the grammar says: reading a text gives a path exactly if the text is a text of this path (`Writes`).
pub fn fragments_are_read_as_written()
    ensures finds { (text : List ℕ) (path : Path) → Writes text path → parse text ≡ Some path }
    ensures only { (text : List ℕ) (path : Path) → parse text ≡ Some path → Writes text path }
{}

/// If the URI of an address has no `#`, the URI and the fragment can be read back from the address.
pub fn addresses_are_their_parts()
    ensures uri { (uri fragment : List ℕ) → has_mark uri ≡ false → uri_part (address_text uri fragment) ≡ uri }
    ensures fragment { (uri fragment : List ℕ) → has_mark uri ≡ false → fragment_part (address_text uri fragment) ≡ fragment }
{}
