//! A reference is joined with a URI.
ghost use Rattle.std.specs.Prelude.{◌≡◌, IfOk, MatchResult, option_and_then, string_bytes};
ghost use Rattle.url.specs.Parser.{parse_url};
ghost use Rattle.web_uris.specs.Joined.{GivesText, IsWebUri, Joins, if_parsed, is_web as is_of_web, parts_of, reference_parts, web_text};
ghost use Rattle.web_uris.specs.declared.joining.UriFault.TheVariants.{Memory};

use crate::address::has_mark;
use std::alloc::Global;
use url::{ParseError, ParseResult, Url};

/// Why a reference and a base give no URI.
#[derive(Clone, Copy, Debug, PartialEq, Eq)]
pub enum UriFault {
    /// The reference gives no URI, neither by itself nor joined with the base. Or the URI that it gives has a fragment, or a scheme other
    /// than http and https.
    Bad,
    /// Memory was refused, or the URI would be longer than URIs can be.
    Memory,
}

/// The URL that a text gives without a base; `None` if the text is no URL. The only error is `Memory`.
fn own_url(alloc: Global, text: &str) -> Result<Option<Url>, UriFault>
    ensures { MatchResult result (λ u. u ≡ if_parsed (parse_url None text.now)) (λ e. e ≡ Memory) }
{
    match Url::parse(alloc, text) {
        Ok(url) => Ok(Some(url)),
        Err(ParseError::OutOfMemory | ParseError::Overflow) => Err(UriFault::Memory),
        Err(_) => Ok(None),
    }
}

/// The URL that a reference gives relative to a base URL; `None` if the reference gives none. The only error is `Memory`.
fn based_url(base: &Url, reference: &str) -> Result<Option<Url>, UriFault>
    ensures { MatchResult result (λ u. u ≡ if_parsed (parse_url (Some base.now) reference.now)) (λ e. e ≡ Memory) }
{
    match base.join(reference) {
        Ok(url) => Ok(Some(url)),
        Err(ParseError::OutOfMemory | ParseError::Overflow) => Err(UriFault::Memory),
        Err(_) => Ok(None),
    }
}

fn joined_url(alloc: Global, base: &str, reference: &str) -> Result<Option<Url>, UriFault>
    ensures { MatchResult result (λ u. u ≡ reference_parts base.now reference.now) (λ e. e ≡ Memory) }
{
    match own_url(alloc, base)? {
        Some(base) => based_url(&base, reference),
        None => Ok(None),
    }
}

fn meant_url(alloc: Global, base: &str, reference: &str) -> Result<Option<Url>, UriFault>
    ensures { MatchResult result (λ u. u ≡ parts_of base.now reference.now) (λ e. e ≡ Memory) }
{
    match own_url(alloc, reference)? {
        Some(url) => Ok(Some(url)),
        None => joined_url(alloc, base, reference),
    }
}

fn is_web(url: &Url) -> bool
    ensures { result ≡ is_of_web url.now }
{
    url.scheme() == "http" || url.scheme() == "https"
}

/// A copy of a URL's text. `Bad` if the URL's scheme is neither http nor https, or the URL has a fragment; `Memory` if memory is refused.
fn text_of(alloc: Global, url: &Url) -> Result<String, UriFault>
    ensures text { GivesText result (web_text url.now) }
    ensures web { IfOk result (λ t. IsWebUri (string_bytes t)) }
{
    if !is_web(url) || has_mark(url.as_str()) {
        return Err(UriFault::Bad);
    }
    String::from_str(alloc, url.as_str()).map_err(|_| UriFault::Memory)
}

/// The URI that a reference gives, as the crate `url` writes this URI: the reference itself if it is a URI, otherwise the reference joined
/// with a base.
///
/// `Bad` if neither the reference nor the joined reference is a URI, if the URI's scheme is neither http nor https, or if the URI has a
/// `#`. `Memory` if memory is refused, or the URI would be longer than URIs can be.
pub fn joined(alloc: Global, base: &str, reference: &str) -> Result<String, UriFault>
    ensures joins { Joins result base.now reference.now }
    ensures web { IfOk result (λ t. IsWebUri (string_bytes t)) }
{
    match meant_url(alloc, base, reference)? {
        Some(url) => text_of(alloc, &url),
        None => Err(UriFault::Bad),
    }
}
