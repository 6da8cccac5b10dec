//! What the text of a reference leads to.
ghost use Rattle.std.specs.Prelude.{◌≡◌, IfOk, IfSome, Some, option_map, string_bytes};
ghost use Rattle.web_uris.specs.Paths.{parse as parse_meant};
ghost use Rattle.resource_docs.specs.Texts.{IsProxyReferent, IsWebElsewhere, base_of, target as target_meant, target_at, target_in as in_target, uri_meant as uri_of};

use mm_types::Text;
use std::alloc::{AllocError, Global};
use web_uris::{Path, UriFault, address_of, joined, parse, split_address};

/// What the text of a reference leads to. There need not be an object at the path or the address.
#[derive(Debug, Drop)]
pub enum Referent {
    /// An object of the document itself, by its path.
    Here(Path),
    /// An object of a different resource, by its address.
    Elsewhere(Text),
}

/// The URI that `part`, the text before a `#`, stands for: if `part` is empty, `uri`, which is the URI of the document's resource;
/// otherwise `part` joined with `uri`. `None` if joining gives no URI.
fn uri_meant(alloc: Global, uri: &str, part: &str) -> Result<Option<String>, AllocError>
    ensures value { IfOk result (λ u. option_map string_bytes u ≡ uri_of (base_of uri.now) part.now) }
    ensures web { IfOk result (λ u. IfSome u (λ t. IsWebElsewhere uri.now (string_bytes t))) }
{
    if part.is_empty() {
        return Ok(Some(String::from_str(alloc, uri)?));
    }
    match joined(alloc, uri, part) {
        Ok(joined) => Ok(Some(joined)),
        Err(UriFault::Bad) => Ok(None),
        Err(UriFault::Memory) => Err(AllocError),
    }
}

/// The target of the reference with the URI `meant` and the fragment `rest`, which is read as `path`: an object of the document itself, if
/// `meant` is `uri`, the URI of the document's resource; otherwise an object of a different resource.
fn target_in(
    alloc: Global,
    uri: &str,
    meant: &str,
    rest: &str,
    path: Path,
) -> Result<Referent, AllocError>
    ensures value { IfOk result (λ t. t ≡ in_target (base_of uri.now) rest.now meant.now path) }
    ensures proxy { IsWebElsewhere uri.now meant.now → parse_meant rest.now ≡ Some path → IfOk result IsProxyReferent }
{
    if meant == uri {
        return Ok(Referent::Here(path));
    }
    let address = address_of(alloc, meant, rest)?;
    let text = Text::from_string(alloc, address)?;
    Ok(Referent::Elsewhere(text))
}

/// What a reference with a `#` leads to. `part` is the text before the first `#`, and `rest` the text after it. `None` if `rest` is no
/// fragment, or if `part` is not empty and gives no URI when it is joined with `uri`.
fn address_target(
    alloc: Global,
    uri: &str,
    part: &str,
    rest: &str,
) -> Result<Option<Referent>, AllocError>
    ensures value { IfOk result (λ t. t ≡ target_at (base_of uri.now) part.now rest.now) }
    ensures proxy { IfOk result (λ t. IfSome t IsProxyReferent) }
{
    let Some(path) = parse(alloc, rest)? else {
        return Ok(None);
    };
    match uri_meant(alloc, uri, part)? {
        Some(meant) => Ok(Some(target_in(alloc, uri, meant.as_str(), rest, path)?)),
        None => Ok(None),
    }
}

/// What the text of a reference leads to, in the document of the resource with the URI `uri`. `None` if the text is neither a fragment,
/// with or without a `#` before it, nor a URI or relative reference with a `#` and a fragment. Also `None` if joining the URI or relative
/// reference with `uri` gives no URI. Fails only if memory is refused, or if the joined URI would be longer than URIs can be.
pub(crate) fn target_of(
    alloc: Global,
    uri: &str,
    text: &str,
) -> Result<Option<Referent>, AllocError>
    ensures value { IfOk result (λ t. t ≡ target_meant (base_of uri.now) text.now) }
    ensures proxy { IfOk result (λ t. IfSome t IsProxyReferent) }
{
    match split_address(text) {
        Some((part, rest)) => address_target(alloc, uri, part, rest),
        None => match parse(alloc, text)? {
            Some(path) => Ok(Some(Referent::Here(path))),
            None => Ok(None),
        },
    }
}
