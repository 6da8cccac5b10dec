//! What the text of a reference leads to.
use crate::parts::Part;
use std::alloc::{AllocError, Global};
use std::collections::BTreeMap;
use web_uris::{UriFault, address_of, joined, parse, split_address};

/// What the text of a reference leads to.
#[derive(Drop)]
pub(crate) enum Led {
    /// The text has no `#` and is no fragment; or the text after its first `#` is no fragment; or the text before its first `#` is not
    /// empty and, joined with the URI of the document's resource, gives no URI.
    Bad,
    /// The text leads into the document, but to no object.
    Nowhere,
    /// The text leads to the part that has this number.
    Here(usize),
    /// The text leads into another resource, to this address. The address begins with the whole URI of that resource, even if the text does
    /// not.
    Elsewhere(String),
}

/// The number of each part, by the fragment of the part.
pub(crate) type Fragments<'p> = BTreeMap<&'p str, usize>;

/// The number of each of the parts `parts`, by the fragment of the part.
pub(crate) fn fragments_of<'p>(
    alloc: Global,
    parts: &'p [Part<'_>],
) -> Result<Fragments<'p>, AllocError> {
    let mut fragments = BTreeMap::new(alloc);
    for (number, part) in parts.iter().enumerate() {
        fragments.insert(part.fragment.as_str(), number)?;
    }
    Ok(fragments)
}

/// What the text of a reference leads to; `None` if the text leads into the document itself. `part` is what the text has before its first
/// `#`, or empty if the text has no `#`. `fragment` is the fragment in the text. `uri` is the URI of the document's resource.
fn led_elsewhere(
    alloc: Global,
    uri: &str,
    part: &str,
    fragment: &str,
) -> Result<Option<Led>, AllocError> {
    if part.is_empty() {
        return Ok(None);
    }
    match joined(alloc, uri, part) {
        Ok(meant) if meant.as_str() == uri => Ok(None),
        Ok(meant) => Ok(Some(Led::Elsewhere(address_of(alloc, meant.as_str(), fragment)?))),
        Err(UriFault::Bad) => Ok(Some(Led::Bad)),
        Err(UriFault::Memory) => Err(AllocError),
    }
}

/// What `text` leads to, as the text of a reference in a document. `uri` is the URI of the document's resource, and `fragments` has the
/// numbers of the document's parts. Fails only if memory is refused.
pub(crate) fn led_by(
    alloc: Global,
    uri: &str,
    fragments: &Fragments<'_>,
    text: &str,
) -> Result<Led, AllocError> {
    let (part, fragment) = split_address(text).unwrap_or(("", text));
    let Some(path) = parse(alloc, fragment)? else {
        return Ok(Led::Bad);
    };
    if let Some(led) = led_elsewhere(alloc, uri, part, fragment)? {
        return Ok(led);
    }
    let fragment = path.text(alloc, false)?;
    match fragments.get(fragment.as_str()).copied() {
        Some(number) => Ok(Led::Here(number)),
        None => Ok(Led::Nowhere),
    }
}
