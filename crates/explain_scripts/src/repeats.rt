//! Values that a unique list repeats.
use crate::led::Led;
use crate::linked::Link;
use crate::parts::Entry;
use crate::written::values_of;
use mm_meta::Meta;
use mm_types::Kind;
use serde_json::Value;
use std::alloc::{AllocError, Global};
use std::collections::BTreeMap;

/// Explains which of `values`, the values of an attribute, are repeated. A repeated value is explained with the index of the repetition and
/// the index at which the value came last before.
fn explain_equal(
    alloc: Global,
    out: &mut String,
    entry: &Entry<'_>,
    values: &[Value],
) -> Result<(), AllocError> {
    let mut seen: BTreeMap<String, usize> = BTreeMap::new(alloc);
    for (i, json) in values.iter().enumerate() {
        if let Some(first) = seen.insert(json.to_string(alloc)?, i)? {
            let path = entry.path.as_str();
            writeln!(out, "{path}: [{first}] and [{i}] are the same value")?;
        }
    }
    Ok(())
}

/// The values of an entry whose feature is a unique attribute; none for any other entry.
fn unique_values<'v>(meta: &Meta, entry: &Entry<'v>) -> &'v [Value] {
    let is_attribute = match meta.feature(entry.feature) {
        Some(feature) => matches!(feature.kind, Kind::Attribute { .. }),
        None => false,
    };
    if is_attribute && meta.is_unique(entry.feature) {
        values_of(meta, entry.feature, entry.content)
    } else {
        &[]
    }
}

/// The part and the feature that have a link, and the target of the link. The first two numbers are those of the part and of the feature.
/// If the target is a part of the document, the third number is the part's number plus one, and the text is empty. Else the third number is
/// 0, and the text is the address of the target.
type LinkKey<'l> = (usize, u32, usize, &'l str);

fn target_of<'l>(link: &'l Link<'_>) -> Option<LinkKey<'l>> {
    match &link.led {
        Led::Here(named) => Some((link.part, link.feature.0, named.saturating_add(1), "")),
        Led::Elsewhere(address) => Some((link.part, link.feature.0, 0, address.as_str())),
        Led::Bad | Led::Nowhere => None,
    }
}

/// Explains which references of one list lead to the same object of the document, or to the same address in another resource.
fn explain_links(alloc: Global, out: &mut String, links: &[Link<'_>]) -> Result<(), AllocError> {
    let mut seen: BTreeMap<LinkKey<'_>, usize> = BTreeMap::new(alloc);
    for link in links {
        if let Some(target) = target_of(link)
            && let Some(first) = seen.insert(target, link.at.index)?
        {
            let at = link.at;
            writeln!(
                out,
                "{at}: {:?} is the object that [{first}] names too",
                link.text
            )?;
        }
    }
    Ok(())
}

/// Explains which values are repeated in a unique list: first the values of attributes, then the references.
pub(crate) fn explain_repeats(
    alloc: Global,
    out: &mut String,
    meta: &Meta,
    entries: &[Entry<'_>],
    links: &[Link<'_>],
) -> Result<(), AllocError> {
    for entry in entries {
        explain_equal(alloc, out, entry, unique_values(meta, entry))?;
    }
    explain_links(alloc, out, links)
}
