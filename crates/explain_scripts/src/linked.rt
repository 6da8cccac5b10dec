//! What is wrong with references: texts that lead to no object or to an object of a wrong class, references with an opposite that lead to a
//! different resource, and links that are written at only one of their ends.
use crate::led::{Fragments, Led, fragments_of, led_by};
use crate::parts::{At, Entry, Part};
use crate::written::{class_of, conforms_to, values_of};
use mm_meta::Meta;
use mm_types::{ClassNo, FeatureNo, Kind};
use serde_json::Value;
use std::alloc::{AllocError, Global};
use std::collections::BTreeSet;

/// A text that a document has as a value of a reference that is no containment: its place, the number of the part and the feature of the
/// part that have the value, and what the text leads to.
#[derive(Drop)]
pub(crate) struct Link<'e> {
    pub(crate) at: At<'e>,
    pub(crate) text: &'e str,
    pub(crate) part: usize,
    pub(crate) feature: FeatureNo,
    pub(crate) led: Led,
}

impl Link<'_> {
    /// The number of the part to which the link leads, if the link leads to a part of the document; otherwise `None`.
    fn named(&self) -> Option<usize> {
        match &self.led {
            Led::Here(number) => Some(*number),
            _ => None,
        }
    }
}

/// The data with which the links of a document are found.
#[derive(Drop)]
struct LinkContext<'d, 'p> {
    alloc: Global,
    meta: &'d Meta,
    uri: &'d str,
    fragments: &'d Fragments<'p>,
}

fn add_links<'e>(
    source: &LinkContext<'_, '_>,
    links: &mut Vec<Link<'e>>,
    entry: &'e Entry<'_>,
    values: &'e [Value],
) -> Result<(), AllocError> {
    for (i, json) in values.iter().enumerate() {
        if let Some(text) = json.as_str() {
            let led = led_by(source.alloc, source.uri, source.fragments, text)?;
            links.push(Link {
                at: entry.at(i),
                text,
                part: entry.part,
                feature: entry.feature,
                led,
            })?;
        }
    }
    Ok(())
}

/// The class of the objects to which a reference that is no containment may lead; `None` for any other feature.
fn target_of(meta: &Meta, feature: FeatureNo) -> Option<ClassNo> {
    match &meta.feature(feature)?.kind {
        Kind::Reference {
            target,
            containment: false,
            ..
        } => Some(*target),
        _ => None,
    }
}

fn links_in<'e>(
    source: &LinkContext<'_, '_>,
    entries: &'e [Entry<'_>],
) -> Result<Vec<Link<'e>>, AllocError> {
    let mut links = Vec::new(source.alloc);
    for entry in entries {
        if target_of(source.meta, entry.feature).is_some() {
            let values = values_of(source.meta, entry.feature, entry.content);
            add_links(source, &mut links, entry, values)?;
        }
    }
    Ok(links)
}

/// The `Link`s of a document: the texts among the values of references without containment. `uri` is the URI of the document's resource,
/// `parts` are the parts of the document, and `entries` are the contents of the parts' features. Fails only if memory is refused.
pub(crate) fn links_of<'e>(
    alloc: Global,
    meta: &Meta,
    uri: &str,
    parts: &[Part<'_>],
    entries: &'e [Entry<'_>],
) -> Result<Vec<Link<'e>>, AllocError> {
    let fragments = fragments_of(alloc, parts)?;
    let source = LinkContext {
        alloc,
        meta,
        uri,
        fragments: &fragments,
    };
    links_in(&source, entries)
}

/// Explains that the text of a reference is badly written, leads to no object of the document, or leads to an object of a wrong class. Adds
/// nothing for any other text.
fn explain_lost(
    out: &mut String,
    meta: &Meta,
    parts: &[Part<'_>],
    link: &Link<'_>,
) -> Result<(), AllocError> {
    let at = link.at;
    let text = link.text;
    let number = match &link.led {
        Led::Elsewhere(_) => return Ok(()),
        Led::Bad => return writeln!(
            out,
            "{at}: {text:?} is no fragment and no URI with a fragment"
        ),
        Led::Nowhere => return writeln!(out, "{at}: {text:?} leads to no object of the document"),
        Led::Here(number) => *number,
    };
    match (parts.get(number), target_of(meta, link.feature)) {
        (Some(part), Some(target)) if !conforms_to(meta, target, part.json) => {
            explain_class(out, meta, link, part.json, target)
        }
        _ => Ok(()),
    }
}

fn explain_class(
    out: &mut String,
    meta: &Meta,
    link: &Link<'_>,
    json: &Value,
    target: ClassNo,
) -> Result<(), AllocError> {
    let found = match class_of(meta, json) {
        Some(class) => meta.class_name(class),
        None => "",
    };
    let wanted = meta.class_name(target);
    writeln!(
        out,
        "{}: {:?} leads to a {found}, and a {wanted} is wanted",
        link.at, link.text
    )
}

/// Explains which references have texts that are badly written, lead to no object of the document, or lead to an object of a wrong class.
pub(crate) fn explain_references(
    out: &mut String,
    meta: &Meta,
    parts: &[Part<'_>],
    links: &[Link<'_>],
) -> Result<(), AllocError> {
    for link in links {
        explain_lost(out, meta, parts, link)?;
    }
    Ok(())
}

/// Explains which references have an opposite and lead to a different resource.
pub(crate) fn explain_crosses(
    out: &mut String,
    meta: &Meta,
    links: &[Link<'_>],
) -> Result<(), AllocError> {
    for link in links {
        if matches!(&link.led, Led::Elsewhere(_)) && meta.opposite(link.feature).is_some() {
            let at = link.at;
            let text = link.text;
            writeln!(
                out,
                "{at}: {text:?} leads to another resource, and has an opposite; that takes \"format\" 2"
            )?;
        }
    }
    Ok(())
}

/// The number of a part, a feature under which the part names an object of the document, and the number of that object's part.
type Naming = (usize, u32, usize);

fn namings_of(alloc: Global, links: &[Link<'_>]) -> Result<BTreeSet<Naming>, AllocError> {
    let mut namings = BTreeSet::new(alloc);
    for link in links {
        if let Some(named) = link.named() {
            namings.insert((link.part, link.feature.0, named))?;
        }
    }
    Ok(namings)
}

fn explain_one_sided(
    out: &mut String,
    meta: &Meta,
    parts: &[Part<'_>],
    namings: &BTreeSet<Naming>,
    link: &Link<'_>,
) -> Result<(), AllocError> {
    let (Some(named), Some(opposite)) = (link.named(), meta.opposite(link.feature)) else {
        return Ok(());
    };
    if namings.contains(&(named, opposite.0, link.part)) {
        return Ok(());
    }
    let back = match parts.get(link.part) {
        Some(part) => part.fragment.as_str(),
        None => "",
    };
    let name = meta.feature_name(opposite);
    writeln!(
        out,
        "{}: {:?} does not name it back: its {name} lacks {back:?}",
        link.at, link.text
    )
}

/// Explains which links are written at only one of their ends: a reference has an opposite and leads to an object of the document, and this
/// object does not name the referring object under the opposite.
pub(crate) fn explain_ends(
    alloc: Global,
    out: &mut String,
    meta: &Meta,
    parts: &[Part<'_>],
    links: &[Link<'_>],
) -> Result<(), AllocError> {
    let namings = namings_of(alloc, links)?;
    for link in links {
        explain_one_sided(out, meta, parts, &namings, link)?;
    }
    Ok(())
}
