//! The objects of a document and the contents of their features, each with its place.
use crate::written::{content_at, known, values_of};
use mm_meta::Meta;
use mm_types::{ClassNo, FeatureNo};
use serde_json::{Map, Value};
use std::alloc::{AllocError, Global};
use std::collections::VecDeque;
use std::fmt;

/// A part of a document: the JSON of an object, or of a value that should be an object, and the place of this JSON.
#[derive(Drop)]
pub(crate) struct Part<'v> {
    /// The path of the object in the JSON, as `line 7: roots[0].features.books[1]`.
    pub(crate) path: String,
    /// The fragment of the object, with the position of its root, as `/0/@books.1`.
    pub(crate) fragment: String,
    pub(crate) level: usize,
    pub(crate) json: &'v Value,
}

/// The content of a feature of a part.
#[derive(Drop)]
pub(crate) struct Entry<'v> {
    /// The path of the content in the JSON, as `line 7: roots[0].features.books`.
    pub(crate) path: String,
    /// The number of the part.
    pub(crate) part: usize,
    pub(crate) feature: FeatureNo,
    pub(crate) content: &'v Value,
    /// Whether the feature is single, so that its content has to be one value and not an array of values.
    pub(crate) is_single: bool,
}

/// The place of a value of a feature's content. It is printed as the path of the content, followed by the index of the value if the feature
/// is many-valued.
#[derive(Clone, Copy)]
pub(crate) struct At<'e> {
    pub(crate) path: &'e str,
    pub(crate) is_single: bool,
    pub(crate) index: usize,
}

impl fmt::Display for At<'_> {
    fn fmt<W: fmt::Write>(&self, f: &mut fmt::Formatter<W>) -> fmt::Result {
        let path = self.path;
        let index = self.index;
        if self.is_single {
            write!(f, "{path}")
        } else {
            write!(f, "{path}[{index}]")
        }
    }
}

impl Entry<'_> {
    /// The place of the value at an index of the content.
    pub(crate) fn at(&self, index: usize) -> At<'_> {
        At {
            path: self.path.as_str(),
            is_single: self.is_single,
            index,
        }
    }
}

/// Adds to `entries` the content that the part with the number `number` has for a feature, if it has one (`content_at`).
fn add_entry<'v>(
    alloc: Global,
    meta: &Meta,
    entries: &mut Vec<Entry<'v>>,
    number: usize,
    path: &str,
    members: &'v Map<String, Value>,
    feature: FeatureNo,
) -> Result<(), AllocError> {
    let Some(content) = content_at(meta, members, feature) else {
        return Ok(());
    };
    let name = meta.feature_name(feature);
    entries.push(Entry {
        path: format!(in alloc; "{path}.features.{name}")?,
        part: number,
        feature,
        content,
        is_single: meta.is_single(feature),
    })?;
    Ok(())
}

fn add_entries<'v>(
    alloc: Global,
    meta: &Meta,
    entries: &mut Vec<Entry<'v>>,
    number: usize,
    part: &Part<'v>,
) -> Result<(), AllocError> {
    let Some((class, members)) = known(meta, part.json) else {
        return Ok(());
    };
    for feature in meta.features(class).unwrap_or(&[]) {
        add_entry(
            alloc,
            meta,
            entries,
            number,
            part.path.as_str(),
            members,
            *feature,
        )?;
    }
    Ok(())
}

/// The contents of the features of some parts. A part whose class is not known (`known`) has no entry.
pub(crate) fn entries_of<'v>(
    alloc: Global,
    meta: &Meta,
    parts: &[Part<'v>],
) -> Result<Vec<Entry<'v>>, AllocError> {
    let mut entries = Vec::new(alloc);
    for (number, part) in parts.iter().enumerate() {
        add_entries(alloc, meta, &mut entries, number, part)?;
    }
    Ok(entries)
}

/// Adds to `queue` the parts of `values`, which are the values of the containment `name` of `part`.
fn add_below<'v>(
    alloc: Global,
    queue: &mut VecDeque<Part<'v>>,
    part: &Part<'v>,
    name: &str,
    is_single: bool,
    values: &'v [Value],
) -> Result<(), AllocError> {
    let path = format!(in alloc; "{}.features.{name}", part.path.as_str())?;
    let above = part.fragment.as_str();
    for (index, json) in values.iter().enumerate() {
        let path = At {
            path: path.as_str(),
            is_single,
            index,
        }
        .to_string(alloc)?;
        let fragment = if is_single {
            format!(in alloc; "{above}/@{name}")?
        } else {
            format!(in alloc; "{above}/@{name}.{index}")?
        };
        let level = part.level.saturating_add(1);
        queue.push_back(Part {
            path,
            fragment,
            level,
            json,
        })?;
    }
    Ok(())
}

fn add_features<'v>(
    alloc: Global,
    meta: &Meta,
    queue: &mut VecDeque<Part<'v>>,
    part: &Part<'v>,
    class: ClassNo,
    members: &'v Map<String, Value>,
) -> Result<(), AllocError> {
    for feature in meta.features(class).unwrap_or(&[]) {
        if meta.is_containment(*feature)
            && let Some(content) = content_at(meta, members, *feature)
        {
            let name = meta.feature_name(*feature);
            let values = values_of(meta, *feature, content);
            add_below(alloc, queue, part, name, meta.is_single(*feature), values)?;
        }
    }
    Ok(())
}

fn roots_of<'v>(
    alloc: Global,
    prefix: &str,
    roots: &'v [Value],
) -> Result<VecDeque<Part<'v>>, AllocError> {
    let mut queue = VecDeque::new(alloc);
    for (i, json) in roots.iter().enumerate() {
        let path = format!(in alloc; "{prefix}: roots[{i}]")?;
        let fragment = format!(in alloc; "/{i}")?;
        queue.push_back(Part {
            path,
            fragment,
            level: 1,
            json,
        })?;
    }
    Ok(queue)
}

/// The parts of a document, level by level: one for each of `roots`, and one for each value of a containment. If the class of a part is not
/// known (`known`), the values of its containments are left out. Each path begins with `prefix`.
pub(crate) fn parts_of<'v>(
    alloc: Global,
    meta: &Meta,
    prefix: &str,
    roots: &'v [Value],
) -> Result<Vec<Part<'v>>, AllocError> {
    let mut queue = roots_of(alloc, prefix, roots)?;
    let mut parts = Vec::new(alloc);
    for _ in 0..u64::MAX {
        let Some(part) = queue.pop_front() else {
            return Ok(parts);
        };
        if let Some((class, members)) = known(meta, part.json) {
            add_features(alloc, meta, &mut queue, &part, class, members)?;
        }
        parts.push(part)?;
    }
    Ok(parts)
}
