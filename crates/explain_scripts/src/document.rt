//! What to fix in the document of a resource.
use crate::content::{explain_bounds, explain_values};
use crate::linked::{Link, explain_crosses, explain_ends, explain_references, links_of};
use crate::parts::{Entry, Part, entries_of, parts_of};
use crate::repeats::explain_repeats;
use crate::shape::{Names, explain_depth, explain_names, explain_objects, explain_top};
use explain::{Shown, front_of, offset_of};
use mm_meta::Meta;
use mm_types::DocFault;
use serde_json::{Error, Value};
use std::alloc::{AllocError, Global};

/// The greatest number of bytes that are shown of a document that is no JSON.
const SHOWN_BYTES: usize = 20;

/// A document that is refused.
#[derive(Drop)]
pub struct RefusedDocument<'d> {
    /// The text with which each line of the explanation begins.
    pub prefix: &'d str,
    /// The URI of the document's resource.
    pub uri: &'d str,
    /// The text of the document.
    pub text: &'d str,
    pub cause: DocFault,
}

/// A text from the byte `start` on, cut after at most 20 bytes; empty if no character of the text begins at that byte.
fn shown_at(text: &str, start: usize) -> &str {
    front_of(text.get(start..).unwrap_or(""), SHOWN_BYTES)
}

/// Explains why the text of a document is no JSON: it begins with a byte order mark, ends within the JSON, or is no JSON from some byte on.
fn explain_syntax(
    out: &mut String,
    refused: &RefusedDocument<'_>,
    error: Error,
) -> Result<(), AllocError> {
    if error.is_memory() {
        return Err(AllocError);
    }
    let prefix = refused.prefix;
    if refused.text.starts_with('\u{feff}') {
        return writeln!(
            out,
            "{prefix}: the document begins with a byte order mark; take it out"
        );
    }
    if error.is_eof() {
        return writeln!(out, "{prefix}: the document ends within the JSON");
    }
    let offset = offset_of(refused.text.as_bytes(), error.line(), error.column());
    let byte = offset.saturating_add(1);
    let shown = shown_at(refused.text, offset);
    writeln!(
        out,
        "{prefix}: from byte {byte} on the document is no JSON: {shown:?}"
    )
}

/// Explains what is wrong with the values of the objects of a document, or with the targets of their references.
fn explain_content(
    alloc: Global,
    out: &mut String,
    meta: &Meta,
    cause: DocFault,
    parts: &[Part<'_>],
    entries: &[Entry<'_>],
    links: &[Link<'_>],
) -> Result<(), AllocError> {
    match cause {
        DocFault::Value => explain_values(out, meta, entries),
        DocFault::Bound => explain_bounds(out, meta, entries),
        DocFault::Duplicate => explain_repeats(alloc, out, meta, entries, links),
        DocFault::Reference => explain_references(out, meta, parts, links),
        DocFault::OneSided => explain_ends(alloc, out, meta, parts, links),
        DocFault::Cross => explain_crosses(out, meta, links),
        _ => Ok(()),
    }
}

/// Explains what is wrong with the objects of a document.
fn explain_parts(
    alloc: Global,
    out: &mut String,
    meta: &Meta,
    refused: &RefusedDocument<'_>,
    parts: &[Part<'_>],
) -> Result<(), AllocError> {
    match refused.cause {
        DocFault::Layout => explain_objects(alloc, out, parts),
        DocFault::Class => explain_names(alloc, out, meta, parts, Names::Classes),
        DocFault::Feature => explain_names(alloc, out, meta, parts, Names::Features),
        DocFault::Depth => explain_depth(out, parts),
        cause => {
            let entries = entries_of(alloc, meta, parts)?;
            let entries = entries.as_slice();
            let links = links_of(alloc, meta, refused.uri, parts, entries)?;
            explain_content(alloc, out, meta, cause, parts, entries, links.as_slice())
        }
    }
}

/// Explains what is wrong with a document that is JSON.
fn explain_json(
    alloc: Global,
    out: &mut String,
    meta: &Meta,
    refused: &RefusedDocument<'_>,
    json: &Value,
) -> Result<(), AllocError> {
    let prefix = refused.prefix;
    if refused.cause == DocFault::Layout {
        explain_top(alloc, out, prefix, json)?;
    }
    if refused.cause == DocFault::Format
        && let Some(format) = json.get("format")
    {
        return writeln!(
            out,
            "{prefix}: \"format\" is {}, and has to be 2, or 1",
            Shown(format)
        );
    }
    match json.get("roots") {
        Some(Value::Array(roots)) => {
            let parts = parts_of(alloc, meta, prefix, roots.as_slice())?;
            explain_parts(alloc, out, meta, refused, parts.as_slice())
        }
        _ => Ok(()),
    }
}

/// Explains why a document is refused. Adds a line for each place of the document at which the cause of the refusal applies; for `Syntax`
/// and for `Depth` only one line. The objects below an object that has a wrong layout or an unknown class are not looked at. For `Bound`,
/// no line says that a document has too many roots. For `Layout`, no further object is looked at once `out` has more than 4,096 bytes.
/// Fails only if memory is refused.
pub fn explain_document(
    alloc: Global,
    out: &mut String,
    meta: &Meta,
    refused: &RefusedDocument<'_>,
) -> Result<(), AllocError> {
    match Value::from_str(alloc, refused.text) {
        Ok(json) => explain_json(alloc, out, meta, refused, &json),
        Err(error) => explain_syntax(out, refused, error),
    }
}
