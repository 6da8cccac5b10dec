//! What to fix in a metamodel that is refused.
use crate::conditions::explain_condition;
use crate::layout::explain_layout;
use crate::named::Named;
use crate::syntax::{NoJson, no_json_at};
use mm_load::load_meta;
use mm_types::{Condition, MetaFault, Place};
use serde_json::Value;
use std::alloc::{AllocError, Global};

/// If the bytes are no JSON, says from which line and column on they are no JSON. Otherwise explains what is wrong with the layout, and
/// which limits are exceeded.
fn explain_bytes(alloc: Global, out: &mut String, bytes: &[u8]) -> Result<(), AllocError> {
    match Value::from_slice(alloc, bytes) {
        Ok(json) => explain_layout(alloc, out, &json),
        Err(error) if error.is_memory() => Err(AllocError),
        Err(error) => {
            let line = error.line();
            let column = error.column();
            let what = if error.is_eof() {
                NoJson::EndsEarly
            } else {
                no_json_at(bytes, line, column)
            };
            writeln!(out, "line {line}, column {column}: {what}")
        }
    }
}

/// Explains what is wrong at a place at which a condition applies. Adds nothing if `load_meta` returns a fault, `Memory` included.
fn explain_place(
    alloc: Global,
    out: &mut String,
    bytes: &[u8],
    condition: Condition,
    place: Place,
) -> Result<(), AllocError> {
    match load_meta(alloc, bytes) {
        Ok(raw) => explain_condition(alloc, out, condition, Named { raw: &raw, place }),
        Err(_) => Ok(()),
    }
}

/// Explains what to fix in a document for which a fault was returned. The explanation is a text of lines, each ended by a newline.
///
/// For `Syntax` the text is one line. It names the line and the column, both counted from 1, from which on the bytes are no JSON. If the
/// bytes end too early, the column is the number of bytes of the last line.
///
/// For `Layout` and `Limit` the text has a line for each key and each value that is wrong; once the text has more than 4,096 bytes, no
/// further object is looked at. These lines name an object by its positions in arrays, as `classes[3].features[2]`, and by the names that
/// can be read.
///
/// For an ill-formed metamodel the lines have the names of enumerations, classes and features; the text is empty if memory is refused while
/// the document is read again. For `Memory` the text is empty. Fails only if memory is refused.
pub fn explain_meta(alloc: Global, bytes: &[u8], fault: MetaFault) -> Result<String, AllocError> {
    let mut out = String::new(alloc);
    match fault {
        MetaFault::IllFormed(condition, place) => {
            explain_place(alloc, &mut out, bytes, condition, place)?;
        }
        MetaFault::Memory => {}
        MetaFault::Syntax | MetaFault::Layout | MetaFault::Limit => {
            explain_bytes(alloc, &mut out, bytes)?;
        }
    }
    Ok(out)
}
