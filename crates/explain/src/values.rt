//! What is wrong with the value of a key.
use crate::fields::{ADVICE, Field, Sort, advice_in};
use crate::shown::Shown;
use mm_types::limits::NAME_BYTES;
use serde_json::Value;
use std::alloc::AllocError;

/// A value under a key of the object at a place.
#[derive(Clone, Copy)]
struct Keyed<'d> {
    place: &'d str,
    key: &'d str,
    json: &'d Value,
}

fn explain_other(out: &mut String, at: Keyed<'_>, wanted: &str) -> Result<(), AllocError> {
    let Keyed { place, key, json } = at;
    let shown = Shown(json);
    let advice = advice_in(&ADVICE, key).unwrap_or("");
    writeln!(
        out,
        "{place}: {key:?} is {shown}, and has to be {wanted}{advice}"
    )
}

/// The words for a text of at most `most` bytes; `most` is `NAME_BYTES` or `TEXT_BYTES`.
fn text_of(most: usize) -> &'static str {
    if most == NAME_BYTES {
        "a text of at most 255 bytes"
    } else {
        "a text of at most 65535 bytes"
    }
}

fn explain_text(out: &mut String, at: Keyed<'_>, most: usize) -> Result<(), AllocError> {
    match at.json.as_str() {
        Some(text) if text.len() <= most => Ok(()),
        _ => explain_other(out, at, text_of(most)),
    }
}

fn is_whole_number(json: &Value) -> bool {
    match json.as_i64() {
        Some(number) => i32::try_from(number).is_ok(),
        None => false,
    }
}

fn is_kind(json: &Value) -> bool {
    let kind = json.as_str();
    kind == Some("attribute") || kind == Some("reference")
}

fn explain_item(out: &mut String, at: Keyed<'_>, i: usize, item: &Value) -> Result<(), AllocError> {
    match item.as_str() {
        Some(text) if text.len() <= NAME_BYTES => Ok(()),
        _ => {
            let Keyed { place, key, .. } = at;
            let shown = Shown(item);
            let wanted = text_of(NAME_BYTES);
            let advice = advice_in(&ADVICE, key).unwrap_or("");
            writeln!(
                out,
                "{place}: {key}[{i}] is {shown}, and has to be {wanted}{advice}"
            )
        }
    }
}

fn explain_each(out: &mut String, at: Keyed<'_>, items: &[Value]) -> Result<(), AllocError> {
    for (i, item) in items.iter().enumerate() {
        explain_item(out, at, i, item)?;
    }
    Ok(())
}

fn explain_count(
    out: &mut String,
    at: Keyed<'_>,
    count: usize,
    most: usize,
) -> Result<(), AllocError> {
    let Keyed { place, key, .. } = at;
    if count > most {
        return writeln!(
            out,
            "{place}: {key:?} has {count} items, and at most {most} are accepted"
        );
    }
    if count == 0 && key == "literals" {
        return writeln!(out, "{place}: {key:?} is empty, and has to have a literal");
    }
    Ok(())
}

fn explain_texts(out: &mut String, at: Keyed<'_>, most: usize) -> Result<(), AllocError> {
    match at.json.as_array() {
        Some(items) => {
            explain_count(out, at, items.len(), most)?;
            explain_each(out, at, items.as_slice())
        }
        None => explain_other(out, at, "an array of names"),
    }
}

fn explain_objects(out: &mut String, at: Keyed<'_>, most: usize) -> Result<(), AllocError> {
    match at.json.as_array() {
        Some(items) => explain_count(out, at, items.len(), most),
        None => explain_other(out, at, "an array of objects"),
    }
}

/// Adds a line for each fault of the value of a key, and for each limit that the value exceeds.
pub(crate) fn explain_value(
    out: &mut String,
    place: &str,
    field: &Field,
    json: &Value,
) -> Result<(), AllocError> {
    let at = Keyed {
        place,
        key: field.key,
        json,
    };
    match field.sort {
        Sort::Text(most) => explain_text(out, at, most),
        Sort::Texts(most) => explain_texts(out, at, most),
        Sort::Objects(most) => explain_objects(out, at, most),
        Sort::Object if json.is_object() => Ok(()),
        Sort::Object => explain_other(out, at, "an object"),
        Sort::Flag if json.is_boolean() => Ok(()),
        Sort::Flag => explain_other(out, at, "true or false"),
        Sort::Number if is_whole_number(json) => Ok(()),
        Sort::Number => explain_other(out, at, "a whole number of 32 bits"),
        Sort::Long if json.as_i64().is_some() => Ok(()),
        Sort::Long => explain_other(out, at, "a whole number of 64 bits"),
        Sort::Kind if is_kind(json) => Ok(()),
        Sort::Kind => explain_other(out, at, "\"attribute\" or \"reference\""),
    }
}
