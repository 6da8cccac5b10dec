//! The edits for references that are not the higher feature of a pair of opposites (`specs/LoadEdits.antt`). Each edit puts one value, and
//! names the end at which the document has this value.
ghost use Rattle.std.specs.Prelude.{◌≡◌, ◌≤◌, ◌++◌, OnOk, flat_map, length};
ghost use Rattle.std.specs.List.{All, enumerate_from};
ghost use Rattle.mm_types.specs.declared.limits.TheConstants.{LIST_VALUES};
ghost use Rattle.doc_loader.specs.Fits.{IsNumbered, IsValueNumbered};
ghost use Rattle.doc_loader.specs.LoadEdits as e;

use crate::numbers::loaded;
use links::{Edit, NewLink};
use mm_meta::Meta;
use mm_types::{End, ObjectNo, Value};
use std::alloc::AllocError;

/// The edit that puts an object of the document at a position of an end.
pub(crate) fn put_at(meta: &Meta, next: usize, end: End, index: u32, object: ObjectNo) -> Edit
    requires fits { IsNumbered next object }
    ensures { result ≡ e.put_at meta.now next end index object }
{
    Edit::Put(NewLink {
        end,
        index,
        object: loaded(next, object),
        opposite: meta.opposite(end.feature),
        container: meta.containing(end.feature),
    })
}

/// Adds the edits that put the objects and proxies among `values` into an end, each at its index in `values`.
pub(crate) fn push_values(
    meta: &Meta,
    next: usize,
    end: End,
    values: &[Value],
    edits: &mut Vec<Edit>,
) -> Result<(), AllocError>
    requires few { length values.now ≤ LIST_VALUES }
    requires fits { All (IsValueNumbered next) values.now }
    ensures { OnOk result (edits.new.items ≡ edits.old.items ++ flat_map (e.value_puts meta.now next end) (enumerate_from 0 values.now)) }
{
    'values: for (i, value) in values.iter().enumerate() {
        push_value(meta, next, end, i as u32, value, edits)?;
    }
    Ok(())
}

/// Adds the edit that puts a value at a position of an end, if the value is an object or a proxy.
fn push_value(
    meta: &Meta,
    next: usize,
    end: End,
    index: u32,
    value: &Value,
    edits: &mut Vec<Edit>,
) -> Result<(), AllocError>
    requires fits { IsValueNumbered next value.now }
    ensures { OnOk result (edits.new.items ≡ edits.old.items ++ e.value_puts meta.now next end (index, value.now)) }
{
    match value {
        Value::Object(object) => edits.push(put_at(meta, next, end, index, *object))?,
        Value::Proxy(text) => {
            let text = text.clone()?;
            edits.push(Edit::PutProxy { end, index, text })?;
        }
        _ => {}
    }
    Ok(())
}
