//! The edits that put the proxies under the higher features of pairs of opposites. `specs/LoadEdits.antt` says what a higher feature is.
ghost use Rattle.std.specs.Prelude.{◌≡◌, ◌≤◌, ◌++◌, OnOk, flat_map, length};
ghost use Rattle.std.specs.List.{enumerate_from};
ghost use Rattle.mm_types.specs.declared.limits.TheConstants.{LIST_VALUES};
ghost use Rattle.doc_loader.specs.LoadEdits as e;

use links::Edit;
use mm_types::{End, Value};
use std::alloc::AllocError;

/// Adds the edits that put the proxies among `values` into an end, each proxy at its index in `values`.
pub(crate) fn push_values(
    end: End,
    values: &[Value],
    edits: &mut Vec<Edit>,
) -> Result<(), AllocError>
    requires few { length values.now ≤ LIST_VALUES }
    ensures { OnOk result (edits.new.items ≡ edits.old.items ++ flat_map (e.proxy_puts end) (enumerate_from 0 values.now)) }
{
    'values: for (i, value) in values.iter().enumerate() {
        push_value(end, i as u32, value, edits)?;
    }
    Ok(())
}

/// Adds the edit that puts a value at a position of an end, if the value is a proxy.
fn push_value(end: End, index: u32, value: &Value, edits: &mut Vec<Edit>) -> Result<(), AllocError>
    ensures { OnOk result (edits.new.items ≡ edits.old.items ++ e.proxy_puts end (index, value.now)) }
{
    if let Value::Proxy(text) = value {
        let text = text.clone()?;
        edits.push(Edit::PutProxy { end, index, text })?;
    }
    Ok(())
}
