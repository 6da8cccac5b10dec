//! The positions of an object in the ends that have the object.
ghost use Rattle.std.specs.Prelude.{◌≡◌, ◌++◌, IfOk, OnOk};
ghost use Rattle.link_store.specs.Rows.{places_in};
ghost use Rattle.links.specs.Found.{entry_if};

use crate::rows::position_of;
use links::{Incoming, Link};
use mm_types::{End, Value};
use std::alloc::{AllocError, Global};

fn push_place(position: Option<u32>, end: End, out: &mut Vec<Incoming>) -> Result<(), AllocError>
    ensures { OnOk result (out.new.items ≡ out.old.items ++ entry_if end position) }
{
    if let Some(position) = position {
        out.push(Incoming {
            feature: end.feature,
            node: end.node,
            position,
        })?;
    }
    Ok(())
}

/// The ends of `ends` in which some link has `value`, each with the position of `value` there. If several links have `value` in an end, the
/// first of them in `rows` gives the position.
pub(crate) fn places_of(
    alloc: Global,
    rows: &[Link],
    ends: &[End],
    value: &Value,
) -> Result<Vec<Incoming>, AllocError>
    ensures { IfOk result (λ r. r.items ≡ places_in rows.now ends.now value.now) }
{
    let mut out = Vec::new(alloc);
    for end in ends {
        push_place(position_of(rows, *end, value), *end, &mut out)?;
    }
    Ok(out)
}
