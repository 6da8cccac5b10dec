//! The edits that cut links.
ghost use Rattle.std.specs.Prelude.{◌≡◌, ◌++◌, map, OnOk};
ghost use Rattle.handshake.specs.Edits as e;

use links::{Edit, Plan};
use removal::LinkEnd;
use std::alloc::{AllocError, Global};

/// Adds the edits that cut the links of `link_ends`, in this order.
#[inline(always)]
pub(crate) fn push_cuts(
    alloc: Global,
    link_ends: Vec<LinkEnd>,
    edits: &mut Plan,
) -> Result<(), AllocError>
    ensures { OnOk result (edits.new ≡ edits.old ++ map e.cut_of link_ends.items) }
{
    for link_end in link_ends {
        let LinkEnd { end, value } = link_end;
        edits.push(alloc, Edit::Cut { end, value })?;
    }
    Ok(())
}
