//! Lists of targets of one adapter.
ghost use Rattle.std.specs.Prelude.{◌≡◌, ◌∷◌, [], IfOk, map};

use mm_types::{AdapterNo, Node};
use notice_chain::Target;
use std::alloc::{AllocError, Global};
use std::collections::VecDeque;

/// The list whose only element is the target at `node` of the adapter with the number `no`. Fails only if memory is refused.
pub fn one_spot(
    alloc: Global,
    no: AdapterNo,
    node: Node,
) -> Result<Vec<(AdapterNo, Node)>, AllocError>
    ensures { IfOk result (λ v. v.items ≡ (no, node) ∷ []) }
{
    let mut spots = Vec::with_capacity(alloc, 1)?;
    spots.push_reserved((no, node));
    Ok(spots)
}

/// The list of all targets of an adapter, in the order in which the adapter got them. `no` is the number of the adapter, and `targets` are
/// its targets. Fails only if memory is refused.
pub fn own_spots(
    alloc: Global,
    no: AdapterNo,
    targets: &VecDeque<Target>,
) -> Result<Vec<(AdapterNo, Node)>, AllocError>
    ensures { IfOk result (λ v. v.items ≡ map (λ t. (no, t.node)) targets.now.items) }
{
    let mut spots = Vec::with_capacity(alloc, targets.len())?;
    for index in 0..targets.len() {
        spots.push_reserved((no, targets[index].node));
    }
    Ok(spots)
}
