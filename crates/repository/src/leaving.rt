//! The targets that adapters lose by a change: the targets at the objects that the change destroys.
ghost use Rattle.std.specs.Prelude.{◌≡◌, ◌++◌, [], filter, map, IfOk, IfSome, OnOk};
ghost use Rattle.std.specs.Option.{option_map_or};
ghost use Rattle.models.specs.Reading.{Reading};
ghost use Rattle.notice_chain.specs.Released.{is_gone_at, spots as spots_where};
ghost use Rattle.change_plans.specs.Plans.{removal_in};
ghost use Rattle.removal.specs.Ranks.{is_in};
ghost use Rattle.removal.specs.Removals.{IsRemoval};

use adapter_list::AdapterList;
use adapters::Adapter;
use change_plans::Finding;
use mm_types::{AdapterNo, Node};
use notice_chain::Target;
use removal::Removal;
use std::alloc::{AllocError, Global};
use std::collections::VecDeque;

/// The targets at the objects that a change destroys; none if the change destroys no object.
pub(crate) fn spots_gone<A: Adapter>(
    alloc: Global,
    adapters: &AdapterList<A>,
    finding: &Finding,
) -> Result<Vec<(AdapterNo, Node)>, AllocError>
    requires { (r : Reading) × IfSome (removal_in finding.now) (IsRemoval r) }
    ensures { IfOk result (λ v. v.items ≡ option_map_or (λ x. spots_where (is_gone_at (is_in x.numbers)) adapters.now.0) (removal_in finding.now) []) }
{
    match finding {
        Finding::Removal(removal) => spots_with(alloc, adapters, removal),
        Finding::Nothing | Finding::Target(_) | Finding::Counts(_) => Ok(Vec::new(alloc)),
    }
}

/// The targets at the objects that a removal destroys. Only adapters that have a target at one of these objects are looked at.
fn spots_with<A: Adapter>(
    alloc: Global,
    adapters: &AdapterList<A>,
    removal: &Removal,
) -> Result<Vec<(AdapterNo, Node)>, AllocError>
    requires { (r : Reading) × IsRemoval r removal.now }
    ensures { IfOk result (λ v. v.items ≡ spots_where (is_gone_at (is_in removal.now.numbers)) adapters.now.0) }
{
    let places = adapters.touched(&removal.objects)?;
    let mut spots = Vec::new(alloc);
    for ordinal in &places {
        if let Some((no, targets)) = adapters.at(*ordinal) {
            add_gone(&mut spots, removal, no, targets)?;
        }
    }
    Ok(spots)
}

/// Adds to `spots` those targets of an adapter that are at objects of a removal. `no` is the number of the adapter, and `targets` has all
/// its targets.
fn add_gone(
    spots: &mut Vec<(AdapterNo, Node)>,
    removal: &Removal,
    no: AdapterNo,
    targets: &VecDeque<Target>,
) -> Result<(), AllocError>
    ensures { OnOk result (spots.new.items ≡ spots.old.items ++ map (λ t. (no, t.node)) (filter (λ t. is_in removal.now.numbers t.node) targets.now.items)) }
{
    for index in 0..targets.len() {
        let node = targets[index].node;
        if removal.has(node) {
            spots.push((no, node))?;
        }
    }
    Ok(())
}
