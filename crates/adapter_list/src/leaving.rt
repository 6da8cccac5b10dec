//! Targets that are taken away after a chain of notifications is delivered.
ghost use Rattle.std.specs.Prelude.{◌≡◌, ◌^◌, ◌+◌, ◌<◌, ◌≤◌, ◌++◌, IfOk, IfSome, length, vec_capacity, vec_len};
ghost use Rattle.notice_chain.specs.Released.{released_adapters as released_of};
ghost use Rattle.adapter_list.specs.Attached.{views_of};
ghost use Rattle.adapter_list.specs.Leaving.{HasRoom, spots_in};

use crate::list::AdapterList;
use crate::release::Release;
use adapters::Adapter;
use mm_types::{AdapterNo, Node};
use notice_chain::Notice;
use std::alloc::{AllocError, Global};

/// The targets that are taken away, and a list with capacity for all notifications: those of the chain, and the last notifications from
/// these targets. A `Leaving` is made before anything changes, so that taking the targets away takes no memory.
#[derive(Drop)]
pub struct Leaving<A> {
    /// The targets that are taken away, in the order of the `spots` of `with_room`. The crate `repository` passes them adapter by adapter
    /// in attach order, and the targets of one adapter in the order in which the adapter got them.
    release: Release<A>,
    /// An empty list. It has capacity for a copy of each notification of a chain for each adapter that gets the notification, and for the
    /// last notification from each target in `release`.
    told: Vec<(AdapterNo, Notice)>,
}

impl<A: Adapter> Leaving<A> {
    /// The targets `spots`, with capacity for `chain_told` copies of a chain's notifications and for the last notification from each
    /// target. `None` if there are no targets in `spots`. Fails only if memory is refused.
    #[inline(always)]
    pub fn with_room(
        alloc: Global,
        spots: Vec<(AdapterNo, Node)>,
        chain_told: usize,
    ) -> Result<Option<Box<Self>>, AllocError>
        requires { chain_told < 2 ^ 63 }
        ensures spots { IfOk result (λ q. spots_in q ≡ spots.items) }
        ensures room { IfOk result (λ q. IfSome q (λ x. HasRoom chain_told x.value)) }
    {
        if spots.is_empty() {
            return Ok(None);
        }
        let told = Vec::with_capacity(alloc, chain_told + spots.len())?;
        let release = Release::new(alloc, spots)?;
        Ok(Some(Box::new(alloc, Leaving { release, told })?))
    }

    /// Takes the targets from their adapters. Returns which adapter was notified of what, and the adapters that have no target left. In the
    /// first of these lists the notifications `chain_told` of the chain come first, and the last notifications from the targets come after
    /// them. Takes no memory.
    pub(crate) fn let_go(
        self,
        adapters: &mut AdapterList<A>,
        chain_told: Vec<(AdapterNo, Notice)>,
    ) -> (Vec<(AdapterNo, Notice)>, Vec<(AdapterNo, A)>)
        requires room { HasRoom (length chain_told.items) self }
        ensures others { adapters.new.0 ≡ (released_of self.release adapters.old.0).others }
        ensures told { result.0.items ≡ chain_told.items ++ (released_of self.release adapters.old.0).told }
        ensures released { views_of A.heard result.1.items ≡ (released_of self.release adapters.old.0).views }
    {
        let Leaving { release, mut told } = self;
        move_all(chain_told, &mut told);
        let (last, released) = adapters.release(release);
        move_all(last, &mut told);
        (told, released)
    }
}

/// Moves all notifications of `from` to the end of `into`, which has capacity for them.
fn move_all(from: Vec<(AdapterNo, Notice)>, into: &mut Vec<(AdapterNo, Notice)>)
    requires room { vec_len into.old + length from.items ≤ vec_capacity into.old }
    ensures items { into.new.items ≡ into.old.items ++ from.items }
    ensures room { (vec_len into.new ≡ vec_len into.old + length from.items) × (vec_capacity into.new ≡ vec_capacity into.old) }
{
    for one in from {
        into.push_reserved(one);
    }
}
