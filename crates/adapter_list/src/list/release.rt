//! Taking targets from adapters, and closing the list.
ghost use Rattle.std.specs.Prelude.{◌≡◌, ◌≤◌, ◌++◌, ◌∷◌, [], IfSome, None, is_some, length, map, vec_len, vec_capacity};
ghost use Rattle.notice_chain.specs.Listed.{HaveTargets, is_target};
ghost use Rattle.notice_chain.specs.View.{hear_all};
ghost use Rattle.notice_chain.specs.Released.{all_released, released_adapters as released_of, removing_notice};
ghost use Rattle.adapter_list.specs.Attached.{IsRoomFor, views_of};
ghost use Rattle.adapter_list.specs.Detached.{told_in, views_in};
ghost use Rattle.adapter_list.specs.Leaving.{HasRoom, leavers, spots_in};
ghost use Rattle.adapter_list.specs.Rounds.{RoundFits};

use super::AdapterList;
use crate::attached::Attached;
use crate::detached::Detached;
use crate::going::{Going, last_notice};
use crate::leaving::Leaving;
use crate::release::Release;
use crate::round::Round;
use adapters::Adapter;
use mm_types::{AdapterNo, Node};
use notice_chain::{Notice, Target};
use std::collections::VecDeque;
use std::mem;

impl<A: Adapter> AdapterList<A> {
    /// Takes one target from an adapter. The adapter loses the target, and gets its last notification from that target. Returns the
    /// notification, and the adapter if it has no target left. If no adapter has the number `no`, or the node `target` is no target of the
    /// adapter, the result is `None`, and nothing changes, not even the capacity of an adapter. Takes no memory (EMF:
    /// `eAdapters().remove`).
    pub fn detach(&mut self, no: AdapterNo, target: Node) -> Option<Detached<A>>
        ensures some { is_some result ≡ is_target no target self.old.0 }
        ensures none { result ≡ None → self.new ≡ self.old }
        ensures others { self.new.0 ≡ (released_of ((no, target) ∷ []) self.old.0).others }
        ensures told { told_in no result ≡ (released_of ((no, target) ∷ []) self.old.0).told }
        ensures released { views_in A.heard result ≡ map (λ v. v.1) (released_of ((no, target) ∷ []) self.old.0).views }
    {
        self.lemma_keeps_rules();
        if !self.is_target(no, target) {
            return None;
        }
        let (mut going, mut room) = self.take_apart();
        let detached = going.detach(no, target, &mut room);
        *self = going.into_list(room);
        detached
    }

    /// Takes targets from adapters, one after another. Each element of `release` names an adapter and a node. If the node is a target of
    /// the adapter, the adapter loses this target, and gets its last notification from the node. Otherwise the element is skipped. After
    /// the last element the adapters that have no target left are given back, in attach order. Returns which adapter was notified of what,
    /// and the adapters that are given back. Takes no memory.
    pub fn release(
        &mut self,
        release: Release<A>,
    ) -> (Vec<(AdapterNo, Notice)>, Vec<(AdapterNo, A)>)
        ensures others { self.new.0 ≡ (released_of release self.old.0).others }
        ensures told { result.0.items ≡ (released_of release self.old.0).told }
        ensures released { views_of A.heard result.1.items ≡ (released_of release self.old.0).views }
    {
        let (spots, mut told, mut released) = release.into_parts();
        let (mut going, room) = self.take_apart();
        going.release(&spots, &mut told, &mut released);
        *self = going.into_list(room);
        (told, released)
    }

    /// Delivers a round as `deliver` does, and then takes away the targets of `leaving`, if there are any, as `release` does. Returns which
    /// adapter was notified of what, and the adapters that are given back. Takes no memory.
    #[inline(always)]
    pub fn deliver_and_release(
        &mut self,
        round: Round,
        leaving: Option<Box<Leaving<A>>>,
    ) -> (Vec<(AdapterNo, Notice)>, Vec<(AdapterNo, A)>)
        requires fits { RoundFits self.old.0 self.old.1 round }
        requires room { IfSome leaving (λ x. HasRoom (length round.told) x.value) }
        ensures others { self.new.0 ≡ (leavers (spots_in leaving) round.copies self.old.0).others }
        ensures told { result.0.items ≡ round.told ++ (leavers (spots_in leaving) round.copies self.old.0).told }
        ensures released { views_of A.heard result.1.items ≡ (leavers (spots_in leaving) round.copies self.old.0).views }
    {
        let told = self.deliver(round);
        match leaving {
            Some(leaving) => Box::into_inner(leaving).let_go(self, told),
            None => (told, Vec::new(self.alloc)),
        }
    }

    /// Takes the list apart. Returns its parts, and an empty `Vec` with capacity for all of its adapters. `self` is then a list without
    /// adapters, until the caller puts back the list that `Going::into_list` makes of the parts.
    fn take_apart(&mut self) -> (Going<A>, Vec<(AdapterNo, A)>)
        ensures now { result.0 ≡ self.old.0 }
        ensures some { HaveTargets self.old.0 }
        ensures room { IsRoomFor (length self.old.0) (vec_len result.1) (vec_capacity result.1) }
    {
        let empty = AdapterList::new(self.alloc);
        Going::of(mem::replace(self, empty))
    }

    /// Gives every adapter back, in attach order. Each adapter gets its last notification from each of its targets, in the order in which
    /// the adapter got the targets, and is no longer attached when the next adapter is notified. Takes no memory.
    pub fn close(self) -> Vec<(AdapterNo, A)>
        ensures { views_of A.heard result.items ≡ all_released self.0 }
    {
        let AdapterList {
            alloc: _,
            attached,
            numbers: _,
            by_target: _,
            marks: _,
            targets_len: _,
            mut released,
        } = self;
        for one in attached {
            let Attached {
                no,
                targets,
                mut adapter,
            } = one;
            tell_all_last(&mut adapter, no, &targets);
            released.push_reserved((no, adapter));
        }
        released
    }
}

/// Gives an adapter its last notification from each of its targets. The position in these notifications is the index of the adapter among
/// the adapters that have the target. It is 0, since all adapters that come earlier in attach order are no longer attached.
fn tell_all_last<A: Adapter>(adapter: &mut A, no: AdapterNo, targets: &VecDeque<Target>)
    requires reserve { length targets.now.items ≤ A.places adapter.old }
    ensures { A.heard adapter.new ≡ hear_all (A.heard adapter.old) (map (λ t. removing_notice no t.node 0) targets.now.items) }
{
    for index in 0..targets.len() {
        adapter.notify_changed(last_notice(no, targets[index].node, 0));
    }
}
