//! Giving an attached adapter one more target.
ghost use Rattle.std.specs.Prelude.{◌≡◌, ◌<◌, ◌≤◌, ℕ, None, Some, false, true, not, length, nat_lt, position, slice_index, take, OnErr, OnOk, IfOk, IfErr, if◌then◌else◌};
ghost use Rattle.std.specs.Option.{option_map_or};
ghost use Rattle.mm_types.specs.declared.limits.TheConstants.{TARGETS};
ghost use Rattle.notice_chain.specs.Listed.{adapter, adapters_after_watch, has_no, is_target, targets_len};
ghost use Rattle.adapter_list.specs.Refusals.{but_memory, target_refusal, watch_refusal};
ghost use Rattle.adapter_list.specs.Targets.{entries, targets_at};

use super::AdapterList;
use crate::marks::{reserve_mark, set_mark};
use crate::refusal::refusal;
use crate::target_lists::Entry;
use adapters::Adapter;
use mm_types::{AdapterNo, Node, Refused, limits};
use notice_chain::Target;
use std::alloc::AllocError;

impl<A: Adapter> AdapterList<A> {
    /// Gives the adapter with the number `no` one more target, the last of its targets, and reserves capacity for its last notification
    /// from that target. Returns true. If the node is a target of the adapter already, returns false, and nothing changes: a flat target
    /// stays flat, and a deep target stays deep.
    ///
    /// Refused with the first of these that applies: Limit if all adapters together have 100,000 targets already; NoAdapter if no adapter
    /// with this number is attached; AdapterFull if the adapter can't count a last notification from each of its targets and from the new
    /// one; Memory if memory is refused. A refused call notifies no adapter and changes no target, and no adapter has less capacity than
    /// before.
    pub fn watch(&mut self, no: AdapterNo, node: Node, deep: bool) -> Result<bool, Refused>
        ensures added { IfOk result (λ added. added ≡ not (is_target no node self.old.0)) }
        ensures ok { OnOk result (self.new.0 ≡ (if is_target no node self.old.0 then self.old.0 else adapters_after_watch no (record { node = node; deep = deep }) self.old.0)) }
        ensures allowed { OnOk result (watch_refusal self.old.0 no node ≡ None) }
        ensures reason { IfErr result (λ e. but_memory e ≡ watch_refusal self.old.0 no node) }
        ensures unchanged { OnOk result (is_target no node self.old.0 ≡ true → self.new ≡ self.old) }
        ensures kept { OnErr result (self.new.0 ≡ self.old.0) }
        ensures as_many { OnErr result (length self.new.1 ≡ length self.old.1) }
        ensures no_fewer { OnErr result ((k : ℕ) → slice_index self.old.1 k ≤ slice_index self.new.1 k) }
    {
        if self.is_target(no, node) {
            return Ok(false);
        }
        if self.targets_len >= limits::TARGETS {
            return Err(Refused::Limit);
        }
        let Some(ordinal) = self.ordinal_of(no) else {
            return Err(Refused::NoAdapter);
        };
        self.add_target(ordinal, no, node, deep)?;
        Ok(true)
    }

    /// Whether the adapter with the number `no` has a node as a target. Only the adapters of that node are looked at. Takes no memory.
    pub fn is_target(&self, no: AdapterNo, node: Node) -> bool
        ensures { result ≡ is_target no node self.now.0 }
    {
        self.by_target.index_of(node, no).is_some()
    }

    /// Gives the adapter at index `ordinal`, which has the number `no`, one more target, and reserves capacity for its last notification
    /// from that target. The node must not be a target of the adapter yet.
    fn add_target(
        &mut self,
        ordinal: usize,
        no: AdapterNo,
        node: Node,
        deep: bool,
    ) -> Result<(), Refused>
        requires placed { Some ordinal ≡ position (has_no no) self.old.0 }
        requires within { ordinal < length self.old.0 }
        requires apart { is_target no node self.old.0 ≡ false }
        requires few { targets_len self.old.0 < TARGETS }
        ensures ok { OnOk result (self.new.0 ≡ adapters_after_watch no (record { node = node; deep = deep }) self.old.0) }
        ensures allowed { OnOk result (target_refusal (adapter no self.old.0) ≡ None) }
        ensures reason { IfErr result (λ e. but_memory e ≡ target_refusal (adapter no self.old.0)) }
        ensures kept { OnErr result (self.new.0 ≡ self.old.0) }
        ensures as_many { OnErr result (length self.new.1 ≡ length self.old.1) }
        ensures no_fewer { OnErr result ((k : ℕ) → slice_index self.old.1 k ≤ slice_index self.new.1 k) }
    {
        self.lemma_keeps_rules();
        let count = self.targets_of(ordinal);
        if let Err(reason) = self.reserve_at(ordinal, count as u64 + 1) {
            return Err(refusal(reason));
        }
        if self.put_target(ordinal, no, node, deep).is_err() {
            return Err(Refused::Memory);
        }
        Ok(())
    }

    /// Gives the adapter at index `ordinal`, which has the number `no`, one more target, as `add_target` does. The adapter must already
    /// have capacity for a last notification from each of its targets and from the new one.
    fn put_target(
        &mut self,
        ordinal: usize,
        no: AdapterNo,
        node: Node,
        deep: bool,
    ) -> Result<(), AllocError>
        requires placed { Some ordinal ≡ position (has_no no) self.old.0 }
        requires within { ordinal < length self.old.0 }
        requires apart { is_target no node self.old.0 ≡ false }
        requires few { targets_len self.old.0 < TARGETS }
        requires spare { targets_at self.old.0 ordinal < slice_index self.old.1 ordinal }
        ensures ok { OnOk result (self.new.0 ≡ adapters_after_watch no (record { node = node; deep = deep }) self.old.0) }
        ensures kept { OnErr result (self.new.0 ≡ self.old.0) }
        ensures places { OnErr result (self.new.1 ≡ self.old.1) }
    {
        let index = self.index_before(ordinal, node);
        let one = &mut self.attached[ordinal];
        one.targets.reserve(1)?;
        reserve_mark(&mut self.marks, node)?;
        self.by_target.insert(node, index, Entry { no, deep })?;
        set_mark(&mut self.marks, node, true);
        one.targets.push_back_reserved(Target { node, deep });
        self.targets_len += 1;
        Ok(())
    }

    /// How many of the adapters with an index below `ordinal` have a node as a target. Only the adapters of that node are looked at.
    fn index_before(&self, ordinal: usize, node: Node) -> usize
        ensures { result ≡ length (entries node (take ordinal self.now.0)) }
    {
        let mut index = 0;
        for entry in self.by_target.at(node) {
            if self.is_before(entry.no, ordinal) {
                index += 1;
            }
        }
        index
    }

    /// Whether the adapter with the number `no` is attached, and has an index below `ordinal`.
    fn is_before(&self, no: AdapterNo, ordinal: usize) -> bool
        ensures { result ≡ option_map_or (λ k. nat_lt k ordinal) (position (has_no no) self.now.0) false }
    {
        match self.ordinal_of(no) {
            Some(other) => other < ordinal,
            None => false,
        }
    }
}
