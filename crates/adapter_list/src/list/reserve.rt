//! The capacity that the adapters reserve for the copies of a round.
ghost use Rattle.std.specs.Prelude.{◌≡◌, None, true, ◌≤◌, ◌<◌, ◌+◌, ◌^◌, ◌↔◌, ℕ, map, length, slice_index, OnOk, IfErr, IsErrOf};
ghost use Rattle.std.specs.List.{AllByRecursion};
ghost use Rattle.adapter_list.specs.Counts.{HasGrown, IsFirstFull, IsReadyFor, ascends, copies_len, ordinals, told_at_ordinal};
ghost use Rattle.adapter_list.specs.Targets.{targets_at};

use super::AdapterList;
use crate::counts::{counts_of, is_ascending, ordinals_of};
use adapters::{Adapter, NoRoom};
use notice_chain::Notice;

impl<A: Adapter> AdapterList<A> {
    /// Makes sure that each adapter has capacity for the copies that it gets, and for a last notification from each of its targets. The
    /// adapters that get copies reserve capacity one after another, in attach order and each of them once, up to the first that refuses;
    /// its refusal is returned. If memory is refused for counting the copies, `Memory` is returned before any adapter reserves. No adapter
    /// loses capacity.
    pub(super) fn reserve_places(&mut self, copies: &[(usize, Notice)]) -> Result<(), NoRoom>
        requires within { AllByRecursion (λ c. c.0 < length self.old.1) copies.now }
        ensures grown { HasGrown self.old self.new }
        ensures ok { OnOk result ((k : ℕ) → IsReadyFor self.old.0 self.new.1 k (copies_len copies.now k)) }
        ensures full { IfErr result (λ e. e ≡ NoRoom.Full → (k : ℕ) × IsFirstFull self.old.0 self.new.1 copies.now k) }
    {
        self.lemma_keeps_rules();
        if is_ascending(copies) {
            return self.reserve_each(copies);
        }
        let Ok(counts) = counts_of(self.alloc, copies) else {
            return Err(NoRoom::Memory);
        };
        let Ok(ordinals) = ordinals_of(self.alloc, copies) else {
            return Err(NoRoom::Memory);
        };
        for ordinal in &ordinals {
            let count = counts.get(ordinal).copied().unwrap_or(0);
            if let Err(reason) = self.reserve_for(*ordinal, count) {
                return Err(reason);
            }
        }
        Ok(())
    }

    /// Does what `reserve_places` does, for copies that are in the attach order of their adapters, with at most one copy for each adapter.
    /// So the copies need not be counted, and only the adapters take memory.
    fn reserve_each(&mut self, copies: &[(usize, Notice)]) -> Result<(), NoRoom>
        requires within { AllByRecursion (λ c. c.0 < length self.old.1) copies.now }
        requires ascending { ascends None (ordinals copies.now) ≡ true }
        ensures grown { HasGrown self.old self.new }
        ensures ok { OnOk result ((k : ℕ) → IsReadyFor self.old.0 self.new.1 k (copies_len copies.now k)) }
        ensures full { IfErr result (λ e. e ≡ NoRoom.Full → (k : ℕ) × IsFirstFull self.old.0 self.new.1 copies.now k) }
    {
        self.lemma_keeps_rules();
        for (ordinal, _) in copies {
            if let Err(reason) = self.reserve_for(*ordinal, 1) {
                return Err(reason);
            }
        }
        Ok(())
    }

    /// Makes sure that the adapter at `ordinal` has capacity for `count` copies, and for a last notification from each of its targets.
    fn reserve_for(&mut self, ordinal: usize, count: usize) -> Result<(), NoRoom>
        requires within { ordinal < length self.old.1 }
        requires fits { count < 2 ^ 63 }
        ensures grown { HasGrown self.old self.new }
        ensures ok { OnOk result (IsReadyFor self.old.0 self.new.1 ordinal count) }
        ensures full { IsErrOf result NoRoom.Full ↔ (2 ^ 64 ≤ told_at_ordinal self.old.0 ordinal + (count + targets_at self.old.0 ordinal)) }
    {
        let targets = self.targets_of(ordinal);
        self.reserve_at(ordinal, count as u64 + targets as u64)
    }

    /// How many targets the adapter at `ordinal` has.
    pub(super) fn targets_of(&self, ordinal: usize) -> usize
        requires within { ordinal < length self.now.1 }
        ensures count { result ≡ targets_at self.now.0 ordinal }
        ensures few { result < 2 ^ 63 }
    {
        self.attached[ordinal].targets.len()
    }

    /// Makes sure that the adapter at `ordinal` has capacity for at least `n` notifications.
    pub(super) fn reserve_at(&mut self, ordinal: usize, n: u64) -> Result<(), NoRoom>
        requires within { ordinal < length self.old.1 }
        ensures kept { self.new.0 ≡ self.old.0 }
        ensures ok { OnOk result (n ≤ slice_index self.new.1 ordinal) }
        ensures full { IsErrOf result NoRoom.Full ↔ (2 ^ 64 ≤ slice_index (map (λ r. r.view.told) self.old.0) ordinal + n) }
        ensures no_fewer { (k : ℕ) → slice_index self.old.1 k ≤ slice_index self.new.1 k }
        ensures as_many { length self.new.1 ≡ length self.old.1 }
    {
        let one = &mut self.attached[ordinal];
        one.adapter.reserve(n)
    }
}
