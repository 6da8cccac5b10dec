//! The list of attached adapters.
ghost use Rattle.std.specs.Prelude.{◌≡◌, ◌+◌, ◌^◌, ◌≤◌, ◌<◌, [], length, option_map, slice_get, All, IfSome, List, position};
ghost use Rattle.mm_types.specs.declared.numbers.AdapterNo.{AdapterNo};
ghost use Rattle.notice_chain.specs.declared.target.Target.{Target};
ghost use Rattle.notice_chain.specs.Listed.{HasDistinctNumbers, HasDistinctTargets, HaveTargets, adapter, has_no, targets_len};
ghost use Rattle.adapter_list.specs.Attached.{listed_one, HasReserve};

mod attach;
mod hear;
mod release;
mod reserve;
mod tell;
mod touched;
mod watch;

use crate::attached::Attached;
use crate::target_lists::TargetLists;
use adapters::Adapter;
use indexmap::IndexSet;
use mm_types::AdapterNo;
use mm_types::limits::TARGETS;
use notice_chain::Target;
use std::alloc::Global;
use std::collections::VecDeque;
use std::marker::Model;

/// The attached adapters, in attach order (EMF: the adapters of all notifiers). Contracts see two lists. The first has the number, the
/// targets and the view of each adapter; the second has the capacity of each adapter.
///
/// The numbers of the adapters are distinct. All adapters together have at most 100,000 targets; each adapter has at least one target, and
/// no target twice. Each adapter has capacity reserved for its last notification from each of its targets, and can count those
/// notifications.
#[derive(Drop)]
pub struct AdapterList<A: Adapter> {
    pub(crate) alloc: Global,
    pub(crate) attached: Vec<Attached<A>>,
    /// The numbers of the adapters in `attached`, in the same order. They serve to find an adapter by its number.
    pub(crate) numbers: IndexSet<AdapterNo>,
    /// For each node the adapters that have the node as a target, in attach order.
    pub(crate) by_target: TargetLists,
    /// For each object, at the index that is its number, whether the object is a target of any adapter. An object whose number is past the
    /// end of the list is no target.
    pub(crate) marks: Vec<bool>,
    /// How many targets all adapters have together.
    pub(crate) targets_len: usize,
    /// Empty between calls, with capacity for all adapters. So `close` and `detach`, which give adapters back through this list, take no
    /// memory.
    pub(crate) released: Vec<(AdapterNo, A)>,
}

impl<A: Adapter> Model for AdapterList<A> {
    ghost use Rattle.std.specs.Prelude.{List, ℕ, vec_len, vec_capacity};
    ghost use Rattle.notice_chain.specs.Listed.{Listed};
    ghost use Rattle.adapter_list.specs.Attached.{listed_adapters, places_of, IsWhole};

    ghost Value = { List Listed × List ℕ };

    ghost view = { λ l. (listed_adapters A.heard l.attached.items, places_of A.places l.attached.items) };

    ghost invariant = { λ l. IsWhole A.heard A.places l.attached.items l.numbers.keys l.by_target l.marks.items l.targets_len (vec_len l.released) (vec_capacity l.released) };
}

impl<A: Adapter> AdapterList<A> {
    /// A list without adapters. Takes no memory.
    pub fn new(alloc: Global) -> Self
        ensures { result ≡ ([], []) }
    {
        AdapterList {
            alloc,
            attached: Vec::new(alloc),
            numbers: IndexSet::new(alloc),
            by_target: TargetLists::new(alloc),
            marks: Vec::new(alloc),
            targets_len: 0,
            released: Vec::new(alloc),
        }
    }

    /// How many adapters are attached. Takes no memory.
    pub fn len(&self) -> usize
        ensures { result ≡ length self.now.0 }
    {
        self.attached.len()
    }

    /// The number and the targets of the adapter at index `i` in attach order; None if `i` is past the last adapter. Takes no memory.
    pub fn at(&self, i: usize) -> Option<(AdapterNo, &VecDeque<Target>)>
        ensures { option_map {U = AdapterNo × List Target} (λ p. (p.0, p.1.now.items)) result ≡ option_map (λ r. (r.no, r.targets)) (slice_get self.now.0 i) }
    {
        match self.attached.get(i) {
            Some(one) => Some((one.no, &one.targets)),
            None => None,
        }
    }

    /// The targets of the adapter with the number `no`, in the order in which the adapter got them; None if no adapter has this number.
    /// Takes no memory.
    pub fn targets(&self, no: AdapterNo) -> Option<&VecDeque<Target>>
        ensures { option_map (λ ts. ts.now.items) result ≡ option_map (λ r. r.targets) (adapter no self.now.0) }
    {
        match self.find(no) {
            Some(one) => Some(&one.targets),
            None => None,
        }
    }

    /// How many notifications the adapter with the number `no` got; None if no adapter has this number. Takes no memory.
    pub fn told(&self, no: AdapterNo) -> Option<u64>
        ensures { result ≡ option_map (λ r. r.view.told) (adapter no self.now.0) }
    {
        match self.find(no) {
            Some(one) => Some(one.adapter.told()),
            None => None,
        }
    }

    /// How many notifications the adapter with the number `no` keeps; None if no adapter has this number. Takes no memory.
    pub fn kept_len(&self, no: AdapterNo) -> Option<u64>
        ensures { result ≡ option_map (λ r. length r.view.kept) (adapter no self.now.0) }
    {
        match self.find(no) {
            Some(one) => Some(one.adapter.kept_len()),
            None => None,
        }
    }

    /// The facts that hold of every list, for callers whose proofs need them. All adapters together have at most 100,000 targets. The
    /// numbers of the adapters are distinct. Each adapter has a target, and no target twice. It has capacity reserved for a last
    /// notification from each of its targets, and can count these notifications. The list of the capacities is as long as the list of the
    /// adapters.
    pub fn lemma_keeps_rules(&self)
        ensures few { targets_len self.now.0 ≤ TARGETS }
        ensures distinct { HasDistinctNumbers self.now.0 }
        ensures some { HaveTargets self.now.0 }
        ensures once { HasDistinctTargets self.now.0 }
        ensures countable { All (λ r. r.view.told + length r.targets < 2 ^ 64) self.now.0 }
        ensures reserve { HasReserve self.now.0 self.now.1 }
        ensures places { length self.now.1 ≡ length self.now.0 }
    {
        let _ = &self.alloc;
    }

    /// The adapter with the number `no`; None if no adapter has this number.
    fn find(&self, no: AdapterNo) -> Option<&Attached<A>>
        ensures { option_map (λ a. listed_one A.heard a.now) result ≡ adapter no self.now.0 }
    {
        match self.ordinal_of(no) {
            Some(ordinal) => Some(&self.attached[ordinal]),
            None => None,
        }
    }

    /// The index, in attach order, of the adapter with the number `no`; None if no adapter has this number.
    fn ordinal_of(&self, no: AdapterNo) -> Option<usize>
        ensures ordinal { result ≡ position (has_no no) self.now.0 }
        ensures within { IfSome result (λ i. i < length self.now.0) }
    {
        self.numbers.get_index_of(&no)
    }
}
