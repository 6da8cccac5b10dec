//! A list of adapters while targets are taken away from the adapters.
ghost use Rattle.std.specs.Prelude.{◌≡◌, ◌≤◌, ◌<◌, ◌+◌, ◌++◌, ◌∷◌, [], None, Some, false, true, length, map, filter, not, position, vec_len, vec_capacity, IfSome, is_some};
ghost use Rattle.std.specs.List.{IsDistinct};
ghost use Rattle.indexmap.specs.IndexSet.{index_set_len};
ghost use Rattle.mm_types.specs.Same.{same_node};
ghost use Rattle.notice_chain.specs.Listed.{HaveTargets, has_no, is_at, is_target, same_no};
ghost use Rattle.notice_chain.specs.Released.{adapters_without_target, has_targets, leaving_adapters, released_adapters as released_of, removing_notice, staying_adapters, told_of_leaving};
ghost use Rattle.adapter_list.specs.Attached.{IsRoomFor, listed_adapters, numbers_of, views_of};
ghost use Rattle.adapter_list.specs.Detached.{last_told, told_in, view_of, views_in};

use crate::attached::Attached;
use crate::detached::Detached;
use crate::list::AdapterList;
use crate::marks::set_mark;
use crate::target_lists::TargetLists;
use adapters::Adapter;
use indexmap::IndexSet;
use mm_types::limits::TARGETS;
use mm_types::{AdapterNo, Node, Value};
use notice_chain::{Notice, NoticeKind, Target};
use std::alloc::Global;
use std::collections::VecDeque;
use std::marker::Model;
use std::mem;

/// The parts of an `AdapterList` while targets are taken away from its adapters. Meanwhile an adapter may have no target left. All adapters
/// that have no target are given back before the parts become an `AdapterList` again.
#[derive(Drop)]
pub(crate) struct Going<A: Adapter> {
    alloc: Global,
    attached: Vec<Attached<A>>,
    numbers: IndexSet<AdapterNo>,
    by_target: TargetLists,
    marks: Vec<bool>,
    targets_len: usize,
}

impl<A: Adapter> Model for Going<A> {
    ghost use Rattle.std.specs.Prelude.{List, length};
    ghost use Rattle.notice_chain.specs.Listed.{Listed};
    ghost use Rattle.adapter_list.specs.Attached.{listed_adapters, IsSound};

    ghost Value = { List Listed };

    ghost view = { λ l. listed_adapters A.heard l.attached.items };

    ghost invariant = { λ l. IsSound A.heard A.places l.attached.items l.numbers.keys l.by_target l.marks.items l.targets_len 0 (length l.attached.items) };
}

impl<A: Adapter> Going<A> {
    /// The parts of `list`, and an empty `Vec` through which adapters are given back. The `Vec` has capacity for all adapters of the list.
    pub(crate) fn of(list: AdapterList<A>) -> (Self, Vec<(AdapterNo, A)>)
        ensures now { result.0 ≡ list.0 }
        ensures some { HaveTargets list.0 }
        ensures room { IsRoomFor (length list.0) (vec_len result.1) (vec_capacity result.1) }
    {
        let going = Going {
            alloc: list.alloc,
            attached: list.attached,
            numbers: list.numbers,
            by_target: list.by_target,
            marks: list.marks,
            targets_len: list.targets_len,
        };
        (going, list.released)
    }

    /// Makes a list of the parts again. Each adapter must have a target, and `released` must be empty and have capacity for all adapters.
    pub(crate) fn into_list(self, released: Vec<(AdapterNo, A)>) -> AdapterList<A>
        requires some { HaveTargets self }
        requires room { IsRoomFor (length self) (vec_len released) (vec_capacity released) }
        ensures { result.0 ≡ self }
    {
        AdapterList {
            alloc: self.alloc,
            attached: self.attached,
            numbers: self.numbers,
            by_target: self.by_target,
            marks: self.marks,
            targets_len: self.targets_len,
            released,
        }
    }

    /// Takes the target at `node` from the adapter with the number `no`, and gives the adapter its last notification from that target.
    /// Returns this notification, and whether the adapter has no target left. If no adapter has this number, or `node` is no target of the
    /// adapter, the result is `None`, and nothing changes.
    fn let_go(&mut self, no: AdapterNo, node: Node) -> Option<(Notice, bool)>
        ensures others { self.new ≡ adapters_without_target (no, node) self.old }
        ensures told { last_told no result ≡ told_of_leaving (no, node) self.old }
        ensures none { result ≡ None → self.new ≡ self.old }
        ensures some { IfSome result (λ r. r.1 ≡ false → HaveTargets self.old → HaveTargets self.new) }
    {
        let ordinal = self.ordinal_of(no)?;
        let index = self.by_target.index_of(node, no)?;
        self.by_target.remove(node, index);
        set_mark(&mut self.marks, node, self.by_target.has_any(node));
        let one = &mut self.attached[ordinal];
        drop_target(&mut one.targets, node);
        one.adapter.notify_changed(last_notice(no, node, index));
        let is_bare = one.targets.is_empty();
        self.targets_len -= 1;
        Some((last_notice(no, node, index), is_bare))
    }

    /// The index, in attach order, of the adapter with the number `no`; `None` if no adapter has this number.
    fn ordinal_of(&self, no: AdapterNo) -> Option<usize>
        ensures ordinal { result ≡ position (has_no no) self.now }
        ensures within { IfSome result (λ i. i < length self.now) }
    {
        self.numbers.get_index_of(&no)
    }

    /// Moves the adapters that have no targets to the end of `released`, in attach order. The other adapters stay.
    fn hand_out(&mut self, released: &mut Vec<(AdapterNo, A)>)
        requires released_room { vec_len released.old + length (leaving_adapters self.old) ≤ vec_capacity released.old }
        ensures others { self.new ≡ staying_adapters self.old }
        ensures released { views_of A.heard released.new.items ≡ views_of A.heard released.old.items ++ leaving_adapters self.old }
        ensures room { vec_capacity released.new ≡ vec_capacity released.old }
    {
        let attached = mem::replace(&mut self.attached, Vec::new(self.alloc));
        self.attached = split(attached, released);
        renumber(&mut self.numbers, &self.attached);
    }

    /// Gives back the adapter that has no target; `None` if each adapter has a target. The list must not have two adapters without a
    /// target. Takes no memory: the adapter is given back through `room`, an empty list that has capacity for one adapter.
    fn hand_out_one(&mut self, room: &mut Vec<(AdapterNo, A)>) -> Option<A>
        requires one { length (leaving_adapters self.old) ≤ 1 }
        requires room { IsRoomFor 1 (vec_len room.old) (vec_capacity room.old) }
        ensures others { self.new ≡ staying_adapters self.old }
        ensures released { view_of A.heard result ≡ map (λ v. v.1) (leaving_adapters self.old) }
        ensures room { (vec_len room.new ≡ 0) × (vec_capacity room.new ≡ vec_capacity room.old) }
    {
        self.hand_out(room);
        room.pop().map(|one| one.1)
    }

    /// Takes one target from an adapter, and gives the adapter back if that was its last target. If no adapter has the number `no`, or
    /// `node` is no target of the adapter, the result is `None`, and nothing changes. Takes no memory: the adapter is given back through
    /// `room`, an empty list that has capacity for all adapters.
    pub(crate) fn detach(
        &mut self,
        no: AdapterNo,
        node: Node,
        room: &mut Vec<(AdapterNo, A)>,
    ) -> Option<Detached<A>>
        requires some { HaveTargets self.old }
        requires room { IsRoomFor (length self.old) (vec_len room.old) (vec_capacity room.old) }
        ensures some { is_some result ≡ is_target no node self.old }
        ensures others { self.new ≡ (released_of ((no, node) ∷ []) self.old).others }
        ensures told { told_in no result ≡ (released_of ((no, node) ∷ []) self.old).told }
        ensures released { views_in A.heard result ≡ map (λ v. v.1) (released_of ((no, node) ∷ []) self.old).views }
        ensures left { HaveTargets self.new }
        ensures room { IsRoomFor (length self.new) (vec_len room.new) (vec_capacity room.new) }
    {
        let (notice, is_bare) = self.let_go(no, node)?;
        let adapter = if is_bare {
            self.hand_out_one(room)
        } else {
            None
        };
        Some(Detached { notice, adapter })
    }

    /// Takes targets from adapters, one after another, and then gives back the adapters that have no target left, in attach order. Each
    /// element of `spots` names an adapter and a node, and is skipped if the node is no target of the adapter. Adds to `told` which adapter
    /// was notified of what, and adds to `released` the adapters that are given back. Both lists must have capacity for one more element
    /// for each element of `spots`.
    pub(crate) fn release(
        &mut self,
        spots: &[(AdapterNo, Node)],
        told: &mut Vec<(AdapterNo, Notice)>,
        released: &mut Vec<(AdapterNo, A)>,
    )
        requires some { HaveTargets self.old }
        requires told_room { vec_len told.old + length spots.now ≤ vec_capacity told.old }
        requires released_room { vec_len released.old + length spots.now ≤ vec_capacity released.old }
        ensures others { self.new ≡ (released_of spots.now self.old).others }
        ensures told { told.new.items ≡ told.old.items ++ (released_of spots.now self.old).told }
        ensures released { views_of A.heard released.new.items ≡ views_of A.heard released.old.items ++ (released_of spots.now self.old).views }
        ensures left { HaveTargets self.new }
        ensures fewer { length self.new ≤ length self.old }
    {
        let mut is_any_bare = false;
        for spot in spots {
            if let Some((notice, is_bare)) = self.let_go(spot.0, spot.1) {
                told.push_reserved((spot.0, notice));
                if is_bare {
                    is_any_bare = true;
                }
            }
        }
        if is_any_bare {
            self.hand_out(released);
        }
    }
}

/// Takes the target at `node` out of a list of targets, if there is one. No two targets of the list may be at the same node.
fn drop_target(targets: &mut VecDeque<Target>, node: Node)
    requires { IsDistinct same_node (map (λ t. t.node) targets.old.items) }
    ensures { targets.new.items ≡ filter (λ t. not (is_at node t)) targets.old.items }
{
    if let Some(index) = index_among(targets, node) {
        let _ = targets.remove(index);
    }
}

/// The index of the first target at `node` in a list of targets; `None` if no target is at `node`. The list is searched from the front.
fn index_among(targets: &VecDeque<Target>, node: Node) -> Option<usize>
    ensures { result ≡ position (is_at node) targets.now.items }
{
    targets.iter().position(|target| target.node == node)
}

/// Moves the adapters that have no targets out of `attached` and to the end of `released`, in attach order. Returns the list of the other
/// adapters, in attach order. That list is made in the memory of `attached`: each adapter is taken from the front, and put back at the end
/// if it has targets.
fn split<A: Adapter>(
    attached: Vec<Attached<A>>,
    released: &mut Vec<(AdapterNo, A)>,
) -> Vec<Attached<A>>
    requires released_room { vec_len released.old + length (leaving_adapters (listed_adapters A.heard attached.items)) ≤ vec_capacity released.old }
    ensures stay { result.items ≡ filter (λ a. has_targets (record { no = a.no; targets = a.targets.items; view = A.heard a.adapter })) attached.items }
    ensures released { views_of A.heard released.new.items ≡ views_of A.heard released.old.items ++ leaving_adapters (listed_adapters A.heard attached.items) }
    ensures room { vec_capacity released.new ≡ vec_capacity released.old }
{
    let mut waiting = VecDeque::from_vec(attached);
    let mut left = waiting.len();
    while left > 0 {
        left -= 1;
        let one = waiting.pop_front().unwrap();
        if one.targets.is_empty() {
            released.push_reserved((one.no, one.adapter));
        } else {
            waiting.push_back_reserved(one);
        }
    }
    waiting.into_vec()
}

/// The last notification that an adapter gets from a target. `index` is the index of the adapter among the adapters that have the target.
pub(crate) fn last_notice(no: AdapterNo, target: Node, index: usize) -> Notice
    requires { index ≤ TARGETS }
    ensures { result ≡ removing_notice no target index }
{
    Notice {
        notifier: target,
        feature: None,
        kind: NoticeKind::RemovingAdapter(no),
        old_value: Value::Null,
        new_value: Value::Null,
        position: index as i64,
        was_set: false,
    }
}

/// Replaces `numbers` by the numbers of the adapters, in the order of the adapters. Before the call `numbers` must have at least as many
/// numbers as there are adapters, so the call takes no memory.
fn renumber<A>(numbers: &mut IndexSet<AdapterNo>, attached: &[Attached<A>])
    requires room { length attached.now ≤ index_set_len numbers.old }
    requires distinct { IsDistinct same_no (numbers_of attached.now) }
    ensures keys { numbers.new.keys ≡ numbers_of attached.now }
{
    numbers.clear();
    for one in attached {
        let _ = numbers.insert(one.no);
    }
}
