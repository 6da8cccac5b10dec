//! The row of a node: what is kept of this node.
ghost use Rattle.std.specs.Prelude.{◌≡◌, true, ℕ, ◌+◌, ◌≤◌, ◌<◌, [], ◌∷◌, ◌++◌, is_ok, length, option_copied, position, if◌then◌else◌, IfOk, None, OnOk, Some};
ghost use Rattle.std.specs.List.{remove};
ghost use Rattle.mm_types.specs.Same.{same_feature};
ghost use Rattle.node_slots.specs.Slots.{AreSlotsEdited, AreSlotsGrown, CanEdit, mixed_of, places_of, slot_edit_capacity, slot_in};
ghost use Rattle.node_slots.specs.Rows.{IsRowEdited, IsRowGrown, IsRowReordered, RowFits, row_entries};

use crate::order::put_in_order;
use crate::row_slots::{RowSlots, slot_index};
use crate::slot::{Slot, SlotEdit};
use mm_types::{End, FeatureNo};
use slot_lists::ShortList;
use std::alloc::{AllocError, Global};

/// One change of the row of a node.
#[derive(Drop)]
pub enum RowEdit {
    /// Changes the values of a feature, or takes back capacity that was reserved for them.
    Change(FeatureNo, SlotEdit),
    /// Records which end contains the node; `None` if no end contains the node.
    Hold(Option<End>),
    /// Adds an end that has the node as a value and has no opposite.
    Enter(End),
    /// Of the ends with no opposite that have the node as a value, takes out the one at this index. If the index is past the last of these
    /// ends, nothing changes.
    Leave(usize),
    /// Takes back reserved capacity for this number of ends with no opposite that have the node as a value. No end changes.
    ForgetEntries(usize),
}

/// What is kept of one node: its values, the end that contains it, and the ends with no opposite that have it as a value.
#[derive(Drop)]
pub struct Row {
    pub slots: RowSlots,
    /// The end that contains the node.
    pub holder: Option<End>,
    /// The ends with no opposite that have the node as a value. They are in the order in which they were added, except that `order_entries`
    /// sorts the ends that are there when it is called.
    pub entered: ShortList<End>,
    /// The number of further ends for which capacity is reserved in `entered`.
    pub promised: usize,
}

impl Row {
    /// The row of a node that has no values, is contained in no end, and is a value of no end. Takes no memory.
    pub fn new() -> Self
        ensures slots { result.slots ≡ [] }
        ensures holder { result.holder ≡ None }
        ensures entered { result.entered.items ≡ [] }
    {
        Row {
            slots: RowSlots::new(),
            holder: None,
            entered: ShortList::new(),
            promised: 0,
        }
    }

    /// The slot of a feature; `None` if the feature has no slot, and so no values.
    pub fn slot(&self, feature: FeatureNo) -> Option<&Slot>
        ensures { option_copied result ≡ slot_in self.now.slots feature }
    {
        let slots = self.slots.as_slice();
        match slot_index(slots, feature) {
            Some(index) => Some(&slots[index]),
            None => None,
        }
    }

    /// Makes one change. If the change adds a value or an end, `promise` or `promise_entry` must have reserved capacity for it. A value
    /// that is put in must be an object, unless capacity was reserved for any value. A change must not take back more capacity than is
    /// reserved. Takes no memory.
    pub fn edit(&mut self, edit: RowEdit)
        requires { RowFits edit (Some self.old) }
        ensures { IsRowEdited edit (Some self.old) (Some self.new) }
    {
        match edit {
            RowEdit::Change(feature, edit) => self.slots.edit(feature, edit),
            RowEdit::Hold(holder) => self.holder = holder,
            RowEdit::Enter(end) => {
                push_on(&mut self.entered, end);
                self.promised -= 1;
            }
            RowEdit::Leave(index) => remove_from(&mut self.entered, index),
            RowEdit::ForgetEntries(places) => self.promised -= places,
        }
    }

    /// Sorts the ends with no opposite that have the node as a value, by the numbers that `entry_rank` gives. Takes no memory.
    pub fn order_entries(&mut self)
        ensures { IsRowReordered (Some self.old) (Some self.new) }
    {
        put_in_order(&mut self.entered);
    }

    /// Reserves capacity for one more value of a feature: for any value if `is_mixed`, otherwise for an object. Fails only if memory is
    /// refused; no value changes.
    pub fn promise(
        &mut self,
        alloc: Global,
        feature: FeatureNo,
        is_mixed: bool,
    ) -> Result<(), AllocError>
        ensures grown { IsRowGrown (Some self.old) (Some self.new) }
        ensures ok { OnOk result (places_of (slot_in self.old.slots feature) + 1 ≤ places_of (slot_in self.new.slots feature)) }
        ensures takes { OnOk result (is_mixed ≡ true → mixed_of (slot_in self.new.slots feature) ≡ true) }
    {
        self.slots.add(alloc, feature)?;
        self.slots.promise(alloc, feature, is_mixed)
    }

    /// How many more ends can be added to `entered` in reserved capacity.
    pub fn entries(&self) -> usize
        ensures { result ≡ row_entries (Some self.now) }
    {
        self.promised.min(self.entered.spare())
    }

    /// Reserves capacity for one more end that has the node as a value and has no opposite. Fails only if memory is refused; no end
    /// changes.
    pub fn promise_entry(&mut self, alloc: Global) -> Result<(), AllocError>
        ensures grown { IsRowGrown (Some self.old) (Some self.new) }
        ensures ok { OnOk result (row_entries (Some self.old) + 1 ≤ row_entries (Some self.new)) }
    {
        if self.promised == usize::MAX {
            return Err(AllocError);
        }
        let promised = self.promised + 1;
        self.entered.reserve(alloc, promised)?;
        self.promised = promised;
        Ok(())
    }
}

/// Adds an end after the last one. There has to be capacity for the end.
fn push_on(ends: &mut ShortList<End>, end: End)
    requires { 1 ≤ ends.old.spare }
    ensures items { ends.new.items ≡ ends.old.items ++ end ∷ [] }
    ensures places { ends.old.spare ≤ ends.new.spare + 1 }
{
    ends.insert(ends.len(), end);
}

/// Takes out the end at an index. If the index is past the last end, nothing changes.
fn remove_from(ends: &mut ShortList<End>, index: usize)
    ensures items { ends.new.items ≡ remove ends.old.items index }
    ensures places { ends.old.spare ≤ ends.new.spare }
{
    if index < ends.len() {
        ends.remove(index);
    }
}
