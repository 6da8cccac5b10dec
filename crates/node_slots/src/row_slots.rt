//! The slots of a node.
ghost use Rattle.std.specs.Prelude.{◌≡◌, true, ◌+◌, ◌≤◌, [], ◌∷◌, ◌++◌, is_ok, position, if◌then◌else◌, IfOk, None, OnErr, OnOk};
ghost use Rattle.mm_types.specs.Same.{same_feature};
ghost use Rattle.node_slots.specs.Slots.{AreSlotsEdited, AreSlotsGrown, CanEdit, mixed_of, places_of, slot_edit_capacity, slot_in};

use crate::slot::{Slot, SlotEdit};
use mm_types::FeatureNo;
use std::alloc::{AllocError, Global};
use std::marker::Model;
use std::{mem, slice};

/// The layout of slots in memory. Most nodes with slots have one slot, which takes no block of memory of its own.
#[derive(Drop)]
enum Layout {
    Empty,
    One(Slot),
    Many(Vec<Slot>),
}

/// The slots of a node, in the order in which they were made. A feature never has two slots, but contracts don't say this: they see a list
/// in which only the first slot of a feature counts.
#[derive(Drop)]
pub struct RowSlots {
    layout: Layout,
}

impl Model for RowSlots {
    ghost use Rattle.std.specs.Prelude.{List};
    ghost use Rattle.node_slots.specs.RowSlots.{slots_of};
    ghost use Rattle.node_slots.specs.declared.slot.Slot.{Slot};

    ghost Value = { List Slot };

    ghost view = { λ s. slots_of s.layout };
}

impl RowSlots {
    /// No slots. Takes no memory.
    pub fn new() -> Self
        ensures { result ≡ [] }
    {
        RowSlots {
            layout: Layout::Empty,
        }
    }

    /// The slots, as a slice.
    pub fn as_slice(&self) -> &[Slot]
        ensures { result.now ≡ self.now }
    {
        match &self.layout {
            Layout::Empty => no_slots(),
            Layout::One(slot) => slice::from_ref(slot),
            Layout::Many(slots) => slots.as_slice(),
        }
    }

    /// Changes the values of a feature, or takes back capacity that was reserved for them. If the feature has no slot, nothing changes.
    pub fn edit(&mut self, feature: FeatureNo, edit: SlotEdit)
        requires places { slot_edit_capacity edit ≤ places_of (slot_in self.old feature) }
        requires can { CanEdit (mixed_of (slot_in self.old feature)) edit }
        ensures { AreSlotsEdited feature edit self.old self.new }
    {
        match &mut self.layout {
            Layout::Empty => drop(edit),
            Layout::One(slot) => edit_one(slot, feature, edit),
            Layout::Many(slots) => edit_slot(slots, feature, edit),
        }
    }

    /// Makes a slot for a feature, if the feature has none. Fails only if memory is refused; no value changes.
    pub fn add(&mut self, alloc: Global, feature: FeatureNo) -> Result<(), AllocError>
        ensures grown { AreSlotsGrown self.old self.new }
        ensures ok { OnOk result ((slot_in self.new feature ≡ None) → ⊥) }
    {
        match &mut self.layout {
            Layout::Empty => {
                self.layout = Layout::One(Slot::new(feature));
                Ok(())
            }
            Layout::One(slot) => {
                if is_of(slot, feature) {
                    return Ok(());
                }
                let slots = with_new(alloc, slot, feature)?;
                self.layout = Layout::Many(slots);
                Ok(())
            }
            Layout::Many(slots) => add_slot(slots, feature),
        }
    }

    /// Reserves capacity for one more value in the slot of a feature. The feature has to have a slot. The capacity is for any value if
    /// `is_mixed`, otherwise for an object. Fails only if memory is refused; no value changes.
    pub fn promise(
        &mut self,
        alloc: Global,
        feature: FeatureNo,
        is_mixed: bool,
    ) -> Result<(), AllocError>
        requires { (slot_in self.old feature ≡ None) → ⊥ }
        ensures grown { AreSlotsGrown self.old self.new }
        ensures ok { OnOk result (places_of (slot_in self.old feature) + 1 ≤ places_of (slot_in self.new feature)) }
        ensures takes { OnOk result (is_mixed ≡ true → mixed_of (slot_in self.new feature) ≡ true) }
    {
        match &mut self.layout {
            Layout::Empty => unreachable!(),
            Layout::One(slot) => promise_one(slot, alloc, feature, is_mixed),
            Layout::Many(slots) => promise_in(slots, feature, is_mixed),
        }
    }
}

fn no_slots<'s>() -> &'s [Slot]
    ensures { result.now ≡ [] }
{
    &[]
}

/// Whether a slot is the slot of a given feature.
fn is_of(slot: &Slot, feature: FeatureNo) -> bool
    ensures { result ≡ same_feature slot.now.feature feature }
{
    slot.feature == feature
}

/// The index of the first slot of a feature; `None` if the feature has no slot.
pub(crate) fn slot_index(slots: &[Slot], feature: FeatureNo) -> Option<usize>
    ensures { result ≡ position (λ s. same_feature s.feature feature) slots.now }
{
    slots.iter().position(|slot| slot.feature == feature)
}

/// Makes one change of `slot`, the only slot of a node, if it is the slot of `feature`. If it is the slot of a different feature, nothing
/// changes.
fn edit_one(slot: &mut Slot, feature: FeatureNo, edit: SlotEdit)
    requires places { slot_edit_capacity edit ≤ places_of (slot_in (slot.old ∷ []) feature) }
    requires can { CanEdit (mixed_of (slot_in (slot.old ∷ []) feature)) edit }
    ensures { AreSlotsEdited feature edit (slot.old ∷ []) (slot.new ∷ []) }
{
    if is_of(slot, feature) {
        slot.edit(edit)
    } else {
        drop(edit)
    }
}

/// Changes the values of a feature, or takes back capacity that was reserved for them. If the feature has no slot, nothing changes.
fn edit_slot(slots: &mut Vec<Slot>, feature: FeatureNo, edit: SlotEdit)
    requires places { slot_edit_capacity edit ≤ places_of (slot_in slots.old.items feature) }
    requires can { CanEdit (mixed_of (slot_in slots.old.items feature)) edit }
    ensures { AreSlotsEdited feature edit slots.old.items slots.new.items }
{
    match slot_index(slots, feature) {
        Some(index) => slots[index].edit(edit),
        None => drop(edit),
    }
}

/// Moves `slot`, the only slot of a node, into a new list, adds a slot for `feature` to the list, and returns the list. `slot` has to be of
/// a feature other than `feature`. After the call `slot` is an empty slot. Fails only if memory is refused, and then `slot` stays as it is.
fn with_new(alloc: Global, slot: &mut Slot, feature: FeatureNo) -> Result<Vec<Slot>, AllocError>
    ensures grown { IfOk result (λ v. AreSlotsGrown (slot.old ∷ []) v.items) }
    ensures ok { IfOk result (λ v. (slot_in v.items feature ≡ None) → ⊥) }
    ensures err { OnErr result (slot.new ≡ slot.old) }
{
    let mut slots = Vec::with_capacity(alloc, 2)?;
    slots.push_reserved(mem::replace(slot, Slot::new(feature)));
    slots.push_reserved(Slot::new(feature));
    Ok(slots)
}

/// Adds a slot. If there is no capacity for the slot, first reserves capacity for it and for further slots, half as many as the list has.
/// Fails only if memory is refused, and then nothing has changed.
fn push_slot(slots: &mut Vec<Slot>, slot: Slot) -> Result<(), AllocError>
    ensures { slots.new.items ≡ (if is_ok result then slots.old.items ++ slot ∷ [] else slots.old.items) }
{
    if slots.len() == slots.capacity() {
        slots.reserve_exact(slots.len() / 2 + 1)?;
    }
    slots.push(slot)?;
    Ok(())
}

/// Makes a slot for a feature, if the feature has none. Fails only if memory is refused; no value changes.
fn add_slot(slots: &mut Vec<Slot>, feature: FeatureNo) -> Result<(), AllocError>
    ensures grown { AreSlotsGrown slots.old.items slots.new.items }
    ensures ok { OnOk result ((slot_in slots.new.items feature ≡ None) → ⊥) }
{
    if slot_index(slots, feature).is_some() {
        return Ok(());
    }
    push_slot(slots, Slot::new(feature))?;
    Ok(())
}

/// Reserves capacity for one more value in `slot`, the only slot of a node; it has to be the slot of `feature`. The capacity is for any
/// value if `is_mixed`, otherwise for an object. Fails only if memory is refused; no value changes.
fn promise_one(
    slot: &mut Slot,
    alloc: Global,
    feature: FeatureNo,
    is_mixed: bool,
) -> Result<(), AllocError>
    requires { (slot_in (slot.old ∷ []) feature ≡ None) → ⊥ }
    ensures grown { AreSlotsGrown (slot.old ∷ []) (slot.new ∷ []) }
    ensures ok { OnOk result (places_of (slot_in (slot.old ∷ []) feature) + 1 ≤ places_of (slot_in (slot.new ∷ []) feature)) }
    ensures takes { OnOk result (is_mixed ≡ true → mixed_of (slot_in (slot.new ∷ []) feature) ≡ true) }
{
    if is_of(slot, feature) {
        slot.promise(alloc, is_mixed)
    } else {
        unreachable!()
    }
}

/// Reserves capacity for one more value in the slot of a feature. The feature has to have a slot. The capacity is for any value if
/// `is_mixed`, otherwise for an object. Fails only if memory is refused; no value changes.
fn promise_in(slots: &mut Vec<Slot>, feature: FeatureNo, is_mixed: bool) -> Result<(), AllocError>
    requires { (slot_in slots.old.items feature ≡ None) → ⊥ }
    ensures grown { AreSlotsGrown slots.old.items slots.new.items }
    ensures ok { OnOk result (places_of (slot_in slots.old.items feature) + 1 ≤ places_of (slot_in slots.new.items feature)) }
    ensures takes { OnOk result (is_mixed ≡ true → mixed_of (slot_in slots.new.items feature) ≡ true) }
{
    match slot_index(slots, feature) {
        Some(index) => {
            let alloc = *slots.allocator();
            slots[index].promise(alloc, is_mixed)
        }
        None => unreachable!(),
    }
}
