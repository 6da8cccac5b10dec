//! The values of one end.
ghost use Rattle.std.specs.Prelude.{◌≡◌, true, ◌+◌, ◌≤◌, [], ◌∷◌, ◌++◌, OnOk};
ghost use Rattle.std.specs.List.{insert, remove};
ghost use Rattle.mm_types.specs.Lists.{values_after_move};
ghost use Rattle.end_values.specs.EndValues.{CanHave};
ghost use Rattle.node_slots.specs.Slots.{CanEdit, IsSlotEdited, no_pairing, slot_edit_capacity, slot_places};

use end_values::EndValueList;
use mm_types::{FeatureNo, Value};
use std::alloc::{AllocError, Global};

/// The opposite and the containing feature of a feature. An edit that puts an object into an end gives the `Pairing` of the end's feature.
#[derive(Clone, Copy)]
pub struct Pairing {
    /// The opposite of the feature, if it has one.
    pub opposite: Option<FeatureNo>,
    /// The containing feature: the feature or its opposite, if one of the two is a containment.
    pub container: Option<FeatureNo>,
}

/// One change of the values of an end, or of the capacity that is reserved for them.
#[derive(Drop)]
pub enum SlotEdit {
    /// Inserts a value at an index; if the index is past the last value, the value is put last. If the value is an object, `pairing` has
    /// the opposite and the containing feature of the end's feature. If `pairing` is `None`, the pairing of the slot stays as it is.
    Insert {
        index: usize,
        value: Value,
        pairing: Option<Pairing>,
    },
    /// Inserts a value after the last value. `pairing` has the opposite and the containing feature of the end's feature.
    Push {
        value: Value,
        pairing: Pairing,
    },
    /// Takes out the value at an index; if the index is past the last value, nothing changes.
    Remove {
        index: usize,
    },
    /// Takes out the value at `from` and inserts it at `to`, or last if `to` is past the last value. If `from` is past the last value,
    /// nothing changes.
    Move {
        to: usize,
        from: usize,
    },
    /// Takes back reserved capacity for `places` values. No value changes, and no memory is freed.
    Forget {
        places: usize,
    },
}

/// The values of a node under one feature.
#[derive(Drop)]
pub struct Slot {
    pub feature: FeatureNo,
    /// The opposite and the containing feature of `feature`, as the last put of an object gave them; both `None` if no object was put.
    pub pairing: Pairing,
    pub values: EndValueList,
    /// The number of further values for which capacity is reserved in `values`.
    pub promised: usize,
}

impl Slot {
    /// A slot for a feature, with no values. Takes no memory.
    pub fn new(feature: FeatureNo) -> Self
        ensures feature { result.feature ≡ feature }
        ensures values { result.values.items ≡ [] }
        ensures pairing { result.pairing ≡ no_pairing }
    {
        Slot {
            feature,
            pairing: Pairing {
                opposite: None,
                container: None,
            },
            values: EndValueList::new(),
            promised: 0,
        }
    }

    /// How many more values can be added in reserved capacity.
    pub fn places(&self) -> usize
        ensures { result ≡ slot_places self.now }
    {
        self.promised.min(self.values.spare())
    }

    /// Reserves capacity for one more value: for any value if `is_mixed`, otherwise for an object. Fails only if memory is refused; no
    /// value changes.
    pub fn promise(&mut self, alloc: Global, is_mixed: bool) -> Result<(), AllocError>
        ensures feature { self.new.feature ≡ self.old.feature }
        ensures values { self.new.values.items ≡ self.old.values.items }
        ensures pairing { self.new.pairing ≡ self.old.pairing }
        ensures places { slot_places self.old ≤ slot_places self.new }
        ensures mixed { self.old.values.mixed ≡ true → self.new.values.mixed ≡ true }
        ensures ok { OnOk result (slot_places self.old + 1 ≤ slot_places self.new) }
        ensures takes { OnOk result (is_mixed ≡ true → self.new.values.mixed ≡ true) }
    {
        if self.promised == usize::MAX {
            return Err(AllocError);
        }
        let promised = self.promised + 1;
        make_places(&mut self.values, alloc, promised, is_mixed)?;
        self.promised = promised;
        Ok(())
    }

    /// Makes one change. If the change adds a value, `promise` must have reserved capacity for it. The value must be an object, unless
    /// capacity was reserved for any value. A change must not take back more capacity than is reserved. Takes no memory.
    pub fn edit(&mut self, edit: SlotEdit)
        requires places { slot_edit_capacity edit ≤ slot_places self.old }
        requires can { CanEdit self.old.values.mixed edit }
        ensures { IsSlotEdited edit self.old self.new }
    {
        match edit {
            SlotEdit::Insert {
                index,
                value,
                pairing,
            } => {
                insert_in(&mut self.values, index, value);
                self.pairing = pairing.unwrap_or(self.pairing);
                self.promised -= 1;
            }
            SlotEdit::Push { value, pairing } => {
                push_in(&mut self.values, value);
                self.pairing = pairing;
                self.promised -= 1;
            }
            SlotEdit::Remove { index } => remove_value(&mut self.values, index),
            SlotEdit::Move { to, from } => move_in(&mut self.values, to, from),
            SlotEdit::Forget { places } => self.promised -= places,
        }
    }
}

/// Makes sure that there is capacity for `places` more values; if `is_mixed`, these may be values other than objects. Fails only if memory
/// is refused; no value changes.
fn make_places(
    values: &mut EndValueList,
    alloc: Global,
    places: usize,
    is_mixed: bool,
) -> Result<(), AllocError>
    ensures items { values.new.items ≡ values.old.items }
    ensures spare { values.old.spare ≤ values.new.spare }
    ensures mixed { values.old.mixed ≡ true → values.new.mixed ≡ true }
    ensures ok { OnOk result (places ≤ values.new.spare) }
    ensures takes { OnOk result (is_mixed ≡ true → values.new.mixed ≡ true) }
{
    if is_mixed {
        values.mix(alloc)?;
    }
    values.reserve(alloc, places)
}

/// Inserts a value at an index; if the index is past the last value, the value is put last. There has to be capacity for the value.
#[inline(always)]
fn insert_in(values: &mut EndValueList, index: usize, value: Value)
    requires room { 1 ≤ values.old.spare }
    requires can { CanHave values.old.mixed value }
    ensures items { values.new.items ≡ insert values.old.items index value }
    ensures places { values.old.spare ≤ values.new.spare + 1 }
    ensures mixed { values.new.mixed ≡ values.old.mixed }
{
    values.insert(index.min(values.len()), value);
}

/// Inserts a value after the last value. There has to be capacity for the value.
fn push_in(values: &mut EndValueList, value: Value)
    requires room { 1 ≤ values.old.spare }
    requires can { CanHave values.old.mixed value }
    ensures items { values.new.items ≡ values.old.items ++ value ∷ [] }
    ensures places { values.old.spare ≤ values.new.spare + 1 }
    ensures mixed { values.new.mixed ≡ values.old.mixed }
{
    insert_in(values, values.len(), value);
}

/// Takes out the value at an index; if the index is past the last value, nothing changes.
fn remove_value(values: &mut EndValueList, index: usize)
    ensures items { values.new.items ≡ remove values.old.items index }
    ensures places { values.old.spare ≤ values.new.spare }
    ensures mixed { values.new.mixed ≡ values.old.mixed }
{
    if index < values.len() {
        values.remove(index);
    }
}

fn move_in(values: &mut EndValueList, to: usize, from: usize)
    ensures items { values.new.items ≡ values_after_move values.old.items to from }
    ensures places { values.old.spare ≤ values.new.spare }
    ensures mixed { values.new.mixed ≡ values.old.mixed }
{
    let len = values.len();
    if from < len {
        values.move_to(to.min(len - 1), from);
    }
}
