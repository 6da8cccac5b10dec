//! A list of values whose hashes are counted.
ghost use Rattle.std.specs.Prelude.{◌≡◌, true, ℕ, ◌+◌, ◌<◌, ◌≤◌, [], length, Some, slice_get, position, option_copied, IfOk, IfSome, OnOk, OnErr};
ghost use Rattle.std.specs.List.{insert, list_any, remove};
ghost use Rattle.mm_types.specs.Same.{same_value};
ghost use Rattle.slot_lists.specs.Moved.{list_after_move};
ghost use Rattle.indexmap.specs.IndexMap.{spare as room_of};
ghost use Rattle.value_lists.specs.Hashes.{hash_of, is_at, Counts};

use crate::hash_counts::{HashCounts, hash_of};
use index_guesses::{Labels, is_tried, label_between, new_label};
use mm_types::Value;
use slot_lists::SlotList;
use std::alloc::{AllocError, Global};
use std::marker::Model;
use std::mem;

/// A list with a table that counts how many of its values have each hash. Contracts see the values and one capacity: the smaller one of the
/// capacities of the list and of the table.
#[derive(Drop)]
pub(crate) struct CountedList {
    list: SlotList<Value>,
    hashes: HashCounts,
    labels: Labels,
    /// Whether a value that is put in or moved between others gets a label between the labels of its neighbours. If not, a value that is
    /// put in between others gets a label computed from its index, and a value that is moved keeps its label.
    is_labelled: bool,
}

impl Model for CountedList {
    ghost use Rattle.std.specs.Coded.{codes};
    ghost use Rattle.slot_lists.specs.Places.{places_code};
    ghost use Rattle.value_lists.specs.Hashes.{ValuePlaces};

    ghost Value = { ValuePlaces };

    ghost coded = { Prim.hlevel (codes, places_code) };

    ghost use Rattle.value_lists.specs.Hashes.{places_in_both, Counts};

    ghost view = { λ a. places_in_both a.list a.hashes };

    ghost invariant = { λ a. Counts a.hashes a.list.items };
}

impl CountedList {
    /// No values, and no capacity. Takes no memory.
    fn new(alloc: Global) -> Self
        ensures { result.items ≡ [] }
    {
        CountedList {
            list: SlotList::new(alloc),
            hashes: HashCounts::new(alloc),
            labels: Labels::of(0),
            is_labelled: false,
        }
    }

    /// Moves a list into a `Box`, with the hashes of its values counted, and leaves an empty list. Fails only if memory is refused, and
    /// then the list stays where it is: the `Box` and the table are made before the list is moved.
    pub fn of(alloc: Global, list: &mut SlotList<Value>) -> Result<Box<CountedList>, AllocError>
        ensures items { IfOk result (λ c. c.value.items ≡ list.old.items) }
        ensures spare { IfOk result (λ c. list.old.spare ≤ c.value.spare) }
        ensures err { OnErr result (list.new ≡ list.old) }
    {
        let mut boxed = Box::new(alloc, CountedList::new(alloc))?;
        let hashes = counted(alloc, list)?;
        let labels = Labels::of(list.len());
        *boxed = CountedList {
            list: mem::replace(list, SlotList::new(alloc)),
            hashes,
            labels,
            is_labelled: false,
        };
        Ok(boxed)
    }

    /// How many values there are.
    pub fn len(&self) -> usize
        ensures { result ≡ length self.now.items }
    {
        self.list.len()
    }

    /// The value at an index; `None` past the end.
    pub fn get(&self, index: usize) -> Option<&Value>
        ensures { option_copied result ≡ slice_get self.now.items index }
    {
        self.list.get(index)
    }

    /// The index of the first value that is the same as `value`; `None` if there is none. There are two cases in which the list is not gone
    /// through: no value of the list has the hash of `value`; or only one value of the list has this hash, and `value` is found by the
    /// label of the hash. In the second case no other value is the same as `value`.
    pub fn position(&self, value: &Value) -> Option<usize>
        ensures { result ≡ position (same_value value.now) self.now.items }
    {
        let Some(counted) = self.hashes.get(hash_of(value)) else {
            return None;
        };
        if counted.count == 1 {
            if let Some(index) = self.find(counted.label, value) {
                return Some(index);
            }
        }
        self.list.position(value)
    }

    /// Whether a value of the list is the same as `value`. There are two cases in which the list is not gone through: no value of the list
    /// has the hash of `value`, or `value` is found by the label of this hash.
    pub fn has(&self, value: &Value) -> bool
        ensures { result ≡ list_any (same_value value.now) self.now.items }
    {
        let Some(counted) = self.hashes.get(hash_of(value)) else {
            return false;
        };
        if self.find(counted.label, value).is_some() {
            return true;
        }
        self.list.position(value).is_some()
    }

    /// An index at which `value` is, guessed by `label`, the label of the hash of `value`; `None` if `value` is at no guessed index.
    fn find(&self, label: u64, value: &Value) -> Option<usize>
        ensures { IfSome result (λ i. is_at value.now i self.now.items ≡ true) }
    {
        let index = self.labels.from_front(label);
        if self.has_at(index, value) {
            return Some(index);
        }
        self.find_farther(label, value)
    }

    /// An index at which `value` is, guessed by `label`, the label of the hash of `value`; `None` if `value` is at no guessed index. `find`
    /// calls this function if its own guess is wrong. The guess of `find` is right if `label` is still the label of `value`, the label of
    /// the first value of the list is known exactly, and the labels from that label up to `label` are as far apart as new labels are.
    #[cold]
    fn find_farther(&self, label: u64, value: &Value) -> Option<usize>
        ensures { IfSome result (λ i. is_at value.now i self.now.items ≡ true) }
    {
        let index = self.labels.from_end(label, self.list.len());
        if self.has_at(index, value) {
            return Some(index);
        }
        let index = self
            .labels
            .search(self.list.len(), label, |index| self.label_at(index));
        if self.has_at(index, value) {
            return Some(index);
        }
        None
    }

    /// Whether the value at an index is the same as `value`; false past the end.
    fn has_at(&self, index: usize, value: &Value) -> bool
        ensures { result ≡ is_at value.now index self.now.items }
    {
        match self.list.get(index) {
            Some(other) => value == other,
            None => false,
        }
    }

    /// The label of the hash of the value at an index; 0 past the end.
    fn label_at(&self, index: usize) -> u64 {
        let Some(value) = self.list.get(index) else {
            return 0;
        };
        match self.hashes.get(hash_of(value)) {
            Some(counted) => counted.label,
            None => 0,
        }
    }

    /// Reserves capacity for `additional` more values, in the list and in the table. Fails only if memory is refused, and then the values
    /// stay and no capacity is lost.
    pub fn reserve(&mut self, additional: usize) -> Result<(), AllocError>
        ensures items { self.new.items ≡ self.old.items }
        ensures ok { OnOk result (additional ≤ self.new.spare) }
        ensures spare { self.old.spare ≤ self.new.spare }
    {
        self.list.reserve(additional)?;
        self.hashes.reserve(additional)
    }

    /// Inserts a value before the value at `index`, or at the end if `index` is the length of the list. There has to be capacity for the
    /// value. Takes no memory.
    pub fn insert(&mut self, index: usize, value: Value)
        requires room { 0 < self.old.spare }
        requires in_range { index ≤ length self.old.items }
        ensures items { self.new.items ≡ insert self.old.items index value }
        ensures spare { self.old.spare ≤ self.new.spare + 1 }
    {
        let hash = hash_of(&value);
        let label = self.label_before(index);
        match self.list.insert(index, value) {
            Ok(()) => {}
            Err(_) => unreachable!(),
        }
        // The length is a usize, so no count overflows.
        let len = self.list.len();
        self.hashes.add(hash, label);
        self.labels.put(label, len);
    }

    /// A label for a value that is to be put in before the value at `index`, or at the end if `index` is the length of the list.
    fn label_before(&self, index: usize) -> u64 {
        if index == self.list.len() {
            return self.labels.after();
        }
        if index == 0 {
            return self.labels.before();
        }
        if self.is_labelled {
            return self.label_amid(index, index);
        }
        self.labels.near(index)
    }

    /// A label between the label of the value before `index` and the label of the value at `next`; the first of these two labels if no
    /// label is between them. If there is no value at `next`, the label is greater than the last label. Otherwise, if there is no value
    /// before `index`, the label is less than the first label.
    #[cold]
    fn label_amid(&self, index: usize, next: usize) -> u64 {
        if next >= self.list.len() {
            return self.labels.after();
        }
        match index.checked_sub(1) {
            Some(before) => label_between(self.label_at(before), self.label_at(next)),
            None => self.labels.before(),
        }
    }

    /// Takes out the value at an index. Takes no memory.
    pub fn remove(&mut self, index: usize)
        requires { index < length self.old.items }
        ensures items { self.new.items ≡ remove self.old.items index }
        ensures spare { self.old.spare ≤ self.new.spare }
    {
        self.try_label(index);
        let value = self.list.remove(index);
        self.hashes.take(hash_of(&value));
        self.labels.take(index, self.list.len());
    }

    /// Called before the value at an index is taken out. If `is_tried` selects the index, checks whether the value is found by its label.
    /// If the value is not found, all values get new labels, and `is_labelled` is set.
    fn try_label(&mut self, index: usize)
        ensures items { self.new.items ≡ self.old.items }
        ensures spare { self.new.spare ≡ self.old.spare }
    {
        if is_tried(index) && !self.is_found(index) {
            self.label_all();
        }
    }

    /// Whether the value at an index, or another value that is the same, is found by the label of its hash; false past the end.
    #[cold]
    fn is_found(&self, index: usize) -> bool {
        match self.list.get(index) {
            Some(value) => match self.hashes.get(hash_of(value)) {
                Some(counted) => self.find(counted.label, value).is_some(),
                None => false,
            },
            None => false,
        }
    }

    /// Gives all values new labels, and sets `is_labelled`. If several values have a hash, the new label of the last of them becomes the
    /// label of the hash.
    #[cold]
    fn label_all(&mut self)
        ensures items { self.new.items ≡ self.old.items }
        ensures spare { self.new.spare ≡ self.old.spare }
    {
        self.is_labelled = true;
        let len = self.list.len();
        self.labels = Labels::of(len);
        for index in 0..len {
            self.hashes
                .label(hash_at(&self.list, index), new_label(index));
        }
    }

    /// Moves the value at `from`, so that it is then at `to`. Takes no memory.
    pub fn move_to(&mut self, to: usize, from: usize)
        requires to { to < length self.old.items }
        requires from { from < length self.old.items }
        ensures items { self.new.items ≡ list_after_move self.old.items to from }
        ensures spare { self.new.spare ≡ self.old.spare }
    {
        self.list.move_to(to, from);
        self.label_moved(to);
    }

    /// If `is_labelled` is set, gives a new label to the value that was moved to `index`: a label between the labels of its neighbours, or
    /// beyond all labels if the value is now the first or the last.
    fn label_moved(&mut self, index: usize)
        ensures items { self.new.items ≡ self.old.items }
        ensures spare { self.new.spare ≡ self.old.spare }
    {
        if !self.is_labelled {
            return;
        }
        let label = self.label_amid(index, index.saturating_add(1));
        if let Some(value) = self.list.get(index) {
            self.hashes.label(hash_of(value), label);
            self.labels.put(label, self.list.len());
        }
    }

    /// Takes the list out, without its table and with all its capacity, and leaves an empty list. Takes no memory.
    pub fn take_list(&mut self, alloc: Global) -> SlotList<Value>
        ensures items { result.items ≡ self.old.items }
        ensures spare { self.old.spare ≤ result.spare }
    {
        let CountedList { list, .. } = mem::replace(self, CountedList::new(alloc));
        list
    }
}

/// A table that counts the hashes of the values of a list, and gives the values new labels. The table has capacity for as many more values
/// as the list can take without memory. Fails only if memory is refused.
fn counted(alloc: Global, list: &SlotList<Value>) -> Result<HashCounts, AllocError>
    ensures counts { IfOk result (λ t. Counts t list.now.items) }
    ensures room { IfOk result (λ t. list.now.spare ≤ room_of t.counts) }
{
    let len = list.len();
    let places = len.checked_add(list.spare()).ok_or(AllocError)?;
    let mut hashes = HashCounts::with_capacity(alloc, places)?;
    for index in 0..len {
        hashes.add(hash_at(list, index), new_label(index));
    }
    Ok(hashes)
}

/// The hash of the value at an index.
fn hash_at(list: &SlotList<Value>, index: usize) -> u64
    requires { index < length list.now.items }
    ensures { IfSome (slice_get list.now.items index) (λ v. result ≡ hash_of v) }
{
    match list.get(index) {
        Some(value) => hash_of(value),
        None => unreachable!(),
    }
}
