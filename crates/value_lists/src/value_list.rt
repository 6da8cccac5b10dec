//! A list of values that may be looked up by value.
ghost use Rattle.std.specs.Prelude.{◌≡◌, ◌+◌, ◌<◌, ◌≤◌, [], ◌∷◌, length, slice_get, position, option_copied, vec_len, IfOk, OnErr, OnOk};
ghost use Rattle.std.specs.List.{insert, list_any, remove};
ghost use Rattle.mm_types.specs.Same.{same_value};
ghost use Rattle.slot_lists.specs.Moved.{list_after_move};
ghost use Rattle.value_lists.specs.ValueList.{places_of};

use crate::counted_list::CountedList;
use mm_types::Value;
use slot_lists::SlotList;
use std::alloc::{AllocError, Global};
use std::marker::Model;
use std::{mem, slice};

/// `reserve` counts the hashes of a list that is looked up by value, if the list has more values than this, or would have them after the
/// inserts for which `reserve` makes capacity.
const SHORT: usize = 64;

/// The layout of a list in memory. If the hashes of a list are counted, the list is in a `Box` together with the table of its hashes, so
/// that a list without a table needs no bytes for a table. Most lists are of single features: their one value is in the list itself, and
/// takes no block of memory.
#[derive(Drop)]
enum Layout {
    Empty,
    One(Value),
    Plain(SlotList<Value>),
    Counted(Box<CountedList>),
}

/// A list of values. If the list is long and is looked up by value, `reserve` makes a table that counts how many of the values have each
/// hash. Contracts see the values, and the capacity for more values.
#[derive(Drop)]
pub struct ValueList {
    layout: Layout,
}

impl Model for ValueList {
    ghost use Rattle.std.specs.Coded.{codes};
    ghost use Rattle.slot_lists.specs.Places.{places_code};
    ghost use Rattle.value_lists.specs.Hashes.{ValuePlaces};

    ghost Value = { ValuePlaces };

    ghost coded = { Prim.hlevel (codes, places_code) };

    ghost use Rattle.value_lists.specs.ValueList.{places_of};

    ghost view = { λ a. places_of a.layout };
}

impl ValueList {
    /// No values. Takes no memory.
    pub fn new() -> Self
        ensures { result.items ≡ [] }
    {
        ValueList {
            layout: Layout::Empty,
        }
    }

    /// One value. Takes no memory.
    pub fn of_one(value: Value) -> Self
        ensures { result.items ≡ value ∷ [] }
    {
        ValueList {
            layout: Layout::One(value),
        }
    }

    /// A list of the values of a `Vec`. Two or more values stay in the block of the `Vec`. Takes no memory.
    pub fn from_vec(values: Vec<Value>) -> Self
        ensures { result.items ≡ values.items }
    {
        ValueList {
            layout: layout_of(values),
        }
    }

    /// How many values there are.
    pub fn len(&self) -> usize
        ensures { result ≡ length self.now.items }
    {
        match &self.layout {
            Layout::Empty => 0,
            Layout::One(_) => 1,
            Layout::Plain(list) => list.len(),
            Layout::Counted(counted) => counted.len(),
        }
    }

    /// The value at an index; `None` past the end.
    pub fn get(&self, index: usize) -> Option<&Value>
        ensures { option_copied result ≡ slice_get self.now.items index }
    {
        match &self.layout {
            Layout::Empty => None,
            Layout::One(value) => slice::from_ref(value).get(index),
            Layout::Plain(list) => list.get(index),
            Layout::Counted(counted) => counted.get(index),
        }
    }

    /// The index of the first value that is the same as `value`; `None` if there is none. If the hashes are counted, there are two cases in
    /// which the list is not gone through: no value of the list has the hash of `value`; or only one value of the list has this hash, and
    /// `value` is found by the label of the hash.
    pub fn position(&self, value: &Value) -> Option<usize>
        ensures { result ≡ position (same_value value.now) self.now.items }
    {
        match &self.layout {
            Layout::Empty => None,
            Layout::One(kept) if value == kept => Some(0),
            Layout::One(_) => None,
            Layout::Plain(list) => list.position(value),
            Layout::Counted(counted) => counted.position(value),
        }
    }

    /// Whether a value of the list is the same as `value`. If the hashes are counted, there are two cases in which the list is not gone
    /// through: no value of the list has the hash of `value`, or `value` is found by the label of this hash.
    pub fn has(&self, value: &Value) -> bool
        ensures { result ≡ list_any (same_value value.now) self.now.items }
    {
        match &self.layout {
            Layout::Empty => false,
            Layout::One(kept) => value == kept,
            Layout::Plain(list) => list.position(value).is_some(),
            Layout::Counted(counted) => counted.has(value),
        }
    }

    /// Reserves capacity for `additional` more values. `is_asked` says whether the list is looked up by value; if so, the hashes of a long
    /// list are counted (`SHORT`). Fails only if memory is refused, and then the values stay and no capacity is lost.
    pub fn reserve(
        &mut self,
        alloc: Global,
        additional: usize,
        is_asked: bool,
    ) -> Result<(), AllocError>
        ensures items { self.new.items ≡ self.old.items }
        ensures ok { OnOk result (additional ≤ self.new.spare) }
        ensures spare { self.old.spare ≤ self.new.spare }
    {
        match &mut self.layout {
            Layout::Empty if additional <= 1 => {}
            Layout::Empty => self.layout = Layout::Plain(with_places(alloc, additional)?),
            Layout::One(_) if additional == 0 => {}
            Layout::One(value) => {
                self.layout = Layout::Plain(in_block(alloc, value, additional)?);
            }
            Layout::Plain(list) => list.reserve(additional)?,
            Layout::Counted(counted) => counted.reserve(additional)?,
        }
        if is_asked {
            self.count_hashes(alloc, additional)?;
        }
        Ok(())
    }

    /// Counts the hashes of the list, if the list has more than `SHORT` values, or would have them after `additional` inserts. Fails only
    /// if memory is refused, and then nothing has changed.
    fn count_hashes(&mut self, alloc: Global, additional: usize) -> Result<(), AllocError>
        ensures items { self.new.items ≡ self.old.items }
        ensures spare { self.old.spare ≤ self.new.spare }
    {
        if let Layout::Plain(list) = &mut self.layout {
            if list.len().saturating_add(additional) > SHORT {
                let counted = CountedList::of(alloc, list)?;
                self.layout = Layout::Counted(counted);
            }
        }
        Ok(())
    }

    /// Inserts a value before the value at `index`, or at the end if `index` is the length of the list. There has to be capacity for the
    /// value. Takes no memory.
    pub fn insert(&mut self, index: usize, value: Value)
        requires room { 0 < self.old.spare }
        requires in_range { index ≤ length self.old.items }
        ensures items { self.new.items ≡ insert self.old.items index value }
        ensures spare { self.old.spare ≤ self.new.spare + 1 }
    {
        match &mut self.layout {
            Layout::Empty => self.layout = Layout::One(value),
            Layout::One(_) => unreachable!(),
            Layout::Plain(list) => match list.insert(index, value) {
                Ok(()) => {}
                Err(_) => unreachable!(),
            },
            Layout::Counted(counted) => counted.insert(index, value),
        }
    }

    /// Takes out the value at an index. Takes no memory.
    pub fn remove(&mut self, index: usize)
        requires { index < length self.old.items }
        ensures items { self.new.items ≡ remove self.old.items index }
        ensures spare { self.old.spare ≤ self.new.spare }
    {
        match &mut self.layout {
            Layout::Empty | Layout::One(_) => self.layout = Layout::Empty,
            Layout::Plain(list) => {
                list.remove(index);
            }
            Layout::Counted(counted) => counted.remove(index),
        }
    }

    /// Moves the value at `from`, so that it is then at `to`. Takes no memory.
    #[tactic(auto, using(crate::proofs::ShortLemmas::moved_one))]
    pub fn move_to(&mut self, to: usize, from: usize)
        requires to { to < length self.old.items }
        requires from { from < length self.old.items }
        ensures items { self.new.items ≡ list_after_move self.old.items to from }
        ensures spare { self.new.spare ≡ self.old.spare }
    {
        match &mut self.layout {
            Layout::Empty | Layout::One(_) => {}
            Layout::Plain(list) => list.move_to(to, from),
            Layout::Counted(counted) => counted.move_to(to, from),
        }
    }

    /// Replaces the values by the values of a `Vec`. The hashes of the new values are not counted until `reserve` is called with
    /// `is_asked`. Takes no memory.
    pub fn replace(&mut self, values: Vec<Value>)
        ensures items { self.new.items ≡ values.items }
        ensures spare { self.old.spare ≤ self.new.spare + vec_len values }
    {
        match &mut self.layout {
            Layout::Empty | Layout::One(_) => self.layout = layout_of(values),
            Layout::Plain(list) => list.replace(values),
            Layout::Counted(counted) => {
                let mut list = counted.take_list(*values.allocator());
                list.replace(values);
                self.layout = Layout::Plain(list);
            }
        }
    }

    /// Replaces the values by one value. Takes no memory.
    pub fn replace_by_one(&mut self, alloc: Global, value: Value)
        ensures items { self.new.items ≡ value ∷ [] }
        ensures spare { self.old.spare ≤ self.new.spare + 1 }
    {
        match &mut self.layout {
            Layout::Empty | Layout::One(_) => self.layout = Layout::One(value),
            Layout::Plain(list) => {
                let list = mem::replace(list, SlotList::new(alloc));
                self.layout = layout_of_one(alloc, list, value);
            }
            Layout::Counted(counted) => {
                let list = counted.take_list(alloc);
                self.layout = layout_of_one(alloc, list, value);
            }
        }
    }
}

/// The layout of the values of a `Vec`. Two or more values stay in the block of the `Vec`.
fn layout_of(mut values: Vec<Value>) -> Layout
    ensures items { (places_of result).items ≡ values.items }
    ensures spare { 1 ≤ (places_of result).spare + vec_len values }
{
    if values.len() > 1 {
        return Layout::Plain(SlotList::from_vec(values));
    }
    match values.pop() {
        Some(value) => Layout::One(value),
        None => Layout::Empty,
    }
}

/// The layout of a list after its values are replaced by one value. The list keeps its memory only if it had capacity for at least two more
/// values before.
fn layout_of_one(alloc: Global, mut list: SlotList<Value>, value: Value) -> Layout
    ensures items { (places_of result).items ≡ value ∷ [] }
    ensures spare { list.spare ≤ (places_of result).spare + 1 }
{
    if list.spare() <= 1 {
        return Layout::One(value);
    }
    list.replace(Vec::new(alloc));
    match list.insert(0, value) {
        Ok(()) => Layout::Plain(list),
        Err(_) => unreachable!(),
    }
}

/// A list of no values, with capacity for `places` values. Fails only if memory is refused.
fn with_places(alloc: Global, places: usize) -> Result<SlotList<Value>, AllocError>
    ensures items { IfOk result (λ l. l.items ≡ []) }
    ensures spare { IfOk result (λ l. places ≤ l.spare) }
{
    let mut list = SlotList::new(alloc);
    list.reserve(places)?;
    Ok(list)
}

/// Moves a value into a new list that has capacity for `additional` more values, and leaves null in the place of the value. Fails only if
/// memory is refused, and then the value stays where it is.
fn in_block(
    alloc: Global,
    value: &mut Value,
    additional: usize,
) -> Result<SlotList<Value>, AllocError>
    ensures items { IfOk result (λ l. l.items ≡ value.old ∷ []) }
    ensures spare { IfOk result (λ l. additional ≤ l.spare) }
    ensures err { OnErr result (value.new ≡ value.old) }
{
    let places = additional.checked_add(1).ok_or(AllocError)?;
    let mut list = with_places(alloc, places)?;
    match list.insert(0, mem::replace(value, Value::Null)) {
        Ok(()) => Ok(list),
        Err(_) => unreachable!(),
    }
}
