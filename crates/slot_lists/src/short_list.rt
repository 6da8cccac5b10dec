//! Lists that mostly have one value.
ghost use Rattle.std.specs.Prelude.{◌≡◌, ◌+◌, ◌<◌, ◌≤◌, [], length, slice_get, position, option_copied, IfOk, OnOk};
ghost use Rattle.std.specs.List.{insert, remove};
ghost use Rattle.slot_lists.specs.Moved.{list_after_move};

use crate::slot_list::SlotList;
use std::alloc::{AllocError, Global};
use std::marker::Model;
use std::mem;

/// How a list is laid out in memory. Once capacity for more than one value was reserved, the list is in a `Box` (`Many`). So a `ShortList`
/// itself takes few bytes.
#[derive(Drop)]
enum Layout<T> {
    Empty,
    One(T),
    Many(Box<SlotList<T>>),
}

/// A list, and capacity for more values. Until capacity for more than one value is reserved, the list keeps its value, if it has one, in
/// the `ShortList` itself, and takes no block of memory.
#[derive(Drop)]
pub struct ShortList<T> {
    layout: Layout<T>,
}

impl<T> Model for ShortList<T> {
    ghost use Rattle.slot_lists.specs.Places.{Places, places_code};

    ghost Value = { Places T };

    ghost coded = { places_code T.code };

    ghost use Rattle.slot_lists.specs.ShortList.{short_places};

    ghost view = { λ a. short_places a.layout };
}

impl<T: Drop> ShortList<T> {
    /// No values. Takes no memory.
    pub fn new() -> Self
        ensures { result.items ≡ [] }
    {
        ShortList {
            layout: Layout::Empty,
        }
    }

    /// How many values there are.
    pub fn len(&self) -> usize
        ensures { result ≡ length self.now.items }
    {
        match &self.layout {
            Layout::Empty => 0,
            Layout::One(_) => 1,
            Layout::Many(list) => list.len(),
        }
    }

    /// How many values may be inserted with no memory taken.
    pub fn spare(&self) -> usize
        ensures { result ≡ self.now.spare }
    {
        match &self.layout {
            Layout::Empty => 1,
            Layout::One(_) => 0,
            Layout::Many(list) => list.spare(),
        }
    }

    /// The value at an index; `None` past the end.
    pub fn get(&self, index: usize) -> Option<&T>
        ensures { option_copied result ≡ slice_get self.now.items index }
    {
        match &self.layout {
            Layout::Empty => None,
            Layout::One(value) if index == 0 => Some(value),
            Layout::One(_) => None,
            Layout::Many(list) => list.get(index),
        }
    }

    /// The index of the first value that equals `value`.
    pub fn position(&self, value: &T) -> Option<usize>
    where
        T: PartialEq,
        ensures { result ≡ position (T.eq value.now) self.now.items }
    {
        match &self.layout {
            Layout::Empty => None,
            Layout::One(kept) if value == kept => Some(0),
            Layout::One(_) => None,
            Layout::Many(list) => list.position(value),
        }
    }

    /// Reserves capacity for `additional` more values. Fails only if memory is refused, or if more than 2^32 pieces would be needed. After
    /// a failure the values are as they were, and no capacity is lost.
    pub fn reserve(&mut self, alloc: Global, additional: usize) -> Result<(), AllocError>
        ensures items { self.new.items ≡ self.old.items }
        ensures ok { OnOk result (additional ≤ self.new.spare) }
        ensures spare { self.old.spare ≤ self.new.spare }
    {
        match &mut self.layout {
            Layout::Empty if additional <= 1 => Ok(()),
            Layout::Empty => {
                self.layout = Layout::Many(in_box(alloc, additional)?);
                Ok(())
            }
            Layout::One(_) if additional == 0 => Ok(()),
            Layout::One(_) => {
                let places = additional.checked_add(1).ok_or(AllocError)?;
                let list = in_box(alloc, places)?;
                if let Layout::One(value) = mem::replace(&mut self.layout, Layout::Many(list)) {
                    self.insert(0, value);
                }
                Ok(())
            }
            Layout::Many(list) => list.reserve(additional),
        }
    }

    /// Inserts a value, for which there is capacity, before the value at an index, or at the end if the index is the number of values.
    /// Takes no memory.
    pub fn insert(&mut self, index: usize, value: T)
        requires room { 0 < self.old.spare }
        requires in_range { index ≤ length self.old.items }
        ensures items { self.new.items ≡ insert self.old.items index value }
        ensures spare { self.old.spare ≤ self.new.spare + 1 }
    {
        match &mut self.layout {
            Layout::Empty => self.layout = Layout::One(value),
            Layout::One(_) => unreachable!(),
            Layout::Many(list) => match list.insert(index, value) {
                Ok(()) => {}
                Err(_) => unreachable!(),
            },
        }
    }

    /// Takes out the value at an index. Takes no memory.
    pub fn remove(&mut self, index: usize)
        requires { index < length self.old.items }
        ensures items { self.new.items ≡ remove self.old.items index }
        ensures spare { self.old.spare ≤ self.new.spare }
    {
        match &mut self.layout {
            Layout::Empty | Layout::One(_) => self.layout = Layout::Empty,
            Layout::Many(list) => {
                list.remove(index);
            }
        }
    }

    /// Moves the value at `from`, so that it is then at `to` (EMF: EList.move). Takes no memory.
    pub fn move_to(&mut self, to: usize, from: usize)
        requires to { to < length self.old.items }
        requires from { from < length self.old.items }
        ensures items { self.new.items ≡ list_after_move self.old.items to from }
        ensures spare { self.new.spare ≡ self.old.spare }
    {
        let Layout::Many(list) = &mut self.layout else {
            // A list of one value has only the index 0, so the value stays.
            return;
        };
        list.move_to(to, from);
    }
}

/// An empty list in a `Box`, with capacity for `places` values. Fails only if memory is refused, or if more than 2^32 pieces would be
/// needed.
fn in_box<T: Drop>(alloc: Global, places: usize) -> Result<Box<SlotList<T>>, AllocError>
    ensures items { IfOk result (λ b. b.value.items ≡ []) }
    ensures spare { IfOk result (λ b. places ≤ b.value.spare) }
{
    let mut list = Box::new(alloc, SlotList::new(alloc))?;
    list.reserve(places)?;
    Ok(list)
}
