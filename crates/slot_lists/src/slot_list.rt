//! Lists of any length.
ghost use Rattle.std.specs.Prelude.{◌≡◌, ◌+◌, ◌<◌, ◌≤◌, ◌==◌, [], ◌++◌, length, Some, slice_get, position, option_copied, is_ok, IsOk, IfOk, IfErr, OnOk, OnErr, if◌then◌else◌, vec_len, vec_capacity};
ghost use Rattle.std.specs.List.{insert, remove};
ghost use Rattle.slot_lists.specs.Moved.{list_after_move};

use crate::piece::PLACES;
use crate::pieces::Pieces;
use std::alloc::{AllocError, AllocFailed, Global};
use std::marker::Model;
use std::mem;

/// A list is in one block until `reserve` moves it into pieces. `reserve` does this if one piece can't hold the values of the list together
/// with the values for which capacity is to be reserved. So a long list is in one block only if it was made from a `Vec` (by `from_vec` or
/// `replace`), and `reserve` has not moved it since. A list in pieces stays in pieces when it becomes short, until `replace` puts the block
/// of a `Vec` in place of the pieces.
#[derive(Drop)]
enum Layout<T> {
    Short(Vec<T>),
    Long(Box<Pieces<T>>),
}

/// A list, and capacity for more values. An insert or a removal at any index takes at most about 1,024 steps, as many as a full piece has
/// values, plus one step for each piece of the list. It takes more steps only if a long list is still in the block of a `Vec`.
#[derive(Drop)]
pub struct SlotList<T> {
    layout: Layout<T>,
}

impl<T> Model for SlotList<T> {
    ghost use Rattle.slot_lists.specs.Places.{Places, places_code};

    ghost Value = { Places T };

    ghost coded = { places_code T.code };

    ghost use Rattle.slot_lists.specs.SlotList.{places_of};

    ghost view = { λ a. places_of a.layout };
}

impl<T: Drop> SlotList<T> {
    /// No values. Takes no memory.
    pub fn new(alloc: Global) -> Self
        ensures { result.items ≡ [] }
    {
        SlotList {
            layout: Layout::Short(Vec::new(alloc)),
        }
    }

    /// A list of the values of a `Vec` of any length. The values stay in the block of the `Vec`. Takes no memory.
    pub fn from_vec(values: Vec<T>) -> Self
        ensures { result.items ≡ values.items }
    {
        SlotList {
            layout: Layout::Short(values),
        }
    }

    /// How many values there are.
    pub fn len(&self) -> usize
        ensures { result ≡ length self.now.items }
    {
        match &self.layout {
            Layout::Short(values) => values.len(),
            Layout::Long(pieces) => pieces.len(),
        }
    }

    /// Whether there are no values.
    pub fn is_empty(&self) -> bool
        ensures { result ≡ (length self.now.items == 0) }
    {
        self.len() == 0
    }

    /// How many values may be inserted with no memory taken.
    pub fn spare(&self) -> usize
        ensures { result ≡ self.now.spare }
    {
        match &self.layout {
            Layout::Short(values) => values.capacity().min(PLACES).saturating_sub(values.len()),
            Layout::Long(pieces) => pieces.spare(),
        }
    }

    /// The value at an index; `None` past the end.
    pub fn get(&self, index: usize) -> Option<&T>
        ensures { option_copied result ≡ slice_get self.now.items index }
    {
        match &self.layout {
            Layout::Short(values) => values.get(index),
            Layout::Long(pieces) if index < pieces.len() => Some(pieces.get(index)),
            Layout::Long(_) => None,
        }
    }

    /// The index of the first value that equals `value`.
    pub fn position(&self, value: &T) -> Option<usize>
    where
        T: PartialEq,
        ensures { result ≡ position (T.eq value.now) self.now.items }
    {
        match &self.layout {
            Layout::Short(values) => values.iter().position(|x| value == x),
            Layout::Long(pieces) => pieces.position(value),
        }
    }

    /// Reserves capacity for `additional` more values. If one piece can't hold the values of the list together with these values, moves the
    /// list into pieces. Fails only if memory is refused, or if more than 2^32 pieces would be needed. After a failure the values are as
    /// they were, and no capacity is lost.
    pub fn reserve(&mut self, additional: usize) -> Result<(), AllocError>
        ensures items { self.new.items ≡ self.old.items }
        ensures ok { OnOk result (additional ≤ self.new.spare) }
        ensures spare { self.old.spare ≤ self.new.spare }
        ensures reserved { 0 < self.old.spare → additional ≤ self.old.spare → IsOk result }
    {
        match &mut self.layout {
            Layout::Short(values) => {
                if values.len() <= PLACES && additional <= PLACES - values.len() {
                    return reserve_in_block(values, additional);
                }
                let pieces = in_pieces(values, additional)?;
                self.layout = Layout::Long(pieces);
                Ok(())
            }
            Layout::Long(pieces) => pieces.reserve(additional),
        }
    }

    /// Inserts a value before the value at an index, or at the end if the index is the number of values. If memory is refused, the value is
    /// given back and nothing has changed.
    pub fn insert(&mut self, index: usize, value: T) -> Result<(), AllocFailed<T>>
        requires { index ≤ length self.old.items }
        ensures items { self.new.items ≡ (if is_ok result then insert self.old.items index value else self.old.items) }
        ensures value_returned { IfErr result (λ e. e.value ≡ value) }
        ensures reserved { 0 < self.old.spare → IsOk result }
        ensures spare { self.old.spare ≤ self.new.spare + 1 }
    {
        if let Err(_) = self.reserve(1) {
            return Err(AllocFailed { value });
        }
        match &mut self.layout {
            Layout::Short(values) => values.insert(index, value),
            Layout::Long(pieces) => {
                pieces.insert(index, value);
                Ok(())
            }
        }
    }

    /// Takes out the value at an index. Takes no memory.
    pub fn remove(&mut self, index: usize) -> T
        requires { index < length self.old.items }
        ensures items { self.new.items ≡ remove self.old.items index }
        ensures value { Some result ≡ slice_get self.old.items index }
        ensures spare { self.old.spare ≤ self.new.spare }
    {
        match &mut self.layout {
            Layout::Short(values) => values.remove(index),
            Layout::Long(pieces) => pieces.remove(index),
        }
    }

    /// Moves the value at `from`, so that it is then at `to` (EMF: EList.move). Takes no memory.
    pub fn move_to(&mut self, to: usize, from: usize)
        requires to { to < length self.old.items }
        requires from { from < length self.old.items }
        ensures items { self.new.items ≡ list_after_move self.old.items to from }
        ensures spare { self.new.spare ≡ self.old.spare }
    {
        match &mut self.layout {
            Layout::Short(values) => move_in_block(values, to, from),
            Layout::Long(pieces) => pieces.move_to(to, from),
        }
    }

    /// Replaces the values by the values of a `Vec` of any length. If the unused capacity of the list (`spare`) is greater than the length
    /// of the `Vec`, the list keeps its block or its pieces; otherwise it takes the block of the `Vec`. Takes no memory.
    pub fn replace(&mut self, values: Vec<T>)
        ensures items { self.new.items ≡ values.items }
        ensures spare { self.old.spare ≤ self.new.spare + vec_len values }
    {
        if self.spare() <= values.len() {
            *self = SlotList::from_vec(values);
            return;
        }
        self.clear();
        self.append(values);
    }

    /// Takes out all values. Takes no memory.
    fn clear(&mut self)
        ensures items { self.new.items ≡ [] }
        ensures spare { self.old.spare ≤ self.new.spare }
    {
        while let Some(last) = self.len().checked_sub(1) {
            self.remove(last);
        }
    }

    /// Adds `values` at the end of the list, which has capacity for them. Takes no memory.
    fn append(&mut self, values: Vec<T>)
        requires { vec_len values ≤ self.old.spare }
        ensures items { self.new.items ≡ self.old.items ++ values.items }
        ensures spare { self.old.spare ≤ self.new.spare + vec_len values }
    {
        for value in values {
            match self.insert(self.len(), value) {
                Ok(()) => {}
                Err(_) => unreachable!(),
            }
        }
    }
}

/// Reserves capacity for `additional` more values in the block of a short list. If the block has to grow, its capacity grows by at least
/// half of the old capacity, even if the block has few values. But the capacity does not grow above `PLACES` values.
fn reserve_in_block<T: Drop>(values: &mut Vec<T>, additional: usize) -> Result<(), AllocError>
    requires { vec_len values.old + additional ≤ 1024 }
    ensures items { values.new.items ≡ values.old.items }
    ensures capacity { vec_capacity values.old ≤ vec_capacity values.new }
    ensures ok { OnOk result (vec_len values.old + additional ≤ vec_capacity values.new) }
    ensures reserved { vec_len values.old + additional ≤ vec_capacity values.old → IsOk result }
{
    if additional <= values.capacity() - values.len() {
        return Ok(());
    }
    let free = PLACES - values.len();
    let grown = values.capacity() - values.len() + values.capacity() / 2 + 1;
    values.reserve_exact(additional.max(grown).min(free))
}

/// Moves the values of a block into pieces, with capacity for `additional` more values. Fails only if memory is refused, or if more than
/// 2^32 pieces would be needed, and then the values stay in the block.
fn in_pieces<T: Drop>(values: &mut Vec<T>, additional: usize) -> Result<Box<Pieces<T>>, AllocError>
    ensures items { IfOk result (λ p. p.value.items ≡ values.old.items) }
    ensures spare { IfOk result (λ p. additional ≤ p.value.spare) }
    ensures err { OnErr result (values.new ≡ values.old) }
{
    let alloc = *values.allocator();
    let mut pieces = Box::new(alloc, Pieces::new(alloc))?;
    let places = values.len().checked_add(additional).ok_or(AllocError)?;
    pieces.reserve(places)?;
    pieces.append(mem::replace(values, Vec::new(alloc)));
    Ok(pieces)
}

/// Moves the value at `from` in a block, so that it is then at `to`.
fn move_in_block<T: Drop>(values: &mut Vec<T>, to: usize, from: usize)
    requires to { to < vec_len values.old }
    requires from { from < vec_len values.old }
    ensures items { values.new.items ≡ list_after_move values.old.items to from }
    ensures len { vec_len values.new ≡ vec_len values.old }
    ensures capacity { vec_capacity values.new ≡ vec_capacity values.old }
{
    let value = values.remove(from);
    match values.insert(to, value) {
        Ok(()) => {}
        Err(_) => unreachable!(),
    }
}
