//! A piece of a long list.
ghost use Rattle.std.specs.Prelude.{◌≡◌, ◌+◌, ◌<◌, ◌≤◌, [], ◌∷◌, ◌++◌, length, Some, slice_get, position, IfOk};
ghost use Rattle.std.specs.List.{insert, remove};

use std::alloc::{AllocError, Global};
use std::collections::VecDeque;
use std::marker::Model;

/// How many values a piece can hold.
pub(crate) const PLACES: usize = 1024;

/// A piece of a list: a ring with capacity for `PLACES` values.
#[derive(Drop)]
pub(crate) struct Piece<T> {
    ring: VecDeque<T>,
}

impl<T> Model for Piece<T> {
    ghost use Rattle.std.specs.Prelude.{◌≤◌, List, length};
    ghost use Rattle.std.specs.VecDeque.{deque_capacity};

    ghost Value = { List T };

    ghost view = { λ c. c.ring.items };

    ghost invariant = { λ c. (1024 ≤ deque_capacity c.ring) × (length c.ring.items ≤ 1024) };
}

impl<T: Drop> Piece<T> {
    /// A piece without values, with capacity for `PLACES` values. Fails only if memory is refused.
    pub fn new(alloc: Global) -> Result<Self, AllocError>
        ensures { IfOk result (λ c. c ≡ []) }
    {
        Ok(Piece {
            ring: VecDeque::with_capacity(alloc, PLACES)?,
        })
    }

    /// How many values there are.
    pub fn len(&self) -> usize
        ensures { result ≡ length self.now }
    {
        self.ring.len()
    }

    /// The value at an index.
    pub fn get(&self, index: usize) -> &T
        requires { index < length self.now }
        ensures { Some result.now ≡ slice_get self.now index }
    {
        &self.ring[index]
    }

    /// Puts a value before all values of the piece.
    pub fn push_first(&mut self, value: T)
        requires { length self.old < 1024 }
        ensures { self.new ≡ value ∷ self.old }
    {
        self.ring.push_front_reserved(value);
    }

    /// Puts a value after all values of the piece.
    pub fn push_last(&mut self, value: T)
        requires { length self.old < 1024 }
        ensures { self.new ≡ self.old ++ value ∷ [] }
    {
        self.ring.push_back_reserved(value);
    }

    /// Takes out the first value.
    pub fn pop_first(&mut self) -> T
        requires { 0 < length self.old }
        ensures { self.old ≡ result ∷ self.new }
    {
        self.ring.pop_front().unwrap()
    }

    /// Takes out the last value.
    pub fn pop_last(&mut self) -> T
        requires { 0 < length self.old }
        ensures { self.old ≡ self.new ++ result ∷ [] }
    {
        self.ring.pop_back().unwrap()
    }

    /// Inserts a value before the value at an index, or at the end if the index is the number of values.
    pub fn insert(&mut self, index: usize, value: T)
        requires room { length self.old < 1024 }
        requires in_range { index ≤ length self.old }
        ensures { self.new ≡ insert self.old index value }
    {
        match self.ring.insert(index, value) {
            Ok(()) => {}
            Err(_) => unreachable!(),
        }
    }

    /// Takes out the value at an index.
    pub fn remove(&mut self, index: usize) -> T
        requires { index < length self.old }
        ensures items { self.new ≡ remove self.old index }
        ensures value { Some result ≡ slice_get self.old index }
    {
        self.ring.remove(index).unwrap()
    }

    /// The index of the first value that equals `value`.
    pub fn position(&self, value: &T) -> Option<usize>
    where
        T: PartialEq,
        ensures { result ≡ position (T.eq value.now) self.now }
    {
        self.ring.iter().position(|x| value == x)
    }
}
