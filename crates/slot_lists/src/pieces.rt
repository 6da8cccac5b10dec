//! A long list in pieces. All pieces before the last piece that holds values are full, and all pieces after that piece are empty.
ghost use Rattle.std.specs.Prelude.{◌≡◌, ◌+◌, ◌<◌, ◌≤◌, [], ◌++◌, length, Some, slice_get, position, IsOk, OnOk, OnErr, vec_len};
ghost use Rattle.std.specs.List.{insert, remove};
ghost use Rattle.slot_lists.specs.Moved.{list_after_move};

use crate::hole::move_hole;
use crate::piece::{PLACES, Piece};
use std::alloc::{AllocError, Global};
use std::marker::Model;

/// No list has more pieces than this.
const MOST_PIECES: usize = 1 << 32;

/// The values in order, one piece after the other. After the last piece that holds values, all pieces are empty.
#[derive(Drop)]
pub(crate) struct Pieces<T> {
    pieces: Vec<Piece<T>>,
    len: usize,
}

impl<T> Model for Pieces<T> {
    ghost use Rattle.slot_lists.specs.Places.{Places, places_code};

    ghost Value = { Places T };

    ghost coded = { places_code T.code };

    ghost use Rattle.slot_lists.specs.Layout.{places_in, IsLaidOut};

    ghost view = { λ a. places_in a.pieces.items a.len };

    ghost invariant = { λ a. IsLaidOut a.pieces.items a.len };
}

impl<T: Drop> Pieces<T> {
    /// No values, and no capacity. Takes no memory.
    pub fn new(alloc: Global) -> Self
        ensures { result.items ≡ [] }
    {
        Pieces {
            pieces: Vec::new(alloc),
            len: 0,
        }
    }

    /// How many values there are.
    pub fn len(&self) -> usize
        ensures { result ≡ length self.now.items }
    {
        self.len
    }

    /// How many values may be inserted with no memory taken.
    pub fn spare(&self) -> usize
        ensures { result ≡ self.now.spare }
    {
        PLACES * self.pieces.len() - self.len
    }

    /// Adds an empty piece. Fails only if memory is refused, or if there are `MOST_PIECES` pieces.
    fn add_piece(&mut self) -> Result<(), AllocError>
        ensures items { self.new.items ≡ self.old.items }
        ensures ok { OnOk result (self.new.spare ≡ self.old.spare + 1024) }
        ensures err { OnErr result (self.new ≡ self.old) }
    {
        if self.pieces.len() == MOST_PIECES {
            return Err(AllocError);
        }
        let alloc = *self.pieces.allocator();
        self.pieces.push(Piece::new(alloc)?)?;
        Ok(())
    }

    /// Reserves capacity for `additional` more values. Fails only if memory is refused, or if more than `MOST_PIECES` pieces would be
    /// needed.
    pub fn reserve(&mut self, additional: usize) -> Result<(), AllocError>
        ensures items { self.new.items ≡ self.old.items }
        ensures spare { self.old.spare ≤ self.new.spare }
        ensures ok { OnOk result (additional ≤ self.new.spare) }
        ensures reserved { additional ≤ self.old.spare → IsOk result }
    {
        while self.spare() < additional {
            self.add_piece()?;
        }
        Ok(())
    }

    /// Adds `values` at the end of the list, which has capacity for them. Takes no memory.
    pub fn append(&mut self, values: Vec<T>)
        requires { vec_len values ≤ self.old.spare }
        ensures items { self.new.items ≡ self.old.items ++ values.items }
        ensures spare { self.new.spare + vec_len values ≡ self.old.spare }
    {
        for value in values {
            self.insert(self.len(), value);
        }
    }

    /// Inserts a value, for which there is capacity, at an index; the index may be the length of the list. Takes no memory.
    pub fn insert(&mut self, index: usize, value: T)
        requires room { 0 < self.old.spare }
        requires in_range { index ≤ length self.old.items }
        ensures items { self.new.items ≡ insert self.old.items index value }
        ensures spare { self.new.spare + 1 ≡ self.old.spare }
    {
        let at = index / PLACES;
        move_hole(&mut self.pieces, self.len + 1, self.len / PLACES, at);
        self.pieces[at].insert(index % PLACES, value);
        self.len += 1;
    }

    /// Takes out the value at an index. Takes no memory.
    pub fn remove(&mut self, index: usize) -> T
        requires { index < length self.old.items }
        ensures items { self.new.items ≡ remove self.old.items index }
        ensures value { Some result ≡ slice_get self.old.items index }
        ensures spare { self.new.spare ≡ self.old.spare + 1 }
    {
        let at = index / PLACES;
        let value = self.pieces[at].remove(index % PLACES);
        move_hole(&mut self.pieces, self.len, at, (self.len - 1) / PLACES);
        self.len -= 1;
        value
    }

    /// Moves the value at `from`, so that it is then at `to`. Takes no memory.
    pub fn move_to(&mut self, to: usize, from: usize)
        requires to { to < length self.old.items }
        requires from { from < length self.old.items }
        ensures items { self.new.items ≡ list_after_move self.old.items to from }
        ensures spare { self.new.spare ≡ self.old.spare }
    {
        let (source, target) = (from / PLACES, to / PLACES);
        let value = self.pieces[source].remove(from % PLACES);
        move_hole(&mut self.pieces, self.len, source, target);
        self.pieces[target].insert(to % PLACES, value);
    }

    /// The value at an index.
    pub fn get(&self, index: usize) -> &T
        requires { index < length self.now.items }
        ensures { Some result.now ≡ slice_get self.now.items index }
    {
        self.pieces[index / PLACES].get(index % PLACES)
    }

    /// The index of the first value that equals `value`.
    pub fn position(&self, value: &T) -> Option<usize>
    where
        T: PartialEq,
        ensures { result ≡ position (T.eq value.now) self.now.items }
    {
        let mut before = 0;
        for piece in &self.pieces {
            if let Some(index) = piece.position(value) {
                return Some(before + index);
            }
            before += piece.len();
        }
        None
    }
}
