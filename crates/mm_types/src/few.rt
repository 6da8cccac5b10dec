//! Lists that mostly have one item.
ghost use Rattle.std.specs.Prelude.{◌≡◌, ◌∷◌, ◌++◌, ◌==◌, [], length, IfOk, OnOk};
ghost use Rattle.std.specs.Mem.{FitsInMemory};
ghost use Rattle.mm_types.specs.Few.{items_in};

use std::alloc::{AllocError, Global};
use std::marker::Model;
use std::{mem, slice};

/// How the items of a list are kept. A single item is mostly kept inline, without an allocation.
#[derive(Debug, Drop)]
pub enum FewItems<T> {
    One(T),
    Many(Vec<T>),
}

/// A list that mostly has one item. Contracts see it as the list of its items.
#[derive(Debug, Drop)]
pub struct Few<T> {
    items: FewItems<T>,
}

impl<T> Model for Few<T> {
    ghost use Rattle.std.specs.Prelude.{List};
    ghost use Rattle.mm_types.specs.Few.{items_in};

    ghost Value = { List T };

    ghost view = { λ f. items_in f.items };
}

impl<T> Few<T> {
    /// No items. Takes no memory.
    pub fn none(alloc: Global) -> Self
        ensures { result ≡ [] }
    {
        Few {
            items: FewItems::Many(Vec::new(alloc)),
        }
    }

    /// One item. Takes no memory.
    pub fn one(item: T) -> Self
        ensures { result ≡ item ∷ [] }
    {
        Few {
            items: FewItems::One(item),
        }
    }

    /// The items of a `Vec`, which becomes a part of the list and is not copied. Takes no memory.
    pub fn from_vec(items: Vec<T>) -> Self
        ensures { result ≡ items.items }
    {
        Few {
            items: FewItems::Many(items),
        }
    }

    /// No items, with capacity for `count` of them. Takes no memory if `count` is at most 1, and fails only if memory is refused.
    pub fn with_capacity(alloc: Global, count: usize) -> Result<Self, AllocError>
        ensures { IfOk result (λ f. f ≡ []) }
    {
        if count < 2 {
            return Ok(Few::none(alloc));
        }
        Ok(Few::from_vec(Vec::with_capacity(alloc, count)?))
    }

    /// Reserves capacity for `more` items. Reserves nothing if one item is kept inline, or if there is no item yet and at most one is to be
    /// added. Fails only if memory is refused.
    pub fn reserve(&mut self, more: usize) -> Result<(), AllocError>
        ensures { self.new ≡ self.old }
    {
        match &mut self.items {
            FewItems::Many(items) if more > 1 || !items.is_empty() => items.reserve(more),
            _ => Ok(()),
        }
    }

    /// The items, as a slice. A `T` must have fewer than 2^63 bytes, as each type has of which a program can have a value.
    pub fn as_slice(&self) -> &[T]
        requires { FitsInMemory T.row }
        ensures { result.now ≡ self.now }
    {
        match &self.items {
            FewItems::One(item) => slice::from_ref(item),
            FewItems::Many(items) => items.as_slice(),
        }
    }

    /// How many items there are.
    pub fn len(&self) -> usize
        ensures { result ≡ length self.now }
    {
        match &self.items {
            FewItems::One(_) => 1,
            FewItems::Many(items) => items.len(),
        }
    }

    /// Whether there are no items.
    pub fn is_empty(&self) -> bool
        ensures { result ≡ (length self.now == 0) }
    {
        match &self.items {
            FewItems::One(_) => false,
            FewItems::Many(items) => items.is_empty(),
        }
    }

    /// The items, as they are kept. Takes no memory.
    pub fn into_items(self) -> FewItems<T>
        ensures { items_in result ≡ self }
    {
        self.items
    }
}

impl<T: Drop> Few<T> {
    /// Adds an item at the end. The first item takes no memory. If memory is refused, the items may be lost.
    #[inline(always)]
    pub fn push(&mut self, alloc: Global, item: T) -> Result<(), AllocError>
        ensures { OnOk result (self.new ≡ self.old ++ item ∷ []) }
    {
        match &mut self.items {
            FewItems::Many(items) if items.capacity() > 0 => {
                items.push(item)?;
                Ok(())
            }
            FewItems::Many(_) => {
                self.items = FewItems::One(item);
                Ok(())
            }
            FewItems::One(_) => self.push_second(alloc, item),
        }
    }

    /// Adds an item after the only item so far, and keeps both in a `Vec`. Fails only if memory is refused, and then the items are lost.
    #[inline(never)]
    fn push_second(&mut self, alloc: Global, item: T) -> Result<(), AllocError>
        ensures { OnOk result (self.new ≡ self.old ++ item ∷ []) }
    {
        let mut items = Vec::with_capacity(alloc, 4)?;
        match mem::replace(&mut self.items, FewItems::Many(Vec::new(alloc))) {
            FewItems::One(first) => items.push(first)?,
            FewItems::Many(mut others) => items.append(&mut others)?,
        }
        items.push(item)?;
        self.items = FewItems::Many(items);
        Ok(())
    }
}
