//! A table of rows. A row is found by the number of its node.
ghost use Rattle.std.specs.Prelude.{◌≡◌, true, ℕ, ◌+◌, ◌<◌, ◌≤◌, [], length, option_copied, vec_len, None, Some, IfOk, OnOk};
ghost use Rattle.node_slots.specs.Rows.{AreRowsEdited, AreRowsGrown, AreRowsReordered, RowFits, row_entries, row_mixed, row_indexes};
ghost use Rattle.node_slots.specs.Tables.{row_index_at, row_in};

use crate::row::{Row, RowEdit};
use mm_types::FeatureNo;
use std::alloc::{AllocError, Global};
use std::marker::Model;

/// The rows of the nodes of one kind, objects or resources. A row is found by the number of its node. It may be that most objects of a
/// model have no links. So a node with no row takes only four bytes if a node with a higher number has a row. Otherwise the node takes no
/// bytes, unless memory for a row was refused. Contracts see the lists `places` and `rows`, and read them by `row_in`.
#[derive(Drop)]
pub(crate) struct RowTable {
    /// At the index that is the number of a node: zero if the node has no row, and else one more than the index of the row in `rows`. A
    /// node with a number past the end has no row.
    places: Vec<u32>,
    /// The rows, in the order in which they were made.
    rows: Vec<Row>,
}

impl Model for RowTable {
    ghost use Rattle.std.specs.Prelude.{length};
    ghost use Rattle.node_slots.specs.Tables.{Table, ArePlaces};

    ghost Value = { Table };

    ghost view = { λ a. record { places = a.places.items; rows = a.rows.items } };

    ghost invariant = { λ a. ArePlaces a.places.items (length a.rows.items) };
}

impl RowTable {
    /// No rows. Takes no memory.
    pub fn new(alloc: Global) -> Self
        ensures { result.places ≡ [] }
    {
        RowTable {
            places: Vec::new(alloc),
            rows: Vec::new(alloc),
        }
    }

    /// The row of the node with the given number; `None` if the node has no row.
    pub fn get(&self, number: usize) -> Option<&Row>
        ensures { option_copied result ≡ row_in self.now number }
    {
        self.rows.get(row_index_in(&self.places, number)?)
    }

    /// The index of the row of the node with the given number; `None` if the node has no row.
    pub fn row_index(&self, number: usize) -> Option<usize>
        ensures { result ≡ row_index_at self.now.places number }
    {
        row_index_in(&self.places, number)
    }

    /// Makes one change of the row of a node. `number` is the number of the node, and `row_index` the index of the row. Takes no memory.
    pub fn edit_at(&mut self, number: usize, row_index: usize, edit: RowEdit)
        requires at { row_index_at self.old.places number ≡ Some row_index }
        requires fits { RowFits edit (row_in self.old number) }
        ensures edited { AreRowsEdited number edit (row_in self.old) (row_in self.new) }
        ensures places { self.new.places ≡ self.old.places }
    {
        self.rows[row_index].edit(edit);
    }

    /// Sorts the ends with no opposite that have a node as a value; `number` is the number of the node. If the node has no row, nothing
    /// changes. Takes no memory.
    pub fn order_entries(&mut self, number: usize)
        ensures { AreRowsReordered (row_in self.old) (row_in self.new) }
    {
        if let Some(row_index) = row_index_in(&self.places, number) {
            self.rows[row_index].order_entries();
        }
    }

    /// Reserves capacity for one more value of a feature of a node: for any value if `is_mixed`, otherwise for an object. `number` is the
    /// number of the node, and `row_index` the index of its row. Fails only if memory is refused; no value changes.
    pub fn promise_at(
        &mut self,
        number: usize,
        row_index: usize,
        feature: FeatureNo,
        is_mixed: bool,
    ) -> Result<(), AllocError>
        requires at { row_index_at self.old.places number ≡ Some row_index }
        ensures grown { AreRowsGrown (row_in self.old) (row_in self.new) }
        ensures places { self.new.places ≡ self.old.places }
        ensures ok { OnOk result (row_indexes (row_in self.old number) feature + 1 ≤ row_indexes (row_in self.new number) feature) }
        ensures takes { OnOk result (is_mixed ≡ true → row_mixed (row_in self.new number) feature ≡ true) }
    {
        let alloc = *self.rows.allocator();
        self.rows[row_index].promise(alloc, feature, is_mixed)
    }

    /// Reserves capacity for one more end that has a node as a value and has no opposite. `number` is the number of the node, and
    /// `row_index` the index of its row. Fails only if memory is refused; no end changes.
    pub fn promise_entry_at(&mut self, number: usize, row_index: usize) -> Result<(), AllocError>
        requires at { row_index_at self.old.places number ≡ Some row_index }
        ensures grown { AreRowsGrown (row_in self.old) (row_in self.new) }
        ensures places { self.new.places ≡ self.old.places }
        ensures ok { OnOk result (row_entries (row_in self.old number) + 1 ≤ row_entries (row_in self.new number)) }
    {
        let alloc = *self.rows.allocator();
        self.rows[row_index].promise_entry(alloc)
    }

    /// The index of the row of the node with the given number. If the node has no row, makes the row. The indexes of the other rows stay
    /// the same. Fails only if memory is refused, or if there are 2^32 - 1 rows already.
    pub fn make_row(&mut self, number: usize) -> Result<usize, AllocError>
        ensures grown { AreRowsGrown (row_in self.old) (row_in self.new) }
        ensures unmoved { (n k : ℕ) → row_index_at self.old.places n ≡ Some k → row_index_at self.new.places n ≡ Some k }
        ensures ok { IfOk result (λ k. row_index_at self.new.places number ≡ Some k) }
    {
        extend(&mut self.places, number)?;
        match row_index_in(&self.places, number) {
            Some(row_index) => Ok(row_index),
            None => self.push_row(number),
        }
    }

    /// Makes a row for the node with the given number, and returns the index of the row. The node must not have a row yet. The row is made
    /// before its index is stored. So if memory is refused, no index is stored without its row.
    fn push_row(&mut self, number: usize) -> Result<usize, AllocError>
        requires in_range { number < length self.old.places }
        requires none { row_index_at self.old.places number ≡ None }
        ensures grown { AreRowsGrown (row_in self.old) (row_in self.new) }
        ensures unmoved { (n k : ℕ) → row_index_at self.old.places n ≡ Some k → row_index_at self.new.places n ≡ Some k }
        ensures ok { IfOk result (λ k. row_index_at self.new.places number ≡ Some k) }
    {
        let row_index = self.rows.len();
        if row_index >= u32::MAX as usize {
            return Err(AllocError);
        }
        self.rows.push(Row::new())?;
        self.places[number] = row_index as u32 + 1;
        Ok(row_index)
    }
}

/// The index of the row of the node with the given number; `None` if the node has no row.
fn row_index_in(places: &[u32], number: usize) -> Option<usize>
    ensures { result ≡ row_index_at places.now number }
{
    match *places.get(number)? {
        0 => None,
        above => Some(above as usize - 1),
    }
}

/// Adds zeros at the end of `places` until there is an element at the index `number`. No node gets a row.
fn extend(places: &mut Vec<u32>, number: usize) -> Result<(), AllocError>
    ensures same { (n : ℕ) → row_index_at places.new.items n ≡ row_index_at places.old.items n }
    ensures ok { OnOk result (number < vec_len places.new) }
{
    while places.len() <= number {
        places.push(0)?;
    }
    Ok(())
}
