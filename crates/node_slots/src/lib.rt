//! Links, kept at their nodes: for each node its lists of values, the end that contains the node, and the ends with no opposite that have
//! the node as a value.
//!
//! `NodeSlots::reserve_for` reserves capacity for a plan of edits; `NodeSlots::edit` then makes one change of a node and takes no memory. A
//! node has a row once capacity was reserved for it. A node without a row takes four bytes, in a table of indexes (`RowTable`), if a node
//! of the same kind (object or resource) with a higher number has a row. Otherwise it takes no memory, unless memory for a row was refused.
//! A reservation for more values, entries or rows than can be counted fails as if memory were refused; entries are the ends with no
//! opposite that have a node as a value.
#![tactic(auto)]

mod node_slots;
mod order;
mod row;
mod row_slots;
mod row_table;
mod slot;

pub use node_slots::{NodeSlots, PutPlaces};
pub use order::entry_rank;
pub use row::{Row, RowEdit};
pub use row_slots::RowSlots;
pub use slot::{Pairing, Slot, SlotEdit};
