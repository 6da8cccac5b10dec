//! The stores of links: `RowStore` keeps one list of links, which it scans, and `SlotStore` keeps a list of values for each end.
#![tactic(auto)]

mod incoming;
mod renumbering;
mod row_edits;
mod row_store;
mod rows;

pub use links::{Edit, Incoming, LinkStore, Plan};
pub use row_store::RowStore;
pub use slot_store::SlotStore;
