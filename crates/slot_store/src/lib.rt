//! A store of links with a list of values for each end. A read of the values of an end looks only among the lists of the end's node. A
//! search for an object in an end may also look into the row of the object.
#![tactic(auto)]

mod edits;
mod incoming;
mod search;
mod slot_store;

pub use slot_store::SlotStore;
