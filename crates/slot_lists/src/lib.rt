//! Lists of values. An insert at the front of a long list is fast, and a short list takes little memory.
//!
//! `SlotList::reserve` reserves capacity for a number of further values. After that, this number of inserts takes no memory. A reservation
//! that needs more than 2^32 pieces, or capacity for more than `usize::MAX` values, fails as if memory were refused.
#![tactic(auto)]

mod hole;
mod piece;
mod pieces;
mod short_list;
mod slot_list;

pub use short_list::ShortList;
pub use slot_list::SlotList;
