//! A journal is a file of lines, and a line is on the disk before it is acknowledged. A crash at any moment loses no line that was
//! acknowledged.
#![tactic(auto)]

mod disk;
mod entries;
mod journal;

pub use disk::{Disk, DiskFault};
pub use entries::next_entry;
pub use journal::{Journal, open};
