//! A file of the operating system as the disk of a journal. While the file is open as a disk, no process can open it as a disk again.
#![tactic(auto)]

mod call;
mod file;
mod record;

pub use file::{FileDisk, OpenFault, open};
