//! Tests of the journal, of dialogues over a journal, and of how often a read may wait. The journals are on a disk that stops at any call
//! and leaves torn writes.
#![tactic(auto)]

#[cfg(test)]
mod dialogues;
#[cfg(test)]
mod journals;
#[cfg(test)]
mod torn_disk;
#[cfg(test)]
mod waiting;
