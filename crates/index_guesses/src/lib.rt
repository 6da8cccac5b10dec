//! Guesses at the index of a value in a long list, so that the list need not be gone through.
//!
//! A guess may be wrong, so the caller looks whether the value is at the guessed index.
#![tactic(auto)]

mod labels;
mod ranks;

pub use labels::{Labels, label_between, new_label};
pub use ranks::by_rank;

/// The indexes of a list are divided into groups of this many. Only a removal at the last index of a group tests the guess for the value
/// there.
const TRIED: usize = 64;

/// Whether a removal at `index` tests the guess for the value there. Of `TRIED` consecutive indexes one is tested. The first index that is
/// tested is `TRIED - 1`, since a value near the front is found soon without a guess.
pub fn is_tried(index: usize) -> bool {
    index % TRIED == TRIED - 1
}
