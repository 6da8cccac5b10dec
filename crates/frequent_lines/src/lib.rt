//! The most frequent lines of scripts, read without a list of their words.
#![tactic(auto)]

mod bare_act;
mod frequent;
mod frequent_act;
mod verbs;
mod word;

pub use bare_act::BareAct;
pub use frequent::{Frequent, frequent_of};
pub use frequent_act::FrequentAct;
pub use word::Word;
