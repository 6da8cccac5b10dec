//! Checks whether a metamodel document is well-formed. If it is, the result is its `Meta`; otherwise its first fault and the place of the
//! fault.
#![tactic(auto)]

mod checker;
mod document;
mod duplicates;
mod features;
mod opposites;
mod places;

pub use document::{check, check_document};
