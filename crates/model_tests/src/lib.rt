//! Tests of the crates of models and scripts, by calls that a script can't make: values that no script names, adapters of other kinds,
//! dropped adapters, streams that fail, and command lines. The tests are in the folders whose names end with `_tests`. What several tests
//! use is in `fixtures`.
//!
//! The crate `cases` tests what a script prints.
#![tactic(auto)]

#[cfg(test)]
mod adapter_tests;
#[cfg(test)]
mod fixtures;
#[cfg(test)]
mod list_tests;
#[cfg(test)]
mod reload_tests;
#[cfg(test)]
mod run_tests;
