//! Tests of the crates that read documents, by direct calls of their functions: metamodels and their look-ups, documents of resources, and
//! the texts that address objects.
//!
//! The crate `cases` tests what is printed for a metamodel: that it is accepted, or its first fault.
#![tactic(auto)]

#[cfg(test)]
mod fixtures;
#[cfg(test)]
mod metamodel_tests;
#[cfg(test)]
mod resource_tests;
#[cfg(test)]
mod text_tests;
