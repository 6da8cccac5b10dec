//! A well-formed metamodel with its names resolved, and its look-ups by number and by name.
#![tactic(auto)]

mod classes;
mod feature_names;
mod features;
pub mod laws;
mod literals;
mod meta;
mod name_table;
mod resolution;
mod resolver;
mod shapes;
mod tables;

pub use meta::Meta;
pub use resolution::Resolution;
pub use resolver::Resolver;
