//! The command line of the program.
#![tactic(auto)]

mod arguments;
mod help;

pub use arguments::{Options, meta_file, options_of, usage_of};
