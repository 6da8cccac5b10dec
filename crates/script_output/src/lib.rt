//! What a script prints: values, answers, refusals, and the notifications of adapters.
#![tactic(auto)]

mod names;
mod output;

pub use names::{enum_of, feature_name, literal_name};
pub use output::Output;
