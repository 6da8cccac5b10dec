//! The answers of the lines of a script: how a line is counted, and how its answer is written as the output options say.
#![tactic(auto)]

mod dress;
mod dressing;
pub mod laws;
mod turn;

pub use dress::Dress;
pub use dressing::write_dressed;
pub use turn::Turn;
