//! Why a command of a script is refused, in words for a reader.
//!
//! `Commentary::line_was_run` is called after each line was run, with the line, its output, and the repository as the line left it. A
//! refused command changes nothing, so the repository still has all that caused the refusal. No contract determines the text of an
//! explanation. It is proved that the functions are safe and terminate; the cases of the program show the texts.
#![tactic(auto)]

mod answer;
mod attached;
mod called;
mod commentary;
mod existence;
mod lists;
mod named;
mod names;
mod refusal;
mod resources;
mod scene;
mod trees;
mod types;
mod unresolved;

pub use commentary::{Commentary, Talk};
