//! Explains what to fix in the texts of a script: which words of a bad line are wrong, and what is wrong in a refused document.
//!
//! `explain_bad_line` reads the line once more, and `explain_document` the document. No function gets a repository; each public function
//! except `explain_bad_line` gets the metamodel. No contract determines the text of an explanation. It is proved that the functions are
//! safe and terminate; the cases of the program show the texts.
#![tactic(auto)]

mod bad_line;
mod content;
mod document;
mod forms;
mod led;
mod linked;
mod listed;
mod parts;
mod repeats;
mod shape;
mod written;

pub use bad_line::explain_bad_line;
pub use document::{RefusedDocument, explain_document};
pub use listed::{class_names, concrete_names, feature_names, literal_names};
