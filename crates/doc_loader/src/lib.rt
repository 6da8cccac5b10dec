//! Loading: the edits that make the objects of a document, the values of their attributes, and the links and proxies of the document.
//!
//! `specs/Loading.antt` says what loading a document makes, and `specs/LoadEdits.antt` in which order the links and proxies are put.
#![tactic(auto)]

mod far;
mod indexes;
pub mod laws;
mod linking;
mod near;
mod numbers;
mod pairs;
mod passes;
mod proxies;
mod values;

pub use linking::link_edits;
pub use numbers::loaded;
pub use values::value_edits;
