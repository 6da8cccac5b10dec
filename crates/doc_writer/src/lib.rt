//! Saves a resource: returns the text of its document, or the reason why it can't be saved (EMF: XMLResource.save, as JSON).
//!
//! `specs/Written.antt` says which objects and features are written, `specs/Document.antt` which JSON value they make, and
//! `specs/Saved.antt` which resources can't be saved. The code never makes this JSON value: it writes the tokens of the value while it
//! reads the model. `specs/Added.antt` says which tokens each step writes.
#![tactic(auto)]

mod class_references;
mod document;
mod leaves;
mod levels;
mod names;
mod objects;
mod order;
mod refusals;
mod values;
mod ways;
mod write_context;
mod writing;

pub use writing::write_doc;
