//! A metamodel document is read: its JSON becomes enumerations and classes, in which supertypes, types and opposites are still names.
//!
//! `specs/Layout.antt` is the layout of a document, key by key, and `specs/Loaded.antt` says which of the faults `Syntax`, `Layout` and
//! `Limit` a document has.
#![tactic(auto)]

mod class;
mod document;
mod enumeration;
mod feature;
mod from_json;
mod head;
mod keys;
pub mod laws;
mod load;

pub use load::load_meta;
