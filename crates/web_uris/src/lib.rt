//! The texts that address objects: the URIs of resources, the references that are joined with these URIs, and the fragments after the URIs.
//!
//! `specs/Joined.antt` says what joining gives, `specs/Paths.antt` is the grammar of fragments, and `specs/Addresses.antt` says how a URI
//! and a fragment make one text.
#![tactic(auto)]

mod address;
mod grammar;
mod joining;
pub mod laws;
mod path;
mod segments;
mod step;

pub use address::{address_of, split_address};
pub use grammar::parse;
pub use joining::{UriFault, joined};
pub use path::{Path, Step};
