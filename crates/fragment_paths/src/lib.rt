//! The fragment of an object in its resource, the address of an object, and the object that a fragment or an address leads to.
//!
//! `specs/Fragments.antt` says what the fragment of an object is, `specs/Finding.antt` what a fragment and an address find, and
//! `specs/Laws.antt` that each object is found at its own path, fragment and address.
#![tactic(auto)]

mod ends;
mod finding;
mod fragments;
pub mod laws;
mod path_cache;
mod paths;
mod positions;

pub use finding::{find, object_at};
pub use fragments::{address, reference, write};
pub use path_cache::PathCache;
pub use positions::Positions;
pub use web_uris::{Path, Step, parse};
