//! JSON objects are read by their fields. A field describes a key: whether the key is required, and how the value of the key is read.
//!
//! `specs/Fields.antt` defines fields, and how values are read. The functions of this crate find and take the members of an object, for
//! crates that read values of `serde_json`.
#![tactic(auto)]

mod members;
mod read_fault;

pub use members::{
    find, has_only_keys, has_only_keys_of, is_word, members_of, only_members_of, take,
};
pub use read_fault::ReadFault;
