//! The parts of a resource document: the JSON value of each object, with its path, and the contents of its features.
//!
//! `specs/Layout.antt` is the layout of a document, key by key. `specs/Parts.antt` says which parts are looked at, `specs/Contents.antt`
//! whether the content of a feature is of the feature's type, and `specs/Faults.antt` which faults concern one object alone.
#![tactic(auto)]

mod attributes;
mod checks;
mod contents;
mod entries;
mod found;
mod layout;
mod objects;
mod walk;

pub use attributes::attribute_value;
pub use checks::{has_deep, has_misshapen, has_unknown_class, has_unknown_feature};
pub use contents::{is_content, is_long};
pub use entries::{class_of, content_at, known, values_of};
pub use found::{FoundPart, FoundParts, Numbers, PartKey, index_of};
pub use layout::{TopMembers, top};
pub use walk::find_parts;
