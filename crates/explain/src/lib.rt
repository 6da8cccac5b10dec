//! Explains to a reader what to fix in a metamodel for which `mm_load` or `mm_check` returned a fault.
//!
//! No contract determines the text of an explanation. It is proved that the functions are safe and terminate; the cases of the program show
//! the texts.
#![tactic(auto)]

mod bounds;
mod conditions;
mod duplicates;
mod fields;
mod inherited;
mod layout;
mod metamodel;
mod named;
mod near;
mod opposites;
mod shown;
mod syntax;
mod types;
mod values;

pub use fields::{Field, Sort};
pub use layout::explain_object;
pub use metamodel::explain_meta;
pub use near::nearest;
pub use shown::{Listed, Shown, front_of};
pub use syntax::offset_of;
