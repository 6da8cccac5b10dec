//! What a model repository holds besides links: its objects, each with its number, its class and its attribute lists, and the URIs of its
//! resources.
//!
//! Most changes are planned as a list of edits. `Values::reserve_for` takes all the memory that a plan needs, and `Values::apply` then
//! makes the edits of the plan and cannot fail. `Values::try_apply` does both in one call. `Values::try_create` and `Values::try_put` make
//! one edit without a plan.
#![tactic(auto)]

mod attribute_lists;
mod counting;
mod list_edit;
mod new_values;
mod objects;
mod uri;
mod uris;
mod value_edit;
mod values;

pub use new_values::NewValues;
pub use value_edit::{ValueEdit, ValuePlan};
pub use values::Values;
