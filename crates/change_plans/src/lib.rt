//! The plan of a change: the refusals that planning finds, the edits that make the change, and its notifications.
//!
//! `specs/Plans.antt` says what planning gives. `handshake` says why a change is refused, and how it changes a model.
#![tactic(auto)]

mod cuts;
mod destroyed;
mod edits;
mod joining;
mod link_planning;
mod loads;
mod planned;
mod planning;
mod resolved_proxy;
mod resolving_all;
mod value_planning;

pub use link_planning::{lone_add, lone_set, plan_links};
pub use planned::{Finding, Planned};
pub use planning::plan;
pub use value_planning::{attribute_refusal, create_refusal, plan_set, plan_values};
