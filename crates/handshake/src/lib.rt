//! Changes of a model: why a change is refused, which links it cuts, how it changes the model, and its notifications.
//!
//! `specs/Refusals.antt` says when a change is refused, `specs/Effects.antt` has the model after a change, `specs/FeatureChanges.antt` the
//! feature changes at ends, and `specs/Displaced.antt` which links a change cuts.
#![tactic(auto)]

mod act;
mod chain;
mod change;
mod change_kind;
mod displaced;
mod feature_change;
mod gains;
pub mod laws;
mod link_end;
mod named;
mod plain;
mod recursion;

pub use act::Act;
pub use chain::{lost_notices, notice};
pub use change::Change;
pub use change_kind::{ChangeKind, FeatureChange};
pub use displaced::{add_counterpart, cut_link_ends, displaces, push_link_end};
pub use feature_change::{notices, push_resolved};
pub use gains::{gain_refusal, link_refusal};
pub use named::{early_refusal, list_early_refusal, set_early_refusal};
pub use plain::{has_already, is_plain_add, is_plain_set, is_repeat};
