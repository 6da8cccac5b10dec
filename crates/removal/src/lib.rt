//! The effect of a deletion: it destroys an object and all objects below it; ends of other nodes lose values; and links are cut, each named
//! by one of its ends.
//!
//! `specs/Outer.antt` says which ends lose something, `specs/Losses.antt` what they lose, in order, and `specs/TreeLinkEnds.antt` which
//! links are cut, and by which end each is named.
#![tactic(auto)]

mod ends;
mod gone;
mod inner_link_ends;
pub mod laws;
mod link_end;
mod link_ends;
mod loss;
mod numbers;
mod outer_link_ends;

pub use gone::Removal;
pub use link_end::LinkEnd;
pub use link_ends::tree_link_ends;
pub use loss::{Loss, losses};
