//! The list of attached adapters: which adapters get a notification, what is reserved for a chain of notifications, and how the chain is
//! delivered. For deep targets, a store of links says which nodes are above a node.
//!
//! A list owns its adapters, in attach order, with their targets. Contracts see the number, the targets, the view and the capacity of each
//! adapter. An adapter always has capacity for a last notification from each of its targets.
#![tactic(auto)]

mod attach_refused;
mod attached;
mod counts;
mod detached;
mod going;
mod hearers;
pub mod laws;
mod leaving;
mod list;
mod marks;
mod refusal;
mod release;
mod round;
mod spots;
mod target_lists;

pub use attach_refused::AttachRefused;
pub use attached::Attached;
pub use detached::Detached;
pub use hearers::Hearers;
pub use leaving::Leaving;
pub use list::AdapterList;
pub use release::Release;
pub use round::Round;
pub use spots::{one_spot, own_spots};
