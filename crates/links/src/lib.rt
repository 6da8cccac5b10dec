//! Links between nodes, and proxies, which are links that are not resolved. The crate has sets of links, edits of these sets, the laws of
//! both, and the interface of a store. A plan of edits that fits a legal set keeps the set legal. A store that has capacity for a plan
//! applies the plan and cannot fail.
#![tactic(auto)]

mod incoming;
pub mod laws;
mod link;
mod order;
mod plan;
mod store;

pub use incoming::Incoming;
pub use link::{Far, Link, NewLink};
pub use order::put_in_order;
pub use plan::{Edit, Plan};
pub use store::LinkStore;
