//! Containment: the nodes above a node, the resource that an object is in, the objects that a node contains, all objects below a node, and
//! whether a node is below a given node.
#![tactic(auto)]

mod above;
mod below;
mod forest;
pub mod laws;
mod tree;

pub use above::{holder_resource, is_under, parent_of, root_of};
pub use forest::{container, contents, push_some};
pub use tree::{is_within, node_subtree, subtree};
