//! Snapshots of nodes, and replaying notifications on them.
//!
//! A caller that has a snapshot of a node, and every later notification of that node and of the nodes below it, can replay the
//! notifications on the snapshot. As long as the node exists, the result agrees with a new snapshot on the state of the node, and on the
//! state of each node that was below it all the time. `specs/Snapshots.antt` says what a snapshot of a model is, and `specs/Replayed.antt`
//! how replaying changes a snapshot.
#![tactic(auto)]

mod list_replay;
mod replaying;
mod snapshot;
mod taking;

pub use replaying::replay;
pub use snapshot::{FeatureState, NodeState, Snapshot};
