//! Snapshots.
ghost use Rattle.std.specs.Prelude.{◌≡◌, option_copied};
ghost use Rattle.mm_types.specs.Same.{same_feature};
ghost use Rattle.std.specs.List.{find};
ghost use Rattle.snapshots.specs.Replayed.{state_at};
ghost use Rattle.snapshots.specs.Order.{AreInOrder};

use crate::replaying::state_index;
use mm_types::{ClassNo, FeatureNo, Node, Seq, Value};
use std::marker::Model;

/// The state of a feature of a node: the values that the node has under the feature (one null, if a single reference is empty), and the set
/// flag; `flag` is `None` if the feature is not unsettable.
#[derive(Debug, PartialEq, Drop)]
pub struct FeatureState {
    pub feature: FeatureNo,
    pub values: Seq<Value>,
    pub flag: Option<bool>,
}

/// The state of a node: its class, which is `None` for a resource, and the state of each of its features.
#[derive(Debug, PartialEq, Drop)]
pub struct NodeState {
    pub node: Node,
    pub class: Option<ClassNo>,
    pub features: Seq<FeatureState>,
}

/// The state of a node and of each node below it at some time. The states are in the order of their nodes: resources come before objects,
/// resources are in the order of their numbers, and so are objects. Each node comes once.
#[derive(Debug, Drop)]
pub struct Snapshot {
    nodes: Vec<NodeState>,
}

impl Model for Snapshot {
    ghost use Rattle.std.specs.Prelude.{List};
    ghost use Rattle.snapshots.specs.declared.snapshot.NodeState.{NodeState};
    ghost use Rattle.snapshots.specs.Order.{AreInOrder};

    ghost Value = { List NodeState };

    ghost view = { λ s. s.nodes.items };

    ghost invariant = { λ s. AreInOrder s.nodes.items };
}

impl Snapshot {
    /// The snapshot that has the states in `nodes`. They have to be in the order of a snapshot. Takes no memory.
    pub(crate) fn from_vec(nodes: Vec<NodeState>) -> Self
        requires in_order { AreInOrder nodes.items }
        ensures { result ≡ nodes.items }
    {
        Snapshot { nodes }
    }

    /// The states of the nodes as a `Vec`, in order. Takes no memory.
    pub fn into_vec(self) -> Vec<NodeState>
        ensures nodes { result.items ≡ self }
        ensures in_order { AreInOrder self }
    {
        self.nodes
    }

    /// The states of the nodes, in order.
    pub fn nodes(&self) -> &[NodeState]
        ensures nodes { result.now ≡ self.now }
        ensures in_order { AreInOrder self.now }
    {
        self.nodes.as_slice()
    }

    /// The state of a node in the snapshot; `None` if the node is not in the snapshot. Takes no memory.
    pub fn state(&self, node: Node) -> Option<&NodeState>
        ensures { option_copied result ≡ state_at node self.now }
    {
        match state_index(&self.nodes, node) {
            Some(index) => Some(&self.nodes[index]),
            None => None,
        }
    }
}

impl PartialEq for Snapshot {
    ghost use Rattle.std.specs.Cmp.Lexicographic.{pointwise, lists_per};
    ghost use Rattle.snapshots.specs.contracts.snapshot.NodeStatePartialEq.TheImpl as states;
    ghost use Rattle.snapshots.specs.contracts.snapshot.NodeStatePartialEq.TheImpl.Laws as state_laws;

    ghost eq = { λ xs ys. pointwise states.ghosts.eq xs ys };

    ghost laws = { lists_per state_laws.laws-law };

    fn eq(&self, other: &Self) -> bool {
        self.nodes == other.nodes
    }
}

impl NodeState {
    /// The state of a feature of the node; `None` if the node does not have the feature. Takes no memory.
    pub fn under(&self, feature: FeatureNo) -> Option<&FeatureState>
        ensures { option_copied result ≡ find (λ x. same_feature x.feature feature) self.now.features }
    {
        self.features
            .as_slice()
            .iter()
            .find(|x| x.feature == feature)
    }
}
