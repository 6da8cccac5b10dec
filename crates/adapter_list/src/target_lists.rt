//! For each node, the adapters that have the node as a target. So the adapters of a node are found without looking at other adapters.
ghost use Rattle.std.specs.Prelude.{◌≡◌, ◌≤◌, ◌<◌, [], length, insert, remove, position, OnOk, OnErr, if◌then◌else◌};
ghost use Rattle.mm_types.specs.Same.{same_node};
ghost use Rattle.mm_types.specs.declared.numbers.Node.{Node};
ghost use Rattle.notice_chain.specs.Listed.{same_no};
ghost use Rattle.adapter_list.specs.Targets.{HasNoEmpty, entries_in, is_any, key as key_of};

use indexmap::IndexMap;
use mm_types::{AdapterNo, Node};
use std::alloc::{AllocError, Global};

/// A node, as a key of a `TargetLists`.
#[derive(Clone, Copy, Debug, PartialEq, Eq, Hash)]
pub(crate) struct NodeKey {
    pub is_resource: bool,
    pub number: u32,
}

/// An adapter that is attached to a node.
#[derive(Clone, Copy, Debug, PartialEq, Eq)]
pub(crate) struct Entry {
    pub no: AdapterNo,
    /// Whether the node is a deep target of the adapter.
    pub deep: bool,
}

/// The adapters of each node that has adapters. The owner of this table keeps the entries of a node in attach order. An entry has the
/// number of its adapter, and not the adapter's index, so the entry stays right if a different adapter is given back.
#[derive(Drop)]
pub(crate) struct TargetLists {
    alloc: Global,
    lists: IndexMap<NodeKey, Vec<Entry>>,
}

/// The key of a node.
fn key(node: Node) -> NodeKey
    ensures { result ≡ key_of node }
{
    match node {
        Node::Object(object) => NodeKey {
            is_resource: false,
            number: object.0,
        },
        Node::Resource(resource) => NodeKey {
            is_resource: true,
            number: resource.0,
        },
    }
}

impl TargetLists {
    /// A table without adapters. Takes no memory.
    pub fn new(alloc: Global) -> Self
        ensures entries { (x : Node) → entries_in result x ≡ [] }
        ensures none_empty { HasNoEmpty result }
    {
        TargetLists {
            alloc,
            lists: IndexMap::new(alloc),
        }
    }

    /// The adapters of a node. Takes no memory.
    pub fn at(&self, node: Node) -> &[Entry]
        ensures { result.now ≡ entries_in self.now node }
    {
        match self.lists.get(&key(node)) {
            Some(list) => list,
            None => &[],
        }
    }

    /// Whether a node has any adapters. Takes no memory.
    pub fn has_any(&self, node: Node) -> bool
        ensures { result ≡ is_any (entries_in self.now node) }
    {
        !self.at(node).is_empty()
    }

    /// The index of the adapter with the number `no` among the adapters of a node; `None` if this adapter is not among them. Takes no
    /// memory.
    pub fn index_of(&self, node: Node, no: AdapterNo) -> Option<usize>
        ensures { result ≡ position (λ e. same_no no e.no) (entries_in self.now node) }
    {
        self.at(node).iter().position(|entry| no == entry.no)
    }

    /// Adds an adapter at an index among the adapters of a node. Fails only if memory is refused; then no entry has changed.
    pub fn insert(&mut self, node: Node, index: usize, entry: Entry) -> Result<(), AllocError>
        requires { index ≤ length (entries_in self.old node) }
        ensures ok { OnOk result ((x : Node) → entries_in self.new x ≡ (if same_node node x then insert (entries_in self.old x) index entry else entries_in self.old x)) }
        ensures err { OnErr result ((x : Node) → entries_in self.new x ≡ entries_in self.old x) }
        ensures none_empty { HasNoEmpty self.old → HasNoEmpty self.new }
    {
        if let Some(list) = self.lists.get_mut(&key(node)) {
            list.insert(index, entry)?;
            return Ok(());
        }
        let mut list = Vec::with_capacity(self.alloc, 1)?;
        list.push_reserved(entry);
        self.lists.insert(key(node), list)?;
        Ok(())
    }

    /// Takes out the adapter at an index among the adapters of a node, and drops the list of the node if no adapter is left. Takes no
    /// memory.
    pub fn remove(&mut self, node: Node, index: usize)
        requires { index < length (entries_in self.old node) }
        ensures removed { (x : Node) → entries_in self.new x ≡ (if same_node node x then remove (entries_in self.old x) index else entries_in self.old x) }
        ensures none_empty { HasNoEmpty self.old → HasNoEmpty self.new }
    {
        let many = self.at(node).len();
        if many > 1 {
            self.remove_one(node, index);
        } else {
            self.drop_list(node);
        }
    }

    /// Takes out the adapter at an index among the adapters of a node. The node must have at least two adapters.
    fn remove_one(&mut self, node: Node, index: usize)
        requires within { index < length (entries_in self.old node) }
        requires more { 1 < length (entries_in self.old node) }
        ensures removed { (x : Node) → entries_in self.new x ≡ (if same_node node x then remove (entries_in self.old x) index else entries_in self.old x) }
        ensures none_empty { HasNoEmpty self.old → HasNoEmpty self.new }
    {
        if let Some(list) = self.lists.get_mut(&key(node)) {
            list.remove(index);
        }
    }

    /// Takes out all adapters of a node. Takes no memory.
    pub fn drop_list(&mut self, node: Node)
        ensures dropped { (x : Node) → entries_in self.new x ≡ (if same_node node x then [] else entries_in self.old x) }
        ensures none_empty { HasNoEmpty self.old → HasNoEmpty self.new }
    {
        let _ = self.lists.swap_remove(&key(node));
    }
}
