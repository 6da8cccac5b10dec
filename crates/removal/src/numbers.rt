//! The numbers of the destroyed objects: a look-up tells fast whether a node is destroyed.
ghost use Rattle.std.specs.Prelude.{◌≡◌, IfOk};
ghost use Rattle.mm_types.specs.declared.numbers.Node.{Node};
ghost use Rattle.containment.specs.Forest as forest;
ghost use Rattle.removal.specs.Ranks as ranks;

use mm_types::{Node, ObjectNo};
use std::alloc::{AllocError, Global};
use std::collections::BTreeSet;

/// The numbers of some objects.
#[derive(Drop)]
pub(crate) struct Numbers(BTreeSet<u32>);

impl Numbers {
    /// The numbers of `objects`. Fails only if memory is refused.
    pub(crate) fn of(alloc: Global, objects: &[ObjectNo]) -> Result<Numbers, AllocError>
        ensures { IfOk result (λ s. (n : Node) → ranks.is_in s n ≡ forest.is_node_among objects.now n) }
    {
        let mut numbers = BTreeSet::new(alloc);
        for object in objects {
            numbers.insert(object.0)?;
        }
        Ok(Numbers(numbers))
    }

    /// Whether a node is an object with one of these numbers. The function does not walk up through the containers of the node, so it takes
    /// no more time in a deep tree than in a flat tree of as many objects. Takes no memory.
    pub(crate) fn has(&self, node: Node) -> bool
        ensures { result ≡ ranks.is_in self.now node }
    {
        match node {
            Node::Object(object) => self.0.contains(&object.0),
            Node::Resource(_) => false,
        }
    }
}
