//! What is above a node: the node that contains it, whether a given node is above it, and the topmost node; and the resource that an object
//! is in.
ghost use Rattle.std.specs.Prelude.{◌≡◌};
ghost use Rattle.std.specs.List.{list_any};
ghost use Rattle.std.specs.Option.{option_map};
ghost use Rattle.mm_types.specs.Same.{same_node};
ghost use Rattle.mm_types.specs.declared.numbers.Node.TheVariants as node;
ghost use Rattle.links.specs.Holders.{HasNoCycle, above as above_of, holder as holder_of};
ghost use Rattle.links.specs.LegalSets.{IsLegalSet};
ghost use Rattle.containment.specs.Above.{resource_of, root_of as root};

use links::LinkStore;
use mm_types::{Node, ObjectNo, ResourceNo};

/// Whether `above` is among the nodes above `node` (EMF: EcoreUtil.isAncestor, which is also true of an object and itself). No node is
/// above itself. Takes no memory.
pub fn is_under<L: LinkStore>(store: &L, node: Node, above: Node) -> bool
    requires legal { IsLegalSet (L.links store.now) }
    requires no_cycle { HasNoCycle (L.links store.now) }
    ensures { result ≡ list_any (same_node above) (above_of (L.links store.now) node) }
{
    let mut at = node;
    while let Some(next) = parent_of(store, at) {
        if above == next {
            return true;
        }
        at = next;
    }
    false
}

/// The topmost node among a node and the nodes above it: the node itself if nothing contains it. The result is a resource if the node is a
/// resource or is in one (EMF: EcoreUtil.getRootContainer, which gives the topmost object instead). Takes no memory.
pub fn root_of<L: LinkStore>(store: &L, node: Node) -> Node
    requires legal { IsLegalSet (L.links store.now) }
    requires no_cycle { HasNoCycle (L.links store.now) }
    ensures { result ≡ root (above_of (L.links store.now)) node }
{
    let mut top = node;
    while let Some(next) = parent_of(store, top) {
        top = next;
    }
    top
}

/// The resource that an object is in, directly or below other objects; `None` if the object is in no resource (EMF: EObject.eResource).
/// Takes no memory.
pub fn holder_resource<L: LinkStore>(store: &L, object: ObjectNo) -> Option<ResourceNo>
    requires legal { IsLegalSet (L.links store.now) }
    requires no_cycle { HasNoCycle (L.links store.now) }
    ensures { result ≡ resource_of (above_of (L.links store.now)) object }
{
    match root_of(store, Node::Object(object)) {
        Node::Object(_) => None,
        Node::Resource(resource) => Some(resource),
    }
}

/// The node that directly contains a node; `None` for a resource, and for an object that nothing contains. Takes no memory.
pub fn parent_of<L: LinkStore>(store: &L, node: Node) -> Option<Node>
    requires legal { IsLegalSet (L.links store.now) }
    ensures { result ≡ option_map (λ e. e.node) (holder_of (L.links store.now) node) }
{
    match node {
        Node::Object(object) => store.holder(object).map(|end| end.node),
        Node::Resource(_) => None,
    }
}
