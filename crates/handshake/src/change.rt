//! Changes.
ghost use Rattle.std.specs.Prelude.{◌≡◌};

use crate::act::Act;
use mm_meta::Meta;
use mm_types::{ClassNo, End, ObjectNo, ResourceNo, Text};
use resource_docs::Doc;

/// A change of objects, their values and their links, or of resources.
#[derive(Drop)]
pub enum Change {
    /// Changes the values of a feature of a node.
    At(End, Act),
    /// Makes an object of a class (EMF: EFactory.create).
    Create(ClassNo),
    /// Destroys an object and all objects below it, and takes each of them out of every end that has it as a value (EMF: EcoreUtil.delete,
    /// recursively).
    Delete(ObjectNo),
    /// Makes a resource with a URI. The URI has to be the result of joining some URI reference with some base URI (EMF:
    /// ResourceSet.createResource).
    NewResource(Text),
    /// Resolves all proxies one after another. The proxies are ordered by the number of the referring object, then by feature, in the order
    /// of all features of the object's class, and then by index. A proxy that can't be resolved when its turn comes is skipped (EMF:
    /// EcoreUtil.resolveAll).
    ResolveAll,
    /// Makes the objects of a document, with their values and links, in an empty resource (EMF: Resource.load).
    Load(ResourceNo, Doc),
}

impl Change {
    ghost use Rattle.handshake.specs.Changes.{edits_links_alone, edits_one_kind, edits_values_alone, is_at_reference};

    /// Whether the change is a `Create`, or is an act at an end and the act is no `Resolve`. If so, the change edits either only values or
    /// only links.
    fn edits_one_kind(&self) -> bool
        ensures { result ≡ edits_one_kind self.now }
    {
        match self {
            Change::Create(_) => true,
            Change::At(_, Act::Resolve(_)) => false,
            Change::At(..) => true,
            _ => false,
        }
    }

    /// Whether the change is an act at an end whose feature is a reference.
    fn is_at_reference(&self, meta: &Meta) -> bool
        ensures { result ≡ is_at_reference meta.now self.now }
    {
        match self {
            Change::At(end, _) => meta.is_reference(end.feature),
            _ => false,
        }
    }

    /// Whether the change is a `Create`, or is an act at an attribute and the act is no `Resolve`. If so, the change edits only values, and
    /// no link. Takes no memory.
    pub fn edits_values_alone(&self, meta: &Meta) -> bool
        ensures { result ≡ edits_values_alone meta.now self.now }
    {
        self.edits_one_kind() && !self.is_at_reference(meta)
    }

    /// Whether the change is an act at a reference and the act is no `Resolve`. If so, the change edits only links, and no value. Takes no
    /// memory.
    pub fn edits_links_alone(&self, meta: &Meta) -> bool
        ensures { result ≡ edits_links_alone meta.now self.now }
    {
        self.edits_one_kind() && self.is_at_reference(meta)
    }
}
