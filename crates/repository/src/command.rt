//! The calls of a repository, as values.
use adapters::Adapter;
use handshake::Act;
use mm_types::{AdapterNo, ClassNo, End, Node, ObjectNo, Read, ResourceNo, Text};

/// A call of the repository, as a value.
#[derive(Drop)]
pub enum Command<A = Box<dyn Adapter>> {
    /// Changes the values of a feature of a node.
    At(End, Act),
    /// Makes an object of a class (EMF: EFactory.create; MOF 2.5.1: Reflection, Factory.create).
    Create(ClassNo),
    /// Destroys an object and all objects below it, and takes each of them out of every end that has it as a value (EMF: EcoreUtil.delete,
    /// recursively; MOF 2.5.1: Reflection, Object.delete).
    Delete(ObjectNo),
    /// Makes a resource; the text gives its URI (EMF: ResourceSet.createResource).
    CreateResource(Text),
    /// Reads a text as a document, and loads the document into an empty resource (EMF: Resource.load).
    Load(ResourceNo, Text),
    /// Resolves all proxies, one after another (EMF: EcoreUtil.resolveAll). The proxies are ordered by the number of the referring object,
    /// then by feature in the order of all features, then by index. In its turn a proxy is skipped if `Repository::resolve` would then be
    /// refused, for a reason other than `AdapterFull` and `Memory`. The command is refused if memory is refused, or if an adapter can't
    /// count its notifications of the command and a last notification from each of its targets. Then no proxy is resolved and no adapter is
    /// notified.
    ResolveAll,
    /// Attaches an adapter to a node, as the last in attach order (EMF: Notifier.eAdapters().add). If `deep`, the adapter is also notified
    /// of changes below the node (EMF: EContentAdapter).
    Attach {
        no: AdapterNo,
        target: Node,
        deep: bool,
        adapter: A,
    },
    /// Gives an adapter one more target (EMF: Notifier.eAdapters().add of an adapter that is attached elsewhere).
    Watch {
        no: AdapterNo,
        target: Node,
        deep: bool,
    },
    /// Takes one target from an adapter, and notifies the adapter of this. If the adapter has no other target, it is given back (EMF:
    /// Notifier.eAdapters().remove).
    Unwatch {
        no: AdapterNo,
        target: Node,
    },
    /// Detaches an adapter from all its targets. The adapter is notified once for each target, and is given back (EMF:
    /// Notifier.eAdapters().remove).
    Detach(AdapterNo),
    /// Reads something of the model, or a count of an adapter. Changes nothing.
    Read(Read),
}
