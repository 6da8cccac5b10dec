//! The reads of a repository, as values. A read names the thing that is asked about, such as an end or an object, and the question.
use crate::end::End;
use crate::numbers::{AdapterNo, Node, ObjectNo, ResourceNo};
use crate::text::Text;

/// A read of the repository, as a value.
#[derive(Drop)]
pub enum Read {
    /// Asks about a feature of a node.
    At(End, EndRead),
    /// Asks about an object.
    Of(ObjectNo, ObjectRead),
    /// Asks about a node and the nodes below it.
    Under(Node, NodeRead),
    /// Asks for the document of a resource, as a text (EMF: Resource.save).
    Save(ResourceNo),
    /// Asks for the object at an address (EMF: ResourceSet.getEObject, without loading).
    ObjectAt(Text),
    /// Asks how many notifications an adapter got or keeps.
    Adapter(AdapterNo, Tally),
}

/// A question about a feature of a node.
#[derive(Clone, Copy, Drop)]
pub enum EndRead {
    /// The value of a single feature, or the list of a many-valued feature (EMF: EObject.eGet; MOF 2.5.1: Reflection, Object.get).
    Get,
    /// Whether the feature is set (EMF: EObject.eIsSet; MOF 2.5.1: Reflection, Object.isSet).
    IsSet,
}

/// A question about an object.
#[derive(Clone, Copy, Drop)]
pub enum ObjectRead {
    /// The class of the object (EMF: EObject.eClass; MOF 2.5.1: Reflection, Element.getMetaClass).
    Class,
    /// The object that directly contains the object, if there is one (EMF: EObject.eContainer; MOF 2.5.1: Reflection, Object.container).
    Container,
    /// The resource that the object is in, directly or below other objects, if there is one (EMF: EObject.eResource).
    Resource,
    /// The features of the object that have fewer values than their lower bounds (EMF: Diagnostician.validate, of multiplicities). Here a
    /// single feature counts as having no value if it is null, or if it is unsettable and not set.
    Validate,
    /// The fragment of the object in its resource (EMF: Resource.getURIFragment).
    Fragment,
}

/// A question about a node and the nodes below it.
#[derive(Clone, Copy, Drop)]
pub enum NodeRead {
    /// The objects that the node directly contains (EMF: EObject.eContents).
    Contents,
    /// The state of the node and of each node below it. The state of a node is its class, the values of its features and its set flags.
    Snapshot,
}

/// Which notifications of an adapter are counted.
#[derive(Clone, Copy, Drop)]
pub enum Tally {
    /// All notifications that the adapter got.
    Told,
    /// The notifications that the adapter keeps.
    Kept,
}
