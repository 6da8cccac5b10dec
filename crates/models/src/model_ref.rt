//! Reads of a model that is kept in parts.
ghost use Rattle.std.specs.Prelude.{◌≡◌, length, option_copied, slice_get};
ghost use Rattle.mm_values.specs.Room.{values_of};
ghost use Rattle.links.specs.Holders.{HasNoCycle};
ghost use Rattle.links.specs.LegalSets.{IsLegalSet};
ghost use Rattle.models.specs.Legal.{IsLegal};
ghost use Rattle.models.specs.Model.{model_of, reading};
ghost use Rattle.models.specs.Reading as r;

use links::LinkStore;
use mm_meta::Meta;
use mm_types::{ClassNo, End, FeatureNo, Node, ObjectNo, ResourceNo};
use mm_values::Values;
use std::marker::Model;

/// A legal model, borrowed in the parts in which it is kept: a metamodel, values, and a store of links. Contracts see a `ModelRef` as the
/// model of these parts.
///
/// No read of a `ModelRef` takes memory.
#[derive(Drop)]
pub struct ModelRef<'a, L: LinkStore> {
    meta: &'a Meta,
    values: &'a Values,
    store: &'a L,
}

impl<'a, L: LinkStore> Model for ModelRef<'a, L> {
    ghost use Rattle.std.specs.Coded.{codes};
    ghost use Rattle.mm_values.specs.Room.{values_of};
    ghost use Rattle.links.specs.Links.{coded_links};
    ghost use Rattle.models.specs.Legal.{IsLegal};
    ghost use Rattle.models.specs.Model.{Model, coded_map, model_of};

    ghost Value = { Model };

    ghost coded = { Prim.hlevel (codes, coded_map, coded_links) };

    ghost view = { λ x. model_of x.meta.now (values_of x.values.now) (L.links x.store.now) };

    ghost invariant = { λ x. IsLegal (model_of x.meta.now (values_of x.values.now) (L.links x.store.now)) };
}

impl<'a, L: LinkStore> ModelRef<'a, L> {
    /// The model of a metamodel, values and links. The model has to be legal.
    pub fn new(meta: &'a Meta, values: &'a Values, store: &'a L) -> Self
        requires legal { IsLegal (model_of meta.now (values_of values.now) (L.links store.now)) }
        ensures { result ≡ model_of meta.now (values_of values.now) (L.links store.now) }
    {
        ModelRef {
            meta,
            values,
            store,
        }
    }

    /// The model of every `ModelRef` is legal. A call of this function gives this fact to a proof that knows the model only as contracts
    /// see it.
    pub fn lemma_is_legal(&self)
        ensures { IsLegal self.now }
    {
        let _ = &self.meta;
    }

    /// The metamodel.
    pub fn meta(&self) -> &'a Meta
        ensures { result.now ≡ self.now.metamodel }
    {
        self.meta
    }

    /// The store of links.
    pub fn store(&self) -> &'a L
        ensures links { L.links result.now ≡ self.now.links }
        ensures legal { IsLegalSet (L.links result.now) }
        ensures no_cycle { HasNoCycle (L.links result.now) }
    {
        self.store
    }

    /// How many objects were made, destroyed ones among them.
    pub fn next(&self) -> usize
        ensures { result ≡ (reading self.now).next }
    {
        self.values.next()
    }

    /// How many resources there are.
    pub fn resources(&self) -> usize
        ensures { result ≡ length (reading self.now).uris }
    {
        self.values.resources()
    }

    /// The class of an object (EMF: EObject.eClass); `None` if no live object has the number.
    pub fn class(&self, object: ObjectNo) -> Option<ClassNo>
        ensures { result ≡ (reading self.now).class object }
    {
        self.values.class(object)
    }

    /// Whether a node has a feature, own or inherited; false for an object that is not live, and for a resource that does not exist.
    pub fn has_feature(&self, node: Node, feature: FeatureNo) -> bool
        ensures { result ≡ r.has_feature (reading self.now) node feature }
    {
        match node {
            Node::Object(object) => match self.values.class(object) {
                Some(class) => self.meta.has_feature(class, feature),
                None => false,
            },
            Node::Resource(resource) => {
                self.has_resource(resource) && feature == self.meta.contents()
            }
        }
    }

    /// The URI of a resource (EMF: Resource.getURI); `None` if no resource has the number.
    pub fn uri(&self, resource: ResourceNo) -> Option<&'a str>
        ensures { option_copied result ≡ slice_get (reading self.now).uris resource.0 }
    {
        self.values.uri(resource)
    }

    /// The resource with a given URI (EMF: ResourceSet.getResource); `None` if no resource has the URI.
    pub fn resource_named(&self, uri: &str) -> Option<ResourceNo>
        ensures { result ≡ r.resource_named (reading self.now) uri.now }
    {
        self.values.resource_of(uri)
    }

    /// Whether some resource has a given URI.
    pub fn has_uri(&self, uri: &str) -> bool
        ensures { result ≡ r.has_uri (reading self.now) uri.now }
    {
        self.resource_named(uri).is_some()
    }

    /// Whether there is a resource with a given number.
    pub fn has_resource(&self, resource: ResourceNo) -> bool
        ensures { result ≡ r.has_resource (reading self.now) resource }
    {
        (resource.0 as usize) < self.resources()
    }

    /// All features of a node, own and inherited (EMF: EClass.getEAllStructuralFeatures); none for an object that is not live, and for a
    /// resource that does not exist.
    pub fn all_features(&self, node: Node) -> &'a [FeatureNo]
        ensures { result.now ≡ r.all_features_of (reading self.now) node }
    {
        match node {
            Node::Object(object) => match self.values.class(object) {
                Some(class) => self.meta.features(class).unwrap_or(&[]),
                None => &[],
            },
            Node::Resource(resource) if self.has_resource(resource) => {
                self.meta.features_of_resources()
            }
            Node::Resource(_) => &[],
        }
    }

    /// The end that contains a node (EMF: EObject.eContainer, eContainmentFeature); `None` if no end contains the node. The end that
    /// contains a root of a resource is the end `contents` of the resource; no end contains a resource.
    pub fn holder(&self, node: Node) -> Option<End>
        ensures { result ≡ (reading self.now).holder node }
    {
        let store = self.store;
        match node {
            Node::Object(object) => store.holder(object),
            Node::Resource(_) => None,
        }
    }

    /// The values: the objects with their attribute lists and set flags, and the URIs of resources.
    pub(crate) fn values(&self) -> &'a Values
        ensures { values_of result.now ≡ self.now.values }
    {
        self.values
    }
}
