//! A metamodel document with the tables that its check needs.
ghost use Rattle.std.specs.Prelude.{◌≡◌, IfOk, length, map, slice_get};
ghost use Rattle.std.specs.Option.{option_copied};
ghost use Rattle.mm_types.specs.WellFormed.{WellFormed, feature_at};
ghost use Rattle.mm_meta.specs.Resolution.{IsResolutionOf};
ghost use Rattle.mm_check.specs.Search.{feature_count};

use mm_meta::{Resolution, Resolver};
use mm_types::{Enumeration, RawClass, RawFeature, RawMeta, Seq, Text};
use std::alloc::{AllocError, Global};
use std::marker::Model;

/// A metamodel document that is checked.
#[derive(Drop)]
pub struct Checker<'a> {
    /// Finds the enumerations, classes, literals and features of the document by their names.
    pub resolver: Resolver<'a>,
    /// For each class its direct supertypes, each as an index in the list of classes of the document. A supertype that is no class of the
    /// document is left out.
    pub graph: Vec<Seq<usize>>,
    /// The names of the features that each class declares.
    pub names: Vec<Seq<Text>>,
}

impl<'a> Model for Checker<'a> {
    ghost use Rattle.mm_types.specs.Raw.{RawMetamodel};
    ghost use Rattle.mm_check.specs.Checker.{IsChecker, checks};

    ghost Value = { RawMetamodel };

    ghost view = { checks };

    ghost invariant = { IsChecker };
}

fn feature_names(alloc: Global, features: &[RawFeature]) -> Result<Seq<Text>, AllocError>
    ensures { IfOk result (λ s. s ≡ map (λ f. f.name) features.now) }
{
    let mut names = Seq::new(alloc);
    'features: for feature in features {
        names.push(feature.name.clone()?)?;
    }
    Ok(names)
}

fn own_names(alloc: Global, classes: &[RawClass]) -> Result<Vec<Seq<Text>>, AllocError>
    ensures { IfOk result (λ v. v.items ≡ map (λ c. map (λ f. f.name) c.features) classes.now) }
{
    let mut names = Vec::new(alloc);
    'classes: for class in classes {
        names.push(feature_names(alloc, class.features.as_slice())?)?;
    }
    Ok(names)
}

impl<'a> Checker<'a> {
    /// A checker of a metamodel document. Fails only if memory is refused.
    pub fn new(alloc: Global, raw: &'a RawMeta) -> Result<Self, AllocError>
        ensures { IfOk result (λ c. c ≡ raw.now) }
    {
        let resolver = Resolver::new(alloc, raw)?;
        let graph = resolver.graph(alloc)?;
        let names = own_names(alloc, resolver.classes())?;
        Ok(Checker {
            resolver,
            graph,
            names,
        })
    }

    /// The classes and features to which the document resolves. The document has to be well-formed. Fails only if memory is refused.
    pub fn resolution(&self, alloc: Global) -> Result<Resolution, AllocError>
        requires { WellFormed self.now }
        ensures { IfOk result (IsResolutionOf self.now) }
    {
        Resolution::of(alloc, &self.resolver, self.graph.as_slice())
    }

    /// How many enumerations there are.
    pub fn enum_count(&self) -> usize
        ensures { result ≡ length self.now.enums }
    {
        self.resolver.enums().len()
    }

    /// How many classes there are.
    pub fn class_count(&self) -> usize
        ensures { result ≡ length self.now.classes }
    {
        self.resolver.classes().len()
    }

    /// How many features the class at the index `c` declares; 0 if there is no such class.
    pub fn feature_count(&self, c: usize) -> usize
        ensures { result ≡ feature_count self.now c }
    {
        match self.class_at(c) {
            Some(class) => class.features.len(),
            None => 0,
        }
    }

    /// The enumeration at the index `i`; `None` if there is none.
    pub fn enum_at(&self, i: usize) -> Option<&Enumeration>
        ensures { option_copied result ≡ slice_get self.now.enums i }
    {
        self.resolver.enums().get(i)
    }

    /// The class at the index `c`; `None` if there is none.
    pub fn class_at(&self, c: usize) -> Option<&RawClass>
        ensures { option_copied result ≡ slice_get self.now.classes c }
    {
        self.resolver.classes().get(c)
    }

    /// The feature at the index `i` among the features that the class `c` declares; `None` if there is none.
    pub fn feature_at(&self, c: usize, i: usize) -> Option<&RawFeature>
        ensures { option_copied result ≡ feature_at self.now c i }
    {
        self.class_at(c)?.features.as_slice().get(i)
    }
}
