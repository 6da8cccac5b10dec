//! The classes of a metamodel document are resolved.
ghost use Rattle.std.specs.Prelude.{◌≡◌, ◌<◌, ◌^◌, ℕ, IfOk, length, map};
ghost use Rattle.std.specs.List.{All, filter_map};
ghost use Rattle.mm_types.specs.Features.{all_features};
ghost use Rattle.mm_types.specs.Graph.{by_class};
ghost use Rattle.mm_types.specs.Resolved.{class_named, class_no, classes_from, feature_no, graph_of, own_of, resolved_class as class_resolved};
ghost use Rattle.mm_graph.specs.Order.{InRange};

use crate::resolver::Resolver;
use mm_types::{Class, ClassNo, FeatureNo, RawClass, Seq, Text};
use std::alloc::{AllocError, Global};
use std::mem;

fn class_numbers(alloc: Global, numbers: &[usize]) -> Result<Seq<ClassNo>, AllocError>
    requires { All (λ n. n < 2 ^ 32) numbers.now }
    ensures { IfOk result (λ s. s ≡ map class_no numbers.now) }
{
    let mut found = Seq::new(alloc);
    'numbers: for n in numbers {
        found.push(ClassNo(*n as u32))?;
    }
    Ok(found)
}

/// The features with these numbers, in a list without unused capacity.
fn feature_numbers(alloc: Global, numbers: &[u32]) -> Result<Seq<FeatureNo>, AllocError>
    ensures { IfOk result (λ s. s ≡ map feature_no numbers.now) }
{
    let mut found = Vec::with_capacity(alloc, numbers.len())?;
    'numbers: for n in numbers {
        found.push(FeatureNo(*n))?;
    }
    Ok(Seq::from_vec(found))
}

impl<'a> Resolver<'a> {
    /// The number of the first class with each of these names; a name that no class has is skipped.
    fn supers_of(&self, alloc: Global, names: &[Text]) -> Result<Seq<usize>, AllocError>
        ensures { IfOk result (λ s. s ≡ filter_map (class_named self.now.classes) names.now) }
    {
        let mut found = Seq::new(alloc);
        'names: for name in names {
            if let Some(c) = self.class(name.as_str()) {
                found.push(c)?;
            }
        }
        Ok(found)
    }

    fn supertypes(&self, alloc: Global) -> Result<Vec<Seq<usize>>, AllocError>
        ensures { IfOk result (λ g. g.items ≡ graph_of self.now.classes) }
    {
        let mut rows = Vec::new(alloc);
        'classes: for class in self.classes() {
            rows.push(self.supers_of(alloc, class.supers.as_slice())?)?;
        }
        Ok(rows)
    }

    /// For each class of the document, the numbers of its direct supertypes; the name of a supertype that no class has is skipped. Fails
    /// only if memory is refused.
    pub fn graph(&self, alloc: Global) -> Result<Vec<Seq<usize>>, AllocError>
        ensures value { IfOk result (λ g. g.items ≡ graph_of self.now.classes) }
        ensures range { IfOk result (λ g. InRange g.items) }
    {
        let rows = self.supertypes(alloc)?;
        Ok(rows)
    }

    /// The class `raw` with its names resolved. Its number is `c`, `graph` has the direct supertypes of each class, and `all` has the
    /// numbers of all features of the class `c`, own and inherited.
    fn resolved_class(
        &self,
        alloc: Global,
        c: usize,
        raw: &RawClass,
        graph: &[Seq<usize>],
        all: &[u32],
    ) -> Result<Class, AllocError>
        requires inside { c < length self.now.classes }
        requires graph { graph.now ≡ graph_of self.now.classes }
        requires all { all.now ≡ all_features (graph_of self.now.classes) (own_of self.now.classes) c }
        ensures { IfOk result (λ k. k ≡ class_resolved self.now.classes c raw.now) }
    {
        let own = self.own();
        let name = raw.name.clone()?;
        let supers = class_numbers(alloc, graph[c].as_slice())?;
        let own = feature_numbers(alloc, own[c].as_slice())?;
        let all = feature_numbers(alloc, all)?;
        Ok(Class {
            name,
            is_abstract: raw.is_abstract,
            supers,
            own,
            all,
        })
    }

    /// The classes of the document with their names resolved. For each class, `graph` has the direct supertypes, and `all` has the numbers
    /// of all features, own and inherited. Each list of `all` is freed as soon as its class is made, so that at most one list is in memory
    /// together with the class that is made of it.
    pub fn resolved_classes(
        &self,
        alloc: Global,
        graph: &[Seq<usize>],
        mut all: Vec<Seq<u32>>,
    ) -> Result<Seq<Class>, AllocError>
        requires graph { graph.now ≡ graph_of self.now.classes }
        requires long { length all.items ≡ length self.now.classes }
        requires all { (c : ℕ) → c < length self.now.classes → by_class all.items c ≡ all_features (graph_of self.now.classes) (own_of self.now.classes) c }
        ensures { IfOk result (λ s. s ≡ classes_from self.now.classes 0 self.now.classes) }
    {
        let raw = self.classes();
        let mut classes = Seq::new(alloc);
        'classes: for (c, class) in raw.iter().enumerate() {
            let numbers = mem::replace(&mut all[c], Seq::new(alloc));
            classes.push(self.resolved_class(alloc, c, class, graph, numbers.as_slice())?)?;
        }
        Ok(classes)
    }
}
