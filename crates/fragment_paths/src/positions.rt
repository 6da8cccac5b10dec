//! The positions of objects in the ends that contain them: looked up one by one, or noted for all objects in an end at once.
ghost use Rattle.std.specs.Prelude.{◌≡◌, Some, slice_get, true};
ghost use Rattle.mm_types.specs.Same.{same_end};
ghost use Rattle.mm_types.specs.Shapes.{shape};
ghost use Rattle.mm_types.specs.declared.numbers.Node.TheVariants as node;
ghost use Rattle.mm_types.specs.declared.value.Value.TheVariants as value;
ghost use Rattle.models.specs.Legal.{IsLegal};
ghost use Rattle.models.specs.Model.{reading};
ghost use Rattle.fragment_paths.specs.Fragments as fragments;

use indexmap::IndexMap;
use links::LinkStore;
use mm_types::{End, Node, ObjectNo, Value};
use models::ModelRef;
use std::alloc::{AllocError, Global};
use std::marker::Model;

/// A position at an end.
#[derive(Clone, Copy)]
pub(crate) struct EndPosition {
    end: End,
    index: u32,
}

impl EndPosition {
    /// Whether the position is at a given end.
    fn is_at(&self, end: End) -> bool
        ensures { result ≡ same_end self.now.end end }
    {
        self.end == end
    }
}

/// A model, and the positions of some of its objects in the ends that contain them. Contracts see a `Positions` as the model.
///
/// If the position of an object is not known, the end that contains the object may have to be searched, one value after another. So a
/// caller that writes many fragments first calls `note_way` for their objects. Then each end on the ways to these objects is gone through
/// once, however many fragments lead through the end.
#[derive(Drop)]
pub struct Positions<'m, 'a, L: LinkStore> {
    model: &'m ModelRef<'a, L>,
    known: IndexMap<u32, EndPosition>,
}

impl<'m, 'a, L: LinkStore> Model for Positions<'m, 'a, L> {
    ghost use Rattle.std.specs.Coded.{codes};
    ghost use Rattle.links.specs.Links.{coded_links};
    ghost use Rattle.models.specs.Model.{Model, coded_map, reading};
    ghost use Rattle.fragment_paths.specs.Known.{KnowsPositions};

    ghost Value = { Model };

    ghost coded = { Prim.hlevel (codes, coded_map, coded_links) };

    ghost view = { λ x. x.model.now };

    ghost invariant = { λ x. KnowsPositions (reading x.model.now) x.known.entries };
}

impl<'m, 'a, L: LinkStore> Positions<'m, 'a, L> {
    /// A model with no known positions yet. Takes no memory.
    pub fn new(alloc: Global, model: &'m ModelRef<'a, L>) -> Self
        ensures { result ≡ model.now }
    {
        Positions {
            model,
            known: IndexMap::new(alloc),
        }
    }

    /// The model. Takes no memory.
    pub fn model(&self) -> &'m ModelRef<'a, L>
        ensures { result.now ≡ self.now }
    {
        self.model
    }

    /// The model is always legal. Contracts don't say so, since they see a `Positions` as its model. A function calls this lemma if its
    /// proof needs this fact.
    pub(crate) fn lemma_is_legal(&self)
        ensures { IsLegal self.now }
    {
        self.model.lemma_is_legal();
    }

    /// The end that contains an object; `None` if no end contains the object.
    pub(crate) fn holder(&self, object: ObjectNo) -> Option<End>
        ensures { result ≡ (reading self.now).holder (node.Object object) }
    {
        self.model.holder(Node::Object(object))
    }

    /// The position of an object in an end; 0 if the object is not there.
    pub(crate) fn position_in(&self, end: End, object: ObjectNo) -> u32
        ensures { result ≡ fragments.position_in (reading self.now) end object }
    {
        match self.known.get(&object.0) {
            Some(noted) if noted.is_at(end) => noted.index,
            _ => self
                .model
                .position(end, &Value::Object(object))
                .unwrap_or(0),
        }
    }

    /// Whether a position of an object is known. The known positions are no part of the model that contracts see, so no contract speaks of
    /// them.
    fn is_known(&self, object: ObjectNo) -> bool {
        self.known.contains_key(&object.0)
    }

    /// Notes that `object` is at the position `index` of `end`. Requires that the object is there, and that `end` is an end of a reference.
    fn note(&mut self, end: End, index: u32, object: ObjectNo) -> Result<(), AllocError>
        requires reference { (shape self.old.metamodel end.feature).is_reference ≡ true }
        requires there { slice_get ((reading self.old).values end) index ≡ Some (value.Object object) }
        ensures { self.new ≡ self.old }
    {
        self.model.lemma_is_legal();
        self.known.insert(object.0, EndPosition { end, index })?;
        Ok(())
    }

    /// Notes the object at a position of an end of a reference, if an object is there.
    fn note_at(&mut self, end: End, index: u32) -> Result<(), AllocError>
        requires reference { (shape self.old.metamodel end.feature).is_reference ≡ true }
        ensures { self.new ≡ self.old }
    {
        match self.model().object_in(end, index) {
            Some(object) => self.note(end, index, object),
            None => Ok(()),
        }
    }

    /// Notes the position of each object at an end of a reference.
    fn note_end(&mut self, end: End) -> Result<(), AllocError>
        requires reference { (shape self.old.metamodel end.feature).is_reference ≡ true }
        ensures { self.new ≡ self.old }
    {
        'positions: for index in 0..self.model().len(end) {
            self.note_at(end, index)?;
        }
        Ok(())
    }

    /// Notes the positions of an object, of the objects above it, and of all other objects in the ends that contain these objects. The call
    /// goes up from the object, and stops at the first object whose position is known already: the call that noted this position also noted
    /// the positions above it, unless that call failed. Fails only if memory is refused; the model is the same in any case.
    pub fn note_way(&mut self, object: ObjectNo) -> Result<(), AllocError>
        ensures { self.new ≡ self.old }
    {
        self.lemma_is_legal();
        let mut at = object;
        'up: while let Some(end) = self.holder(at) {
            if self.is_known(at) {
                return Ok(());
            }
            self.note_end(end)?;
            match end.node {
                Node::Object(above) => at = above,
                Node::Resource(_) => return Ok(()),
            }
        }
        Ok(())
    }
}
