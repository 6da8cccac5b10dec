//! What a deletion of an object concerns: the objects that it destroys, and the ends of other nodes that lose values.
ghost use Rattle.std.specs.Prelude.{◌≡◌, true, IfOk};
ghost use Rattle.models.specs.Model.{reading};
ghost use Rattle.models.specs.Reading.{is_live};
ghost use Rattle.removal.specs.Ranks as ranks;
ghost use Rattle.removal.specs.Removals.{IsRemoval};

use crate::ends::ends_touched_by;
use crate::numbers::Numbers;
use containment::subtree;
use links::LinkStore;
use mm_types::{End, Node, ObjectNo};
use models::ModelRef;
use std::alloc::{AllocError, Global};

/// What a deletion of an object concerns: the objects that it destroys (the object and all objects below it), and the ends of other nodes
/// that have some of these objects as values. `Removal::of` finds all this in one search, and `losses` and `tree_link_ends` borrow the
/// result.
#[derive(Drop)]
pub struct Removal {
    /// The object that is deleted.
    pub object: ObjectNo,
    /// The deleted object and all objects below it, each before the objects that it contains.
    pub objects: Vec<ObjectNo>,
    pub(crate) numbers: Numbers,
    pub(crate) ends: Vec<End>,
}

impl Removal {
    /// What a deletion of a live object concerns. Fails only if memory is refused.
    pub fn of<L: LinkStore>(
        alloc: Global,
        model: &ModelRef<L>,
        object: ObjectNo,
    ) -> Result<Removal, AllocError>
        requires live { is_live (reading model.now) object ≡ true }
        ensures object { IfOk result (λ x. x.object ≡ object) }
        ensures found { IfOk result (IsRemoval (reading model.now)) }
    {
        let objects = subtree(alloc, model, object)?;
        let numbers = Numbers::of(alloc, &objects)?;
        let ends = ends_touched_by(alloc, model, object, &objects, &numbers)?;
        Ok(Removal {
            object,
            objects,
            numbers,
            ends,
        })
    }

    /// Whether the deletion destroys a node. Takes no memory.
    pub fn has(&self, node: Node) -> bool
        ensures { result ≡ ranks.is_in self.now.numbers node }
    {
        self.numbers.has(node)
    }
}
