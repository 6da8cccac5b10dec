//! Targets that are to be taken away, with capacity for the last notifications from them, and for the adapters that are given back.
ghost use Rattle.std.specs.Prelude.{◌≡◌, IfOk, length, vec_len, vec_capacity};
ghost use Rattle.adapter_list.specs.Attached.{IsRoomFor};

use mm_types::{AdapterNo, Node};
use notice_chain::Notice;
use std::alloc::{AllocError, Global};
use std::marker::Model;

/// Some targets, each given by the number of its adapter and by its node, in the order in which they are to be taken away. A `Release` is
/// made before anything changes, with capacity for the last notifications from these targets and for the adapters that are given back. So
/// taking the targets away takes no memory.
#[derive(Drop)]
pub struct Release<A> {
    spots: Vec<(AdapterNo, Node)>,
    told: Vec<(AdapterNo, Notice)>,
    released: Vec<(AdapterNo, A)>,
}

impl<A> Model for Release<A> {
    ghost use Rattle.std.specs.Prelude.{List, length, vec_len, vec_capacity};
    ghost use Rattle.notice_chain.specs.Released.{Spot};
    ghost use Rattle.adapter_list.specs.Attached.{IsRoomFor};

    ghost Value = { List Spot };

    ghost view = { λ r. r.spots.items };

    ghost invariant = { λ r. IsRoomFor (length r.spots.items) (vec_len r.told) (vec_capacity r.told) × IsRoomFor (length r.spots.items) (vec_len r.released) (vec_capacity r.released) };
}

impl<A> Release<A> {
    /// Reserves capacity for taking the targets `spots` away, in the order of this list. Fails only if memory is refused.
    pub fn new(alloc: Global, spots: Vec<(AdapterNo, Node)>) -> Result<Self, AllocError>
        ensures { IfOk result (λ r. r ≡ spots.items) }
    {
        let told = Vec::with_capacity(alloc, spots.len())?;
        let released = Vec::with_capacity(alloc, spots.len())?;
        Ok(Release {
            spots,
            told,
            released,
        })
    }

    /// How many targets are to be taken away. Takes no memory.
    pub fn len(&self) -> usize
        ensures { result ≡ length self.now }
    {
        self.spots.len()
    }

    /// The targets; an empty list with capacity for the last notification from each of them; and an empty list with capacity for the
    /// adapters that are given back.
    pub(crate) fn into_parts(
        self,
    ) -> (
        Vec<(AdapterNo, Node)>,
        Vec<(AdapterNo, Notice)>,
        Vec<(AdapterNo, A)>,
    )
        ensures spots { result.0.items ≡ self }
        ensures told { IsRoomFor (length self) (vec_len result.1) (vec_capacity result.1) }
        ensures released { IsRoomFor (length self) (vec_len result.2) (vec_capacity result.2) }
    {
        let Release {
            spots,
            told,
            released,
        } = self;
        (spots, told, released)
    }
}
