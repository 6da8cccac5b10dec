//! The adapters that a script can attach.
ghost use Rattle.std.specs.Prelude.{◌≡◌, fold, map, slice_get, Some, Ok, Err, option_and_then, option_map, IfOk, IfErr, OnOk, OnErr};
ghost use Rattle.repository.specs.Views.{outcome_view};
ghost use Rattle.script_program.specs.Pool as p;
ghost use Rattle.script_program.specs.Session.{pool_after_return};

use adapters::Adapter;
use mm_types::{AdapterNo, Refused};
use repository::{Failure, Reply};
use std::alloc::{AllocError, Global};
use std::marker::Model;
use std::mem;

/// The adapters that a script can attach. The adapters have the names A1, A2 and so on, in the order of `boxes`. An adapter that is
/// attached is out of the pool: its entry is `None`.
#[derive(Drop)]
pub(crate) struct Pool<A: Adapter> {
    boxes: Vec<Option<A>>,
}

impl<A: Adapter> Model for Pool<A> {
    ghost use Rattle.std.specs.Prelude.{map, option_map};
    ghost use Rattle.script_program.specs.Pool.{Pool};

    ghost Value = { Pool };

    ghost view = { λ p. map (λ o. option_map A.heard o) p.boxes.items };
}

impl<A: Adapter> Pool<A> {
    /// A pool that has all adapters of `boxes`. Fails only if memory is refused.
    pub(crate) fn new(alloc: Global, boxes: Vec<A>) -> Result<Self, AllocError>
        ensures { IfOk result (λ p. p ≡ map (λ a. Some (A.heard a)) boxes.items) }
    {
        let mut slots = Vec::with_capacity(alloc, boxes.len())?;
        'boxes: for adapter in boxes {
            slots.push_reserved(Some(adapter));
        }
        Ok(Pool { boxes: slots })
    }

    /// Puts `entry` under the number of an adapter, and returns the entry that was there. If the pool has no entry under this number,
    /// changes nothing, and returns `None`.
    fn replaced(&mut self, no: AdapterNo, entry: Option<A>) -> Option<Option<A>>
        ensures before { option_map (λ o. option_map A.heard o) result ≡ option_and_then (slice_get self.old) (p.index no) }
        ensures after { self.new ≡ p.with_entry (option_map A.heard entry) self.old no }
    {
        if no.0 == 0 {
            return None;
        }
        let index = no.0 as usize - 1;
        if index >= self.boxes.len() {
            return None;
        }
        Some(mem::replace(&mut self.boxes[index], entry))
    }

    /// Takes the adapter with a given number out of the pool. Refused with `NoAdapter` if no adapter has the number, and with
    /// `AdapterTaken` if the adapter is out of the pool.
    pub(crate) fn take(&mut self, no: AdapterNo) -> Result<A, Refused>
        ensures ok { IfOk result (λ a. p.box_of self.old no ≡ Ok (A.heard a)) }
        ensures err { IfErr result (λ r. p.box_of self.old no ≡ Err r) }
        ensures taken { OnOk result (self.new ≡ p.pool_without self.old no) }
        ensures unchanged { OnErr result (self.new ≡ self.old) }
    {
        match self.replaced(no, None) {
            Some(Some(adapter)) => Ok(adapter),
            Some(None) => Err(Refused::AdapterTaken),
            None => Err(Refused::NoAdapter),
        }
    }

    /// Puts an adapter back into the pool, under its number.
    fn put(&mut self, no: AdapterNo, adapter: A)
        ensures { self.new ≡ p.with_box self.old (no, A.heard adapter) }
    {
        let _ = self.replaced(no, Some(adapter));
    }

    /// Puts the adapters of an outcome back into the pool: after a success the adapters that the command released; after a refusal the
    /// adapter that the command was to attach, if any, under the number `no`.
    pub(crate) fn give_back(&mut self, no: Option<AdapterNo>, outcome: Result<Reply<A>, Failure<A>>)
        ensures { self.new ≡ pool_after_return self.old no (outcome_view A.heard outcome) }
    {
        match outcome {
            Ok(reply) => self.put_all(reply.released.into_vec()),
            Err(failure) => {
                if let (Some(no), Some(adapter)) = (no, failure.given_back) {
                    self.put(no, adapter);
                }
            }
        }
    }

    /// Puts released adapters back into the pool, each under its number.
    pub(crate) fn put_all(&mut self, released: Vec<(AdapterNo, A)>)
        ensures { self.new ≡ fold p.with_box self.old (map (λ b. (b.0, A.heard b.1)) released.items) }
    {
        'released: for (no, adapter) in released {
            self.put(no, adapter);
        }
    }
}
