//! How changes end: memory and capacity are reserved, the edits are made, and the adapters are notified.
ghost use Rattle.std.specs.Prelude.{◌≡◌, ℕ, List, [], IfOk};
ghost use Rattle.notice_chain.specs.declared.notice.Notice.{Notice};
ghost use Rattle.adapter_list.specs.Rounds.{round_of};
ghost use Rattle.repository.specs.State.{reads};
ghost use Rattle.handshake.specs.declared.change.Change.{Change};
ghost use Rattle.repository.specs.Prepared.{IsReady};
ghost use Rattle.repository.specs.Run.{Executed, change_outcome, read_outcome};
ghost use Rattle.repository.specs.declared.reply.Answer.{Answer};
ghost use Rattle.repository.specs.Views.{changed_view, command_of};

use super::Repository;
use crate::edits::Edits;
use crate::prepared::Prepared;
use crate::reply::Reply;
use adapter_list::{Leaving, Round};
use adapters::Adapter;
use links::LinkStore;
use mm_types::{Refused, Seq};
use notice_chain::Chain;
use std::alloc::AllocError;

impl<L: LinkStore, A: Adapter> Repository<L, A> {
    /// Makes the edits of a change that is ready. The change must notify no adapter and take no target away. Refused only with `Memory`.
    #[inline(always)]
    pub(super) fn edit<E: Edits>(&mut self, edits: E) -> Result<(), Refused>
        requires ready { (text : List ℕ) × (change : Change) × (answer : Answer) × IsReady self.old text change answer [] (E.edits_of_links edits) (E.edits_of_values edits) [] }
        ensures { (text : List ℕ) (change : Change) (answer : Answer) → IsReady self.old text change answer [] (E.edits_of_links edits) (E.edits_of_values edits) [] → Executed self.old (command_of text change) (read_outcome (λ u. answer) result) self.new }
    {
        match edits.reserve(&mut self.store, &mut self.values) {
            Ok(()) => {}
            Err(_) => return Err(Refused::Memory),
        }
        edits.forget(&self.meta, &mut self.paths, &mut self.hearers);
        match edits.apply(&mut self.store, &mut self.values) {
            Ok(()) => {}
            Err(_) => return Err(Refused::Memory),
        }
        Ok(())
    }

    /// The round of the chain of a change. The present links decide which adapters get a notification, so this function has to be called
    /// before the change is made. Fails only if memory is refused.
    #[inline(always)]
    pub(super) fn round(&mut self, chain: Chain) -> Result<Round, AllocError>
        ensures kept { self.new ≡ self.old }
        ensures round { IfOk result (λ r. r ≡ round_of (reads self.old).above chain self.old.adapters) }
    {
        self.adapters.round(&self.store, chain, &mut self.hearers)
    }

    /// Makes a change that is ready: reserves memory for the edits and capacity at the adapters, makes the edits, delivers `round`, the
    /// round of the notifications of the change, and takes away the targets in `prepared.spots`. Refused with `AdapterFull` or `Memory`.
    /// The edits of a `ValuePlan` take memory while they are made, and can still be refused then. After the edits are made, nothing can be
    /// refused.
    #[inline(always)]
    pub(super) fn finish<E: Edits>(
        &mut self,
        prepared: Prepared<E>,
        round: Round,
    ) -> Result<Reply<A>, Refused>
        requires ready { (text : List ℕ) × (change : Change) × (ns : List Notice) × (round ≡ round_of (reads self.old).above ns self.old.adapters) × IsReady self.old text change prepared.answer prepared.spots.items (E.edits_of_links prepared.edits) (E.edits_of_values prepared.edits) ns }
        ensures { (text : List ℕ) (change : Change) (ns : List Notice) → round ≡ round_of (reads self.old).above ns self.old.adapters → IsReady self.old text change prepared.answer prepared.spots.items (E.edits_of_links prepared.edits) (E.edits_of_values prepared.edits) ns → Executed self.old (command_of text change) (change_outcome (changed_view A.heard result)) self.new }
    {
        let Prepared {
            answer,
            edits,
            spots,
        } = prepared;
        match edits.reserve(&mut self.store, &mut self.values) {
            Ok(()) => {}
            Err(_) => return Err(Refused::Memory),
        }
        let leaving = match Leaving::with_room(self.alloc, spots, round.told_len()) {
            Ok(leaving) => leaving,
            Err(_) => return Err(Refused::Memory),
        };
        match self.adapters.reserve_round(&round) {
            Ok(()) => {}
            Err(refused) => return Err(refused),
        }
        edits.forget(&self.meta, &mut self.paths, &mut self.hearers);
        self.hearers.forget_if(leaving.is_some());
        match edits.apply(&mut self.store, &mut self.values) {
            Ok(()) => {}
            Err(_) => return Err(Refused::Memory),
        }
        // The notifications, and then the last notifications from the targets that are taken away.
        let (told, released) = self.adapters.deliver_and_release(round, leaving);
        Ok(Reply {
            answer,
            told: Seq::from_vec(told),
            released: Seq::from_vec(released),
        })
    }
}
