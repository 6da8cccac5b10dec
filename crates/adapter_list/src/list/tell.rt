//! Which adapters get a notification, what is reserved for a chain, and how the chain is delivered.
ghost use Rattle.std.specs.Prelude.{◌≡◌, ◌<◌, ◌++◌, List, length, slice_index, All, OnOk, IfOk};
ghost use Rattle.links.specs.Holders.{HasNoCycle, above};
ghost use Rattle.links.specs.LegalSets.{IsLegalSet};
ghost use Rattle.notice_chain.specs.Listed.{Above, audience_numbers, told_of};
ghost use Rattle.notice_chain.specs.declared.notice.Notice.{Notice};
ghost use Rattle.adapter_list.specs.Hearing.{AreKnown, copies_at};
ghost use Rattle.adapter_list.specs.Reserved.{IsReserved, reserved_round};
ghost use Rattle.adapter_list.specs.Targets.{targets_at};
ghost use Rattle.adapter_list.specs.Rounds.{CopiesFit, RoundFits, copies_from, round_of, adapters_after_copies, tell_at, told_by, use_place};

use super::AdapterList;
use crate::hearers::Hearers;
use crate::refusal::refusal;
use crate::round::Round;
use adapters::Adapter;
use links::LinkStore;
use mm_types::{AdapterNo, FewItems, Refused};
use notice_chain::{Chain, Notice};
use std::alloc::AllocError;

impl<A: Adapter> AdapterList<A> {
    /// The numbers of the adapters that get a notification, in attach order. Which nodes are above the notifier is read from `store` at the
    /// time of the call. Fails only if memory is refused.
    pub fn audience<L: LinkStore>(
        &self,
        store: &L,
        notice: &Notice,
    ) -> Result<Vec<AdapterNo>, AllocError>
        requires legal { IsLegalSet (L.links store.now) }
        requires no_cycle { HasNoCycle (L.links store.now) }
        ensures { IfOk result (λ v. v.items ≡ audience_numbers (above (L.links store.now)) notice.now self.now.0) }
    {
        let ordinals = self.hearers(store, notice.notifier)?;
        let mut numbers = Vec::new(self.alloc);
        for ordinal in &ordinals {
            numbers.push(self.attached[*ordinal].no)?;
        }
        Ok(numbers)
    }

    /// Reserves all that a chain needs: makes the copies of its notifications, and reserves for each adapter capacity for its copies and
    /// for a last notification from each of its targets. Returns the round. Which nodes are above a notifier is read from `store` at the
    /// time of the call. So if the notifications are those of a change, this function has to be called before the change is made. Whether
    /// the call succeeds or fails, no adapter is notified, and no adapter loses capacity. So a round that fitted the adapters before the
    /// call still fits them.
    ///
    /// Refused with AdapterFull if an adapter can't count its notifications of the chain and a last notification from each of its targets,
    /// or with Memory if memory is refused. The list first takes the memory that it needs itself; if this memory is refused, the refusal is
    /// Memory. Then the adapters reserve in attach order, and the first adapter that refuses decides the refusal. If the refusal is
    /// AdapterFull, each adapter that comes before the full adapter in attach order has the capacity that it needs.
    pub fn reserve_all<L: LinkStore>(&mut self, store: &L, chain: Chain) -> Result<Round, Refused>
        requires legal { IsLegalSet (L.links store.now) }
        requires no_cycle { HasNoCycle (L.links store.now) }
        ensures { IsReserved (above (L.links store.now)) chain self.old self.new result }
    {
        let mut hearers = Hearers::new(self.alloc);
        let Ok(round) = self.round(store, chain, &mut hearers) else {
            return Err(Refused::Memory);
        };
        match self.reserve_round(&round) {
            Ok(()) => Ok(round),
            Err(refused) => Err(refused),
        }
    }

    /// Reserves, for each adapter, capacity for the copies of a round that the adapter gets, and for a last notification from each of its
    /// targets. The round must be the round of a chain for the present adapters and targets, as `round` makes it. The adapters reserve in
    /// attach order. If the copies are not in the attach order of their adapters, or an adapter gets several of them, the copies for each
    /// adapter are counted first, which takes memory too.
    ///
    /// Refused with AdapterFull if an adapter can't count its copies and a last notification from each of its targets, or with Memory if
    /// memory is refused. If the memory for counting is refused, the refusal is Memory. Otherwise the first adapter that refuses decides
    /// the refusal. No adapter loses capacity.
    pub fn reserve_round(&mut self, round: &Round) -> Result<(), Refused>
        requires round { (up : Above) × (chain : List Notice) × (round.now ≡ round_of up chain self.old.0) }
        ensures { (up : Above) (chain : List Notice) → round.now ≡ round_of up chain self.old.0 → IsReserved up chain self.old self.new (reserved_round round.now result) }
    {
        self.lemma_keeps_rules();
        match self.reserve_places(round.copies()) {
            Ok(()) => Ok(()),
            Err(reason) => Err(refusal(reason)),
        }
    }

    /// Delivers a round that fits the adapters: gives each copy to its adapter, in the order of the copies. Returns which adapter was
    /// notified of what: for each notification, in the order of the chain, the adapters that got it, in attach order. Takes no memory.
    ///
    /// A round fits the adapters for which it was reserved. If an adapter is given back, the indexes of the adapters after it in attach
    /// order change, and the round may no longer fit. If an adapter is notified or gets one more target after the reservation, the adapter
    /// may lack capacity for the round.
    #[inline(always)]
    pub fn deliver(&mut self, round: Round) -> Vec<(AdapterNo, Notice)>
        requires reserved { RoundFits self.old.0 self.old.1 round }
        ensures heard { self.new.0 ≡ adapters_after_copies round.copies self.old.0 }
        ensures told { result.items ≡ round.told }
        ensures by_number { result.items ≡ told_by round.copies self.old.0 }
    {
        let (copies, told) = round.into_parts();
        match copies.into_items() {
            FewItems::One((ordinal, notice)) => self.tell_at(ordinal, notice),
            FewItems::Many(list) => self.tell_each(list),
        }
        told
    }

    /// Gives each copy to its adapter, in the order of the copies.
    fn tell_each(&mut self, copies: Vec<(usize, Notice)>)
        requires fits { CopiesFit self.old.0 self.old.1 copies.items }
        ensures heard { self.new.0 ≡ adapters_after_copies copies.items self.old.0 }
    {
        for (ordinal, notice) in copies {
            self.tell_at(ordinal, notice);
        }
    }

    /// Notifies the adapter at index `ordinal`.
    fn tell_at(&mut self, ordinal: usize, notice: Notice)
        requires within { ordinal < length self.old.1 }
        requires spare { targets_at self.old.0 ordinal < slice_index self.old.1 ordinal }
        ensures heard { self.new.0 ≡ tell_at self.old.0 ordinal notice }
        ensures places { self.new.1 ≡ use_place self.old.1 ordinal }
    {
        let one = &mut self.attached[ordinal];
        one.adapter.notify_changed(notice);
    }

    /// The round of a chain: a copy of each notification for each adapter that gets it. If successive notifications have the same notifier,
    /// the adapters that get them are looked for once. If `hearers` has the adapters of the first notifier already, those adapters are not
    /// looked for again. After a call that succeeds, `hearers` has the adapters of the last notifier; an empty chain does not change
    /// `hearers`. Fails only if memory is refused.
    #[inline(always)]
    pub fn round<L: LinkStore>(
        &self,
        store: &L,
        chain: Chain,
        hearers: &mut Hearers,
    ) -> Result<Round, AllocError>
        requires legal { IsLegalSet (L.links store.now) }
        requires no_cycle { HasNoCycle (L.links store.now) }
        requires known { AreKnown (above (L.links store.now)) self.now.0 hearers.old }
        ensures known { AreKnown (above (L.links store.now)) self.now.0 hearers.new }
        ensures round { IfOk result (λ r. r ≡ round_of (above (L.links store.now)) chain self.now.0) }
    {
        let mut round = Round::new(self.alloc);
        match chain.into_items() {
            FewItems::One(notice) => self.add_notice(store, notice, hearers, &mut round)?,
            FewItems::Many(notices) => {
                for notice in notices {
                    self.add_notice(store, notice, hearers, &mut round)?;
                }
            }
        }
        Ok(round)
    }

    /// Adds to a round a copy of a notification for each adapter that gets the notification.
    fn add_notice<L: LinkStore>(
        &self,
        store: &L,
        notice: Notice,
        hearers: &mut Hearers,
        round: &mut Round,
    ) -> Result<(), AllocError>
        requires legal { IsLegalSet (L.links store.now) }
        requires no_cycle { HasNoCycle (L.links store.now) }
        requires known { AreKnown (above (L.links store.now)) self.now.0 hearers.old }
        ensures known { AreKnown (above (L.links store.now)) self.now.0 hearers.new }
        ensures copies { OnOk result (round.new.copies ≡ round.old.copies ++ copies_from (above (L.links store.now)) 0 notice self.now.0) }
        ensures told { OnOk result (round.new.told ≡ round.old.told ++ told_of (above (L.links store.now)) notice self.now.0) }
    {
        self.find_hearers(store, notice.notifier, hearers)?;
        self.add_copies(&hearers.ordinals, notice, round)?;
        Ok(())
    }

    /// Adds to a round a copy of a notification for each adapter at an index in `ordinals`. For the last of these adapters `notice` itself
    /// is passed to `Round::add`, and for each of the others a clone.
    fn add_copies(
        &self,
        ordinals: &[usize],
        notice: Notice,
        round: &mut Round,
    ) -> Result<(), AllocError>
        requires within { All (λ k. k < length self.now.0) ordinals.now }
        ensures copies { OnOk result (round.new.copies ≡ round.old.copies ++ copies_at ordinals.now notice) }
        ensures told { OnOk result (round.new.told ≡ round.old.told ++ told_by (copies_at ordinals.now notice) self.now.0) }
    {
        let Some((last, others)) = ordinals.split_last() else {
            return Ok(());
        };
        round.reserve(ordinals.len())?;
        for ordinal in others {
            round.add(
                self.alloc,
                *ordinal,
                self.attached[*ordinal].no,
                notice.clone()?,
            )?;
        }
        round.add(self.alloc, *last, self.attached[*last].no, notice)?;
        Ok(())
    }
}
