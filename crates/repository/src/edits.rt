//! The edits of a change, by what they edit.
ghost use Rattle.std.specs.FinMap as map;
ghost use Rattle.std.specs.Prelude.{◌≡◌, ◌∷◌, [], ⊤, false, List, OnErr, OnOk, if◌then◌else◌};
ghost use Rattle.links.specs.Laws.{touches_containment as touches};
ghost use Rattle.links.specs.LegalSets.{IsLegalSet, Kinds};
ghost use Rattle.links.specs.Plans.{HasPlanOfKind, IsPlanOfKind, PlanFits, links_after_edits};
ghost use Rattle.links.specs.declared.plan.Edit.{Edit};
ghost use Rattle.links.specs.declared.plan.Edit.TheVariants.{Put};
ghost use Rattle.mm_values.specs.Room as room;
ghost use Rattle.mm_values.specs.Values.{values_after_edits};
ghost use Rattle.mm_values.specs.declared.value_edit.ValueEdit.{ValueEdit};
ghost use Rattle.mm_values.specs.declared.value_edit.ValueEdit.TheVariants.{NewObject};
ghost use Rattle.models.specs.Legal.{kinds_of};
ghost use Rattle.adapter_list.specs.Hearing.{AreKnown};
ghost use Rattle.notice_chain.specs.Listed.{Above, Listed};
ghost use Rattle.repository.specs.Remembered.{may_change_containers};

use crate::remembered::forget_touched;
use adapter_list::Hearers;
use fragment_paths::PathCache;
use links::{LinkStore, NewLink, Plan};
use mm_meta::Meta;
use mm_types::ClassNo;
use mm_values::{ValuePlan, Values};
use std::alloc::AllocError;

/// The edits of a change. Most changes make one object or one link, or edit only values, or edit only links. The edits of each of these
/// four kinds have a type of their own, so that a change takes no more steps than its edits need.
pub(crate) trait Edits: Drop {
    /// The edits of links.
    ghost edits_of_links: { Self → List Edit };

    /// The edits of values.
    ghost edits_of_values: { Self → List ValueEdit };

    /// That there is capacity for the edits: `reserve` ensures this, and `apply` requires it. It is always true of edits for which `apply`
    /// takes the memory. The second and the third argument are predicates: when the store has capacity for a list of edits of links, and
    /// when the values have capacity for a list of edits of values.
    ghost has_room: { Self → (List Edit → Type 0) → (List ValueEdit → Type 0) → Type 0 };

    /// Forgets what may be wrong after the edits: all remembered fragments if a containing link is edited, and the remembered adapters if
    /// some node may get a different container. Takes no memory.
    fn forget(&self, meta: &Meta, paths: &mut PathCache, hearers: &mut Hearers)
        requires of_kind { IsPlanOfKind (kinds_of meta.now) (edits_of_links self.now) }
        ensures paths { paths.new ≡ (if touches (kinds_of meta.now) (edits_of_links self.now) then map.empty else paths.old) }
        ensures hearers { (up : Above) (rs : List Listed) → (may_change_containers (kinds_of meta.now) (edits_of_links self.now) ≡ false → AreKnown up rs hearers.old) → AreKnown up rs hearers.new };

    /// Reserves capacity for the edits, unless `apply` takes the memory for each edit while it makes the edit. Fails only if memory is
    /// refused. The links and the values stay as they are.
    fn reserve<L: LinkStore>(&self, store: &mut L, values: &mut Values) -> Result<(), AllocError>
        ensures links { L.links store.new ≡ L.links store.old }
        ensures kinds { (m : Kinds) → L.kinds store.old m → L.kinds store.new m }
        ensures values { room.values_of values.new ≡ room.values_of values.old }
        ensures room { OnOk result (has_room self.now (L.has_room store.new) (room.HasRoom values.new)) };

    /// Makes the edits. Fails only if memory is refused, and then the links and the values are as before.
    fn apply<L: LinkStore>(self, store: &mut L, values: &mut Values) -> Result<(), AllocError>
        requires legal { IsLegalSet (L.links store.old) }
        requires fits { PlanFits (L.links store.old) (edits_of_links self) }
        requires of_kind { HasPlanOfKind (L.kinds store.old) (edits_of_links self) }
        requires room { has_room self (L.has_room store.old) (room.HasRoom values.old) }
        ensures kinds { (m : Kinds) → L.kinds store.old m → IsPlanOfKind m (edits_of_links self) → L.kinds store.new m }
        ensures links { OnOk result (L.links store.new ≡ links_after_edits (L.links store.old) (edits_of_links self)) }
        ensures values { OnOk result (room.values_of values.new ≡ values_after_edits (room.values_of values.old) (edits_of_values self)) }
        ensures links_kept { OnErr result (L.links store.new ≡ L.links store.old) }
        ensures values_kept { OnErr result (room.values_of values.new ≡ room.values_of values.old) };
}

/// One new object of a class.
#[derive(Clone, Copy)]
pub(crate) struct NewObjectOf(pub ClassNo);

impl Edits for NewObjectOf {
    ghost edits_of_links = { λ n. [] };

    ghost edits_of_values = { λ n. NewObject n.0 ∷ [] };

    ghost has_room = { λ n L V. ⊤ };

    #[inline(always)]
    fn forget(&self, _: &Meta, _: &mut PathCache, _: &mut Hearers) {}

    #[inline(always)]
    fn reserve<L: LinkStore>(&self, _: &mut L, _: &mut Values) -> Result<(), AllocError> {
        Ok(())
    }

    #[inline(always)]
    fn apply<L: LinkStore>(self, _: &mut L, values: &mut Values) -> Result<(), AllocError> {
        values.try_create(self.0)
    }
}

/// One new link, which displaces no link.
impl Edits for NewLink {
    ghost edits_of_links = { λ p. Put p ∷ [] };

    ghost edits_of_values = { λ p. [] };

    ghost has_room = { λ p L V. ⊤ };

    #[inline(always)]
    fn forget(&self, _: &Meta, paths: &mut PathCache, hearers: &mut Hearers) {
        if self.container.is_some() {
            paths.clear();
            hearers.forget();
        }
    }

    #[inline(always)]
    fn reserve<L: LinkStore>(&self, _: &mut L, _: &mut Values) -> Result<(), AllocError> {
        Ok(())
    }

    #[inline(always)]
    fn apply<L: LinkStore>(self, store: &mut L, _: &mut Values) -> Result<(), AllocError> {
        store.put(self)
    }
}

/// Edits of values alone.
impl Edits for ValuePlan {
    ghost edits_of_links = { λ p. [] };

    ghost edits_of_values = { λ p. p };

    ghost has_room = { λ p L V. ⊤ };

    #[inline(always)]
    fn forget(&self, _: &Meta, _: &mut PathCache, _: &mut Hearers) {}

    #[inline(always)]
    fn reserve<L: LinkStore>(&self, _: &mut L, _: &mut Values) -> Result<(), AllocError> {
        Ok(())
    }

    #[inline(always)]
    fn apply<L: LinkStore>(self, _: &mut L, values: &mut Values) -> Result<(), AllocError> {
        values.try_apply(self)
    }
}

/// Edits of links alone.
impl Edits for Plan {
    ghost edits_of_links = { λ p. p };

    ghost edits_of_values = { λ p. [] };

    ghost has_room = { λ p L V. L p };

    #[inline(always)]
    fn forget(&self, meta: &Meta, paths: &mut PathCache, hearers: &mut Hearers) {
        forget_touched(paths, hearers, meta, self);
    }

    #[inline(always)]
    fn reserve<L: LinkStore>(&self, store: &mut L, _: &mut Values) -> Result<(), AllocError> {
        store.reserve_for(self)
    }

    #[inline(always)]
    fn apply<L: LinkStore>(self, store: &mut L, _: &mut Values) -> Result<(), AllocError> {
        store.apply(self);
        Ok(())
    }
}

/// Edits of links and of values.
#[derive(Drop)]
pub(crate) struct AllEdits {
    pub links: Plan,
    pub values: ValuePlan,
}

impl Edits for AllEdits {
    ghost edits_of_links = { λ p. p.links };

    ghost edits_of_values = { λ p. p.values };

    ghost has_room = { λ p L V. L p.links × V p.values };

    fn forget(&self, meta: &Meta, paths: &mut PathCache, hearers: &mut Hearers) {
        forget_touched(paths, hearers, meta, &self.links);
    }

    fn reserve<L: LinkStore>(&self, store: &mut L, values: &mut Values) -> Result<(), AllocError> {
        store.reserve_for(&self.links)?;
        values.reserve_for(&self.values)
    }

    fn apply<L: LinkStore>(self, store: &mut L, values: &mut Values) -> Result<(), AllocError> {
        store.apply(self.links);
        values.apply(self.values);
        Ok(())
    }
}
