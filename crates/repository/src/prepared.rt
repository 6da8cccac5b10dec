//! Preparing a change: its answer, its edits and its notifications.
ghost use Rattle.std.specs.Prelude.{◌≡◌, ⊤, ℕ, [], true, List, None, IfErr, IfOk};
ghost use Rattle.mm_types.specs.Resolved.{Metamodel};
ghost use Rattle.models.specs.Model.{reading};
ghost use Rattle.notice_chain.specs.Listed.{Listed};
ghost use Rattle.handshake.specs.Changes.{edits_links_alone, edits_values_alone};
ghost use Rattle.handshake.specs.Refusals.{early_refusal};
ghost use Rattle.handshake.specs.declared.change.Change.{Change as ChangeView};
ghost use Rattle.repository.specs.Answers.{answer_of};
ghost use Rattle.repository.specs.Leaving.{going_with};
ghost use Rattle.repository.specs.Prepared.{IsPlanned};
ghost use Rattle.repository.specs.Proper.{IsProper};
ghost use Rattle.repository.specs.Refusals.{IsPlanRefusal};
ghost use Rattle.repository.specs.Views.{command_of};

use crate::answering::{early_answer, known_answer, planned_answer};
use crate::edits::{AllEdits, Edits};
use crate::leaving::spots_gone;
use crate::reply::Answer;
use adapter_list::AdapterList;
use adapters::Adapter;
use change_plans::{plan, plan_links, plan_values};
use handshake::Change;
use links::{LinkStore, Plan};
use mm_types::{AdapterNo, Node, Refused};
use mm_values::ValuePlan;
use models::ModelRef;
use notice_chain::Chain;
use std::alloc::Global;

/// A change that is prepared: its answer and its edits, and the targets that are taken away with the objects that it destroys.
#[derive(Drop)]
pub(crate) struct Prepared<E> {
    pub answer: Answer,
    pub edits: E,
    /// The targets that are taken away, adapter by adapter in attach order. The targets of one adapter have the order in which the adapter
    /// got them.
    pub spots: Vec<(AdapterNo, Node)>,
}

/// A type of edits, with the function `prepare` that plans them. The function is called before anything changes.
pub(crate) trait Planned: Edits {
    /// The changes that `prepare` accepts: their edits can have this type.
    ghost covers: { Metamodel → ChangeView → Type 0 };

    /// Prepares a change. Refused with the refusal that planning finds, or with `Memory`. Puts the notifications into `chain`, which the
    /// caller passes in empty. In `is_heard` the caller passes whether an adapter may have to be notified; if not, no notification is made.
    fn prepare<L: LinkStore, A: Adapter>(
        alloc: Global,
        model: &ModelRef<L>,
        adapters: &AdapterList<A>,
        change: Change,
        is_heard: bool,
        chain: &mut Chain,
    ) -> Result<Prepared<Self>, Refused>
        requires asked { early_refusal (reading model.now) change ≡ None }
        requires proper { (text : List ℕ) × IsProper (reading model.now) text change }
        requires covered { covers model.now.metamodel change }
        ensures answer { IfOk result (λ p. (rs : List Listed) (text : List ℕ) → IsProper (reading model.now) text change → p.answer ≡ answer_of (reading model.now) rs (command_of text change)) }
        ensures spots { IfOk result (λ p. p.spots.items ≡ going_with (reading model.now) adapters.now.0 change) }
        ensures planned { IfOk result (λ p. chain.old ≡ [] → IsPlanned is_heard model.now change (Self.edits_of_links p.edits) (Self.edits_of_values p.edits) chain.new) }
        ensures refused { IfErr result (λ r. IsPlanRefusal model.now change r) };
}

/// For a new object, and for each act at an attribute except a resolve. These changes edit only values.
impl Planned for ValuePlan {
    ghost covers = { λ m c. edits_values_alone m c ≡ true };

    #[inline(always)]
    fn prepare<L: LinkStore, A: Adapter>(
        alloc: Global,
        model: &ModelRef<L>,
        _adapters: &AdapterList<A>,
        change: Change,
        is_heard: bool,
        chain: &mut Chain,
    ) -> Result<Prepared<Self>, Refused> {
        let answer = known_answer(alloc, model, &change)?;
        let edits = plan_values(alloc, model, change, is_heard, chain)?;
        Ok(Prepared {
            answer,
            edits,
            spots: Vec::new(alloc),
        })
    }
}

/// For each act at a reference except a resolve. These changes edit only links.
impl Planned for Plan {
    ghost covers = { λ m c. edits_links_alone m c ≡ true };

    #[inline(always)]
    fn prepare<L: LinkStore, A: Adapter>(
        alloc: Global,
        model: &ModelRef<L>,
        _adapters: &AdapterList<A>,
        change: Change,
        is_heard: bool,
        chain: &mut Chain,
    ) -> Result<Prepared<Self>, Refused> {
        let answer = known_answer(alloc, model, &change)?;
        let edits = plan_links(alloc, model, &change, is_heard, chain)?;
        Ok(Prepared {
            answer,
            edits,
            spots: Vec::new(alloc),
        })
    }
}

/// For all changes.
impl Planned for AllEdits {
    ghost covers = { λ m c. ⊤ };

    fn prepare<L: LinkStore, A: Adapter>(
        alloc: Global,
        model: &ModelRef<L>,
        adapters: &AdapterList<A>,
        change: Change,
        is_heard: bool,
        chain: &mut Chain,
    ) -> Result<Prepared<Self>, Refused> {
        let early = early_answer(alloc, model, &change)?;
        let planned = plan(alloc, model, change, is_heard)?;
        *chain = planned.chain;
        let spots = spots_gone(alloc, adapters, &planned.finding)?;
        let answer = match early {
            Some(answer) => answer,
            None => planned_answer(&planned.finding),
        };
        Ok(Prepared {
            answer,
            edits: AllEdits {
                links: planned.edits,
                values: planned.values,
            },
            spots,
        })
    }
}
