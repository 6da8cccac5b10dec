//! The plans of changes that edit only values.
ghost use Rattle.std.specs.Prelude.{◌≡◌, ◌++◌, [], List, None, Some, IfErr, IfOk, OnOk, if◌then◌else◌, false, true};
ghost use Rattle.mm_types.specs.Conditions.{◌else_by◌, is_memory_refusal};
ghost use Rattle.mm_types.specs.Shapes.{shape};
ghost use Rattle.models.specs.Model.{reading};
ghost use Rattle.handshake.specs.Effects.{value_edits as value_edits_of};
ghost use Rattle.handshake.specs.FeatureChanges.{chain};
ghost use Rattle.notice_chain.specs.declared.notice.Notice.{Notice};
ghost use Rattle.handshake.specs.Changes.{edits_values_alone};
ghost use Rattle.change_plans.specs.Plans.{IsPlanOf, of_values};
ghost use Rattle.handshake.specs.Refusals as refusals;
ghost use Rattle.handshake.specs.declared.act.Act.TheVariants.{Set};
ghost use Rattle.handshake.specs.declared.change.Change.TheVariants.{At, Create};

use crate::edits::{set_edits, value_edits};
use crate::planning::{add_notices, create_late_refusal, late_refusal, set_late_refusal};
use handshake::{Change, ChangeKind, FeatureChange, notice, set_early_refusal};
use links::LinkStore;
use mm_types::{ClassNo, End, Refused, Value};
use mm_values::ValuePlan;
use models::{ModelRef, class_refusal};
use notice_chain::Chain;
use std::alloc::{AllocError, Global};

/// The edits that a change makes of objects and attribute values, or the first refusal that planning finds. Adds the notifications to
/// `chain` if `is_heard`, that is, if an adapter may have to get them. The change must make an object, or be an act at an attribute, other
/// than a resolve. It must not be refused early. `plan` does the same for changes of all kinds. If memory is refused, `chain` may have some
/// of the notifications.
pub fn plan_values<L: LinkStore>(
    alloc: Global,
    model: &ModelRef<L>,
    change: Change,
    is_heard: bool,
    chain: &mut Chain,
) -> Result<ValuePlan, Refused>
    requires asked { refusals.early_refusal (reading model.now) change ≡ None }
    requires values { edits_values_alone model.now.metamodel change ≡ true }
    ensures planned { IfOk result (λ p. (ns : List Notice) × (chain.new ≡ chain.old ++ ns) × IsPlanOf is_heard model.now change (of_values p ns)) }
    ensures refused { IfErr result (λ r. refusals.late_refusal (reading model.now) change ≡ (if is_memory_refusal r then None else Some r)) }
{
    model.lemma_is_legal();
    if let Some(refused) = late_refusal(model, &change, None) {
        return Err(refused);
    }
    if is_heard {
        add_notices(alloc, model, &change, &None, None, &[], chain)?;
    }
    let values = value_edits(alloc, model, change, &None)?;
    Ok(values)
}

/// The edit that sets an attribute, and the notification of the set. The set must not be refused. Fails only if memory is refused.
pub fn plan_set<L: LinkStore>(
    alloc: Global,
    model: &ModelRef<L>,
    end: End,
    value: Value,
) -> Result<(ValuePlan, Chain), AllocError>
    requires attribute { (shape model.now.metamodel end.feature).is_reference ≡ false }
    requires asked { refusals.early_refusal (reading model.now) (At end (Set value)) ≡ None }
    requires allowed { refusals.late_refusal (reading model.now) (At end (Set value)) ≡ None }
    ensures { IfOk result (λ p. IsPlanOf true model.now (At end (Set value)) (of_values p.0 p.1)) }
{
    model.lemma_is_legal();
    let gain = FeatureChange {
        at: end,
        does: ChangeKind::Gains(value.clone()?),
    };
    let notice = notice(alloc, model, gain)?;
    Ok((set_edits(alloc, model, end, value), Chain::one(notice)))
}

/// The first refusal of a set, other than `Memory`. The refusals of `early_refusal` come first, and then the refusals that planning finds.
/// Takes no memory.
#[inline(always)]
pub fn attribute_refusal<L: LinkStore>(
    model: &ModelRef<L>,
    end: End,
    value: &Value,
) -> Option<Refused>
    ensures { result ≡ (refusals.early_refusal (reading model.now) (At end (Set value.now)) else_by refusals.late_refusal (reading model.now) (At end (Set value.now))) }
{
    if let Some(refused) = set_early_refusal(model, end, value) {
        return Some(refused);
    }
    set_late_refusal(model, end, value)
}

/// Why an object of a class can't be made, other than `Memory`: `NoClass`, `Abstract`, or `Limit` if 1,000,000 objects were made. Takes no
/// memory.
pub fn create_refusal<L: LinkStore>(model: &ModelRef<L>, class: ClassNo) -> Option<Refused>
    ensures { result ≡ (refusals.early_refusal (reading model.now) (Create class) else_by refusals.late_refusal (reading model.now) (Create class)) }
{
    class_refusal(model.meta(), class).or(create_late_refusal(model))
}
