//! The plans of changes that edit only links. If a change puts one link and edits nothing else, and no adapter has to be notified, the link
//! alone takes the place of the plan.
ghost use Rattle.std.specs.Prelude.{◌≡◌, ◌++◌, [], List, false, true, IfErr, IfOk, IfSome, None, Some, if◌then◌else◌};
ghost use Rattle.mm_types.specs.Shapes.{shape};
ghost use Rattle.mm_types.specs.declared.value.Value.TheVariants.{Object};
ghost use Rattle.models.specs.Model.{reading};
ghost use Rattle.handshake.specs.Displaced.{displaces, is_plain_add};
ghost use Rattle.change_plans.specs.LonePuts as lone;
ghost use Rattle.change_plans.specs.Plans.{IsPlanOf, of_links};
ghost use Rattle.handshake.specs.Changes.{edits_links_alone};
ghost use Rattle.notice_chain.specs.declared.notice.Notice.{Notice};
ghost use Rattle.handshake.specs.Refusals.{early_refusal, late_refusal};
ghost use Rattle.handshake.specs.declared.act.Act.TheVariants.{Add, Set};
ghost use Rattle.handshake.specs.declared.change.Change.TheVariants.{At};
ghost use Rattle.mm_types.specs.Conditions.{is_memory_refusal};

use crate::planning::{self, add_late_refusal, links_and_notices, new_set_refusal};
use handshake::{Change, displaces, is_plain_add};
use links::{LinkStore, NewLink, Plan};
use mm_types::{End, ObjectNo, Refused, Value};
use models::ModelRef;
use notice_chain::Chain;
use std::alloc::Global;

/// The edits of links that a change makes, or the first refusal that planning finds. Adds the notifications to `chain` if `is_heard`, that
/// is, if an adapter may have to get them. The change must be an act at a reference, other than a resolve. It must not be refused early.
/// `plan` does the same for changes of all kinds. If memory is refused, `chain` may have some of the notifications.
pub fn plan_links<L: LinkStore>(
    alloc: Global,
    model: &ModelRef<L>,
    change: &Change,
    is_heard: bool,
    chain: &mut Chain,
) -> Result<Plan, Refused>
    requires asked { early_refusal (reading model.now) change.now ≡ None }
    requires links { edits_links_alone model.now.metamodel change.now ≡ true }
    ensures planned { IfOk result (λ p. (ns : List Notice) × (chain.new ≡ chain.old ++ ns) × IsPlanOf is_heard model.now change.now (of_links p ns)) }
    ensures refused { IfErr result (λ r. late_refusal (reading model.now) change.now ≡ (if is_memory_refusal r then None else Some r)) }
{
    model.lemma_is_legal();
    if let Some(refused) = planning::late_refusal(model, change, None) {
        return Err(refused);
    }
    let edits = links_and_notices(alloc, model, change, &None, None, is_heard, chain)?;
    Ok(edits)
}

/// The link that a set puts, if the set puts this link and edits nothing else; otherwise `None`. The set must not be refused early. The
/// result is a link exactly if four conditions hold: the end is a reference without a value; the value is an object; planning finds no
/// refusal of the set; and the set displaces no link. Takes no memory.
#[inline(always)]
pub fn lone_set<L: LinkStore>(model: &ModelRef<L>, end: End, value: &Value) -> Option<NewLink>
    requires asked { early_refusal (reading model.now) (At end (Set value.now)) ≡ None }
    ensures put { result ≡ lone.lone_put (reading model.now) (At end (Set value.now)) }
    ensures plan { IfSome result (λ p. IsPlanOf false model.now (At end (Set value.now)) (lone.of_put p)) }
{
    model.lemma_is_legal();
    put_of_set(model, end, value)
}

/// The link that an addition puts, if the addition puts this link and edits nothing else; otherwise `None`. The addition must not be
/// refused early. The result is a link exactly if four conditions hold: the end is a reference; the value is an object that the list lacks;
/// planning finds no refusal of the addition; and the addition displaces no link. Takes no memory.
#[inline(always)]
pub fn lone_add<L: LinkStore>(
    model: &ModelRef<L>,
    end: End,
    value: &Value,
    index: Option<u32>,
) -> Option<NewLink>
    requires asked { early_refusal (reading model.now) (At end (Add value.now index)) ≡ None }
    ensures put { result ≡ lone.lone_put (reading model.now) (At end (Add value.now index)) }
    ensures plan { IfSome result (λ p. IsPlanOf false model.now (At end (Add value.now index)) (lone.of_put p)) }
{
    model.lemma_is_legal();
    put_of_add(model, end, value, index)
}

#[inline(always)]
fn put_of_set<L: LinkStore>(model: &ModelRef<L>, end: End, value: &Value) -> Option<NewLink>
    requires single { (shape model.now.metamodel end.feature).is_single ≡ true }
    ensures { result ≡ lone.lone_set (reading model.now) (At end (Set value.now)) end value.now }
{
    let Value::Object(object) = value else {
        return None;
    };
    if displaces(model, end, *object) {
        return None;
    }
    if !model.meta().is_reference(end.feature) {
        return None;
    }
    // a set displaces no link only if the end is empty, so the end does not have this object already
    if new_set_refusal(model, end, value).is_some() {
        return None;
    }
    Some(put_at(model, end, 0, *object))
}

#[inline(always)]
fn put_of_add<L: LinkStore>(
    model: &ModelRef<L>,
    end: End,
    value: &Value,
    index: Option<u32>,
) -> Option<NewLink>
    ensures { result ≡ lone.lone_add (reading model.now) (At end (Add value.now index)) end value.now index }
{
    let Value::Object(object) = value else {
        return None;
    };
    if displaces(model, end, *object) {
        return None;
    }
    if adds_no_link(model, end, value, *object) {
        return None;
    }
    if add_late_refusal(model, end, value, index, false).is_some() {
        return None;
    }
    Some(put_at(model, end, model.position_for(end, index), *object))
}

/// Whether an addition of an object makes no link. The addition must displace no link. So if the feature is a containment, the object has
/// no container, and the list can't have the object already: the list is not searched.
#[inline(always)]
fn adds_no_link<L: LinkStore>(
    model: &ModelRef<L>,
    end: End,
    value: &Value,
    object: ObjectNo,
) -> bool
    requires object { value.now ≡ Object object }
    requires lone { displaces (reading model.now) end object ≡ false }
    ensures { result ≡ is_plain_add (reading model.now) end value.now }
{
    model.lemma_is_legal();
    if model.meta().is_containment(end.feature) {
        return false;
    }
    is_plain_add(model, end, value)
}

/// The new link that puts an object at a position of an end.
#[inline(always)]
pub(crate) fn put_at<L: LinkStore>(
    model: &ModelRef<L>,
    end: End,
    index: u32,
    object: ObjectNo,
) -> NewLink
    ensures { result ≡ lone.put_at (reading model.now) end index object }
{
    NewLink {
        end,
        index,
        object,
        opposite: model.meta().opposite(end.feature),
        container: model.meta().containing(end.feature),
    }
}
