//! The answers of changes. The answer of a change is found before the change is made.
ghost use Rattle.std.specs.Prelude.{◌≡◌, ℕ, List, false, is_some, Some, true, IfOk};
ghost use Rattle.mm_types.specs.Ends.{value_in};
ghost use Rattle.notice_chain.specs.Listed.{Listed};
ghost use Rattle.models.specs.Model.{reading};
ghost use Rattle.repository.specs.Answers.{IsEarlyAnswer, act_answer, answer_of, is_answered_late, planned_answer as planned_answer_of};
ghost use Rattle.repository.specs.Proper.{IsProper};
ghost use Rattle.repository.specs.Views.{command_of};
ghost use Rattle.handshake.specs.declared.change.Change.TheVariants.{At};
ghost use Rattle.repository.specs.declared.reply.Answer.TheVariants as answer;

use crate::reply::Answer;
use change_plans::Finding;
use handshake::{Act, Change, is_repeat};
use links::LinkStore;
use mm_types::{End, ObjectNo, ResourceNo, Value};
use models::{ModelRef, copied};
use std::alloc::{AllocError, Global};

/// The answer that a change has if it is not refused. The caller passes only a change whose answer does not depend on its plan: no
/// deletion, no resolve of one proxy and no resolve of all proxies. Fails only if memory is refused.
pub(crate) fn known_answer<L: LinkStore>(
    alloc: Global,
    model: &ModelRef<L>,
    change: &Change,
) -> Result<Answer, AllocError>
    requires proper { (text : List ℕ) × IsProper (reading model.now) text change.now }
    requires known { is_answered_late change.now ≡ false }
    ensures { IfOk result (λ a. (rs : List Listed) (text : List ℕ) → IsProper (reading model.now) text change.now → a ≡ answer_of (reading model.now) rs (command_of text change.now)) }
{
    match early_answer(alloc, model, change)? {
        Some(answer) => Ok(answer),
        None => unreachable!(),
    }
}

/// The answer that a change has if it is not refused. `None` for a deletion, a resolve of one proxy, and a resolve of all proxies, since
/// the answer of such a change depends on its plan. Fails only if memory is refused.
pub(crate) fn early_answer<L: LinkStore>(
    alloc: Global,
    model: &ModelRef<L>,
    change: &Change,
) -> Result<Option<Answer>, AllocError>
    requires proper { (text : List ℕ) × IsProper (reading model.now) text change.now }
    ensures { IfOk result (λ q. (rs : List Listed) (text : List ℕ) → IsProper (reading model.now) text change.now → IsEarlyAnswer (is_answered_late change.now) (answer_of (reading model.now) rs (command_of text change.now)) q) }
{
    model.lemma_is_legal();
    match change {
        Change::At(end, act) => early_act_answer(alloc, model, *end, act),
        Change::Create(_) => Ok(Some(Answer::Object(next_object(model)))),
        Change::NewResource(_) => Ok(Some(Answer::Resource(ResourceNo(model.resources() as u32)))),
        Change::Load(_, doc) => Ok(Some(Answer::Loaded(doc.objects.len() as u64))),
        Change::Delete(_) | Change::ResolveAll => Ok(None),
    }
}

/// The answer that an act at an end has if it is not refused; `None` for a resolve, since its answer depends on its plan. Fails only if
/// memory is refused.
fn early_act_answer<L: LinkStore>(
    alloc: Global,
    model: &ModelRef<L>,
    end: End,
    act: &Act,
) -> Result<Option<Answer>, AllocError>
    ensures { IfOk result (IsEarlyAnswer (is_answered_late (At end act.now)) (act_answer (reading model.now) end act.now)) }
{
    match act {
        Act::Set(_) | Act::Unset => Ok(Some(Answer::Done)),
        Act::Add(value, _) => Ok(Some(Answer::Flag(!is_repeat(model, end, value)))),
        Act::Remove(index) => Ok(Some(value_answer(alloc, model, end, *index)?)),
        Act::RemoveValue(value) => Ok(Some(Answer::Flag(model.has(end, value)))),
        Act::Move { from, .. } => Ok(Some(value_answer(alloc, model, end, *from)?)),
        Act::Resolve(_) => Ok(None),
    }
}

/// The number that the next object gets.
pub(crate) fn next_object<L: LinkStore>(model: &ModelRef<L>) -> ObjectNo
    ensures { result ≡ record { 0 = (reading model.now).next } }
{
    model.lemma_is_legal();
    ObjectNo(model.next() as u32)
}

/// The answer of a change, taken from what planning found: how many objects are destroyed, the object that replaces a proxy, or how many
/// proxies are resolved and how many are left. Planning must have found one of these (no `Nothing`).
pub(crate) fn planned_answer(finding: &Finding) -> Answer
    requires found { is_some (planned_answer_of finding.now) ≡ true }
    ensures { Some result ≡ planned_answer_of finding.now }
{
    match finding {
        Finding::Nothing => unreachable!(),
        Finding::Removal(removal) => Answer::Destroyed(removal.objects.len() as u64),
        Finding::Target(target) => Answer::Object(target.object),
        Finding::Counts(resolved) => Answer::Resolved {
            done: resolved.done as u64,
            left: resolved.left as u64,
        },
    }
}

/// The value at an index of a list, as an answer; null if no value is there. Fails only if memory is refused.
fn value_answer<L: LinkStore>(
    alloc: Global,
    model: &ModelRef<L>,
    end: End,
    index: u32,
) -> Result<Answer, AllocError>
    ensures { IfOk result (λ a. a ≡ answer.Value (value_in ((reading model.now).values end) index)) }
{
    let value = copied(alloc, model.value_in(end, index))?;
    Ok(Answer::Value(value))
}
