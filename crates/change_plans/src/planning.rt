//! The plan of a change: its edits, and its notifications.
ghost use Rattle.std.specs.Prelude.{◌≡◌, ◌++◌, [], true, false, not, nat_le, nat_lt, None, is_some, IfOk, OnOk, if◌then◌else◌};
ghost use Rattle.mm_types.specs.Conditions.{◌unless◌, ◌else_by◌};
ghost use Rattle.mm_types.specs.declared.limits.TheConstants.{OBJECTS};
ghost use Rattle.mm_types.specs.declared.refused.Refused.TheVariants.{Index, Limit};
ghost use Rattle.models.specs.Model.{reading};
ghost use Rattle.models.specs.Reading.{is_repeat as is_repeat_of, position_for, takes};
ghost use Rattle.handshake.specs.Displaced as d;
ghost use Rattle.handshake.specs.Edits as e;
ghost use Rattle.handshake.specs.Effects.{value_edits as value_edits_of};
ghost use Rattle.handshake.specs.Changes.{HasFittingDocument, HasReadDocument, IsRemovalOf};
ghost use Rattle.change_plans.specs.Plans.{IsAllowed, IsPlanOf, Plans, removal_in, resolved_in, target_in};
ghost use Rattle.handshake.specs.Refusals as refusals;
ghost use Rattle.handshake.specs.FeatureChanges as t;
ghost use Rattle.handshake.specs.declared.act.Act.TheVariants.{Add};
ghost use Rattle.handshake.specs.declared.change.Change.TheVariants.{At};

use crate::destroyed::removal_of;
use crate::edits::{link_edits, value_edits};
use crate::loads::{load_refusal, root_notices};
use crate::planned::{Finding, Planned};
use crate::resolved_proxy::target_of;
use crate::resolving_all::all_resolved;
use handshake::{
    Act, Change, cut_link_ends, gain_refusal, has_already, is_repeat, link_refusal, lost_notices,
    notices,
};
use links::{LinkStore, Plan};
use mm_types::{End, FeatureNo, ObjectNo, Refused, Text, Value, limits};
use mm_values::ValuePlan;
use models::{ModelRef, contents_end, is_short, is_short_text};
use notice_chain::Chain;
use proxies::{ResolvedProxy, resolve_refusal};
use removal::{LinkEnd, Removal};
use std::alloc::{AllocError, Global};

/// The plan of a change, or the first refusal that planning finds. The change must not be refused early (`early_refusal`). The
/// notifications are made only if `is_heard`, that is, if an adapter may have to get them.
///
/// The refusals of a change are looked for in the order in which they are named here. `WrongType` if the value is not of the feature's
/// type. `TextLength` if a text has more than 65,535 bytes. `Index` if a removal or a move names an index at which no value is, or if an
/// addition would leave a gap before the new value. `Duplicate` if a unique list has the value that is added at an index. `Bound` if an end
/// that has to gain a value is full: it has as many values as its upper bound, which is above 1. `Recursive` if an object would be put into
/// itself or into an object below it. `Limit` if an object is to be made and 1,000,000 were made already, if a resource is to be made and
/// there are 100,000 already, or if an end that has to gain a value has 1,000,000 values. `ResourceExists` if a resource has the URI.
///
/// For a resolve of one proxy: `WrongType` if the feature is an attribute, or if the object at the address of the proxy is not of the
/// feature's type. `Index` if no value is at the index. `Duplicate` if the end has the object at the address already. `NotProxy` if the
/// value at the index is no proxy. `Unloaded` if no resource has the URI of the proxy. `Unresolved` if no object is at the address.
/// `Unmatched` if the reference has an opposite, but no proxy at the opposite end leads back to the referring object.
///
/// For a load: `Limit` if more than 1,000,000 objects would have been made in all, those of the document included. `NotEmpty` if the
/// resource has roots.
///
/// `Memory` only if no other refusal applies. A resolve of one proxy is different: its target is looked for first, so `Memory` may be
/// returned though another refusal applies.
pub fn plan<L: LinkStore>(
    alloc: Global,
    model: &ModelRef<L>,
    change: Change,
    is_heard: bool,
) -> Result<Planned, Refused>
    requires asked { refusals.early_refusal (reading model.now) change ≡ None }
    requires read { HasReadDocument model.now.metamodel change }
    ensures { Plans is_heard result model.now change }
{
    let target = target_of(alloc, model, &change)?;
    if let Some(refused) = late_refusal(model, &change, target) {
        return Err(refused);
    }
    Ok(made(alloc, model, change, target, is_heard)?)
}

/// The plan of a change. The change must not be refused. Fails only if memory is refused.
fn made<L: LinkStore>(
    alloc: Global,
    model: &ModelRef<L>,
    change: Change,
    target: Option<ResolvedProxy>,
    is_heard: bool,
) -> Result<Planned, AllocError>
    requires found { target ≡ t.target_of (reading model.now) change }
    requires asked { refusals.early_refusal (reading model.now) change ≡ None }
    requires allowed { refusals.late_refusal (reading model.now) change ≡ None }
    requires read { HasReadDocument model.now.metamodel change }
    ensures { IfOk result (IsPlanOf is_heard model.now change) }
{
    model.lemma_is_legal();
    if let Change::ResolveAll = &change {
        return all_resolved(alloc, model, is_heard);
    }
    let removal = removal_of(alloc, model, &change)?;
    let (edits, values, chain) = edits_and_notices(
        alloc, model, change, &removal, target, is_heard,
    )?;
    Ok(Planned {
        finding: finding(removal, target),
        edits,
        values,
        chain,
    })
}

/// The `Finding` of a change that doesn't resolve all proxies: the removal or the target that was found, or `Nothing`. A change that
/// destroys objects resolves no proxy, so at most one of the two arguments is `Some`.
fn finding(removal: Option<Removal>, target: Option<ResolvedProxy>) -> Finding
    requires one { is_some removal ≡ true → target ≡ None }
    ensures removal { removal_in result ≡ removal }
    ensures target { target_in result ≡ target }
    ensures resolved { resolved_in result ≡ None }
{
    match (removal, target) {
        (Some(removal), _) => Finding::Removal(removal),
        (None, Some(target)) => Finding::Target(target),
        (None, None) => Finding::Nothing,
    }
}

/// The edits of links that a change makes, its edits of values, and its notifications. The change must not be refused, and must not resolve
/// all proxies. The notifications are made only if `is_heard`. `removal` has the objects that the change destroys, if there are any.
/// `target` is the target of the proxy that the change resolves, if it resolves one. Fails only if memory is refused.
fn edits_and_notices<L: LinkStore>(
    alloc: Global,
    model: &ModelRef<L>,
    change: Change,
    removal: &Option<Removal>,
    target: Option<ResolvedProxy>,
    is_heard: bool,
) -> Result<(Plan, ValuePlan, Chain), AllocError>
    requires asked { refusals.early_refusal (reading model.now) change ≡ None }
    requires allowed { refusals.late_refusal (reading model.now) change ≡ None }
    requires removal { IsRemovalOf (reading model.now) change removal.now }
    requires found { target ≡ t.target_of (reading model.now) change }
    requires read { HasReadDocument model.now.metamodel change }
    requires one { t.resolves_all change ≡ false }
    ensures edits { IfOk result (λ p. p.0 ≡ e.link_edits (reading model.now) change) }
    ensures values { IfOk result (λ p. p.1 ≡ value_edits_of (reading model.now) change) }
    ensures chain { IfOk result (λ p. p.2 ≡ (if is_heard then t.chain (reading model.now) change else [])) }
{
    model.lemma_is_legal();
    let mut chain = Chain::none(alloc);
    let edits = links_and_notices(alloc, model, &change, removal, target, is_heard, &mut chain)?;
    let values = value_edits(alloc, model, change, removal)?;
    Ok((edits, values, chain))
}

/// The edits of links that a change makes. Adds the notifications of the change to `chain` if `is_heard`, that is, if an adapter may have
/// to get them. The change must not be refused, and must not resolve all proxies. Fails only if memory is refused.
pub(crate) fn links_and_notices<L: LinkStore>(
    alloc: Global,
    model: &ModelRef<L>,
    change: &Change,
    removal: &Option<Removal>,
    target: Option<ResolvedProxy>,
    is_heard: bool,
    chain: &mut Chain,
) -> Result<Plan, AllocError>
    requires { IsAllowed (reading model.now) change.now removal.now target }
    ensures edits { IfOk result (λ p. p ≡ e.link_edits (reading model.now) change.now) }
    ensures chain { OnOk result (chain.new ≡ chain.old ++ (if is_heard then t.chain (reading model.now) change.now else [])) }
{
    let link_ends = cut_link_ends(alloc, model, change, removal, target)?;
    if is_heard {
        add_notices(alloc, model, change, removal, target, &link_ends, chain)?;
    }
    link_edits(alloc, model, link_ends, change, target)
}

/// The first refusal that planning finds. Takes no memory.
pub(crate) fn late_refusal<L: LinkStore>(
    model: &ModelRef<L>,
    change: &Change,
    target: Option<ResolvedProxy>,
) -> Option<Refused>
    requires found { target ≡ t.target_of (reading model.now) change.now }
    ensures { result ≡ refusals.late_refusal (reading model.now) change.now }
{
    match change {
        Change::At(end, act) => act_late_refusal(model, *end, act, target),
        Change::Create(_) => create_late_refusal(model),
        Change::NewResource(uri) => uri_refusal(model, uri),
        Change::Load(resource, doc) => load_refusal(model, *resource, doc),
        Change::Delete(_) | Change::ResolveAll => None,
    }
}

/// The first refusal that planning finds for an act at an end. Takes no memory.
#[inline(always)]
fn act_late_refusal<L: LinkStore>(
    model: &ModelRef<L>,
    end: End,
    act: &Act,
    target: Option<ResolvedProxy>,
) -> Option<Refused>
    requires found { target ≡ t.target_of (reading model.now) (At end act.now) }
    ensures { result ≡ refusals.late_refusal (reading model.now) (At end act.now) }
{
    match act {
        Act::Set(value) => set_late_refusal(model, end, value),
        Act::Unset => None,
        Act::Add(value, index) => {
            add_late_refusal(model, end, value, *index, is_repeat(model, end, value))
        }
        Act::Remove(index) => index_refusal(*index < model.len(end)),
        Act::RemoveValue(value) => type_refusal(model, end.feature, value),
        Act::Move { to, from } => {
            let len = model.len(end);
            index_refusal(*to < len && *from < len)
        }
        Act::Resolve(index) => resolve_refusal(model, end, *index, target),
    }
}

pub(crate) fn create_late_refusal<L: LinkStore>(model: &ModelRef<L>) -> Option<Refused>
    ensures { result ≡ (Limit unless nat_lt (reading model.now).next OBJECTS) }
{
    if model.next() < limits::OBJECTS {
        None
    } else {
        Some(Refused::Limit)
    }
}

#[inline(always)]
pub(crate) fn set_late_refusal<L: LinkStore>(
    model: &ModelRef<L>,
    end: End,
    value: &Value,
) -> Option<Refused>
    ensures { result ≡ (refusals.type_refusal (reading model.now) end.feature value.now else_by refusals.set_refusal (reading model.now) end value.now) }
{
    if let Some(refused) = type_refusal(model, end.feature, value) {
        return Some(refused);
    }
    set_refusal(model, end, value)
}

/// The first refusal that planning finds for a set. The end must not have the value yet. The refusals are, in this order: `WrongType`,
/// `TextLength`, `Bound`, `Recursive` or `Limit`.
#[inline(always)]
pub(crate) fn new_set_refusal<L: LinkStore>(
    model: &ModelRef<L>,
    end: End,
    value: &Value,
) -> Option<Refused>
    requires new { d.has_already (reading model.now) end value.now ≡ false }
    ensures { result ≡ (refusals.type_refusal (reading model.now) end.feature value.now else_by refusals.set_refusal (reading model.now) end value.now) }
{
    if let Some(refused) = type_refusal(model, end.feature, value) {
        return Some(refused);
    }
    match value {
        Value::Object(object) => link_refusal(model, end, *object),
        _ => None,
    }
}

/// The first refusal that planning finds for an addition: `WrongType`, `TextLength`, `Index`, `Duplicate`, `Bound`, `Recursive` or `Limit`,
/// in this order. `repeats` must say whether the list is unique and has the value already.
#[inline(always)]
pub(crate) fn add_late_refusal<L: LinkStore>(
    model: &ModelRef<L>,
    end: End,
    value: &Value,
    index: Option<u32>,
    repeats: bool,
) -> Option<Refused>
    requires repeats { repeats ≡ is_repeat_of (reading model.now) end value.now }
    ensures { result ≡ refusals.late_refusal (reading model.now) (At end (Add value.now index)) }
{
    if let Some(refused) = type_refusal(model, end.feature, value) {
        return Some(refused);
    }
    if is_past(model, end, index) {
        return Some(Refused::Index);
    }
    if !repeats {
        return gain_refusal(model, end, value);
    }
    match index {
        Some(_) => Some(Refused::Duplicate),
        None => None,
    }
}

/// Whether a value that is added at `index` would leave a gap after the last value of an end; false if `index` is `None`.
fn is_past<L: LinkStore>(model: &ModelRef<L>, end: End, index: Option<u32>) -> bool
    ensures { result ≡ not (nat_le (position_for (reading model.now) end index) (refusals.count_at (reading model.now) end)) }
{
    match index {
        Some(index) => index > model.len(end),
        None => false,
    }
}

/// Why no resource with the URI `uri` can be made: `TextLength`, `Limit` or `ResourceExists`.
fn uri_refusal<L: LinkStore>(model: &ModelRef<L>, uri: &Text) -> Option<Refused>
    ensures { result ≡ refusals.uri_refusal (reading model.now) uri.now }
{
    if !is_short_text(uri.as_str()) {
        return Some(Refused::TextLength);
    }
    if model.resources() >= limits::RESOURCES {
        return Some(Refused::Limit);
    }
    if model.has_uri(uri.as_str()) {
        return Some(Refused::ResourceExists);
    }
    None
}

/// Why a feature can't hold a value: `WrongType` or `TextLength`.
#[inline(always)]
fn type_refusal<L: LinkStore>(
    model: &ModelRef<L>,
    feature: FeatureNo,
    value: &Value,
) -> Option<Refused>
    ensures { result ≡ refusals.type_refusal (reading model.now) feature value.now }
{
    if !model.takes(feature, value) {
        return Some(Refused::WrongType);
    }
    if !is_short(value) {
        return Some(Refused::TextLength);
    }
    None
}

fn index_refusal(is_there: bool) -> Option<Refused>
    ensures { result ≡ (Index unless is_there) }
{
    if is_there { None } else { Some(Refused::Index) }
}

/// Why a single end can't be set to a value that is of the feature's type: `Bound`, `Recursive` or `Limit`. A set to the value that the end
/// has already is not refused.
#[inline(always)]
fn set_refusal<L: LinkStore>(model: &ModelRef<L>, end: End, value: &Value) -> Option<Refused>
    requires taken { takes (reading model.now) end.feature value.now ≡ true }
    ensures { result ≡ refusals.set_refusal (reading model.now) end value.now }
{
    match value {
        Value::Object(object) if !has_already(model, end, value) => {
            link_refusal(model, end, *object)
        }
        _ => None,
    }
}

/// Adds the notifications of a change to a chain. `link_ends` must have the links that the change cuts. The change must not be refused, and
/// must not resolve all proxies.
pub(crate) fn add_notices<L: LinkStore>(
    alloc: Global,
    model: &ModelRef<L>,
    change: &Change,
    removal: &Option<Removal>,
    target: Option<ResolvedProxy>,
    link_ends: &[LinkEnd],
    chain: &mut Chain,
) -> Result<(), AllocError>
    requires allowed { IsAllowed (reading model.now) change.now removal.now target }
    requires cut { link_ends.now ≡ d.cut_link_ends (reading model.now) change.now }
    ensures { OnOk result (chain.new ≡ chain.old ++ t.chain (reading model.now) change.now) }
{
    model.lemma_is_legal();
    if let Some(removal) = removal {
        return lost_notices(alloc, model, removal, chain);
    }
    if let Change::Load(resource, doc) = change {
        let roots = contents_end(model.meta(), *resource);
        return root_notices(alloc, model.next(), roots, doc.roots.as_slice(), chain);
    }
    notices(alloc, model, change, link_ends, target, chain)
}
