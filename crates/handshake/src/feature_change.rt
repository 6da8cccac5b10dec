//! The notifications of the feature changes of a change, end by end.
ghost use Rattle.std.specs.Prelude.{◌≡◌, ◌∷◌, ◌++◌, [], None, false, not, flat_map, filter, map, OnOk};
ghost use Rattle.std.specs.Option.{option_map_or};
ghost use Rattle.mm_types.specs.Shapes.{is_containment};
ghost use Rattle.mm_types.specs.declared.value.Value.TheVariants as value;
ghost use Rattle.models.specs.Model.{reading};
ghost use Rattle.handshake.specs.FeatureChange.{notice_at};
ghost use Rattle.handshake.specs.FeatureChanges as t;
ghost use Rattle.handshake.specs.FeatureChanges.{destroyed_by, loaded_by, resolves_all, target_of};
ghost use Rattle.handshake.specs.declared.change.Change.TheVariants.{At};

use crate::act::Act;
use crate::chain::notice;
use crate::change::Change;
use crate::change_kind::{ChangeKind, FeatureChange};
use crate::link_end::{node_value, turned};
use crate::plain::{is_plain_set, is_repeat};
use links::LinkStore;
use mm_types::{End, ObjectNo, Value};
use models::ModelRef;
use notice_chain::Chain;
use proxies::{ResolvedProxy, opposite_end};
use removal::LinkEnd;
use std::alloc::{AllocError, Global};

/// Adds to `chain` the notifications of a change, in order. `link_ends` are the links that the change cuts. `target` is the target of the
/// proxy that the change resolves; `None` if the change resolves no proxy, or if the proxy has no target. This function is for changes that
/// neither destroy nor load anything, and don't resolve all proxies. All notifications are computed in the same model, the model before the
/// change. If memory is refused, `chain` may have some of the notifications.
pub fn notices<L: LinkStore>(
    alloc: Global,
    model: &ModelRef<L>,
    change: &Change,
    link_ends: &[LinkEnd],
    target: Option<ResolvedProxy>,
    chain: &mut Chain,
) -> Result<(), AllocError>
    requires destroys_nothing { destroyed_by change.now ≡ None }
    requires loads_nothing { loaded_by change.now ≡ None }
    requires found { target ≡ target_of (reading model.now) change.now }
    requires one { resolves_all change.now ≡ false }
    ensures { OnOk result (chain.new ≡ chain.old ++ map (notice_at (reading model.now)) (t.feature_changes_with (reading model.now) change.now link_ends.now)) }
{
    // only an `At`, a `Create` and a `NewResource` come here, and the last two have no notifications. The module `chain` makes the
    // notifications of a delete. In `change_plans` the module `loads` makes the notifications of a load, and the module `resolving_all`
    // those of a resolve of all proxies
    match change {
        Change::At(end, act) => push_act(alloc, model, *end, act, link_ends, target, chain),
        _ => Ok(()),
    }
}

/// Adds the notifications of an act, at its end and at other ends.
fn push_act<L: LinkStore>(
    alloc: Global,
    model: &ModelRef<L>,
    end: End,
    act: &Act,
    link_ends: &[LinkEnd],
    target: Option<ResolvedProxy>,
    chain: &mut Chain,
) -> Result<(), AllocError>
    requires found { target ≡ target_of (reading model.now) (At end act.now) }
    ensures { OnOk result (chain.new ≡ chain.old ++ map (notice_at (reading model.now)) (t.feature_changes_with (reading model.now) (At end act.now) link_ends.now)) }
{
    match act {
        Act::Set(value) => push_set(alloc, model, end, value, link_ends, chain),
        Act::Unset => push_unset(alloc, model, end, link_ends, chain),
        Act::Add(value, index) => push_added(alloc, model, end, value, *index, link_ends, chain),
        Act::Remove(index) => push_taken_out(alloc, model, end, link_ends, *index, chain),
        Act::RemoveValue(value) => push_value_taken_out(alloc, model, end, link_ends, value, chain),
        Act::Move { to, from } => push(alloc, model, end, ChangeKind::Moves(*to, *from), chain),
        Act::Resolve(index) => push_resolved(alloc, model, end, *index, target, chain),
    }
}

/// Adds the notifications of an unset: first the losses at the far ends of the links that are cut, and then the changes of `end`.
fn push_unset<L: LinkStore>(
    alloc: Global,
    model: &ModelRef<L>,
    end: End,
    link_ends: &[LinkEnd],
    chain: &mut Chain,
) -> Result<(), AllocError>
    ensures { OnOk result (chain.new ≡ chain.old ++ map (notice_at (reading model.now)) (t.far_losses (reading model.now) link_ends.now ++ t.changes_of_unset (reading model.now) end)) }
{
    push_far_losses(alloc, model, link_ends, chain)?;
    push_emptied(alloc, model, end, chain)
}

/// Adds the notifications of a proxy that is resolved: first at the opposite end, if the proxy has a counterpart there, and then at the
/// end of the proxy itself. Adds nothing if `target` is `None`.
pub fn push_resolved<L: LinkStore>(
    alloc: Global,
    model: &ModelRef<L>,
    end: End,
    index: u32,
    target: Option<ResolvedProxy>,
    chain: &mut Chain,
) -> Result<(), AllocError>
    ensures { OnOk result (chain.new ≡ chain.old ++ map (notice_at (reading model.now)) (option_map_or (t.changes_of_resolve end index) target [])) }
{
    let Some(target) = target else {
        return Ok(());
    };
    if let Some(other) = target.counterpart {
        let resolved = ChangeKind::Resolves(other.index, node_value(end.node));
        push(alloc, model, other.end, resolved, chain)?;
    }
    let resolved = ChangeKind::Resolves(index, Value::Object(target.object));
    push(alloc, model, end, resolved, chain)
}

/// Adds the notifications of a set of a single feature.
fn push_set<L: LinkStore>(
    alloc: Global,
    model: &ModelRef<L>,
    end: End,
    value: &Value,
    link_ends: &[LinkEnd],
    chain: &mut Chain,
) -> Result<(), AllocError>
    ensures { OnOk result (chain.new ≡ chain.old ++ map (notice_at (reading model.now)) (t.changes_of_set (reading model.now) end value.now link_ends.now)) }
{
    if !is_plain_set(model, end, value) {
        push_cuts(alloc, model, end, value, link_ends, chain)?;
    }
    push(alloc, model, end, ChangeKind::Gains(value.clone()?), chain)
}

/// Adds the notifications of an addition to a list; none if the list is unique and has the value already.
fn push_added<L: LinkStore>(
    alloc: Global,
    model: &ModelRef<L>,
    end: End,
    value: &Value,
    index: Option<u32>,
    link_ends: &[LinkEnd],
    chain: &mut Chain,
) -> Result<(), AllocError>
    ensures { OnOk result (chain.new ≡ chain.old ++ map (notice_at (reading model.now)) (t.changes_of_add (reading model.now) end value.now index link_ends.now)) }
{
    if is_repeat(model, end, value) {
        return Ok(());
    }
    push_cuts(alloc, model, end, value, link_ends, chain)?;
    push(alloc, model, end, gain_at(index, value.clone()?), chain)
}

/// A gain of a value in a list: at `index` if an index is given, or else after the last value.
fn gain_at(index: Option<u32>, value: Value) -> ChangeKind
    ensures { result ≡ t.gain_at index value }
{
    match index {
        Some(index) => ChangeKind::GainsAt(index, value),
        None => ChangeKind::Gains(value),
    }
}

/// Adds the notifications of an act that takes the value at an index out of a list: the losses at the far ends of the links that the act
/// cuts, and then the loss at the list.
fn push_taken_out<L: LinkStore>(
    alloc: Global,
    model: &ModelRef<L>,
    end: End,
    link_ends: &[LinkEnd],
    index: u32,
    chain: &mut Chain,
) -> Result<(), AllocError>
    ensures { OnOk result (chain.new ≡ chain.old ++ map (notice_at (reading model.now)) (t.changes_of_remove (reading model.now) end link_ends.now index)) }
{
    push_far_losses(alloc, model, link_ends, chain)?;
    push(alloc, model, end, ChangeKind::LosesAt(index), chain)
}

/// Adds the notifications of an act that takes the first occurrence of a value out of a list; none if the list lacks the value.
fn push_value_taken_out<L: LinkStore>(
    alloc: Global,
    model: &ModelRef<L>,
    end: End,
    link_ends: &[LinkEnd],
    value: &Value,
    chain: &mut Chain,
) -> Result<(), AllocError>
    ensures { OnOk result (chain.new ≡ chain.old ++ map (notice_at (reading model.now)) (t.changes_of_remove_value (reading model.now) end link_ends.now value.now)) }
{
    match model.position(end, value) {
        Some(index) => push_taken_out(alloc, model, end, link_ends, index, chain),
        None => Ok(()),
    }
}

/// Adds the notifications at the end that is unset: a single end gets its default again, and a list loses each value, the last one first.
fn push_emptied<L: LinkStore>(
    alloc: Global,
    model: &ModelRef<L>,
    end: End,
    chain: &mut Chain,
) -> Result<(), AllocError>
    ensures { OnOk result (chain.new ≡ chain.old ++ map (notice_at (reading model.now)) (t.changes_of_unset (reading model.now) end)) }
{
    if model.meta().is_single(end.feature) {
        return push(alloc, model, end, ChangeKind::Unsets, chain);
    }
    push_all_lost(alloc, model, end, model.len(end), chain)
}

fn push_all_lost<L: LinkStore>(
    alloc: Global,
    model: &ModelRef<L>,
    end: End,
    len: u32,
    chain: &mut Chain,
) -> Result<(), AllocError>
    ensures { OnOk result (chain.new ≡ chain.old ++ map (notice_at (reading model.now)) (t.all_lost end len)) }
{
    for index in (0..len).rev() {
        push(alloc, model, end, ChangeKind::LosesAt(index), chain)?;
    }
    Ok(())
}

/// Adds the notifications that come before the gain of a value at `end`. `link_ends` are the links that the change cuts.
fn push_cuts<L: LinkStore>(
    alloc: Global,
    model: &ModelRef<L>,
    end: End,
    value: &Value,
    link_ends: &[LinkEnd],
    chain: &mut Chain,
) -> Result<(), AllocError>
    ensures { OnOk result (chain.new ≡ chain.old ++ map (notice_at (reading model.now)) (t.before_gain (reading model.now) end value.now link_ends.now)) }
{
    match value {
        Value::Object(object) => {
            let link = AddedLink {
                end,
                object: *object,
            };
            push_other_losses(alloc, model, link, link_ends, chain)?;
            match opposite_end(model, end, *object) {
                Some(far) => {
                    let gain = ChangeKind::Gains(node_value(end.node));
                    push(alloc, model, far, gain, chain)
                }
                None => Ok(()),
            }
        }
        _ => push_far_losses(alloc, model, link_ends, chain),
    }
}

/// Adds the notification of the loss at the far end of each link of `link_ends`. The far end of a link is the end by which `link_ends` does
/// not name the link. A link that has no far end adds nothing.
fn push_far_losses<L: LinkStore>(
    alloc: Global,
    model: &ModelRef<L>,
    link_ends: &[LinkEnd],
    chain: &mut Chain,
) -> Result<(), AllocError>
    ensures { OnOk result (chain.new ≡ chain.old ++ map (notice_at (reading model.now)) (t.far_losses (reading model.now) link_ends.now)) }
{
    for link_end in link_ends {
        push_far_loss(alloc, model, link_end, chain)?;
    }
    Ok(())
}

fn push_far_loss<L: LinkStore>(
    alloc: Global,
    model: &ModelRef<L>,
    link_end: &LinkEnd,
    chain: &mut Chain,
) -> Result<(), AllocError>
    ensures { OnOk result (chain.new ≡ chain.old ++ map (notice_at (reading model.now)) (t.far_loss (reading model.now) link_end.now)) }
{
    match turned(model, link_end) {
        Some(far) => push_loss(alloc, model, &far, chain),
        None => Ok(()),
    }
}

/// A new link from an end to an object.
#[derive(Clone, Copy)]
struct AddedLink {
    end: End,
    object: ObjectNo,
}

/// Adds the notifications of the losses at the ends of the links that the new link displaces; a loss is left out if the new link replaces
/// the lost value.
fn push_other_losses<L: LinkStore>(
    alloc: Global,
    model: &ModelRef<L>,
    link: AddedLink,
    link_ends: &[LinkEnd],
    chain: &mut Chain,
) -> Result<(), AllocError>
    ensures { OnOk result (chain.new ≡ chain.old ++ map (notice_at (reading model.now)) (flat_map (t.other_losses (reading model.now) link.end link.object) link_ends.now)) }
{
    for link_end in link_ends {
        push_losses(alloc, model, link, link_end, chain)?;
    }
    Ok(())
}

/// Adds the notifications of the losses at the ends of a link that the new link displaces; a loss is left out if the new link replaces the
/// lost value. If one of the ends is a containment, the loss at this end comes first.
fn push_losses<L: LinkStore>(
    alloc: Global,
    model: &ModelRef<L>,
    link: AddedLink,
    link_end: &LinkEnd,
    chain: &mut Chain,
) -> Result<(), AllocError>
    ensures { OnOk result (chain.new ≡ chain.old ++ map (notice_at (reading model.now)) (t.other_losses (reading model.now) link.end link.object link_end.now)) }
{
    let Some(far) = turned(model, link_end) else {
        return push_other_loss(alloc, model, link, link_end, chain);
    };
    if model.meta().is_containment(far.end.feature) {
        push_both(alloc, model, link, &far, link_end, chain)
    } else {
        push_both(alloc, model, link, link_end, &far, chain)
    }
}

/// Adds the notifications of the losses at the ends `first` and `second` of a link, in this order; a loss is left out if the new link
/// replaces the lost value.
fn push_both<L: LinkStore>(
    alloc: Global,
    model: &ModelRef<L>,
    link: AddedLink,
    first: &LinkEnd,
    second: &LinkEnd,
    chain: &mut Chain,
) -> Result<(), AllocError>
    ensures { OnOk result (chain.new ≡ chain.old ++ map (notice_at (reading model.now)) (filter (λ x. not (t.is_replaced (reading model.now) link.end link.object x.at)) (t.loss first.now ∷ t.loss second.now ∷ []))) }
{
    push_other_loss(alloc, model, link, first, chain)?;
    push_other_loss(alloc, model, link, second, chain)?;
    Ok(())
}

/// Adds the notification of a loss, unless the new link replaces the lost value.
fn push_other_loss<L: LinkStore>(
    alloc: Global,
    model: &ModelRef<L>,
    link: AddedLink,
    link_end: &LinkEnd,
    chain: &mut Chain,
) -> Result<(), AllocError>
    ensures { OnOk result (chain.new ≡ chain.old ++ map (notice_at (reading model.now)) (filter (λ x. not (t.is_replaced (reading model.now) link.end link.object x.at)) (t.loss link_end.now ∷ []))) }
{
    if is_replaced(model, link, link_end.end) {
        return Ok(());
    }
    push_loss(alloc, model, link_end, chain)
}

/// Whether a new link replaces the value of the end `other`: this end is single, and is an end of the new link.
fn is_replaced<L: LinkStore>(model: &ModelRef<L>, link: AddedLink, other: End) -> bool
    ensures { result ≡ t.is_replaced (reading model.now) link.end link.object other }
{
    if !model.meta().is_single(other.feature) {
        return false;
    }
    match opposite_end(model, link.end, link.object) {
        Some(far) => link.end == other || other == far,
        None => link.end == other,
    }
}

fn push_loss<L: LinkStore>(
    alloc: Global,
    model: &ModelRef<L>,
    link_end: &LinkEnd,
    chain: &mut Chain,
) -> Result<(), AllocError>
    ensures { OnOk result (chain.new ≡ chain.old ++ map (notice_at (reading model.now)) (t.loss link_end.now ∷ [])) }
{
    let value = link_end.value.clone()?;
    push(alloc, model, link_end.end, ChangeKind::Loses(value), chain)
}

/// Adds the notification of the change `does` at the end `at`.
fn push<L: LinkStore>(
    alloc: Global,
    model: &ModelRef<L>,
    at: End,
    does: ChangeKind,
    chain: &mut Chain,
) -> Result<(), AllocError>
    ensures { OnOk result (chain.new ≡ chain.old ++ map (notice_at (reading model.now)) (record { at = at; does = does } ∷ [])) }
{
    chain.push(alloc, notice(alloc, model, FeatureChange { at, does })?)
}
