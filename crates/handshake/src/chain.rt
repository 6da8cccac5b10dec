//! The notifications of feature changes.
ghost use Rattle.std.specs.Prelude.{◌≡◌, ◌∷◌, ◌++◌, [], map, IfOk, OnOk};
ghost use Rattle.mm_types.specs.Ends.{index_in};
ghost use Rattle.mm_types.specs.Shapes.{shape};
ghost use Rattle.models.specs.Model.{reading};
ghost use Rattle.removal.specs.Losses.{losses as losses_of};
ghost use Rattle.removal.specs.Removals.{IsRemoval};
ghost use Rattle.handshake.specs.Reports.{lost_notice as lost_notice_of, report_notice};
ghost use Rattle.handshake.specs.FeatureChange.{notice_at, feature_change};
ghost use Rattle.handshake.specs.declared.change_kind.ChangeKind.TheVariants.{Gains, Loses, Resolves, Unsets};

use crate::change_kind::{ChangeKind, FeatureChange};
use links::LinkStore;
use mm_meta::Meta;
use mm_types::{End, FeatureNo, Value};
use models::{ModelRef, copied};
use notice_chain::{Chain, NO_INDEX, Notice, NoticeKind};
use removal::{Loss, Removal, losses};
use std::alloc::{AllocError, Global};

/// Adds to `chain` a notification for each value that an end of a remaining node loses by a deletion. `removal` has the object that is
/// deleted, all objects below it, and the ends of remaining nodes that lose values. If memory is refused, `chain` may have some of the
/// notifications.
pub fn lost_notices<L: LinkStore>(
    alloc: Global,
    model: &ModelRef<L>,
    removal: &Removal,
    chain: &mut Chain,
) -> Result<(), AllocError>
    requires removal { IsRemoval (reading model.now) removal.now }
    ensures { OnOk result (chain.new ≡ chain.old ++ map (lost_notice_of (reading model.now)) (losses_of (reading model.now) removal.now.object)) }
{
    each_lost(alloc, model, losses(alloc, model, removal)?, chain)
}

fn each_lost<L: LinkStore>(
    alloc: Global,
    model: &ModelRef<L>,
    losses: Vec<Loss>,
    chain: &mut Chain,
) -> Result<(), AllocError>
    ensures { OnOk result (chain.new ≡ chain.old ++ map (lost_notice_of (reading model.now)) losses.items) }
{
    for loss in losses {
        chain.push(alloc, lost_notice(model, loss))?;
    }
    Ok(())
}

/// The notification of a loss: SET to null at a single end, else REMOVE at the loss's position.
fn lost_notice<L: LinkStore>(model: &ModelRef<L>, loss: Loss) -> Notice
    ensures { result ≡ lost_notice_of (reading model.now) loss }
{
    let Loss {
        end,
        value,
        position,
    } = loss;
    let (kind, position) = if model.meta().is_single(end.feature) {
        (NoticeKind::Set, NO_INDEX)
    } else {
        (NoticeKind::Remove, i64::from(position))
    };
    Notice {
        notifier: end.node,
        feature: Some(end.feature),
        kind,
        old_value: value,
        new_value: Value::Null,
        position,
        was_set: model.is_set(end),
    }
}

/// What happened at an end, as a notification says it: all of the notification except the end itself and `was_set`.
#[derive(Drop)]
pub(crate) struct Report {
    kind: NoticeKind,
    old_value: Value,
    new_value: Value,
    position: i64,
}

/// The notification of a feature change, computed from what the ends hold in `model`, where the feature change is not yet made.
#[inline(always)]
pub fn notice<L: LinkStore>(
    alloc: Global,
    model: &ModelRef<L>,
    feature_change: FeatureChange,
) -> Result<Notice, AllocError>
    ensures { IfOk result (λ n. n ≡ notice_at (reading model.now) feature_change) }
{
    let FeatureChange { at, does } = feature_change;
    let was_set = model.is_set(at);
    let report = report_of(alloc, model, at, does)?;
    Ok(Notice {
        notifier: at.node,
        feature: Some(at.feature),
        kind: report.kind,
        old_value: report.old_value,
        new_value: report.new_value,
        position: report.position,
        was_set,
    })
}

/// The report of the change `does` at the end `at`.
#[inline(always)]
fn report_of<L: LinkStore>(
    alloc: Global,
    model: &ModelRef<L>,
    at: End,
    does: ChangeKind,
) -> Result<Report, AllocError>
    ensures { IfOk result (λ p. report_notice (reading model.now) at p ≡ notice_at (reading model.now) (feature_change at does)) }
{
    match does {
        ChangeKind::Gains(value) => gain(alloc, model, at, value),
        ChangeKind::GainsAt(index, value) => Ok(Report {
            kind: NoticeKind::Add,
            old_value: Value::Null,
            new_value: value,
            position: i64::from(index),
        }),
        ChangeKind::Loses(value) => Ok(loss(model, at, value)),
        ChangeKind::LosesAt(index) => Ok(Report {
            kind: NoticeKind::Remove,
            old_value: copied(alloc, model.value_in(at, index))?,
            new_value: Value::Null,
            position: i64::from(index),
        }),
        ChangeKind::Unsets => unset(alloc, model, at),
        ChangeKind::Moves(to, from) => Ok(Report {
            kind: NoticeKind::Move,
            old_value: Value::Int(i64::from(from)),
            new_value: copied(alloc, model.value_in(at, from))?,
            position: i64::from(to),
        }),
        ChangeKind::Resolves(index, value) => resolved(alloc, model, at, index, value),
    }
}

/// The report of a resolve: RESOLVE from the proxy at an index to `value`. The position is the index, or -1 at a single end.
fn resolved<L: LinkStore>(
    alloc: Global,
    model: &ModelRef<L>,
    at: End,
    index: u32,
    value: Value,
) -> Result<Report, AllocError>
    ensures { IfOk result (λ p. report_notice (reading model.now) at p ≡ notice_at (reading model.now) (feature_change at (Resolves index value))) }
{
    let position = if model.meta().is_single(at.feature) {
        NO_INDEX
    } else {
        i64::from(index)
    };
    Ok(Report {
        kind: NoticeKind::Resolve,
        old_value: copied(alloc, model.value_in(at, index))?,
        new_value: value,
        position,
    })
}

/// The report of a gain: SET at a single end, with the old value; else ADD after the last value.
#[inline(always)]
fn gain<L: LinkStore>(
    alloc: Global,
    model: &ModelRef<L>,
    at: End,
    value: Value,
) -> Result<Report, AllocError>
    ensures { IfOk result (λ p. report_notice (reading model.now) at p ≡ notice_at (reading model.now) (feature_change at (Gains value))) }
{
    if !model.meta().is_single(at.feature) {
        return Ok(Report {
            kind: NoticeKind::Add,
            old_value: Value::Null,
            new_value: value,
            position: i64::from(model.len(at)),
        });
    }
    Ok(Report {
        kind: NoticeKind::Set,
        old_value: copied(alloc, model.value_at(at))?,
        new_value: value,
        position: NO_INDEX,
    })
}

/// The report of a loss: SET to null at a single end, else REMOVE at the position of the value.
fn loss<L: LinkStore>(model: &ModelRef<L>, at: End, value: Value) -> Report
    ensures { report_notice (reading model.now) at result ≡ notice_at (reading model.now) (feature_change at (Loses value)) }
{
    if model.meta().is_single(at.feature) {
        return Report {
            kind: NoticeKind::Set,
            old_value: value,
            new_value: Value::Null,
            position: NO_INDEX,
        };
    }
    let position = i64::from(index_of(model, at, &value));
    Report {
        kind: NoticeKind::Remove,
        old_value: value,
        new_value: Value::Null,
        position,
    }
}

/// The position of the first occurrence of a value in a list. If the list lacks the value, the position after the last value.
fn index_of<L: LinkStore>(model: &ModelRef<L>, at: End, value: &Value) -> u32
    ensures { result ≡ index_in ((reading model.now).values at) value.now }
{
    match model.position(at, value) {
        Some(index) => index,
        None => model.len(at),
    }
}

/// The report of an unset of a single end: UNSET from the value of the end to the default of its feature.
fn unset<L: LinkStore>(alloc: Global, model: &ModelRef<L>, at: End) -> Result<Report, AllocError>
    ensures { IfOk result (λ p. report_notice (reading model.now) at p ≡ notice_at (reading model.now) (feature_change at Unsets)) }
{
    Ok(Report {
        kind: NoticeKind::Unset,
        old_value: copied(alloc, model.value_at(at))?,
        new_value: default(model.meta(), at.feature)?,
        position: NO_INDEX,
    })
}

/// The default of a feature; it is null for a reference.
fn default(meta: &Meta, feature: FeatureNo) -> Result<Value, AllocError>
    ensures { IfOk result (λ v. v ≡ (shape meta.now feature).default) }
{
    match meta.default(feature) {
        Some(value) => value.clone(),
        None => Ok(Value::Null),
    }
}
