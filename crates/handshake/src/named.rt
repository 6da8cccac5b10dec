//! Why a change is refused because of what it names: a thing that does not exist, an abstract class for a new object, or a feature that
//! doesn't fit the act. No function here takes memory.
ghost use Rattle.std.specs.Prelude.{◌≡◌};
ghost use Rattle.models.specs.Model.{reading};
ghost use Rattle.handshake.specs.Refusals as refusals;
ghost use Rattle.handshake.specs.declared.act.Act.TheVariants.{Set};
ghost use Rattle.handshake.specs.declared.change.Change.TheVariants.{At};

use crate::act::Act;
use crate::change::Change;
use links::LinkStore;
use mm_meta::Meta;
use mm_types::{End, FeatureNo, Node, Refused, Value};
use models::{ModelRef, class_refusal, end_refusal, node_refusal, value_refusal};

/// Why a change is refused before it is planned: something that the change names does not exist, the class of a new object is abstract, or
/// the act doesn't fit the feature.
///
/// `NoObject` if the node, or the value, is an object that does not live; `NoResource` if the resource does not exist; `NoClass` if the
/// class does not exist; `Abstract` if the class is abstract; `NoFeature` if the node does not have the feature; `NotSingle` if the act is
/// a set, and the feature is many-valued; `NotMany` if the act is an addition, a removal or a move, and the feature is single.
pub fn early_refusal<L: LinkStore>(model: &ModelRef<L>, change: &Change) -> Option<Refused>
    ensures { result ≡ refusals.early_refusal (reading model.now) change.now }
{
    match change {
        Change::At(end, act) => act_early_refusal(model, *end, act),
        Change::Create(class) => class_refusal(model.meta(), *class),
        Change::Delete(object) => node_refusal(model, Node::Object(*object)),
        Change::Load(resource, _) => node_refusal(model, Node::Resource(*resource)),
        Change::NewResource(_) | Change::ResolveAll => None,
    }
}

/// Why an act at an end is refused before it is planned: the end or the value does not exist, or the act doesn't fit the feature.
fn act_early_refusal<L: LinkStore>(model: &ModelRef<L>, end: End, act: &Act) -> Option<Refused>
    ensures { result ≡ refusals.early_refusal (reading model.now) (At end act.now) }
{
    named_refusal(model, end, act).or(kind_refusal(model.meta(), end.feature, act))
}

/// Why an act at an end is refused because of what it names: the node does not exist or does not have the feature, or the value of the act
/// is an object that does not live.
fn named_refusal<L: LinkStore>(model: &ModelRef<L>, end: End, act: &Act) -> Option<Refused>
    ensures { result ≡ refusals.named_refusal (reading model.now) end act.now }
{
    match act {
        Act::Set(value) | Act::Add(value, _) | Act::RemoveValue(value) => {
            value_refusal(model, end, value)
        }
        Act::Unset | Act::Remove(_) | Act::Move { .. } | Act::Resolve(_) => {
            end_refusal(model, end)
        }
    }
}

/// Why an act doesn't fit a feature: `NotSingle` for a set of a many-valued feature; `NotMany` for an addition, a removal or a move at a
/// single feature. An unset and a resolve fit every feature.
fn kind_refusal(meta: &Meta, feature: FeatureNo, act: &Act) -> Option<Refused>
    ensures { result ≡ refusals.kind_refusal meta.now feature act.now }
{
    match act {
        Act::Set(_) => single_refusal(meta, feature),
        Act::Unset | Act::Resolve(_) => None,
        Act::Add(..) | Act::Remove(_) | Act::RemoveValue(_) | Act::Move { .. } => {
            many_refusal(meta, feature)
        }
    }
}

/// Why a set of an end to a value is refused before it is planned: `NoObject`, `NoResource`, `NoFeature` or `NotSingle`. The caller needs
/// no `Change` for this.
#[inline(always)]
pub fn set_early_refusal<L: LinkStore>(
    model: &ModelRef<L>,
    end: End,
    value: &Value,
) -> Option<Refused>
    ensures { result ≡ refusals.early_refusal (reading model.now) (At end (Set value.now)) }
{
    value_refusal(model, end, value).or(single_refusal(model.meta(), end.feature))
}

/// Why an addition of a value at an end, or a removal of a value by `RemoveValue`, is refused before it is planned: `NoObject`,
/// `NoResource`, `NoFeature` or `NotMany`. The caller needs no `Change` for this.
#[inline(always)]
pub fn list_early_refusal<L: LinkStore>(
    model: &ModelRef<L>,
    end: End,
    value: &Value,
) -> Option<Refused>
    ensures { result ≡ refusals.list_refusal (reading model.now) end value.now }
{
    value_refusal(model, end, value).or(many_refusal(model.meta(), end.feature))
}

fn single_refusal(meta: &Meta, feature: FeatureNo) -> Option<Refused>
    ensures { result ≡ refusals.single_refusal meta.now feature }
{
    if meta.is_single(feature) {
        None
    } else {
        Some(Refused::NotSingle)
    }
}

fn many_refusal(meta: &Meta, feature: FeatureNo) -> Option<Refused>
    ensures { result ≡ refusals.many_refusal meta.now feature }
{
    if meta.is_single(feature) {
        Some(Refused::NotMany)
    } else {
        None
    }
}
