//! Which links a change cuts.
ghost use Rattle.std.specs.Prelude.{◌≡◌, ◌++◌, [], false, true, None, fold, OnOk, IfOk, IfSome, option_map, option_to_list, if◌then◌else◌};
ghost use Rattle.std.specs.Option.{option_map_or};
ghost use Rattle.mm_types.specs.Shapes.{shape};
ghost use Rattle.links.specs.Holders as h;
ghost use Rattle.models.specs.Found.{found_value};
ghost use Rattle.models.specs.Model.{reading};
ghost use Rattle.mm_types.specs.declared.numbers.Node.TheVariants as node;
ghost use Rattle.removal.specs.Removals.{IsRemoval};
ghost use Rattle.removal.specs.TreeLinkEnds as t;
ghost use Rattle.removal.specs.TreeLinkEnds.{link_end};
ghost use Rattle.handshake.specs.Displaced as d;
ghost use Rattle.handshake.specs.Changes.{IsRemovalOf};
ghost use Rattle.proxies.specs.Resolving.{target_at};
ghost use Rattle.handshake.specs.Refusals as refusals;
ghost use Rattle.handshake.specs.FeatureChanges.{target_of};
ghost use Rattle.handshake.specs.declared.change.Change.TheVariants.{At};

use crate::act::Act;
use crate::change::Change;
use crate::link_end::{is_among, node_value};
use crate::plain::{is_plain_add, is_plain_set};
use links::LinkStore;
use mm_meta::Meta;
use mm_types::{End, Node, ObjectNo, Value};
use models::{Found, ModelRef};
use proxies::{ResolvedProxy, opposite_end};
use removal::{LinkEnd, Removal, tree_link_ends};
use std::alloc::{AllocError, Global};

/// Whether a new link from an end to an object displaces a link. Takes no memory.
pub fn displaces<L: LinkStore>(model: &ModelRef<L>, end: End, object: ObjectNo) -> bool
    ensures { result ≡ d.displaces (reading model.now) end object }
{
    if is_taken(model, end) {
        return true;
    }
    if let Some(far) = opposite_end(model, end, object) {
        if is_taken(model, far) {
            return true;
        }
    }
    match contained(model.meta(), end, object) {
        Some(part) => model.holder(part).is_some(),
        None => false,
    }
}

/// Whether an end is single and has a link.
fn is_taken<L: LinkStore>(model: &ModelRef<L>, end: End) -> bool
    ensures { result ≡ d.is_taken (reading model.now) end }
{
    model.meta().is_single(end.feature) && model.len(end) > 0
}

/// The links that a new link from an end to an object displaces; each link is named once.
#[inline(always)]
pub(crate) fn yields<L: LinkStore>(
    alloc: Global,
    model: &ModelRef<L>,
    end: End,
    object: ObjectNo,
) -> Result<Vec<LinkEnd>, AllocError>
    requires reference { (shape model.now.metamodel end.feature).is_reference ≡ true }
    ensures { IfOk result (λ ts. ts.items ≡ d.displaced_link_ends (reading model.now) end object) }
{
    model.lemma_is_legal();
    let mut link_ends = Vec::new(alloc);
    add_held(alloc, model, end, &mut link_ends)?;
    if let Some(far) = opposite_end(model, end, object) {
        add_held(alloc, model, far, &mut link_ends)?;
    }
    if let Some(part) = contained(model.meta(), end, object) {
        add_holding(model, part, &mut link_ends)?;
    }
    Ok(link_ends)
}

/// Adds to `link_ends` the link of the value of a single end. Adds nothing if the end is a list or has no value, or if `link_ends` has that
/// link already.
#[inline(always)]
fn add_held<L: LinkStore>(
    alloc: Global,
    model: &ModelRef<L>,
    end: End,
    link_ends: &mut Vec<LinkEnd>,
) -> Result<(), AllocError>
    requires reference { (shape model.now.metamodel end.feature).is_reference ≡ true }
    ensures { OnOk result (link_ends.new.items ≡ fold (d.with_link_end (reading model.now)) link_ends.old.items (d.link_ends_if_single (reading model.now) end)) }
{
    model.lemma_is_legal();
    if !model.meta().is_single(end.feature) {
        return Ok(());
    }
    match model.value_in(end, 0) {
        Some(held) => {
            let value = held.to_value(alloc)?;
            add(model, LinkEnd { end, value }, link_ends)
        }
        None => Ok(()),
    }
}

/// Adds to `link_ends` the link by which a node is contained. Adds nothing if the node is not contained, or if `link_ends` has that link
/// already.
#[inline(always)]
fn add_holding<L: LinkStore>(
    model: &ModelRef<L>,
    node: Node,
    link_ends: &mut Vec<LinkEnd>,
) -> Result<(), AllocError>
    ensures { OnOk result (link_ends.new.items ≡ fold (d.with_link_end (reading model.now)) link_ends.old.items (option_to_list (d.holding_link_end (reading model.now) node))) }
{
    match model.holder(node) {
        Some(end) => add(
            model,
            LinkEnd {
                end,
                value: node_value(node),
            },
            link_ends,
        ),
        None => Ok(()),
    }
}

/// Adds a link to a list, unless the list has that link already.
#[inline(always)]
fn add<L: LinkStore>(
    model: &ModelRef<L>,
    link_end: LinkEnd,
    link_ends: &mut Vec<LinkEnd>,
) -> Result<(), AllocError>
    ensures { OnOk result (link_ends.new.items ≡ d.with_link_end (reading model.now) link_ends.old.items link_end) }
{
    if is_among(model, link_ends, &link_end) {
        return Ok(());
    }
    link_ends.push(link_end)?;
    Ok(())
}

/// The node that becomes contained when an object is put into an end; `None` if neither the feature of the end nor its opposite is a
/// containment.
fn contained(meta: &Meta, end: End, object: ObjectNo) -> Option<Node>
    ensures { result ≡ h.node_contained end object (shape meta.now end.feature).containing }
{
    match meta.containing(end.feature) {
        Some(containing) if containing == end.feature => Some(Node::Object(object)),
        Some(_) => Some(end.node),
        None => None,
    }
}

/// The links that a change cuts before it makes or moves any link, in order. For a resolve of all proxies the list is empty, since the
/// edits of each proxy begin with the cuts of that proxy's links.
pub fn cut_link_ends<L: LinkStore>(
    alloc: Global,
    model: &ModelRef<L>,
    change: &Change,
    removal: &Option<Removal>,
    target: Option<ResolvedProxy>,
) -> Result<Vec<LinkEnd>, AllocError>
    requires removal { IsRemovalOf (reading model.now) change.now removal.now }
    requires found { target ≡ target_of (reading model.now) change.now }
    requires asked { refusals.early_refusal (reading model.now) change.now ≡ None }
    ensures { IfOk result (λ ts. ts.items ≡ d.cut_link_ends (reading model.now) change.now) }
{
    match change {
        Change::At(end, act) => cut_by_act(alloc, model, *end, act, target),
        Change::Delete(_) => gone_link_ends(alloc, model, removal),
        Change::Create(_) | Change::NewResource(_) | Change::ResolveAll | Change::Load(_, _) => {
            Ok(Vec::new(alloc))
        }
    }
}

/// The links that an act at an end cuts, in order.
fn cut_by_act<L: LinkStore>(
    alloc: Global,
    model: &ModelRef<L>,
    end: End,
    act: &Act,
    target: Option<ResolvedProxy>,
) -> Result<Vec<LinkEnd>, AllocError>
    requires found { target ≡ target_of (reading model.now) (At end act.now) }
    ensures { IfOk result (λ ts. ts.items ≡ d.cut_link_ends (reading model.now) (At end act.now)) }
{
    match act {
        Act::Set(value) => cut_by_set(alloc, model, end, value),
        Act::Unset => link_ends_backwards(alloc, model, end),
        Act::Add(value, _) => cut_by_add(alloc, model, end, value),
        Act::Remove(index) => link_end_in(alloc, model, end, Some(*index)),
        Act::RemoveValue(value) => link_end_in(alloc, model, end, model.position(end, value)),
        Act::Move { .. } => link_end_in(alloc, model, end, None),
        Act::Resolve(index) => link_ends_resolved(alloc, model, end, *index, target),
    }
}

/// The links of the proxy at an index and of its counterpart at the opposite end; none for an attribute.
fn link_ends_resolved<L: LinkStore>(
    alloc: Global,
    model: &ModelRef<L>,
    end: End,
    index: u32,
    target: Option<ResolvedProxy>,
) -> Result<Vec<LinkEnd>, AllocError>
    requires found { target ≡ target_at (reading model.now) end index }
    ensures { IfOk result (λ ts. ts.items ≡ (if (shape model.now.metamodel end.feature).is_reference then d.link_ends_resolved (reading model.now) end index else [])) }
{
    let mut link_ends = link_end_in(alloc, model, end, Some(index))?;
    if model.meta().is_reference(end.feature) {
        add_counterpart(alloc, model, target, &mut link_ends)?;
    }
    Ok(link_ends)
}

/// Adds to `link_ends` the link of the counterpart in `target`. The counterpart is the proxy at the opposite end. Adds nothing if there is
/// no target or no counterpart.
pub fn add_counterpart<L: LinkStore>(
    alloc: Global,
    model: &ModelRef<L>,
    target: Option<ResolvedProxy>,
    link_ends: &mut Vec<LinkEnd>,
) -> Result<(), AllocError>
    ensures { OnOk result (link_ends.new.items ≡ link_ends.old.items ++ option_map_or (d.counter_link_end (reading model.now)) target []) }
{
    match target {
        Some(
            ResolvedProxy {
                counterpart: Some(other),
                ..
            },
        ) => push_link_end(
            alloc,
            other.end,
            model.value_in(other.end, other.index),
            link_ends,
        ),
        _ => Ok(()),
    }
}

/// The links that a change cuts because it destroys the object of `removal` and all objects below it. No links if `removal` is `None`: then
/// the change destroys no object.
fn gone_link_ends<L: LinkStore>(
    alloc: Global,
    model: &ModelRef<L>,
    removal: &Option<Removal>,
) -> Result<Vec<LinkEnd>, AllocError>
    requires found { IfSome removal.now (IsRemoval (reading model.now)) }
    ensures { IfOk result (λ ts. ts.items ≡ option_map_or (λ x. t.tree_link_ends (reading model.now) x.object) removal.now []) }
{
    match removal {
        Some(removal) => tree_link_ends(alloc, model, removal),
        None => Ok(Vec::new(alloc)),
    }
}

fn cut_by_set<L: LinkStore>(
    alloc: Global,
    model: &ModelRef<L>,
    end: End,
    value: &Value,
) -> Result<Vec<LinkEnd>, AllocError>
    ensures { IfOk result (λ ts. ts.items ≡ (if d.is_plain_set (reading model.now) end value.now then [] else d.cut_by_set (reading model.now) end value.now)) }
{
    if is_plain_set(model, end, value) {
        return Ok(Vec::new(alloc));
    }
    match value {
        Value::Object(object) => yields(alloc, model, end, *object),
        _ => link_ends_at(alloc, model, end),
    }
}

fn cut_by_add<L: LinkStore>(
    alloc: Global,
    model: &ModelRef<L>,
    end: End,
    value: &Value,
) -> Result<Vec<LinkEnd>, AllocError>
    ensures { IfOk result (λ ts. ts.items ≡ (if d.is_plain_add (reading model.now) end value.now then [] else d.cut_by_new (reading model.now) end value.now)) }
{
    if is_plain_add(model, end, value) {
        return Ok(Vec::new(alloc));
    }
    match value {
        Value::Object(object) => yields(alloc, model, end, *object),
        _ => Ok(Vec::new(alloc)),
    }
}

/// The links of the values of an end, in the order of the values.
fn link_ends_at<L: LinkStore>(
    alloc: Global,
    model: &ModelRef<L>,
    end: End,
) -> Result<Vec<LinkEnd>, AllocError>
    requires reference { (shape model.now.metamodel end.feature).is_reference ≡ true }
    ensures { IfOk result (λ ts. ts.items ≡ d.link_ends_at (reading model.now) end) }
{
    let mut link_ends = Vec::new(alloc);
    for index in 0..model.len(end) {
        push_link_end(alloc, end, model.value_in(end, index), &mut link_ends)?;
    }
    Ok(link_ends)
}

/// The links of the values of an end, from the last value to the first; none for an attribute.
fn link_ends_backwards<L: LinkStore>(
    alloc: Global,
    model: &ModelRef<L>,
    end: End,
) -> Result<Vec<LinkEnd>, AllocError>
    ensures { IfOk result (λ ts. ts.items ≡ (if (shape model.now.metamodel end.feature).is_reference then d.link_ends_backwards end ((reading model.now).values end) else [])) }
{
    let mut link_ends = Vec::new(alloc);
    if !model.meta().is_reference(end.feature) {
        return Ok(link_ends);
    }
    for index in (0..model.len(end)).rev() {
        push_link_end(alloc, end, model.value_in(end, index), &mut link_ends)?;
    }
    Ok(link_ends)
}

/// The link of the value at `index` of an end. The result is empty if the end has no value there, if `index` is `None`, or if the feature
/// of the end is an attribute.
fn link_end_in<L: LinkStore>(
    alloc: Global,
    model: &ModelRef<L>,
    end: End,
    index: Option<u32>,
) -> Result<Vec<LinkEnd>, AllocError>
    ensures { IfOk result (λ ts. ts.items ≡ (if (shape model.now.metamodel end.feature).is_reference then option_map_or (d.link_end_in (reading model.now) end) index [] else [])) }
{
    let mut link_ends = Vec::new(alloc);
    if !model.meta().is_reference(end.feature) {
        return Ok(link_ends);
    }
    if let Some(index) = index {
        push_link_end(alloc, end, model.value_in(end, index), &mut link_ends)?;
    }
    Ok(link_ends)
}

/// Adds to `link_ends` the link of a value that was found at an end. Adds nothing if `found` is `None`.
pub fn push_link_end(
    alloc: Global,
    end: End,
    found: Option<Found>,
    link_ends: &mut Vec<LinkEnd>,
) -> Result<(), AllocError>
    ensures { OnOk result (link_ends.new.items ≡ link_ends.old.items ++ option_to_list (option_map (link_end end) (option_map found_value found.entry))) }
{
    if let Some(found) = found {
        let value = found.to_value(alloc)?;
        link_ends.push(LinkEnd { end, value })?;
    }
    Ok(())
}
