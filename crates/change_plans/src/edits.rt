//! The edits of a change.
ghost use Rattle.std.specs.Prelude.{◌≡◌, ◌∷◌, ◌++◌, [], false, None, Some, map, IfOk, OnOk};
ghost use Rattle.std.specs.Option.{option_map_or};
ghost use Rattle.mm_types.specs.Shapes.{shape};
ghost use Rattle.mm_types.specs.declared.value.Value.TheVariants as value;
ghost use Rattle.models.specs.Model.{reading};
ghost use Rattle.handshake.specs.Edits as e;
ghost use Rattle.mm_values.specs.declared.value_edit.ValueEdit.TheVariants.{DropObject, MoveValue};
ghost use Rattle.handshake.specs.Displaced as d;
ghost use Rattle.handshake.specs.Effects as effects;
ghost use Rattle.handshake.specs.Changes.{HasFittingDocument, IsRemovalOf};
ghost use Rattle.doc_loader.specs.Fits.{IsFitting};
ghost use Rattle.doc_loader.specs.Loading.{loaded_values};
ghost use Rattle.handshake.specs.Effects.{put_values, value_edits as value_edits_of};
ghost use Rattle.handshake.specs.FeatureChanges.{destroyed_by, loaded_by, resolves_all, target_of};
ghost use Rattle.handshake.specs.declared.act.Act.TheVariants.{Add, Set};
ghost use Rattle.handshake.specs.declared.change.Change.TheVariants.{At};

use crate::cuts::push_cuts;
use crate::link_planning::put_at;
use handshake::{Act, Change, is_plain_add, is_plain_set};
use links::{Edit, LinkStore, Plan};
use mm_types::{End, Node, ObjectNo, Value};
use mm_values::{NewValues, ValueEdit, ValuePlan};
use models::ModelRef;
use proxies::{Counterpart, ResolvedProxy};
use removal::{LinkEnd, Removal};
use resource_docs::Doc;
use std::alloc::{AllocError, Global};

/// The edits of links that a change makes. `link_ends` names the links that the change cuts, and `target` is the target of the proxy that
/// the change resolves, if it resolves one. The change must not be a resolve of all proxies: the module `resolving_all` makes the edits of
/// that change.
pub(crate) fn link_edits<L: LinkStore>(
    alloc: Global,
    model: &ModelRef<L>,
    link_ends: Vec<LinkEnd>,
    change: &Change,
    target: Option<ResolvedProxy>,
) -> Result<Plan, AllocError>
    requires cut { link_ends.items ≡ d.cut_link_ends (reading model.now) change.now }
    requires found { target ≡ target_of (reading model.now) change.now }
    requires fits { HasFittingDocument (reading model.now).next change.now }
    requires one { resolves_all change.now ≡ false }
    ensures { IfOk result (λ p. p ≡ e.link_edits (reading model.now) change.now) }
{
    if let Change::Load(resource, doc) = change {
        let edits = doc_loader::link_edits(alloc, model.meta(), model.next(), *resource, doc)?;
        return Ok(Plan::from_vec(edits));
    }
    let mut edits = Plan::with_capacity(alloc, link_ends.len() + 1)?;
    push_cuts(alloc, link_ends, &mut edits)?;
    push_made(alloc, model, change, target, &mut edits)?;
    Ok(edits)
}

/// Adds the edits that a change makes after its cuts. The change must load nothing, and must not resolve all proxies. `target` is the
/// target of the proxy that the change resolves, if it resolves one.
fn push_made<L: LinkStore>(
    alloc: Global,
    model: &ModelRef<L>,
    change: &Change,
    target: Option<ResolvedProxy>,
    edits: &mut Plan,
) -> Result<(), AllocError>
    requires loads_nothing { loaded_by change.now ≡ None }
    requires found { target ≡ target_of (reading model.now) change.now }
    requires one { resolves_all change.now ≡ false }
    ensures { OnOk result (edits.new ≡ edits.old ++ e.made_edits (reading model.now) change.now) }
{
    if let Change::At(end, Act::Resolve(index)) = change {
        return push_joining(alloc, model, *end, *index, target, edits);
    }
    if let Some(edit) = made_edit(model, change) {
        edits.push(alloc, edit)?;
    }
    Ok(())
}

/// Adds the edits that put a new link in the place of a proxy. If the proxy has a counterpart (the proxy of the same link at the opposite
/// end), the link takes the place of the counterpart too. The edits that cut the links of these proxies must come before. If `target` is
/// `None`, adds no edit.
pub(crate) fn push_joining<L: LinkStore>(
    alloc: Global,
    model: &ModelRef<L>,
    end: End,
    index: u32,
    target: Option<ResolvedProxy>,
    edits: &mut Plan,
) -> Result<(), AllocError>
    ensures { OnOk result (edits.new ≡ edits.old ++ option_map_or (e.joining_edits (reading model.now) end index) target []) }
{
    let Some(target) = target else {
        return Ok(());
    };
    edits.push(alloc, Edit::Put(put_at(model, end, index, target.object)))?;
    if let Some(other) = target.counterpart {
        edits.push(alloc, back_edit(model, other))?;
    }
    Ok(())
}

/// The edit that moves a new link, at its opposite end, from the last index to the index of `other`, the counterpart that the link
/// replaces. A new link is put last at its opposite end.
fn back_edit<L: LinkStore>(model: &ModelRef<L>, other: Counterpart) -> Edit
    ensures { result ≡ e.back_edit (reading model.now) other }
{
    Edit::Shift {
        end: other.end,
        to: other.index,
        from: model.len(other.end).saturating_sub(1),
    }
}

/// The edit that a set, an addition or a move makes at a reference, after the cuts of the change. `None` if a set or an addition makes no
/// new link, and for any other change.
fn made_edit<L: LinkStore>(model: &ModelRef<L>, change: &Change) -> Option<Edit>
    ensures { result ≡ e.made_edit (reading model.now) change.now }
{
    match change {
        Change::At(end, Act::Set(value)) => set_put(model, *end, value),
        Change::At(end, Act::Add(value, index)) => add_put(model, *end, value, *index),
        Change::At(end, Act::Move { to, from }) if model.meta().is_reference(end.feature) => {
            Some(Edit::Shift {
                end: *end,
                to: *to,
                from: *from,
            })
        }
        _ => None,
    }
}

/// The edit that sets a reference to an object. `None` if the value is no object, if the end has the value already, or if the feature is an
/// attribute.
fn set_put<L: LinkStore>(model: &ModelRef<L>, end: End, value: &Value) -> Option<Edit>
    ensures { result ≡ e.made_edit (reading model.now) (At end (Set value.now)) }
{
    if is_plain_set(model, end, value) {
        None
    } else {
        new_put(model, end, 0, value)
    }
}

/// The edit that adds an object to a reference, whose list never has an object twice. `None` if the value is no object, if the list has the
/// value already, or if the feature is an attribute.
fn add_put<L: LinkStore>(
    model: &ModelRef<L>,
    end: End,
    value: &Value,
    index: Option<u32>,
) -> Option<Edit>
    ensures { result ≡ e.made_edit (reading model.now) (At end (Add value.now index)) }
{
    if is_plain_add(model, end, value) {
        None
    } else {
        new_put(model, end, model.position_for(end, index), value)
    }
}

/// The edit that puts an object at a position of an end; `None` if the value is no object.
fn new_put<L: LinkStore>(model: &ModelRef<L>, end: End, index: u32, value: &Value) -> Option<Edit>
    ensures { result ≡ e.new_put (reading model.now) end index value.now }
{
    match value {
        Value::Object(object) => Some(Edit::Put(put_at(model, end, index, *object))),
        _ => None,
    }
}

/// The edits that a change makes of objects, attribute values and URIs. `removal` has the objects that the change destroys, if there are
/// any.
pub(crate) fn value_edits<L: LinkStore>(
    alloc: Global,
    model: &ModelRef<L>,
    change: Change,
    removal: &Option<Removal>,
) -> Result<ValuePlan, AllocError>
    requires removal { IsRemovalOf (reading model.now) change removal.now }
    requires fits { HasFittingDocument (reading model.now).next change }
    ensures { IfOk result (λ p. p ≡ value_edits_of (reading model.now) change) }
{
    match removal {
        Some(removal) => drop_edits(alloc, removal),
        None => other_edits(alloc, model, change),
    }
}

/// The edits that a change makes of objects, attribute values and URIs. The change must destroy nothing.
fn other_edits<L: LinkStore>(
    alloc: Global,
    model: &ModelRef<L>,
    change: Change,
) -> Result<ValuePlan, AllocError>
    requires destroys_nothing { destroyed_by change ≡ None }
    requires fits { HasFittingDocument (reading model.now).next change }
    ensures { IfOk result (λ p. p ≡ value_edits_of (reading model.now) change) }
{
    match change {
        Change::At(end, act) => Ok(edits_at(alloc, model, end, act)),
        Change::Create(class) => Ok(ValuePlan::one(ValueEdit::NewObject(class))),
        Change::NewResource(uri) => Ok(ValuePlan::one(ValueEdit::NewUri(uri))),
        Change::Load(_, doc) => load_edits(alloc, model, doc),
        // `drop_edits` makes the edits of a delete
        Change::Delete(_) | Change::ResolveAll => Ok(ValuePlan::none(alloc)),
    }
}

/// The edits of attribute values that an act makes; an act at a reference makes none.
fn edits_at<L: LinkStore>(alloc: Global, model: &ModelRef<L>, end: End, act: Act) -> ValuePlan
    ensures { result ≡ value_edits_of (reading model.now) (At end act) }
{
    if model.meta().is_reference(end.feature) {
        return ValuePlan::none(alloc);
    }
    act_edits(alloc, model, end, act)
}

/// The edits that an act makes to the values of an attribute.
fn act_edits<L: LinkStore>(alloc: Global, model: &ModelRef<L>, end: End, act: Act) -> ValuePlan
    ensures { result ≡ effects.act_edits (reading model.now) end act }
{
    match act {
        Act::Set(value) => set_edits(alloc, model, end, value),
        Act::Unset => put_list(alloc, end, NewValues::none(alloc), false),
        Act::Add(value, index) => add_value(alloc, model, end, value, index),
        Act::Remove(index) => take_value(alloc, end, index),
        Act::RemoveValue(value) => take_first(alloc, model, end, &value),
        Act::Move { to, from } => move_value(alloc, end, to, from),
        Act::Resolve(_) => ValuePlan::none(alloc),
    }
}

/// The edits that make the objects of a document, and give each object the values of its attributes.
fn load_edits<L: LinkStore>(
    alloc: Global,
    model: &ModelRef<L>,
    doc: Doc,
) -> Result<ValuePlan, AllocError>
    requires fits { IsFitting (reading model.now).next doc }
    ensures { IfOk result (λ p. p ≡ loaded_values model.now.metamodel (reading model.now).next doc) }
{
    let edits = doc_loader::value_edits(alloc, model.meta(), model.next(), doc)?;
    Ok(ValuePlan::from_vec(edits))
}

/// The edits that destroy the objects of a removal.
fn drop_edits(alloc: Global, removal: &Removal) -> Result<ValuePlan, AllocError>
    ensures { IfOk result (λ p. p ≡ map DropObject removal.now.objects.items) }
{
    let edits = drop_each(alloc, &removal.objects)?;
    Ok(ValuePlan::from_vec(edits))
}

fn drop_each(alloc: Global, objects: &[ObjectNo]) -> Result<Vec<ValueEdit>, AllocError>
    ensures { IfOk result (λ es. es.items ≡ map DropObject objects.now) }
{
    let mut edits = Vec::new(alloc);
    for object in objects {
        edits.push(ValueEdit::DropObject(*object))?;
    }
    Ok(edits)
}

/// The edit that adds a value to an attribute's list, unless the list is unique and has the value already.
fn add_value<L: LinkStore>(
    alloc: Global,
    model: &ModelRef<L>,
    end: End,
    value: Value,
    index: Option<u32>,
) -> ValuePlan
    ensures { result ≡ effects.add_value (reading model.now) end value index }
{
    if model.is_repeat(end, &value) {
        return ValuePlan::none(alloc);
    }
    match end.node {
        Node::Object(object) => ValuePlan::one(ValueEdit::InsertValue {
            object,
            feature: end.feature,
            index: model.position_for(end, index),
            value,
            is_unique: model.meta().is_unique(end.feature),
        }),
        Node::Resource(_) => ValuePlan::none(alloc),
    }
}

/// The edit that takes out the first occurrence of a value; no edit if the list does not have the value.
fn take_first<L: LinkStore>(
    alloc: Global,
    model: &ModelRef<L>,
    end: End,
    value: &Value,
) -> ValuePlan
    ensures { result ≡ effects.take_first (reading model.now) end value.now }
{
    match model.position(end, value) {
        Some(index) => take_value(alloc, end, index),
        None => ValuePlan::none(alloc),
    }
}

fn take_value(alloc: Global, end: End, index: u32) -> ValuePlan
    ensures { result ≡ effects.take_value end index }
{
    match end.node {
        Node::Object(object) => ValuePlan::one(ValueEdit::RemoveValue {
            object,
            feature: end.feature,
            index,
        }),
        Node::Resource(_) => ValuePlan::none(alloc),
    }
}

fn move_value(alloc: Global, end: End, to: u32, from: u32) -> ValuePlan
    ensures { result ≡ effects.of_object end.node (λ o. MoveValue o end.feature to from) }
{
    match end.node {
        Node::Object(object) => ValuePlan::one(ValueEdit::MoveValue {
            object,
            feature: end.feature,
            to,
            from,
        }),
        Node::Resource(_) => ValuePlan::none(alloc),
    }
}

/// The edits that set an attribute.
pub(crate) fn set_edits<L: LinkStore>(
    alloc: Global,
    model: &ModelRef<L>,
    end: End,
    value: Value,
) -> ValuePlan
    ensures { result ≡ put_values end (value ∷ []) (shape model.now.metamodel end.feature).is_unsettable }
{
    let flag = model.meta().is_unsettable(end.feature);
    put_list(alloc, end, NewValues::one(value), flag)
}

/// The edit that replaces the values of an attribute by `list`, and the set flag of the attribute by `flag`. No edit if the end is at a
/// resource, since resources have no attributes.
fn put_list(alloc: Global, end: End, list: NewValues, flag: bool) -> ValuePlan
    ensures { result ≡ put_values end list flag }
{
    match end.node {
        Node::Object(object) => ValuePlan::one(ValueEdit::PutList {
            object,
            feature: end.feature,
            list,
            flag,
        }),
        Node::Resource(_) => ValuePlan::none(alloc),
    }
}
