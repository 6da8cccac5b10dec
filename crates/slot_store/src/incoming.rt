//! The ends that have an object as a value, and the object's position in each of these ends. If the feature of an end has an opposite, the
//! end is found from the object's own lists of values. If the feature has no opposite, the end is one of the entries of the object. The
//! entries of an object are the ends without opposite that have the object as a value; they are in the object's row.
ghost use Rattle.std.specs.Prelude.{◌≡◌, ◌++◌, IfOk, OnOk};
ghost use Rattle.std.specs.Option.{option_copied, option_to_list};
ghost use Rattle.mm_types.specs.declared.numbers.Node.TheVariants as node;
ghost use Rattle.links.specs.LegalSets.{IsDistinct};
ghost use Rattle.links.specs.Found.{entry_if, entries_by};
ghost use Rattle.node_slots.specs.Cells.{cells, row_at};
ghost use Rattle.node_slots.specs.Rows.{row_slots};
ghost use Rattle.slot_store.specs.CellLinks.{RepeatNothing};
ghost use Rattle.slot_store.specs.Entering.{AreFew, ends_at, entering_ends, far_ends, far_of, found_in, paired_ends};

use crate::search::found;
use links::Incoming;
use mm_types::{End, FeatureNo, Node, ObjectNo, Value};
use node_slots::{NodeSlots, Slot};
use std::alloc::{AllocError, Global};

/// Adds the end of `feature` at `object`, if there is an object.
fn push_far(
    object: Option<ObjectNo>,
    feature: FeatureNo,
    out: &mut Vec<End>,
) -> Result<(), AllocError>
    ensures { OnOk result (out.new.items ≡ out.old.items ++ far_of feature object) }
{
    if let Some(object) = object {
        out.push(End {
            node: Node::Object(object),
            feature,
        })?;
    }
    Ok(())
}

/// Adds the end of `feature` at each object that `end` has as a value.
fn push_far_ends(
    rows: &NodeSlots,
    end: End,
    feature: FeatureNo,
    out: &mut Vec<End>,
) -> Result<(), AllocError>
    ensures { OnOk result (out.new.items ≡ out.old.items ++ far_ends feature ((cells rows.now).vals end)) }
{
    for index in 0..rows.len(end) {
        push_far(rows.object_at(end, index), feature, out)?;
    }
    Ok(())
}

/// Adds the far ends of the links of an end. If the end's feature has no opposite, adds nothing.
fn push_ends(rows: &NodeSlots, end: End, out: &mut Vec<End>) -> Result<(), AllocError>
    ensures { OnOk result (out.new.items ≡ out.old.items ++ ends_at (cells rows.now) end) }
{
    match rows.pairing(end).opposite {
        Some(feature) => push_far_ends(rows, end, feature, out),
        None => Ok(()),
    }
}

/// Adds the far ends of the links of an object under the features of its slots. For a feature with no opposite, adds nothing. `slots` has
/// the slots of `object`.
fn push_paired(
    rows: &NodeSlots,
    object: ObjectNo,
    slots: &[Slot],
    out: &mut Vec<End>,
) -> Result<(), AllocError>
    ensures { OnOk result (out.new.items ≡ out.old.items ++ paired_ends (cells rows.now) object slots.now) }
{
    for slot in slots {
        let end = End {
            node: Node::Object(object),
            feature: slot.feature,
        };
        push_ends(rows, end, out)?;
    }
    Ok(())
}

/// Adds an end, if there is one.
fn push_end(end: Option<&End>, out: &mut Vec<End>) -> Result<(), AllocError>
    ensures { OnOk result (out.new.items ≡ out.old.items ++ option_to_list (option_copied end.entry)) }
{
    if let Some(end) = end {
        out.push(*end)?;
    }
    Ok(())
}

/// Adds the ends without opposite that have a node as a value.
fn push_entered(rows: &NodeSlots, node: Node, out: &mut Vec<End>) -> Result<(), AllocError>
    ensures { OnOk result (out.new.items ≡ out.old.items ++ (cells rows.now).entered node) }
{
    for index in 0..rows.entered_len(node) {
        push_end(rows.entered_at(node, index), out)?;
    }
    Ok(())
}

/// The ends that have an object as a value, in no particular order. Fails only if memory is refused.
pub(crate) fn entering(
    alloc: Global,
    rows: &NodeSlots,
    object: ObjectNo,
) -> Result<Vec<End>, AllocError>
    ensures { IfOk result (λ r. r.items ≡ entering_ends (cells rows.now) object (row_slots (row_at rows.now (node.Object object)))) }
{
    let node = Node::Object(object);
    let mut out = Vec::new(alloc);
    push_paired(rows, object, rows.slots(node), &mut out)?;
    push_entered(rows, node, &mut out)?;
    Ok(out)
}

/// Adds an end, and the position of a value in the end, if the end has the value.
fn push_place(
    rows: &NodeSlots,
    end: End,
    value: &Value,
    out: &mut Vec<Incoming>,
) -> Result<(), AllocError>
    requires few { AreFew (cells rows.now) }
    requires distinct { IsDistinct ((cells rows.now).vals end) }
    ensures { OnOk result (out.new.items ≡ out.old.items ++ entry_if end (found_in (cells rows.now) value.now end)) }
{
    if let Some(index) = found(rows, end, value) {
        out.push(Incoming {
            feature: end.feature,
            node: end.node,
            position: index as u32,
        })?;
    }
    Ok(())
}

/// For each of `ends` that has `value`: the end, and the position of `value` in the end. Fails only if memory is refused.
pub(crate) fn places_of(
    alloc: Global,
    rows: &NodeSlots,
    ends: &[End],
    value: &Value,
) -> Result<Vec<Incoming>, AllocError>
    requires few { AreFew (cells rows.now) }
    requires distinct { RepeatNothing (cells rows.now) }
    ensures { IfOk result (λ r. r.items ≡ entries_by (found_in (cells rows.now) value.now) ends.now) }
{
    let mut out = Vec::new(alloc);
    for end in ends {
        push_place(rows, *end, value, &mut out)?;
    }
    Ok(out)
}
