//! The values that ends of other nodes lose when an object is deleted.
ghost use Rattle.std.specs.Prelude.{◌≡◌, ◌&&◌, ◌++◌, false, not, true, IfOk, OnOk, Some, option_map, option_to_list};
ghost use Rattle.std.specs.Option.{option_map_or};
ghost use Rattle.mm_types.specs.Ends.{index_in};
ghost use Rattle.mm_types.specs.Same.{same_object, same_value};
ghost use Rattle.mm_types.specs.Shapes.{shape};
ghost use Rattle.mm_types.specs.declared.numbers.Node.TheVariants as node;
ghost use Rattle.mm_types.specs.declared.value.Value.TheVariants as value;
ghost use Rattle.models.specs.Model.{reading};
ghost use Rattle.removal.specs.Losses as l;
ghost use Rattle.removal.specs.Ranks as ranks;
ghost use Rattle.removal.specs.Removals.{IsRemoval};

use crate::gone::Removal;
use links::LinkStore;
use mm_types::{End, Node, ObjectNo, Value};
use models::ModelRef;
use std::alloc::{AllocError, Global};

/// A value that an end loses.
#[derive(Debug, Drop)]
pub struct Loss {
    pub end: End,
    pub value: Value,
    /// The position of the value, counted from 0 in the list that the earlier losses leave.
    pub position: u32,
}

/// What ends of other nodes lose when an object and all objects below it are destroyed. The losses are in order by feature number, then by
/// node, then by position. The loss of the object itself, at the end that contains it, comes last of all; there is no such loss if no end
/// contains the object. Fails only if memory is refused.
pub fn losses<L: LinkStore>(
    alloc: Global,
    model: &ModelRef<L>,
    removal: &Removal,
) -> Result<Vec<Loss>, AllocError>
    requires removal { IsRemoval (reading model.now) removal.now }
    ensures { IfOk result (λ ls. ls.items ≡ l.losses (reading model.now) removal.now.object) }
{
    let mut out = Vec::new(alloc);
    for end in &removal.ends {
        push_lost(model, removal, *end, &mut out)?;
    }
    push_last(model, removal, &mut out)?;
    Ok(out)
}

/// Adds the losses of one end. If this end contains the deleted object itself, the loss of that object is left out here, and `push_last`
/// adds it.
fn push_lost<L: LinkStore>(
    model: &ModelRef<L>,
    removal: &Removal,
    end: End,
    out: &mut Vec<Loss>,
) -> Result<(), AllocError>
    requires reference { (shape model.now.metamodel end.feature).is_reference ≡ true }
    requires removal { IsRemoval (reading model.now) removal.now }
    ensures { OnOk result (out.new.items ≡ out.old.items ++ l.losses_at (reading model.now) removal.now.object end) }
{
    let is_holder = is_held_by(model, removal.object, end);
    let mut kept = 0;
    for index in 0..model.len(end) {
        let found = model.object_in(end, index);
        if is_lost(removal, is_holder, found) {
            push_loss(end, found, kept, out)?;
        } else {
            kept += 1;
        }
    }
    Ok(())
}

/// Adds the loss of the object `found` at a position of an end, if an object was found.
fn push_loss(
    end: End,
    found: Option<ObjectNo>,
    position: u32,
    out: &mut Vec<Loss>,
) -> Result<(), AllocError>
    ensures { OnOk result (out.new.items ≡ out.old.items ++ option_to_list (option_map (λ x. l.loss end (value.Object x) position) found)) }
{
    if let Some(found) = found {
        let value = Value::Object(found);
        out.push(Loss {
            end,
            value,
            position,
        })?;
    }
    Ok(())
}

/// Adds the loss of the deleted object itself, at the end that contains it, if an end contains it.
fn push_last<L: LinkStore>(
    model: &ModelRef<L>,
    removal: &Removal,
    out: &mut Vec<Loss>,
) -> Result<(), AllocError>
    requires removal { IsRemoval (reading model.now) removal.now }
    ensures { OnOk result (out.new.items ≡ out.old.items ++ l.last_loss (reading model.now) removal.now.object) }
{
    let Some(end) = model.holder(Node::Object(removal.object)) else {
        return Ok(());
    };
    let position = last_position(model, removal, end);
    push_loss(end, Some(removal.object), position, out)
}

/// The position of the deleted object itself in the end that contains it, after that end has lost all other objects that are destroyed.
fn last_position<L: LinkStore>(model: &ModelRef<L>, removal: &Removal, end: End) -> u32
    requires held { (reading model.now).holder (node.Object removal.now.object) ≡ Some end }
    requires removal { IsRemoval (reading model.now) removal.now }
    ensures { result ≡ index_in (l.values_kept (reading model.now) removal.now.object end) (value.Object removal.now.object) }
{
    model.lemma_is_legal();
    let mut kept = 0;
    for index in 0..model.len(end) {
        let found = model.object_in(end, index);
        if is_found(found, removal.object) {
            return kept;
        }
        if !is_lost(removal, true, found) {
            kept += 1;
        }
    }
    kept
}

/// Whether an end loses a value before the last step of the deletion. The last step takes the deleted object out of the end that contains
/// it. `found` is the value if the value is an object, and `None` if it is a proxy; a proxy stays. `is_holder` says whether the end
/// contains the deleted object.
fn is_lost(removal: &Removal, is_holder: bool, found: Option<ObjectNo>) -> bool
    ensures { result ≡ option_map_or (λ x. ranks.is_in removal.now.numbers (node.Object x) && not (is_holder && same_value (value.Object x) (value.Object removal.now.object))) found false }
{
    match found {
        Some(found) => removal.has(Node::Object(found)) && !(is_holder && found == removal.object),
        None => false,
    }
}

/// Whether an object was found, and is `object`.
fn is_found(found: Option<ObjectNo>, object: ObjectNo) -> bool
    ensures { result ≡ option_map_or (same_object object) found false }
{
    match found {
        Some(found) => object == found,
        None => false,
    }
}

/// Whether `end` is the end that contains `object`.
fn is_held_by<L: LinkStore>(model: &ModelRef<L>, object: ObjectNo, end: End) -> bool
    ensures { result ≡ l.is_held_by (reading model.now) object end }
{
    match model.holder(Node::Object(object)) {
        Some(holder) => end == holder,
        None => false,
    }
}
