//! Edits of links in the rows of nodes.
ghost use Rattle.std.specs.Prelude.{◌≡◌, ◌≤◌, ◌∷◌, [], if◌then◌else◌, is_ok, true, IfSome, Some};
ghost use Rattle.mm_types.specs.Same.{node_value, same_end};
ghost use Rattle.mm_types.specs.declared.numbers.Node.{Node};
ghost use Rattle.mm_types.specs.declared.numbers.Node.TheVariants as node;
ghost use Rattle.mm_types.specs.declared.value.Value.TheVariants as value;
ghost use Rattle.links.specs.LegalSets.{IsDistinct};
ghost use Rattle.node_slots.specs.Cells.{cells, room, row_index_of};
ghost use Rattle.end_values.specs.EndValues.{CanHave};
ghost use Rattle.node_slots.specs.Growth.{HasRoom, entry, far_gain, gain, lone_entry, no_ends, no_values, one_if};
ghost use Rattle.links.specs.declared.plan.Edit.TheVariants as edit;
ghost use Rattle.slot_store.specs.CellLinks.{IsOnce, RepeatNothing};
ghost use Rattle.slot_store.specs.EditedCells.{FarHasRoom, HasHeldRow, PairsObject, PutsObject, TakesAtMost, cells_after, cells_after_cut, cells_after_hold, cells_after_release, cut_far, held_far, held_node, held_row_index, put_far, put_near, without_entry, without_value};

use crate::search::{entry_from, found};
use links::{Edit, NewLink};
use mm_types::{End, FeatureNo, Node, ObjectNo, Value};
use node_slots::{NodeSlots, Pairing, PutPlaces, RowEdit, SlotEdit};
use std::alloc::AllocError;

/// The value that refers to a node: the object, or null for a resource, since no end has a resource as a value.
pub(crate) fn value_of(node: Node) -> Value
    ensures { result ≡ node_value node }
{
    match node {
        Node::Object(object) => Value::Object(object),
        Node::Resource(_) => Value::Null,
    }
}

/// The node that the far end of a link contains, and this far end. The link is from `end` to `object`. `opposite` is the opposite of the
/// feature of `end`, and `container` is the containing feature. If the opposite is the containing feature, the far end contains the node of
/// `end`. Otherwise, and if there is no opposite, the result is `None`.
fn held_by_far(
    end: End,
    object: ObjectNo,
    opposite: Option<FeatureNo>,
    container: FeatureNo,
) -> Option<(Node, End)>
    ensures { result ≡ held_far end object opposite container }
{
    let feature = opposite?;
    if feature != container {
        return None;
    }
    let far = End {
        node: Node::Object(object),
        feature,
    };
    Some((end.node, far))
}

/// The node that is contained through a link from an end to an object, and the end that contains this node. `None` if nothing is contained
/// through the link.
fn held_by(end: End, object: ObjectNo, pairing: Pairing) -> Option<(Node, End)>
    ensures { result ≡ held_node end object pairing.opposite pairing.container }
{
    let container = pairing.container?;
    if end.feature == container {
        return Some((Node::Object(object), end));
    }
    held_by_far(end, object, pairing.opposite, container)
}

/// Takes a value out of an end, if the value is there.
fn take_out(rows: &mut NodeSlots, end: End, value: &Value)
    requires { IsDistinct ((cells rows.old).vals end) }
    ensures cells { cells rows.new ≡ without_value end value.now (cells rows.old) }
    ensures room { TakesAtMost no_values no_ends (room rows.old) (room rows.new) }
{
    if let Some(index) = found(rows, end, value) {
        rows.edit(
            end.node,
            RowEdit::Change(end.feature, SlotEdit::Remove { index }),
        );
    }
}

/// Takes an end out of the entries of an object, if the end is among them. The entries of an object are the ends without opposite that have
/// the object as a value. The end is first looked for at the index `guess`.
fn take_out_entry(rows: &mut NodeSlots, end: End, object: ObjectNo, guess: usize)
    requires { IsOnce ((cells rows.old).entered (node.Object object)) }
    ensures cells { cells rows.new ≡ without_entry end object (cells rows.old) }
    ensures room { TakesAtMost no_values no_ends (room rows.old) (room rows.new) }
{
    if let Some(index) = entry_from(rows, object, end, guess) {
        rows.edit(Node::Object(object), RowEdit::Leave(index));
    }
}

/// Takes the link from `end` to `object` out of its far side. `opposite` is the opposite of the feature of `end`. If there is an opposite,
/// takes the node of `end` out of the opposite end at `object`. Otherwise takes `end` out of the entries of `object`, and first looks for
/// it at the index `guess`.
fn take_out_far(
    rows: &mut NodeSlots,
    end: End,
    object: ObjectNo,
    opposite: Option<FeatureNo>,
    guess: usize,
)
    requires { RepeatNothing (cells rows.old) }
    ensures cells { cells rows.new ≡ cut_far end object opposite (cells rows.old) }
    ensures room { TakesAtMost no_values no_ends (room rows.old) (room rows.new) }
{
    let node = Node::Object(object);
    match opposite {
        Some(feature) => take_out(rows, End { node, feature }, &value_of(end.node)),
        None => take_out_entry(rows, end, object, guess),
    }
}

/// Records that no end contains the node of `pair`. If `pair` is `None`, nothing changes.
fn release(rows: &mut NodeSlots, pair: Option<(Node, End)>)
    ensures cells { cells rows.new ≡ cells_after_release pair (cells rows.old) }
    ensures room { TakesAtMost no_values no_ends (room rows.old) (room rows.new) }
{
    if let Some((node, _)) = pair {
        rows.edit(node, RowEdit::Hold(None));
    }
}

/// Cuts the link from `end` to `object`: takes the link out of its far side and then out of `end`. If a node was contained through the
/// link, records that no end contains this node any more. If `end` has no opposite, it is first looked for at the index `guess` among the
/// entries of `object`.
fn cut(rows: &mut NodeSlots, end: End, object: ObjectNo, guess: usize)
    requires { RepeatNothing (cells rows.old) }
    ensures cells { cells rows.new ≡ cells_after_cut end (value.Object object) (cells rows.old) }
    ensures room { TakesAtMost no_values no_ends (room rows.old) (room rows.new) }
{
    let pairing = rows.pairing(end);
    take_out_far(rows, end, object, pairing.opposite, guess);
    take_out(rows, end, &Value::Object(object));
    release(rows, held_by(end, object, pairing));
}

/// Cuts the link of a value in an end: the link to an object, or a proxy. `guess` is used as by `cut`.
fn cut_value(rows: &mut NodeSlots, end: End, value: &Value, guess: usize)
    requires { RepeatNothing (cells rows.old) }
    ensures cells { cells rows.new ≡ cells_after_cut end value.now (cells rows.old) }
    ensures room { TakesAtMost no_values no_ends (room rows.old) (room rows.new) }
{
    match value {
        Value::Object(object) => cut(rows, end, *object, guess),
        _ => take_out(rows, end, value),
    }
}

/// The row index of the node that is contained through a link from `end`. `places` has the row indexes of both nodes of the link, and
/// `container` is the containing feature. If nothing is contained through the link, the result is the row index of the near node, which is
/// the node of `end`.
fn held_row_index(places: PutPlaces, end: End, container: Option<FeatureNo>) -> usize
    ensures { result ≡ held_row_index places end container }
{
    match container {
        Some(feature) if end.feature == feature => places.far,
        _ => places.near,
    }
}

/// Records that the end of `pair` contains the node of `pair`; `row_index` is the index of this node's row. If `pair` is `None`, nothing
/// changes.
fn hold(rows: &mut NodeSlots, row_index: usize, pair: Option<(Node, End)>)
    requires row { HasHeldRow pair (room rows.old) }
    requires at { IfSome pair (λ p. row_index_of rows.old p.0 ≡ Some row_index) }
    ensures cells { cells rows.new ≡ cells_after_hold pair (cells rows.old) }
    ensures room { TakesAtMost no_values no_ends (room rows.old) (room rows.new) }
{
    if let Some((node, end)) = pair {
        rows.edit_at(node, row_index, RowEdit::Hold(Some(end)));
    }
}

/// Puts a link in at its far side. There has to be capacity for the link. If there is an opposite, the opposite end at the link's object
/// gets the node of the link's end as its last value. Otherwise the object gets the link's end as its last entry. `row_index` is the index
/// of the object's row.
fn put_in_far(rows: &mut NodeSlots, row_index: usize, link: NewLink)
    requires object { PairsObject link.end link.opposite }
    requires room { FarHasRoom link.object link.opposite (room rows.old) }
    requires at { row_index_of rows.old (node.Object link.object) ≡ Some row_index }
    ensures cells { cells rows.new ≡ put_far link.end link.object link.opposite link.container (cells rows.old) }
    ensures room { TakesAtMost (far_gain link.object link.opposite) (lone_entry link.object link.opposite) (room rows.old) (room rows.new) }
    ensures places { (n : Node) → row_index_of rows.new n ≡ row_index_of rows.old n }
{
    let node = Node::Object(link.object);
    match link.opposite {
        Some(feature) => {
            let pairing = Pairing {
                opposite: Some(link.end.feature),
                container: link.container,
            };
            let value = value_of(link.end.node);
            rows.edit_at(
                node,
                row_index,
                RowEdit::Change(feature, SlotEdit::Push { value, pairing }),
            );
        }
        None => rows.edit_at(node, row_index, RowEdit::Enter(link.end)),
    }
}

/// Puts a value in at `index` of an end. There has to be capacity for the value. `row_index` is the index of the row of the end's node. If
/// the value is an object, `pairing` has the opposite and the containing feature of the end's feature. For a proxy, `pairing` is `None`.
fn put_in(
    rows: &mut NodeSlots,
    row_index: usize,
    end: End,
    index: u32,
    value: Value,
    pairing: Option<Pairing>,
)
    requires room { 1 ≤ (room rows.old).places end }
    requires can { CanHave ((room rows.old).mixed end) value }
    requires at { row_index_of rows.old end.node ≡ Some row_index }
    ensures cells { cells rows.new ≡ put_near end index value pairing (cells rows.old) }
    ensures room { TakesAtMost (λ e. one_if (same_end end e)) no_ends (room rows.old) (room rows.new) }
    ensures places { (n : Node) → row_index_of rows.new n ≡ row_index_of rows.old n }
{
    let edit = SlotEdit::Insert {
        index: index as usize,
        value,
        pairing,
    };
    rows.edit_at(end.node, row_index, RowEdit::Change(end.feature, edit));
}

/// Puts a link in. There has to be capacity for the link. `places` has the row indexes of the two nodes of the link.
#[inline(always)]
fn put(rows: &mut NodeSlots, places: PutPlaces, link: NewLink)
    requires object { PairsObject link.end link.opposite }
    requires room { HasRoom (room rows.old) (edit.Put link ∷ []) }
    requires held { HasHeldRow (held_node link.end link.object link.opposite link.container) (room rows.old) }
    requires near { row_index_of rows.old link.end.node ≡ Some places.near }
    requires far { row_index_of rows.old (node.Object link.object) ≡ Some places.far }
    ensures cells { cells rows.new ≡ cells_after (edit.Put link) (cells rows.old) }
    ensures room { TakesAtMost (λ e. gain e (edit.Put link)) (λ n. entry n (edit.Put link)) (room rows.old) (room rows.new) }
{
    let pairing = Pairing {
        opposite: link.opposite,
        container: link.container,
    };
    put_in(
        rows,
        places.near,
        link.end,
        link.index,
        Value::Object(link.object),
        Some(pairing),
    );
    put_in_far(rows, places.far, link);
    hold(
        rows,
        held_row_index(places, link.end, link.container),
        held_by(link.end, link.object, pairing),
    );
}

/// The row indexes of the two nodes of a put: of the node of `end`, and of `object`. Both nodes must have a row; they have one once
/// capacity was reserved for the put.
fn places_of(rows: &NodeSlots, end: End, object: ObjectNo) -> PutPlaces
    requires near { (room rows.now).rows end.node ≡ true }
    requires far { (room rows.now).rows (node.Object object) ≡ true }
    ensures near { row_index_of rows.now end.node ≡ Some result.near }
    ensures far { row_index_of rows.now (node.Object object) ≡ Some result.far }
{
    PutPlaces {
        near: rows.row_index(end.node),
        far: rows.row_index(Node::Object(object)),
    }
}

/// Reserves capacity for a link, and puts the link in. Fails only if memory is refused; then no value changes.
pub(crate) fn put_with_room(rows: &mut NodeSlots, link: NewLink) -> Result<(), AllocError>
    requires { PairsObject link.end link.opposite }
    ensures { cells rows.new ≡ (if is_ok result then cells_after (edit.Put link) (cells rows.old) else cells rows.old) }
{
    let places = rows.reserve_put(link)?;
    put(rows, places, link);
    Ok(())
}

/// Moves the value at the index `from` of an end to the index `to`.
fn shift(rows: &mut NodeSlots, end: End, to: u32, from: u32)
    ensures cells { cells rows.new ≡ cells_after (edit.Shift end to from) (cells rows.old) }
    ensures room { TakesAtMost no_values no_ends (room rows.old) (room rows.new) }
{
    let edit = SlotEdit::Move {
        to: to as usize,
        from: from as usize,
    };
    rows.edit(end.node, RowEdit::Change(end.feature, edit));
}

/// Makes one edit. There has to be capacity for the edit. If the edit takes an end out of the entries of an object, that end is first
/// looked for at the index `guess`. Takes no memory.
#[inline(always)]
pub(crate) fn edit_rows(rows: &mut NodeSlots, edit: Edit, guess: usize)
    requires object { PutsObject edit }
    requires room { HasRoom (room rows.old) (edit ∷ []) }
    requires distinct { RepeatNothing (cells rows.old) }
    ensures cells { cells rows.new ≡ cells_after edit (cells rows.old) }
    ensures room { TakesAtMost (λ e. gain e edit) (λ n. entry n edit) (room rows.old) (room rows.new) }
{
    match edit {
        Edit::Cut { end, value } => cut_value(rows, end, &value, guess),
        Edit::Put(link) => {
            let places = places_of(rows, link.end, link.object);
            put(rows, places, link);
        }
        Edit::Shift { end, to, from } => shift(rows, end, to, from),
        Edit::PutProxy { end, index, text } => {
            let row_index = rows.row_index(end.node);
            put_in(rows, row_index, end, index, Value::Proxy(text), None);
        }
    }
}
