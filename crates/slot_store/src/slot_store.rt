//! The store of links that keeps each link to an object on both sides of the link.
ghost use Rattle.std.specs.Prelude.{◌≡◌, ◌∷◌, [], true};
ghost use Rattle.mm_types.specs.declared.value.Value.TheVariants as value;
ghost use Rattle.links.specs.Plans.{HasPlanOfKind, PlanFits, links_after_edits};
ghost use Rattle.node_slots.specs.Cells.{cells, room};
ghost use Rattle.node_slots.specs.Growth.{HasRoom};
ghost use Rattle.slot_store.specs.CellLinks.{HasValue, IsStore, IsStoreOfKind, store_links};

use crate::edits::{edit_rows, put_with_room, value_of};
use crate::incoming::{entering, places_of};
use crate::search::{entry_found, found, ordered_guess};
use links::{Edit, Incoming, LinkStore, NewLink, Plan, put_in_order};
use mm_types::{End, FewItems, Node, ObjectNo, Value};
use node_slots::NodeSlots;
use std::alloc::{AllocError, Global};

/// Links, and for each node the end that contains the node. Each end has a list of its values. A link to an object is kept on both sides.
/// The list of its end has the object. If there is an opposite, the list of the opposite end at the object has the node of the end. If
/// there is no opposite, the end is among the entries of the object: the ends without an opposite that have the object as a value. A proxy
/// is only in the list of its end. A read of the values of an end, or of the container of a node, looks only into the row of one node,
/// however many links there are. A search for an object in an end may also look into the row of the object.
#[derive(Drop)]
pub struct SlotStore {
    rows: NodeSlots,
    ghost kept: { ∥ IsStore rows ∥₁ },
}

impl LinkStore for SlotStore {
    ghost links = { λ s. store_links s.rows };

    ghost kinds = { λ s m. IsStoreOfKind s.rows m };

    ghost has_room = { λ s plan. HasRoom (room s.rows) plan };

    fn empty(alloc: Global) -> Self {
        SlotStore {
            rows: NodeSlots::new(alloc),
        }
    }

    #[inline(always)]
    fn len(&self, end: End) -> usize {
        self.rows.len(end)
    }

    fn at(&self, end: End, index: u32) -> Option<ObjectNo> {
        self.rows.object_at(end, index as usize)
    }

    fn proxy_at(&self, end: End, index: u32) -> Option<&str> {
        self.rows.text_at(end, index as usize)
    }

    fn proxy_start(&self, end: End) -> usize {
        self.rows.proxy_start(end)
    }

    fn position(&self, end: End, object: ObjectNo) -> Option<u32> {
        if far_lacks(&self.rows, end, object) {
            return None;
        }
        match found(&self.rows, end, &Value::Object(object)) {
            Some(index) => Some(index as u32),
            None => None,
        }
    }

    fn holder(&self, object: ObjectNo) -> Option<End> {
        self.rows.holder(Node::Object(object))
    }

    fn incoming(&self, alloc: Global, object: ObjectNo) -> Result<Vec<Incoming>, AllocError> {
        let mut ends = entering(alloc, &self.rows, object)?;
        put_in_order(&mut ends);
        places_of(alloc, &self.rows, &ends, &Value::Object(object))
    }

    fn ends_holding(&self, alloc: Global, object: ObjectNo) -> Result<Vec<End>, AllocError> {
        entering(alloc, &self.rows, object)
    }

    fn reserve_for(&mut self, plan: &Plan) -> Result<(), AllocError> {
        self.rows.reserve_for(plan)
    }

    fn apply(&mut self, plan: Plan) {
        apply_rows(&mut self.rows, plan);
    }

    fn put(&mut self, link: NewLink) -> Result<(), AllocError> {
        put_with_room(&mut self.rows, link)
    }
}

/// Whether a search of the far side shows that an object is not in an end. The far side is the list of the opposite end at the object, or,
/// if the end's feature has no opposite, the list of the object's entries. This list is searched only if it is shorter than the list of the
/// end; otherwise the result is false.
fn far_lacks(rows: &NodeSlots, end: End, object: ObjectNo) -> bool
    requires { ∥ IsStore rows.now ∥₁ }
    ensures { result ≡ true → HasValue ((cells rows.now).vals end) (value.Object object) → ⊥ }
{
    match rows.pairing(end).opposite {
        Some(feature) => {
            let far = End {
                node: Node::Object(object),
                feature,
            };
            rows.len(far) < rows.len(end) && found(rows, far, &value_of(end.node)).is_none()
        }
        None => {
            rows.entered_len(Node::Object(object)) < rows.len(end)
                && entry_found(rows, object, end).is_none()
        }
    }
}

/// If an edit takes an end out of the entries of an object, a guess at the index of that end among the entries; otherwise 0. The entries of
/// an object are the ends without opposite that have the object as a value. Making the guess may sort the entries.
fn make_guess(rows: &mut NodeSlots, edit: &Edit) -> usize
    requires kept { ∥ IsStore rows.old ∥₁ }
    ensures kept { ∥ IsStore rows.new ∥₁ }
    ensures links { store_links rows.new ≡ store_links rows.old }
    ensures room { room rows.new ≡ room rows.old }
{
    if let Edit::Cut {
        end,
        value: Value::Object(object),
    } = edit
    {
        if rows.pairing(*end).opposite.is_none() {
            return ordered_guess(rows, *object, *end);
        }
    }
    0
}

/// Makes the edits of a plan, in their order.
fn apply_rows(rows: &mut NodeSlots, plan: Plan)
    requires kept { ∥ IsStore rows.old ∥₁ }
    requires fits { PlanFits (store_links rows.old) plan }
    requires of_kind { HasPlanOfKind (IsStoreOfKind rows.old) plan }
    requires reserved { HasRoom (room rows.old) plan }
    ensures kept { ∥ IsStore rows.new ∥₁ }
    ensures links { store_links rows.new ≡ links_after_edits (store_links rows.old) plan }
{
    match plan.into_items() {
        FewItems::One(edit) => apply_edit(rows, edit),
        FewItems::Many(edits) => apply_edits(rows, edits),
    }
}

/// Makes one edit.
fn apply_edit(rows: &mut NodeSlots, edit: Edit)
    requires kept { ∥ IsStore rows.old ∥₁ }
    requires fits { PlanFits (store_links rows.old) (edit ∷ []) }
    requires of_kind { HasPlanOfKind (IsStoreOfKind rows.old) (edit ∷ []) }
    requires reserved { HasRoom (room rows.old) (edit ∷ []) }
    ensures kept { ∥ IsStore rows.new ∥₁ }
    ensures links { store_links rows.new ≡ links_after_edits (store_links rows.old) (edit ∷ []) }
{
    let guess = make_guess(rows, &edit);
    edit_rows(rows, edit, guess);
}

/// Makes edits, in their order.
fn apply_edits(rows: &mut NodeSlots, edits: Vec<Edit>)
    requires kept { ∥ IsStore rows.old ∥₁ }
    requires fits { PlanFits (store_links rows.old) edits.items }
    requires of_kind { HasPlanOfKind (IsStoreOfKind rows.old) edits.items }
    requires reserved { HasRoom (room rows.old) edits.items }
    ensures kept { ∥ IsStore rows.new ∥₁ }
    ensures links { store_links rows.new ≡ links_after_edits (store_links rows.old) edits.items }
{
    for edit in edits {
        let guess = make_guess(rows, &edit);
        edit_rows(rows, edit, guess);
    }
}
