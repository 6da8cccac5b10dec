//! Capacity for edits, which is reserved before the edits are made.
ghost use Rattle.std.specs.Prelude.{◌≡◌, true, ℕ, [], ◌∷◌, IfOk, OnOk, Some};
ghost use Rattle.links.specs.declared.plan.Edit.TheVariants as edit;
ghost use Rattle.mm_types.specs.Same.{same_end};
ghost use Rattle.mm_types.specs.declared.numbers.Node.{Node};
ghost use Rattle.mm_types.specs.declared.numbers.Node.TheVariants as node;
ghost use Rattle.node_slots.specs.Cells.{cells, room, row_index_of};
ghost use Rattle.node_slots.specs.Growth.{HasGained, HasRoom, Takes, entry, far_gain, gain, lone_entry, no_ends, no_values, one_if};

use super::NodeSlots;
use crate::row::RowEdit;
use crate::slot::SlotEdit;
use links::{Edit, NewLink, Plan};
use mm_types::{End, FeatureNo, Node, ObjectNo};
use std::alloc::AllocError;

/// The indexes of the rows of the two nodes of a put.
#[derive(Clone, Copy)]
pub struct PutPlaces {
    /// The index of the row of the node that gets the object: the node of the link's end.
    pub near: usize,
    /// The index of the row of the object.
    pub far: usize,
}

impl NodeSlots {
    /// How many more values can be added to an end in reserved capacity.
    #[tactic(auto, unfolding(crate::specs::Cells::room))]
    fn places(&self, end: End) -> usize
        ensures { result ≡ (room self.now).places end }
    {
        match self.slot(end) {
            Some(slot) => slot.places(),
            None => 0,
        }
    }

    /// How many more entries can be added to a node in reserved capacity. The entries of a node are the ends with no opposite that have the
    /// node as a value.
    #[tactic(auto, unfolding(crate::specs::Cells::room))]
    fn entries(&self, node: Node) -> usize
        ensures { result ≡ (room self.now).entries node }
    {
        match self.row(node) {
            Some(row) => row.entries(),
            None => 0,
        }
    }

    /// Takes back the capacity that is reserved for values of an end. No memory is freed: the memory stays for later reservations.
    fn forget(&mut self, end: End)
        ensures { cells self.new ≡ cells self.old }
    {
        let places = self.places(end);
        if places == 0 {
            return;
        }
        self.edit(
            end.node,
            RowEdit::Change(end.feature, SlotEdit::Forget { places }),
        );
    }

    /// Takes back the capacity that is reserved for the far side of a put: for values of the opposite end (the feature `opposite` of
    /// `object`); or, if there is no opposite, for ends that have `object` as a value.
    fn forget_far(&mut self, object: ObjectNo, opposite: Option<FeatureNo>)
        ensures { cells self.new ≡ cells self.old }
    {
        let node = Node::Object(object);
        match opposite {
            Some(feature) => self.forget(End { node, feature }),
            None => {
                let places = self.entries(node);
                self.edit(node, RowEdit::ForgetEntries(places));
            }
        }
    }

    /// Whether the values of an end are to get labels, by which their indexes are guessed. They are to get labels if a removal found that
    /// the numbers of the objects neither rise nor fall along the list, and the objects have no labels yet.
    fn needs_labels(&self, end: End) -> bool {
        match self.slot(end) {
            Some(slot) => slot.values.needs_labels(),
            None => false,
        }
    }

    /// Gives labels to the values of an end, if they are to get labels and there is memory. A reservation of capacity makes the labels, so
    /// the function reserves capacity. Then it takes back all capacity that is reserved for values of the end.
    fn label(&mut self, end: End)
        ensures { cells self.new ≡ cells self.old }
    {
        if self.needs_labels(end) && self.promise(end, false).is_ok() {
            self.forget(end);
        }
    }

    /// Takes back the capacity that is reserved at each end to which an edit adds a value, and at each node to which the edit adds an
    /// entry. An entry of a node is an end that has the node as a value and has no opposite. `is_done` says that the capacity at the end
    /// that `edit` names was taken back for an earlier edit; then it is not taken back again. If the edit is a cut, the values of the end
    /// that the edit names may get labels (`label`), so that the cut finds its value fast.
    fn forget_edit(&mut self, edit: &Edit, is_done: bool)
        ensures { cells self.new ≡ cells self.old }
    {
        match edit {
            Edit::Cut { end, .. } => self.label(*end),
            Edit::PutProxy { end, .. } if !is_done => self.forget(*end),
            Edit::Put(link) => {
                if !is_done {
                    self.forget(link.end);
                }
                self.forget_far(link.object, link.opposite);
            }
            _ => {}
        }
    }

    /// Takes back the capacity that is reserved at each end to which a plan adds a value, and at each node to which the plan adds an entry.
    /// An entry of a node is an end that has the node as a value and has no opposite.
    fn forget_plan(&mut self, plan: &[Edit])
        ensures { cells self.new ≡ cells self.old }
    {
        let mut forgotten = None;
        for edit in plan {
            // If a put, of an object or a proxy, names the same end as the last put before it, the capacity of this end was taken back for
            // that put.
            let end = edit.end();
            self.forget_edit(edit, forgotten == Some(end));
            if matches!(edit, Edit::Put(_) | Edit::PutProxy { .. }) {
                forgotten = Some(end);
            }
        }
    }

    /// The index of the row of a node; makes the row if there is none. Fails only if memory is refused. No value changes, and each row
    /// keeps its index.
    fn make_row(&mut self, node: Node) -> Result<usize, AllocError>
        ensures cells { cells self.new ≡ cells self.old }
        ensures room { HasGained no_values no_ends (room self.old) (room self.new) }
        ensures unmoved { (n : Node) (k : ℕ) → row_index_of self.old n ≡ Some k → row_index_of self.new n ≡ Some k }
        ensures ok { IfOk result (λ k. row_index_of self.new node ≡ Some k) }
    {
        match node {
            Node::Object(object) => self.objects.make_row(object.0 as usize),
            Node::Resource(resource) => self.resources.make_row(resource.0 as usize),
        }
    }

    /// Reserves capacity for one more value of an end: for any value if `is_mixed`, otherwise for an object. `row_index` is the index of
    /// the row of the end's node. Fails only if memory is refused; no value changes.
    fn promise_at(&mut self, end: End, row_index: usize, is_mixed: bool) -> Result<(), AllocError>
        requires at { row_index_of self.old end.node ≡ Some row_index }
        ensures cells { cells self.new ≡ cells self.old }
        ensures places { (n : Node) → row_index_of self.new n ≡ row_index_of self.old n }
        ensures ok { OnOk result (HasGained (λ e. one_if (same_end end e)) no_ends (room self.old) (room self.new)) }
        ensures takes { OnOk result (is_mixed ≡ true → (room self.new).mixed end ≡ true) }
    {
        match end.node {
            Node::Object(object) => {
                self.objects
                    .promise_at(object.0 as usize, row_index, end.feature, is_mixed)
            }
            Node::Resource(resource) => {
                self.resources
                    .promise_at(resource.0 as usize, row_index, end.feature, is_mixed)
            }
        }
    }

    /// Reserves capacity for the far side of a put: for a value of the opposite end (the feature `opposite` of `object`); or, if there is
    /// no opposite, for one more end that has `object` as a value. `row_index` is the index of the row of `object`. Fails only if memory is
    /// refused; no value changes.
    fn promise_far_at(
        &mut self,
        object: ObjectNo,
        row_index: usize,
        opposite: Option<FeatureNo>,
    ) -> Result<(), AllocError>
        requires at { row_index_of self.old (node.Object object) ≡ Some row_index }
        ensures cells { cells self.new ≡ cells self.old }
        ensures places { (n : Node) → row_index_of self.new n ≡ row_index_of self.old n }
        ensures ok { OnOk result (HasGained (far_gain object opposite) (lone_entry object opposite) (room self.old) (room self.new)) }
    {
        let number = object.0 as usize;
        match opposite {
            Some(feature) => self.objects.promise_at(number, row_index, feature, false),
            None => self.objects.promise_entry_at(number, row_index),
        }
    }

    /// Reserves capacity for one more value of an end: for any value if `is_mixed`, otherwise for an object. Fails only if memory is
    /// refused; no value changes.
    fn promise(&mut self, end: End, is_mixed: bool) -> Result<(), AllocError>
        ensures cells { cells self.new ≡ cells self.old }
        ensures ok { OnOk result (HasGained (λ e. one_if (same_end end e)) no_ends (room self.old) (room self.new)) }
        ensures takes { OnOk result (is_mixed ≡ true → (room self.new).mixed end ≡ true) }
    {
        let row_index = self.make_row(end.node)?;
        self.promise_at(end, row_index, is_mixed)
    }

    /// Reserves capacity for the far side of a put: for a value of the opposite end (the feature `opposite` of `object`); or, if there is
    /// no opposite, for one more end that has `object` as a value. Fails only if memory is refused; no value changes.
    fn promise_far(
        &mut self,
        object: ObjectNo,
        opposite: Option<FeatureNo>,
    ) -> Result<(), AllocError>
        ensures cells { cells self.new ≡ cells self.old }
        ensures ok { OnOk result (HasGained (far_gain object opposite) (lone_entry object opposite) (room self.old) (room self.new)) }
    {
        let row_index = self.make_row(Node::Object(object))?;
        self.promise_far_at(object, row_index, opposite)
    }

    /// Reserves capacity at each end to which an edit adds a value, and at each node to which the edit adds an entry. An entry of a node is
    /// an end that has the node as a value and has no opposite. Fails only if memory is refused; no value changes.
    fn promise_edit(&mut self, edit: &Edit) -> Result<(), AllocError>
        ensures cells { cells self.new ≡ cells self.old }
        ensures ok { OnOk result (HasGained (λ e. gain e edit.now) (λ n. entry n edit.now) (room self.old) (room self.new)) }
        ensures takes { OnOk result (Takes (room self.new) edit.now) }
    {
        match edit {
            Edit::Put(link) => {
                self.promise(link.end, false)?;
                self.promise_far(link.object, link.opposite)
            }
            Edit::PutProxy { end, .. } => self.promise(*end, true),
            _ => Ok(()),
        }
    }

    /// Reserves capacity for a plan. Capacity that was reserved before is first taken back at each end and each node to which the plan adds
    /// something, and at each end whose values get labels for a cut. Fails only if memory is refused; no value changes.
    pub fn reserve_for(&mut self, plan: &Plan) -> Result<(), AllocError>
        ensures cells { cells self.new ≡ cells self.old }
        ensures ok { OnOk result (HasRoom (room self.new) plan.now) }
    {
        let edits = plan.as_slice();
        self.forget_plan(edits);
        for edit in edits {
            self.promise_edit(edit)?;
        }
        Ok(())
    }

    /// Reserves capacity for one link, in addition to the capacity that was reserved before, and returns the indexes of the rows of the two
    /// nodes of the link. Fails only if memory is refused; no value changes. If memory is refused for the far side, all capacity that is
    /// reserved for values of the link's end is taken back.
    pub fn reserve_put(&mut self, link: NewLink) -> Result<PutPlaces, AllocError>
        ensures cells { cells self.new ≡ cells self.old }
        ensures near { IfOk result (λ p. row_index_of self.new link.end.node ≡ Some p.near) }
        ensures far { IfOk result (λ p. row_index_of self.new (node.Object link.object) ≡ Some p.far) }
        ensures room { OnOk result (HasRoom (room self.new) (edit.Put link ∷ [])) }
    {
        let near = self.make_row(link.end.node)?;
        let far = self.make_row(Node::Object(link.object))?;
        self.promise_at(link.end, near, false)?;
        match self.promise_far_at(link.object, far, link.opposite) {
            Ok(()) => Ok(PutPlaces { near, far }),
            Err(refused) => {
                self.forget(link.end);
                Err(refused)
            }
        }
    }
}
