//! The rows of all nodes.
ghost use Rattle.std.specs.Prelude.{◌≡◌, [], length, option_and_then, option_copied, position, slice_get, true, Some};
ghost use Rattle.mm_types.specs.Same.{same_end, same_value};
ghost use Rattle.mm_types.specs.declared.numbers.Node.{Node};
ghost use Rattle.links.specs.Links.{object_of, text_of};
ghost use Rattle.node_slots.specs.Rows.{row_slot, row_slots};
ghost use Rattle.end_values.specs.EndValues.{is_value};
ghost use Rattle.end_values.specs.Proxies.{HasNoProxyBefore};
ghost use Rattle.node_slots.specs.Cells.{AreReordered, Fits, KeepsRoom, cell_edit, cells, ends_of, no_cells, room, row_at, row_index_of};

mod growth;

use crate::row::{Row, RowEdit};
use crate::row_table::RowTable;
use crate::slot::{Pairing, Slot};
pub use growth::PutPlaces;
use mm_types::{End, Node, ObjectNo, Value};
use std::alloc::Global;

/// A row for each node for which capacity was reserved: capacity for values at the node's ends, or capacity for entries, which are the ends
/// with no opposite that have the node as a value.
#[derive(Drop)]
pub struct NodeSlots {
    objects: RowTable,
    resources: RowTable,
}

impl NodeSlots {
    /// No rows. Takes no memory.
    pub fn new(alloc: Global) -> Self
        ensures cells { cells result ≡ no_cells }
        ensures ends { ends_of result ≡ [] }
    {
        NodeSlots {
            objects: RowTable::new(alloc),
            resources: RowTable::new(alloc),
        }
    }

    /// The row of a node; `None` if the node has no row, and so no values.
    fn row(&self, node: Node) -> Option<&Row>
        ensures { option_copied result ≡ row_at self.now node }
    {
        match node {
            Node::Object(object) => self.objects.get(object.0 as usize),
            Node::Resource(resource) => self.resources.get(resource.0 as usize),
        }
    }

    /// The slots of a node, each with the values of one feature.
    pub fn slots(&self, node: Node) -> &[Slot]
        ensures { result.now ≡ row_slots (row_at self.now node) }
    {
        match self.row(node) {
            Some(row) => row.slots.as_slice(),
            None => &[],
        }
    }

    /// The slot of an end; `None` if the end has no slot, and so no values.
    fn slot(&self, end: End) -> Option<&Slot>
        ensures { option_copied result ≡ row_slot (row_at self.now end.node) end.feature }
    {
        self.row(end.node)?.slot(end.feature)
    }

    /// How many values an end has.
    #[inline(always)]
    #[tactic(auto, unfolding(crate::specs::Cells::cells))]
    pub fn len(&self, end: End) -> usize
        ensures { result ≡ length ((cells self.now).vals end) }
    {
        match self.slot(end) {
            Some(slot) => slot.values.len(),
            None => 0,
        }
    }

    /// The object at an index of an end; `None` past the last value, and if no object is there.
    #[tactic(auto, unfolding(crate::specs::Cells::cells))]
    pub fn object_at(&self, end: End, index: usize) -> Option<ObjectNo>
        ensures { result ≡ option_and_then object_of (slice_get ((cells self.now).vals end) index) }
    {
        self.slot(end)?.values.object_at(index)
    }

    /// The text of the proxy at an index of an end; `None` past the last value, and if no proxy is there.
    #[tactic(auto, unfolding(crate::specs::Cells::cells))]
    pub fn text_at(&self, end: End, index: usize) -> Option<&str>
        ensures { option_copied result ≡ option_and_then text_of (slice_get ((cells self.now).vals end) index) }
    {
        self.slot(end)?.values.text_at(index)
    }

    /// An index before which an end has no proxy.
    #[tactic(auto, unfolding(crate::specs::Cells::cells))]
    pub fn proxy_start(&self, end: End) -> usize
        ensures { HasNoProxyBefore result ((cells self.now).vals end) }
    {
        match self.slot(end) {
            Some(slot) => slot.values.proxy_start(),
            None => 0,
        }
    }

    /// Whether `value` is at the index `index` of an end.
    #[tactic(auto, unfolding(crate::specs::Cells::cells))]
    pub fn is_at(&self, end: End, index: usize, value: &Value) -> bool
        ensures { result ≡ is_value value.now (slice_get ((cells self.now).vals end) index) }
    {
        match self.slot(end) {
            Some(slot) => slot.values.is_at(index, value),
            None => false,
        }
    }

    /// The first index of a value in an end; `None` if the value is not there.
    #[tactic(auto, unfolding(crate::specs::Cells::cells))]
    pub fn position(&self, end: End, value: &Value) -> Option<usize>
        ensures { result ≡ position (same_value value.now) ((cells self.now).vals end) }
    {
        self.slot(end)?.values.position(value)
    }

    /// A guess at the index of a value in an end. In a list with labels, the guess is right if each object has a label and the labels rise
    /// along the list. In a list with neither labels nor proxies, the guess is right if the numbers of the objects rise or fall along the
    /// list. The guess for a proxy is right if the proxy is the first proxy of the end, and no object comes after this proxy. Otherwise the
    /// guess may be any index, or the number of values.
    pub fn guess(&self, end: End, value: &Value) -> usize {
        match self.slot(end) {
            Some(slot) => slot.values.guess(value),
            None => 0,
        }
    }

    /// The opposite and the containing feature of an end's feature, as the last put of an object into the end gave them; both `None` if no
    /// object was put into the end.
    #[tactic(auto, unfolding(crate::specs::Cells::cells))]
    pub fn pairing(&self, end: End) -> Pairing
        ensures { result ≡ (cells self.now).pairing end }
    {
        match self.slot(end) {
            Some(slot) => slot.pairing,
            None => Pairing {
                opposite: None,
                container: None,
            },
        }
    }

    /// The end that contains a node; `None` if no end contains it.
    #[tactic(auto, unfolding(crate::specs::Cells::cells))]
    pub fn holder(&self, node: Node) -> Option<End>
        ensures { result ≡ (cells self.now).hold node }
    {
        self.row(node)?.holder
    }

    /// How many ends with no opposite have a node as a value.
    #[tactic(auto, unfolding(crate::specs::Cells::cells))]
    pub fn entered_len(&self, node: Node) -> usize
        ensures { result ≡ length ((cells self.now).entered node) }
    {
        match self.row(node) {
            Some(row) => row.entered.len(),
            None => 0,
        }
    }

    /// Of the ends with no opposite that have a node as a value, the one at `index`; `None` past the last of them.
    #[tactic(auto, unfolding(crate::specs::Cells::cells))]
    pub fn entered_at(&self, node: Node, index: usize) -> Option<&End>
        ensures { option_copied result ≡ slice_get ((cells self.now).entered node) index }
    {
        self.row(node)?.entered.get(index)
    }

    /// The index of an end among the ends with no opposite that have a node as a value; `None` if the end is not among them.
    #[tactic(auto, unfolding(crate::specs::Cells::cells))]
    pub fn entered_position(&self, node: Node, end: End) -> Option<usize>
        ensures { result ≡ position (same_end end) ((cells self.now).entered node) }
    {
        self.row(node)?.entered.position(&end)
    }

    /// The index of the row of a node; `None` if the node has no row.
    fn find(&self, node: Node) -> Option<usize>
        ensures { result ≡ row_index_of self.now node }
    {
        match node {
            Node::Object(object) => self.objects.row_index(object.0 as usize),
            Node::Resource(resource) => self.resources.row_index(resource.0 as usize),
        }
    }

    /// The index of the row of a node that has a row.
    pub fn row_index(&self, node: Node) -> usize
        requires { (room self.now).rows node ≡ true }
        ensures { row_index_of self.now node ≡ Some result }
    {
        match self.find(node) {
            Some(row_index) => row_index,
            None => unreachable!(),
        }
    }

    /// Makes one change of a node. The change has to meet `Fits`: there is capacity for what it adds, it takes back no more capacity than
    /// is reserved, and it sets an end that contains the node only if the node has a row. Takes no memory. The capacity of an end may
    /// always be used for an object. It may be used for a proxy only if the end may have values other than objects; `reserve_for` allows
    /// values other than objects at each end into which its plan puts a proxy.
    pub fn edit(&mut self, node: Node, edit: RowEdit)
        requires { Fits node edit (room self.old) }
        ensures cells { cells self.new ≡ cell_edit node edit (cells self.old) }
        ensures room { KeepsRoom node edit (room self.old) (room self.new) }
    {
        match self.find(node) {
            Some(row_index) => self.edit_at(node, row_index, edit),
            None => drop(edit),
        }
    }

    /// Makes one change of a node, as `edit` does; `row_index` is the index of the node's row. The change has to meet `Fits`. Takes no
    /// memory. Each row keeps its index.
    pub fn edit_at(&mut self, node: Node, row_index: usize, edit: RowEdit)
        requires at { row_index_of self.old node ≡ Some row_index }
        requires fits { Fits node edit (room self.old) }
        ensures cells { cells self.new ≡ cell_edit node edit (cells self.old) }
        ensures room { KeepsRoom node edit (room self.old) (room self.new) }
        ensures places { (n : Node) → row_index_of self.new n ≡ row_index_of self.old n }
    {
        match node {
            Node::Object(object) => self.objects.edit_at(object.0 as usize, row_index, edit),
            Node::Resource(resource) => self
                .resources
                .edit_at(resource.0 as usize, row_index, edit),
        }
    }

    /// Sorts the ends with no opposite that have a node as a value, by the numbers that `entry_rank` gives. Takes no memory.
    pub fn order_entries(&mut self, node: Node)
        ensures cells { AreReordered (cells self.old) (cells self.new) }
        ensures room { room self.new ≡ room self.old }
    {
        match node {
            Node::Object(object) => self.objects.order_entries(object.0 as usize),
            Node::Resource(resource) => self.resources.order_entries(resource.0 as usize),
        }
    }
}
