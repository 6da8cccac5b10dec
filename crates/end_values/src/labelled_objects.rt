//! A list of objects that are found by labels, since their numbers neither rose nor fell along the list.
ghost use Rattle.std.specs.Prelude.{◌≡◌, ◌+◌, ◌<◌, ◌≤◌, length, slice_get, position, option_copied, IfOk, OnErr, OnOk};
ghost use Rattle.std.specs.List.{insert, remove};
ghost use Rattle.slot_lists.specs.Moved.{list_after_move};

use index_guesses::{Labels, is_tried, label_between, new_label};
use indexmap::IndexMap;
use mm_types::ObjectNo;
use slot_lists::ShortList;
use std::alloc::{AllocError, Global};
use std::marker::Model;
use std::mem;

/// A list of objects, and a label for each object. If no memory was left for the label of an object, the object has no label, and is not
/// found by a label. Contracts see only the list.
#[derive(Drop)]
pub(crate) struct LabelledObjects {
    list: ShortList<ObjectNo>,
    labels: IndexMap<u32, u64>,
    ends: Labels,
}

impl Model for LabelledObjects {
    ghost use Rattle.slot_lists.specs.Places.{Places};
    ghost use Rattle.mm_types.specs.declared.numbers.ObjectNo.{ObjectNo};

    ghost Value = { Places ObjectNo };

    ghost view = { λ a. a.list };
}

impl LabelledObjects {
    /// Moves the objects of `list` into a `Box`, gives each object a label, and leaves `list` empty. Fails only if memory is refused, and
    /// then `list` stays as it is.
    #[cold]
    pub fn of(
        alloc: Global,
        list: &mut ShortList<ObjectNo>,
    ) -> Result<Box<LabelledObjects>, AllocError>
        ensures items { IfOk result (λ b. b.value.items ≡ list.old.items) }
        ensures spare { IfOk result (λ b. list.old.spare ≤ b.value.spare) }
        ensures err { OnErr result (list.new ≡ list.old) }
    {
        let empty = LabelledObjects {
            list: ShortList::new(),
            labels: IndexMap::with_capacity(alloc, list.len())?,
            ends: Labels::of(0),
        };
        let mut boxed = Box::new(alloc, empty)?;
        boxed.take_list(list);
        Ok(boxed)
    }

    /// Replaces the objects by the objects of `list`, and leaves `list` empty. Gives labels to the objects, as far as there is capacity for
    /// labels.
    fn take_list(&mut self, list: &mut ShortList<ObjectNo>)
        ensures { self.new ≡ list.old }
    {
        self.list = mem::replace(list, ShortList::new());
        self.label_all();
    }

    /// How many objects there are.
    #[cold]
    pub fn len(&self) -> usize
        ensures { result ≡ length self.now.items }
    {
        self.list.len()
    }

    /// How many objects may be inserted with no memory taken.
    pub fn spare(&self) -> usize
        ensures { result ≡ self.now.spare }
    {
        self.list.spare()
    }

    /// The objects without their labels.
    pub fn objects(&self) -> &ShortList<ObjectNo>
        ensures { result.now ≡ self.now }
    {
        &self.list
    }

    /// A guess at the index of an object of the list. The guess is right if each object of the list has a label and the labels rise along
    /// the list. Otherwise the guess may be any index, or the number of objects.
    #[cold]
    pub fn guess(&self, object: ObjectNo) -> usize {
        match self.labels.get(&object.0) {
            Some(label) => self
                .ends
                .search(self.list.len(), *label, |index| self.label_at(index)),
            None => 0,
        }
    }

    /// The label of the object at an index; 0 if no object is there, or if the object has no label.
    fn label_at(&self, index: usize) -> u64 {
        let Some(object) = self.list.get(index) else {
            return 0;
        };
        match self.labels.get(&object.0) {
            Some(label) => *label,
            None => 0,
        }
    }

    /// A label for an object that comes directly before the object at `next`, and directly after the object before `index`. If the label of
    /// the object at `next` is at least 2 greater than the label of the object before `index`, the new label is between the two; otherwise
    /// it is the label of the object before `index`. If there is no object at `next`, `Labels::after` gives the label. Otherwise, if there
    /// is no object before `index`, `Labels::before` gives the label.
    fn label_amid(&self, index: usize, next: usize) -> u64 {
        if next >= self.list.len() {
            return self.ends.after();
        }
        match index.checked_sub(1) {
            Some(before) => label_between(self.label_at(before), self.label_at(next)),
            None => self.ends.before(),
        }
    }

    /// Gives new labels to all objects, as far as there is capacity for their labels.
    fn label_all(&mut self)
        ensures { self.new ≡ self.old }
    {
        let len = self.list.len();
        self.ends = Labels::of(len);
        for index in 0..len {
            put_label(&mut self.labels, self.list.get(index), new_label(index));
        }
    }

    /// Reserves capacity for `additional` more objects, and for their labels. Fails only if memory is refused for the objects, and then the
    /// objects stay and no capacity is lost. If memory is refused only for the labels, some objects may get no label.
    #[cold]
    pub fn reserve(&mut self, alloc: Global, additional: usize) -> Result<(), AllocError>
        ensures items { self.new.items ≡ self.old.items }
        ensures ok { OnOk result (additional ≤ self.new.spare) }
        ensures spare { self.old.spare ≤ self.new.spare }
    {
        self.list.reserve(alloc, additional)?;
        match self.labels.reserve(additional) {
            Ok(()) => {}
            Err(_) => {}
        }
        Ok(())
    }

    /// Inserts an object before the object at an index, or after the last object if the index is the number of objects. Needs capacity for
    /// the object. Gives the object a label, if there is capacity for the label. Takes no memory.
    #[cold]
    pub fn insert(&mut self, index: usize, object: ObjectNo)
        requires room { 0 < self.old.spare }
        requires in_range { index ≤ length self.old.items }
        ensures items { self.new.items ≡ insert self.old.items index object }
        ensures spare { self.old.spare ≤ self.new.spare + 1 }
    {
        let label = self.label_amid(index, index);
        self.list.insert(index, object);
        self.ends.put(label, self.list.len());
        put_label(&mut self.labels, Some(&object), label);
    }

    /// Takes out the object at an index. Some removals (`is_tried`) first guess the index by the label of the object. If the guess is
    /// wrong, they give all objects new labels. Takes no memory.
    #[cold]
    pub fn remove(&mut self, index: usize)
        requires { index < length self.old.items }
        ensures items { self.new.items ≡ remove self.old.items index }
        ensures spare { self.old.spare ≤ self.new.spare }
    {
        if is_tried(index) && !self.is_guessed(index) {
            self.label_all();
        }
        if let Some(object) = self.list.get(index) {
            self.labels.swap_remove(&object.0);
        }
        self.list.remove(index);
        self.ends.take(index, self.list.len());
    }

    /// Whether the guess for the object at an index is right; true if no object is there.
    fn is_guessed(&self, index: usize) -> bool {
        match self.list.get(index) {
            Some(object) => self.guess(*object) == index,
            None => true,
        }
    }

    /// Moves the object at `from`, so that it is then at `to` (EMF: EList.move). Gives the object a new label, if it has a label or there
    /// is capacity for one. Takes no memory.
    #[cold]
    pub fn move_to(&mut self, to: usize, from: usize)
        requires to { to < length self.old.items }
        requires from { from < length self.old.items }
        ensures items { self.new.items ≡ list_after_move self.old.items to from }
        ensures spare { self.new.spare ≡ self.old.spare }
    {
        self.list.move_to(to, from);
        let label = self.label_amid(to, to.saturating_add(1));
        self.ends.put(label, self.list.len());
        put_label(&mut self.labels, self.list.get(to), label);
    }
}

/// Gives an object the label `label`, in place of any label that it has. Does nothing if there is no object, or if the object has no label
/// and there is no capacity for one.
fn put_label(labels: &mut IndexMap<u32, u64>, object: Option<&ObjectNo>, label: u64) {
    let Some(object) = object else {
        return;
    };
    if let Some(kept) = labels.get_mut(&object.0) {
        *kept = label;
        return;
    }
    if labels.len() < labels.capacity() {
        match labels.insert(object.0, label) {
            Ok(_) => {}
            Err(_) => {}
        }
    }
}
