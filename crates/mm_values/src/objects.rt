//! The objects of a repository, each found by its number.
ghost use Rattle.std.specs.Prelude.{◌≡◌, ◌+◌, ◌<◌, ◌≤◌, [], length, option_copied, OnOk, OnErr};
ghost use Rattle.std.specs.Option.{option_map};
ghost use Rattle.mm_values.specs.ListEdits.{list_after_edit, list_edit_capacity};
ghost use Rattle.mm_values.specs.Attributes.{stored_in};
ghost use Rattle.mm_values.specs.Slots.{objects_of, none_taken, taken_at, HasPlaceAt, IsReadyAt, KeepsPlaces};
ghost use Rattle.mm_values.specs.Stored.{items_of};
ghost use Rattle.mm_values.specs.Values.{object_at, stored_under, with_changed, with_object, without_object, with_list};

use crate::attribute_lists::AttributeLists;
use crate::list_edit::ListEdit;
use crate::new_values::NewValues;
use mm_types::{ClassNo, FeatureNo, ObjectNo};
use std::alloc::{AllocError, Global};
use std::marker::Model;
use value_lists::ValueList;

/// The objects of a repository, in two columns. At the index that is an object's number, the column `classes` has the object's class
/// (`None` if the object is not live), and the column `lists` has the object's attribute lists. With two columns, a look-up of a class
/// reads no attribute lists. `next` is how many objects were made; the entries of the columns from the index `next` on are reserved for new
/// objects.
#[derive(Drop)]
pub(crate) struct Objects {
    classes: Vec<Option<ClassNo>>,
    lists: Vec<AttributeLists>,
    next: usize,
}

impl Model for Objects {
    ghost use Rattle.mm_values.specs.Slots.{Slots, IsReady};

    ghost Value = { Slots };

    ghost view = { λ a. record { classes = a.classes.items; lists = a.lists.items; next = a.next } };

    ghost invariant = { λ a. IsReady (record { classes = a.classes.items; lists = a.lists.items; next = a.next }) };
}

impl Objects {
    /// No objects. Takes no memory.
    pub fn new(alloc: Global) -> Self
        ensures none { objects_of result ≡ [] }
        ensures no_slots { result.lists ≡ [] }
    {
        Objects {
            classes: Vec::new(alloc),
            lists: Vec::new(alloc),
            next: 0,
        }
    }

    /// How many objects were made, destroyed objects included.
    pub fn next(&self) -> usize
        ensures made { result ≡ length (objects_of self.now) }
        ensures next { result ≡ self.now.next }
    {
        self.next
    }

    /// The class and the attribute lists of a live object; `None` if no live object has the number.
    fn live(&self, object: ObjectNo) -> Option<(ClassNo, &AttributeLists)>
        ensures { object_at (objects_of self.now) object ≡ option_map (λ p. record { class = p.0; stored = stored_in p.1.now }) result }
    {
        let index = object.0 as usize;
        if index >= self.next {
            return None;
        }
        let class = self.classes[index]?;
        Some((class, &self.lists[index]))
    }

    /// The class of a live object; `None` if no live object has the number.
    pub fn class(&self, object: ObjectNo) -> Option<ClassNo>
        ensures { result ≡ option_map (λ s. s.class) (object_at (objects_of self.now) object) }
    {
        let (class, _) = self.live(object)?;
        Some(class)
    }

    /// The list that a live object has under an attribute: `Some(None)` if the attribute has no entry, `None` if no live object has the
    /// number.
    pub fn list(&self, object: ObjectNo, feature: FeatureNo) -> Option<Option<&ValueList>>
        ensures { option_map (λ l. items_of (option_copied l)) result ≡ option_map (λ s. (stored_under s feature).list) (object_at (objects_of self.now) object) }
    {
        let (_, lists) = self.live(object)?;
        Some(lists.list(feature))
    }

    /// The set flag that a live object has for an attribute; `None` if no live object has the number.
    pub fn flag(&self, object: ObjectNo, feature: FeatureNo) -> Option<bool>
        ensures { result ≡ option_map (λ s. (stored_under s feature).flag) (object_at (objects_of self.now) object) }
    {
        let (_, lists) = self.live(object)?;
        Some(lists.flag(feature))
    }

    /// Adds to each column one entry, which is ready for a new object. Fails only if memory is refused, and then nothing has changed.
    fn add_slot(&mut self) -> Result<(), AllocError>
        ensures objects { objects_of self.new ≡ objects_of self.old }
        ensures next { self.new.next ≡ self.old.next }
        ensures ok { OnOk result (length self.new.lists ≡ length self.old.lists + 1) }
        ensures err { OnErr result (self.new ≡ self.old) }
    {
        let alloc = *self.lists.allocator();
        self.classes.reserve(1)?;
        self.lists.push(AttributeLists::new(alloc))?;
        self.classes.push_reserved(None);
        Ok(())
    }

    /// How many objects can be made without taking memory.
    pub fn ready(&self) -> usize
        ensures { result + self.now.next ≡ length self.now.lists }
    {
        self.lists.len() - self.next
    }

    /// Makes sure that the columns have entries that are ready for `additional` new objects. Fails only if memory is refused.
    pub fn reserve(&mut self, additional: usize) -> Result<(), AllocError>
        ensures objects { objects_of self.new ≡ objects_of self.old }
        ensures ok { OnOk result (self.new.next + additional ≤ length self.new.lists) }
    {
        for _have in self.ready()..additional {
            self.add_slot()?;
        }
        Ok(())
    }

    /// Makes an entry for an attribute of an object, if the attribute has none, and reserves capacity for `additional` more values in the
    /// list of that entry. The number `object` may be the number of a live object, or a number that is reserved for a new object. For any
    /// other number nothing changes. `is_asked` says whether the list is looked up by value. Fails only if memory is refused.
    pub fn make_place(
        &mut self,
        object: ObjectNo,
        feature: FeatureNo,
        additional: usize,
        is_asked: bool,
    ) -> Result<(), AllocError>
        ensures objects { objects_of self.new ≡ objects_of self.old }
        ensures next { self.new.next ≡ self.old.next }
        ensures kept { KeepsPlaces none_taken self.old self.new }
        ensures ok { OnOk result (HasPlaceAt self.new object.0 feature.0 additional) }
    {
        let index = object.0 as usize;
        if index >= self.lists.len() {
            return Ok(());
        }
        if index < self.next && self.classes[index].is_none() {
            return Ok(());
        }
        self.lists[index].make_place(feature, additional, is_asked)
    }

    /// If the list that an object has under an attribute is longer than one piece, moves the list into pieces, so that edits of the list
    /// are fast. Fails only if memory is refused.
    pub fn make_pieces(&mut self, object: ObjectNo, feature: FeatureNo) -> Result<(), AllocError>
        ensures objects { objects_of self.new ≡ objects_of self.old }
        ensures next { self.new.next ≡ self.old.next }
        ensures kept { KeepsPlaces none_taken self.old self.new }
    {
        let index = object.0 as usize;
        if index >= self.next {
            return Ok(());
        }
        self.lists[index].make_pieces(feature)
    }

    /// Makes an object of a class. The entries for the object, at the index `next` of the columns, have to be ready. Takes no memory.
    pub fn add(&mut self, class: ClassNo)
        requires { self.old.next < length self.old.lists }
        ensures objects { objects_of self.new ≡ with_object (objects_of self.old) class }
        ensures next { self.new.next ≡ self.old.next + 1 }
        ensures kept { KeepsPlaces none_taken self.old self.new }
    {
        self.classes[self.next] = Some(class);
        self.next += 1;
    }

    /// Destroys an object, and frees its values. If no live object has the number, nothing changes.
    pub fn remove(&mut self, object: ObjectNo)
        ensures objects { objects_of self.new ≡ without_object (objects_of self.old) object }
        ensures next { self.new.next ≡ self.old.next }
        ensures kept { KeepsPlaces none_taken self.old self.new }
    {
        let index = object.0 as usize;
        if index < self.next {
            let alloc = *self.lists.allocator();
            self.classes[index] = None;
            self.lists[index] = AttributeLists::new(alloc);
        }
    }

    /// Replaces the list and the set flag that an object has under an attribute. The attribute must have an entry. If no live object has
    /// the number, nothing changes. Takes no memory.
    pub fn put(&mut self, object: ObjectNo, feature: FeatureNo, list: NewValues, flag: bool)
        requires { HasPlaceAt self.old object.0 feature.0 0 }
        ensures objects { objects_of self.new ≡ with_list (objects_of self.old) object feature (record { list = list; flag = flag }) }
        ensures next { self.new.next ≡ self.old.next }
        ensures kept { KeepsPlaces (taken_at object feature (length list)) self.old self.new }
    {
        let index = object.0 as usize;
        if index < self.next && self.classes[index].is_some() {
            self.lists[index].put(feature, list, flag);
        }
    }

    /// Makes an object of a class. Fails only if memory is refused, and then nothing that contracts see has changed.
    pub fn create(&mut self, class: ClassNo) -> Result<(), AllocError>
        ensures ok { OnOk result (objects_of self.new ≡ with_object (objects_of self.old) class) }
        ensures err { OnErr result (objects_of self.new ≡ objects_of self.old) }
    {
        self.reserve(1)?;
        self.add(class);
        Ok(())
    }

    /// Replaces the list and the set flag that an object has under an attribute. If no live object has the number, nothing changes. Fails
    /// only if memory is refused, and then nothing that contracts see has changed.
    pub fn set(
        &mut self,
        object: ObjectNo,
        feature: FeatureNo,
        list: NewValues,
        flag: bool,
    ) -> Result<(), AllocError>
        ensures ok { OnOk result (objects_of self.new ≡ with_list (objects_of self.old) object feature (record { list = list; flag = flag })) }
        ensures err { OnErr result (objects_of self.new ≡ objects_of self.old) }
    {
        let index = object.0 as usize;
        if index < self.next && self.classes[index].is_some() {
            return self.lists[index].set(feature, list, flag);
        }
        Ok(())
    }

    /// Makes an edit of the list that an object has under an attribute; the set flag stays as it is. If no live object has the number,
    /// nothing changes. Takes no memory.
    pub fn change(&mut self, object: ObjectNo, feature: FeatureNo, edit: ListEdit)
        requires { IsReadyAt self.old object.0 feature.0 edit }
        ensures objects { objects_of self.new ≡ with_changed (objects_of self.old) object feature (list_after_edit edit) }
        ensures next { self.new.next ≡ self.old.next }
        ensures kept { KeepsPlaces (taken_at object feature (list_edit_capacity edit)) self.old self.new }
    {
        let index = object.0 as usize;
        if index < self.next && self.classes[index].is_some() {
            self.lists[index].change(feature, edit);
        }
    }
}
