//! What a repository holds besides links.
ghost use Rattle.std.specs.Prelude.{◌≡◌, List, [], ◌∷◌, length, option_and_then, option_copied, option_map, position, slice_get, All, OnErr, OnOk};
ghost use Rattle.mm_types.specs.Same.{same_value};
ghost use Rattle.std.specs.List.{list_any};
ghost use Rattle.mm_values.specs.Room.{capacity_needed};

use crate::counting::{counted, objects_made, places_needed, uris_added};
use crate::list_edit::ListEdit;
use crate::new_values::NewValues;
use crate::objects::Objects;
use crate::uris::Uris;
use crate::value_edit::{ValueEdit, ValuePlan};
use mm_types::{ClassNo, FeatureNo, FewItems, ObjectNo, ResourceNo, Value};
use std::alloc::{AllocError, Global};
use std::slice;

/// The objects of a repository, each with its class and its attribute lists, and the URIs of its resources. Objects and resources are found
/// by their numbers.
#[derive(Drop)]
pub struct Values {
    objects: Objects,
    uris: Uris,
}

impl Values {
    ghost use Rattle.mm_values.specs.Values.{class_of, list_of, flag_of, uri_of, resource_of, values_after_edit, values_after_edits};
    ghost use Rattle.mm_values.specs.Room.{values_of, HasRoom, HasPlaceFor};
    ghost use Rattle.mm_values.specs.Slots.{none_taken, HasPlaceAt, KeepsPlaces};
    ghost use Rattle.mm_values.specs.declared.value_edit.ValueEdit.{ValueEdit};
    ghost use Rattle.mm_values.specs.declared.value_edit.ValueEdit.TheVariants as edit;

    /// No objects and no resources. Takes no memory.
    pub fn new(alloc: Global) -> Self
        ensures { values_of result ≡ record { objects = []; uris = [] } }
    {
        Values {
            objects: Objects::new(alloc),
            uris: Uris::new(alloc),
        }
    }

    /// The number that the next object gets. The number is how many objects were made, destroyed objects included.
    pub fn next(&self) -> usize
        ensures { result ≡ length (values_of self.now).objects }
    {
        self.objects.next()
    }

    /// How many resources there are.
    pub fn resources(&self) -> usize
        ensures { result ≡ length (values_of self.now).uris }
    {
        self.uris.len()
    }

    /// The class of an object (EMF: EObject.eClass); `None` if no live object has the number.
    pub fn class(&self, object: ObjectNo) -> Option<ClassNo>
        ensures { result ≡ class_of (values_of self.now) object }
    {
        self.objects.class(object)
    }

    /// How many values an object has under an attribute (EMF: eGet); `None` if no live object has the number.
    pub fn len(&self, object: ObjectNo, feature: FeatureNo) -> Option<usize>
        ensures { result ≡ option_map length (list_of (values_of self.now) object feature) }
    {
        match self.objects.list(object, feature)? {
            Some(list) => Some(list.len()),
            None => Some(0),
        }
    }

    /// The value that an object has under an attribute at an index; `None` if the index is past the end, or if no live object has the
    /// number.
    pub fn at(&self, object: ObjectNo, feature: FeatureNo, index: usize) -> Option<&Value>
        ensures { option_copied result ≡ option_and_then (λ vs. slice_get vs index) (list_of (values_of self.now) object feature) }
    {
        match self.objects.list(object, feature)? {
            Some(list) => list.get(index),
            None => None,
        }
    }

    /// The first index of a value among the values of an object under an attribute; `None` if the value is not there, or if no live object
    /// has the number.
    pub fn position(&self, object: ObjectNo, feature: FeatureNo, value: &Value) -> Option<usize>
        ensures { result ≡ option_and_then (position (same_value value.now)) (list_of (values_of self.now) object feature) }
    {
        match self.objects.list(object, feature)? {
            Some(list) => list.position(value),
            None => None,
        }
    }

    /// Whether an object has a value under an attribute; `None` if no live object has the number. The hashes of a list are counted if the
    /// list has more than 64 values, and its values were inserted with `is_unique`. Then, if no value of the list has the hash of the given
    /// value, `has` takes constant time, whatever the list's length.
    pub fn has(&self, object: ObjectNo, feature: FeatureNo, value: &Value) -> Option<bool>
        ensures { result ≡ option_map (list_any (same_value value.now)) (list_of (values_of self.now) object feature) }
    {
        match self.objects.list(object, feature)? {
            Some(list) => Some(list.has(value)),
            None => Some(false),
        }
    }

    /// The set flag of an attribute, which was put with the attribute's values (EMF: eIsSet); false if nothing was put; `None` if no live
    /// object has the number.
    pub fn flag(&self, object: ObjectNo, feature: FeatureNo) -> Option<bool>
        ensures { result ≡ flag_of (values_of self.now) object feature }
    {
        self.objects.flag(object, feature)
    }

    /// The URI of a resource (EMF: Resource.getURI); `None` if no resource has the number.
    pub fn uri(&self, resource: ResourceNo) -> Option<&str>
        ensures { option_copied result ≡ uri_of (values_of self.now) resource }
    {
        self.uris.get(resource)
    }

    /// The resource that has a URI (EMF: ResourceSet.getResource); `None` if no resource has the URI.
    pub fn resource_of(&self, uri: &str) -> Option<ResourceNo>
        ensures { result ≡ resource_of (values_of self.now) uri.now }
    {
        self.uris.find(uri)
    }

    /// Takes all the memory that a plan needs. Fails only if memory is refused, or if the resources and the `NewUri` edits of the plan
    /// together are more than 2^32. `apply` may be called with the plan only if the result is `Ok`. Nothing that contracts see changes,
    /// whatever the result.
    pub fn reserve_for(&mut self, plan: &ValuePlan) -> Result<(), AllocError>
        ensures unchanged { values_of self.new ≡ values_of self.old }
        ensures ok { OnOk result (HasRoom self.new plan.now) }
    {
        self.reserve_edits(plan.as_slice())
    }

    /// Takes all the memory that the given edits need. Fails as `reserve_for` does. Nothing that contracts see changes.
    fn reserve_edits(&mut self, edits: &[ValueEdit]) -> Result<(), AllocError>
        ensures unchanged { values_of self.new ≡ values_of self.old }
        ensures ok { OnOk result (HasRoom self.new edits.now) }
    {
        let new_objects = objects_made(edits);
        self.objects.reserve(new_objects)?;
        self.make_places(edits)?;
        let new_uris = uris_added(edits);
        if new_uris == 0 {
            return Ok(());
        }
        self.uris.reserve(new_uris)
    }

    /// Makes the edits of a plan, in their order. Takes no memory.
    pub fn apply(&mut self, plan: ValuePlan)
        requires { HasRoom self.old plan }
        ensures { values_of self.new ≡ values_after_edits (values_of self.old) plan }
    {
        match plan.into_items() {
            FewItems::One(edit) => self.apply_edit(edit),
            FewItems::Many(edits) => self.apply_all(edits),
        }
    }

    /// Takes the memory that a plan needs, and makes its edits. Fails only if memory is refused, or if the resources and the `NewUri` edits
    /// of the plan together are more than 2^32. If it fails, nothing that contracts see has changed. For a plan that was made from one
    /// `NewObject` or `PutList` edit by `ValuePlan::one`, `try_apply` is faster than `reserve_for` and `apply`.
    pub fn try_apply(&mut self, plan: ValuePlan) -> Result<(), AllocError>
        ensures ok { OnOk result (values_of self.new ≡ values_after_edits (values_of self.old) plan) }
        ensures err { OnErr result (values_of self.new ≡ values_of self.old) }
    {
        match plan.into_items() {
            FewItems::One(edit) => self.try_edit(edit),
            FewItems::Many(edits) => self.try_all(edits),
        }
    }

    /// Takes the memory that an edit needs, and makes the edit. Fails only if memory is refused, or if the edit is `NewUri` and there are
    /// 2^32 resources already. If it fails, nothing that contracts see has changed.
    fn try_edit(&mut self, edit: ValueEdit) -> Result<(), AllocError>
        ensures ok { OnOk result (values_of self.new ≡ values_after_edit (values_of self.old) edit) }
        ensures err { OnErr result (values_of self.new ≡ values_of self.old) }
    {
        match edit {
            ValueEdit::NewObject(class) => self.try_create(class),
            ValueEdit::PutList {
                object,
                feature,
                list,
                flag,
            } => self.try_put(object, feature, list, flag),
            edit => self.try_any(edit),
        }
    }

    /// Makes an object of a class, as `ValueEdit::NewObject` does. Fails only if memory is refused, and then nothing that contracts see has
    /// changed.
    pub fn try_create(&mut self, class: ClassNo) -> Result<(), AllocError>
        ensures ok { OnOk result (values_of self.new ≡ values_after_edit (values_of self.old) (edit.NewObject class)) }
        ensures err { OnErr result (values_of self.new ≡ values_of self.old) }
    {
        self.objects.create(class)
    }

    /// Replaces the values and the set flag that an object has under an attribute, as `ValueEdit::PutList` does. Fails only if memory is
    /// refused, and then nothing that contracts see has changed. Most changes of values are one `PutList` edit, and to make a plan for such
    /// an edit would take longer than to make the edit.
    pub fn try_put(
        &mut self,
        object: ObjectNo,
        feature: FeatureNo,
        values: NewValues,
        flag: bool,
    ) -> Result<(), AllocError>
        ensures ok { OnOk result (values_of self.new ≡ values_after_edit (values_of self.old) (edit.PutList object feature values flag)) }
        ensures err { OnErr result (values_of self.new ≡ values_of self.old) }
    {
        self.objects.set(object, feature, values, flag)
    }

    /// Reserves capacity for an edit, as for a plan with only this edit, and then makes the edit. Fails as `try_edit` does.
    fn try_any(&mut self, edit: ValueEdit) -> Result<(), AllocError>
        ensures ok { OnOk result (values_of self.new ≡ values_after_edit (values_of self.old) edit) }
        ensures err { OnErr result (values_of self.new ≡ values_of self.old) }
    {
        self.reserve_edits(slice::from_ref(&edit))?;
        self.apply_edit(edit);
        Ok(())
    }

    /// Reserves capacity for all the given edits, and then makes them in their order. Fails as `try_apply` does.
    fn try_all(&mut self, edits: Vec<ValueEdit>) -> Result<(), AllocError>
        ensures ok { OnOk result (values_of self.new ≡ values_after_edits (values_of self.old) edits.items) }
        ensures err { OnErr result (values_of self.new ≡ values_of self.old) }
    {
        self.reserve_edits(&edits)?;
        self.apply_all(edits);
        Ok(())
    }

    /// Makes edits, in their order.
    fn apply_all(&mut self, edits: Vec<ValueEdit>)
        requires { HasRoom self.old edits.items }
        ensures { values_of self.new ≡ values_after_edits (values_of self.old) edits.items }
    {
        for edit in edits {
            self.apply_edit(edit);
        }
    }

    /// Makes one edit, and keeps the capacity that was reserved for the edits after it.
    fn apply_edit(&mut self, edit: ValueEdit)
        requires { HasRoom self.old (edit ∷ []) }
        ensures edited { values_of self.new ≡ values_after_edit (values_of self.old) edit }
        ensures room { (rest : List ValueEdit) → HasRoom self.old (edit ∷ rest) → HasRoom self.new rest }
    {
        match edit {
            ValueEdit::NewObject(class) => self.objects.add(class),
            ValueEdit::DropObject(object) => self.objects.remove(object),
            ValueEdit::PutList {
                object,
                feature,
                list,
                flag,
            } => self.objects.put(object, feature, list, flag),
            ValueEdit::InsertValue {
                object,
                feature,
                index,
                value,
                ..
            } => self
                .objects
                .change(object, feature, ListEdit::Insert { index, value }),
            ValueEdit::RemoveValue {
                object,
                feature,
                index,
            } => self
                .objects
                .change(object, feature, ListEdit::Remove { index }),
            ValueEdit::MoveValue {
                object,
                feature,
                to,
                from,
            } => self
                .objects
                .change(object, feature, ListEdit::Move { to, from }),
            ValueEdit::NewUri(uri) => self.uris.add(uri),
        }
    }

    /// Prepares the lists that the edits put or change, each list as `make_place_for` does.
    fn make_places(&mut self, edits: &[ValueEdit]) -> Result<(), AllocError>
        ensures unchanged { values_of self.new ≡ values_of self.old }
        ensures next { self.new.objects.next ≡ self.old.objects.next }
        ensures slots { length self.new.objects.lists ≡ length self.old.objects.lists }
        ensures ok { OnOk result (All (HasPlaceFor self.new.objects edits.now) edits.now) }
    {
        let plan = counted(edits);
        let mut made = None;
        for edit in edits {
            // Of consecutive inserts into one list, the first reserves for all.
            if edit.is_insert_in(made) {
                continue;
            }
            self.make_place_for(edit, plan)?;
            made = edit.inserted_in();
        }
        Ok(())
    }

    /// Prepares the list that an edit of a plan puts or changes. For a put or an insert, makes an entry for the list, if the attribute has
    /// none, and reserves the capacity that the plan needs in the list (`places_needed`). For a removal or a move in a list that is longer
    /// than one piece, moves the list into pieces, so that the edit is fast.
    fn make_place_for(&mut self, edit: &ValueEdit, plan: &[ValueEdit]) -> Result<(), AllocError>
        ensures unchanged { values_of self.new ≡ values_of self.old }
        ensures next { self.new.objects.next ≡ self.old.objects.next }
        ensures kept { KeepsPlaces none_taken self.old.objects self.new.objects }
        ensures ok { OnOk result (HasPlaceFor self.new.objects plan.now edit.now) }
    {
        match edit {
            ValueEdit::PutList {
                object,
                feature,
                ..
            } => self.make_list(*object, *feature, plan, false),
            ValueEdit::InsertValue {
                object,
                feature,
                is_unique,
                ..
            } => self.make_list(*object, *feature, plan, *is_unique),
            ValueEdit::RemoveValue {
                object,
                feature,
                ..
            } => self.objects.make_pieces(*object, *feature),
            ValueEdit::MoveValue {
                object,
                feature,
                ..
            } => self.objects.make_pieces(*object, *feature),
            ValueEdit::NewObject(_) | ValueEdit::DropObject(_) | ValueEdit::NewUri(_) => Ok(()),
        }
    }

    /// Makes an entry for the list that an object has under an attribute, if the attribute has none, and reserves the capacity that a plan
    /// needs in the list (`places_needed`).
    fn make_list(
        &mut self,
        object: ObjectNo,
        feature: FeatureNo,
        plan: &[ValueEdit],
        is_asked: bool,
    ) -> Result<(), AllocError>
        ensures unchanged { values_of self.new ≡ values_of self.old }
        ensures next { self.new.objects.next ≡ self.old.objects.next }
        ensures kept { KeepsPlaces none_taken self.old.objects self.new.objects }
        ensures ok { OnOk result (HasPlaceAt self.new.objects object.0 feature.0 (capacity_needed plan.now object.0 feature.0)) }
    {
        let places = places_needed(plan, object, feature)?;
        self.objects.make_place(object, feature, places, is_asked)
    }
}
