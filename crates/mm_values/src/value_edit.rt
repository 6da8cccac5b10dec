//! Edits of the objects, values and URIs of a repository.
ghost use Rattle.std.specs.Prelude.{◌≡◌};

use crate::new_values::NewValues;
use mm_types::{ClassNo, FeatureNo, Few, ObjectNo, Text, Value};

/// One edit. An edit of an object that is not live changes nothing.
#[derive(Debug, Drop)]
pub enum ValueEdit {
    /// Makes an object of a class (EMF: EFactory.create). The number of the object is how many objects were made before, destroyed objects
    /// included.
    NewObject(ClassNo),
    /// Destroys an object. Its number is never given again.
    DropObject(ObjectNo),
    /// Replaces the values that an object has under an attribute, and the set flag of the attribute (EMF: eSet, eUnset).
    PutList {
        object: ObjectNo,
        feature: FeatureNo,
        list: NewValues,
        flag: bool,
    },
    /// Inserts one value into an attribute's list, at an index; if the index is past the end, at the end. `is_unique` says whether the list
    /// is looked up by value again and again. If so, the hashes of a long list are counted: `Values::has` then finds at once that a value
    /// is not there, unless a value with the same hash is there.
    InsertValue {
        object: ObjectNo,
        feature: FeatureNo,
        index: u32,
        value: Value,
        is_unique: bool,
    },
    /// Takes the value at an index out of an attribute's list; if the index is past the end, nothing changes.
    RemoveValue {
        object: ObjectNo,
        feature: FeatureNo,
        index: u32,
    },
    /// Takes the value at `from` out of an attribute's list, and inserts it at the index `to` of the remaining list, or at the end if `to`
    /// is past the end. If the list has no value at `from`, nothing changes.
    MoveValue {
        object: ObjectNo,
        feature: FeatureNo,
        to: u32,
        from: u32,
    },
    /// Makes a resource with a URI (EMF: ResourceSet.createResource); if a resource has this URI already, nothing changes.
    NewUri(Text),
}

/// Edits, which are made in their order.
pub type ValuePlan = Few<ValueEdit>;

impl ValueEdit {
    ghost use Rattle.std.specs.Prelude.{length};
    ghost use Rattle.mm_values.specs.Room.{inserted_in, is_insert, is_insert_at, is_insert_in, is_new_object, is_new_uri, places_taken};

    pub(crate) fn is_new_object(&self) -> bool
        ensures { result ≡ is_new_object self.now }
    {
        matches!(self, ValueEdit::NewObject(_))
    }

    pub(crate) fn is_new_uri(&self) -> bool
        ensures { result ≡ is_new_uri self.now }
    {
        matches!(self, ValueEdit::NewUri(_))
    }

    /// The list into which the edit inserts a value, named by its object and attribute; `None` if the edit is no `InsertValue`.
    pub(crate) fn inserted_in(&self) -> Option<(ObjectNo, FeatureNo)>
        ensures { result ≡ inserted_in self.now }
    {
        match self {
            ValueEdit::InsertValue {
                object,
                feature,
                ..
            } => Some((*object, *feature)),
            _ => None,
        }
    }

    /// Whether the edit inserts a value into a list (`InsertValue`).
    pub(crate) fn is_insert(&self) -> bool
        ensures { result ≡ is_insert self.now }
    {
        self.inserted_in().is_some()
    }

    /// Whether the edit inserts a value into the given list; false if no list is given.
    pub(crate) fn is_insert_in(&self, list: Option<(ObjectNo, FeatureNo)>) -> bool
        ensures { result ≡ is_insert_in list self.now }
    {
        match list {
            Some((object, feature)) => self.is_insert_at(object, feature),
            None => false,
        }
    }

    /// Whether the edit inserts a value into the list that the object `at` has under the attribute `under`.
    pub(crate) fn is_insert_at(&self, at: ObjectNo, under: FeatureNo) -> bool
        ensures { result ≡ is_insert_at at.0 under.0 self.now }
    {
        match self {
            ValueEdit::InsertValue {
                object,
                feature,
                ..
            } => at == *object && under == *feature,
            _ => false,
        }
    }

    /// How much capacity the edit takes in the list that the object `at` has under the attribute `under`: how many values the edit puts or
    /// inserts there.
    pub(crate) fn places_taken(&self, at: ObjectNo, under: FeatureNo) -> usize
        ensures { result ≡ places_taken self.now at.0 under.0 }
    {
        match self {
            ValueEdit::PutList {
                object,
                feature,
                list,
                ..
            } if at == *object && under == *feature => list.len(),
            ValueEdit::InsertValue {
                object,
                feature,
                ..
            } if at == *object && under == *feature => 1,
            _ => 0,
        }
    }
}
