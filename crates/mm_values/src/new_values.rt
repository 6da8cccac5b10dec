//! The values that an edit puts under an attribute.
ghost use Rattle.std.specs.Prelude.{◌≡◌, ◌≤◌, ◌+◌, length};

use mm_types::{Few, FewItems, Value};
use std::alloc::Global;
use value_lists::ValueList;

/// The values with which an edit replaces other values.
pub type NewValues = Few<Value>;

/// A list of the values. Takes no memory.
pub(crate) fn list_of(values: NewValues) -> ValueList
    ensures { result.items ≡ values }
{
    match values.into_items() {
        FewItems::One(value) => ValueList::of_one(value),
        FewItems::Many(values) => ValueList::from_vec(values),
    }
}

/// Replaces the values of `list` by `values`. Takes no memory.
pub(crate) fn put_in(values: NewValues, alloc: Global, list: &mut ValueList)
    ensures items { list.new.items ≡ values }
    ensures spare { list.old.spare ≤ list.new.spare + length values }
{
    match values.into_items() {
        FewItems::One(value) => list.replace_by_one(alloc, value),
        FewItems::Many(values) => list.replace(values),
    }
}
