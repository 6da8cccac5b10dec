//! The values of an end.
ghost use Rattle.std.specs.Prelude.{◌≡◌, true, false, ◌+◌, ◌<◌, ◌≤◌, [], ◌++◌, length, slice_get, position, option_and_then, option_copied, IfOk, OnOk};
ghost use Rattle.std.specs.Option.{option_map, option_to_list};
ghost use Rattle.std.specs.List.{insert, remove};
ghost use Rattle.mm_types.specs.Same.{same_value};
ghost use Rattle.slot_lists.specs.Moved.{list_after_move};
ghost use Rattle.links.specs.Links.{object_of, text_of};
ghost use Rattle.end_values.specs.EndValues.{CanHave, is_value, object_value, objects};
ghost use Rattle.end_values.specs.Proxies.{HasNoProxyBefore};

use crate::guesses::{guess_object, guess_value, is_out_of_order};
use crate::labelled_objects::LabelledObjects;
use crate::mixed_list::MixedList;
use index_guesses::is_tried;
use mm_types::{ObjectNo, Value};
use slot_lists::ShortList;
use std::alloc::{AllocError, Global};
use std::marker::Model;
use std::mem;

/// The layout of the values of an end in memory. Most ends have only objects, and each object takes four bytes. Some removals from a long
/// list of objects check the guess at the index of the removed object (`is_tried`). If the guess is wrong, the numbers of the objects
/// neither rise nor fall along the list. The list is then `Shuffled` until `reserve` gives labels to the objects, or `mix` makes the list
/// `Mixed`.
#[derive(Drop)]
enum Layout {
    Objects(ShortList<ObjectNo>),
    Shuffled(ShortList<ObjectNo>),
    Labelled(Box<LabelledObjects>),
    Mixed(Box<MixedList>),
}

/// The values of an end, and capacity for more. A list has only objects until `mix` is called; from then on the list may have other values
/// too.
#[derive(Drop)]
pub struct EndValueList {
    layout: Layout,
}

impl Model for EndValueList {
    ghost use Rattle.end_values.specs.EndValues.{EndValues};

    ghost Value = { EndValues };

    ghost use Rattle.end_values.specs.EndValueList.{end_values_of};

    ghost view = { λ a. end_values_of a.layout };
}

impl EndValueList {
    /// No values. Takes no memory.
    pub fn new() -> Self
        ensures { result.items ≡ [] }
    {
        EndValueList {
            layout: Layout::Objects(ShortList::new()),
        }
    }

    /// How many values there are.
    #[tactic(auto, using(crate::proofs::EndValueLemmas::length_objects))]
    pub fn len(&self) -> usize
        ensures { result ≡ length self.now.items }
    {
        match &self.layout {
            Layout::Objects(list) | Layout::Shuffled(list) => list.len(),
            Layout::Labelled(list) => list.len(),
            Layout::Mixed(list) => list.len(),
        }
    }

    /// How many values may be inserted with no memory taken.
    pub fn spare(&self) -> usize
        ensures { result ≡ self.now.spare }
    {
        match &self.layout {
            Layout::Objects(list) | Layout::Shuffled(list) => list.spare(),
            Layout::Labelled(list) => list.spare(),
            Layout::Mixed(list) => list.spare(),
        }
    }

    /// The object at an index; `None` past the last value, and if the value at the index is no object.
    #[tactic(auto, using(crate::proofs::EndValueLemmas::object_of_objects))]
    pub fn object_at(&self, index: usize) -> Option<ObjectNo>
        ensures { result ≡ option_and_then object_of (slice_get self.now.items index) }
    {
        match &self.layout {
            Layout::Objects(list) | Layout::Shuffled(list) => list.get(index).copied(),
            Layout::Labelled(list) => list.objects().get(index).copied(),
            Layout::Mixed(list) => object_in(list.get(index)),
        }
    }

    /// The text of the proxy at an index; `None` past the last value, and if the value at the index is no proxy.
    #[tactic(auto, using(crate::proofs::EndValueLemmas::text_of_objects))]
    pub fn text_at(&self, index: usize) -> Option<&str>
        ensures { option_copied result ≡ option_and_then text_of (slice_get self.now.items index) }
    {
        match &self.layout {
            Layout::Objects(_) | Layout::Shuffled(_) | Layout::Labelled(_) => None,
            Layout::Mixed(list) => text_in(list.get(index)),
        }
    }

    /// Whether the value at an index is the same as `value`; false past the last value.
    #[tactic(auto, using(crate::proofs::EndValueLemmas::is_value_objects))]
    pub fn is_at(&self, index: usize, value: &Value) -> bool
        ensures { result ≡ is_value value.now (slice_get self.now.items index) }
    {
        match &self.layout {
            Layout::Objects(list) | Layout::Shuffled(list) => is_object(list.get(index), value),
            Layout::Labelled(list) => is_object(list.objects().get(index), value),
            Layout::Mixed(list) => is_there(list.get(index), value),
        }
    }

    /// The index of the first value that is the same as `value`.
    pub fn position(&self, value: &Value) -> Option<usize>
        ensures { result ≡ position (same_value value.now) self.now.items }
    {
        match &self.layout {
            Layout::Objects(list) | Layout::Shuffled(list) => position_in(list, value),
            Layout::Labelled(list) => position_in(list.objects(), value),
            Layout::Mixed(list) => list.position(value),
        }
    }

    /// An index before which there is no proxy; it may be the number of values.
    #[tactic(auto, using(crate::proofs::EndValueLemmas::text_of_objects))]
    pub fn proxy_start(&self) -> usize
        ensures { HasNoProxyBefore result self.now.items }
    {
        match &self.layout {
            Layout::Objects(list) | Layout::Shuffled(list) => list.len(),
            Layout::Labelled(list) => list.len(),
            Layout::Mixed(list) => list.proxy_start(),
        }
    }

    /// A guess at the index of a value of the list. In a list with labels, the guess is right if each object has a label and the labels
    /// rise along the list. In a list with neither labels nor proxies, the guess is right if the numbers of the objects rise or fall along
    /// the list. The guess for a proxy is right if the proxy is the first proxy of the list, and no object comes after this proxy.
    /// Otherwise the guess may be any index, or the number of values.
    pub fn guess(&self, value: &Value) -> usize {
        match (&self.layout, value) {
            (Layout::Objects(list) | Layout::Shuffled(list), Value::Object(object)) => {
                guess_object(list, *object)
            }
            (Layout::Labelled(list), Value::Object(object)) => list.guess(*object),
            (Layout::Mixed(list), _) => guess_value(list, value),
            _ => 0,
        }
    }

    /// Whether a removal found that the numbers of the objects neither rise nor fall along the list, and the objects have no labels yet.
    pub fn needs_labels(&self) -> bool {
        matches!(self.layout, Layout::Shuffled(_))
    }

    /// Turns the list into one that may have other values than objects. Fails only if memory is refused, and then nothing has changed.
    pub fn mix(&mut self, alloc: Global) -> Result<(), AllocError>
        ensures items { self.new.items ≡ self.old.items }
        ensures spare { self.old.spare ≤ self.new.spare }
        ensures mixed { self.old.mixed ≡ true → self.new.mixed ≡ true }
        ensures ok { OnOk result (self.new.mixed ≡ true) }
    {
        match &self.layout {
            Layout::Objects(list) | Layout::Shuffled(list) => {
                let values = values_of(alloc, list)?;
                self.layout = Layout::Mixed(values);
                Ok(())
            }
            Layout::Labelled(list) => {
                let values = values_of(alloc, list.objects())?;
                self.layout = Layout::Mixed(values);
                Ok(())
            }
            Layout::Mixed(_) => Ok(()),
        }
    }

    /// Reserves capacity for `additional` more values. If `needs_labels` is true and there is memory for labels, also gives labels to the
    /// objects. Fails only if memory is refused for the values, and then the values stay and no capacity is lost.
    pub fn reserve(&mut self, alloc: Global, additional: usize) -> Result<(), AllocError>
        ensures items { self.new.items ≡ self.old.items }
        ensures spare { self.old.spare ≤ self.new.spare }
        ensures mixed { self.new.mixed ≡ self.old.mixed }
        ensures ok { OnOk result (additional ≤ self.new.spare) }
    {
        match &mut self.layout {
            Layout::Objects(list) if additional <= list.spare() => Ok(()),
            Layout::Objects(list) => list.reserve(alloc, additional),
            Layout::Shuffled(list) => {
                list.reserve(alloc, additional)?;
                self.label(alloc);
                Ok(())
            }
            Layout::Labelled(list) => list.reserve(alloc, additional),
            Layout::Mixed(list) => list.reserve(additional),
        }
    }

    /// Gives labels to the objects if the list is `Shuffled`. If there is no memory for the labels, nothing changes.
    #[cold]
    fn label(&mut self, alloc: Global)
        ensures items { self.new.items ≡ self.old.items }
        ensures spare { self.old.spare ≤ self.new.spare }
        ensures mixed { self.new.mixed ≡ self.old.mixed }
    {
        if let Layout::Shuffled(list) = &mut self.layout {
            if let Ok(labelled) = LabelledObjects::of(alloc, list) {
                self.layout = Layout::Labelled(labelled);
            }
        }
    }

    /// Inserts a value before the value at an index, or after the last value if the index is the number of values. Needs capacity for the
    /// value, and an earlier call of `mix` if the value is no object. Takes no memory.
    #[tactic(auto, using(crate::proofs::EndValueLemmas::insert_objects, crate::proofs::EndValueLemmas::length_objects))]
    #[inline(always)]
    pub fn insert(&mut self, index: usize, value: Value)
        requires room { 0 < self.old.spare }
        requires in_range { index ≤ length self.old.items }
        requires can { CanHave self.old.mixed value }
        ensures items { self.new.items ≡ insert self.old.items index value }
        ensures spare { self.old.spare ≤ self.new.spare + 1 }
        ensures mixed { self.new.mixed ≡ self.old.mixed }
    {
        match &mut self.layout {
            Layout::Objects(list) => list.insert(index, into_object(value)),
            Layout::Shuffled(list) => list.insert(index, into_object(value)),
            Layout::Labelled(list) => list.insert(index, into_object(value)),
            Layout::Mixed(list) => list.insert(index, value),
        }
    }

    /// Takes out the value at an index. Takes no memory.
    #[tactic(auto, using(crate::proofs::EndValueLemmas::remove_objects, crate::proofs::EndValueLemmas::length_objects))]
    pub fn remove(&mut self, index: usize)
        requires { index < length self.old.items }
        ensures items { self.new.items ≡ remove self.old.items index }
        ensures spare { self.old.spare ≤ self.new.spare }
        ensures mixed { self.new.mixed ≡ self.old.mixed }
    {
        self.try_guess(index);
        match &mut self.layout {
            Layout::Objects(list) => list.remove(index),
            Layout::Shuffled(list) => list.remove(index),
            Layout::Labelled(list) => list.remove(index),
            Layout::Mixed(list) => list.remove(index),
        }
    }

    /// Checks the guess for the object at `index`, just before this object is taken out. Does so only in the layout `Objects`, and only at
    /// some indexes (`is_tried`). If the guess is wrong, the list becomes `Shuffled`, so that `reserve` gives labels to the objects.
    fn try_guess(&mut self, index: usize)
        ensures { self.new ≡ self.old }
    {
        if let Layout::Objects(list) = &mut self.layout {
            if is_tried(index) && is_out_of_order(list, index) {
                let list = mem::replace(list, ShortList::new());
                self.layout = Layout::Shuffled(list);
            }
        }
    }

    /// Moves the value at `from`, so that it is then at `to` (EMF: EList.move). Takes no memory.
    #[tactic(auto, using(crate::proofs::EndValueLemmas::moved_objects, crate::proofs::EndValueLemmas::length_objects))]
    pub fn move_to(&mut self, to: usize, from: usize)
        requires to { to < length self.old.items }
        requires from { from < length self.old.items }
        ensures items { self.new.items ≡ list_after_move self.old.items to from }
        ensures spare { self.new.spare ≡ self.old.spare }
        ensures mixed { self.new.mixed ≡ self.old.mixed }
    {
        match &mut self.layout {
            Layout::Objects(list) => list.move_to(to, from),
            Layout::Shuffled(list) => list.move_to(to, from),
            Layout::Labelled(list) => list.move_to(to, from),
            Layout::Mixed(list) => list.move_to(to, from),
        }
    }
}

fn object_in(value: Option<&Value>) -> Option<ObjectNo>
    ensures { result ≡ option_and_then object_of (option_copied value.entry) }
{
    match value? {
        Value::Object(object) => Some(*object),
        _ => None,
    }
}

fn text_in(value: Option<&Value>) -> Option<&str>
    ensures { option_copied result ≡ option_and_then text_of (option_copied value.entry) }
{
    match value? {
        Value::Proxy(text) => Some(text.as_str()),
        _ => None,
    }
}

/// Whether `there` is a value, and is the same as `value`.
fn is_there(there: Option<&Value>, value: &Value) -> bool
    ensures { result ≡ is_value value.now (option_copied there.entry) }
{
    match there {
        Some(there) => value == there,
        None => false,
    }
}

/// Whether `there` is an object, and `value` is this object.
fn is_object(there: Option<&ObjectNo>, value: &Value) -> bool
    ensures { result ≡ is_value value.now (option_map object_value (option_copied there.entry)) }
{
    match value {
        Value::Object(object) => is_number(there, *object),
        _ => false,
    }
}

fn is_number(there: Option<&ObjectNo>, object: ObjectNo) -> bool
    ensures { result ≡ is_value (object_value object) (option_map object_value (option_copied there.entry)) }
{
    match there {
        Some(there) => object.0 == there.0,
        None => false,
    }
}

/// The object of a value that is an object.
fn into_object(value: Value) -> ObjectNo
    requires { CanHave false value }
    ensures { value ≡ object_value result }
{
    match value {
        Value::Object(object) => object,
        _ => unreachable!(),
    }
}

/// The index of a value in a list of objects; `None` if the value is no object of the list.
fn position_in(list: &ShortList<ObjectNo>, value: &Value) -> Option<usize>
    ensures { result ≡ position (same_value value.now) (objects list.now.items) }
{
    match value {
        Value::Object(object) => list.position(object),
        _ => None,
    }
}

/// A list that has the objects of `list` as values, with at least the capacity of `list` for more. Fails only if memory is refused.
fn values_of(alloc: Global, list: &ShortList<ObjectNo>) -> Result<Box<MixedList>, AllocError>
    ensures items { IfOk result (λ b. b.value.items ≡ objects list.now.items) }
    ensures spare { IfOk result (λ b. list.now.spare ≤ b.value.spare) }
{
    let places = list.len().checked_add(list.spare()).ok_or(AllocError)?;
    let mut values = Box::new(alloc, MixedList::new(alloc))?;
    values.reserve(places)?;
    push_objects(&mut values, list);
    Ok(values)
}

/// Puts the objects of `list` into `values`. `values` has to be empty, and has to have capacity for the objects.
fn push_objects(values: &mut MixedList, list: &ShortList<ObjectNo>)
    requires room { length list.now.items ≤ values.old.spare }
    requires none { values.old.items ≡ [] }
    ensures items { values.new.items ≡ objects list.now.items }
    ensures spare { values.old.spare ≤ values.new.spare + length list.now.items }
{
    for index in 0..list.len() {
        push_object(values, list.get(index));
    }
}

/// Inserts an object after the last value of `values`, if there is an object.
fn push_object(values: &mut MixedList, object: Option<&ObjectNo>)
    requires { 0 < values.old.spare }
    ensures items { values.new.items ≡ values.old.items ++ option_to_list (option_map object_value (option_copied object.entry)) }
    ensures spare { values.old.spare ≤ values.new.spare + 1 }
{
    if let Some(object) = object {
        values.insert(values.len(), Value::Object(*object));
    }
}
