//! The values of an end that may have proxies.
ghost use Rattle.std.specs.Prelude.{◌≡◌, ◌+◌, ◌<◌, ◌≤◌, false, List, [], length, slice_get, position, option_copied, OnOk};
ghost use Rattle.std.specs.List.{insert, remove};
ghost use Rattle.std.specs.Option.{option_map_or};
ghost use Rattle.mm_types.specs.Same.{same_value};
ghost use Rattle.slot_lists.specs.Moved.{list_after_move};
ghost use Rattle.mm_types.specs.declared.value.Value.{Value as AnyValue};
ghost use Rattle.end_values.specs.Proxies as proxies;

use mm_types::Value;
use slot_lists::SlotList;
use std::alloc::{AllocError, Global};
use std::marker::Model;

/// A list of values, and `start`, an index before which there is no proxy. A search for a proxy begins at `start`. If the list has a proxy,
/// `start` is the index of the first proxy until a value is removed or moved. If no object is between the proxies, `start` also stays the
/// index of the first proxy while the proxies are resolved in the order of the list. After other removals and after moves, the first proxy
/// may come after `start`.
#[derive(Drop)]
pub(crate) struct MixedList {
    values: SlotList<Value>,
    start: usize,
}

impl Model for MixedList {
    ghost use Rattle.slot_lists.specs.Places.{Places};
    ghost use Rattle.mm_types.specs.declared.value.Value.{Value as AnyValue};

    ghost Value = { Places AnyValue };

    ghost view = { λ a. a.values };

    ghost use Rattle.end_values.specs.Proxies.{HasNoProxyBefore};

    ghost invariant = { λ a. HasNoProxyBefore a.start a.values.items };
}

impl MixedList {
    /// No values. Takes no memory.
    pub fn new(alloc: Global) -> Self
        ensures { result.items ≡ [] }
    {
        MixedList {
            values: SlotList::new(alloc),
            start: 0,
        }
    }

    /// How many values there are.
    pub fn len(&self) -> usize
        ensures { result ≡ length self.now.items }
    {
        self.values.len()
    }

    /// How many values may be inserted with no memory taken.
    pub fn spare(&self) -> usize
        ensures { result ≡ self.now.spare }
    {
        self.values.spare()
    }

    /// The value at an index; `None` past the last value.
    pub fn get(&self, index: usize) -> Option<&Value>
        ensures { option_copied result ≡ slice_get self.now.items index }
    {
        self.values.get(index)
    }

    /// The index of the first value that is the same as `value`.
    pub fn position(&self, value: &Value) -> Option<usize>
        ensures { result ≡ position (same_value value.now) self.now.items }
    {
        self.values.position(value)
    }

    /// An index before which there is no proxy; it may be the number of values.
    pub fn proxy_start(&self) -> usize
        ensures { proxies.HasNoProxyBefore result self.now.items }
    {
        self.start
    }

    /// Reserves capacity for `additional` more values. Fails only if memory is refused, and then the values stay and no capacity is lost.
    pub fn reserve(&mut self, additional: usize) -> Result<(), AllocError>
        ensures items { self.new.items ≡ self.old.items }
        ensures spare { self.old.spare ≤ self.new.spare }
        ensures ok { OnOk result (additional ≤ self.new.spare) }
    {
        self.values.reserve(additional)
    }

    /// Inserts a value before the value at an index, or after the last value if the index is the number of values. Needs capacity for the
    /// value. Takes no memory.
    pub fn insert(&mut self, index: usize, value: Value)
        requires room { 0 < self.old.spare }
        requires in_range { index ≤ length self.old.items }
        ensures items { self.new.items ≡ insert self.old.items index value }
        ensures spare { self.old.spare ≤ self.new.spare + 1 }
    {
        self.start = start_after_insert(self.start, index, is_proxy(&value));
        match self.values.insert(index, value) {
            Ok(()) => {}
            Err(_) => unreachable!(),
        }
    }

    /// Takes out the value at an index. Takes no memory.
    pub fn remove(&mut self, index: usize)
        requires { index < length self.old.items }
        ensures items { self.new.items ≡ remove self.old.items index }
        ensures spare { self.old.spare ≤ self.new.spare }
    {
        self.start = start_after_remove(self.start, index);
        self.values.remove(index);
    }

    /// Moves the value at `from`, so that it is then at `to` (EMF: EList.move). Takes no memory.
    pub fn move_to(&mut self, to: usize, from: usize)
        requires to { to < length self.old.items }
        requires from { from < length self.old.items }
        ensures items { self.new.items ≡ list_after_move self.old.items to from }
        ensures spare { self.new.spare ≡ self.old.spare }
    {
        let is_proxy = is_proxy_there(self.values.get(from));
        self.start = start_after_insert(start_after_remove(self.start, from), to, is_proxy);
        self.values.move_to(to, from);
    }
}

/// Whether a value is a proxy.
fn is_proxy(value: &Value) -> bool
    ensures { result ≡ proxies.is_proxy value.now }
{
    matches!(value, Value::Proxy(_))
}

/// Whether `there` is a value, and this value is a proxy.
fn is_proxy_there(there: Option<&Value>) -> bool
    ensures { result ≡ option_map_or proxies.is_proxy (option_copied there.entry) false }
{
    match there {
        Some(value) => is_proxy(value),
        None => false,
    }
}

/// The new `start` of a list into which a value is inserted at `index`; `is_proxy` says whether the value is a proxy. If no proxy is before
/// the old `start` in the old list, no proxy is before the new `start` in the new list.
fn start_after_insert(start: usize, index: usize, is_proxy: bool) -> usize
    ensures { (vs : List AnyValue) (v : AnyValue) → index ≤ length vs → proxies.is_proxy v ≡ is_proxy → proxies.HasNoProxyBefore start vs → proxies.HasNoProxyBefore result (insert vs index v) }
{
    if is_proxy {
        return start.min(index);
    }
    if index <= start {
        return start.saturating_add(1);
    }
    start
}

/// The new `start` of a list from which the value at `index` is taken out. If no proxy is before the old `start` in the old list, no proxy
/// is before the new `start` in the new list.
fn start_after_remove(start: usize, index: usize) -> usize
    ensures { (vs : List AnyValue) → proxies.HasNoProxyBefore start vs → proxies.HasNoProxyBefore result (remove vs index) }
{
    if index < start { start - 1 } else { start }
}
