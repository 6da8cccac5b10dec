//! The values at the positions of ends.
ghost use Rattle.std.specs.Prelude.{◌≡◌, ◌<◌, ◌&&◌, ℕ, false, true, None, Some, length, option_and_then, option_map, option_copied, slice_get, unwrap_or, IfOk};
ghost use Rattle.mm_types.specs.Ends.{first_in, has_value};
ghost use Rattle.std.specs.Option.{option_map_or};
ghost use Rattle.mm_types.specs.Same.{is_nil, same_value};
ghost use Rattle.mm_types.specs.Shapes.{shape};
ghost use Rattle.mm_types.specs.declared.value.Value.TheVariants as value;
ghost use Rattle.links.specs.Links.{text_of};
ghost use Rattle.mm_values.specs.Room.{values_of};
ghost use Rattle.models.specs.Found.{found_value};
ghost use Rattle.models.specs.Legal.{takes_proxies};
ghost use Rattle.models.specs.Model.{attribute_values, kept_values, reading};
ghost use Rattle.models.specs.Reading as r;

use crate::model_ref::ModelRef;
use crate::reads::{Found, copied, found_kept, found_proxy, kept_at, kept_len};
use links::LinkStore;
use mm_meta::Meta;
use mm_types::{End, FeatureNo, Node, ObjectNo, Seq, Value};
use mm_values::Values;
use std::alloc::{AllocError, Global};

impl<'a, L: LinkStore> ModelRef<'a, L> {
    /// How many values an end has. A single attribute always has one: the value that is stored, or else the default.
    pub fn len(&self, end: End) -> u32
        ensures { result ≡ length ((reading self.now).values end) }
    {
        self.lemma_is_legal();
        if self.meta().is_reference(end.feature) {
            return self.store().len(end) as u32;
        }
        attribute_len(self.meta(), self.values(), end) as u32
    }

    /// The value at a position of an end; `None` past the last position.
    pub fn value_in(&self, end: End, index: u32) -> Option<Found<'a>>
        ensures { option_map found_value result ≡ slice_get ((reading self.now).values end) index }
    {
        if self.meta().is_reference(end.feature) {
            return self.target_in(end, index);
        }
        let (meta, values) = (self.meta(), self.values());
        found_kept(attribute_value_in(meta, values, end, index as usize))
    }

    /// The value at a position of a reference: an object, or the text of a proxy; `None` past the last position.
    pub(crate) fn target_in(&self, end: End, index: u32) -> Option<Found<'a>>
        requires reference { (shape self.now.metamodel end.feature).is_reference ≡ true }
        ensures { option_map found_value result ≡ slice_get ((reading self.now).values end) index }
    {
        self.lemma_is_legal();
        match self.store().at(end, index) {
            Some(object) => Some(Found::Object(object)),
            None => found_proxy(self.store().proxy_at(end, index)),
        }
    }

    /// The object at a position of a reference; `None` past the last position, and if a proxy is there.
    pub fn object_in(&self, end: End, index: u32) -> Option<ObjectNo>
        requires reference { (shape self.now.metamodel end.feature).is_reference ≡ true }
        ensures object { result ≡ option_and_then r.object_of (slice_get ((reading self.now).values end) index) }
        ensures objects { takes_proxies (shape self.now.metamodel end.feature) ≡ false → option_map value.Object result ≡ slice_get ((reading self.now).values end) index }
    {
        self.lemma_is_legal();
        self.store().at(end, index)
    }

    /// A position of an end before which there is no proxy; this may be the position after the last value. A search for a proxy can begin
    /// there.
    pub fn proxy_start(&self, end: End) -> u32
        ensures { (k : ℕ) → k < result → option_and_then text_of (slice_get ((reading self.now).values end) k) ≡ None }
    {
        self.lemma_is_legal();
        if self.meta().is_reference(end.feature) {
            let store = self.store();
            return store.proxy_start(end).min(store.len(end)) as u32;
        }
        0
    }

    /// Whether `value` is at the position `index` of a reference.
    fn has_target(&self, end: End, index: u32, value: &Value) -> bool
        requires reference { (shape self.now.metamodel end.feature).is_reference ≡ true }
        ensures { result ≡ option_map_or (same_value value.now) (slice_get ((reading self.now).values end) index) false }
    {
        match self.target_in(end, index) {
            Some(found) => found.is(value),
            None => false,
        }
    }

    /// The first position of a value in a reference; `None` if the value is not there. Looks at the positions one after another, from the
    /// first one on.
    fn target_position(&self, end: End, value: &Value) -> Option<u32>
        requires reference { (shape self.now.metamodel end.feature).is_reference ≡ true }
        ensures { result ≡ first_in ((reading self.now).values end) value.now }
    {
        self.lemma_is_legal();
        'positions: for index in 0..self.len(end) {
            if self.has_target(end, index, value) {
                return Some(index);
            }
        }
        None
    }

    /// The first position of a value at an end; `None` if the value is not there.
    pub fn position(&self, end: End, value: &Value) -> Option<u32>
        ensures { result ≡ first_in ((reading self.now).values end) value.now }
    {
        self.lemma_is_legal();
        if self.meta().is_reference(end.feature) {
            return match value {
                Value::Object(object) => self.store().position(end, *object),
                Value::Proxy(_) => self.target_position(end, value),
                _ => None,
            };
        }
        let index = attribute_position(self.meta(), self.values(), end, value)?;
        Some(index as u32)
    }

    /// Whether `value` is at an end.
    pub fn has(&self, end: End, value: &Value) -> bool
        ensures { result ≡ has_value ((reading self.now).values end) value.now }
    {
        if self.meta().is_reference(end.feature) {
            return self.position(end, value).is_some();
        }
        attribute_has(self.meta(), self.values(), end, value)
    }

    /// Whether the feature of an end is unique, and `value` is at the end already.
    pub fn is_repeat(&self, end: End, value: &Value) -> bool
        ensures { result ≡ r.is_repeat (reading self.now) end value.now }
    {
        self.meta().is_unique(end.feature) && self.has(end, value)
    }

    /// The position `index` if it is given, or else the position after the last value of the end.
    pub fn position_for(&self, end: End, index: Option<u32>) -> u32
        ensures { result ≡ r.position_for (reading self.now) end index }
    {
        match index {
            Some(index) => index,
            None => self.len(end),
        }
    }
}

/// A copy of the values that are at an end. Fails only if memory is refused.
pub fn copied_list<L: LinkStore>(
    alloc: Global,
    model: &ModelRef<L>,
    end: End,
) -> Result<Seq<Value>, AllocError>
    ensures { IfOk result (λ vs. vs ≡ (reading model.now).values end) }
{
    let len = model.len(end);
    let mut values = Vec::with_capacity(alloc, len as usize)?;
    for index in 0..len {
        values.push_reserved(copied(alloc, model.value_in(end, index))?);
    }
    Ok(Seq::from_vec(values))
}

/// Whether an attribute is single and has no stored value. The value of the attribute is then its default.
fn has_default(meta: &Meta, values: &Values, end: End) -> bool
    ensures { result ≡ (is_nil (kept_values (values_of values.now) end.node end.feature) && (shape meta.now end.feature).is_single) }
{
    kept_len(values, end) == 0 && meta.is_single(end.feature)
}

/// The default of an attribute.
fn default_of(meta: &Meta, feature: FeatureNo) -> Option<&Value>
    requires attribute { (shape meta.now feature).is_reference ≡ false }
    ensures { option_copied result ≡ Some (shape meta.now feature).default }
{
    meta.default(feature)
}

/// How many values an attribute has. A single attribute with no stored value has one: its default.
#[tactic(auto, using(crate::proofs::ReadLemmas::attribute_values_by))]
fn attribute_len(meta: &Meta, values: &Values, end: End) -> usize
    ensures { result ≡ length (attribute_values (shape meta.now end.feature) (kept_values (values_of values.now) end.node end.feature)) }
{
    if has_default(meta, values, end) {
        return 1;
    }
    kept_len(values, end)
}

/// The value of an attribute at a position; `None` past the last position.
fn attribute_value_in<'a>(
    meta: &'a Meta,
    values: &'a Values,
    end: End,
    index: usize,
) -> Option<&'a Value>
    requires attribute { (shape meta.now end.feature).is_reference ≡ false }
    ensures { option_copied result ≡ slice_get (attribute_values (shape meta.now end.feature) (kept_values (values_of values.now) end.node end.feature)) index }
{
    match kept_at(values, end, index) {
        Some(value) => Some(value),
        None if index == 0 && meta.is_single(end.feature) => default_of(meta, end.feature),
        None => None,
    }
}

/// The first position of a value in an attribute; `None` if the value is not there.
#[tactic(auto, using(crate::proofs::ReadLemmas::attribute_values_by))]
fn attribute_position(meta: &Meta, values: &Values, end: End, value: &Value) -> Option<usize>
    requires attribute { (shape meta.now end.feature).is_reference ≡ false }
    ensures { result ≡ first_in (attribute_values (shape meta.now end.feature) (kept_values (values_of values.now) end.node end.feature)) value.now }
{
    if has_default(meta, values, end) {
        return match default_of(meta, end.feature) {
            Some(default) if value == default => Some(0),
            _ => None,
        };
    }
    kept_position(values, end, value)
}

/// Whether `value` is among the values of an attribute.
#[tactic(auto, using(crate::proofs::ReadLemmas::attribute_values_by))]
fn attribute_has(meta: &Meta, values: &Values, end: End, value: &Value) -> bool
    requires attribute { (shape meta.now end.feature).is_reference ≡ false }
    ensures { result ≡ has_value (attribute_values (shape meta.now end.feature) (kept_values (values_of values.now) end.node end.feature)) value.now }
{
    if has_default(meta, values, end) {
        return match default_of(meta, end.feature) {
            Some(default) => value == default,
            None => false,
        };
    }
    kept_has(values, end, value)
}

/// The first position of a value among the values that are stored under an attribute; `None` if the value is not there.
#[tactic(auto, using(crate::proofs::PlaceLemmas::first_in_position))]
fn kept_position(values: &Values, end: End, value: &Value) -> Option<usize>
    ensures { result ≡ first_in (kept_values (values_of values.now) end.node end.feature) value.now }
{
    match end.node {
        Node::Object(object) => values.position(object, end.feature, value),
        Node::Resource(_) => None,
    }
}

/// Whether `value` is among the values that are stored under an attribute.
fn kept_has(values: &Values, end: End, value: &Value) -> bool
    ensures { result ≡ has_value (kept_values (values_of values.now) end.node end.feature) value.now }
{
    match end.node {
        Node::Object(object) => values.has(object, end.feature, value).unwrap_or(false),
        Node::Resource(_) => false,
    }
}
