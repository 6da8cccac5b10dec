//! Reads of ends: the value of a single end, whether an end is set, and which values a caller may give a feature.
ghost use Rattle.std.specs.Prelude.{◌≡◌, [], true, false, Bool, Option, unwrap_or, option_map, option_copied, length, not, slice_get, IfOk};
ghost use Rattle.std.specs.Option.{option_map_or};
ghost use Rattle.mm_types.specs.Ends as ends;
ghost use Rattle.mm_types.specs.Ends.{value_in};
ghost use Rattle.mm_types.specs.Lookups as m;
ghost use Rattle.mm_types.specs.Same.{same_value};
ghost use Rattle.mm_types.specs.Shapes.{Shape, shape};
ghost use Rattle.mm_types.specs.declared.value.Value.TheVariants as value;
ghost use Rattle.mm_types.specs.declared.value.Value.TheVariants.{Null};
ghost use Rattle.mm_values.specs.Room.{values_of};
ghost use Rattle.links.specs.Links.{text_of};
ghost use Rattle.models.specs.Found.{found_value};
ghost use Rattle.models.specs.Model.{attribute_held, kept_flag, kept_held, kept_values, reading};
ghost use Rattle.models.specs.Reading as r;

use crate::features::is_attribute_value;
use crate::model_ref::ModelRef;
use links::LinkStore;
use mm_meta::Meta;
use mm_types::{ClassNo, End, FeatureNo, Kind, Node, ObjectNo, Text, Value};
use mm_values::Values;
use std::alloc::{AllocError, Global};

/// A value at an end, borrowed from the model.
#[derive(Clone, Copy, Debug)]
pub enum Found<'a> {
    /// A value of an attribute.
    Kept(&'a Value),
    /// The object that a reference has.
    Object(ObjectNo),
    /// The text of a proxy that a reference has.
    Proxy(&'a str),
}

impl Found<'_> {
    /// A copy of the value that was found. The copy borrows nothing. Fails only if memory is refused.
    pub fn to_value(&self, alloc: Global) -> Result<Value, AllocError>
        ensures { IfOk result (λ v. v ≡ found_value self.now) }
    {
        match self {
            Found::Kept(value) => (*value).clone(),
            Found::Object(object) => Ok(Value::Object(*object)),
            Found::Proxy(text) => proxy_of(alloc, text),
        }
    }

    /// The object that was found; `None` if the value is not an object.
    pub fn object(&self) -> Option<ObjectNo>
        ensures { result ≡ r.object_of (found_value self.now) }
    {
        match self {
            Found::Kept(Value::Object(object)) | Found::Object(object) => Some(*object),
            Found::Kept(_) | Found::Proxy(_) => None,
        }
    }

    /// Whether the value that was found is the given value.
    pub fn is(&self, value: &Value) -> bool
        ensures { result ≡ same_value value.now (found_value self.now) }
    {
        match (self, value) {
            (Found::Kept(kept), value) => value == *kept,
            (Found::Object(object), Value::Object(other)) => *object == *other,
            (Found::Proxy(text), Value::Proxy(other)) => *text == other.as_str(),
            _ => false,
        }
    }
}

impl<'a> Found<'a> {
    /// The text of the proxy that was found; `None` if the value is not a proxy.
    pub fn proxy(self) -> Option<&'a str>
        ensures { option_copied result ≡ text_of (found_value self.entry) }
    {
        match self {
            Found::Kept(Value::Proxy(text)) => Some(text.as_str()),
            Found::Proxy(text) => Some(text),
            Found::Kept(_) | Found::Object(_) => None,
        }
    }
}

/// A proxy with a copy of a text. Fails only if memory is refused.
fn proxy_of(alloc: Global, text: &str) -> Result<Value, AllocError>
    ensures { IfOk result (λ v. v ≡ value.Proxy text.now) }
{
    Ok(Value::Proxy(Text::from_str(alloc, text)?))
}

impl<'a, L: LinkStore> ModelRef<'a, L> {
    /// The value of a single end (EMF: EObject.eGet). The value of an attribute is the value that is stored, or else the default. The value
    /// of a reference is an object or a proxy; a proxy is not resolved. The null of an empty reference is `None`; the null of an attribute
    /// is a `Found::Kept`.
    pub fn value_at(&self, end: End) -> Option<Found<'a>>
        ensures { unwrap_or (option_map found_value result) Null ≡ r.value_at (reading self.now) end }
    {
        if self.meta().is_reference(end.feature) {
            return self.target_in(end, 0);
        }
        found_kept(attribute_at(self.meta(), self.values(), end))
    }

    /// Whether an end is set (EMF: EObject.eIsSet).
    #[inline(always)]
    pub fn is_set(&self, end: End) -> bool
        ensures { result ≡ r.is_set (reading self.now) end }
    {
        match self.meta().feature(end.feature) {
            Some(found) => match &found.kind {
                Kind::Attribute {
                    unsettable,
                    default,
                    ..
                } => is_attribute_set(self.values(), end, found.upper == 1, *unsettable, default),
                Kind::Reference { .. } => self.store().len(end) > 0,
            },
            None => self.store().len(end) > 0,
        }
    }

    /// Whether a caller may give a feature a value. A caller may never give a proxy, since proxies come only from documents. The feature
    /// `contents` takes every live object. The length of a text is not tested here (`is_short` tests it).
    pub fn takes(&self, feature: FeatureNo, value: &Value) -> bool
        ensures { result ≡ r.takes (reading self.now) feature value.now }
    {
        match self.meta().feature(feature) {
            Some(found) => match &found.kind {
                Kind::Attribute { value_type, .. } => {
                    is_attribute_value(self.meta(), found.upper == 1, *value_type, value)
                }
                Kind::Reference { target, .. } => {
                    self.is_reference_value(found.upper == 1, *target, value)
                }
            },
            None => match value {
                Value::Object(object) => self.class(*object).is_some(),
                _ => false,
            },
        }
    }

    /// Whether a caller may give a value to a reference to objects of the class `target`: null if the reference is single (`single`), or a
    /// live object whose class conforms to `target`; never a proxy.
    fn is_reference_value(&self, single: bool, target: ClassNo, value: &Value) -> bool
        ensures { result ≡ m.is_reference_value self.now.metamodel (reading self.now).class single target value.now }
    {
        match value {
            Value::Null => single,
            Value::Object(object) => match self.class(*object) {
                Some(class) => self.meta().conforms(class, target),
                None => false,
            },
            _ => false,
        }
    }
}

pub(crate) fn found_proxy(text: Option<&str>) -> Option<Found<'_>>
    ensures { option_map found_value result ≡ option_map value.Proxy (option_copied text.entry) }
{
    match text {
        Some(text) => Some(Found::Proxy(text)),
        None => None,
    }
}

pub(crate) fn found_kept(value: Option<&Value>) -> Option<Found<'_>>
    ensures { option_map found_value result ≡ option_copied value.entry }
{
    match value {
        Some(value) => Some(Found::Kept(value)),
        None => None,
    }
}

/// How many values are stored under an attribute of a node.
pub(crate) fn kept_len(values: &Values, end: End) -> usize
    ensures { result ≡ length (kept_values (values_of values.now) end.node end.feature) }
{
    match end.node {
        Node::Object(object) => values.len(object, end.feature).unwrap_or(0),
        Node::Resource(_) => 0,
    }
}

/// The value at an index among the values that are stored under an attribute of a node; `None` past the last value.
pub(crate) fn kept_at(values: &Values, end: End, index: usize) -> Option<&Value>
    ensures { option_copied result ≡ slice_get (kept_values (values_of values.now) end.node end.feature) index }
{
    match end.node {
        Node::Object(object) => values.at(object, end.feature, index),
        Node::Resource(_) => None,
    }
}

fn flag_at(values: &Values, end: End) -> bool
    ensures { result ≡ kept_flag (values_of values.now) end.node end.feature }
{
    match end.node {
        Node::Object(object) => values.flag(object, end.feature).unwrap_or(false),
        Node::Resource(_) => false,
    }
}

/// The first value of an attribute: the first value that is stored. If no value is stored, a single attribute has its default, and a list
/// has no value.
#[tactic(auto, using(crate::proofs::ReadLemmas::value_in_shown))]
fn attribute_at<'a>(meta: &'a Meta, values: &'a Values, end: End) -> Option<&'a Value>
    ensures { unwrap_or (option_copied result) Null ≡ value_in (attribute_held meta.now (values_of values.now) end).values 0 }
{
    match kept_at(values, end, 0) {
        Some(value) => Some(value),
        None if meta.is_single(end.feature) => meta.default(end.feature),
        None => None,
    }
}

/// Whether an attribute is set. A list is set if it has values. A single unsettable attribute is set if its flag is on. Any other single
/// attribute is set if its value is not the default.
#[inline(always)]
#[tactic(auto, using(crate::proofs::ReadLemmas::is_nil_shown, crate::proofs::ReadLemmas::set_by))]
fn is_attribute_set(
    values: &Values,
    end: End,
    is_single: bool,
    is_unsettable: bool,
    default: &Value,
) -> bool
    ensures { (a : Shape) → a.is_single ≡ is_single → a.is_unsettable ≡ is_unsettable → a.default ≡ default.now → result ≡ ends.is_set a (kept_held a (values_of values.now) end) }
{
    if !is_single {
        return kept_len(values, end) > 0;
    }
    if is_unsettable {
        return flag_at(values, end);
    }
    // If no value is stored, the value of the attribute is its default, so the attribute is not set.
    is_other(kept_at(values, end, 0), default)
}

/// Whether there is a value, and it is not the default.
fn is_other(value: Option<&Value>, default: &Value) -> bool
    ensures { result ≡ option_map_or (λ v. not (same_value v default.now)) (option_copied value.entry) false }
{
    match value {
        Some(value) => !is_same(value, default),
        None => false,
    }
}

/// The end of a node under a feature.
pub fn at_end(node: &Node, feature: &FeatureNo) -> End
    ensures { result ≡ r.at_end node.now feature.now }
{
    End {
        node: *node,
        feature: *feature,
    }
}

/// Whether two values are the same.
pub fn is_same(a: &Value, b: &Value) -> bool
    ensures { result ≡ same_value a.now b.now }
{
    a == b
}

/// A copy of the value that was found; null if `found` is `None`. Fails only if memory is refused.
pub fn copied(alloc: Global, found: Option<Found>) -> Result<Value, AllocError>
    ensures { IfOk result (λ w. w ≡ unwrap_or (option_map found_value found.entry) Null) }
{
    match found {
        Some(found) => found.to_value(alloc),
        None => Ok(Value::Null),
    }
}
