//! Whether a list has a value twice.
ghost use Rattle.std.specs.Prelude.{◌≡◌, IfOk};
ghost use Rattle.std.specs.List.{list_any};
ghost use Rattle.mm_types.specs.Shapes.{shape};
ghost use Rattle.resource_docs.specs.Causes.{has_repeat as repeat_meant, of_content, repeats_value as repeats_meant};
ghost use Rattle.resource_docs.specs.Keys.{rising_from, value_of_key};

use crate::doc::{Content, Doc, DocObject};
use indexmap::IndexSet;
use mm_meta::Meta;
use mm_types::{Kind, Value};
use std::alloc::{AllocError, Global};

/// A value as a key of a set.
#[derive(Clone, Copy, PartialEq, Eq, Hash)]
pub(crate) enum Key<'v> {
    Null,
    Bool(bool),
    Int(i64),
    Text(&'v str),
    Literal(u32),
    Object(u32),
    Proxy(&'v str),
}

fn key_of(value: &Value) -> Key<'_>
    ensures { value_of_key result ≡ value.now }
{
    match value {
        Value::Null => Key::Null,
        Value::Bool(b) => Key::Bool(*b),
        Value::Int(n) => Key::Int(*n),
        Value::Text(text) => Key::Text(text.as_str()),
        Value::Literal(index) => Key::Literal(*index),
        Value::Object(object) => Key::Object(object.0),
        Value::Proxy(text) => Key::Proxy(text.as_str()),
    }
}

/// Whether all values are objects and their numbers rise along the list; then no value comes twice. Takes no memory.
fn are_rising(values: &[Value]) -> bool
    ensures { result ≡ rising_from 0 values.now }
{
    let mut least = 0;
    'values: for value in values {
        let Value::Object(object) = value else {
            return false;
        };
        if (object.0 as u64) < least {
            return false;
        }
        least = object.0 as u64 + 1;
    }
    true
}

/// Whether a list has a value twice. Fails only if memory is refused.
fn repeats_value(alloc: Global, values: &[Value]) -> Result<bool, AllocError>
    ensures { IfOk result (λ b. b ≡ repeats_meant values.now) }
{
    if values.len() < 2 {
        return Ok(false);
    }
    // A list of contained objects has this order, since contained objects are numbered in loading order.
    if are_rising(values) {
        return Ok(false);
    }
    let mut keys: IndexSet<Key> = IndexSet::new(alloc);
    'values: for value in values {
        if !keys.insert(key_of(value))? {
            return Ok(true);
        }
    }
    Ok(false)
}

/// Whether the feature of a content is unique, and the content repeats a value. Fails only if memory is refused.
fn has_repeat(alloc: Global, meta: &Meta, content: &Content) -> Result<bool, AllocError>
    ensures { IfOk result (λ b. b ≡ repeat_meant meta.now content.now) }
{
    if !meta.is_unique(content.feature) {
        return Ok(false);
    }
    repeats_value(alloc, content.values.as_slice())
}

fn has_any_repeat(alloc: Global, meta: &Meta, contents: &[Content]) -> Result<bool, AllocError>
    ensures { IfOk result (λ b. b ≡ list_any (repeat_meant meta.now) contents.now) }
{
    'contents: for content in contents {
        if has_repeat(alloc, meta, content)? {
            return Ok(true);
        }
    }
    Ok(false)
}

fn is_any_repeated(alloc: Global, meta: &Meta, objects: &[DocObject]) -> Result<bool, AllocError>
    ensures { IfOk result (λ b. b ≡ list_any (λ o. list_any (repeat_meant meta.now) o.contents) objects.now) }
{
    'objects: for object in objects {
        if has_any_repeat(alloc, meta, object.contents.as_slice())? {
            return Ok(true);
        }
    }
    Ok(false)
}

/// Whether a unique list of a document repeats a value. Fails only if memory is refused.
pub(crate) fn has_repeats(alloc: Global, meta: &Meta, doc: &Doc) -> Result<bool, AllocError>
    ensures { IfOk result (λ b. b ≡ of_content (λ o c. repeat_meant meta.now c) doc.now) }
{
    is_any_repeated(alloc, meta, doc.objects.as_slice())
}
