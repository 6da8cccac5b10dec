//! The edits for the higher features of pairs of opposites: they bring the objects under each of these features into the order in which the
//! document lists them there. The proxies under these features are put later, by the edits of the module `proxies`. Two features are a pair
//! if they are opposites and neither is a containment. The feature with the higher number is the higher feature of the pair.
ghost use Rattle.std.specs.Prelude.{◌≡◌, ◌≤◌, ◌+◌, ◌++◌, ℕ, OnOk, flat_map, length, unwrap_or};
ghost use Rattle.std.specs.List.{All, enumerate_from, list_any};
ghost use Rattle.mm_types.specs.declared.limits.TheConstants.{OBJECTS};
ghost use Rattle.doc_loader.specs.Fits.{IsFitting, IsFittingContent, IsFittingObject, IsNumbered, IsValueNumbered};
ghost use Rattle.doc_loader.specs.LoadEdits as e;
ghost use Rattle.doc_loader.specs.Loading.{of_object};
ghost use Rattle.doc_loader.specs.ListIndexes.{found_at, index_among};

use crate::indexes::ListIndexes;
use crate::near::put_at;
use crate::numbers::{loaded, object_end};
use crate::pairs::lower_of;
use links::Edit;
use mm_meta::Meta;
use mm_types::{FeatureNo, ObjectNo, Value};
use models::ReferenceKey;
use resource_docs::{Content, Doc, DocObject};
use std::alloc::{AllocError, Global};

/// The data from which the edits are made: the metamodel, the number that the document's first object gets, and the indexes of the objects
/// in the document's lists under the lower features of pairs.
#[derive(Clone, Copy)]
struct LoadContext<'r> {
    meta: &'r Meta,
    next: usize,
    indexes: &'r ListIndexes,
}

/// Whether the objects among `values` are in the order of their numbers, and none is there twice.
fn is_ascending(values: &[Value]) -> bool
    ensures { result ≡ e.is_ascending_from 0 values.now }
{
    let mut least = 0;
    'values: for value in values {
        if let Value::Object(object) = value {
            if (object.0 as u64) < least {
                return false;
            }
            least = object.0 as u64 + 1;
        }
    }
    true
}

/// Whether the feature of a content is the higher feature of a pair, and the objects of the content are not in the order of their numbers
/// (`is_ascending`).
fn is_unordered(meta: &Meta, content: &Content) -> bool
    ensures { result ≡ e.is_unordered meta.now content.now }
{
    lower_of(meta, content.feature).is_some() && !is_ascending(content.values.as_slice())
}

fn has_unordered(meta: &Meta, contents: &[Content]) -> bool
    ensures { result ≡ list_any (e.is_unordered meta.now) contents.now }
{
    contents.iter().any(|content| is_unordered(meta, content))
}

fn has_any_unordered(meta: &Meta, objects: &[DocObject]) -> bool
    ensures { result ≡ list_any (λ o. list_any (e.is_unordered meta.now) o.contents) objects.now }
{
    objects
        .iter()
        .any(|object| has_unordered(meta, object.contents.as_slice()))
}

/// Whether the feature of a content is the higher feature of a pair.
fn is_higher(meta: &Meta, content: &Content) -> bool
    ensures { result ≡ e.is_higher meta.now content.now }
{
    lower_of(meta, content.feature).is_some()
}

fn has_any_higher(meta: &Meta, contents: &[Content]) -> bool
    ensures { result ≡ list_any (e.is_higher meta.now) contents.now }
{
    contents.iter().any(|content| is_higher(meta, content))
}

/// Whether some object has a content whose feature is the higher feature of a pair. Takes no memory.
pub(crate) fn has_higher(meta: &Meta, objects: &[DocObject]) -> bool
    ensures { result ≡ list_any (λ o. list_any (e.is_higher meta.now) o.contents) objects.now }
{
    objects
        .iter()
        .any(|object| has_any_higher(meta, object.contents.as_slice()))
}

/// Adds the edits that bring the objects under the higher features of pairs into the order in which the document lists them. The edits of
/// `Pass::Near`, which come before, put the objects under these features in the order of their numbers. So if the document lists the
/// objects under each of these features in the order of their numbers too, no edit is added, and no memory is taken.
pub(crate) fn push_in_order(
    alloc: Global,
    meta: &Meta,
    next: usize,
    doc: &Doc,
    edits: &mut Vec<Edit>,
) -> Result<(), AllocError>
    requires { IsFitting next doc.now }
    ensures { OnOk result (edits.new.items ≡ edits.old.items ++ flat_map (of_object (e.far_edits meta.now next (index_among meta.now doc.now.objects))) (enumerate_from 0 doc.now.objects)) }
{
    let objects = doc.objects.as_slice();
    if !has_any_unordered(meta, objects) {
        return Ok(());
    }
    let indexes = ListIndexes::of(alloc, meta, objects)?;
    let source = LoadContext {
        meta,
        next,
        indexes: &indexes,
    };
    push_objects(&source, objects, edits)
}

/// Adds the edits of `push_content` for all contents of all objects of the document. The number of an object in the document is its index
/// in `objects`.
fn push_objects(
    source: &LoadContext,
    objects: &[DocObject],
    edits: &mut Vec<Edit>,
) -> Result<(), AllocError>
    requires room { source.now.next + length objects.now ≤ OBJECTS }
    requires fits { All (IsFittingObject source.now.next) objects.now }
    ensures { OnOk result (edits.new.items ≡ edits.old.items ++ flat_map (of_object (e.far_edits source.now.meta.now source.now.next (found_at source.now.indexes.now))) (enumerate_from 0 objects.now)) }
{
    'objects: for (i, object) in objects.iter().enumerate() {
        let number = ObjectNo(i as u32);
        push_object(source, number, object.contents.as_slice(), edits)?;
    }
    Ok(())
}

/// Adds the edits of `push_content` for all contents of one object.
fn push_object(
    source: &LoadContext,
    object: ObjectNo,
    contents: &[Content],
    edits: &mut Vec<Edit>,
) -> Result<(), AllocError>
    requires number { IsNumbered source.now.next object }
    requires fits { All (IsFittingContent source.now.next) contents.now }
    ensures { OnOk result (edits.new.items ≡ edits.old.items ++ flat_map (e.far_edits source.now.meta.now source.now.next (found_at source.now.indexes.now) object) contents.now) }
{
    'contents: for content in contents {
        push_content(source, object, content, edits)?;
    }
    Ok(())
}

/// Adds the edits that bring the objects that `object` has under `content.feature` into the order of `content.values`. Adds none if
/// `content.feature` is not the higher feature of a pair, or if the objects among `content.values` are in the order of their numbers
/// (`is_ascending`).
fn push_content(
    source: &LoadContext,
    object: ObjectNo,
    content: &Content,
    edits: &mut Vec<Edit>,
) -> Result<(), AllocError>
    requires number { IsNumbered source.now.next object }
    requires fits { IsFittingContent source.now.next content.now }
    ensures { OnOk result (edits.new.items ≡ edits.old.items ++ e.far_edits source.now.meta.now source.now.next (found_at source.now.indexes.now) object content.now) }
{
    let Some(lower) = lower_of(source.meta, content.feature) else {
        return Ok(());
    };
    let values = content.values.as_slice();
    if is_ascending(values) {
        return Ok(());
    }
    push_values(source, object, lower, values, edits)
}

/// For each object b among `values`, adds the edits that cut the link from b to `object` under `lower`, and put this link again. In the
/// list of b under `lower`, `object` gets the index that it has in the document's list, or 0 if that list lacks it. In the list of `object`
/// under the higher feature, b becomes the last value.
fn push_values(
    source: &LoadContext,
    object: ObjectNo,
    lower: FeatureNo,
    values: &[Value],
    edits: &mut Vec<Edit>,
) -> Result<(), AllocError>
    requires number { IsNumbered source.now.next object }
    requires fits { All (IsValueNumbered source.now.next) values.now }
    ensures { OnOk result (edits.new.items ≡ edits.old.items ++ flat_map (e.puts_again source.now.meta.now source.now.next (found_at source.now.indexes.now) object lower) values.now) }
{
    'values: for value in values {
        push_again(source, object, lower, value, edits)?;
    }
    Ok(())
}

/// If `value` is an object, adds the edits that cut the link from `value` to `object` under `lower`, and put this link again, at the
/// positions that `push_values` names.
fn push_again(
    source: &LoadContext,
    object: ObjectNo,
    lower: FeatureNo,
    value: &Value,
    edits: &mut Vec<Edit>,
) -> Result<(), AllocError>
    requires number { IsNumbered source.now.next object }
    requires fits { IsValueNumbered source.now.next value.now }
    ensures { OnOk result (edits.new.items ≡ edits.old.items ++ e.puts_again source.now.meta.now source.now.next (found_at source.now.indexes.now) object lower value.now) }
{
    let Value::Object(other) = value else {
        return Ok(());
    };
    let end = object_end(source.next, *other, lower);
    let index = source
        .indexes
        .index_of(ReferenceKey::of(*other, lower, object.0));
    edits.push(Edit::Cut {
        end,
        value: Value::Object(loaded(source.next, object)),
    })?;
    edits.push(put_at(source.meta, source.next, end, index, object))?;
    Ok(())
}
