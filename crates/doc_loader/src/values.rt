//! The edits that make a document's objects and set their attributes.
ghost use Rattle.std.specs.Prelude.{◌≡◌, ◌≤◌, ◌+◌, ◌++◌, IfOk, OnOk, flat_map, length, map};
ghost use Rattle.std.specs.List.{enumerate_from};
ghost use Rattle.mm_types.specs.declared.limits.TheConstants.{OBJECTS};
ghost use Rattle.mm_values.specs.declared.value_edit.ValueEdit.TheVariants.{NewObject};
ghost use Rattle.doc_loader.specs.Fits.{IsFitting, IsNumbered};
ghost use Rattle.doc_loader.specs.Loading as l;

use crate::numbers::loaded;
use mm_meta::Meta;
use mm_types::{Few, FewItems, ObjectNo};
use mm_values::ValueEdit;
use resource_docs::{Content, Doc, DocObject};
use std::alloc::{AllocError, Global};

/// The edits that make the objects of a document, and give each object the values of its attributes. The first object gets the number
/// `next`. The values are moved out of the document. Fails only if memory is refused.
pub fn value_edits(
    alloc: Global,
    meta: &Meta,
    next: usize,
    doc: Doc,
) -> Result<Vec<ValueEdit>, AllocError>
    requires fits { IsFitting next doc }
    ensures { IfOk result (λ es. es.items ≡ l.loaded_values meta.now next doc) }
{
    let Doc { objects, .. } = doc;
    let mut edits = Vec::with_capacity(alloc, capacity_for(objects.as_slice()))?;
    push_objects(objects.as_slice(), &mut edits)?;
    push_lists(meta, next, objects.into_vec(), &mut edits)?;
    Ok(edits)
}

/// The greatest number of edits that `value_edits` can make for `objects`: one for each object, and one for each of its contents. The sum
/// saturates.
fn capacity_for(objects: &[DocObject]) -> usize {
    let mut count = objects.len();
    'objects: for object in objects {
        count = count.saturating_add(object.contents.len());
    }
    count
}

/// Adds the edits that make objects.
fn push_objects(objects: &[DocObject], edits: &mut Vec<ValueEdit>) -> Result<(), AllocError>
    ensures { OnOk result (edits.new.items ≡ edits.old.items ++ map (λ o. NewObject o.class) objects.now) }
{
    'objects: for object in objects {
        edits.push(ValueEdit::NewObject(object.class))?;
    }
    Ok(())
}

/// Adds the edits that set the attributes of the objects of a document. The number of an object in the document is its index in `objects`.
fn push_lists(
    meta: &Meta,
    next: usize,
    objects: Vec<DocObject>,
    edits: &mut Vec<ValueEdit>,
) -> Result<(), AllocError>
    requires fits { next + length objects.items ≤ OBJECTS }
    ensures { OnOk result (edits.new.items ≡ edits.old.items ++ flat_map (l.of_object (l.attribute_edits meta.now next)) (enumerate_from 0 objects.items)) }
{
    let mut number = 0;
    'objects: for object in objects {
        let DocObject { contents, .. } = object;
        push_object(meta, next, ObjectNo(number), contents, edits)?;
        number += 1;
    }
    Ok(())
}

/// Adds the edits that give an object of a document the values of its attributes.
fn push_object(
    meta: &Meta,
    next: usize,
    object: ObjectNo,
    contents: Few<Content>,
    edits: &mut Vec<ValueEdit>,
) -> Result<(), AllocError>
    requires fits { IsNumbered next object }
    ensures { OnOk result (edits.new.items ≡ edits.old.items ++ flat_map (l.attribute_edits meta.now next object) contents) }
{
    match contents.into_items() {
        FewItems::One(content) => push_list(meta, next, object, content, edits),
        FewItems::Many(contents) => push_many(meta, next, object, contents, edits),
    }
}

/// Adds the edits that put the values of a list of contents; a content whose feature is no attribute has no edit.
fn push_many(
    meta: &Meta,
    next: usize,
    object: ObjectNo,
    contents: Vec<Content>,
    edits: &mut Vec<ValueEdit>,
) -> Result<(), AllocError>
    requires fits { IsNumbered next object }
    ensures { OnOk result (edits.new.items ≡ edits.old.items ++ flat_map (l.attribute_edits meta.now next object) contents.items) }
{
    'contents: for content in contents {
        push_list(meta, next, object, content, edits)?;
    }
    Ok(())
}

/// Adds the edit that puts the values of a content of an object, if the feature of the content is an attribute.
fn push_list(
    meta: &Meta,
    next: usize,
    object: ObjectNo,
    content: Content,
    edits: &mut Vec<ValueEdit>,
) -> Result<(), AllocError>
    requires fits { IsNumbered next object }
    ensures { OnOk result (edits.new.items ≡ edits.old.items ++ l.attribute_edits meta.now next object content) }
{
    let Content { feature, values } = content;
    if !meta.is_reference(feature) {
        edits.push(ValueEdit::PutList {
            object: loaded(next, object),
            feature,
            list: values,
            flag: meta.is_unsettable(feature) && meta.is_single(feature),
        })?;
    }
    Ok(())
}
