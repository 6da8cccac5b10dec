//! The two passes over all contents of a document. Each pass goes through the objects in the order of their numbers in the document.
ghost use Rattle.std.specs.Prelude.{◌≡◌, ◌≤◌, ◌+◌, ◌++◌, OnOk, flat_map, length};
ghost use Rattle.std.specs.List.{All, enumerate_from};
ghost use Rattle.mm_types.specs.declared.limits.TheConstants.{OBJECTS};
ghost use Rattle.doc_loader.specs.Fits.{IsFittingContent, IsFittingObject, IsNumbered};
ghost use Rattle.doc_loader.specs.LoadEdits as e;
ghost use Rattle.doc_loader.specs.Loading.{of_object};

use crate::numbers::object_end;
use crate::pairs::{is_near, lower_of};
use crate::{near, proxies};
use links::Edit;
use mm_meta::Meta;
use mm_types::ObjectNo;
use resource_docs::{Content, DocObject};
use std::alloc::AllocError;

/// What a pass puts.
#[derive(Clone, Copy)]
pub(crate) enum Pass {
    /// The values of each reference that is not the higher feature of a pair.
    Near,
    /// The proxies under the higher feature of each pair.
    Proxies,
}

/// Adds the edits of a pass over the objects of a document; the number of an object in the document is its index in `objects`.
pub(crate) fn push_objects(
    meta: &Meta,
    next: usize,
    pass: Pass,
    objects: &[DocObject],
    edits: &mut Vec<Edit>,
) -> Result<(), AllocError>
    requires room { next + length objects.now ≤ OBJECTS }
    requires fits { All (IsFittingObject next) objects.now }
    ensures { OnOk result (edits.new.items ≡ edits.old.items ++ flat_map (of_object (e.pass_edits pass meta.now next)) (enumerate_from 0 objects.now)) }
{
    'objects: for (i, object) in objects.iter().enumerate() {
        let number = ObjectNo(i as u32);
        push_object(meta, next, pass, number, object.contents.as_slice(), edits)?;
    }
    Ok(())
}

/// Adds the edits of a pass over the contents of an object.
fn push_object(
    meta: &Meta,
    next: usize,
    pass: Pass,
    object: ObjectNo,
    contents: &[Content],
    edits: &mut Vec<Edit>,
) -> Result<(), AllocError>
    requires number { IsNumbered next object }
    requires fits { All (IsFittingContent next) contents.now }
    ensures { OnOk result (edits.new.items ≡ edits.old.items ++ flat_map (e.pass_edits pass meta.now next object) contents.now) }
{
    'contents: for content in contents {
        push_content(meta, next, pass, object, content, edits)?;
    }
    Ok(())
}

/// Adds the edits that a pass makes for one content of an object.
fn push_content(
    meta: &Meta,
    next: usize,
    pass: Pass,
    object: ObjectNo,
    content: &Content,
    edits: &mut Vec<Edit>,
) -> Result<(), AllocError>
    requires number { IsNumbered next object }
    requires fits { IsFittingContent next content.now }
    ensures { OnOk result (edits.new.items ≡ edits.old.items ++ e.pass_edits pass meta.now next object content.now) }
{
    let is_put = match pass {
        Pass::Near => is_near(meta, content.feature),
        Pass::Proxies => lower_of(meta, content.feature).is_some(),
    };
    if !is_put {
        return Ok(());
    }
    let end = object_end(next, object, content.feature);
    let values = content.values.as_slice();
    match pass {
        Pass::Near => near::push_values(meta, next, end, values, edits),
        Pass::Proxies => proxies::push_values(end, values, edits),
    }
}
