//! Reads the objects of a document.
ghost use Rattle.std.specs.Prelude.{◌≡◌, ◌+◌, ◌<◌, ◌++◌, ◌∷◌, [], IfOk, List, if◌then◌else◌, OnOk, false, Some, filter_map, is_some, option_to_list, true};
ghost use Rattle.std.specs.List.{All, list_all};
ghost use Rattle.mm_types.specs.Lookups as lookups;
ghost use Rattle.borrowed_json.specs.View.{members_view, view};
ghost use Rattle.doc_parts.specs.FoundParts.{Knows, has_other_member, part_seen, seen_part};
ghost use Rattle.doc_parts.specs.Contents.{is_content as is_content_meant};
ghost use Rattle.doc_parts.specs.Faults.{has_other_key as other_key, is_long as long, is_readable, of_written};
ghost use Rattle.doc_parts.specs.Parts.{Entry, Part, entries, entry_at, new_entry};
ghost use Rattle.resource_docs.specs.Reading.{IsProxyContent, IsProxyObject, Numbered, contents_so_far, with_content_flags, objects_so_far, with_values};
ghost use Rattle.resource_docs.specs.Read.{values_read};
ghost use Rattle.resource_docs.specs.Texts.{Base, base_of};
ghost use Rattle.web_uris.specs.declared.path.Path.{Path};
ghost use Rattle.resource_docs.specs.Values.{IsProxyValue};

use crate::doc::{Content, DocObject};
use crate::read_context::ReadContext;
use crate::values::{ReadValues, read_content};
use borrowed_json::{Json, Members};
use doc_parts::{FoundPart, content_at, is_content, is_long};
use mm_meta::Meta;
use mm_types::{ClassNo, FeatureNo, Few, Seq, Value};
use std::alloc::{AllocError, Global};

/// What is read of an object: its contents, and three faults. `is_lost`: a reference leads nowhere, or to an object of a wrong class.
/// `has_other`: a content is not of its feature's type. `has_long`: a content has too many values.
#[derive(Drop)]
pub(crate) struct ReadContents {
    pub contents: Few<Content>,
    pub is_lost: bool,
    pub has_other: bool,
    pub has_long: bool,
}

/// What is read of a document: its objects, and three faults. `is_lost`: a reference leads nowhere, or to an object of a wrong class.
/// `has_other`: a content is not of its feature's type. `has_long`: a content has too many values.
#[derive(Drop)]
pub(crate) struct ReadObjects {
    pub objects: Seq<DocObject>,
    pub is_lost: bool,
    pub has_other: bool,
    pub has_long: bool,
}

/// No contents, and capacity for the contents of `room` features.
fn no_contents(alloc: Global, room: usize) -> Result<ReadContents, AllocError>
    ensures { IfOk result (λ r. r ≡ record { contents = []; is_lost = false; has_other = false; has_long = false }) }
{
    let contents = Few::with_capacity(alloc, room)?;
    Ok(ReadContents {
        contents,
        is_lost: false,
        has_other: false,
        has_long: false,
    })
}

/// Adds what was read under a feature: the values, if there are any, and whether a reference leads nowhere or to an object of a wrong
/// class.
fn add_values(
    read: &mut ReadContents,
    alloc: Global,
    feature: FeatureNo,
    found: ReadValues,
) -> Result<(), AllocError>
    ensures value { OnOk result (read.new ≡ with_values read.old feature found) }
    ensures proxy { OnOk result (All IsProxyValue found.values → All IsProxyContent read.old.contents → All IsProxyContent read.new.contents) }
{
    let ReadValues { values, is_lost } = found;
    read.is_lost = read.is_lost || is_lost;
    if !values.is_empty() {
        read.contents.push(alloc, Content { feature, values })?;
    }
    Ok(())
}

/// Whether a content is of its feature's type. `values` are the values that were read from the content. The value of a single attribute is
/// read only if the content is of the attribute's type. So for a single attribute it is enough to look whether there is a value.
fn is_of_type<'t>(
    meta: &Meta,
    feature: FeatureNo,
    content: &'t Json<'t>,
    values: &Few<Value>,
) -> bool
    ensures { (b : Base) (ps : List Part) (path : Path) → values.now ≡ values_read meta.now b ps path (new_entry feature (view content.now)) → result ≡ is_content_meant meta.now (new_entry feature (view content.now)) }
{
    if meta.is_single(feature) && !meta.is_reference(feature) {
        return !values.is_empty();
    }
    is_content(meta, feature, content)
}

/// Notes in `read` if a content is not of its feature's type (`is_of_type` is false), and if it has too many values.
fn note_flaws<'t>(
    read: &mut ReadContents,
    meta: &Meta,
    feature: FeatureNo,
    content: &'t Json<'t>,
    is_of_type: bool,
)
    ensures { read.new ≡ with_content_flags read.old is_of_type (long meta.now (new_entry feature (view content.now))) }
{
    read.has_other = read.has_other || !is_of_type;
    read.has_long = read.has_long || is_long(meta, feature, content);
}

/// Reads the content of one more feature, if `members` has one, and returns whether `members` has one. A container reference counts as a
/// feature without content.
fn add_feature(
    read: &mut ReadContents,
    source: &ReadContext,
    number: u32,
    members: Members,
    feature: FeatureNo,
) -> Result<bool, AllocError>
    ensures found { IfOk result (λ b. b ≡ is_some (entry_at source.now.meta.now (members_view members.now) feature)) }
    ensures value { OnOk result (Numbered source.now.meta.now source.now.found.now number (λ ps path. (es : List Entry)
        → read.old ≡ contents_so_far source.now.meta.now (base_of source.now.uri.now) ps path es
        → read.new ≡ contents_so_far source.now.meta.now (base_of source.now.uri.now) ps path (es ++ option_to_list (entry_at source.now.meta.now (members_view members.now) feature)))) }
    ensures proxy { OnOk result (All IsProxyContent read.old.contents → All IsProxyContent read.new.contents) }
{
    match content_at(source.meta, members, feature) {
        Some(content) => {
            let found = read_content(source, number, feature, content)?;
            let is_of_type = is_of_type(source.meta, feature, content, &found.values);
            note_flaws(read, source.meta, feature, content, is_of_type);
            add_values(read, source.alloc, feature, found)?;
            Ok(true)
        }
        None => Ok(false),
    }
}

/// How many members are still to be found after one more feature was looked for. `left` members were to be found before this feature was
/// looked for, and `is_found` says whether a member of the feature was found.
fn left_after(left: usize, is_found: bool) -> usize
    requires { 0 < left }
    ensures { left ≡ result + (if is_found then 1 else 0) }
{
    if is_found { left - 1 } else { left }
}

/// Reads the contents that `members` has for `features`, which are all features of the class `class`. Also returns whether each member is
/// known to be the content of a feature that is no container reference. If `members` has a key twice, this is not known, and the returned
/// value is false.
fn read_features(
    source: &ReadContext,
    number: u32,
    class: ClassNo,
    members: Members,
    features: &[FeatureNo],
) -> Result<(ReadContents, bool), AllocError>
    requires features { Some features.now ≡ lookups.features source.now.meta.now class }
    ensures all { IfOk result (λ r. r.1 ≡ true → list_all (λ m. is_readable source.now.meta.now class m.0.now) members.now ≡ true) }
    ensures value { IfOk result (λ r. Numbered source.now.meta.now source.now.found.now number (λ ps path. r.0 ≡ contents_so_far source.now.meta.now (base_of source.now.uri.now) ps path (filter_map (entry_at source.now.meta.now (members_view members.now)) features.now))) }
    ensures proxy { IfOk result (λ r. All IsProxyContent r.0.contents) }
{
    source.meta.lemma_is_of_document();
    let room = members.len().min(features.len());
    let mut read = no_contents(source.alloc, room)?;
    // No two features of a class share a name. So once as many contents are found as there are members, no other feature has a content.
    let mut left = members.len();
    'features: for feature in features {
        if left == 0 {
            return Ok((read, true));
        }
        let is_found = add_feature(&mut read, source, number, members, *feature)?;
        left = left_after(left, is_found);
    }
    Ok((read, left == 0))
}

/// Reads the contents of the object of a part. Also returns whether each member is known to be readable (`is_readable`). A member is
/// readable if its key is the name of a feature of the class, and this feature is no container reference. If the part is no object of a
/// known class, nothing is read, and the returned value is true.
fn read_contents(source: &ReadContext, part: &FoundPart) -> Result<(ReadContents, bool), AllocError>
    ensures all { IfOk result (λ r. r.1 ≡ true → has_other_member source.now.meta.now (part_seen part.now) ≡ false) }
    ensures value { IfOk result (λ r. (ps : List Part) (p : Part) → Knows source.now.meta.now source.now.found.now ps → part_seen part.now ≡ seen_part source.now.meta.now ps p
        → r.0 ≡ contents_so_far source.now.meta.now (base_of source.now.uri.now) ps p.path (entries source.now.meta.now p.json)) }
    ensures proxy { IfOk result (λ r. All IsProxyContent r.0.contents) }
{
    match part.known {
        Some((class, members)) => match source.meta.features(class) {
            Some(features) => read_features(source, part.number, class, members, features),
            None => Ok((no_contents(source.alloc, 0)?, false)),
        },
        None => Ok((no_contents(source.alloc, 0)?, true)),
    }
}

/// Reads the object of one more part. Also returns whether each member of the object is known to be readable, as `read_contents` does.
fn add_object(
    read: &mut ReadObjects,
    source: &ReadContext,
    part: &FoundPart,
) -> Result<bool, AllocError>
    ensures all { IfOk result (λ b. b ≡ true → has_other_member source.now.meta.now (part_seen part.now) ≡ false) }
    ensures value { OnOk result ((ps qs : List Part) (p : Part) → Knows source.now.meta.now source.now.found.now ps → part_seen part.now ≡ seen_part source.now.meta.now ps p
        → read.old ≡ objects_so_far source.now.meta.now (base_of source.now.uri.now) ps qs
        → read.new ≡ objects_so_far source.now.meta.now (base_of source.now.uri.now) ps (qs ++ p ∷ [])) }
    ensures proxy { OnOk result (All IsProxyObject read.old.objects → All IsProxyObject read.new.objects) }
{
    let (found, is_all) = read_contents(source, part)?;
    let ReadContents {
        contents,
        is_lost,
        has_other,
        has_long,
    } = found;
    let class = match part.class() {
        Some(class) => class,
        None => ClassNo(0),
    };
    read.is_lost = read.is_lost || is_lost;
    read.has_other = read.has_other || has_other;
    read.has_long = read.has_long || has_long;
    read.objects.push(DocObject { class, contents })?;
    Ok(is_all)
}

/// Reads the objects of the parts that were found, in loading order. Also returns whether each member of each object is known to be
/// readable: whether `read_contents` returns true for each object. Fails only if memory is refused, if a list has more than 2^32 values, or
/// if a joined URI would be longer than URIs can be.
pub(crate) fn read_objects(source: &ReadContext) -> Result<(ReadObjects, bool), AllocError>
    ensures all { IfOk result (λ r. (ps : List Part) → Knows source.now.meta.now source.now.found.now ps → r.1 ≡ true → of_written (other_key source.now.meta.now) ps ≡ false) }
    ensures value { IfOk result (λ r. (ps : List Part) → Knows source.now.meta.now source.now.found.now ps → r.0 ≡ objects_so_far source.now.meta.now (base_of source.now.uri.now) ps ps) }
    ensures proxy { IfOk result (λ r. All IsProxyObject r.0.objects) }
{
    let objects = Vec::with_capacity(source.alloc, source.found.parts.len())?;
    let mut read = ReadObjects {
        objects: Seq::from_vec(objects),
        is_lost: false,
        has_other: false,
        has_long: false,
    };
    let mut is_all = true;
    'parts: for part in source.found.parts.as_slice() {
        let is_whole = add_object(&mut read, source, part)?;
        is_all = is_all & is_whole;
    }
    Ok((read, is_all))
}
