//! Reads the values under a feature.
ghost use Rattle.std.specs.Prelude.{◌≡◌, ◌++◌, ◌&&◌, ◌||◌, ◌∷◌, [], IfOk, IfSome, List, OnOk, Some, false, is_some, length, map, not, option_map, option_to_list};
ghost use Rattle.std.specs.List.{All};
ghost use Rattle.serde_json.specs.Data.{Data};
ghost use Rattle.borrowed_json.specs.View.{view};
ghost use Rattle.web_uris.specs.Paths.{new_step, with_step};
ghost use Rattle.doc_parts.specs.Parts.{new_entry, number_of, step_to};
ghost use Rattle.resource_docs.specs.Reading.{Numbered, entry_read, new_values, values_so_far};
ghost use Rattle.resource_docs.specs.Texts.{base_of};
ghost use Rattle.resource_docs.specs.Values.{IsProxyValue, is_link as link_meant, object_of, value_of as value_meant};

use crate::read_context::ReadContext;
use crate::references::reference_value;
use borrowed_json::Json;
use doc_parts::{PartKey, attribute_value, index_of, values_of};
use mm_types::{FeatureNo, Few, Kind, ObjectNo, Value};
use std::alloc::{AllocError, Global};

/// What is read under a feature: its values, and whether a reference leads nowhere or to an object of a wrong class.
#[derive(Drop)]
pub(crate) struct ReadValues {
    pub values: Few<Value>,
    pub is_lost: bool,
}

/// The object to which the step with the name `name` and the index `index` leads from the part with the number `number`; `None` if the step
/// leads to no part. `likely` is a guess at the number of that object.
fn part_at(
    source: &ReadContext,
    number: u32,
    name: &str,
    index: Option<u32>,
    likely: u32,
) -> Option<Value>
    ensures value { Numbered source.now.meta.now source.now.found.now number (λ ps path. result ≡ option_map object_of (number_of ps (with_step path (new_step name.now index)))) }
    ensures proxy { IfSome result IsProxyValue }
{
    let key = PartKey::Under {
        part: number,
        name,
        index,
    };
    match source.found.numbers.at_likely(key, likely) {
        Some(part) => Some(Value::Object(ObjectNo(part))),
        None => None,
    }
}

/// The object at a position under a feature of the part with the number `number`; `None` if no part is there. `likely` is a guess at the
/// number of the object. If the feature is single, the position is not used.
fn part_of(
    source: &ReadContext,
    number: u32,
    feature: FeatureNo,
    position: u32,
    likely: u32,
) -> Option<Value>
    ensures value { Numbered source.now.meta.now source.now.found.now number (λ ps path. result ≡ option_map object_of (number_of ps (with_step path (step_to source.now.meta.now feature position)))) }
    ensures proxy { IfSome result IsProxyValue }
{
    if source.meta.is_single(feature) {
        return part_at(
            source,
            number,
            source.meta.feature_name(feature),
            None,
            likely,
        );
    }
    part_at(
        source,
        number,
        source.meta.feature_name(feature),
        Some(position),
        likely,
    )
}

/// The value that is read from `json`, at a position under a feature of the part with the number `number`; `None` if `json` gives no value.
/// `likely` is a guess at the number of the object, if the feature is a containment. Fails only if memory is refused, or if a joined URI
/// would be longer than URIs can be.
fn value_of(
    source: &ReadContext,
    number: u32,
    feature: FeatureNo,
    kind: &Kind,
    position: u32,
    likely: u32,
    json: &Json,
) -> Result<Option<Value>, AllocError>
    ensures value { IfOk result (λ v. Numbered source.now.meta.now source.now.found.now number (λ ps path. v ≡ value_meant source.now.meta.now (base_of source.now.uri.now) ps path feature kind.now (position, view json.now))) }
    ensures proxy { IfOk result (λ v. IfSome v IsProxyValue) }
{
    match kind {
        Kind::Attribute { value_type, .. } => attribute_value(
            source.alloc,
            source.meta,
            source.meta.is_single(feature),
            *value_type,
            json,
        ),
        Kind::Reference {
            containment: true,
            ..
        } => Ok(part_of(source, number, feature, position, likely)),
        Kind::Reference { target, .. } => reference_value(source, *target, json),
    }
}

/// Whether a feature is a reference and no containment.
fn is_link(kind: &Kind) -> bool
    ensures { result ≡ link_meant kind.now }
{
    matches!(
        kind,
        Kind::Reference {
            containment: false,
            ..
        }
    )
}

fn note_lost(read: &mut ReadValues, is_lost: bool)
    ensures { read.new ≡ new_values read.old.values (read.old.is_lost || is_lost) }
{
    read.is_lost = read.is_lost || is_lost;
}

/// A guess at the number of the next object under a feature of the part with the number `number`. If the last value that was read under the
/// feature is an object, the guess is one more than the number of that object; otherwise it is one more than `number`.
fn likely_number(read: &ReadValues, number: u32) -> u32 {
    match read.values.as_slice().last() {
        Some(Value::Object(object)) => object.0.saturating_add(1),
        _ => number.saturating_add(1),
    }
}

/// Reads one more value under a feature. If `json` gives no value, and the feature is a reference and no containment, notes that a
/// reference leads nowhere or to an object of a wrong class.
fn add_value(
    read: &mut ReadValues,
    source: &ReadContext,
    number: u32,
    feature: FeatureNo,
    kind: &Kind,
    position: u32,
    json: &Json,
) -> Result<(), AllocError>
    ensures value { OnOk result (Numbered source.now.meta.now source.now.found.now number (λ ps path. (ds : List Data) → position ≡ length ds
        → read.old ≡ values_so_far source.now.meta.now (base_of source.now.uri.now) ps path feature kind.now ds
        → read.new ≡ values_so_far source.now.meta.now (base_of source.now.uri.now) ps path feature kind.now (ds ++ view json.now ∷ []))) }
    ensures proxy { OnOk result (All IsProxyValue read.old.values → All IsProxyValue read.new.values) }
{
    let likely = likely_number(read, number);
    match value_of(source, number, feature, kind, position, likely, json)? {
        Some(value) => read.values.push(source.alloc, value)?,
        None => note_lost(read, is_link(kind)),
    }
    Ok(())
}

/// No values, and capacity for `room` values.
fn no_values(alloc: Global, room: usize) -> Result<ReadValues, AllocError>
    ensures { IfOk result (λ r. r ≡ new_values [] false) }
{
    let values = Few::with_capacity(alloc, room)?;
    Ok(ReadValues {
        values,
        is_lost: false,
    })
}

/// Reads values under a feature. Fails only if memory is refused, if there are more than 2^32 values, or if a joined URI would be longer
/// than URIs can be.
fn read_values(
    source: &ReadContext,
    number: u32,
    feature: FeatureNo,
    kind: &Kind,
    values: &[Json],
) -> Result<ReadValues, AllocError>
    ensures value { IfOk result (λ r. Numbered source.now.meta.now source.now.found.now number (λ ps path. r ≡ values_so_far source.now.meta.now (base_of source.now.uri.now) ps path feature kind.now (map view values.now))) }
    ensures proxy { IfOk result (λ r. All IsProxyValue r.values) }
{
    let mut read = no_values(source.alloc, values.len())?;
    'values: for (i, json) in values.iter().enumerate() {
        let position = index_of(i)?;
        add_value(&mut read, source, number, feature, kind, position, json)?;
    }
    Ok(read)
}

/// What was read under a single feature. `is_link` says whether the feature is a reference and no containment. If `is_link` is true and
/// there is no value, the reference leads nowhere or to an object of a wrong class.
fn one_read(alloc: Global, value: Option<Value>, is_link: bool) -> ReadValues
    ensures value { result ≡ new_values (option_to_list value) (is_link && not (is_some value)) }
    ensures proxy { IfSome value IsProxyValue → All IsProxyValue result.values }
{
    match value {
        Some(value) => ReadValues {
            values: Few::one(value),
            is_lost: false,
        },
        None => ReadValues {
            values: Few::none(alloc),
            is_lost: is_link,
        },
    }
}

/// Reads the value of a single feature. Fails only if memory is refused, or if a joined URI would be longer than URIs can be.
fn read_one(
    source: &ReadContext,
    number: u32,
    feature: FeatureNo,
    kind: &Kind,
    json: &Json,
) -> Result<ReadValues, AllocError>
    ensures value { IfOk result (λ r. Numbered source.now.meta.now source.now.found.now number (λ ps path. r ≡ values_so_far source.now.meta.now (base_of source.now.uri.now) ps path feature kind.now (view json.now ∷ []))) }
    ensures proxy { IfOk result (λ r. All IsProxyValue r.values) }
{
    let likely = number.saturating_add(1);
    let value = value_of(source, number, feature, kind, 0, likely, json)?;
    Ok(one_read(source.alloc, value, is_link(kind)))
}

/// Reads the content of a feature of the part with the number `number`. Fails only if memory is refused, if there are more than 2^32
/// values, or if a joined URI would be longer than URIs can be.
pub(crate) fn read_content<'t>(
    source: &ReadContext,
    number: u32,
    feature: FeatureNo,
    content: &'t Json<'t>,
) -> Result<ReadValues, AllocError>
    ensures value { IfOk result (λ r. Numbered source.now.meta.now source.now.found.now number (λ ps path. r ≡ entry_read source.now.meta.now (base_of source.now.uri.now) ps path (new_entry feature (view content.now)))) }
    ensures proxy { IfOk result (λ r. All IsProxyValue r.values) }
{
    match source.meta.feature(feature) {
        Some(found) if source.meta.is_single(feature) => {
            read_one(source, number, feature, &found.kind, content)
        }
        Some(found) => read_values(
            source,
            number,
            feature,
            &found.kind,
            values_of(source.meta, feature, content),
        ),
        None => no_values(source.alloc, 0),
    }
}
