//! Features are read: the fields that attributes and references have in common, and the further fields of an attribute or a reference.
ghost use Rattle.std.specs.Prelude.{◌≡◌};
ghost use Rattle.serde_json.specs.Data.{object};
ghost use Rattle.serde_json.specs.View.{members_view};
ghost use Rattle.json_fields.specs.Fields.{Gives, KeepsOthers, Fields};
ghost use Rattle.mm_load.specs.Layout.{attribute, attribute_fields, feature, feature_fields, reference, reference_fields, unsets_one};

use crate::from_json::FromJson;
use crate::head::Head;
use crate::keys::{optional, required};
use json_fields::{ReadFault, has_only_keys_of, is_word, members_of};
use mm_types::{RawFeature, RawKind};
use serde_json::{Map, Value};
use std::alloc::Global;

/// The keys of the fields that attributes and references have in common.
const HEAD: [&str; 4] = ["name", "type", "lower", "upper"];

/// Takes out the values of the keys in `HEAD` and reads them. `members` are those of the JSON object of a feature, and members with other
/// keys stay. Fails with `Layout` if a required key is absent or a value does not have its layout; with `Memory` if memory is refused.
fn take_head(alloc: Global, members: &mut Map<String, Value>) -> Result<Head, ReadFault>
    ensures read { Gives result (feature_fields.reading (object (members_view members.old.entries))) }
    ensures others { KeepsOthers feature_fields.keys (members_view members.old.entries) (members_view members.new.entries) }
{
    let name = required(alloc, members, "name")?;
    let type_name = required(alloc, members, "type")?;
    let lower = optional(alloc, members, "lower", 0)?;
    let upper = optional(alloc, members, "upper", 1)?;
    Ok(Head {
        name,
        type_name,
        lower,
        upper,
    })
}

/// Reads the further fields of an attribute: checks that the value of `kind` is `attribute`, and takes out and reads the values of
/// `unique`, `unsettable` and `default`. Fails with `Layout` if the kind is different or a value does not have its layout; with `Memory` if
/// memory is refused.
fn take_attribute(alloc: Global, members: &mut Map<String, Value>) -> Result<RawKind, ReadFault>
    ensures { Gives result (attribute_fields.reading (object (members_view members.old.entries))) }
{
    if !is_word(members, "kind", "attribute") {
        return Err(ReadFault::Layout);
    }
    let unique = optional(alloc, members, "unique", true)?;
    let unsettable = optional(alloc, members, "unsettable", false)?;
    let default = optional(alloc, members, "default", None)?;
    Ok(RawKind::Attribute {
        unique,
        unsettable,
        default,
    })
}

/// Reads the further fields of a reference: checks that the value of `kind` is `reference`, and takes out and reads the values of
/// `containment` and `opposite`. Fails with `Layout` if the kind is different or a value does not have its layout; with `Memory` if memory
/// is refused.
fn take_reference(alloc: Global, members: &mut Map<String, Value>) -> Result<RawKind, ReadFault>
    ensures { Gives result (reference_fields.reading (object (members_view members.old.entries))) }
{
    if !is_word(members, "kind", "reference") {
        return Err(ReadFault::Layout);
    }
    let containment = optional(alloc, members, "containment", false)?;
    let opposite = optional(alloc, members, "opposite", None)?;
    Ok(RawKind::Reference {
        containment,
        opposite,
    })
}

/// Whether a feature is single (its upper bound is 1), or is not unsettable. Always true of a reference, which is never unsettable.
fn unsets_one_at_most(feature: &RawFeature) -> bool
    ensures { result ≡ unsets_one feature.now }
{
    match &feature.kind {
        RawKind::Attribute { unsettable, .. } => !*unsettable || feature.upper == 1,
        RawKind::Reference { .. } => true,
    }
}

#[tactic(auto, unfolding(crate::specs::Layout::attribute))]
fn attribute_of(alloc: Global, mut members: Map<String, Value>) -> Result<RawFeature, ReadFault>
    ensures { Gives result (attribute (object (members_view members.entries))) }
{
    if !has_only_keys_of(
        &members,
        &HEAD,
        &["kind", "unique", "unsettable", "default"],
    ) {
        return Err(ReadFault::Layout);
    }
    let head = take_head(alloc, &mut members)?;
    let kind = take_attribute(alloc, &mut members)?;
    let feature = head.with(kind);
    if !unsets_one_at_most(&feature) {
        return Err(ReadFault::Layout);
    }
    Ok(feature)
}

#[tactic(auto, unfolding(crate::specs::Layout::reference))]
fn reference_of(alloc: Global, mut members: Map<String, Value>) -> Result<RawFeature, ReadFault>
    ensures { Gives result (reference (object (members_view members.entries))) }
{
    if !has_only_keys_of(&members, &HEAD, &["kind", "containment", "opposite"]) {
        return Err(ReadFault::Layout);
    }
    let head = take_head(alloc, &mut members)?;
    let kind = take_reference(alloc, &mut members)?;
    Ok(head.with(kind))
}

fn feature_of(alloc: Global, members: Map<String, Value>) -> Result<RawFeature, ReadFault>
    ensures { Gives result (feature (object (members_view members.entries))) }
{
    if is_word(&members, "kind", "attribute") {
        return attribute_of(alloc, members);
    }
    reference_of(alloc, members)
}

impl FromJson for RawFeature {
    ghost use Rattle.mm_load.specs.Layout.{feature};

    ghost reads = { feature };

    #[tactic(auto, unfolding(crate::specs::Layout::feature, crate::specs::Layout::attribute, crate::specs::Layout::reference))]
    fn from_json(alloc: Global, value: Value) -> Result<RawFeature, ReadFault> {
        match members_of(value) {
            Some(members) => feature_of(alloc, members),
            None => Err(ReadFault::Layout),
        }
    }
}
