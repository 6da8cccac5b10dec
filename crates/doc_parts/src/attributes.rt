//! Reads the values of attributes.
ghost use Rattle.std.specs.Prelude.{◌≡◌, IfOk, is_some, option_map};
ghost use Rattle.json_fields.specs.Fields.{whole_number};
ghost use Rattle.mm_types.specs.declared.value.Value.TheVariants as value;
ghost use Rattle.borrowed_json.specs.View.{view};
ghost use Rattle.doc_parts.specs.Contents.{attribute_value as value_meant, text_value as text_meant};

use borrowed_json::Json;
use mm_meta::Meta;
use mm_types::{DataType, Text, Value, limits};
use std::alloc::{AllocError, Global};

fn text_value(alloc: Global, is_single: bool, json: &Json) -> Result<Option<Value>, AllocError>
    ensures { IfOk result (λ v. v ≡ text_meant is_single (view json.now)) }
{
    if is_single && json.is_null() {
        return Ok(Some(Value::Null));
    }
    match json.as_str() {
        Some(text) if text.len() <= limits::TEXT_BYTES => Ok(Some(Value::Text(Text::from_str(
            alloc, text,
        )?))),
        _ => Ok(None),
    }
}

fn int_value(json: &Json) -> Option<Value>
    ensures { result ≡ option_map value.Int (whole_number (view json.now)) }
{
    match json.as_i64() {
        Some(n) if i64::from(i32::MIN) <= n && n <= i64::from(i32::MAX) => Some(Value::Int(n)),
        _ => None,
    }
}

/// The value that `json` gives an attribute of a data type; `None` if `json` gives no value of that type. `is_single` says whether the
/// attribute is single. A text has at most 65,535 bytes, and null is a value only of a single EString attribute. Fails only if memory is
/// refused.
pub fn attribute_value(
    alloc: Global,
    meta: &Meta,
    is_single: bool,
    data_type: DataType,
    json: &Json,
) -> Result<Option<Value>, AllocError>
    ensures { IfOk result (λ v. v ≡ value_meant meta.now is_single data_type (view json.now)) }
{
    match data_type {
        DataType::EString => text_value(alloc, is_single, json),
        DataType::EInt => Ok(int_value(json)),
        DataType::ELong => Ok(json.as_i64().map(Value::Int)),
        DataType::EBoolean => Ok(json.as_bool().map(Value::Bool)),
        DataType::Enum(enumeration) => match json.as_str() {
            Some(name) => Ok(meta.literal_by_name(enumeration, name).map(Value::Literal)),
            None => Ok(None),
        },
    }
}

fn is_text(is_single: bool, json: &Json) -> bool
    ensures { result ≡ is_some (text_meant is_single (view json.now)) }
{
    if is_single && json.is_null() {
        return true;
    }
    match json.as_str() {
        Some(text) => text.len() <= limits::TEXT_BYTES,
        None => false,
    }
}

/// Whether `json` is a value of an attribute of a data type, by the rules of `attribute_value`. Takes no memory.
pub(crate) fn is_attribute_value(
    meta: &Meta,
    is_single: bool,
    data_type: DataType,
    json: &Json,
) -> bool
    ensures { result ≡ is_some (value_meant meta.now is_single data_type (view json.now)) }
{
    match data_type {
        DataType::EString => is_text(is_single, json),
        DataType::EInt => int_value(json).is_some(),
        DataType::ELong => json.as_i64().is_some(),
        DataType::EBoolean => json.is_boolean(),
        DataType::Enum(enumeration) => match json.as_str() {
            Some(name) => meta.literal_by_name(enumeration, name).is_some(),
            None => false,
        },
    }
}
