//! Which values an attribute may hold, and how long a text or a URI may be.
ghost use Rattle.std.specs.Prelude.{◌≡◌};
ghost use Rattle.mm_types.specs.Lookups as m;
ghost use Rattle.mm_types.specs.Shapes.{is_full_list, shape};
ghost use Rattle.models.specs.Legal as l;
ghost use Rattle.models.specs.Reading as r;

use mm_meta::Meta;
use mm_types::{ClassNo, DataType, FeatureNo, Kind, Value, limits};

pub(crate) fn is_attribute_value(
    meta: &Meta,
    single: bool,
    value_type: DataType,
    value: &Value,
) -> bool
    ensures { result ≡ m.is_attribute_value meta.now single value_type value.now }
{
    match value {
        Value::Null => single && value_type == DataType::EString,
        _ => is_of_type(meta, value_type, value),
    }
}

fn is_of_type(meta: &Meta, value_type: DataType, value: &Value) -> bool
    ensures { result ≡ m.is_of_type meta.now value_type value.now }
{
    match (value_type, value) {
        (DataType::EString, Value::Text(_)) => true,
        (DataType::EInt, Value::Int(n)) => i32::try_from(*n).is_ok(),
        (DataType::ELong, Value::Int(n)) => {
            // The number is an `i64`, so it fits 64 bits.
            let _number = *n;
            true
        }
        (DataType::EBoolean, Value::Bool(_)) => true,
        (DataType::Enum(e), Value::Literal(index)) => meta.literal(e, *index).is_some(),
        _ => false,
    }
}

/// Whether a text or a URI has at most 65,535 bytes. Takes no memory.
pub fn is_short_text(text: &str) -> bool
    ensures { result ≡ l.is_short_text text.now }
{
    text.len() <= limits::TEXT_BYTES
}

/// Whether a value is no text, or a text of at most 65,535 bytes. Takes no memory.
pub fn is_short(value: &Value) -> bool
    ensures { result ≡ l.is_short value.now }
{
    match value {
        Value::Text(text) => is_short_text(text.as_str()),
        _ => true,
    }
}
