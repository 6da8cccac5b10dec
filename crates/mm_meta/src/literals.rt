//! The values that texts write as literals of a type, and the default of a type.
ghost use Rattle.std.specs.Prelude.{◌≡◌, option_and_then};
ghost use Rattle.mm_types.specs.Integers.{integer};
ghost use Rattle.mm_types.specs.Resolved.{int_of_bits, truth_value, type_default as default_of_type};

use mm_types::integers::integer_of;
use mm_types::{DataType, Value};

/// The value that a text writes as a literal of EInt; `None` if the text writes no signed whole number of 32 bits.
pub fn int_value(text: &str) -> Option<Value>
    ensures { result ≡ option_and_then (int_of_bits 32) (integer text.now) }
{
    match integer_of(text) {
        Some(n) if i64::from(i32::MIN) <= n && n <= i64::from(i32::MAX) => Some(Value::Int(n)),
        _ => None,
    }
}

/// The value that a text writes as a literal of EBoolean; `None` for a text other than `true` and `false`.
pub fn boolean_value(text: &str) -> Option<Value>
    ensures { result ≡ truth_value text.now }
{
    if text == "true" {
        return Some(Value::Bool(true));
    }
    if text == "false" {
        return Some(Value::Bool(false));
    }
    None
}

/// The default of a type: null for EString, 0 for EInt and ELong, false for EBoolean, and the first literal for an enumeration.
pub fn type_default(t: DataType) -> Value
    ensures { result ≡ default_of_type t }
{
    match t {
        DataType::EString => Value::Null,
        DataType::EInt | DataType::ELong => Value::Int(0),
        DataType::EBoolean => Value::Bool(false),
        DataType::Enum(_) => Value::Literal(0),
    }
}
