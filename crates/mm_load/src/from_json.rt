//! JSON values are read as truth values, whole numbers of 32 bits, texts, and sequences, whose items are read in turn.
ghost use Rattle.std.specs.Prelude.{◌≡◌, Option};
ghost use Rattle.serde_json.specs.Data.{Data};
ghost use Rattle.serde_json.specs.View.{items_view, view};
ghost use Rattle.json_fields.specs.Fields.{Gives, array_of, each, flag, given_value, text, whole_number};

use json_fields::ReadFault;
use mm_types::{Seq, Text, limits};
use serde_json::Value;
use std::alloc::Global;

/// A type whose values are read from JSON. Its definition `reads` says which value of the type a JSON value is read as; none if the JSON
/// value does not have the layout of the type.
pub trait FromJson: Sized {
    ghost reads: { Data → Option Self };

    /// Reads a value. Fails with `Layout` if the value does not have the layout of the type, and with `Memory` if memory is refused. A long
    /// text is moved out of the JSON value, and not copied; the rest of the JSON value is freed. So reading a document takes little memory
    /// beside the parsed JSON.
    fn from_json(alloc: Global, value: Value) -> Result<Self, ReadFault>
        ensures { Gives result (reads (view value)) };
}

impl FromJson for bool {
    ghost reads = { flag };

    fn from_json(_alloc: Global, value: Value) -> Result<bool, ReadFault> {
        value.as_bool().ok_or(ReadFault::Layout)
    }
}

impl FromJson for i32 {
    ghost reads = { whole_number };

    fn from_json(_alloc: Global, value: Value) -> Result<i32, ReadFault> {
        let Some(number) = value.as_i64() else {
            return Err(ReadFault::Layout);
        };
        i32::try_from(number).map_err(|_| ReadFault::Layout)
    }
}

impl FromJson for Text {
    ghost reads = { text };

    fn from_json(alloc: Global, value: Value) -> Result<Text, ReadFault> {
        match value {
            Value::String(text) => Ok(Text::from_string(alloc, text)?),
            _ => Err(ReadFault::Layout),
        }
    }
}

fn each_of<T: FromJson + Drop>(alloc: Global, values: Vec<Value>) -> Result<Seq<T>, ReadFault>
    ensures { Gives result (each T.reads (items_view values.items)) }
{
    // Capacity for the whole list is reserved at once. `limits::CLASSES` is enough, since no list in a document within the limits is
    // longer.
    let mut items = Vec::with_capacity(alloc, values.len().min(limits::CLASSES))?;
    'values: for value in values {
        items.push(T::from_json(alloc, value)?)?;
    }
    Ok(Seq::from_vec(items))
}

impl<T: FromJson + Drop> FromJson for Seq<T> {
    ghost reads = { array_of T.FromJson.reads };

    fn from_json(alloc: Global, value: Value) -> Result<Seq<T>, ReadFault> {
        match value {
            Value::Array(values) => each_of(alloc, values),
            _ => Err(ReadFault::Layout),
        }
    }
}

impl<T: FromJson + Drop> FromJson for Option<T> {
    ghost reads = { given_value T.FromJson.reads };

    fn from_json(alloc: Global, value: Value) -> Result<Option<T>, ReadFault> {
        Ok(Some(T::from_json(alloc, value)?))
    }
}
