//! The values of keys are taken out of a JSON object, and read.
ghost use Rattle.std.specs.Prelude.{[], ◌∷◌};
ghost use Rattle.serde_json.specs.Data.{object};
ghost use Rattle.serde_json.specs.View.{members_view};
ghost use Rattle.json_fields.specs.Fields.{Gives, KeepsOthers, optional_at, required_at};

use crate::from_json::FromJson;
use json_fields::{ReadFault, take};
use serde_json::{Map, Value};
use std::alloc::Global;

/// Takes out the value of a key and reads it. Fails with `Layout` if the key is absent or the value does not have the layout of `T`, and
/// with `Memory` if memory is refused. Members with other keys stay.
pub fn required<T: FromJson>(
    alloc: Global,
    members: &mut Map<String, Value>,
    key: &str,
) -> Result<T, ReadFault>
    ensures read { Gives result (required_at key.now T.reads (object (members_view members.old.entries))) }
    ensures others { KeepsOthers (key.now ∷ []) (members_view members.old.entries) (members_view members.new.entries) }
{
    match take(members, key) {
        Some(value) => T::from_json(alloc, value),
        None => Err(ReadFault::Layout),
    }
}

/// Takes out the value of a key and reads it; returns `absent` if the key is absent. Fails with `Layout` if the value does not have the
/// layout of `T`, and with `Memory` if memory is refused. Members with other keys stay.
pub fn optional<T: FromJson + Drop>(
    alloc: Global,
    members: &mut Map<String, Value>,
    key: &str,
    absent: T,
) -> Result<T, ReadFault>
    ensures read { Gives result (optional_at key.now T.reads absent (object (members_view members.old.entries))) }
    ensures others { KeepsOthers (key.now ∷ []) (members_view members.old.entries) (members_view members.new.entries) }
{
    match take(members, key) {
        Some(value) => T::from_json(alloc, value),
        None => Ok(absent),
    }
}
