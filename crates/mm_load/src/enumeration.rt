//! Enumerations are read.
ghost use Rattle.std.specs.Prelude.{◌≡◌, codes};
ghost use Rattle.serde_json.specs.Data.{object};
ghost use Rattle.serde_json.specs.View.{members_view};
ghost use Rattle.json_fields.specs.Fields.{Gives, Fields, array_of_some, required_at, text};
ghost use Rattle.mm_load.specs.Layout.{enumeration_fields};

use crate::from_json::FromJson;
use crate::keys::required;
use json_fields::{ReadFault, only_members_of};
use mm_types::{Enumeration, Seq, Text};
use serde_json::{Map, Value};
use std::alloc::Global;

/// Takes out the literals of an enumeration and reads them. `members` are those of the JSON object of the enumeration. Fails with `Layout`
/// if the key `literals` is absent, or if its value is not an array of at least one text; with `Memory` if memory is refused.
fn take_literals(alloc: Global, members: &mut Map<String, Value>) -> Result<Seq<Text>, ReadFault>
    ensures { Gives result (required_at (codes "literals") (array_of_some text) (object (members_view members.old.entries))) }
{
    let literals: Seq<Text> = required(alloc, members, "literals")?;
    if literals.is_empty() {
        return Err(ReadFault::Layout);
    }
    Ok(literals)
}

fn enumeration_of(alloc: Global, mut members: Map<String, Value>) -> Result<Enumeration, ReadFault>
    ensures { Gives result (enumeration_fields.reading (object (members_view members.entries))) }
{
    let name = required(alloc, &mut members, "name")?;
    let literals = take_literals(alloc, &mut members)?;
    Ok(Enumeration { name, literals })
}

impl FromJson for Enumeration {
    ghost use Rattle.mm_load.specs.Layout.{enumeration};

    ghost reads = { enumeration };

    #[tactic(auto, unfolding(crate::specs::Layout::enumeration))]
    fn from_json(alloc: Global, value: Value) -> Result<Enumeration, ReadFault> {
        match only_members_of(value, &["name", "literals"]) {
            Some(members) => enumeration_of(alloc, members),
            None => Err(ReadFault::Layout),
        }
    }
}
