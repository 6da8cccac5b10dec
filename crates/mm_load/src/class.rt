//! Classes are read.
ghost use Rattle.std.specs.Prelude.{◌≡◌};
ghost use Rattle.serde_json.specs.Data.{object};
ghost use Rattle.serde_json.specs.View.{members_view};
ghost use Rattle.json_fields.specs.Fields.{Gives, Fields};
ghost use Rattle.mm_load.specs.Layout.{class_fields};

use crate::from_json::FromJson;
use crate::keys::{optional, required};
use json_fields::{ReadFault, only_members_of};
use mm_types::{RawClass, Seq};
use serde_json::{Map, Value};
use std::alloc::Global;

fn class_of(alloc: Global, mut members: Map<String, Value>) -> Result<RawClass, ReadFault>
    ensures { Gives result (class_fields.reading (object (members_view members.entries))) }
{
    let name = required(alloc, &mut members, "name")?;
    let is_abstract = optional(alloc, &mut members, "abstract", false)?;
    let supers = optional(alloc, &mut members, "supers", Seq::new(alloc))?;
    let features = optional(alloc, &mut members, "features", Seq::new(alloc))?;
    Ok(RawClass {
        name,
        is_abstract,
        supers,
        features,
    })
}

impl FromJson for RawClass {
    ghost use Rattle.mm_load.specs.Layout.{class};

    ghost reads = { class };

    #[tactic(auto, unfolding(crate::specs::Layout::class))]
    fn from_json(alloc: Global, value: Value) -> Result<RawClass, ReadFault> {
        match only_members_of(value, &["name", "abstract", "supers", "features"]) {
            Some(members) => class_of(alloc, members),
            None => Err(ReadFault::Layout),
        }
    }
}
