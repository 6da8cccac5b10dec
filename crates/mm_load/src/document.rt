//! Documents whose layout is right. The limits of a metamodel are checked after the layout.
ghost use Rattle.std.specs.Prelude.{◌≡◌};
ghost use Rattle.serde_json.specs.Data.{object};
ghost use Rattle.serde_json.specs.View.{members_view};
ghost use Rattle.json_fields.specs.Fields.{Gives, Fields};
ghost use Rattle.mm_load.specs.Layout.{document_fields};
ghost use Rattle.mm_load.specs.Loaded.{metamodel_if_within_limits};

use crate::from_json::FromJson;
use crate::keys::{optional, required};
use json_fields::{ReadFault, only_members_of};
use mm_types::{Enumeration, MetaFault, RawClass, RawMeta, Seq};
use serde_json::{Map, Value};
use std::alloc::Global;
use std::marker::Model;

/// The enumerations and classes of a document whose layout is right. A count or a length may be above its limit. Contracts see a `Document`
/// as a `RawMetamodel`, within the limits or not.
#[derive(Debug, Drop)]
pub struct Document {
    enums: Seq<Enumeration>,
    classes: Seq<RawClass>,
}

impl Model for Document {
    ghost use Rattle.mm_types.specs.Raw.{RawMetamodel};

    ghost Value = { RawMetamodel };

    ghost view = { λ d. record { enums = d.enums; classes = d.classes } };
}

impl Document {
    /// The document that has these enumerations and classes. Takes no memory.
    pub fn new(enums: Seq<Enumeration>, classes: Seq<RawClass>) -> Self
        ensures { result ≡ record { enums = enums; classes = classes } }
    {
        Document { enums, classes }
    }

    /// The metamodel that the document describes; `Limit` if a count or a length is above its limit. Takes no memory.
    pub fn into_raw(self) -> Result<RawMeta, MetaFault>
        ensures { result ≡ metamodel_if_within_limits self }
    {
        if !RawMeta::is_within_limits(self.enums.as_slice(), self.classes.as_slice()) {
            return Err(MetaFault::Limit);
        }
        Ok(RawMeta::new(self.enums, self.classes))
    }
}

fn document_of(alloc: Global, mut members: Map<String, Value>) -> Result<Document, ReadFault>
    ensures { Gives result (document_fields.reading (object (members_view members.entries))) }
{
    let enums = optional(alloc, &mut members, "enums", Seq::new(alloc))?;
    let classes = required(alloc, &mut members, "classes")?;
    Ok(Document::new(enums, classes))
}

impl FromJson for Document {
    ghost use Rattle.mm_load.specs.Layout.{document};

    ghost reads = { document };

    #[tactic(auto, unfolding(crate::specs::Layout::document))]
    fn from_json(alloc: Global, value: Value) -> Result<Document, ReadFault> {
        match only_members_of(value, &["enums", "classes"]) {
            Some(members) => document_of(alloc, members),
            None => Err(ReadFault::Layout),
        }
    }
}
