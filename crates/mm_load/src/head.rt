//! The fields that attributes and references have in common.
ghost use Rattle.std.specs.Prelude.{◌≡◌};
ghost use Rattle.mm_load.specs.Layout.{new_feature};

use mm_types::{RawFeature, RawKind, Text};

/// The fields of a feature that attributes and references have in common, without the further fields of an attribute or a reference.
#[derive(Debug, Drop)]
pub struct Head {
    pub name: Text,
    pub type_name: Text,
    pub lower: i32,
    pub upper: i32,
}

impl Head {
    /// The feature that has these fields, and in `kind` the further fields of an attribute or a reference. Takes no memory.
    pub fn with(self, kind: RawKind) -> RawFeature
        ensures { result ≡ new_feature self kind }
    {
        RawFeature {
            name: self.name,
            type_name: self.type_name,
            lower: self.lower,
            upper: self.upper,
            kind,
        }
    }
}
