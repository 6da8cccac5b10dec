//! Keys of tables about references.
ghost use Rattle.std.specs.Prelude.{◌≡◌};
ghost use Rattle.models.specs.ReferenceKeys as spec;

use mm_types::{FeatureNo, ObjectNo};

/// The number of an object, the number of a reference of this object, and a third number. In some tables the third number is the index of a
/// value of the reference. In others it is the number of the object that a value is, or to which a proxy leads.
#[derive(Clone, Copy, PartialEq, Eq, Hash)]
pub struct ReferenceKey {
    pub object: u32,
    pub feature: u32,
    pub number: u32,
}

impl ReferenceKey {
    /// The key of the reference `feature` of `object`, with `number` as its third number.
    pub fn of(object: ObjectNo, feature: FeatureNo, number: u32) -> Self
        ensures { result ≡ spec.reference_key object feature number }
    {
        ReferenceKey {
            object: object.0,
            feature: feature.0,
            number,
        }
    }
}
