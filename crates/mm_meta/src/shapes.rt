//! Look-ups of the shapes of features, also of `contents`, and of the names of classes, features and literals. A number that no feature has
//! gets the shape of `contents`.
ghost use Rattle.std.specs.Prelude.{◌≡◌, option_copied, option_and_then};
ghost use Rattle.mm_types.specs.Lookups as m;
ghost use Rattle.mm_types.specs.Shapes.{is_full_list, shape};

use crate::meta::Meta;
use mm_types::{ClassNo, DataType, FeatureNo, Kind};

impl Meta {
    /// Whether some class has the number, and is concrete.
    pub fn is_concrete(&self, class: ClassNo) -> bool
        ensures { result ≡ m.is_concrete self.now class }
    {
        match self.class(class) {
            Some(class) => !class.is_abstract,
            None => false,
        }
    }

    /// Whether a feature holds one value at most (EMF: ETypedElement.isMany, negated). Takes no memory.
    pub fn is_single(&self, feature: FeatureNo) -> bool
        ensures { result ≡ (shape self.now feature).is_single }
    {
        match self.feature(feature) {
            Some(feature) => feature.upper == 1,
            None => false,
        }
    }

    /// Whether the values of a feature are distinct (EMF: ETypedElement.isUnique). The values of a reference always are. Takes no memory.
    pub fn is_unique(&self, feature: FeatureNo) -> bool
        ensures { result ≡ (shape self.now feature).is_unique }
    {
        match self.feature(feature) {
            Some(found) => match &found.kind {
                Kind::Attribute { unique, .. } => *unique,
                Kind::Reference { .. } => true,
            },
            None => true,
        }
    }

    /// Whether a list of `len` values at a feature is full: the upper bound of the feature is above 1, and `len` is not below the upper
    /// bound. Takes no memory.
    pub fn is_full(&self, feature: FeatureNo, len: u32) -> bool
        ensures { result ≡ is_full_list (shape self.now feature) len }
    {
        match self.feature(feature) {
            Some(found) => found.upper > 1 && i64::from(found.upper) <= i64::from(len),
            None => false,
        }
    }

    /// Whether a feature holds objects (EMF: EReference); `contents` does. Takes no memory.
    pub fn is_reference(&self, feature: FeatureNo) -> bool
        ensures { result ≡ (shape self.now feature).is_reference }
    {
        match self.feature(feature) {
            Some(found) => match &found.kind {
                Kind::Attribute { .. } => false,
                Kind::Reference { .. } => true,
            },
            None => true,
        }
    }

    /// Whether a feature is unsettable: then each object with the feature has a flag, which says whether the feature is set, whatever its
    /// value is (EMF: EStructuralFeature.isUnsettable). Takes no memory.
    pub fn is_unsettable(&self, feature: FeatureNo) -> bool
        ensures { result ≡ (shape self.now feature).is_unsettable }
    {
        match self.feature(feature) {
            Some(found) => match &found.kind {
                Kind::Attribute { unsettable, .. } => *unsettable,
                Kind::Reference { .. } => false,
            },
            None => false,
        }
    }

    /// The name of a class; empty if no class has the number. Takes no memory.
    pub fn class_name(&self, class: ClassNo) -> &str
        ensures { result.now ≡ m.class_name self.now class }
    {
        match self.class(class) {
            Some(class) => class.name.as_str(),
            None => "",
        }
    }

    /// The name of a feature; empty if no feature has the number. Takes no memory.
    pub fn feature_name(&self, feature: FeatureNo) -> &str
        ensures { result.now ≡ m.feature_name self.now feature }
    {
        match self.feature(feature) {
            Some(feature) => feature.name.as_str(),
            None => "",
        }
    }

    /// The name of the literal at an index of a feature's type; empty if the type has no such literal, or if no feature has the number.
    /// Takes no memory.
    pub fn literal_text(&self, feature: FeatureNo, index: u32) -> &str
        ensures { result.now ≡ m.literal_text self.now feature index }
    {
        self.literal_in(feature, index).unwrap_or("")
    }

    fn literal_in(&self, feature: FeatureNo, index: u32) -> Option<&str>
        ensures { option_copied result ≡ option_and_then (λ g. m.literal_in self.now g.kind index) (m.feature self.now feature) }
    {
        match &self.feature(feature)?.kind {
            Kind::Attribute {
                value_type: DataType::Enum(enumeration),
                ..
            } => self.literal(*enumeration, index),
            _ => None,
        }
    }
}

pub(crate) fn is_containment(kind: &Kind) -> bool
    ensures { result ≡ m.is_containment_kind kind.now }
{
    matches!(
        kind,
        Kind::Reference {
            containment: true,
            ..
        }
    )
}
