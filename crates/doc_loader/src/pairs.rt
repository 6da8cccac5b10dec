//! Pairs of opposite features, neither of which is a containment. A link of a pair has an end under each of the two features. The edit that
//! puts the link names the end under the feature with the lower number.
ghost use Rattle.std.specs.Prelude.{◌≡◌};
ghost use Rattle.mm_types.specs.Shapes.{shape};
ghost use Rattle.doc_loader.specs.Pairs as p;

use mm_meta::Meta;
use mm_types::FeatureNo;

/// The opposite of a feature, if the opposite has the lower number of the two and neither of them is a containment; else `None`. Takes no
/// memory.
pub(crate) fn lower_of(meta: &Meta, feature: FeatureNo) -> Option<FeatureNo>
    ensures { result ≡ p.lower_of (shape meta.now feature) feature }
{
    match meta.opposite(feature) {
        Some(other) if other.0 < feature.0 && meta.containing(feature).is_none() => Some(other),
        _ => None,
    }
}

/// Whether a feature has an opposite with a higher number, and neither of the two is a containment. Takes no memory.
pub(crate) fn is_lower(meta: &Meta, feature: FeatureNo) -> bool
    ensures { result ≡ p.is_lower (shape meta.now feature) feature }
{
    if meta.containing(feature).is_some() {
        return false;
    }
    match meta.opposite(feature) {
        Some(other) => feature.0 < other.0,
        None => false,
    }
}

/// Whether a feature is a reference, but not the higher feature of a pair. If so, the values that a document has under this feature are put
/// by edits that name the ends of this feature, and not the ends of its opposite. Takes no memory.
pub(crate) fn is_near(meta: &Meta, feature: FeatureNo) -> bool
    ensures { result ≡ p.is_near (shape meta.now feature) feature }
{
    meta.is_reference(feature) && lower_of(meta, feature).is_none()
}
