//! The locations of proxies.
ghost use Rattle.std.specs.Prelude.{◌≡◌};
ghost use Rattle.proxies.specs.Keys.{key_of};

use mm_types::{FeatureNo, ObjectNo};
use models::ReferenceKey;

/// The location of a proxy: the referring object, its reference, and the index of the proxy in this reference.
#[derive(Clone, Copy)]
pub struct ProxySite {
    pub object: ObjectNo,
    pub feature: FeatureNo,
    pub index: u32,
}

impl ProxySite {
    /// The location as a key.
    pub fn key(self) -> ReferenceKey
        ensures { result ≡ key_of self }
    {
        ReferenceKey::of(self.object, self.feature, self.index)
    }
}
