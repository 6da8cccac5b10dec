//! Sets of keys.
ghost use Rattle.std.specs.Prelude.{◌≡◌};

use indexmap::IndexSet;
use models::ReferenceKey;
use std::alloc::{AllocError, Global};

/// A set of keys. Each key names a reference of an object, and either an index or an object in this reference.
#[derive(Drop)]
pub struct Keys {
    set: IndexSet<ReferenceKey>,
}

impl Keys {
    ghost use Rattle.std.specs.Prelude.{◌||◌, false, OnOk};
    ghost use Rattle.models.specs.ReferenceKeys.{same_reference_key};
    ghost use Rattle.models.specs.declared.reference_key.ReferenceKey.{ReferenceKey};
    ghost use Rattle.proxies.specs.Keys.{has};

    /// The empty set. Takes no memory.
    pub fn new(alloc: Global) -> Self
        ensures { (k : ReferenceKey) → has result k ≡ false }
    {
        Keys {
            set: IndexSet::new(alloc),
        }
    }

    /// Adds a key. Fails only if memory is refused.
    pub fn insert(&mut self, key: ReferenceKey) -> Result<(), AllocError>
        ensures { OnOk result ((k : ReferenceKey) → has self.new k ≡ has self.old k || same_reference_key k key) }
    {
        self.set.insert(key)?;
        Ok(())
    }

    /// Whether a key is in the set. Takes no memory.
    pub fn contains(&self, key: ReferenceKey) -> bool
        ensures { result ≡ has self.now key }
    {
        self.set.contains(&key)
    }
}
