//! The URIs of resources, in the order of the resources' numbers.
ghost use Rattle.std.specs.Prelude.{◌≡◌, ◌+◌, ◌<◌, ◌≤◌, [], length, slice_get, position, option_copied, OnOk};
ghost use Rattle.std.specs.Option.{option_map};
ghost use Rattle.std.specs.Str.{bytes_eq};
ghost use Rattle.mm_values.specs.Values.{with_uri};

use crate::uri::Uri;
use indexmap::IndexSet;
use mm_types::{ResourceNo, Text};
use std::alloc::{AllocError, Global};
use std::marker::Model;

/// How many resources can have a number: a `ResourceNo` has 32 bits.
const NUMBERS: usize = 1 << 32;

/// The URIs in the order of the numbers of their resources, each URI once.
#[derive(Drop)]
pub(crate) struct Uris {
    set: IndexSet<Uri>,
}

impl Model for Uris {
    ghost use Rattle.std.specs.Prelude.{◌-◌, ◌^◌, ◌≤◌, length, map, min};
    ghost use Rattle.indexmap.specs.IndexSet.{spare as spare_of};
    ghost use Rattle.mm_values.specs.Uris.{UriRow};

    ghost Value = { UriRow };

    ghost view = { λ a. record { uris = map (λ u. u.text) a.set.keys; room = min (spare_of a.set) (2 ^ 32 - length a.set.keys) } };

    ghost invariant = { λ a. length a.set.keys ≤ 2 ^ 32 };
}

impl Uris {
    /// No URIs. Takes no memory.
    pub fn new(alloc: Global) -> Self
        ensures { result.uris ≡ [] }
    {
        Uris {
            set: IndexSet::new(alloc),
        }
    }

    /// How many resources there are.
    pub fn len(&self) -> usize
        ensures { result ≡ length self.now.uris }
    {
        self.set.len()
    }

    /// The URI of a resource; `None` if no resource has the number.
    pub fn get(&self, resource: ResourceNo) -> Option<&str>
        ensures { option_copied result ≡ slice_get self.now.uris resource.0 }
    {
        let uri = self.set.get_index(resource.0 as usize)?;
        Some(uri.as_str())
    }

    /// The resource that has a URI; `None` if no resource has the URI.
    pub fn find(&self, uri: &str) -> Option<ResourceNo>
        ensures { result ≡ option_map (λ i. record { 0 = i }) (position (bytes_eq uri.now) self.now.uris) }
    {
        let index = self.set.get_index_of(uri)?;
        Some(ResourceNo(index as u32))
    }

    /// Reserves capacity for `additional` more URIs. Fails only if memory is refused, or if the URIs and the additional ones together are
    /// more than 2^32.
    pub fn reserve(&mut self, additional: usize) -> Result<(), AllocError>
        ensures uris { self.new.uris ≡ self.old.uris }
        ensures ok { OnOk result (additional ≤ self.new.room) }
    {
        if additional > NUMBERS - self.set.len() {
            return Err(AllocError);
        }
        self.set.reserve(additional)
    }

    /// Adds a URI at the end; if the URI is there already, nothing changes. Takes no memory.
    pub fn add(&mut self, uri: Text)
        requires { 0 < self.old.room }
        ensures uris { self.new.uris ≡ with_uri self.old.uris uri }
        ensures room { self.old.room ≤ self.new.room + 1 }
    {
        match self.set.insert(Uri::new(uri)) {
            Ok(_) => (),
            Err(_) => unreachable!(),
        }
    }
}
