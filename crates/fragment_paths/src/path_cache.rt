//! Fragments that are remembered.
ghost use Rattle.std.specs.FinMap as map;
ghost use Rattle.std.specs.Option.{option_copied};
ghost use Rattle.std.specs.Prelude.{◌≡◌, ◌⊎◌, false};
ghost use Rattle.fragment_paths.specs.Kept as kept;

use indexmap::IndexMap;
use mm_types::{ObjectNo, Text};
use std::alloc::Global;
use std::marker::Model;

/// The greatest number of fragments that are remembered.
const MOST: usize = 1_024;

/// Fragments of objects, remembered so that a fragment need not be computed for each read. Contracts see a `PathCache` as a finite map from
/// the numbers of objects to texts. A `PathCache` holds at most 1,024 texts.
#[derive(Drop)]
pub struct PathCache {
    texts: IndexMap<u32, Text>,
}

impl Model for PathCache {
    ghost use Rattle.std.specs.Coded.{codes};
    ghost use Rattle.std.specs.FinMap as map;
    ghost use Rattle.std.specs.Prelude.{◌≡◌, ◌≤◌, length};
    ghost use Rattle.fragment_paths.specs.Kept.{Kept, kept_map};

    ghost Value = { Kept };

    ghost coded = { map.code (Prim.hlevel codes) (Prim.hlevel codes) };

    ghost view = { λ c. kept_map c.texts.entries };

    ghost invariant = { λ c. (map.len (kept_map c.texts.entries) ≡ length c.texts.entries) × (length c.texts.entries ≤ 1024) };
}

impl PathCache {
    /// No texts. Takes no memory.
    pub fn new(alloc: Global) -> Self
        ensures { result ≡ map.empty }
    {
        PathCache {
            texts: IndexMap::new(alloc),
        }
    }

    /// The text that is kept for an object; `None` if no text is kept for it. Takes no memory.
    pub fn get(&self, object: ObjectNo) -> Option<&str>
        ensures { option_copied result ≡ map.get self.now object.0 }
    {
        let text = self.texts.get(&object.0)?;
        Some(text.as_str())
    }

    /// Keeps a text for an object, in place of any text that was kept for this object. If 1,024 texts of other objects are kept, all of
    /// them are dropped first, even if memory is then refused. If memory is refused, the text is not kept, and an earlier text of the
    /// object stays.
    pub fn keep(&mut self, object: ObjectNo, text: &str)
        ensures { kept.MayKeep self.old object text.now self.new }
    {
        self.make_room(object);
        let alloc = *self.texts.allocator();
        match Text::from_str(alloc, text) {
            Ok(text) => self.put(object, text),
            Err(_) => {}
        }
    }

    /// Drops all texts. Takes no memory.
    pub fn clear(&mut self)
        ensures { self.new ≡ map.empty }
    {
        self.texts.clear();
    }

    /// Whether the map is full, and has no text of the object.
    fn is_full_for(&self, object: ObjectNo) -> bool
        ensures { result ≡ kept.is_full_for self.now object }
    {
        self.texts.len() >= MOST && !self.texts.contains_key(&object.0)
    }

    /// Prepares the map for the text of an object: if the map is full and has no text of the object, all texts are dropped.
    fn make_room(&mut self, object: ObjectNo)
        ensures { self.new ≡ kept.with_room self.old object }
    {
        if self.is_full_for(object) {
            self.clear();
        }
    }

    /// Keeps the text of an object. Requires that the map is not full, or has a text of the object. If memory is refused, the text is not
    /// kept, and an earlier text of the object stays.
    fn put(&mut self, object: ObjectNo, text: Text)
        requires { kept.is_full_for self.old object ≡ false }
        ensures { (self.new ≡ map.insert self.old object.0 text) ⊎ (self.new ≡ self.old) }
    {
        let _ = self.texts.insert(object.0, text);
    }
}
