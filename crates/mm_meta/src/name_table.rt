//! Look-ups by name.
ghost use Rattle.std.specs.Prelude.{◌≡◌, ◌∷◌, ◌++◌, [], ℕ, List, length, map, IfOk, IfSome, OnOk, Some, position, option_and_then, slice_get};
ghost use Rattle.std.specs.Str.{bytes_eq};
ghost use Rattle.indexmap.specs.IndexMap.{get_by_text};
ghost use Rattle.mm_meta.specs.NameTable.{AreTablesOf, IsTableOf, position_in};

use indexmap::IndexMap;
use mm_types::{Class, Enumeration, Feature, RawClass, RawFeature, Text};
use std::alloc::{AllocError, Global};

/// A type whose values have names.
pub trait Named {
    ghost name: { Self → List ℕ };

    fn name(&self) -> &str
        ensures { result.now ≡ name self.now };
}

impl Named for Enumeration {
    ghost name = { λ e. e.name };

    fn name(&self) -> &str {
        self.name.as_str()
    }
}

impl Named for RawClass {
    ghost name = { λ c. c.name };

    fn name(&self) -> &str {
        self.name.as_str()
    }
}

impl Named for RawFeature {
    ghost name = { λ f. f.name };

    fn name(&self) -> &str {
        self.name.as_str()
    }
}

impl Named for Class {
    ghost name = { λ c. c.name };

    fn name(&self) -> &str {
        self.name.as_str()
    }
}

impl Named for Feature {
    ghost name = { λ f. f.name };

    fn name(&self) -> &str {
        self.name.as_str()
    }
}

/// A literal is its own name.
impl Named for Text {
    ghost name = { λ t. t };

    fn name(&self) -> &str {
        self.as_str()
    }
}

/// The first position of each name in a list of names.
#[derive(Drop)]
pub struct NameTable {
    positions: IndexMap<String, usize>,
    /// At the slot of a name (`slot_of`) is a hint: an index in `positions`, at which the name is looked for first, since this is faster
    /// than hashing the name. A hint may be any number. If the name is not at this index, the name is looked for by its hash.
    hints: Vec<u32>,
}

impl NameTable {
    fn new(alloc: Global) -> Self
        ensures { IsTableOf result [] }
    {
        NameTable {
            positions: IndexMap::new(alloc),
            hints: Vec::new(alloc),
        }
    }

    /// Adds a name with the position `at`. If the table has the name already, the name keeps its earlier position, and nothing changes.
    fn insert(&mut self, alloc: Global, name: &str, at: usize) -> Result<(), AllocError>
        ensures { OnOk result ((names : List (List ℕ)) → length names ≡ at → IsTableOf self.old names → IsTableOf self.new (names ++ name.now ∷ [])) }
    {
        if self.positions.get(name).is_none() {
            let key = String::from_str(alloc, name)?;
            self.positions.insert(key, at)?;
        }
        Ok(())
    }

    /// The table of the names of these items. Fails only if memory is refused.
    pub fn of<T: Named>(alloc: Global, items: &[T]) -> Result<Self, AllocError>
        ensures { IfOk result (λ t. IsTableOf t (map T.name items.now)) }
    {
        let mut table = NameTable::new(alloc);
        'items: for (i, item) in items.iter().enumerate() {
            table.insert(alloc, item.name(), i)?;
        }
        table.hints = hints_for(alloc, &table.positions)?;
        Ok(table)
    }

    /// The first position of a name.
    pub fn position(&self, name: &str) -> Option<usize>
        ensures { (names : List (List ℕ)) → IsTableOf self.now names → result ≡ position (λ n. bytes_eq n name.now) names }
    {
        match self.hinted(name) {
            Some(at) => Some(at),
            None => self.hashed(name),
        }
    }

    /// The first position of a name, found by its hint; `None` if the name is not at the index that the hint gives.
    fn hinted(&self, name: &str) -> Option<usize>
        ensures { IfSome result (λ at. get_by_text self.now.positions name.now ≡ Some at) }
    {
        let hint = self.hints.get(slot_of(name, self.hints.len()))?;
        let (key, at) = self.positions.get_index(*hint as usize)?;
        if name == key.as_str() {
            Some(*at)
        } else {
            None
        }
    }

    /// The first position of a name; `None` if the table does not have the name. The name is looked for by its hash. This search has its
    /// own function, so that a search by a hint spills no registers.
    #[cold]
    fn hashed(&self, name: &str) -> Option<usize>
        ensures { result ≡ get_by_text self.now.positions name.now }
    {
        self.positions.get(name).copied()
    }
}

/// The hints for the names in `positions`. There are two to four times as many hints as names, and one hint if there are no names. If names
/// have the same slot, the hint there is the index of the first of these names. At a slot that no name has, the hint is `u32::MAX`.
fn hints_for(alloc: Global, positions: &IndexMap<String, usize>) -> Result<Vec<u32>, AllocError> {
    let count = positions.len().min(u32::MAX as usize);
    let mut hints = vec![in alloc; u32::MAX; (2 * count).next_power_of_two()]?;
    for index in 0..count {
        if let Some((name, _)) = positions.get_index(index) {
            let slot = slot_of(name.as_str(), hints.len());
            if let Some(hint) = hints.get_mut(slot) {
                if *hint == u32::MAX {
                    *hint = index as u32;
                }
            }
        }
    }
    Ok(hints)
}

/// The slot of a name among `hints` hints; `hints` is a power of two. The slot depends on the length, the first byte and the last two bytes
/// of the name, which distinguish most names.
fn slot_of(name: &str, hints: usize) -> usize {
    let bytes = name.as_bytes();
    let len = bytes.len();
    if len == 0 {
        return 0;
    }
    let ends = bytes[0] as usize + bytes[len - 1] as usize;
    let last_but_one = bytes[len.saturating_sub(2)] as usize;
    (len + 7 * ends + 11 * last_but_one) & hints.wrapping_sub(1)
}

/// The first position of a name, as the table at `index` finds it; `None` if there is no table at `index`, or if the table does not have
/// the name.
pub fn position_at(tables: &[NameTable], index: usize, name: &str) -> Option<usize>
    ensures { (lists : List (List (List ℕ))) → AreTablesOf tables.now lists → result ≡ position_in lists index name.now }
{
    tables.get(index)?.position(name)
}
