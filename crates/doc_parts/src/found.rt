//! The parts of a document that were found, and their numbers.
ghost use Rattle.std.specs.Prelude.{◌≡◌, ◌++◌, ◌∷◌, ◌≤◌, ◌^◌, [], IfErr, IfOk, List, None, OnOk, Some, if◌then◌else◌, length, option_map};

use borrowed_json::{Json, Members};
use indexmap::IndexMap;
use mm_types::ClassNo;
use std::alloc::{AllocError, Global};
use web_uris::{Path, Step};

/// The key of a part. For a root, the key is the position of the root. For any other part p, the key has the number of the part directly
/// above p, and the step from that part to p. The number of a part is the index, in loading order, of the first part that has the same
/// path.
#[derive(Clone, Copy, PartialEq, Eq, Hash)]
pub enum PartKey<'m> {
    Root(u32),
    Under {
        part: u32,
        name: &'m str,
        index: Option<u32>,
    },
}

/// A position as a number of 32 bits, the type that positions have in keys. Takes no memory; fails if the position does not fit in 32 bits.
pub fn index_of(position: usize) -> Result<u32, AllocError>
    ensures index { IfOk result (λ i. i ≡ position) }
    ensures refused { IfErr result (λ _. 2 ^ 32 ≤ position) }
{
    if position > u32::MAX as usize {
        return Err(AllocError);
    }
    Ok(position as u32)
}

/// The numbers of parts by their keys.
#[derive(Drop)]
pub struct Numbers<'m> {
    numbers: IndexMap<PartKey<'m>, u32>,
}

/// A part: its JSON value, its class and the members under its key `features` if the class is known, its level, and its number, which is
/// the index of the first part that has the same path.
#[derive(Clone, Copy)]
pub struct FoundPart<'t> {
    pub json: &'t Json<'t>,
    pub known: Option<(ClassNo, Members<'t>)>,
    pub level: u32,
    pub number: u32,
}

impl<'t> FoundPart<'t> {
    ghost use Rattle.doc_parts.specs.FoundParts.{part_seen};

    /// The class of the part, if the class is known. Takes no memory.
    pub fn class(&self) -> Option<ClassNo>
        ensures { result ≡ option_map (λ k. k.0) (part_seen self.now).known }
    {
        match self.known {
            Some((class, _)) => Some(class),
            None => None,
        }
    }
}

/// The parts that were found, in loading order, and the numbers of these parts by their keys.
#[derive(Drop)]
pub struct FoundParts<'t, 'm> {
    pub parts: Vec<FoundPart<'t>>,
    pub numbers: Numbers<'m>,
}

impl<'m> Numbers<'m> {
    ghost use Rattle.doc_parts.specs.FoundParts.{Finds, IsPlaced};
    ghost use Rattle.doc_parts.specs.Parts.{Part, number_of};
    ghost use Rattle.doc_parts.specs.Keys.{Key, descend, is_at, key_of, number_at, way_of};

    /// No numbers. Takes no memory.
    pub fn new(alloc: Global) -> Self
        ensures { (k : Key) → number_at result k ≡ None }
    {
        Numbers {
            numbers: IndexMap::new(alloc),
        }
    }

    /// Reserves capacity for `count` more numbers. The numbers stay.
    fn reserve(&mut self, count: usize) -> Result<(), AllocError>
        ensures { self.new.numbers.entries ≡ self.old.numbers.entries }
    {
        self.numbers.reserve(count)
    }

    /// The number of the part at a key; `None` if no part has the key. Takes no memory.
    pub fn at(&self, key: PartKey) -> Option<u32>
        ensures { result ≡ number_at self.now (key_of key.entry) }
    {
        self.numbers.get(&key).copied()
    }

    /// The number of the part at a key; `None` if no part has the key. Keys are kept in the order in which they were added; the key at the
    /// index `likely` is tried first. Takes no memory.
    pub fn at_likely(&self, key: PartKey, likely: u32) -> Option<u32>
        ensures { result ≡ number_at self.now (key_of key.entry) }
    {
        match self.numbers.get_index(likely as usize) {
            Some((found, number)) if *found == key => Some(*number),
            _ => self.at(key),
        }
    }

    /// The number of the part to which steps lead from the part with the number `from`; `None` if they lead to no part.
    fn descend(&self, from: u32, steps: &[Step]) -> Option<u32>
        ensures { result ≡ descend (number_at self.now) (Some from) steps.now }
    {
        let mut part = from;
        'steps: for step in steps {
            let key = PartKey::Under {
                part,
                name: step.name.as_str(),
                index: step.index,
            };
            match self.at(key) {
                Some(next) => part = next,
                None => return None,
            }
        }
        Some(part)
    }

    /// The number of the part to which a path leads, step by step; `None` if it leads to no part. Takes no memory.
    pub fn of_path(&self, path: &Path) -> Option<u32>
        ensures { result ≡ way_of (number_at self.now) path.now }
    {
        match self.at(PartKey::Root(path.root)) {
            Some(root) => self.descend(root, path.steps.as_slice()),
            None => None,
        }
    }

    /// Gives a key a number, and returns the number that the key had before; `None` if the key had no number.
    fn put(&mut self, key: PartKey<'m>, number: u32) -> Result<Option<u32>, AllocError>
        ensures number { OnOk result ((k : Key) → number_at self.new k ≡ (if is_at k key.entry then Some number else number_at self.old k)) }
        ensures had { IfOk result (λ o. o ≡ number_at self.old (key_of key.entry)) }
    {
        let had = self.numbers.insert(key, number)?;
        Ok(had)
    }

    /// The number of the part at a key. A key that has no number yet gets the number `next`.
    pub fn number(&mut self, key: PartKey<'m>, next: u32) -> Result<u32, AllocError>
        ensures { IfOk result (λ n. (ps : List Part) (p : Part) → next ≡ length ps → Finds self.old ps → IsPlaced ps (key_of key.entry) p.path
            → Finds self.new (ps ++ p ∷ []) × (number_of (ps ++ p ∷ []) p.path ≡ Some n)) }
    {
        match self.put(key, next)? {
            Some(number) => {
                self.put(key, number)?;
                Ok(number)
            }
            None => Ok(next),
        }
    }
}

impl<'t, 'm> FoundParts<'t, 'm> {
    ghost use Rattle.mm_types.specs.Resolved.{Metamodel};
    ghost use Rattle.borrowed_json.specs.View.{members_view, view};
    ghost use Rattle.doc_parts.specs.FoundParts.{IsPlaced, Knows};
    ghost use Rattle.doc_parts.specs.Parts.{Part, class_and_members as known_meant, level_of, number_of};
    ghost use Rattle.doc_parts.specs.Keys.{key_of};

    /// No parts. Takes no memory.
    pub fn new(alloc: Global) -> Self
        ensures { (m : Metamodel) → Knows m result [] }
    {
        FoundParts {
            parts: Vec::new(alloc),
            numbers: Numbers::new(alloc),
        }
    }

    /// Reserves capacity for `count` more parts. What was found stays, even if memory is refused.
    pub(crate) fn reserve(&mut self, count: usize) -> Result<(), AllocError>
        ensures { (m : Metamodel) (ps : List Part) → Knows m self.old ps → Knows m self.new ps }
    {
        self.parts.reserve(count)?;
        self.numbers.reserve(count)
    }

    /// Adds a part, and returns its number, which is the index of the first part that has the same path. Fails if memory is refused, or if
    /// there are 2^32 parts already. After a failure the parts may not be used any more.
    pub fn add(
        &mut self,
        key: PartKey<'m>,
        level: u32,
        json: &'t Json<'t>,
        known: Option<(ClassNo, Members<'t>)>,
    ) -> Result<u32, AllocError>
        ensures { IfOk result (λ n. (m : Metamodel) (ps : List Part) (p : Part) → Knows m self.old ps → IsPlaced ps (key_of key.entry) p.path → level ≡ level_of p → view json.entry.now ≡ p.json
            → option_map (λ k. (k.0, members_view k.1.now)) known.entry ≡ known_meant m p.json → Knows m self.new (ps ++ p ∷ []) × (number_of (ps ++ p ∷ []) p.path ≡ Some n)) }
    {
        let count = self.parts.as_slice().len();
        if count > u32::MAX as usize {
            return Err(AllocError);
        }
        let number = self.numbers.number(key, count as u32)?;
        self.parts.push(FoundPart {
            json,
            known,
            level,
            number,
        })?;
        Ok(number)
    }
}
