//! How many values of a list have each hash, and the label by which a value with that hash is found.
ghost use Rattle.std.specs.Prelude.{◌≡◌, ℕ, ◌+◌, ◌-◌, ◌^◌, ◌<◌, ◌≤◌, fold, nat_eq, nat_lt, IfOk, OnOk, if◌then◌else◌};
ghost use Rattle.std.specs.Hash.DefaultHasher as sip;
ghost use Rattle.indexmap.specs.IndexMap.{spare};
ghost use Rattle.value_lists.specs.Hashes.{count_in, count_of, fed_by, hash_of};

use indexmap::IndexMap;
use mm_types::Value;
use std::alloc::{AllocError, Global};
use std::hash::{DefaultHasher, Hash, Hasher};

/// How many values have a hash, and the label that was given last for this hash. The value with that label may have left the list since.
#[derive(Clone, Copy)]
pub(crate) struct Counted {
    pub count: usize,
    pub label: u64,
}

/// For each hash that some value of a list has: how many values of the list have it, and the label that was given last for it.
#[derive(Drop)]
pub(crate) struct HashCounts {
    counts: IndexMap<u64, Counted>,
}

impl HashCounts {
    /// A table that counts no values, and has no capacity. Takes no memory.
    pub fn new(alloc: Global) -> Self
        ensures { (h : ℕ) → count_in result h ≡ 0 }
    {
        HashCounts {
            counts: IndexMap::new(alloc),
        }
    }

    /// A table that counts no values, with capacity for `capacity` values. Fails only if memory is refused.
    pub fn with_capacity(alloc: Global, capacity: usize) -> Result<Self, AllocError>
        ensures none { IfOk result (λ t. (h : ℕ) → count_in t h ≡ 0) }
        ensures spare { IfOk result (λ t. capacity ≤ spare t.counts) }
    {
        Ok(HashCounts {
            counts: IndexMap::with_capacity(alloc, capacity)?,
        })
    }

    /// How many values have a hash, and the label that was given last for the hash; `None` if no value has the hash.
    pub fn get(&self, hash: u64) -> Option<Counted>
        ensures { count_of result ≡ count_in self.now hash }
    {
        self.counts.get(&hash).copied()
    }

    /// How many values have a hash.
    fn count(&self, hash: u64) -> usize
        ensures { result ≡ count_in self.now hash }
    {
        match self.counts.get(&hash) {
            Some(counted) => counted.count,
            None => 0,
        }
    }

    /// Reserves capacity for `additional` more values. Fails only if memory is refused, and then the counts stay and no capacity is lost.
    pub fn reserve(&mut self, additional: usize) -> Result<(), AllocError>
        ensures counts { (h : ℕ) → count_in self.new h ≡ count_in self.old h }
        ensures spare { spare self.old.counts ≤ spare self.new.counts }
        ensures ok { OnOk result (additional ≤ spare self.new.counts) }
    {
        self.counts.reserve(additional)
    }

    /// Counts one more value with a hash, and makes the label of this value the label of the hash. There has to be capacity for the value.
    /// Takes no memory.
    pub fn add(&mut self, hash: u64, label: u64)
        requires room { 0 < spare self.old.counts }
        requires fits { count_in self.old hash + 1 < 2 ^ 64 }
        ensures counts { (h : ℕ) → count_in self.new h ≡ count_in self.old h + (if nat_eq hash h then 1 else 0) }
        ensures spare { spare self.old.counts ≤ spare self.new.counts + 1 }
    {
        let counted = Counted {
            count: self.count(hash) + 1,
            label,
        };
        match self.counts.insert(hash, counted) {
            Ok(_) => {}
            Err(_) => unreachable!(),
        }
    }

    /// Replaces the label of a hash, if any value has the hash. Takes no memory.
    pub fn label(&mut self, hash: u64, label: u64)
        ensures counts { (h : ℕ) → count_in self.new h ≡ count_in self.old h }
        ensures spare { spare self.new.counts ≡ spare self.old.counts }
    {
        if let Some(counted) = self.counts.get_mut(&hash) {
            counted.label = label;
        }
    }

    /// Takes one value with a hash out of the count, if any value has the hash. Takes no memory.
    pub fn take(&mut self, hash: u64)
        ensures counts { (h : ℕ) → count_in self.new h ≡ count_in self.old h - (if nat_eq hash h then 1 else 0) }
        ensures spare { spare self.old.counts ≤ spare self.new.counts }
    {
        let count = self.count(hash);
        if count > 1 {
            if let Some(kept) = self.counts.get_mut(&hash) {
                kept.count = count - 1;
            }
        } else {
            self.counts.swap_remove(&hash);
        }
    }
}

/// The hash of a value.
#[tactic(auto, unfolding(crate::specs::Hashes::hash_of))]
pub(crate) fn hash_of(value: &Value) -> u64
    ensures { result ≡ hash_of value.now }
{
    let mut hasher = DefaultHasher::new();
    feed(value, &mut hasher);
    hasher.finish()
}

/// Feeds a hasher the kind and the content of a value.
fn feed(value: &Value, hasher: &mut DefaultHasher)
    ensures { hasher.new ≡ fold sip.write hasher.old (fed_by value.now) }
{
    match value {
        Value::Null => hasher.write_u8(0),
        Value::Bool(b) => {
            hasher.write_u8(1);
            b.hash(hasher);
        }
        Value::Int(n) => {
            hasher.write_u8(2);
            n.hash(hasher);
        }
        Value::Text(text) => {
            hasher.write_u8(3);
            text.as_str().hash(hasher);
        }
        Value::Literal(index) => {
            hasher.write_u8(4);
            index.hash(hasher);
        }
        Value::Object(object) => {
            hasher.write_u8(5);
            object.0.hash(hasher);
        }
        Value::Proxy(text) => {
            hasher.write_u8(6);
            text.as_str().hash(hasher);
        }
    }
}
