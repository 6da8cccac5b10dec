//! What happens to ends.
use mm_types::{End, Value};

/// What happens to one end (EMF: ChangeKind). For `Gains`, `Loses` and `Resolves` the end may be single or a list.
#[derive(Drop)]
pub enum ChangeKind {
    /// A list gains the value after its last value; at a single end the value replaces the old value.
    Gains(Value),
    /// A list gains the value at an index.
    GainsAt(u32, Value),
    /// A list loses the first occurrence of the value; a single end becomes null.
    Loses(Value),
    /// A list loses the value at an index.
    LosesAt(u32),
    /// A single end gets its default again.
    Unsets,
    /// `Moves(to, from)`: the value at the index `from` of a list moves to the index `to`.
    Moves(u32, u32),
    /// The value replaces the proxy at an index; at a single end the index is 0.
    Resolves(u32, Value),
}

/// What happens, and at which end (EMF: FeatureChange).
#[derive(Drop)]
pub struct FeatureChange {
    pub at: End,
    pub does: ChangeKind,
}
