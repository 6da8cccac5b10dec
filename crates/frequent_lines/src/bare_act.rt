//! What a frequent line that has no value does to a feature.

/// What a frequent line that has no value does to a feature of an object. Indexes are counted from 0.
#[derive(Clone, Copy)]
pub enum BareAct {
    /// `unset OBJ NAME`
    Unset,
    /// `remove OBJ NAME N`
    Remove(u32),
    /// `move OBJ NAME N N`: the first number is `to`, the index to which a value is moved, and the second is `from`, the index from which
    /// it is moved.
    Move { to: u32, from: u32 },
    /// `resolve OBJ NAME N`
    Resolve(u32),
}
