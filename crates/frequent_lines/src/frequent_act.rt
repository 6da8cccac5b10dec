//! What a frequent line asks of a feature, or does to it.
use crate::bare_act::BareAct;
use crate::word::Word;

/// What a frequent line asks of a feature of an object, or does to the feature. A value is given by its word. If the word is no value, the
/// line is bad. Indexes are counted from 0.
#[derive(Drop)]
pub enum FrequentAct<'a> {
    /// `get OBJ NAME`
    Get,
    /// `isset OBJ NAME`
    IsSet,
    /// `set OBJ NAME VALUE`
    Set(Word<'a>),
    /// `add OBJ NAME VALUE`; with an index, `add OBJ NAME VALUE N`.
    Add(Word<'a>, Option<u32>),
    /// `removevalue OBJ NAME VALUE`
    RemoveValue(Word<'a>),
    /// A change without a value: `unset`, `remove`, `move` or `resolve`.
    Bare(BareAct),
}
