//! Values as lines write them.
use crate::name::Name;
use mm_types::{ObjectNo, Text};

/// A value as it is written in a line. A literal is only a name: the type of the feature that gets the value decides which literal has this
/// name. Any other written value stands for the same value, whatever the feature is.
#[derive(Drop)]
pub enum WrittenValue<'a> {
    /// `null`
    Null,
    /// `true` or `false`
    Bool(bool),
    /// `-12`
    Int(i64),
    /// `"Emma"`: the text of a JSON string, without quotation marks and escapes.
    Text(Text),
    /// `:NOVEL`: a literal of an enumeration, by its name.
    Literal(Name<'a>),
    /// `#3`
    Object(ObjectNo),
}
