//! JSON values.
ghost use Rattle.std.specs.Prelude.{◌≡◌, is_some, option_and_then, option_map};
ghost use Rattle.serde_json.specs.Find.{as_array, as_bool, as_i64, as_null, as_number, as_object, as_str};
ghost use Rattle.borrowed_json.specs.View.{items_view, members_view, view};

use crate::number::Number;

/// A JSON value. Its texts, items and members are borrowed.
#[derive(Clone, Copy, Drop)]
pub enum Json<'t> {
    Null,
    Bool(bool),
    Number(Number),
    String(&'t str),
    Array(&'t [Json<'t>]),
    Object(Members<'t>),
}

/// The members of an object, in the order in which they are written. If a key is repeated while its earlier member is among the last 256
/// members so far, the new value replaces the value of that member. Otherwise the object has several members with the key, and the value of
/// the last of them counts.
pub type Members<'t> = &'t [(&'t str, Json<'t>)];

impl<'t> Json<'t> {
    /// Whether the JSON value is null. Takes no memory.
    pub fn is_null(&self) -> bool
        ensures { result ≡ is_some (as_null (view self.now)) }
    {
        matches!(self, Json::Null)
    }

    /// Whether the JSON value is true or false. Takes no memory.
    pub fn is_boolean(&self) -> bool
        ensures { result ≡ is_some (as_bool (view self.now)) }
    {
        matches!(self, Json::Bool(_))
    }

    /// Whether the JSON value is an array. Takes no memory.
    pub fn is_array(&self) -> bool
        ensures { result ≡ is_some (as_array (view self.now)) }
    {
        matches!(self, Json::Array(_))
    }

    /// Whether the JSON value is an object. Takes no memory.
    pub fn is_object(&self) -> bool
        ensures { result ≡ is_some (as_object (view self.now)) }
    {
        matches!(self, Json::Object(_))
    }

    /// The truth value, if the JSON value is true or false. Takes no memory.
    pub fn as_bool(&self) -> Option<bool>
        ensures { result ≡ as_bool (view self.now) }
    {
        match self {
            Json::Bool(b) => Some(*b),
            _ => None,
        }
    }

    /// The number as an `i64`, if the JSON value is an integer that fits (`1.0` and `-0` are no integers). Takes no memory.
    pub fn as_i64(&self) -> Option<i64>
        ensures { result ≡ option_and_then as_i64 (as_number (view self.now)) }
    {
        match self {
            Json::Number(number) => number.as_i64(),
            _ => None,
        }
    }

    /// The text, if the JSON value is a text. Takes no memory.
    pub fn as_str(&self) -> Option<&'t str>
        ensures { option_map (λ s. s.now) result ≡ as_str (view self.now) }
    {
        match self {
            Json::String(text) => Some(*text),
            _ => None,
        }
    }

    /// The items, if the JSON value is an array. Takes no memory.
    pub fn as_array(&self) -> Option<&'t [Json<'t>]>
        ensures { option_map (λ v. items_view v.now) result ≡ as_array (view self.now) }
    {
        match self {
            Json::Array(items) => Some(*items),
            _ => None,
        }
    }

    /// The members, if the JSON value is an object. Takes no memory.
    pub fn as_object(&self) -> Option<Members<'t>>
        ensures { option_map (λ m. members_view m.now) result ≡ as_object (view self.now) }
    {
        match self {
            Json::Object(members) => Some(*members),
            _ => None,
        }
    }
}
