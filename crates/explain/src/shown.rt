//! Values of a document in words for a reader.
use serde_json::Value;
use std::fmt;

/// The greatest number of bytes of a text that are shown.
pub(crate) const SHOWN_BYTES: usize = 60;

/// The greatest number of bytes of a character.
const CHARACTER_BYTES: usize = 4;

/// A JSON value in words for a reader. An array is printed as `an array`, and an object as `an object`. A text is printed as `{:?}` prints
/// it, but only its first 60 bytes, in whole characters. Any other value is printed as `serde_json` prints it.
#[derive(Drop)]
pub struct Shown<'v>(pub &'v Value);

/// The greatest number of names of a list that are shown.
const SHOWN_NAMES: usize = 8;

/// Names in words for a reader: at most the first 8 names, and how many further names there are. Each name is printed as `{:?}` prints it,
/// but only its first 60 bytes, in whole characters.
#[derive(Drop)]
pub struct Listed<'n>(pub &'n [&'n str]);

impl fmt::Display for Listed<'_> {
    fn fmt<W: fmt::Write>(&self, f: &mut fmt::Formatter<W>) -> fmt::Result {
        for (i, name) in self.0.iter().enumerate() {
            if i == SHOWN_NAMES {
                let more = self.0.len().saturating_sub(i);
                return write!(f, " and {more} more");
            }
            let comma = if i == 0 { "" } else { ", " };
            write!(f, "{comma}{:?}", front_of(name, SHOWN_BYTES))?;
        }
        Ok(())
    }
}

/// The longest beginning of a text that has at most `most` bytes and only whole characters.
pub fn front_of(text: &str, most: usize) -> &str {
    if text.len() <= most {
        return text;
    }
    for over in 0..CHARACTER_BYTES {
        if let Some(front) = text.get(..most.saturating_sub(over)) {
            return front;
        }
    }
    ""
}

impl fmt::Display for Shown<'_> {
    fn fmt<W: fmt::Write>(&self, f: &mut fmt::Formatter<W>) -> fmt::Result {
        match self.0 {
            Value::Array(_) => write!(f, "an array"),
            Value::Object(_) => write!(f, "an object"),
            Value::String(text) => write!(f, "{:?}", front_of(text.as_str(), SHOWN_BYTES)),
            other => write!(f, "{other}"),
        }
    }
}
