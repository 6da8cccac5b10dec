//! JSON values that borrow their texts: a text without escapes from the text that is read, and a text with escapes from a buffer.
//!
//! A value is what `serde_json` reads from the same text. So a number that is too large for a float is refused, arrays and objects nest at
//! most 127 levels deep, and if a key comes twice, its last value counts. `specs/View.antt` says which value of `serde_json` a value of
//! this crate is.
#![tactic(auto)]

mod fault;
mod growth;
mod members;
mod number;
mod read;
mod value;

pub use fault::JsonFault;
pub use members::{find, has_only_keys};
pub use number::Number;
pub use read::read_json;
pub use value::{Json, Members};
