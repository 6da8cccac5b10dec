//! The values of one end of links: objects, and proxies.
//!
//! An `EndValueList` can have only objects, as numbers, until `EndValueList::mix` is called. From then on it can have proxies too. If a
//! call needs a longer list than `slot_lists` allows, the call fails as if memory were refused. `EndValueList::guess` guesses the index of
//! a value. `specs/EndValues.antt` says what a contract sees of a list, and `specs/Proxies.antt` says what is known of the indexes of
//! proxies.
#![tactic(auto)]

mod end_values;
mod guesses;
mod labelled_objects;
mod mixed_list;

pub use end_values::EndValueList;
