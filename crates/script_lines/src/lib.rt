//! The language of scripts: how the bytes of a script are cut into lines, how a line is cut into words, and which form each line fits. The
//! form says what the line asks for.
#![tactic(auto)]

mod adapter_forms;
mod form;
pub mod grammar;
pub mod laws;
mod line;
mod lines;
mod load;
mod name;
mod numbers;
mod parse;
mod source;
mod texts;
mod values;
mod words;
mod written_value;

pub use form::{FeatureForm, Form};
pub use line::{Line, parse_line, text_line_of};
pub use lines::next_line;
pub use load::load_parts;
pub use name::Name;
pub use numbers::{natural_of, number_before_space};
pub use source::Source;
pub use values::{object_of, value_of};
pub use words::{MOST_WORDS, after_byte, cut_at, is_word, word_len_of, words_of};
pub use written_value::WrittenValue;
