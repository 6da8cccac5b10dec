//! A model as data: its metamodel, its values and its links together; what its ends hold; and which models are legal.
//!
//! `specs/Reading.antt` says what can be read of a model, `specs/Legal.antt` which models are legal, and `specs/Existence.antt` why a call
//! is refused for what it names: something that does not exist, or an abstract class. `ModelRef` borrows the parts in which a model is
//! kept, and reads the model from them.
#![tactic(auto)]

mod ends;
mod existence;
mod features;
mod lists;
mod model_ref;
mod reads;
mod reference_key;

pub use ends::{contents_end, roots_end};
pub use existence::{class_refusal, end_refusal, node_refusal, object_refusal, value_refusal};
pub use features::{is_short, is_short_text};
pub use lists::copied_list;
pub use model_ref::ModelRef;
pub use reads::{Found, at_end, copied, is_same};
pub use reference_key::ReferenceKey;
