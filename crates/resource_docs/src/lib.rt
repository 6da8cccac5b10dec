//! Documents of resources: how a document is read, and why it can't be read.
//!
//! The crate `doc_parts` says which parts of a document are looked at. `specs/Read.antt` defines the `Doc` that a JSON value is read as,
//! and `specs/Causes.antt` has the causes for which a document is refused, in order.
#![tactic(auto)]

mod cross;
mod doc;
mod ends;
mod faults;
mod objects;
mod read_context;
mod reading;
mod references;
mod referent;
mod repeats;
mod roots;
mod values;

pub use doc::{Content, Doc, DocObject};
pub use reading::{read_doc, read_doc_text};
pub use referent::Referent;
pub use web_uris::{UriFault, joined};
