//! Names of links.
use mm_types::{End, Value};

/// A link or a proxy, named by one of its ends and its value there (UML: LinkEndData). An edit of any other link does not change this name.
#[derive(Debug, Drop)]
pub struct LinkEnd {
    pub end: End,
    pub value: Value,
}
