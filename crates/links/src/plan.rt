//! Edits of links.
ghost use Rattle.std.specs.Prelude.{◌≡◌};
ghost use Rattle.links.specs.Laws.{edit_end};

use crate::link::NewLink;
use mm_types::{End, Few, Text, Value};

/// One edit. A cut names its link by an end and the link's value in that end, and not by a position, which other edits may change.
#[derive(Debug, Drop)]
pub enum Edit {
    /// Removes the link that has the given value, an object or a proxy, in the given end. Lowers the later positions by one in each end
    /// that had the link.
    Cut { end: End, value: Value },
    /// Puts an object at a position of an end. If the end's feature has an opposite, the end's node is put last in the opposite end.
    Put(NewLink),
    /// Moves the value at the position `from` of an end to the position `to`.
    Shift { end: End, to: u32, from: u32 },
    /// Puts a proxy at a position of an end.
    PutProxy { end: End, index: u32, text: Text },
}

impl Edit {
    /// The end that the edit names. Takes no memory.
    pub fn end(&self) -> End
        ensures { result ≡ edit_end self.now }
    {
        match self {
            Edit::Put(link) => link.end,
            Edit::Cut { end, .. } | Edit::Shift { end, .. } | Edit::PutProxy { end, .. } => *end,
        }
    }
}

/// Edits, which are made in their order.
pub type Plan = Few<Edit>;
