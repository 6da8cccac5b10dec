//! The calls that were made on a file, as the clauses of contracts read them.
ghost use Rattle.std.specs.Prelude.{◌≡◌, List, [], ◌∷◌};
ghost use Rattle.std.specs.Borrow.{ftrue};
ghost use Rattle.std.specs.Coded.{coded_list};
ghost use Rattle.file_disk.specs.Events.{Event, event_code};

use crate::call::Call;
use std::marker::Model;

/// The calls that were made on a file, the newest first. Only the clauses of contracts read these calls: at run time a record has no
/// content, and its methods do nothing.
#[derive(Drop)]
pub struct Record {
    pub ghost events: { List Event } by { coded_list event_code },
}

impl Model for Record {
    ghost also_owns = { λ _. ftrue };
}

impl Record {
    ghost use Rattle.file_disk.specs.Calls.{event_of};

    pub(crate) fn new() -> Record
        ensures { result.events ≡ [] }
    {
        Record {}
    }

    /// The record with one more call, which is the newest.
    pub(crate) fn with(&self, _call: &Call<'_>) -> Record
        ensures { result.events ≡ event_of _call.now ∷ self.now.events }
    {
        Record {}
    }
}
