//! An adapter that counts.
ghost use Rattle.std.specs.Prelude.{◌≡◌, [], Some};
ghost use Rattle.notice_chain.specs.View.{View};
ghost use Rattle.adapters.specs.Counting.{IsCounted, places_left};

use crate::adapter::{Adapter, NoRoom};
use crate::count::Count;
use notice_chain::Notice;

/// Counts the notifications that it gets, and keeps none.
#[derive(Drop)]
pub struct Counter {
    count: Count,
}

impl Counter {
    /// A counter that has counted nothing yet. Takes no memory.
    pub fn new() -> Counter
        ensures { ⟦<Counter as Adapter>⟧.heard result ≡ record { told = 0; room = Some 0; kept = [] } }
    {
        Counter {
            count: Count::starting_at(0),
        }
    }

    /// A counter that has counted `told` notifications already. Takes no memory.
    pub fn starting_at(told: u64) -> Counter
        ensures { ⟦<Counter as Adapter>⟧.heard result ≡ record { told = told; room = Some 0; kept = [] } }
    {
        Counter {
            count: Count::starting_at(told),
        }
    }
}

impl Adapter for Counter {
    ghost heard = { λ c. record { told = c.count.told; room = Some 0; kept = [] } };

    ghost places = { λ c. places_left c.count.told };

    /// A counter needs no memory to be notified, so the only refusal is Full.
    fn reserve(&mut self, n: u64) -> Result<(), NoRoom>
        ensures { IsCounted (λ c. c.count.told) n self.old self.new result }
    {
        self.count.reserve(n)
    }

    fn notify_changed(&mut self, _notice: Notice) {
        self.count.add();
    }

    fn told(&self) -> u64 {
        self.count.told()
    }

    fn room(&self) -> Option<u64> {
        Some(0)
    }

    fn kept_len(&self) -> u64 {
        0
    }

    fn kept(&self, _i: u64) -> Option<&Notice> {
        None
    }
}
