//! An adapter of the program's own.
ghost use Rattle.std.specs.Prelude.{◌-◌, [], Some};

use mmrepo_lib::{Adapter, NoRoom, Notice, NoticeKind};

/// Counts the notifications that it gets, and the ADDs among them, and keeps no notification. An adapter can change only itself: the caller
/// of the repository reads the notifications in the reply, and acts on them.
#[derive(Drop)]
pub struct Tally {
    told: u64,
    additions: u64,
}

impl Tally {
    pub fn new() -> Tally {
        Tally {
            told: 0,
            additions: 0,
        }
    }

    /// How many ADDs the adapter got.
    pub fn additions(&self) -> u64 {
        self.additions
    }
}

impl Adapter for Tally {
    ghost heard = { λ t. record { told = t.told; room = Some 0; kept = [] } };

    ghost places = { λ t. 18446744073709551615 - t.told };

    fn reserve(&mut self, n: u64) -> Result<(), NoRoom> {
        if n > u64::MAX - self.told {
            return Err(NoRoom::Full);
        }
        Ok(())
    }

    fn notify_changed(&mut self, notice: Notice) {
        if notice.kind == NoticeKind::Add {
            self.additions = self.additions.saturating_add(1);
        }
        self.told += 1;
    }

    fn told(&self) -> u64 {
        self.told
    }

    fn room(&self) -> Option<u64> {
        Some(0)
    }

    fn kept_len(&self) -> u64 {
        0
    }

    fn kept(&self, _i: u64) -> Option<&Notice> {
        None
    }
}
