//! The count of the notifications that an adapter got.
ghost use Rattle.std.specs.Prelude.{◌≡◌, ◌+◌, ◌^◌, ◌<◌};
ghost use Rattle.adapters.specs.Counting.{IsCounted};

use crate::adapter::NoRoom;

/// How many notifications an adapter got. This count is for adapters that need no memory to be notified.
#[derive(Drop)]
pub(crate) struct Count {
    told: u64,
}

impl Count {
    /// A count that begins at `told`.
    pub(crate) fn starting_at(told: u64) -> Count
        ensures { result.told ≡ told }
    {
        Count { told }
    }

    /// The present count: `told` of `starting_at`, plus one for each call of `add`.
    pub(crate) fn told(&self) -> u64
        ensures { result ≡ self.now.told }
    {
        self.told
    }

    /// Fails with Full exactly if `n` more notifications can't be counted; never fails with Memory. Nothing is reserved: counting takes no
    /// memory.
    pub(crate) fn reserve(&self, n: u64) -> Result<(), NoRoom>
        ensures { IsCounted (λ c. c.told) n self.now self.now result }
    {
        if n > u64::MAX - self.told {
            return Err(NoRoom::Full);
        }
        Ok(())
    }

    /// Counts one more notification.
    pub(crate) fn add(&mut self)
        requires { self.old.told + 1 < 2 ^ 64 }
        ensures { self.new.told ≡ self.old.told + 1 }
    {
        self.told += 1;
    }
}
