//! An adapter that keeps the latest notifications.
ghost use Rattle.std.specs.Prelude.{◌≡◌, ◌≤◌, [], Some, IfOk};
ghost use Rattle.notice_chain.specs.View.{View};
ghost use Rattle.mm_types.specs.declared.limits.TheConstants.{WINDOW_NOTICES};
ghost use Rattle.adapters.specs.Counting.{IsCounted, places_left};

use crate::adapter::{Adapter, NoRoom};
use crate::count::Count;
use circular_buffer::HeapCircularBuffer;
use notice_chain::Notice;
use std::alloc::{AllocError, Global};

/// Keeps the last `n` notifications that it got, or all of them if it got fewer. `n` is the argument of `new`.
#[derive(Drop)]
pub struct Window {
    latest: HeapCircularBuffer<Notice>,
    count: Count,
}

impl Window {
    /// A window that keeps the last `n` notifications, and was notified of nothing yet. `n` is from 1 to `limits::WINDOW_NOTICES`. Fails
    /// only if memory is refused.
    pub fn new(alloc: Global, n: u64) -> Result<Window, AllocError>
        requires some { 1 ≤ n }
        requires within { n ≤ WINDOW_NOTICES }
        ensures { IfOk result (λ w. ⟦<Window as Adapter>⟧.heard w ≡ record { told = 0; room = Some n; kept = [] }) }
    {
        let latest = HeapCircularBuffer::with_capacity(alloc, n as usize)?;
        Ok(Window {
            latest,
            count: Count::starting_at(0),
        })
    }
}

impl Adapter for Window {
    ghost heard = { λ w. record { told = w.count.told; room = Some w.latest.capacity; kept = w.latest.items } };

    ghost places = { λ w. places_left w.count.told };

    /// A window needs no memory to be notified, so the only refusal is Full.
    fn reserve(&mut self, n: u64) -> Result<(), NoRoom>
        ensures { IsCounted (λ w. w.count.told) n self.old self.new result }
    {
        self.count.reserve(n)
    }

    fn notify_changed(&mut self, notice: Notice) {
        let _ = self.latest.push_back(notice);
        self.count.add();
    }

    fn told(&self) -> u64 {
        self.count.told()
    }

    fn room(&self) -> Option<u64> {
        Some(self.latest.capacity() as u64)
    }

    fn kept_len(&self) -> u64 {
        self.latest.len() as u64
    }

    fn kept(&self, i: u64) -> Option<&Notice> {
        self.latest.get(i as usize)
    }
}
