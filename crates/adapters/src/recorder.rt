//! An adapter that keeps all notifications.
ghost use Rattle.std.specs.Prelude.{◌≡◌, ◌-◌, [], None, vec_len, vec_capacity};
ghost use Rattle.notice_chain.specs.View.{View};

use crate::adapter::{Adapter, NoRoom};
use notice_chain::Notice;
use std::alloc::Global;

/// Keeps every notification that it gets.
#[derive(Drop)]
pub struct Recorder {
    notices: Vec<Notice>,
}

impl Recorder {
    /// A recorder that was notified of nothing yet. Takes no memory.
    pub fn new(alloc: Global) -> Recorder
        ensures { ⟦<Recorder as Adapter>⟧.heard result ≡ record { told = 0; room = None; kept = [] } }
    {
        Recorder {
            notices: Vec::new(alloc),
        }
    }
}

impl Adapter for Recorder {
    ghost heard = { λ r. record { told = vec_len r.notices; room = None; kept = r.notices.items } };

    ghost places = { λ r. vec_capacity r.notices - vec_len r.notices };

    fn reserve(&mut self, n: u64) -> Result<(), NoRoom> {
        if n > u64::MAX - self.notices.len() as u64 {
            return Err(NoRoom::Full);
        }
        match self.notices.reserve(n as usize) {
            Ok(()) => Ok(()),
            Err(_) => Err(NoRoom::Memory),
        }
    }

    fn notify_changed(&mut self, notice: Notice) {
        self.notices.push_reserved(notice);
    }

    fn told(&self) -> u64 {
        self.notices.len() as u64
    }

    fn room(&self) -> Option<u64> {
        None
    }

    fn kept_len(&self) -> u64 {
        self.notices.len() as u64
    }

    fn kept(&self, i: u64) -> Option<&Notice> {
        self.notices.get(i as usize)
    }
}
