//! A session as C holds it.
ghost use Rattle.std.specs.Prelude.{◌≡◌, None, Some, is_some, option_map};

use crate::pointer::SessionPointer;
use crate::session::Session;
use std::alloc::Global;
use std::mem;

/// A session, or none if the handle is closed. In C the handle is an `mmrepo_session`, which begins as a null pointer and `false`.
#[repr(C)]
#[derive(Drop)]
pub struct Handle {
    pub(crate) pointer: SessionPointer,
    is_open: bool,
    ghost known: { is_open ≡ is_some pointer.held },
}

impl Handle {
    /// A handle that is closed.
    fn closed(alloc: Global) -> Handle
        ensures { result.pointer.held ≡ None }
    {
        Handle {
            pointer: SessionPointer::empty(alloc),
            is_open: false,
        }
    }

    /// The handle of a session.
    pub(crate) fn of(session: Box<Session>) -> Handle
        ensures { result.pointer.held ≡ Some session.value }
    {
        Handle {
            pointer: SessionPointer::of(session),
            is_open: true,
        }
    }

    /// Whether the handle has a session.
    pub(crate) fn is_open(&self) -> bool
        ensures { result ≡ is_some self.now.pointer.held }
    {
        self.is_open
    }

    /// Takes the session, and closes the handle; `None` if the handle is closed already.
    pub(crate) fn take(&mut self, alloc: Global) -> Option<Box<Session>>
        ensures taken { option_map (λ b. b.value) result ≡ self.old.pointer.held }
        ensures closed { self.new.pointer.held ≡ None }
    {
        let before = mem::replace(self, Handle::closed(alloc));
        if before.is_open {
            Some(before.pointer.into_box())
        } else {
            None
        }
    }
}
