//! The part of a handle that owns memory.
ghost use Rattle.std.specs.Prelude.{◌≡◌, IsSome, None, Option, Some};
ghost use Rattle.std.specs.Coded.{coded_option};
ghost use Rattle.mmrepo_c.specs.Pointers.{held_coded, slot_owns};
ghost use Rattle.mmrepo_c.specs.declared.session.Session.{Session as Held};

use crate::loose::Loose;
use crate::session::Session;
use std::alloc::Global;
use std::marker::Model;
use std::ptr;

/// The `Box` of a session, or none, in the form that C holds: an opaque pointer.
#[repr(C)]
#[derive(Drop)]
pub struct SessionPointer {
    at: *mut (),
    alloc: Global,
    pub ghost held: { Option Held } by { coded_option held_coded },
}

impl Model for SessionPointer {
    ghost also_owns = { λ s. slot_owns s.alloc s.at s.held };
}

impl SessionPointer {
    /// A pointer with no session.
    pub(crate) fn empty(alloc: Global) -> SessionPointer
        ensures { result.held ≡ None }
    {
        SessionPointer {
            at: ptr::null_mut(),
            alloc,
        }
    }

    /// The pointer of a session.
    pub(crate) fn of(session: Box<Session>) -> SessionPointer
        ensures { result.held ≡ Some session.value }
    {
        SessionPointer::of_loose(Loose::of(session))
    }

    /// The `Box` of a pointer that has a session.
    pub(crate) fn into_box(self) -> Box<Session>
        requires { IsSome self.held }
        ensures { self.held ≡ Some result.value }
    {
        self.into_loose().into_box()
    }

    fn of_loose(loose: Loose<Session, Global>) -> SessionPointer
        ensures { result.held ≡ Some loose.value }
    {
        let Loose { at, alloc } = loose;
        SessionPointer {
            at: at as *mut (),
            alloc,
        }
    }

    fn into_loose(self) -> Loose<Session, Global>
        requires { IsSome self.held }
        ensures { self.held ≡ Some result.value }
    {
        let SessionPointer { at, alloc } = self;
        Loose {
            at: at as *mut Session,
            alloc,
        }
    }
}
