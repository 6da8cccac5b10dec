//! Why a case can't be run, or why the program stops.
use mm_types::{MetaFault, Refused};
use std::alloc::{AllocError, AllocFailed};
use std::{fmt, io};

/// Why a case can't be run, or why the program stops.
#[derive(Clone, Copy)]
pub enum Fault {
    /// A mark is badly written.
    Mark,
    /// A file can't be read: the file of a case's metamodel, or a file of cases.
    Unreadable,
    /// The arguments can't be read, or nothing can be written.
    Stream,
    /// Something is refused that must be accepted: the metamodel of books, a command that prepares the list of commands, or a command on
    /// the books of the snapshot. Then this program is wrong, unless the books of the snapshot are more than the 1,000,000 objects that a
    /// repository makes.
    Refused,
    /// Memory was refused.
    Memory,
}

impl From<AllocError> for Fault {
    fn from(_error: AllocError) -> Fault {
        Fault::Memory
    }
}

impl<T: Drop> From<AllocFailed<T>> for Fault {
    fn from(_error: AllocFailed<T>) -> Fault {
        Fault::Memory
    }
}

impl From<io::Error> for Fault {
    fn from(error: io::Error) -> Fault {
        match error.kind() {
            io::ErrorKind::OutOfMemory => Fault::Memory,
            _ => Fault::Stream,
        }
    }
}

impl From<MetaFault> for Fault {
    fn from(fault: MetaFault) -> Fault {
        match fault {
            MetaFault::Memory => Fault::Memory,
            _ => Fault::Refused,
        }
    }
}

impl From<Refused> for Fault {
    fn from(refused: Refused) -> Fault {
        match refused {
            Refused::Memory => Fault::Memory,
            _ => Fault::Refused,
        }
    }
}

impl fmt::Display for Fault {
    fn fmt<W: fmt::Write>(&self, f: &mut fmt::Formatter<W>) -> fmt::Result {
        f.write_str(match self {
            Fault::Mark => "a mark is not <<xHH>> or <<N* TEXT>>",
            Fault::Unreadable => "its metamodel can't be read",
            Fault::Stream => "the arguments can't be read, or nothing can be written",
            Fault::Refused => "what is done before the list of commands is refused",
            Fault::Memory => "out of memory",
        })
    }
}
