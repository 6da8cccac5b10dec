//! Why the program stops.
use mmrepo_lib::{Failure, MetaFault, Refused};
use std::alloc::AllocError;
use std::{fmt, io};

/// Why the program stops before its end.
#[derive(Clone, Copy)]
pub enum Stop {
    /// The metamodel is not accepted.
    Metamodel(MetaFault),
    /// The metamodel has no class or feature of this name.
    Name(&'static str),
    /// A call is refused.
    Refused(Refused),
    /// A call returns something other than the object or the resource that it makes.
    Answer,
    /// Nothing can be written.
    Writing,
}

impl From<MetaFault> for Stop {
    fn from(fault: MetaFault) -> Stop {
        Stop::Metamodel(fault)
    }
}

impl From<Refused> for Stop {
    fn from(refused: Refused) -> Stop {
        Stop::Refused(refused)
    }
}

impl<A: Drop> From<Failure<A>> for Stop {
    fn from(failure: Failure<A>) -> Stop {
        Stop::Refused(failure.refused)
    }
}

impl From<AllocError> for Stop {
    fn from(_error: AllocError) -> Stop {
        Stop::Refused(Refused::Memory)
    }
}

impl From<io::Error> for Stop {
    fn from(_error: io::Error) -> Stop {
        Stop::Writing
    }
}

impl fmt::Display for Stop {
    fn fmt<W: fmt::Write>(&self, f: &mut fmt::Formatter<W>) -> fmt::Result {
        match self {
            Stop::Metamodel(fault) => write!(f, "the metamodel is not accepted: {fault}"),
            Stop::Name(name) => write!(f, "the metamodel has no {name}"),
            Stop::Refused(refused) => write!(f, "refused {refused}"),
            Stop::Answer => f.write_str("another answer"),
            Stop::Writing => f.write_str("nothing can be written"),
        }
    }
}
