//! Why a text is not read as JSON.
ghost use Rattle.std.specs.Prelude.{◌≡◌};
ghost use Rattle.borrowed_json.specs.declared.fault.JsonFault.TheVariants as fault;

use json::Invalid;
use std::alloc::{AllocError, AllocFailed};

/// Why a text is not read as JSON.
#[derive(Clone, Copy, Debug, Drop, PartialEq, Eq)]
pub enum JsonFault {
    /// The text is no JSON, has half of a surrogate pair, nests too deep, or has a number that is too large.
    Syntax,
    /// Memory was refused.
    Memory,
}

impl From<Invalid> for JsonFault {
    ghost from_gives = { λ _ e. e ≡ fault.Syntax };

    fn from(_invalid: Invalid) -> JsonFault {
        JsonFault::Syntax
    }
}

impl From<AllocError> for JsonFault {
    ghost from_gives = { λ _ e. e ≡ fault.Memory };

    fn from(_error: AllocError) -> JsonFault {
        JsonFault::Memory
    }
}

impl<T: Drop> From<AllocFailed<T>> for JsonFault {
    ghost from_gives = { λ _ e. e ≡ fault.Memory };

    fn from(_error: AllocFailed<T>) -> JsonFault {
        JsonFault::Memory
    }
}
