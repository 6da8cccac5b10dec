//! What a call returns, as a number. `include/mmrepo.h` has the same numbers.
ghost use Rattle.std.specs.Prelude.{◌≡◌};
ghost use Rattle.mmrepo_c.specs.Statuses as s;

use mm_types::MetaFault;
use script_answers::Turn;

/// The call was done. The numbers from 1 to 12 are the faults of a metamodel.
pub const OK: u32 = 0;

/// The line is empty, or has only spaces.
pub const BLANK: u32 = 20;

/// The line is no command, or the name of a feature is not UTF-8.
pub const BAD: u32 = 21;

/// The command or the read was refused.
pub const REFUSED: u32 = 22;

/// The repository was refused memory for the command. The session goes on.
pub const LOST: u32 = 23;

/// The session is closed.
pub const CLOSED: u32 = 30;

/// The metamodel or the line has more than `INPUT_BYTES` bytes.
pub const TOO_LONG: u32 = 31;

/// Memory was refused to the call itself, and not to a command that it ran. The session is now closed.
pub const MEMORY: u32 = 32;

/// The status of a line, a read or a load, by how it is counted.
pub(crate) fn line_status(turn: Turn) -> u32
    ensures { result ≡ s.line_status turn }
{
    match turn {
        Turn::Blank => BLANK,
        Turn::Bad => BAD,
        Turn::Done => OK,
        Turn::Refused => REFUSED,
        Turn::Lost => LOST,
    }
}

/// The status of a metamodel that is refused: the number of its fault, or `MEMORY` if memory was refused.
pub(crate) fn fault_status(fault: MetaFault) -> u32
    ensures { result ≡ s.fault_status fault }
{
    match fault.number() {
        Some(number) => number,
        None => MEMORY,
    }
}
