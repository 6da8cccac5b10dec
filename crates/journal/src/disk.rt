//! A file as a journal sees it: its bytes, and the bytes that a crash may leave.
ghost use Rattle.std.specs.Prelude.{◌≡◌, ◌≤◌, List, ℕ, length, take, OnOk};
ghost use Rattle.journal.specs.declared.disk.DiskFault.TheVariants.{Memory};
ghost use Rattle.journal.specs.Disk.{Elapses, Follows, HasCause, IsDurable, LeavesNoOther, Overwrites, PartlyCut, Torn};

use std::alloc::{AllocError, AllocFailed};

/// Why a call of a journal, or of its disk, fails.
#[derive(Clone, Copy, Debug, PartialEq, Eq)]
pub enum DiskFault {
    /// Memory was refused.
    Memory,
    /// A call of the system failed.
    Failed,
    /// The entries of the journal's file have 2^62 bytes or more, so the file gets no more entries. No call of a disk returns this fault.
    Full,
}

impl From<AllocError> for DiskFault {
    ghost from_gives = { λ _ fault. fault ≡ Memory };

    fn from(_error: AllocError) -> Self {
        DiskFault::Memory
    }
}

impl<T: Drop> From<AllocFailed<T>> for DiskFault {
    ghost from_gives = { λ _ fault. fault ≡ Memory };

    fn from(_error: AllocFailed<T>) -> Self {
        DiskFault::Memory
    }
}

/// A file that is written, cut and synced. After a write or a cut that failed, the content of the file is unknown. After any call that
/// failed, the file has to be opened again.
///
/// The clauses speak of a crash at any moment, between two calls or inside one. Until a sync after a write, a crash may leave any bytes in
/// the range of the write; if the write made the file longer, a crash may leave a file of any length from the old length up to the new one.
/// Until a sync after a cut, a crash may leave a file of any length from the new length up to the old one.
pub trait Disk {
    /// The bytes of the file, as a program reads them now.
    ghost seen: { Self → List ℕ };

    /// A crash now may leave a file that has the given bytes.
    ghost may_leave: { Self → List ℕ → Type 0 };

    /// The current moment, as a number. It never falls.
    ghost moment: { Self → ℕ };

    /// A crash at the given moment, or at a later moment up to now, might have left a file that has the given bytes.
    ghost left_since: { Self → ℕ → List ℕ → Type 0 };

    /// A count of the failed calls of the disk. A call that returns `Failed` makes the count greater, and no call makes it smaller.
    ghost faults: { Self → ℕ };

    /// Writes `bytes` over the bytes of the file, from the offset `at` on. A write that reaches beyond the end of the file makes the file
    /// longer.
    fn write_at(&mut self, at: usize, bytes: &[u8]) -> Result<(), DiskFault>
        requires { at ≤ length (seen self.old) }
        ensures written { OnOk result (Overwrites at bytes.now (seen self.old) (seen self.new)) }
        ensures crash { Follows (Torn at (length bytes.now)) (may_leave self.old) (may_leave self.new) }
        ensures time { Elapses (moment self.old) (moment self.new) (left_since self.old) (left_since self.new) (may_leave self.new) }
        ensures cause { HasCause (faults self.old) (faults self.new) result };

    /// Cuts the file to the length `len`.
    fn cut(&mut self, len: usize) -> Result<(), DiskFault>
        requires { len ≤ length (seen self.old) }
        ensures cut { OnOk result (seen self.new ≡ take len (seen self.old)) }
        ensures crash { Follows (PartlyCut len) (may_leave self.old) (may_leave self.new) }
        ensures time { Elapses (moment self.old) (moment self.new) (left_since self.old) (left_since self.new) (may_leave self.new) }
        ensures cause { HasCause (faults self.old) (faults self.new) result };

    /// Puts the file on the disk. After a sync that succeeded, and until the next write or cut, a crash leaves the file as it is.
    fn sync(&mut self) -> Result<(), DiskFault>
        ensures durable { OnOk result (IsDurable (seen self.old) (may_leave self.new)) }
        ensures seen { seen self.new ≡ seen self.old }
        ensures crash { LeavesNoOther (may_leave self.old) (may_leave self.new) }
        ensures time { Elapses (moment self.old) (moment self.new) (left_since self.old) (left_since self.new) (may_leave self.new) }
        ensures cause { HasCause (faults self.old) (faults self.new) result };

    /// If a crash now may leave a file of the bytes `c`, then `left_since` is true of `c` for each moment up to now.
    ghost counts_now: { (file : Self) (t : ℕ) (c : List ℕ) → t ≤ moment file → may_leave file c → left_since file t c };

    /// If `left_since` is true of the bytes `c` for the current moment, then a crash now may leave a file of the bytes `c`.
    ghost only_now: { (file : Self) (c : List ℕ) → left_since file (moment file) c → may_leave file c };
}
