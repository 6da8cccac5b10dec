//! Opens a journal, and begins the journal if it has no line.
ghost use Rattle.std.specs.Prelude.{◌≡◌, [], ◌∷◌, IfErr, IfOk};
ghost use Rattle.journal.specs.Disk.{IsDurable, LeavesOnly};
ghost use Rattle.journal.specs.Journal.{IsSettled, disk_of, journal_lines, noted_lines};
ghost use Rattle.journal.specs.Lines.{IsLine, recovered_lines};
ghost use Rattle.durable.specs.Heads.{IsBegunOrNot, begun_lines};

use journal::{Disk, DiskFault, Journal, next_entry};
use std::alloc::Global;

/// Why a journal is not opened.
#[derive(Clone, Copy, Debug, PartialEq, Eq)]
pub enum JournalFault {
    /// Memory was refused.
    Memory,
    /// A call of the disk failed.
    Failed,
    /// The file is no journal.
    NoJournal,
    /// The journal was begun with a metamodel document that differs from the present one in at least one byte.
    OtherMetamodel,
    /// The line with this number was not done when it was run again, or is no line that a journal keeps. The head is line 1.
    Line(u64),
}

impl From<DiskFault> for JournalFault {
    fn from(fault: DiskFault) -> Self {
        match fault {
            DiskFault::Memory => JournalFault::Memory,
            _ => JournalFault::Failed,
        }
    }
}

/// Puts the head into a journal that has no line, and syncs the head to the disk.
fn begin<D: Disk + Drop>(
    mut journal: Journal<D>,
    head: &[u8],
) -> Result<Journal<D>, (JournalFault, D)>
    requires head { IsLine head.now }
    requires settled { IsSettled D.seen D.may_leave journal }
    requires kept { journal_lines D.seen journal ≡ [] }
    requires noted { noted_lines journal ≡ [] }
    ensures settled { IfOk result (λ after. IsSettled D.seen D.may_leave after) }
    ensures kept { IfOk result (λ after. journal_lines D.seen after ≡ head.now ∷ []) }
    ensures noted { IfOk result (λ after. noted_lines after ≡ []) }
    ensures any_moment { IfOk result (λ after. LeavesOnly D.moment D.left_since (disk_of journal) (disk_of after) (IsBegunOrNot head.now [])) }
    ensures any_moment_err { IfErr result (λ e. LeavesOnly D.moment D.left_since (disk_of journal) e.1 (IsBegunOrNot head.now [])) }
{
    if journal.note(head).is_err() {
        return Err((JournalFault::Memory, journal.into_disk()));
    }
    match journal.commit() {
        Ok(()) => Ok(journal),
        Err(fault) => Err((JournalFault::from(fault), journal.into_disk())),
    }
}

/// Opens the journal in the file of `disk`, whose bytes are `bytes`. If the file has no line, begins the journal with `head`; if the file
/// has lines, does not look whether the first is `head` (`behind_head` does).
///
/// Fails with `Failed` if the disk fails, and with `Memory` if memory is refused. An error returns the disk too.
pub fn open_journal<D: Disk + Drop>(
    alloc: Global,
    disk: D,
    bytes: &[u8],
    head: &[u8],
) -> Result<Journal<D>, (JournalFault, D)>
    requires head { IsLine head.now }
    requires bytes { D.seen disk ≡ bytes.now }
    requires durable { IsDurable (D.seen disk) (D.may_leave disk) }
    ensures settled { IfOk result (λ journal. IsSettled D.seen D.may_leave journal) }
    ensures kept { IfOk result (λ journal. journal_lines D.seen journal ≡ begun_lines head.now (recovered_lines bytes.now)) }
    ensures noted { IfOk result (λ journal. noted_lines journal ≡ []) }
    // A crash at any moment leaves a file with the lines that the file had. If the file had no line, the crash may also leave a file of the
    // head alone.
    ensures any_moment { IfOk result (λ journal. LeavesOnly D.moment D.left_since disk (disk_of journal)
        (IsBegunOrNot head.now (recovered_lines bytes.now))) }
    ensures any_moment_err { IfErr result (λ e. LeavesOnly D.moment D.left_since disk e.1 (IsBegunOrNot head.now (recovered_lines bytes.now))) }
{
    match journal::open(alloc, disk, bytes) {
        Ok(journal) => match next_entry(bytes) {
            Some(_) => Ok(journal),
            None => begin(journal, head),
        },
        Err((fault, disk)) => Err((JournalFault::from(fault), disk)),
    }
}
