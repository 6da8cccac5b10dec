//! A journal notes lines, and a commit writes all noted lines to the disk. A commit that succeeds acknowledges its lines: from then on a
//! crash at any moment leaves a file that has these lines.
ghost use Rattle.std.specs.Prelude.{◌≡◌, ◌<◌, ◌≤◌, ◌^◌, ◌++◌, [], ◌∷◌, drop, length, true, IfErr, IfOk, IsErrOf, OnErr, OnOk};
ghost use Rattle.journal.specs.Disk.{IsDurable, LeavesOnly};
ghost use Rattle.journal.specs.Journal.{IsBeforeOrAfter, IsSettled, StandsFor, disk_of, journal_lines, noted_lines};
ghost use Rattle.journal.specs.Lines.{IsLine, at_rest, entries, recovered_lines};

use crate::disk::{Disk, DiskFault};
use crate::entries::{MARK, NEWLINE, entries_len, put_entry};
use std::alloc::{AllocError, Global};

/// If the entries of a file have this many bytes or more, the file gets no more entries.
const MAX_BYTES: usize = 1 << 62;

/// A file of lines, and the lines that were noted since the last commit.
#[derive(Drop)]
pub struct Journal<D: Disk> {
    disk: D,
    /// How many bytes the entries of the file have.
    end: usize,
    /// The entries of the lines that were noted since the last commit.
    pending: Vec<u8>,
}

/// Puts new entries after the entries of a file. The entries of the file have `end` bytes, and an empty line follows them; `text` is the
/// new entries and an empty line. The function first writes `text` without its first byte, a mark, after the empty line of the file. When
/// these bytes are on the disk, the function writes the mark over the newline that is the empty line.
fn append<D: Disk>(disk: &mut D, end: usize, text: &[u8]) -> Result<(), DiskFault>
    requires file { D.seen disk.old ≡ at_rest (recovered_lines (D.seen disk.old)) }
    requires end { end ≡ length (entries (recovered_lines (D.seen disk.old))) }
    requires durable { IsDurable (D.seen disk.old) (D.may_leave disk.old) }
    requires room { end < 2 ^ 62 }
    requires text { text.now ≡ at_rest (recovered_lines text.now) }
    requires some { 1 < length text.now }
    ensures written { OnOk result (D.seen disk.new ≡ at_rest (recovered_lines (D.seen disk.old) ++ recovered_lines text.now)) }
    ensures durable { OnOk result (IsDurable (D.seen disk.new) (D.may_leave disk.new)) }
    ensures any_moment { LeavesOnly D.moment D.left_since disk.old disk.new
        (IsBeforeOrAfter (recovered_lines (D.seen disk.old)) (recovered_lines text.now)) }
    ensures later { D.faults disk.old ≤ D.faults disk.new }
    ensures failed { IsErrOf result DiskFault.Failed → D.faults disk.old < D.faults disk.new }
    ensures full { IsErrOf result DiskFault.Full → ⊥ }
{
    disk.write_at(end + 1, &text[1..])?;
    // If a crash comes before this sync has ended, the file may have whole lines that were never noted. So the mark, without which no new
    // line is recovered, is written only after the sync.
    disk.sync()?;
    disk.write_at(end, &[MARK])?;
    disk.sync()
}

/// Cuts a file off after its entries, which have `end` bytes, and ends the file with an empty line.
fn repair<D: Disk>(disk: &mut D, end: usize) -> Result<(), DiskFault>
    requires split { D.seen disk.old ≡ entries (recovered_lines (D.seen disk.old)) ++ drop end (D.seen disk.old) }
    requires end { end ≡ length (entries (recovered_lines (D.seen disk.old))) }
    requires rest { recovered_lines (drop end (D.seen disk.old)) ≡ [] }
    requires durable { IsDurable (D.seen disk.old) (D.may_leave disk.old) }
    ensures at_rest { OnOk result (D.seen disk.new ≡ at_rest (recovered_lines (D.seen disk.old))) }
    ensures durable { OnOk result (IsDurable (D.seen disk.new) (D.may_leave disk.new)) }
    ensures any_moment { LeavesOnly D.moment D.left_since disk.old disk.new (StandsFor (recovered_lines (D.seen disk.old))) }
    ensures failed { IsErrOf result DiskFault.Failed → D.faults disk.old < D.faults disk.new }
    ensures full { IsErrOf result DiskFault.Full → ⊥ }
{
    disk.cut(end)?;
    // A crash during the write of the newline may leave a mark instead of the newline. If lines came after the mark, they would then be
    // recovered. So these lines have to be gone from the disk before the newline is written.
    disk.sync()?;
    disk.write_at(end, &[NEWLINE])?;
    disk.sync()
}

/// Whether the bytes from an offset on are a newline and no more.
fn is_ended(bytes: &[u8], end: usize) -> bool
    requires { end ≤ length bytes.now }
    ensures { result ≡ true → drop end bytes.now ≡ NEWLINE ∷ [] }
{
    bytes.len() - end == 1 && bytes[end] == NEWLINE
}

/// Repairs the end of a file whose bytes are `bytes` and whose entries have `end` bytes. A file that has only an empty line after its
/// entries needs no repair, and is not written.
fn settle<D: Disk>(disk: &mut D, bytes: &[u8], end: usize) -> Result<(), DiskFault>
    requires bytes { D.seen disk.old ≡ bytes.now }
    requires split { bytes.now ≡ entries (recovered_lines bytes.now) ++ drop end bytes.now }
    requires end { end ≡ length (entries (recovered_lines bytes.now)) }
    requires rest { recovered_lines (drop end bytes.now) ≡ [] }
    requires durable { IsDurable (D.seen disk.old) (D.may_leave disk.old) }
    ensures at_rest { OnOk result (D.seen disk.new ≡ at_rest (recovered_lines bytes.now)) }
    ensures durable { OnOk result (IsDurable (D.seen disk.new) (D.may_leave disk.new)) }
    ensures any_moment { LeavesOnly D.moment D.left_since disk.old disk.new (StandsFor (recovered_lines bytes.now)) }
    ensures failed { IsErrOf result DiskFault.Failed → D.faults disk.old < D.faults disk.new }
    ensures full { IsErrOf result DiskFault.Full → ⊥ }
{
    if is_ended(bytes, end) {
        return Ok(());
    }
    repair(disk, end)
}

/// Opens the journal in a file whose bytes are `bytes`. The file may have any bytes, also bytes that a crash left. The entries of the lines
/// that are recovered from the file stay in it, and an empty line replaces all bytes after these entries. No line is recovered from an
/// empty file.
///
/// Fails with `Failed` only if a call of the disk failed, with `Memory` only if a call of the disk returns `Memory`, and never with `Full`.
/// An error returns the disk too. A crash at any moment of the call leaves a file from which the same lines are recovered as from `bytes`.
pub fn open<D: Disk>(alloc: Global, mut disk: D, bytes: &[u8]) -> Result<Journal<D>, (DiskFault, D)>
    requires bytes { D.seen disk ≡ bytes.now }
    // All bytes of the file are on the disk: a crash before the first write or cut leaves the file as it is.
    requires durable { IsDurable (D.seen disk) (D.may_leave disk) }
    ensures settled { IfOk result (λ journal. IsSettled D.seen D.may_leave journal) }
    ensures kept { IfOk result (λ journal. journal_lines D.seen journal ≡ recovered_lines bytes.now) }
    ensures noted { IfOk result (λ journal. noted_lines journal ≡ []) }
    ensures any_moment { IfOk result (λ journal. LeavesOnly D.moment D.left_since disk (disk_of journal) (StandsFor (recovered_lines bytes.now))) }
    ensures any_moment_err { IfErr result (λ e. LeavesOnly D.moment D.left_since disk e.1 (StandsFor (recovered_lines bytes.now))) }
    ensures failed { IfErr result (λ e. e.0 ≡ DiskFault.Failed → D.faults disk < D.faults e.1) }
    ensures full { IfErr result (λ e. e.0 ≡ DiskFault.Full → ⊥) }
{
    let end = entries_len(bytes);
    if let Err(fault) = settle(&mut disk, bytes, end) {
        return Err((fault, disk));
    }
    Ok(Journal {
        disk,
        end,
        pending: Vec::new(alloc),
    })
}

impl<D: Disk> Journal<D> {
    /// Notes a line for the next commit. If memory is refused, nothing is noted.
    pub fn note(&mut self, line: &[u8]) -> Result<(), AllocError>
        requires line { IsLine line.now }
        requires settled { IsSettled D.seen D.may_leave self.old }
        ensures settled { IsSettled D.seen D.may_leave self.new }
        ensures ok { OnOk result (noted_lines self.new ≡ noted_lines self.old ++ line.now ∷ []) }
        ensures err { OnErr result (noted_lines self.new ≡ noted_lines self.old) }
        ensures disk { disk_of self.new ≡ disk_of self.old }
    {
        let len = self.pending.len();
        match put_entry(&mut self.pending, line) {
            Ok(()) => Ok(()),
            Err(error) => {
                self.pending.truncate(len);
                Err(error)
            }
        }
    }

    /// Writes the noted lines to the disk, all of them or none. `Ok` acknowledges the lines: from then on a crash leaves a file that has
    /// them. After an error the file has to be opened again.
    ///
    /// Fails with `Failed` only if a call of the disk failed, with `Full` only if the entries of the file have 2^62 bytes or more, and with
    /// `Memory` if memory is refused. If no line is noted, the call does nothing, and succeeds.
    pub fn commit(&mut self) -> Result<(), DiskFault>
        requires { IsSettled D.seen D.may_leave self.old }
        ensures settled { OnOk result (IsSettled D.seen D.may_leave self.new) }
        ensures kept { OnOk result (journal_lines D.seen self.new ≡ journal_lines D.seen self.old ++ noted_lines self.old) }
        ensures noted { OnOk result (noted_lines self.new ≡ []) }
        // A crash at any moment leaves the lines from before the call, without the noted lines or with all of them.
        ensures any_moment { LeavesOnly D.moment D.left_since (disk_of self.old) (disk_of self.new)
            (IsBeforeOrAfter (journal_lines D.seen self.old) (noted_lines self.old)) }
        // The number of failed calls of the disk never falls.
        ensures later { D.faults (disk_of self.old) ≤ D.faults (disk_of self.new) }
        ensures failed { IsErrOf result DiskFault.Failed → D.faults (disk_of self.old) < D.faults (disk_of self.new) }
        ensures full { IsErrOf result DiskFault.Full → 2 ^ 62 ≤ length (entries (journal_lines D.seen self.old)) }
        ensures untouched { IsErrOf result DiskFault.Full → disk_of self.new ≡ disk_of self.old }
    {
        if self.pending.is_empty() {
            return Ok(());
        }
        if self.end >= MAX_BYTES {
            return Err(DiskFault::Full);
        }
        self.pending.push(NEWLINE)?;
        append(&mut self.disk, self.end, &self.pending)?;
        self.end += self.pending.len() - 1;
        self.pending.clear();
        Ok(())
    }

    /// The disk of the journal. The journal ends, and lines that were noted and not committed are lost.
    pub fn into_disk(self) -> D
        ensures { result ≡ disk_of self }
    {
        self.disk
    }
}
