//! Tests that open a journal, write it, and look at the file that a crash leaves.
ghost use Rattle.std.specs.Prelude.{◌≡◌, true};
ghost use Rattle.journal.specs.Lines.{IsLine};
ghost use Rattle.journal.specs.Journal.{IsSettled};

use crate::torn_disk::TornDisk;
use journal::{Journal, next_entry, open};
use std::alloc::{AllocError, Global};
use std::process::Abort;
use std::test::Fail;

/// The lines that are recovered from some bytes, each followed by a bar.
pub(crate) fn lines_of(alloc: Global, bytes: &[u8]) -> Result<Vec<u8>, AllocError> {
    let mut lines = Vec::new(alloc);
    let mut rest = bytes;
    'lines: while let Some((line, more)) = next_entry(rest) {
        lines.extend_from_slice(line)?;
        lines.push(b'|')?;
        rest = more;
    }
    Ok(lines)
}

fn is_line(line: &[u8]) -> bool
    ensures { result ≡ true → IsLine line.now }
{
    line.iter().all(|c| *c != b'\n')
}

/// Notes a line for the next commit. A line with a newline in it is not noted.
fn note(journal: &mut Journal<TornDisk>, line: &[u8]) -> Result<(), AllocError>
    requires { IsSettled (λ disk. disk.bytes.items) (λ _ _. ⊥) journal.old }
    ensures { IsSettled (λ disk. disk.bytes.items) (λ _ _. ⊥) journal.new }
{
    if is_line(line) {
        journal.note(line)
    } else {
        Ok(())
    }
}

/// Notes lines and commits them, three times; ends at the first commit that fails. Returns how many commits succeeded.
fn commits(journal: &mut Journal<TornDisk>) -> Result<usize, AllocError>
    requires { IsSettled (λ disk. disk.bytes.items) (λ _ _. ⊥) journal.old }
{
    note(journal, b"new Book")?;
    note(journal, b"set #0 name \"Emma\"")?;
    if journal.commit().is_err() {
        return Ok(0);
    }
    note(journal, b"set #0 pages 100")?;
    if journal.commit().is_err() {
        return Ok(1);
    }
    note(journal, b" unset #0 pages")?;
    if journal.commit().is_err() {
        return Ok(2);
    }
    Ok(3)
}

/// The bytes of the file after the three commits; these bytes are also a script.
const WHOLE: &[u8] = b" new Book\n set #0 name \"Emma\"\n set #0 pages 100\n  unset #0 pages\n\n";

/// The lines of the file after `commits` commits, with a bar after each line.
fn lines_after(commits: usize) -> &'static [u8] {
    match commits {
        0 => b"",
        1 => b"new Book|set #0 name \"Emma\"|",
        2 => b"new Book|set #0 name \"Emma\"|set #0 pages 100|",
        _ => b"new Book|set #0 name \"Emma\"|set #0 pages 100| unset #0 pages|",
    }
}

/// How many calls of a disk a new file with three commits takes: four for the new file, and four for each commit.
const CALLS: u64 = 16;

/// Opens a new file on a disk that stops after `calls` calls, and makes the three commits. Returns how many commits succeeded, and the file
/// that a crash leaves.
fn run(alloc: Global, calls: u64, seed: u64) -> Result<(usize, Vec<u8>), AllocError> {
    let disk = TornDisk::new(alloc, b"", calls, seed)?;
    match open(alloc, disk, b"") {
        Ok(mut journal) => {
            let done = commits(&mut journal)?;
            Ok((done, journal.into_disk().left()?))
        }
        Err((_, mut disk)) => Ok((0, disk.left()?)),
    }
}

/// Opens a file that a crash left, on a disk that stops after `calls` calls, and returns the file that a second crash leaves.
fn left_again(alloc: Global, left: &[u8], calls: u64, seed: u64) -> Result<Vec<u8>, AllocError> {
    let disk = TornDisk::new(alloc, left, calls, seed)?;
    match open(alloc, disk, left) {
        Ok(journal) => journal.into_disk().left(),
        Err((_, mut disk)) => disk.left(),
    }
}

#[test]
fn a_journal_that_no_call_stops_is_a_script(rt: HostRuntime) -> Result<(), Fail> {
    let (done, left) = run(rt.alloc(), CALLS, 1)?;
    assert_eq!(rt; done, 3);
    assert_eq!(rt; left.as_slice(), WHOLE);
    Ok(())
}

/// Opens the file `left` on five disks, which stop after 0, 1, 2, 3 and 4 calls. The recovery of a file that needs a repair makes four
/// calls, so each of these calls fails on one disk, and on the fifth disk no call fails. The recovery of a file that needs no repair makes
/// no call. Checks that each of the five files that a second crash leaves has exactly the lines `lines`.
fn check_recovery(
    rt: &impl Abort,
    alloc: Global,
    left: &[u8],
    lines: &[u8],
    seed: u64,
) -> Result<(), Fail> {
    for calls in 0..5u64 {
        let again = left_again(alloc, left, calls, seed)?;
        let same = lines_of(alloc, again.as_slice())?;
        assert!(rt;
            same.as_slice() == lines,
            "with {seed}, in a recovery after {calls} calls"
        );
    }
    Ok(())
}

/// Makes the three commits in a new file, on a disk that stops after `calls` calls, and takes the file that a crash then leaves. Checks
/// that the file has the lines of the commits that succeeded and, beyond these lines, either no line or all lines of the next commit.
/// Checks too that a second crash, during the recovery of the file, leaves a file with the same lines. Returns whether the file has the
/// lines of the next commit.
fn has_more(rt: &impl Abort, alloc: Global, calls: u64, seed: u64) -> Result<bool, Fail> {
    let (done, left) = run(alloc, calls, seed)?;
    let lines = lines_of(alloc, left.as_slice())?;
    check_recovery(rt, alloc, left.as_slice(), lines.as_slice(), seed)?;
    if lines.as_slice() == lines_after(done) {
        return Ok(false);
    }
    let next = lines_after(done.saturating_add(1));
    assert!(rt;
        lines.as_slice() == next,
        "with {seed}, after {calls} calls"
    );
    Ok(true)
}

#[test]
fn no_crash_loses_a_line_that_was_acknowledged(rt: HostRuntime) -> Result<(), Fail> {
    let mut with_more = 0u64;
    let mut without = 0u64;
    for calls in 0..=CALLS {
        for seed in 0..300u64 {
            if has_more(&rt, rt.alloc(), calls, seed)? {
                with_more = with_more.saturating_add(1);
            } else {
                without = without.saturating_add(1);
            }
        }
    }
    // A crash during a commit may leave the lines of the commit, or not.
    assert!(rt; with_more > 0);
    assert!(rt; without > 0);
    Ok(())
}
