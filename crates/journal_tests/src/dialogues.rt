//! Tests of dialogues whose journal is on a disk that stops: after a number of calls, every further call of the disk fails.
ghost use Rattle.std.specs.Prelude.{⊤};

use crate::journals::lines_of;
use crate::torn_disk::TornDisk;
use crate::waiting::Pieces;
use durable::{JournalTurn, Outbox, Session, replay, run_dialogue};
use journal::open;
use script_streams::RunFault;
use std::alloc::{AllocError, Global};
use std::io::BufReader;
use std::process::Abort;
use std::test::Fail;

/// A session that counts the lines that begin with `+`; the journal keeps these lines. The session answers a line that begins with `?` with
/// the count, as a digit, and refuses any other line.
#[derive(Drop)]
struct Counter {
    count: u8,
}

impl Session for Counter {
    ghost runs = { λ _ _ _ _. ⊤ };

    fn answer(&mut self, line: &[u8], text: &mut Vec<u8>) -> Result<JournalTurn, AllocError> {
        match line.first() {
            Some(b'+') => {
                text.extend_from_slice(b"ok\n")?;
                self.count = self.count.saturating_add(1);
                Ok(JournalTurn::Kept)
            }
            Some(b'?') => {
                text.extend_from_slice(&[self.count.saturating_add(b'0'), b'\n'])?;
                Ok(JournalTurn::Other)
            }
            _ => {
                text.extend_from_slice(b"no\n")?;
                Ok(JournalTurn::Other)
            }
        }
    }
}

const INPUT: &[u8] = b"+a\n?c\n+b\n!d\n+e\n";

/// The answers that a dialogue writes for `INPUT`.
const WRITTEN: &[u8] = b"ok\n\n1\n\nok\n\nno\n\nok\n\n";

/// The bytes of the journal's file after the whole input was run.
const FILE: &[u8] = b" +a\n +b\n +e\n\n";

/// How many calls of the disk it takes to open a journal in a new file.
const NEW: u64 = 4;

/// The first `count` kept lines of the input, each followed by a bar.
fn lines_kept(count: u8) -> &'static [u8] {
    match count {
        0 => b"",
        1 => b"+a|",
        2 => b"+a|+b|",
        _ => b"+a|+b|+e|",
    }
}

/// How many kept lines were answered: the number of kept lines whose whole answer is in the first `written` bytes of `WRITTEN`.
fn answered(written: usize) -> u8 {
    match written {
        0..=3 => 0,
        4..=10 => 1,
        11..=18 => 2,
        _ => 3,
    }
}

/// What a dialogue leaves: the fault that stopped the dialogue, if a fault stopped it; the answers that were written; the file that a crash
/// after the dialogue leaves; and how many more calls of the disk succeed.
#[derive(Drop)]
struct Left {
    fault: Option<RunFault>,
    written: Vec<u8>,
    file: Vec<u8>,
    calls_left: u64,
}

/// Runs a dialogue over a new file on a disk that stops after `calls` calls. Each read gives at most `size` bytes of the input. Fails if
/// `calls` is below `NEW`, since then no journal is opened.
fn run(alloc: Global, size: usize, calls: u64, seed: u64) -> Result<Left, Fail> {
    let disk = TornDisk::new(alloc, b"", calls, seed)?;
    let Ok(journal) = open(alloc, disk, b"") else {
        return Err(Fail::from(AllocError));
    };
    let mut outbox = Outbox::new(alloc, journal, Vec::new(alloc));
    let mut reader = BufReader::new(alloc, Pieces::new(INPUT, size))?;
    let mut session = Counter { count: 0 };
    let fault = run_dialogue(alloc, &mut reader, &mut session, &mut outbox).err();
    let (journal, written) = outbox.into_parts();
    let mut disk = journal.into_disk();
    let file = disk.left()?;
    Ok(Left {
        fault,
        written,
        file,
        calls_left: disk.calls_left(),
    })
}

/// How many lines a new session counts if it replays the file of a journal. `None` if the replay fails: a line of the file is not kept
/// again, or memory is refused.
fn replayed(alloc: Global, file: &[u8]) -> Option<u8> {
    let mut session = Counter { count: 0 };
    match replay(alloc, &mut session, file) {
        Ok(()) => Some(session.count),
        Err(_) => None,
    }
}

#[test]
fn a_dialogue_answers_each_line(rt: HostRuntime) -> Result<(), Fail> {
    let left = run(rt.alloc(), 3, 100, 1)?;
    assert_eq!(rt; left.fault, None);
    assert_eq!(rt; left.written.as_slice(), WRITTEN);
    assert_eq!(rt; left.file.as_slice(), FILE);
    assert_eq!(rt; replayed(rt.alloc(), left.file.as_slice()), Some(3));
    Ok(())
}

#[test]
fn lines_that_come_in_together_are_put_on_the_disk_together(rt: HostRuntime) -> Result<(), Fail> {
    // A commit makes four calls.
    let one_by_one = run(rt.alloc(), 3, 100, 1)?;
    assert_eq!(rt; one_by_one.calls_left, 100 - NEW - 12);
    let together = run(rt.alloc(), 15, 100, 1)?;
    assert_eq!(rt; together.calls_left, 100 - NEW - 4);
    assert_eq!(rt; together.written.as_slice(), WRITTEN);
    Ok(())
}

/// Stops a dialogue after `calls` calls of the disk. Checks that the fault is `Journal`, that the answers are a prefix of `WRITTEN`, and
/// that the file has the kept lines that were answered. The file may also have all lines of the commit that failed; `more` is the number of
/// kept lines of a commit. Checks too that a replay of the file by a new session counts exactly the lines of the file.
fn check(
    rt: &impl Abort,
    alloc: Global,
    size: usize,
    more: u8,
    calls: u64,
    seed: u64,
) -> Result<(), Fail> {
    let left = run(alloc, size, calls, seed)?;
    assert!(rt;
        left.fault == Some(RunFault::Journal),
        "after {calls} calls, with {seed}"
    );
    assert!(rt;
        WRITTEN.starts_with(left.written.as_slice()),
        "after {calls} calls, with {seed}"
    );
    let kept = answered(left.written.len());
    let lines = lines_of(alloc, left.file.as_slice())?;
    let has_more = lines.as_slice() != lines_kept(kept);
    let count = if has_more {
        kept.saturating_add(more)
    } else {
        kept
    };
    assert!(rt;
        lines.as_slice() == lines_kept(count),
        "after {calls} calls, with {seed}"
    );
    assert!(rt;
        replayed(alloc, left.file.as_slice()) == Some(count),
        "after {calls} calls, with {seed}"
    );
    Ok(())
}

#[test]
fn what_was_answered_comes_back(rt: HostRuntime) -> Result<(), Fail> {
    for seed in 0..100u64 {
        for calls in NEW..NEW + 12 {
            check(&rt, rt.alloc(), 3, 1, calls, seed)?;
        }
        for calls in NEW..NEW + 4 {
            check(&rt, rt.alloc(), 15, 3, calls, seed)?;
        }
    }
    Ok(())
}

#[test]
fn a_line_that_is_not_done_again_is_refused(rt: HostRuntime) {
    assert_eq!(rt; replayed(rt.alloc(), b" +a\n no\n +b\n\n"), None);
    // A line after an empty line is not recovered, so it is not run.
    assert_eq!(rt; replayed(rt.alloc(), b" +a\n\n no\n"), Some(1));
}
