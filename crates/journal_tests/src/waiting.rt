//! Tests how often `before_wait` is called while a line is read.
ghost use Rattle.std.specs.Prelude.{⊤};

use script_streams::{RunFault, Waits, read_line_waiting};
use std::alloc::Global;
use std::io::{BufReader, Read};
use std::test::Fail;

/// A reader that gives at most `size` bytes of a text at each read.
#[derive(Drop)]
pub(crate) struct Pieces<'a> {
    rest: &'a [u8],
    size: usize,
}

impl<'a> Pieces<'a> {
    pub(crate) fn new(text: &'a [u8], size: usize) -> Pieces<'a> {
        Pieces { rest: text, size }
    }
}

impl<'a> Read for Pieces<'a> {
    fn read(&mut self, buf: &mut [u8]) -> std::io::Result<usize> {
        let n = self.size.min(self.rest.len()).min(buf.len());
        let (piece, rest) = self.rest.split_at(n);
        buf[..n].copy_from_slice(piece);
        self.rest = rest;
        Ok(n)
    }
}

/// Counts the calls of `before_wait`: how often a read may wait.
#[derive(Drop)]
struct Counted {
    waits: u64,
}

impl Waits for Counted {
    ghost can_wait = { λ _. ⊤ };

    ghost is_ready = { λ _. ⊤ };

    ghost becomes = { λ _ _. ⊤ };

    ghost fails = { λ _ _ _. ⊤ };

    ghost stays = { λ _. tt };

    ghost goes_on = { λ _ _ _ _ _. tt };

    fn before_wait(&mut self) -> Result<(), RunFault> {
        self.waits = self.waits.saturating_add(1);
        Ok(())
    }
}

/// How many reads may wait while a line of two bytes and its newline are read, if each read gives at most `size` bytes.
fn waits_for_a_line(alloc: Global, size: usize) -> Result<u64, Fail> {
    let mut reader = BufReader::new(alloc, Pieces::new(b"+a\n+b\n", size))?;
    let mut counted = Counted { waits: 0 };
    let mut line = Vec::new(alloc);
    let _ = read_line_waiting(&mut reader, &mut counted, &mut line)?;
    Ok(counted.waits)
}

#[test]
fn before_each_read_is_a_wait(rt: HostRuntime) -> Result<(), Fail> {
    assert_eq!(rt; waits_for_a_line(rt.alloc(), 1)?, 3);
    assert_eq!(rt; waits_for_a_line(rt.alloc(), 2)?, 2);
    assert_eq!(rt; waits_for_a_line(rt.alloc(), 6)?, 1);
    Ok(())
}
