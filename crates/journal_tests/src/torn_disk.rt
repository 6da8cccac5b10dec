//! A disk that stops, and the file that a crash leaves on the disk.
ghost use Rattle.std.specs.Prelude.{◌≡◌, IfOk, if◌then◌else◌};
ghost use Rattle.journal.specs.Disk.{HasCause};

use journal::{Disk, DiskFault};
use std::alloc::{AllocError, Global};

/// A disk that stops: a number of its calls succeed, and all further calls fail. Until a sync succeeds, a crash may leave each write and
/// each cut done only in part, also a write or a cut that failed. The clauses of this disk say nothing of a crash: a test looks at the file
/// that `left` returns.
#[derive(Drop)]
pub(crate) struct TornDisk {
    alloc: Global,
    bytes: Vec<u8>,
    synced: Vec<u8>,
    /// All bytes that were written since the last sync are at this offset or after it, and before the offset `to`.
    from: usize,
    to: usize,
    calls_left: u64,
    has_failed: bool,
    random: u64,
}

/// A byte in the range of a torn write. If `pick` is 0, the result is the old byte, or a newline if there is no old byte. If `pick` is 1,
/// the result is the new byte, or a space if there is no new byte. If `pick` is 2, the result is a space, with which each entry of a
/// journal begins. For any other `pick` the result is a newline.
fn torn(old: Option<u8>, new: Option<u8>, pick: u64) -> u8 {
    match pick {
        0 => old.unwrap_or(b'\n'),
        1 => new.unwrap_or(b' '),
        2 => b' ',
        _ => b'\n',
    }
}

impl TornDisk {
    /// A disk whose file has the bytes `bytes`, all of them synced, and that stops after `calls` calls. The random choices of the disk
    /// depend on `seed`.
    pub(crate) fn new(
        alloc: Global,
        bytes: &[u8],
        calls: u64,
        seed: u64,
    ) -> Result<TornDisk, AllocError>
        ensures { IfOk result (λ disk. disk.bytes.items ≡ bytes.now) }
    {
        let held = bytes.to_vec(alloc)?;
        let synced = bytes.to_vec(alloc)?;
        Ok(TornDisk {
            alloc,
            bytes: held,
            synced,
            from: usize::MAX,
            to: 0,
            calls_left: calls,
            has_failed: false,
            random: seed,
        })
    }

    /// How many more calls succeed before the disk stops.
    pub(crate) fn calls_left(&self) -> u64 {
        self.calls_left
    }

    fn draw(&mut self) -> u64 {
        self.random = self
            .random
            .wrapping_mul(6_364_136_223_846_793_005)
            .wrapping_add(1_442_695_040_888_963_407);
        self.random >> 33
    }

    /// Whether a crash may leave a torn byte (`torn`) at the offset `k`.
    fn is_torn(&self, k: usize) -> bool {
        k >= self.synced.len() || (k >= self.from && k < self.to)
    }

    /// A file that a crash now may leave, drawn at random.
    pub(crate) fn left(&mut self) -> Result<Vec<u8>, AllocError> {
        let mut image = Vec::new(self.alloc);
        let short = self.bytes.len().min(self.synced.len());
        let long = self.bytes.len().max(self.synced.len());
        let lengths = long.saturating_sub(short).saturating_add(1);
        let more = (self.draw() as usize).checked_rem(lengths);
        let len = short.saturating_add(more.unwrap_or(0));
        for k in 0..len {
            let old = self.synced.get(k).copied();
            let new = self.bytes.get(k).copied();
            let pick = self.draw() % 4;
            let byte = if self.is_torn(k) {
                torn(old, new, pick)
            } else {
                old.unwrap_or(b'\n')
            };
            image.push(byte)?;
        }
        Ok(image)
    }

    /// Counts a call that succeeds. If the disk has stopped, the call fails instead: the first such call with `Failed`, and each later call
    /// with `Memory`.
    fn spend(&mut self) -> Result<(), DiskFault>
        ensures bytes { self.new.bytes ≡ self.old.bytes }
        ensures cause { HasCause (if self.old.has_failed then 1 else 0) (if self.new.has_failed then 1 else 0) result }
    {
        if self.calls_left > 0 {
            self.calls_left -= 1;
            return Ok(());
        }
        if self.has_failed {
            return Err(DiskFault::Memory);
        }
        self.has_failed = true;
        Err(DiskFault::Failed)
    }

    /// Records that the bytes from the offset `from` on, and before the offset `to`, were written and are not synced.
    fn touch(&mut self, from: usize, to: usize)
        ensures bytes { self.new.bytes ≡ self.old.bytes }
        ensures faults { self.new.has_failed ≡ self.old.has_failed }
    {
        self.from = self.from.min(from);
        self.to = self.to.max(to);
    }
}

impl Disk for TornDisk {
    ghost seen = { λ disk. disk.bytes.items };

    ghost may_leave = { λ _ _. ⊥ };

    ghost moment = { λ _. 0 };

    ghost left_since = { λ _ _ _. ⊥ };

    ghost faults = { λ disk. if disk.has_failed then 1 else 0 };

    ghost counts_now = { λ disk t c le left. left };

    ghost only_now = { λ disk c left. left };

    fn write_at(&mut self, at: usize, bytes: &[u8]) -> Result<(), DiskFault> {
        let mut next = self.bytes[..at].to_vec(self.alloc)?;
        next.extend_from_slice(bytes)?;
        if bytes.len() < self.bytes.len() - at {
            next.extend_from_slice(&self.bytes[at + bytes.len()..])?;
        }
        self.bytes = next;
        self.touch(at, at.saturating_add(bytes.len()));
        self.spend()
    }

    fn cut(&mut self, len: usize) -> Result<(), DiskFault> {
        self.bytes.truncate(len);
        self.spend()
    }

    fn sync(&mut self) -> Result<(), DiskFault> {
        self.spend()?;
        self.synced = self.bytes.to_vec(self.alloc)?;
        self.from = usize::MAX;
        self.to = 0;
        Ok(())
    }
}
