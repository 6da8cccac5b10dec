//! A file of the system as a disk. Each method of `Disk` makes one call on the file (`write_all_at`, `set_len` or `sync_data`), and records
//! this call.
ghost use Rattle.std.specs.Prelude.{◌≡◌, IfOk, length};
ghost use Rattle.journal.specs.Disk.{IsDurable};
ghost use Rattle.file_disk.specs.Events.{LeftSince, MayLeave, counts, failures, file_bytes, only};
ghost use Rattle.file_disk.specs.Files.{events_of, outcome_of};

use crate::call::Call;
use crate::record::Record;
use journal::{Disk, DiskFault};
use std::fs::{OpenOptions, TryLockError};
use std::io::Read;
use std::os::unix::fs::FileExt;
use std::{fs, io};

/// An open file with its lock. Until the `FileDisk` is dropped, neither this process nor another one can open the file as a disk again.
#[derive(Drop)]
pub struct FileDisk {
    file: fs::File,
    record: Record,
}

/// Why a file is not opened.
#[derive(Debug, Drop)]
pub enum OpenFault {
    /// A call of the system failed, or memory was refused.
    Io(io::Error),
    /// The file is locked: it is open as a disk already, in another process or in this process.
    InUse,
}

impl From<io::Error> for OpenFault {
    fn from(error: io::Error) -> OpenFault {
        OpenFault::Io(error)
    }
}

/// Syncs the folder of a file, so that the name of a new file is on the disk.
fn sync_folder(rt: &HostRuntime, path: &str) -> io::Result<()> {
    let mut folder = fs::canonicalize(rt, path)?;
    folder.pop();
    fs::File::open(rt, folder.as_str())?.sync_all()
}

/// Opens a file, or makes the file if there is none. Returns the file as a disk, and its bytes.
///
/// The bytes that an earlier process wrote are put on the disk before they are read. So until the file is written or cut, a crash leaves
/// exactly the bytes that were read.
pub fn open(rt: &HostRuntime, path: &str) -> Result<(FileDisk, Vec<u8>), OpenFault>
    ensures bytes { IfOk result (λ opened. file_bytes (events_of opened.0) ≡ opened.1.items) }
    ensures durable { IfOk result (λ opened. IsDurable (file_bytes (events_of opened.0)) (MayLeave (events_of opened.0))) }
{
    let mut file = OpenOptions::new()
        .read(true)
        .write(true)
        .create(true)
        .open(rt, path)?;
    match file.try_lock() {
        Ok(()) => {}
        Err(TryLockError::WouldBlock) => return Err(OpenFault::InUse),
        Err(TryLockError::Error(error)) => return Err(OpenFault::Io(error)),
    }
    file.sync_all()?;
    sync_folder(rt, path)?;
    let mut bytes = Vec::new(rt.alloc());
    file.read_to_end(&mut bytes)?;
    let record = Record::new().with(&Call::Opened(bytes.as_slice()));
    Ok((FileDisk { file, record }, bytes))
}

/// What a method of `Disk` returns; `is_done` says whether the method's call of the system succeeded.
fn outcome(is_done: bool) -> Result<(), DiskFault>
    ensures { result ≡ outcome_of is_done }
{
    if is_done {
        Ok(())
    } else {
        Err(DiskFault::Failed)
    }
}

impl Disk for FileDisk {
    ghost seen = { λ disk. file_bytes (events_of disk) };

    ghost may_leave = { λ disk. MayLeave (events_of disk) };

    ghost moment = { λ disk. length (events_of disk) };

    ghost left_since = { λ disk. LeftSince (events_of disk) };

    ghost faults = { λ disk. failures (events_of disk) };

    ghost counts_now = { λ disk. counts (events_of disk) };

    ghost only_now = { λ disk. only (events_of disk) };

    fn write_at(&mut self, at: usize, bytes: &[u8]) -> Result<(), DiskFault> {
        let is_done = self.file.write_all_at(bytes, at as u64).is_ok();
        self.record = self.record.with(&Call::Written(at, bytes, is_done));
        outcome(is_done)
    }

    fn cut(&mut self, len: usize) -> Result<(), DiskFault> {
        let is_done = self.file.set_len(len as u64).is_ok();
        self.record = self.record.with(&Call::Cut(len, is_done));
        outcome(is_done)
    }

    fn sync(&mut self) -> Result<(), DiskFault> {
        let is_done = self.file.sync_data().is_ok();
        self.record = self.record.with(&Call::Synced(is_done));
        outcome(is_done)
    }
}
