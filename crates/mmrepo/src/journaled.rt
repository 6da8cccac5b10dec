//! A live run whose changes a journal keeps.
ghost use Rattle.std.specs.Prelude.{◌≡◌};
ghost use Rattle.journal.specs.Disk.{IsDurable};
ghost use Rattle.journal.specs.Lines.{IsLine};

use crate::asked::Asked;
use crate::explained::{explained_disk, explained_journal, explained_lock};
use crate::prompt::Prompted;
use crate::running::writer_of;
use crate::saving::save_files;
use crate::stop::Stop;
use crate::watched::{Ear, Watching};
use adapters::Adapter;
use durable::head_of;
use journal::Disk;
use link_store::SlotStore;
use mm_meta::Meta;
use script_program::{Journaled, KeptFault, run_kept};
use script_streams::RunFault;
use std::io::BufReader;

/// Why the program stops if a run with a journal stops; the journal is the file at `path`.
fn explained_kept(rt: &HostRuntime, asked: &Asked, path: &str, fault: KeptFault) -> Stop {
    match fault {
        KeptFault::Unopened(fault) => explained_journal(rt, asked, path, fault),
        KeptFault::Stopped(fault) => explained_disk(rt, asked.names_files, path, Stop::Run(fault)),
    }
}

/// Runs the lines of a journal again, answers the lines of standard input, and adds the lines that change the model to the journal. `disk`
/// is the file of the journal, `bytes` is its content, and `head` is the first line that the journal must have. Returns the outcome of the
/// run; fails only if memory is refused for the buffers.
fn answer<D: Disk + Drop, A: Adapter>(
    rt: &HostRuntime,
    head: &[u8],
    disk: D,
    bytes: Vec<u8>,
    session: &mut Journaled<SlotStore, A, Ear<'_>>,
    watch: Watching<'_>,
) -> Result<Result<(), KeptFault>, Stop>
    requires head { IsLine head.now }
    requires bytes { D.seen disk ≡ bytes.items }
    requires durable { IsDurable (D.seen disk) (D.may_leave disk) }
{
    let Ok(mut reader) = BufReader::new(rt.alloc(), Prompted::new(rt)) else {
        return Err(Stop::Run(RunFault::Memory));
    };
    let writer = writer_of(rt, watch)?;
    let run = run_kept(rt.alloc(), &mut reader, writer, session, disk, bytes, head);
    Ok(run.outcome)
}

/// The path of a journal, and the digest of the metamodel's document, which the first line of the journal must have.
#[derive(Clone, Copy)]
struct JournalFile<'a> {
    path: &'a str,
    digest: &'a [u8],
}

/// Runs the lines of a journal again, and then answers the lines that come on standard input.
fn answer_from<A: Adapter>(
    rt: &HostRuntime,
    asked: &Asked,
    file: JournalFile<'_>,
    session: &mut Journaled<SlotStore, A, Ear<'_>>,
    watch: Watching<'_>,
) -> Result<(), Stop> {
    let head = head_of(rt.alloc(), file.digest)?;
    let (disk, bytes) = match file_disk::open(rt, file.path) {
        Ok(opened) => opened,
        Err(fault) => return Err(explained_lock(rt, asked, file.path, fault)),
    };
    match answer(rt, head.as_slice(), disk, bytes, session, watch)? {
        Ok(()) => Ok(()),
        Err(fault) => Err(explained_kept(rt, asked, file.path, fault)),
    }
}

/// Runs the lines of a journal again, answers the lines that come on standard input, and saves files. Returns whether a line was refused or
/// bad.
fn run_session<A: Adapter>(
    rt: &HostRuntime,
    asked: &Asked,
    file: JournalFile<'_>,
    session: &mut Journaled<SlotStore, A, Ear<'_>>,
    watch: Watching<'_>,
) -> Result<bool, Stop> {
    answer_from(rt, asked, file, session, watch)?;
    save_files(rt, asked, session.repository(), watch)?;
    Ok(session.is_faulty())
}

/// Runs the lines of a journal again, answers the lines that come on standard input, and saves files. Begins with an empty repository of
/// the metamodel, with the adapters `boxes`. Returns whether a line was refused or bad.
pub(crate) fn run_journaled<A: Adapter>(
    rt: &HostRuntime,
    asked: &Asked,
    path: &str,
    digest: &[u8],
    meta: Box<Meta>,
    boxes: Vec<A>,
    watch: Watching<'_>,
) -> Result<bool, Stop> {
    let meta = Box::into_inner(meta);
    let mut session = Journaled::new(rt.alloc(), meta, boxes, Ear::new(watch))?;
    let file = JournalFile { path, digest };
    run_session(rt, asked, file, &mut session, watch)
}
