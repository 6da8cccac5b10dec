//! Runs the script.
use crate::asked::Asked;
use crate::explained::{explained_open, explained_run};
use crate::files::load_files;
use crate::journaled::run_journaled;
use crate::metamodel::load;
use crate::prompt::Prompted;
use crate::saving::save_files;
use crate::stop::Stop;
use crate::watched::{Ear, Watched, Watching};
use adapters::{Adapter, Counter, Recorder, Window};
use explain_commands::{Commentary, Talk};
use link_store::SlotStore;
use mm_meta::Meta;
use repository::Repository;
use script_program::{Summary, live_over, run_over};
use script_streams::RunFault;
use sha2::{Digest, Sha256};
use std::cell::RefCell;
use std::io::{BufReader, BufWriter, IsTerminal, Printer, Read, Write};
use std::{fs, io};

/// How many adapters a run without `--live` has.
const BOXES: u32 = 8;

/// How many adapters a live run has.
const LIVE_BOXES: u32 = 1000;

/// How many notifications A8 can count in a run, the notification of REMOVING_ADAPTER included.
const LEFT: u64 = 2;

/// The exit status with `--strict` if the run came to its end, and a line was refused or bad.
const FAULTY: u8 = 4;

/// Standard output through a buffer. The buffer is around the `Watched` stream, and not inside it, so that a write into the buffer costs no
/// more than the copy of the bytes.
pub(crate) fn writer_of<'w>(
    rt: &'w HostRuntime,
    watch: Watching<'w>,
) -> Result<BufWriter<Watched<'w, Printer<'w, HostRuntime>>>, Stop> {
    match BufWriter::new(rt.alloc(), Watched::new(rt, io::writer(rt), watch)) {
        Ok(writer) => Ok(writer),
        Err(_) => Err(Stop::Run(RunFault::Memory)),
    }
}

/// Flushes the writer, whatever the outcome of a run. Returns the outcome, or the fault `Write` if the run came to its end and the flush
/// failed.
fn ended<W: Write>(
    writer: &mut W,
    outcome: Result<Summary, RunFault>,
) -> Result<Summary, RunFault> {
    let flushed = writer.flush();
    let summary = outcome?;
    if flushed.is_err() {
        return Err(RunFault::Write);
    }
    Ok(summary)
}

/// Runs the script that `reader` gives, over a repository.
fn run_reader<R: Read + Drop, A: Adapter>(
    rt: &HostRuntime,
    mut reader: R,
    asked: &Asked,
    repository: &mut Repository<SlotStore, A>,
    boxes: Vec<A>,
    watch: Watching<'_>,
) -> Result<Summary, Stop> {
    let mut writer = writer_of(rt, watch)?;
    let outcome = run_over(
        rt.alloc(),
        &mut reader,
        &mut writer,
        repository,
        boxes,
        &mut Ear::new(watch),
        asked.dress,
    );
    Ok(ended(&mut writer, outcome)?)
}

/// Answers the lines that come on standard input, each line before the next line is read.
fn run_dialogue<A: Adapter>(
    rt: &HostRuntime,
    repository: &mut Repository<SlotStore, A>,
    boxes: Vec<A>,
    watch: Watching<'_>,
) -> Result<Summary, Stop> {
    let Ok(mut reader) = BufReader::new(rt.alloc(), Prompted::new(rt)) else {
        return Err(Stop::Run(RunFault::Memory));
    };
    let mut writer = writer_of(rt, watch)?;
    let alloc = rt.alloc();
    let mut ear = Ear::new(watch);
    let outcome = live_over(alloc, &mut reader, &mut writer, repository, boxes, &mut ear);
    Ok(ended(&mut writer, outcome)?)
}

/// Whether at least one line of a run was refused or bad.
fn is_faulty(summary: Summary) -> bool {
    summary.refused > 0 || summary.bad > 0
}

/// Runs the script of a file, or the script on standard input if no file is given. If the run is live, answers the lines of standard input
/// one by one instead.
fn run_script<A: Adapter>(
    rt: &HostRuntime,
    asked: &Asked,
    repository: &mut Repository<SlotStore, A>,
    boxes: Vec<A>,
    watch: Watching<'_>,
) -> Result<Summary, Stop> {
    if asked.live {
        return run_dialogue(rt, repository, boxes, watch);
    }
    let Some(path) = &asked.script else {
        return run_reader(rt, rt.reader(), asked, repository, boxes, watch);
    };
    let path = path.as_str();
    let file = match fs::open(rt, path) {
        Ok(file) => file,
        Err(error) => return Err(explained_open(rt, asked.names_files, path, error)),
    };
    match run_reader(rt, file, asked, repository, boxes, watch) {
        Err(Stop::Run(fault)) => Err(explained_run(rt, asked.names_files, path, fault)),
        outcome => outcome,
    }
}

/// Loads files, runs the script and saves files. With `--stop`, nothing is saved if a line was refused or bad. Returns whether a line was
/// refused or bad.
fn run_between<A: Adapter>(
    rt: &HostRuntime,
    asked: &Asked,
    repository: &mut Repository<SlotStore, A>,
    boxes: Vec<A>,
    watch: Watching<'_>,
) -> Result<bool, Stop> {
    load_files(rt, asked, repository, watch)?;
    let summary = run_script(rt, asked, repository, boxes, watch)?;
    let faulty = is_faulty(summary);
    if !(asked.dress.stop && faulty) {
        save_files(rt, asked, repository, watch)?;
    }
    Ok(faulty)
}

/// Loads files, runs the script and saves files, over a new repository and without a journal. Returns whether a line was refused or bad.
fn run_unkept<A: Adapter>(
    rt: &HostRuntime,
    asked: &Asked,
    meta: Box<Meta>,
    boxes: Vec<A>,
    watch: Watching<'_>,
) -> Result<bool, Stop> {
    let mut repository: Repository<SlotStore, A> = Repository::new(
        rt.alloc(),
        Box::into_inner(meta),
    );
    let outcome = run_between(rt, asked, &mut repository, boxes, watch);
    let _ = repository.close_at_exit();
    outcome
}

/// The number of the last adapter of a run.
fn last_box(asked: &Asked) -> u32 {
    if asked.live { LIVE_BOXES } else { BOXES }
}

/// The digest of the metamodel's document, which a journal has in its first line. Without a journal the digest is not used, and the result
/// is the digest of no bytes.
fn digest_for(asked: &Asked, document: &[u8]) -> [u8; 32] {
    match asked.journal {
        Some(_) => Sha256::digest(document),
        None => Sha256::digest(b""),
    }
}

/// Checks the metamodel, frees its document, and makes an empty repository of the metamodel, with the adapters `boxes`. If there is no
/// journal, loads files, runs the script and saves files. If there is a journal, runs its lines again, answers the lines of standard input,
/// and saves files. Returns whether a line was refused or bad.
fn run_over_metamodel<A: Adapter>(
    rt: &HostRuntime,
    asked: &Asked,
    document: &mut Vec<u8>,
    boxes: Vec<A>,
    watch: Watching<'_>,
) -> Result<bool, Stop> {
    let meta = load(rt, asked, document.as_slice())?;
    let digest = digest_for(asked, document.as_slice());
    *document = Vec::new(rt.alloc());
    match &asked.journal {
        Some(path) => run_journaled(rt, asked, path.as_str(), &digest, meta, boxes, watch),
        None => run_unkept(rt, asked, meta, boxes, watch),
    }
}

/// Makes the adapters of a run, and runs the script with them: A1 to A4 keep every notification, A5 keeps the last 2 and A6 the last 100,
/// A7 and A8 only count, and A8 counts no more than two notifications. A live run has further adapters, A9 to A1000. They only count, so
/// that their notifications take no memory in a long run. Returns whether a line was refused or bad.
fn run_with_boxes(
    rt: &HostRuntime,
    asked: &Asked,
    document: &mut Vec<u8>,
    watch: Watching<'_>,
) -> Result<bool, Stop> {
    let mut boxes: Vec<Box<dyn Adapter>> = Vec::new(rt.alloc());
    for no in 1..=last_box(asked) {
        match no {
            1..=4 => boxes.push(Box::new(rt.alloc(), Recorder::new(rt.alloc()))?)?,
            5 => boxes.push(Box::new(rt.alloc(), Window::new(rt.alloc(), 2)?)?)?,
            6 => boxes.push(Box::new(rt.alloc(), Window::new(rt.alloc(), 100)?)?)?,
            8 => boxes.push(Box::new(rt.alloc(), Counter::starting_at(u64::MAX - LEFT))?)?,
            _ => boxes.push(Box::new(rt.alloc(), Counter::new())?)?,
        }
    }
    run_over_metamodel(rt, asked, document, boxes, watch)
}

/// Runs the script as the options say, over the metamodel of a document, and returns whether a line was refused or bad. The lines are
/// watched if they are to be commented on. They are also watched if resources are to be saved, since the watch notes the URIs of the
/// resources.
pub(crate) fn run_asked(
    rt: &HostRuntime,
    asked: &Asked,
    document: &mut Vec<u8>,
) -> Result<bool, Stop> {
    let talk = Talk {
        explains: asked.explain,
        guides: asked.live && rt.reader().is_terminal(),
    };
    if !(talk.explains || talk.guides) && asked.save.is_empty() {
        return run_with_boxes(rt, asked, document, None);
    }
    let watch = RefCell::new(Commentary::new(rt.alloc(), talk, last_box(asked)));
    run_with_boxes(rt, asked, document, Some(&watch))
}

/// The status of a run that came to its end: `FAULTY` if `strict` is set and a line was refused or bad, and otherwise 0.
pub(crate) fn status_of(is_faulty: bool, strict: bool) -> u8 {
    if strict && is_faulty { FAULTY } else { 0 }
}
