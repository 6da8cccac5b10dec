//! Live runs over streams that give or take one byte at a time, that fail, or that never end.
use crate::fixtures::books::books;
use crate::fixtures::faulty_streams::{Endless, Narrow, OneByte};
use adapters::Recorder;
use link_store::RowStore;
use script_program::{RunFault, Summary, run_live};
use std::alloc::Global;
use std::io::{BufReader, Read, Write};
use std::process::Abort;
use std::test::Fail;

/// Runs a script live over an empty repository of books, with an adapter.
fn run_books<R: Read + Drop, W: Write>(
    alloc: Global,
    reader: R,
    writer: &mut W,
) -> Result<Result<Summary, RunFault>, Fail> {
    let mut reader = BufReader::new(alloc, reader)?;
    let meta = books(alloc)?;
    let boxes = vec![in alloc; Recorder::new(alloc)]?;
    Ok(run_live::<_, _, RowStore, _>(alloc, &mut reader, writer, Box::into_inner(meta), boxes))
}

/// A script with a blank line, a bad line and a refused line, and without a newline at its end.
const SCRIPT: &str = "new Book\n\nattach A1 #0 flat\nset #0 pages 7\nfrob\nnew Nope\nget #0 pages";

/// What the script prints in a live run.
const PRINTED: &str =
    "#0\n\n\nok\n\nok\ntold A1 SET #0.pages 100 7 -1\n\nbad line\n\nrefused 3 NO_CLASS\n\n7\n\n";

#[test]
fn a_live_run_at_a_byte_at_a_time_answers_each_line(rt: HostRuntime) -> Result<(), Fail> {
    let reader = OneByte::new(SCRIPT, SCRIPT.len() + 1);
    let mut writer = Narrow::new(rt.alloc(), PRINTED.len(), true);
    let summary = run_books(rt.alloc(), reader, &mut writer)??;
    assert_eq!(rt; writer.taken(), PRINTED.as_bytes());
    assert_eq!(rt; (summary.lines, summary.refused, summary.bad), (6, 1, 1));
    Ok(())
}

/// How many bytes of answers a live run has written when it has read the first `bytes` bytes of the script. It answers only the lines whose
/// newline it has read.
fn answered(bytes: usize) -> usize {
    match bytes {
        0..=8 => 0,
        9 => 4,
        10..=27 => 5,
        28..=42 => 9,
        43..=47 => 43,
        48..=56 => 53,
        _ => 73,
    }
}

fn check_read(rt: &impl Abort, alloc: Global, fails_at: usize) -> Result<(), Fail> {
    let mut writer = Narrow::new(alloc, PRINTED.len(), true);
    let fault = run_books(alloc, OneByte::new(SCRIPT, fails_at), &mut writer)?.err();
    assert!(rt; fault == Some(RunFault::Read), "at read {fails_at}");
    assert!(rt;
        writer.has_taken(answered(fails_at), PRINTED),
        "at read {fails_at}"
    );
    Ok(())
}

#[test]
fn a_live_run_whose_reader_fails_has_answered_the_lines_before(
    rt: HostRuntime,
) -> Result<(), Fail> {
    for fails_at in 0..=SCRIPT.len() {
        check_read(&rt, rt.alloc(), fails_at)?;
    }
    Ok(())
}

fn check_write(rt: &impl Abort, alloc: Global, stops_at: usize, errs: bool) -> Result<(), Fail> {
    let mut writer = Narrow::new(alloc, stops_at, errs);
    let fault = run_books(alloc, SCRIPT.as_bytes(), &mut writer)?.err();
    assert!(rt; fault == Some(RunFault::Write), "at write {stops_at}");
    assert!(rt; writer.has_taken(stops_at, PRINTED), "at write {stops_at}");
    Ok(())
}

#[test]
fn a_live_run_whose_writer_stops_at_any_write_wrote_a_front(rt: HostRuntime) -> Result<(), Fail> {
    for stops_at in 0..PRINTED.len() {
        check_write(&rt, rt.alloc(), stops_at, true)?;
        check_write(&rt, rt.alloc(), stops_at, false)?;
    }
    Ok(())
}

#[test]
fn a_live_run_stops_at_a_line_that_never_ends(rt: HostRuntime) -> Result<(), Fail> {
    let mut writer = Vec::new(rt.alloc());
    let fault = run_books(rt.alloc(), Endless, &mut writer)?.err();
    assert_eq!(rt; fault, Some(RunFault::TooLong));
    assert!(rt; writer.is_empty());
    Ok(())
}
