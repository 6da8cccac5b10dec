//! Runs over streams that give or take one byte at a time, that fail, or that never end.
use crate::fixtures::books::books;
use crate::fixtures::faulty_streams::{Endless, Narrow, OneByte};
use adapters::Recorder;
use link_store::{LinkStore, RowStore, SlotStore};
use script_program::{RunFault, Summary, run};
use std::alloc::Global;
use std::io::{Read, Write};
use std::process::Abort;
use std::test::Fail;

/// Runs a script over an empty repository of books, with two adapters and a store of links.
fn run_books<L: LinkStore, R: Read, W: Write>(
    alloc: Global,
    reader: &mut R,
    writer: &mut W,
) -> Result<Result<Summary, RunFault>, Fail> {
    let meta = books(alloc)?;
    let boxes = vec![in alloc; Recorder::new(alloc), Recorder::new(alloc)]?;
    Ok(run::<_, _, L, _>(alloc, reader, writer, Box::into_inner(meta), boxes))
}

/// A script that loads, saves and destroys, with adapters at a resource and at a book; some of its lines are refused, and one is bad.
const SCRIPT: &str = r#"resource "http://m.example/a"
attach A1 r0 flat
load r0 {"format":1,"roots":[]
load r0 {"format":1,"roots":[{"class":"Book","features":{"name":"Emma"}}]}
load r0 {"format":1,"roots":[]}
attach A2 #0 flat
set #0 pages 7
set #0 pages "7"
frob
save r0
delete #0"#;

/// What the script prints.
const PRINTED: &str = r#"r0
ok
refused 18 DOCUMENT 1 SYNTAX
loaded 1
told A1 ADD r0.contents null #0 0
refused 17 NOT_EMPTY
ok
ok
told A2 SET #0.pages 100 7 -1
refused 8 TYPE
bad line
{"format":2,"roots":[{"class":"Book","features":{"name":"Emma","pages":7}}]}
deleted 1
told A1 REMOVE r0.contents #0 null 0
told A2 REMOVING_ADAPTER #0 A2 null 0
released A2 told 2 kept 2
"#;

/// Runs the script with a store of links; each read gives one byte, and each write takes one. Checks that the run prints `PRINTED`.
fn check_narrow<L: LinkStore, H: Abort>(rt: &H, alloc: Global) -> Result<(), Fail> {
    let mut reader = OneByte::new(SCRIPT, SCRIPT.len() + 1);
    let mut writer = Narrow::new(alloc, PRINTED.len(), true);
    run_books::<L, _, _>(alloc, &mut reader, &mut writer)??;
    assert_eq!(rt; writer.taken(), PRINTED.as_bytes());
    Ok(())
}

#[test]
fn a_run_at_a_byte_at_a_time_prints_the_same(rt: HostRuntime) -> Result<(), Fail> {
    check_narrow::<RowStore, _>(&rt, rt.alloc())?;
    check_narrow::<SlotStore, _>(&rt, rt.alloc())
}

fn check_read(rt: &impl Abort, alloc: Global, fails_at: usize) -> Result<(), Fail> {
    let mut reader = OneByte::new(SCRIPT, fails_at);
    let mut writer = Vec::new(alloc);
    let fault = run_books::<RowStore, _, _>(alloc, &mut reader, &mut writer)?.err();
    assert!(rt; fault == Some(RunFault::Read), "at read {fails_at}");
    assert!(rt; writer.is_empty());
    Ok(())
}

#[test]
fn a_run_whose_reader_fails_at_any_read_writes_nothing(rt: HostRuntime) -> Result<(), Fail> {
    for fails_at in 0..=SCRIPT.len() {
        check_read(&rt, rt.alloc(), fails_at)?;
    }
    Ok(())
}

#[test]
fn a_run_whose_input_never_ends_writes_nothing(rt: HostRuntime) -> Result<(), Fail> {
    let mut writer = Vec::new(rt.alloc());
    let fault = run_books::<RowStore, _, _>(rt.alloc(), &mut Endless, &mut writer)?.err();
    assert_eq!(rt; fault, Some(RunFault::TooLong));
    assert!(rt; writer.is_empty());
    Ok(())
}

fn check_write(rt: &impl Abort, alloc: Global, stops_at: usize, errs: bool) -> Result<(), Fail> {
    let mut reader = SCRIPT.as_bytes();
    let mut writer = Narrow::new(alloc, stops_at, errs);
    let fault = run_books::<RowStore, _, _>(alloc, &mut reader, &mut writer)?.err();
    assert!(rt; fault == Some(RunFault::Write), "at write {stops_at}");
    assert!(rt; writer.has_taken(stops_at, PRINTED), "at write {stops_at}");
    Ok(())
}

#[test]
fn a_run_whose_writer_stops_at_any_write_wrote_a_front(rt: HostRuntime) -> Result<(), Fail> {
    for stops_at in 0..PRINTED.len() {
        check_write(&rt, rt.alloc(), stops_at, true)?;
        check_write(&rt, rt.alloc(), stops_at, false)?;
    }
    Ok(())
}

#[test]
fn lines_are_counted(rt: HostRuntime) -> Result<(), Fail> {
    let mut reader = "new Book\n\n frob\nget #7 name\nget #0 name".as_bytes();
    let mut writer = Vec::new(rt.alloc());
    let summary = run_books::<RowStore, _, _>(rt.alloc(), &mut reader, &mut writer)??;
    assert_eq!(rt; (summary.lines, summary.refused), (4, 1));
    assert_eq!(rt; (summary.bad, summary.no_memory), (1, 0));
    Ok(())
}
