//! Texts that are read and written over streams that give or take one byte at a time, that fail, or that never end.
use crate::fixtures::faulty_streams::{Endless, Narrow, OneByte};
use script_streams::{RunFault, read_all, write_all};
use std::alloc::Global;
use std::process::Abort;
use std::test::Fail;

const SCRIPT: &str = "new Book\nget #0 name";

#[test]
fn a_text_of_one_byte_a_read_is_read_whole(rt: HostRuntime) -> Result<(), Fail> {
    let mut reader = OneByte::new(SCRIPT, SCRIPT.len() + 1);
    let found = read_all(rt.alloc(), &mut reader)?;
    assert_eq!(rt; found.as_slice(), SCRIPT.as_bytes());
    let mut reader = SCRIPT.as_bytes();
    let found = read_all(rt.alloc(), &mut reader)?;
    assert_eq!(rt; found.as_slice(), SCRIPT.as_bytes());
    Ok(())
}

#[test]
fn each_read_that_fails_is_answered(rt: HostRuntime) {
    for fails_at in 0..=SCRIPT.len() {
        let mut reader = OneByte::new(SCRIPT, fails_at);
        let fault = read_all(rt.alloc(), &mut reader).err();
        assert!(rt; fault == Some(RunFault::Read), "at read {fails_at}");
    }
}

#[test]
fn an_endless_input_is_too_long(rt: HostRuntime) {
    let fault = read_all(rt.alloc(), &mut Endless).err();
    assert_eq!(rt; fault, Some(RunFault::TooLong));
}

#[test]
fn a_text_is_written_whole_at_one_byte_a_write(rt: HostRuntime) -> Result<(), Fail> {
    let mut writer = Narrow::new(rt.alloc(), SCRIPT.len(), true);
    write_all(&mut writer, SCRIPT.as_bytes())?;
    assert_eq!(rt; writer.taken(), SCRIPT.as_bytes());
    Ok(())
}

fn check_stop(rt: &impl Abort, alloc: Global, stops_at: usize, errs: bool) {
    let mut writer = Narrow::new(alloc, stops_at, errs);
    let outcome = write_all(&mut writer, SCRIPT.as_bytes());
    assert!(rt; outcome == Err(RunFault::Write), "at write {stops_at}");
    assert!(rt; writer.has_taken(stops_at, SCRIPT), "at write {stops_at}");
}

#[test]
fn each_write_that_stops_is_answered(rt: HostRuntime) {
    for stops_at in 0..SCRIPT.len() {
        check_stop(&rt, rt.alloc(), stops_at, true);
        check_stop(&rt, rt.alloc(), stops_at, false);
    }
}
