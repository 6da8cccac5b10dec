//! A run closes its repository at its end.
use crate::fixtures::books::books;
use crate::fixtures::counted::{Counted, NO_DROPS};
use adapters::Counter;
use link_store::RowStore;
use script_program::{Summary, run};
use std::alloc::Global;
use std::cell::Cell;
use std::rc::Rc;
use std::test::Fail;

/// A script that attaches two of three adapters to a book, and then changes the book.
const SCRIPT: &str = "new Book\nattach A1 #0 flat\nattach A2 #0 flat\nset #0 pages 7";

/// Runs the script over an empty repository of books.
fn run_script(alloc: Global, boxes: Vec<Counted<Counter>>) -> Result<Summary, Fail> {
    let meta = books(alloc)?;
    let (mut reader, mut writer) = (SCRIPT.as_bytes(), Vec::new(alloc));
    Ok(run::<_, _, RowStore, _>(
        alloc,
        &mut reader,
        &mut writer,
        Box::into_inner(meta),
        boxes,
    )?)
}

#[test]
fn a_run_ends_with_the_last_notice_of_each_attached_adapter(rt: HostRuntime) -> Result<(), Fail> {
    let drops = Rc::new(rt.alloc(), Cell::new(NO_DROPS))?;
    let first = Counted::new(&drops, Counter::new())?;
    let second = Counted::new(&drops, Counter::new())?;
    let boxes = vec![in rt.alloc(); first, second, Counted::new(&drops, Counter::new())?]?;
    let summary = run_script(rt.alloc(), boxes)?;
    assert_eq!(rt; (summary.lines, summary.refused, summary.bad), (4, 0, 0));
    let found = drops.get();
    assert_eq!(rt; (found.all, found.removed), (3, 2));
    Ok(())
}
