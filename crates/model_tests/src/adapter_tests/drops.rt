//! Each adapter is dropped once: after it was detached, after its target was destroyed, after its owner was closed, or with its owner. The
//! owner is a list, a repository, or a command that was not run. Each adapter has a part, and the drops of these parts are counted.
use crate::fixtures::books::{object, watched};
use crate::fixtures::counted::{Counted, Drops, NO_DROPS, counted_box};
use crate::fixtures::telling::{Kind, three};
use adapters::{Adapter, Counter};
use mm_types::{AdapterNo, ObjectNo};
use repository::Command;
use std::alloc::{AllocError, Global};
use std::cell::Cell;
use std::rc::Rc;
use std::test::Fail;

/// How many parts were dropped, in all, after each of two steps: a list of three adapters is closed; the adapters that the list gave back
/// are dropped.
fn drops_on_the_way<A: Adapter>(
    alloc: Global,
    first: A,
    second: A,
    third: A,
    drops: &Cell<Drops>,
) -> Result<[u64; 2], Fail> {
    let list = three(alloc, [1, 2, 1], first, second, third)?;
    let closed = Box::into_inner(list).close();
    let after_close = drops.get().all;
    drop(closed);
    Ok([after_close, drops.get().all])
}

#[test]
fn each_part_is_dropped_once(rt: HostRuntime) -> Result<(), Fail> {
    let alloc = rt.alloc();
    let drops = Rc::new(alloc, Cell::new(NO_DROPS))?;
    let first = counted_box(alloc, &drops, Kind::Counter)?;
    let second = counted_box(alloc, &drops, Kind::Counter)?;
    let third = counted_box(alloc, &drops, Kind::Counter)?;
    let found = drops_on_the_way(alloc, first, second, third, &drops)?;
    assert_eq!(rt; found, [0, 3]);
    Ok(())
}

/// How many parts were dropped, in all, after each of four steps: one of a repository's three adapters is detached; this adapter is
/// dropped; the repository is closed; the two adapters that it gave back are dropped.
fn drops_of_a_repository<A: Adapter>(
    alloc: Global,
    first: A,
    second: A,
    third: A,
    drops: &Cell<Drops>,
) -> Result<[u64; 4], Fail> {
    let mut repository = watched(alloc, first, second, third)?;
    let reply = repository.detach(AdapterNo(6))?;
    let after_detach = drops.get().all;
    drop(reply);
    let after_drop = drops.get().all;
    let closed = Box::into_inner(repository).close();
    let after_close = drops.get().all;
    drop(closed);
    Ok([after_detach, after_drop, after_close, drops.get().all])
}

#[test]
fn each_part_of_a_repository_is_dropped_once(rt: HostRuntime) -> Result<(), Fail> {
    let alloc = rt.alloc();
    let drops = Rc::new(alloc, Cell::new(NO_DROPS))?;
    let first = counted_box(alloc, &drops, Kind::Counter)?;
    let second = counted_box(alloc, &drops, Kind::Counter)?;
    let third = counted_box(alloc, &drops, Kind::Counter)?;
    let found = drops_of_a_repository(alloc, first, second, third, &drops)?;
    assert_eq!(rt; found, [0, 1, 1, 3]);
    Ok(())
}

/// How many parts were dropped, in all, after each of three steps: a book with three adapters is destroyed; the adapters that were given
/// back are dropped; the repository is dropped.
fn drops_of_a_deletion<A: Adapter>(
    alloc: Global,
    first: A,
    second: A,
    third: A,
    drops: &Cell<Drops>,
) -> Result<[u64; 3], Fail> {
    let mut repository = watched(alloc, first, second, third)?;
    let reply = repository.delete(ObjectNo(0))?;
    let after_delete = drops.get().all;
    drop(reply);
    let after_drop = drops.get().all;
    drop(repository);
    Ok([after_delete, after_drop, drops.get().all])
}

#[test]
fn each_part_at_a_book_that_is_destroyed_is_dropped_once(rt: HostRuntime) -> Result<(), Fail> {
    let alloc = rt.alloc();
    let drops = Rc::new(alloc, Cell::new(NO_DROPS))?;
    let first = counted_box(alloc, &drops, Kind::Recorder)?;
    let second = counted_box(alloc, &drops, Kind::WindowOfOne)?;
    let third = counted_box(alloc, &drops, Kind::Counter)?;
    let found = drops_of_a_deletion(alloc, first, second, third, &drops)?;
    assert_eq!(rt; found, [0, 3, 3]);
    assert_eq!(rt; drops.get().removed, 3);
    Ok(())
}

fn counter(drops: &Rc<Cell<Drops>>) -> Result<Counted<Counter>, AllocError> {
    Counted::new(drops, Counter::new())
}

#[test]
fn a_dropped_list_drops_its_adapters(rt: HostRuntime) -> Result<(), Fail> {
    let drops = Rc::new(rt.alloc(), Cell::new(NO_DROPS))?;
    let (first, second) = (counter(&drops)?, counter(&drops)?);
    let list = three(rt.alloc(), [1, 2, 1], first, second, counter(&drops)?)?;
    assert_eq!(rt; drops.get().all, 0);
    drop(list);
    assert_eq!(rt; drops.get().all, 3);
    // No adapter was notified of REMOVING_ADAPTER: of the calls of a list, only `detach`, `release`, `deliver_and_release` and `close`
    // notify adapters of it.
    assert_eq!(rt; drops.get().removed, 0);
    Ok(())
}

#[test]
fn a_dropped_repository_drops_its_adapters(rt: HostRuntime) -> Result<(), Fail> {
    let drops = Rc::new(rt.alloc(), Cell::new(NO_DROPS))?;
    let (first, second) = (counter(&drops)?, counter(&drops)?);
    let repository = watched(rt.alloc(), first, second, counter(&drops)?)?;
    assert_eq!(rt; drops.get().all, 0);
    drop(repository);
    assert_eq!(rt; drops.get().all, 3);
    assert_eq!(rt; drops.get().removed, 0);
    Ok(())
}

/// The command that attaches a deep adapter to the first object.
fn attach<A: Adapter>(no: u32, adapter: A) -> Command<A> {
    Command::Attach {
        no: AdapterNo(no),
        target: object(0),
        deep: true,
        adapter,
    }
}

/// Commands that attach two adapters.
fn attaching<A: Adapter>(
    alloc: Global,
    first: A,
    second: A,
) -> Result<Vec<Command<A>>, AllocError> {
    let mut commands = Vec::new(alloc);
    commands.push(attach(1, first))?;
    commands.push(attach(2, second))?;
    Ok(commands)
}

#[test]
fn commands_that_are_not_run_drop_their_adapters(rt: HostRuntime) -> Result<(), Fail> {
    let drops = Rc::new(rt.alloc(), Cell::new(NO_DROPS))?;
    let (first, second) = (counter(&drops)?, counter(&drops)?);
    let commands = attaching(rt.alloc(), first, second)?;
    assert_eq!(rt; drops.get().all, 0);
    drop(commands);
    assert_eq!(rt; drops.get().all, 2);
    assert_eq!(rt; drops.get().removed, 0);
    Ok(())
}
