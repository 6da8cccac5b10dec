//! Adapters with two targets. Some are refused memory for a notification or for a target, some are too full for one more notification or
//! for one more target, and some lose one target after the other.
use crate::fixtures::books::{
    BOOK, NAME, RowRepository, attach, closed, name_book, object, one_book,
};
use crate::fixtures::counted::{Drops, NO_DROPS, counted_box};
use crate::fixtures::replies::{given, made};
use crate::fixtures::telling::{Kind, three};
use adapter_list::AdapterList;
use adapters::Adapter;
use mm_types::{AdapterNo, ObjectNo, Refused};
use std::alloc::{AllocError, Global};
use std::cell::Cell;
use std::rc::Rc;
use std::test::Fail;

/// A repository of two books.
fn two_books<A: Adapter>(alloc: Global) -> Result<Box<RowRepository<A>>, Fail> {
    let mut repository = one_book(alloc)?;
    made(repository.create(BOOK))?;
    Ok(repository)
}

/// Attaches an adapter to the first book, and gives the adapter the second book as a target too.
fn watch_both<A: Adapter>(
    repository: &mut RowRepository<A>,
    no: u32,
    adapter: A,
) -> Result<(), Refused> {
    attach(repository, no, adapter)?;
    made(repository.watch(AdapterNo(no), object(1), false))
}

/// How many notifications each of the three adapters got, and the name of the second book.
fn state<A: Adapter>(alloc: Global, repository: &RowRepository<A>) -> Result<String, AllocError> {
    let told = [5, 6, 7].map(|no| repository.adapter_told(AdapterNo(no)));
    let name = repository.e_get(object(1), NAME);
    format!(in alloc; "{told:?} {name:?}")
}

/// Tries to name the second book. Returns the refusal and the state after the call, and then, each on a line of its own, the outcomes of
/// three calls: name the second book, take the first book from adapter 6, and destroy the second book.
fn calls<A: Adapter>(alloc: Global, repository: &mut RowRepository<A>) -> Result<String, Fail> {
    let refused = made(name_book(alloc, repository, 1)?).err();
    let state = state(alloc, repository)?;
    let named = given(alloc, name_book(alloc, repository, 1)?)?;
    let unwatched = given(alloc, repository.unwatch(AdapterNo(6), object(0)))?;
    let deleted = given(alloc, repository.delete(ObjectNo(1)))?;
    Ok(format!(in alloc;
        "{refused:?} {state}
{named}
{unwatched}
{deleted}"
    )?)
}

/// What `calls` returns with three adapters of two targets each, and the adapters that are given back when the repository is closed.
fn calls_by<A: Adapter>(
    alloc: Global,
    first: A,
    second: A,
    third: A,
) -> Result<(String, String), Fail> {
    let mut repository = two_books(alloc)?;
    watch_both(&mut repository, 5, first)?;
    watch_both(&mut repository, 6, second)?;
    watch_both(&mut repository, 7, third)?;
    let found = calls(alloc, &mut repository)?;
    let closed = closed(alloc, repository)?;
    Ok((found, closed))
}

/// What `calls` returns, whichever of the three adapters is refused memory. After the first book is taken from adapter 6, the second book
/// is the last target of this adapter. So adapter 6 is given back when the second book is destroyed.
const CALLS: &str = "Some(Memory) [Ok(0), Ok(0), Ok(0)] Ok(One(Null))
Done; A5 SET Null Text(\"Emma\") -1 false; A6 SET Null Text(\"Emma\") -1 false; A7 SET Null Text(\"Emma\") -1 false
Flag(true); A6 REMOVING_ADAPTER Null Null 1 false
Destroyed(1); A5 REMOVING_ADAPTER Null Null 0 false; A6 REMOVING_ADAPTER Null Null 0 false; A7 REMOVING_ADAPTER Null Null 0 false; A6 back, 3 told, SET -1, REMOVING_ADAPTER 1, REMOVING_ADAPTER 0";

/// The adapters that are given back when the repository is closed. Each of them lost the second book as a target when the book was
/// destroyed, and loses the first book now.
const CLOSED: &str =
    "; A5 back, 3 told, SET -1, REMOVING_ADAPTER 0, REMOVING_ADAPTER 0; A7 back, 3 told, SET -1, REMOVING_ADAPTER 0, REMOVING_ADAPTER 0";

#[test]
fn a_set_that_one_of_three_cannot_hear_at_its_second_target_notifies_none(
    rt: HostRuntime,
) -> Result<(), Fail> {
    let alloc = rt.alloc();
    let (poor, rich) = (Kind::PoorRecorder, Kind::Recorder);
    for kinds in &[[poor, rich, rich], [rich, poor, rich], [rich, rich, poor]] {
        let drops = Rc::new(alloc, Cell::new(NO_DROPS))?;
        let first = counted_box(alloc, &drops, kinds[0])?;
        let second = counted_box(alloc, &drops, kinds[1])?;
        let third = counted_box(alloc, &drops, kinds[2])?;
        let (found, closed) = calls_by(alloc, first, second, third)?;
        assert_eq!(rt; found.as_str(), CALLS);
        assert_eq!(rt; closed.as_str(), CLOSED);
        assert_eq!(rt; drops.get().all, 3);
    }
    Ok(())
}

/// Tries to give adapter 5 the second book as a target, names the second book, and tries to give adapter 5 the second book as a target once
/// more. Returns the three outcomes. The first and the last are the refusal, or `None` if the call was done.
fn named_between_refusals<A: Adapter>(
    alloc: Global,
    repository: &mut RowRepository<A>,
) -> Result<String, Fail> {
    let first = made(repository.watch(AdapterNo(5), object(1), true)).err();
    let named = given(alloc, name_book(alloc, repository, 1)?)?;
    let second = made(repository.watch(AdapterNo(5), object(1), true)).err();
    Ok(format!(in alloc; "{first:?} {named} {second:?}")?)
}

/// What `named_between_refusals` returns for an adapter at the first book, and the adapter that is given back at the end.
fn refused_twice<A: Adapter>(alloc: Global, adapter: A) -> Result<String, Fail> {
    let mut repository = two_books(alloc)?;
    attach(&mut repository, 5, adapter)?;
    let refused = named_between_refusals(alloc, &mut repository)?;
    let closed = closed(alloc, repository)?;
    Ok(format!(in alloc; "{refused}{closed}")?)
}

#[test]
fn a_refused_target_leaves_the_others_as_they_are(rt: HostRuntime) -> Result<(), Fail> {
    let alloc = rt.alloc();
    let cases = [
        (Kind::Poor, "Some(Memory) Done None; A5 back, 2 told"),
        (
            Kind::LastAlone,
            "Some(AdapterFull) Done Some(AdapterFull); A5 back, 18446744073709551615 told",
        ),
    ];
    for (kind, wanted) in &cases {
        let drops = Rc::new(alloc, Cell::new(NO_DROPS))?;
        let found = refused_twice(alloc, counted_box(alloc, &drops, *kind)?)?;
        assert_eq!(rt; found.as_str(), *wanted);
        assert_eq!(rt; drops.get().all, 1);
    }
    Ok(())
}

/// The refusal when the first book is to get a name while two adapters have the first book as a target; `None` if the book gets the name.
/// If `has_both` is true, both adapters have the second book as a target too.
fn refused_to_two<A: Adapter>(
    alloc: Global,
    has_both: bool,
    first: A,
    second: A,
) -> Result<Option<Refused>, Fail> {
    let mut repository = two_books(alloc)?;
    attach(&mut repository, 5, first)?;
    attach(&mut repository, 6, second)?;
    if has_both {
        made(repository.watch(AdapterNo(5), object(1), false))?;
        made(repository.watch(AdapterNo(6), object(1), false))?;
    }
    Ok(made(name_book(alloc, &mut repository, 0)?).err())
}

#[test]
fn the_first_adapter_that_refuses_decides(rt: HostRuntime) -> Result<(), Fail> {
    let alloc = rt.alloc();
    // `LastAlone` with one target, and `NearlyFull` with two targets, can get only the last notification for each target, and no other
    // before.
    let cases = [
        (false, Kind::LastAlone, Kind::Poor, Refused::AdapterFull),
        (false, Kind::Poor, Kind::LastAlone, Refused::Memory),
        (
            true,
            Kind::NearlyFull,
            Kind::PoorRecorder,
            Refused::AdapterFull,
        ),
        (true, Kind::PoorRecorder, Kind::NearlyFull, Refused::Memory),
    ];
    for (has_both, first, second, reason) in &cases {
        let drops = Rc::new(alloc, Cell::new(NO_DROPS))?;
        let first = counted_box(alloc, &drops, *first)?;
        let second = counted_box(alloc, &drops, *second)?;
        let found = refused_to_two(alloc, *has_both, first, second)?;
        assert_eq!(rt; found, Some(*reason));
        assert_eq!(rt; drops.get().all, 2);
    }
    Ok(())
}

/// Takes the object `target` from adapter 6, the second adapter of a list. Returns the kind and the position of the notification that the
/// adapter gets, as `REMOVING_ADAPTER 1`; if the adapter has no target left, `, back` follows. Returns `none` if the object is no target of
/// the adapter.
fn detached<A: Adapter>(
    alloc: Global,
    list: &mut AdapterList<A>,
    target: u32,
) -> Result<String, AllocError> {
    match list.detach(AdapterNo(6), object(target)) {
        Some(detached) => {
            let (kind, at) = (detached.notice.kind.name(), detached.notice.position);
            let is_back = if detached.adapter.is_some() {
                ", back"
            } else {
                ""
            };
            format!(in alloc; "{kind} {at}{is_back}")
        }
        None => format!(in alloc; "none"),
    }
}

/// What `detached` returns for an object that is no target of adapter 6, and then for each of the two targets of adapter 6. Then how many
/// adapters are still attached, and how many notifications adapter 6 got, if it is still attached.
fn detached_in_turn<A: Adapter>(
    alloc: Global,
    first: A,
    second: A,
    third: A,
) -> Result<String, Fail> {
    let mut list = three(alloc, [1, 1, 1], first, second, third)?;
    list.watch(AdapterNo(6), object(2), false)?;
    let none = detached(alloc, &mut list, 3)?;
    let one = detached(alloc, &mut list, 1)?;
    let last = detached(alloc, &mut list, 2)?;
    let left = (list.len(), list.told(AdapterNo(6)));
    Ok(format!(in alloc; "{none}; {one}; {last}; {left:?}")?)
}

#[test]
fn an_adapter_is_detached_from_one_target_after_the_other(rt: HostRuntime) -> Result<(), Fail> {
    let alloc = rt.alloc();
    let drops = Rc::new(alloc, Cell::new(NO_DROPS))?;
    let first = counted_box(alloc, &drops, Kind::Recorder)?;
    let second = counted_box(alloc, &drops, Kind::Recorder)?;
    let third = counted_box(alloc, &drops, Kind::Recorder)?;
    let found = detached_in_turn(alloc, first, second, third)?;
    assert_eq!(rt;
        found.as_str(),
        "none; REMOVING_ADAPTER 1; REMOVING_ADAPTER 0, back; (2, None)"
    );
    let Drops { all, removed } = drops.get();
    assert_eq!(rt; (all, removed), (3, 1));
    Ok(())
}
