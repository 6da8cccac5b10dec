//! Changes that are refused since an adapter can't be notified of them.
use crate::fixtures::books::{NAME, RowRepository, closed, name_book, object, watched};
use crate::fixtures::counted::{Drops, NO_DROPS, counted_box};
use crate::fixtures::replies::{given, made};
use crate::fixtures::telling::Kind;
use adapters::Adapter;
use mm_types::{AdapterNo, Refused};
use std::alloc::{AllocError, Global};
use std::cell::Cell;
use std::rc::Rc;
use std::test::Fail;

/// How many notifications an adapter got, and how many it keeps.
fn counts<A: Adapter>(repository: &RowRepository<A>, no: u32) -> Result<(u64, u64), Refused> {
    let told = repository.adapter_told(AdapterNo(no))?;
    Ok((told, repository.adapter_kept(AdapterNo(no))?))
}

/// How many notifications each of the adapters 5, 6 and 7 got and keeps, and the name of the book.
fn state<A: Adapter>(alloc: Global, repository: &RowRepository<A>) -> Result<String, AllocError> {
    let counts = (
        counts(repository, 5),
        counts(repository, 6),
        counts(repository, 7),
    );
    let name = repository.e_get(object(0), NAME);
    format!(in alloc; "{counts:?} {name:?}")
}

/// What `state` returns before the book is named: no adapter was notified, and the book's name is null.
const BEFORE: &str = "(Ok((0, 0)), Ok((0, 0)), Ok((0, 0))) Ok(One(Null))";

/// The reply of the second attempt to name the book, as a text.
const TOLD: &str =
    "Done; A5 SET Null Text(\"Emma\") -1 false; A6 SET Null Text(\"Emma\") -1 false; A7 SET Null Text(\"Emma\") -1 false";

/// Three adapters of a book, in attach order. One of them is refused memory at the first attempt to name the book.
struct Watched {
    kinds: [Kind; 3],
    /// How many notifications each adapter got and keeps, and the book's name, after the second attempt to name the book. The adapter that
    /// was refused memory is a counter, so it keeps no notification.
    after: &'static str,
    /// The adapters that are given back when the repository is closed, with their notifications.
    closed: &'static str,
}

const WATCHED: [Watched; 3] = [
    Watched {
        kinds: [Kind::Recorder, Kind::Recorder, Kind::Poor],
        after: "(Ok((1, 1)), Ok((1, 1)), Ok((1, 0))) Ok(One(Text(\"Emma\")))",
        closed: "; A5 back, 2 told, SET -1, REMOVING_ADAPTER 0; A6 back, 2 told, SET -1, REMOVING_ADAPTER 0; A7 back, 2 told",
    },
    Watched {
        kinds: [Kind::Recorder, Kind::Poor, Kind::Recorder],
        after: "(Ok((1, 1)), Ok((1, 0)), Ok((1, 1))) Ok(One(Text(\"Emma\")))",
        closed: "; A5 back, 2 told, SET -1, REMOVING_ADAPTER 0; A6 back, 2 told; A7 back, 2 told, SET -1, REMOVING_ADAPTER 0",
    },
    Watched {
        kinds: [Kind::Poor, Kind::Recorder, Kind::Recorder],
        after: "(Ok((1, 0)), Ok((1, 1)), Ok((1, 1))) Ok(One(Text(\"Emma\")))",
        closed: "; A5 back, 2 told; A6 back, 2 told, SET -1, REMOVING_ADAPTER 0; A7 back, 2 told, SET -1, REMOVING_ADAPTER 0",
    },
];

/// Tries to name the book. Returns the state before the call, the refusal (`None` if the book is named), and the state after the call.
fn refusal<A: Adapter>(alloc: Global, repository: &mut RowRepository<A>) -> Result<String, Fail> {
    let before = state(alloc, repository)?;
    let refused = made(name_book(alloc, repository, 0)?).err();
    let after = state(alloc, repository)?;
    Ok(format!(in alloc; "{before}; {refused:?}; {after}")?)
}

/// The reply of the call that names the book, as a text.
fn named<A: Adapter>(alloc: Global, repository: &mut RowRepository<A>) -> Result<String, Fail> {
    given(alloc, name_book(alloc, repository, 0)?)
}

/// Tries to name a book with three adapters, twice. Returns three texts: the refusal of the first call between the states before and after
/// this call, the reply of the second call, and the state at the end.
fn named_twice<A: Adapter>(
    alloc: Global,
    repository: &mut RowRepository<A>,
) -> Result<[String; 3], Fail> {
    let refused = refusal(alloc, repository)?;
    let told = named(alloc, repository)?;
    let after = state(alloc, repository)?;
    Ok([refused, told, after])
}

/// What `named_twice` returns in a new repository of one book, and the adapters that are given back when the repository is closed.
fn twice_at_a_book<A: Adapter>(
    alloc: Global,
    first: A,
    second: A,
    third: A,
) -> Result<([String; 3], String), Fail> {
    let mut repository = watched(alloc, first, second, third)?;
    let found = named_twice(alloc, &mut repository)?;
    let closed = closed(alloc, repository)?;
    Ok((found, closed))
}

/// What `twice_at_a_book` returns with three adapters of the kinds `kinds`. Each adapter is in a `Box`, and has a part whose drop is
/// counted.
fn twice_by(
    alloc: Global,
    drops: &Rc<Cell<Drops>>,
    kinds: [Kind; 3],
) -> Result<([String; 3], String), Fail> {
    let first = counted_box(alloc, drops, kinds[0])?;
    let second = counted_box(alloc, drops, kinds[1])?;
    twice_at_a_book(alloc, first, second, counted_box(alloc, drops, kinds[2])?)
}

#[test]
fn a_set_that_one_adapter_cannot_hear_notifies_none(rt: HostRuntime) -> Result<(), Fail> {
    let alloc = rt.alloc();
    let wanted = format!(in alloc; "{BEFORE}; Some(Memory); {BEFORE}")?;
    for Watched {
        kinds,
        after,
        closed,
    } in &WATCHED {
        let drops = Rc::new(alloc, Cell::new(NO_DROPS))?;
        let (found, last) = twice_by(alloc, &drops, *kinds)?;
        assert_eq!(rt; found[0].as_str(), wanted.as_str());
        assert_eq!(rt; found[1].as_str(), TOLD);
        assert_eq!(rt; found[2].as_str(), *after);
        assert_eq!(rt; last.as_str(), *closed);
        assert_eq!(rt; drops.get().all, 3);
    }
    Ok(())
}
