//! An adapter that is refused when it is to be attached for the second time. The adapter is given back in its `Box`, as it was before: it
//! still counts the notifications that it got, and still keeps those that it kept.
use crate::fixtures::books::{NAME, RowRepository, attach, object, one_book, text};
use crate::fixtures::counted::{Drops, NO_DROPS, counted_box};
use crate::fixtures::replies::{failure_text, made};
use crate::fixtures::telling::Kind;
use adapters::Adapter;
use mm_types::{AdapterNo, Node, ObjectNo, ResourceNo};
use std::alloc::Global;
use std::cell::Cell;
use std::rc::Rc;
use std::test::Fail;

/// A case in which an adapter can't be attached to `target` under the number `no`. The adapter was attached to a book before: it got a
/// notification of a change, and REMOVING_ADAPTER when it was detached. The number 6 is taken by a different adapter.
struct Again {
    kind: Kind,
    no: u32,
    target: Node,
    /// The refusal, and the notifications of the adapter that is given back, as `failure_text` gives them.
    wanted: &'static str,
}

const AGAIN: [Again; 5] = [
    Again {
        kind: Kind::Recorder,
        no: 5,
        target: Node::Object(ObjectNo(1)),
        wanted: "refused 1, back, 2 told, SET -1, REMOVING_ADAPTER 0",
    },
    Again {
        kind: Kind::Recorder,
        no: 5,
        target: Node::Resource(ResourceNo(0)),
        wanted: "refused 2, back, 2 told, SET -1, REMOVING_ADAPTER 0",
    },
    Again {
        kind: Kind::Recorder,
        no: 6,
        target: Node::Object(ObjectNo(0)),
        wanted: "refused 26, back, 2 told, SET -1, REMOVING_ADAPTER 0",
    },
    // The adapter could get two notifications at first, and got both.
    Again {
        kind: Kind::NearlyFull,
        no: 5,
        target: Node::Object(ObjectNo(0)),
        wanted: "refused 27, back, 18446744073709551615 told",
    },
    // The adapter is refused memory at its third reserve. The first two reserves succeeded: when it was first attached, and for the change.
    Again {
        kind: Kind::PoorRecorder,
        no: 5,
        target: Node::Object(ObjectNo(0)),
        wanted: "refused 28, back, 2 told, SET -1, REMOVING_ADAPTER 0",
    },
];

/// Detaches adapter 5, and returns it.
fn released<A: Adapter>(repository: &mut RowRepository<A>) -> Result<A, Fail> {
    let mut released = repository.detach(AdapterNo(5))?.released.into_vec();
    match released.pop() {
        Some((_no, adapter)) => Ok(adapter),
        None => Err(Fail::new("the adapter is not given back")),
    }
}

/// Attaches an adapter to a book, names the book, and detaches the adapter. Returns the adapter.
fn heard<A: Adapter>(
    alloc: Global,
    repository: &mut RowRepository<A>,
    adapter: A,
) -> Result<A, Fail> {
    attach(repository, 5, adapter)?;
    let emma = text(alloc, "Emma")?;
    made(repository.e_set(object(0), NAME, emma))?;
    released(repository)
}

/// Attaches an adapter; the attach has to be refused. Returns the refusal, the notifications of the adapter that is given back, and how
/// many adapters had been dropped when the attach was refused.
fn refused<A: Adapter>(
    alloc: Global,
    repository: &mut RowRepository<A>,
    again: &Again,
    adapter: A,
    drops: &Cell<Drops>,
) -> Result<(String, u64), Fail> {
    match repository.attach(AdapterNo(again.no), again.target, false, adapter) {
        Ok(_) => Err(Fail::new("the adapter is attached")),
        Err(failure) => Ok((failure_text(alloc, &failure)?, drops.get().all)),
    }
}

/// What `refused` returns for `adapter` in a repository of one book. Before, `heard` attaches the adapter, notifies it and detaches it.
/// `other` is attached to the book as number 6.
fn refused_at_a_book<A: Adapter>(
    alloc: Global,
    again: &Again,
    adapter: A,
    other: A,
    drops: &Cell<Drops>,
) -> Result<(String, u64), Fail> {
    let mut repository = one_book(alloc)?;
    let adapter = heard(alloc, &mut repository, adapter)?;
    attach(&mut repository, 6, other)?;
    refused(alloc, &mut repository, again, adapter, drops)
}

#[test]
fn an_adapter_that_is_refused_comes_back_as_it_was(rt: HostRuntime) -> Result<(), Fail> {
    let alloc = rt.alloc();
    for again in &AGAIN {
        let drops = Rc::new(alloc, Cell::new(NO_DROPS))?;
        let adapter = counted_box(alloc, &drops, again.kind)?;
        let other = counted_box(alloc, &drops, Kind::Counter)?;
        let (found, dropped) = refused_at_a_book(alloc, again, adapter, other, &drops)?;
        assert_eq!(rt; found.as_str(), again.wanted);
        // The `Box` that came back is dropped with its refusal, and the other adapter with its repository.
        assert_eq!(rt; dropped, 0);
        assert_eq!(rt; drops.get().all, 2);
    }
    Ok(())
}
