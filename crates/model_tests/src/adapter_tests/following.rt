//! A view of a library that reads the model only once, as docs/ADAPTERS.md shows it.
use crate::fixtures::books::metamodel;
use crate::fixtures::library::LIBRARY;
use adapters::Counter;
use link_store::{LinkStore, RowStore};
use mm_meta::Meta;
use mm_types::{AdapterNo, ClassNo, FeatureNo, Node, ObjectNo, Text, Value};
use notice_chain::Notice;
use repository::{Reply, Repository};
use snapshots::{Snapshot, replay};
use std::alloc::{AllocError, Global};
use std::test::Fail;

const NAME: FeatureNo = FeatureNo(0);

const BOOKS: FeatureNo = FeatureNo(1);

const VIEW: AdapterNo = AdapterNo(1);

/// The notifications of a reply that are for the view's adapter.
fn told_to_view(alloc: Global, reply: &Reply<Counter>) -> Result<Vec<Notice>, AllocError> {
    let mut notices = Vec::new(alloc);
    for (no, notice) in reply.told.as_slice() {
        if *no == VIEW {
            notices.push(notice.clone()?)?;
        }
    }
    Ok(notices)
}

/// The view after a command.
fn after(
    alloc: Global,
    view: Box<Snapshot>,
    reply: Reply<Counter>,
) -> Result<Box<Snapshot>, AllocError> {
    let notices = told_to_view(alloc, &reply)?;
    let view = replay(alloc, Box::into_inner(view), notices.as_slice())?;
    Ok(Box::new(alloc, view)?)
}

/// Takes a snapshot of a library and attaches a deep adapter to the library. Then names the library and adds a book to it. Returns the
/// snapshot after the notifications of both changes were replayed on it.
fn follow<L: LinkStore>(
    alloc: Global,
    repository: &mut Repository<L, Counter>,
    library: Node,
    book: ObjectNo,
) -> Result<Box<Snapshot>, Fail> {
    let view = Box::new(alloc, repository.snapshot(library)?)?;
    if let Err(failure) = repository.attach(VIEW, library, true, Counter::new()) {
        return Err(Fail::new(failure.refused));
    }
    let name = Value::Text(Text::from_str(alloc, "City Library")?);
    let view = after(alloc, view, repository.e_set(library, NAME, name)?)?;
    let book = Value::Object(book);
    let view = after(alloc, view, repository.add(library, BOOKS, book, None)?)?;
    Ok(view)
}

/// Whether the view that `follow` returns has the same state of the library as a new snapshot.
fn session(alloc: Global, meta: Meta) -> Result<bool, Fail> {
    let mut repository = Box::new(alloc, Repository::<RowStore, Counter>::new(alloc, meta))?;
    repository.create(ClassNo(1))?;
    repository.create(ClassNo(2))?;
    let library = Node::Object(ObjectNo(0));
    let view = follow(alloc, &mut repository, library, ObjectNo(1))?;
    let now = Box::new(alloc, repository.snapshot(library)?)?;
    Ok(view.state(library) == now.state(library))
}

#[test]
fn a_view_of_a_library_never_asks_again(rt: HostRuntime) -> Result<(), Fail> {
    let meta = metamodel(rt.alloc(), LIBRARY)?;
    assert!(rt; session(rt.alloc(), Box::into_inner(meta))?);
    Ok(())
}
