//! Snapshots on which notifications are replayed, and a resource with many books for `bench/measure`.
use crate::fault::Fault;
use crate::list::commands::{NAME, done, emma, make_book, watch};
use adapters::Adapter;
use link_store::LinkStore;
use mm_types::{AdapterNo, FeatureNo, Node, ObjectNo, Refused, ResourceNo, Value};
use notice_chain::Notice;
use repository::Repository;
use snapshots::{Snapshot, replay};
use std::alloc::{AllocError, Global};

const SHELF: Node = Node::Resource(ResourceNo(0));

const CONTENTS: FeatureNo = FeatureNo(1);

/// Makes a book, and puts the book into the resource. `number` must be the number that the book gets: how many objects were made before.
fn put_book<L: LinkStore, A: Adapter>(
    repository: &mut Repository<L, A>,
    number: u32,
) -> Result<(), Refused> {
    make_book(repository)?;
    let book = Value::Object(ObjectNo(number));
    done(repository.add(SHELF, CONTENTS, book, None))
}

/// Makes a resource, and puts `count` new books into the resource. The repository must be new: no resource and no object was made before.
fn fill<L: LinkStore, A: Adapter>(
    repository: &mut Repository<L, A>,
    count: u32,
) -> Result<(), Refused> {
    done(repository.create_resource("http://m.example/shelf"))?;
    for number in 0..count {
        put_book(repository, number)?;
    }
    Ok(())
}

/// Moves the notifications in `told` to the end of `notices`.
fn keep(told: Vec<(AdapterNo, Notice)>, notices: &mut Vec<Notice>) -> Result<(), Fault> {
    for (_no, notice) in told {
        notices.push(notice)?;
    }
    Ok(())
}

/// Names the book with the number `number`, and adds the notifications of this change to `notices`.
fn name_book<L: LinkStore, A: Adapter>(
    alloc: Global,
    repository: &mut Repository<L, A>,
    number: u32,
    notices: &mut Vec<Notice>,
) -> Result<(), Fault> {
    let name = emma(alloc)?;
    match repository.e_set(Node::Object(ObjectNo(number)), NAME, name) {
        Ok(reply) => keep(reply.told.into_vec(), notices),
        Err(refused) => Err(Fault::from(refused)),
    }
}

/// Names the books with the numbers below `count`, and adds the notifications of these changes to `notices`.
fn name_all<L: LinkStore, A: Adapter>(
    alloc: Global,
    repository: &mut Repository<L, A>,
    count: u32,
    notices: &mut Vec<Notice>,
) -> Result<(), Fault> {
    for number in 0..count {
        name_book(alloc, repository, number, notices)?;
    }
    Ok(())
}

/// The snapshot `snapshot`, after the notifications `notices` were replayed on it.
pub(super) fn view_of(
    alloc: Global,
    snapshot: Snapshot,
    notices: &[Notice],
) -> Result<Box<Snapshot>, AllocError> {
    let view = replay(alloc, snapshot, notices)?;
    Ok(Box::new(alloc, view)?)
}

/// How many nodes the replayed snapshot `view` has, if `view` is the same as a new snapshot of the resource; else `None`.
fn nodes_of<L: LinkStore, A: Adapter>(
    repository: &Repository<L, A>,
    view: &Snapshot,
) -> Result<Option<usize>, Refused> {
    match repository.snapshot(SHELF) {
        Ok(now) => Ok((*view == now).then(|| view.nodes().len())),
        Err(refused) => Err(refused),
    }
}

/// Takes a snapshot of the resource, names the `count` books, adds the notifications of these changes to `notices`, and replays the
/// notifications on the snapshot. Returns how many nodes the snapshot then has, if it is the same as a new snapshot; else `None`.
fn viewed<L: LinkStore, A: Adapter>(
    alloc: Global,
    repository: &mut Repository<L, A>,
    count: u32,
    notices: &mut Vec<Notice>,
) -> Result<Option<usize>, Fault> {
    let then = Box::new(alloc, repository.snapshot(SHELF)?)?;
    name_all(alloc, repository, count, notices)?;
    let view = view_of(alloc, Box::into_inner(then), notices.as_slice())?;
    Ok(nodes_of(repository, &view)?)
}

/// Makes `count` books in a resource, attaches a deep adapter to the resource, takes a snapshot of the resource, and names the books.
/// Replays the notifications of these changes on the snapshot. Returns how many nodes the snapshot then has, if it is the same as a new
/// snapshot; else `None`.
pub(super) fn followed<L: LinkStore, A: Adapter>(
    alloc: Global,
    repository: &mut Repository<L, A>,
    adapter: A,
    count: u32,
) -> Result<Option<usize>, Fault> {
    fill(repository, count)?;
    watch(repository, SHELF, true, adapter)?;
    let mut notices = Vec::new(alloc);
    viewed(alloc, repository, count, &mut notices)
}
