//! The list of commands, and what is done before it.
use crate::fault::Fault;
use crate::list::views::view_of;
use adapters::Adapter;
use link_store::LinkStore;
use mm_types::{AdapterNo, ClassNo, End, FeatureNo, Node, ObjectNo, Refused, Text, Value};
use notice_chain::{NO_INDEX, Notice, NoticeKind};
use repository::{Act, Command, EndRead, NodeRead, Read, Reply, Repository};
use snapshots::Snapshot;
use std::alloc::{AllocError, Global};

const BOOK: ClassNo = ClassNo(0);

/// The first book.
pub(super) const FIRST: Node = Node::Object(ObjectNo(0));

pub(super) const NAME: FeatureNo = FeatureNo(0);

/// The number of the adapter that `watch` attaches: before the list of commands is done, or before a snapshot of many books is taken.
pub(super) const THERE: AdapterNo = AdapterNo(1);

/// The number of the adapter that the list of commands attaches.
pub(super) const BROUGHT: AdapterNo = AdapterNo(2);

/// The outcome of a command without the reply: `Ok` if the command was done, otherwise its refusal.
pub(super) fn done<A: Adapter>(given: Result<Reply<A>, Refused>) -> Result<(), Refused> {
    match given {
        Ok(_) => Ok(()),
        Err(refused) => Err(refused),
    }
}

/// Makes a book.
pub(super) fn make_book<L: LinkStore, A: Adapter>(
    repository: &mut Repository<L, A>,
) -> Result<(), Refused> {
    done(repository.create(BOOK))
}

/// The name that a book gets.
pub(super) fn emma(alloc: Global) -> Result<Value, AllocError> {
    Ok(Value::Text(Text::from_str(alloc, "Emma")?))
}

/// The notification of the change that names the first book.
fn named(alloc: Global) -> Result<Notice, AllocError> {
    Ok(Notice {
        notifier: FIRST,
        feature: Some(NAME),
        kind: NoticeKind::Set,
        old_value: Value::Null,
        new_value: emma(alloc)?,
        position: NO_INDEX,
        was_set: false,
    })
}

/// A snapshot of the first book, after the notification `named` was replayed on it.
pub(super) fn renamed<L: LinkStore, A: Adapter>(
    alloc: Global,
    repository: &Repository<L, A>,
) -> Result<Box<Snapshot>, Fault> {
    let notices = vec![in alloc; named(alloc)?]?;
    let snapshot = repository.snapshot(FIRST)?;
    Ok(view_of(alloc, snapshot, notices.as_slice())?)
}

/// Attaches an adapter with the number `THERE`. If the attach is refused, the adapter is dropped.
pub(super) fn watch<L: LinkStore, A: Adapter>(
    repository: &mut Repository<L, A>,
    target: Node,
    deep: bool,
    adapter: A,
) -> Result<(), Refused> {
    match repository.attach(THERE, target, deep, adapter) {
        Ok(_) => Ok(()),
        Err(failure) => Err(failure.refused),
    }
}

/// The commands that make a second book, name the first book, attach an adapter to the first book, and read the name and a snapshot of this
/// book.
pub(super) fn commands<A: Adapter>(
    alloc: Global,
    adapter: A,
) -> Result<Vec<Command<A>>, AllocError> {
    let end = End {
        node: FIRST,
        feature: NAME,
    };
    let value = emma(alloc)?;
    let attach = Command::Attach {
        no: BROUGHT,
        target: FIRST,
        deep: false,
        adapter,
    };
    let mut commands = Vec::new(alloc);
    commands.push(Command::Create(BOOK))?;
    commands.push(Command::At(end, Act::Set(value)))?;
    commands.push(attach)?;
    commands.push(Command::Read(Read::At(end, EndRead::Get)))?;
    commands.push(Command::Read(Read::Under(FIRST, NodeRead::Snapshot)))?;
    Ok(commands)
}
