//! A list of commands that is done by one call of a repository; no script makes this call. Also notifications that are replayed on a
//! snapshot.
mod commands;
mod printed;
mod views;

use crate::fault::Fault;
use adapters::{Adapter, Counter, Recorder};
use commands::{FIRST, commands, make_book, renamed, watch};
use link_store::{LinkStore, SlotStore};
use mm_check::check_document;
use printed::{print_commands, print_outcomes, print_state};
use repository::{Command, Repository};
use std::alloc::Global;
use std::io;
use std::io::Write;
use views::followed;

/// The metamodel of books that have a name.
const BOOKS: &str =
    r#"{"classes":[{"name":"Book","features":[{"name":"name","kind":"attribute","type":"EString"}]}]}"#;

/// Does commands by one call of the repository, and prints the outcome of each command. If there is no memory for the outcomes, prints the
/// commands, which the repository gives back.
fn do_all<L: LinkStore, A: Adapter, W: Write>(
    writer: &mut W,
    repository: &mut Repository<L, A>,
    commands: Vec<Command<A>>,
) -> Result<(), io::Error> {
    match repository.run_all(commands) {
        Ok(outcomes) => print_outcomes(writer, outcomes.as_slice()),
        Err(commands) => print_commands(writer, commands.as_slice()),
    }
}

/// Does the list of commands, and prints the outcomes of the commands and what the repository has then.
fn do_list<L: LinkStore, A: Adapter, W: Write>(
    alloc: Global,
    writer: &mut W,
    repository: &mut Repository<L, A>,
    adapter: A,
) -> Result<(), Fault> {
    let commands = commands(alloc, adapter)?;
    do_all(writer, repository, commands)?;
    print_state(writer, repository)?;
    Ok(())
}

/// Makes a book, attaches the adapter `first` to the book, and takes a snapshot of the book. Replays on this snapshot a notification that
/// says that the book gets a name; the book itself has none yet. Then does the list of commands, which names the book and attaches the
/// adapter `second`. At the end prints the replayed snapshot.
fn session<L: LinkStore, A: Adapter, W: Write>(
    alloc: Global,
    writer: &mut W,
    repository: &mut Repository<L, A>,
    first: A,
    second: A,
) -> Result<(), Fault> {
    make_book(repository)?;
    watch(repository, FIRST, false, first)?;
    let renamed = renamed(alloc, repository)?;
    do_list(alloc, writer, repository, second)?;
    writeln!(writer, "replayed {:?}", *renamed)?;
    Ok(())
}

/// Makes a repository of books, does in it what `session` does, and closes the repository.
fn run<L: LinkStore, A: Adapter, W: Write>(
    alloc: Global,
    writer: &mut W,
    first: A,
    second: A,
) -> Result<(), Fault> {
    let meta = check_document(alloc, BOOKS.as_bytes())?;
    let mut repository: Repository<L, A> = Repository::new(alloc, meta);
    let outcome = session(alloc, writer, &mut repository, first, second);
    let _ = repository.close();
    outcome
}

/// Does the list of commands, and prints the outcome of each command. If there is no memory for the outcomes, prints all the commands,
/// which the repository gives back. Then prints what the repository has, and a snapshot on which a notification was replayed.
pub(crate) fn run_list<W: Write>(alloc: Global, writer: &mut W) -> Result<(), Fault> {
    // A recorder takes memory when it is attached, so the attach can be refused for memory.
    let first: Box<dyn Adapter> = Box::new(alloc, Recorder::new(alloc))?;
    let second: Box<dyn Adapter> = Box::new(alloc, Recorder::new(alloc))?;
    run::<SlotStore, _, W>(alloc, writer, first, second)
}

/// Makes `count` books in a resource, takes a snapshot of the resource, and names the books. Replays the notifications of these changes on
/// the snapshot. If the snapshot is then the same as a new snapshot, prints how many nodes the snapshot has; otherwise prints `None`.
pub(crate) fn follow<W: Write>(alloc: Global, writer: &mut W, count: u32) -> Result<(), Fault> {
    let meta = check_document(alloc, BOOKS.as_bytes())?;
    let mut repository: Repository<SlotStore, Counter> = Repository::new(alloc, meta);
    let followed = followed(alloc, &mut repository, Counter::new(), count);
    let _ = repository.close();
    writeln!(writer, "followed {:?}", followed?)?;
    Ok(())
}
