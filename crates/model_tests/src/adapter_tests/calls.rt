//! Calls and commands that concern a repository's adapters. They are done in some tests, and refused in others.
use crate::fixtures::books::{BOOK, NAME, RowRepository, attach, object, one_book, text};
use crate::fixtures::replies::{given, made, outcome_text};
use crate::fixtures::telling::{Kind, adapter};
use adapters::{Adapter, Counter};
use mm_types::{AdapterNo, End, Node, Refused, ResourceNo};
use repository::{Act, Command, Read, Tally};
use std::alloc::{AllocError, Global};
use std::test::Fail;

const NO: AdapterNo = AdapterNo(5);

fn attached<A: Adapter>(
    alloc: Global,
    repository: &mut RowRepository<A>,
    adapter: A,
) -> Result<String, AllocError> {
    let outcome = repository.attach(NO, object(0), true, adapter);
    let text = outcome_text(alloc, &outcome);
    drop(outcome);
    text
}

/// Names the book, and unsets the book's name.
fn name_and_unname<A: Adapter>(
    alloc: Global,
    repository: &mut RowRepository<A>,
) -> Result<(), Fail> {
    let emma = text(alloc, "Emma")?;
    made(repository.e_set(object(0), NAME, emma))?;
    made(repository.e_unset(object(0), NAME))?;
    Ok(())
}

fn counted<A: Adapter>(alloc: Global, repository: &RowRepository<A>) -> Result<String, Fail> {
    let told = repository.adapter_told(NO)?;
    let kept = repository.adapter_kept(NO)?;
    Ok(format!(in alloc; "{told} told, {kept} kept")?)
}

fn detached<A: Adapter>(alloc: Global, repository: &mut RowRepository<A>) -> Result<String, Fail> {
    given(alloc, repository.detach(NO))
}

/// Attaches an adapter to a book, names the book, unsets the name, counts the notifications of the adapter, and detaches it. Returns the
/// outcome of the attach, the counts, and the outcome of the detach, each on a line of its own.
fn calls<A: Adapter>(
    alloc: Global,
    repository: &mut RowRepository<A>,
    adapter: A,
) -> Result<String, Fail> {
    let attached = attached(alloc, repository, adapter)?;
    name_and_unname(alloc, repository)?;
    let counted = counted(alloc, repository)?;
    let detached = detached(alloc, repository)?;
    Ok(format!(in alloc; "{attached}\n{counted}\n{detached}")?)
}

/// What `calls` gives in a new repository of one book.
fn calls_at_a_book<A: Adapter>(alloc: Global, adapter: A) -> Result<String, Fail> {
    let mut repository = one_book(alloc)?;
    calls(alloc, &mut repository, adapter)
}

const CALLED: &str =
    "Done\n2 told, 1 kept\nDone; A5 REMOVING_ADAPTER Null Null 0 false; A5 back, 3 told, REMOVING_ADAPTER 0";

#[test]
fn an_adapter_is_attached_counted_and_detached(rt: HostRuntime) -> Result<(), Fail> {
    let window = adapter(rt.alloc(), Kind::WindowOfOne)?;
    let found = calls_at_a_book(rt.alloc(), window)?;
    assert_eq!(rt; found.as_str(), CALLED);
    Ok(())
}

/// Attaches an adapter to the first book and makes a second book. Then gives the adapter the second book as a target twice, takes the first
/// book from the adapter twice, and takes the second book from the adapter once. Returns the outcomes of the attach and of these five
/// calls, each on a line of its own.
fn calls_of_targets<A: Adapter>(
    alloc: Global,
    repository: &mut RowRepository<A>,
    adapter: A,
) -> Result<String, Fail> {
    let attached = attached(alloc, repository, adapter)?;
    made(repository.create(BOOK))?;
    let watched = given(alloc, repository.watch(NO, object(1), false))?;
    let again = given(alloc, repository.watch(NO, object(1), true))?;
    let first = given(alloc, repository.unwatch(NO, object(0)))?;
    let none = given(alloc, repository.unwatch(NO, object(0)))?;
    let last = given(alloc, repository.unwatch(NO, object(1)))?;
    Ok(format!(in alloc; "{attached}\n{watched}\n{again}\n{first}\n{none}\n{last}")?)
}

/// What `calls_of_targets` gives in a new repository of one book.
fn targets_at_a_book<A: Adapter>(alloc: Global, adapter: A) -> Result<String, Fail> {
    let mut repository = one_book(alloc)?;
    calls_of_targets(alloc, &mut repository, adapter)
}

const TARGETS: &str = "Done
Flag(true)
Flag(false)
Flag(true); A5 REMOVING_ADAPTER Null Null 0 false
Flag(false)
Flag(true); A5 REMOVING_ADAPTER Null Null 0 false; A5 back, 2 told, REMOVING_ADAPTER 0";

#[test]
fn an_adapter_gets_a_target_and_loses_both(rt: HostRuntime) -> Result<(), Fail> {
    let window = adapter(rt.alloc(), Kind::WindowOfOne)?;
    let found = targets_at_a_book(rt.alloc(), window)?;
    assert_eq!(rt; found.as_str(), TARGETS);
    Ok(())
}

fn attach_command<A>(no: u32, target: Node, adapter: A) -> Command<A> {
    Command::Attach {
        no: AdapterNo(no),
        target,
        deep: false,
        adapter,
    }
}

/// Commands that do what the calls of `calls` do, except that the target is flat and the name of the book is not unset.
fn commands<A: Adapter>(alloc: Global, adapter: A) -> Result<Vec<Command<A>>, AllocError> {
    let mut commands = Vec::new(alloc);
    commands.push(attach_command(5, object(0), adapter))?;
    let end = End {
        node: object(0),
        feature: NAME,
    };
    commands.push(Command::At(end, Act::Set(text(alloc, "Emma")?)))?;
    commands.push(Command::Read(Read::Adapter(NO, Tally::Told)))?;
    commands.push(Command::Read(Read::Adapter(NO, Tally::Kept)))?;
    commands.push(Command::Detach(NO))?;
    Ok(commands)
}

fn command_outcome<A: Adapter>(
    alloc: Global,
    repository: &mut RowRepository<A>,
    command: Command<A>,
) -> Result<String, AllocError> {
    let outcome = repository.execute(command);
    let text = outcome_text(alloc, &outcome);
    drop(outcome);
    text
}

/// The outcomes of commands in a repository, each on a line of its own.
fn executed<A: Adapter>(
    alloc: Global,
    repository: &mut RowRepository<A>,
    commands: Vec<Command<A>>,
) -> Result<String, AllocError> {
    let mut text = String::new(alloc);
    for command in commands {
        let outcome = command_outcome(alloc, repository, command)?;
        writeln!(text, "{outcome}")?;
    }
    Ok(text)
}

/// The outcomes of `commands` in a new repository of one book.
fn called_by_commands<A: Adapter>(alloc: Global, adapter: A) -> Result<String, Fail> {
    let mut repository = one_book(alloc)?;
    let commands = commands(alloc, adapter)?;
    Ok(executed(alloc, &mut repository, commands)?)
}

const EXECUTED: &str =
    "Done\nDone; A5 SET Null Text(\"Emma\") -1 false\nCount(1)\nCount(1)\nDone; A5 REMOVING_ADAPTER Null Null 0 false; A5 back, 2 told, SET -1, REMOVING_ADAPTER 0\n";

#[test]
fn commands_attach_count_and_detach(rt: HostRuntime) -> Result<(), Fail> {
    let recorder = adapter(rt.alloc(), Kind::Recorder)?;
    let found = called_by_commands(rt.alloc(), recorder)?;
    assert_eq!(rt; found.as_str(), EXECUTED);
    Ok(())
}

/// Commands that are refused if the repository has one book, an adapter with the number 5, and no adapter with the number 9.
fn refused_commands(alloc: Global) -> Result<Vec<Command<Counter>>, AllocError> {
    let heard = || Counter::starting_at(41);
    let full = Counter::starting_at(18446744073709551615);
    let commands = vec![in alloc;
        attach_command(5, object(7), heard()),
        attach_command(5, Node::Resource(ResourceNo(0)), heard()),
        attach_command(5, object(0), heard()),
        attach_command(9, object(0), full),
        Command::Detach(AdapterNo(9)),
        Command::Read(Read::Adapter(AdapterNo(9), Tally::Told)),
        Command::Read(Read::Adapter(AdapterNo(9), Tally::Kept)),
    ]?;
    Ok(commands)
}

/// The refusals of `refused_commands`, in order: no object, no resource, a taken number, a full adapter, and three times no adapter.
const REFUSED: &str =
    "refused 1, back, 41 told\nrefused 2, back, 41 told\nrefused 26, back, 41 told\nrefused 27, back, 18446744073709551615 told\nrefused 25\nrefused 25\nrefused 25\n";

/// The outcomes of `refused_commands`, after an adapter was attached as number 5.
fn refused(alloc: Global, repository: &mut RowRepository<Counter>) -> Result<String, Fail> {
    attach(repository, 5, Counter::new())?;
    let commands = refused_commands(alloc)?;
    Ok(executed(alloc, repository, commands)?)
}

#[test]
fn refused_commands_give_their_adapter_back(rt: HostRuntime) -> Result<(), Fail> {
    let mut repository: Box<RowRepository<Counter>> = one_book(rt.alloc())?;
    let found = refused(rt.alloc(), &mut repository)?;
    assert_eq!(rt; found.as_str(), REFUSED);
    assert_eq!(rt; repository.adapter_told(NO), Ok(0));
    Ok(())
}

#[test]
fn refused_calls_say_why(rt: HostRuntime) -> Result<(), Fail> {
    let mut repository: Box<RowRepository<Counter>> = one_book(rt.alloc())?;
    let no = AdapterNo(9);
    assert_eq!(rt; repository.adapter_told(no), Err(Refused::NoAdapter));
    assert_eq!(rt; repository.adapter_kept(no), Err(Refused::NoAdapter));
    assert_eq!(rt; made(repository.detach(no)), Err(Refused::NoAdapter));
    assert_eq!(rt;
        made(repository.watch(no, object(0), true)),
        Err(Refused::NoAdapter)
    );
    assert_eq!(rt;
        made(repository.unwatch(no, object(0))),
        Err(Refused::NoAdapter)
    );
    Ok(())
}
