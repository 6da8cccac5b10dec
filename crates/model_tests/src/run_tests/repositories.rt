//! A list of commands that a repository runs by one call.
use crate::fixtures::books::{BOOK, NAME, RowRepository, object, repository, text};
use crate::fixtures::replies::outcomes_text;
use adapters::Adapter;
use mm_types::End;
use repository::{Act, Command, EndRead, Read};
use std::alloc::{AllocError, Global};
use std::test::Fail;

/// Commands that make, name and read a book.
fn commands<A: Adapter>(alloc: Global) -> Result<Vec<Command<A>>, AllocError> {
    let end = End {
        node: object(0),
        feature: NAME,
    };
    let mut commands = Vec::new(alloc);
    commands.push(Command::Create(BOOK))?;
    commands.push(Command::At(end, Act::Set(text(alloc, "Emma")?)))?;
    commands.push(Command::Read(Read::At(end, EndRead::Get)))?;
    Ok(commands)
}

/// The text that `outcomes` has to return. It names no adapter, since no adapter is notified and none is given back.
const OUTCOMES: &str = "Object(ObjectNo(0))\nDone\nValue(Text(\"Emma\"))\n";

/// The outcomes of `commands` in an empty repository.
fn outcomes<A: Adapter>(alloc: Global) -> Result<String, Fail> {
    let mut repository: Box<RowRepository<A>> = repository(alloc)?;
    let commands = commands(alloc)?;
    let Ok(outcomes) = repository.run_all(commands) else {
        return Err(Fail::new("out of memory for the outcomes"));
    };
    Ok(outcomes_text(alloc, outcomes.as_slice())?)
}

#[test]
fn a_list_of_commands_makes_names_and_reads_a_book(rt: HostRuntime) -> Result<(), Fail> {
    let found = outcomes::<Box<dyn Adapter>>(rt.alloc())?;
    assert_eq!(rt; found.as_str(), OUTCOMES);
    Ok(())
}
