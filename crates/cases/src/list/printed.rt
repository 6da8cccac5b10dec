//! How outcomes, commands and the state of the repository are printed. No function here takes memory.
use crate::list::commands::{BROUGHT, FIRST, NAME, THERE};
use adapters::Adapter;
use link_store::LinkStore;
use mm_types::ObjectNo;
use repository::{Act, Command, EndRead, Failure, NodeRead, Read, Reply, Repository};
use std::io;
use std::io::Write;

/// Prints the outcome of a command. If the command was done: its answer, and how many notifications the adapters got. If it was refused:
/// the refusal and, if an adapter is given back, how many notifications that adapter got.
fn print_outcome<A: Adapter, W: Write>(
    writer: &mut W,
    outcome: &Result<Reply<A>, Failure<A>>,
) -> Result<(), io::Error> {
    match outcome {
        Ok(reply) => writeln!(writer, "{:?}, told {}", reply.answer, reply.told.len()),
        Err(failure) => match &failure.given_back {
            Some(adapter) => {
                writeln!(
                    writer,
                    "refused {}, back {}",
                    failure.refused,
                    adapter.told()
                )
            }
            None => writeln!(writer, "refused {}", failure.refused),
        },
    }
}

/// Prints the outcome of each command.
pub(super) fn print_outcomes<A: Adapter, W: Write>(
    writer: &mut W,
    outcomes: &[Result<Reply<A>, Failure<A>>],
) -> Result<(), io::Error> {
    for outcome in outcomes {
        print_outcome(writer, outcome)?;
    }
    Ok(())
}

/// Prints a command that is given back and, if the command attaches an adapter, how many notifications the adapter got. A command of a kind
/// that the list of `commands` does not have is printed as `another`.
fn print_command<A: Adapter, W: Write>(
    writer: &mut W,
    command: &Command<A>,
) -> Result<(), io::Error> {
    match command {
        Command::Create(class) => writeln!(writer, "back: create {class:?}"),
        Command::At(end, Act::Set(value)) => {
            writeln!(writer, "back: set {:?} {value:?}", end.node)
        }
        Command::Attach { no, adapter, .. } => {
            writeln!(writer, "back: attach {no:?} {}", adapter.told())
        }
        Command::Read(Read::At(end, EndRead::Get)) => {
            writeln!(writer, "back: get {:?}", end.node)
        }
        Command::Read(Read::Under(node, NodeRead::Snapshot)) => {
            writeln!(writer, "back: snapshot {node:?}")
        }
        _ => writeln!(writer, "back: another"),
    }
}

/// Prints commands that are given back.
pub(super) fn print_commands<A: Adapter, W: Write>(
    writer: &mut W,
    commands: &[Command<A>],
) -> Result<(), io::Error> {
    for command in commands {
        print_command(writer, command)?;
    }
    Ok(())
}

/// Prints whether the first book has a name, the class of the second book, and how many notifications each of the two adapters got.
pub(super) fn print_state<L: LinkStore, A: Adapter, W: Write>(
    writer: &mut W,
    repository: &Repository<L, A>,
) -> Result<(), io::Error> {
    writeln!(writer, "named {:?}", repository.e_is_set(FIRST, NAME))?;
    writeln!(writer, "second {:?}", repository.e_class(ObjectNo(1)))?;
    let told = [
        repository.adapter_told(THERE),
        repository.adapter_told(BROUGHT),
    ];
    writeln!(writer, "told {told:?}")
}
