//! Runs cases, and compares what each case gives with what the case expects.
//!
//! `cases FILE..` reads files of cases, and the metamodels that the cases name; CONTRIBUTING.md explains how a case is written. A script is
//! run over each store of links. If a case does not give what it expects, the program prints the name of the case, the store, what was
//! expected and what was given. If a case can't be run, the program prints the name of the case and the reason. The exit status is 1 if a
//! case fails in one of these two ways, or if a file of cases can't be read. The last line counts the cases.
//!
//! With the word `commands`, the program does a list of commands by one call of a repository, and prints the outcome of each command. If
//! there is no memory for the outcomes, it prints all the commands, which the repository gives back. Then it prints what the repository
//! has, and a snapshot on which a notification was replayed. `tests/run_refused_memory` runs the program with this word once for each
//! allocation that the program makes, and refuses that allocation. The cases can't test this: no script runs a list of commands by one
//! call, and no test function can refuse memory.
//!
//! With a number N as its word, the program takes a snapshot of a resource with N books, names each book, and replays the notifications on
//! the snapshot. `bench/measure` runs the program with such a word.
#![tactic(auto)]

mod case;
mod expand;
mod fault;
mod list;
mod outcome;

use case::Case;
use fault::Fault;
use link_store::{LinkStore, RowStore, SlotStore};
use list::{follow, run_list};
use outcome::{document_outcome, script_outcome};
use std::alloc::Global;
use std::io::{BufWriter, Read, Write};
use std::process::ExitCode;
use std::{env, fs, io};

/// How many cases gave what they expect, and how many did not.
#[derive(Clone, Copy)]
struct Tally {
    passed: u64,
    failed: u64,
}

impl Tally {
    fn with(self, passes: bool) -> Tally {
        Tally {
            passed: self.passed.saturating_add(u64::from(passes)),
            failed: self.failed.saturating_add(u64::from(!passes)),
        }
    }
}

/// The bytes of a file in the folder in which the program runs.
fn read_file(rt: &HostRuntime, path: &str) -> Result<Vec<u8>, Fault> {
    let Ok(mut file) = fs::open(rt, path) else {
        return Err(Fault::Unreadable);
    };
    let mut bytes = Vec::new(rt.alloc());
    match file.read_to_end(&mut bytes) {
        Ok(_) => Ok(bytes),
        Err(_) => Err(Fault::Unreadable),
    }
}

/// Whether `given`, what a case gave, is what the case expects. If not, writes the name of the case, `part`, what was expected and what was
/// given. `part` is the name of the store over which the script ran, or `no store`.
fn gives_expected<W: Write>(
    writer: &mut W,
    case: &Case<'_>,
    part: &str,
    given: &[u8],
) -> Result<bool, io::Error> {
    if given == case.expected.as_slice() {
        return Ok(true);
    }
    writeln!(writer, "case differs with {part}: {}", case.name)?;
    writeln!(writer, "expected:")?;
    writer.write_all(case.expected.as_slice())?;
    writeln!(writer, "given:")?;
    writer.write_all(given)?;
    Ok(false)
}

/// The metamodel of a case.
fn metamodel_of(rt: &HostRuntime, case: &Case<'_>) -> Result<Vec<u8>, Fault> {
    match case.metamodel {
        Some(name) => {
            let path = format!(in rt.alloc(); "{name}.json")?;
            read_file(rt, path.as_str())
        }
        None => Ok(Vec::from_slice(rt.alloc(), case.document.as_slice())?),
    }
}

/// Runs the script of a case over a store of links, first with the last newline of the script and then without. Returns whether the script
/// gives both times what the case expects. If it does not the first time, there is no second run.
fn passes_over<L: LinkStore, W: Write>(
    alloc: Global,
    writer: &mut W,
    case: &Case<'_>,
    metamodel: &[u8],
    store: &str,
) -> Result<bool, Fault> {
    let scripts = [case.script(), case.unended_script()];
    for script in scripts {
        let given = script_outcome::<L>(alloc, metamodel, script)?;
        if !gives_expected(writer, case, store, given.as_slice())? {
            return Ok(false);
        }
    }
    Ok(true)
}

/// Runs a case, and returns whether the case gives what it expects. A script runs over each store, and must give what the case expects over
/// both. If the case has no script, the outcome of its metamodel must be what the case expects.
fn passes<W: Write>(
    alloc: Global,
    writer: &mut W,
    case: &Case<'_>,
    metamodel: &[u8],
) -> Result<bool, Fault> {
    if case.script().is_empty() {
        let given = document_outcome(alloc, metamodel)?;
        return Ok(gives_expected(writer, case, "no store", given.as_slice())?);
    }
    let slots = passes_over::<SlotStore, W>(alloc, writer, case, metamodel, "SlotStore")?;
    let rows = passes_over::<RowStore, W>(alloc, writer, case, metamodel, "RowStore")?;
    Ok(slots && rows)
}

/// Parses a case and runs it. Returns whether the case gives what it expects.
fn parse_and_run<W: Write>(rt: &HostRuntime, writer: &mut W, text: &str) -> Result<bool, Fault> {
    let case = Case::parse(rt.alloc(), text)?;
    let metamodel = metamodel_of(rt, &case)?;
    passes(rt.alloc(), writer, &case, metamodel.as_slice())
}

/// Parses a case and runs it. If the case can't be run, writes its name and the fault; the case does not pass then.
fn run_case<W: Write>(rt: &HostRuntime, writer: &mut W, text: &str) -> Result<bool, io::Error> {
    match parse_and_run(rt, writer, text) {
        Ok(passes) => Ok(passes),
        Err(fault) => {
            let name = text.lines().next().unwrap_or("");
            writeln!(writer, "case can't be run: {name}: {fault}")?;
            Ok(false)
        }
    }
}

/// Runs the cases of a text, and counts them in the tally. A case begins with a line `== NAME`. The first line of the text begins no case,
/// whatever it is. What is before the first case is skipped.
fn run_cases<W: Write>(
    rt: &HostRuntime,
    writer: &mut W,
    text: &str,
    tally: Tally,
) -> Result<Tally, io::Error> {
    let mut tally = tally;
    for case in text.split("\n== ").skip(1) {
        tally = tally.with(run_case(rt, writer, case)?);
    }
    Ok(tally)
}

/// Runs the cases of a file, and counts them in the tally. A file that can't be read, or is not UTF-8, counts as a case that fails.
fn run_file<W: Write>(
    rt: &HostRuntime,
    writer: &mut W,
    path: &str,
    tally: Tally,
) -> Result<Tally, io::Error> {
    match read_file(rt, path).map(|bytes| String::from_utf8(bytes)) {
        Ok(Ok(text)) => run_cases(rt, writer, text.as_str(), tally),
        _ => {
            writeln!(writer, "file can't be read: {path}")?;
            Ok(tally.with(false))
        }
    }
}

/// Does what a word of the command line asks for: the list of commands, the snapshot of N books, or the cases of a file.
fn run_word<W: Write>(
    rt: &HostRuntime,
    writer: &mut W,
    word: &str,
    tally: Tally,
) -> Result<Tally, Fault> {
    if word == "commands" {
        run_list(rt.alloc(), writer)?;
        return Ok(tally);
    }
    if let Ok(count) = word.parse::<u32>() {
        follow(rt.alloc(), writer, count)?;
        return Ok(tally);
    }
    Ok(run_file(rt, writer, word, tally)?)
}

/// Does what the arguments ask for, and prints how many cases passed and failed. Returns whether no case failed.
fn run_words<W: Write>(rt: &HostRuntime, writer: &mut W) -> Result<bool, Fault> {
    let mut tally = Tally {
        passed: 0,
        failed: 0,
    };
    for word in env::args(rt)?.skip(1) {
        tally = run_word(rt, writer, word.as_str(), tally)?;
    }
    writeln!(
        writer,
        "cases: {} passed, {} failed",
        tally.passed, tally.failed
    )?;
    writer.flush()?;
    Ok(tally.failed == 0)
}

fn start(rt: &HostRuntime) -> Result<bool, Fault> {
    let mut writer = BufWriter::new(rt.alloc(), io::writer(rt))?;
    run_words(rt, &mut writer)
}

fn main(rt: HostRuntime) -> ExitCode {
    match start(&rt) {
        Ok(true) => ExitCode::SUCCESS,
        Ok(false) => ExitCode::FAILURE,
        Err(fault) => {
            let _ = eprintln!(&rt; "stopped: {fault}");
            ExitCode::from(3)
        }
    }
}
