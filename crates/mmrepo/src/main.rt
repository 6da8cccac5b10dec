//! `mmrepo --meta FILE` reads a metamodel, and runs a script from standard input or from a file.
#![tactic(auto)]

mod asked;
mod explained;
mod files;
mod journaled;
mod metamodel;
mod misuse;
mod prompt;
mod running;
mod saving;
mod stop;
mod watched;

use crate::asked::{Asked, arguments_of, words_of};
use crate::metamodel::read_meta;
use crate::running::{run_asked, status_of};
use crate::stop::{Stop, report};
use std::process::ExitCode;

/// Reads the metamodel, loads files, runs the script, saves files, and returns the exit status. A live run answers the lines of standard
/// input instead of running a script. A run with a journal runs the lines of the journal first.
fn run(rt: &HostRuntime, asked: &Asked) -> Result<u8, Stop> {
    let mut document = read_meta(rt, asked)?;
    let is_faulty = run_asked(rt, asked, &mut document)?;
    Ok(status_of(is_faulty, asked.strict))
}

/// Reads the words of the command line, and runs the program with the options that the words give. Returns the exit status.
fn start(rt: &HostRuntime) -> Result<u8, Stop> {
    let words = words_of(rt)?;
    let asked = arguments_of(rt, words.as_slice())?;
    run(rt, &asked)
}

fn main(rt: HostRuntime) -> ExitCode {
    match start(&rt) {
        Ok(status) => ExitCode::from(status),
        Err(stop) => ExitCode::from(report(&rt, stop)),
    }
}
