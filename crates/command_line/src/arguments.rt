//! The options of a command line.
ghost use Rattle.std.specs.Prelude.{◌≡◌, Some, false, true, IfOk, IfErr, codes, map};
ghost use Rattle.clap.specs.Words.{app_of, first_of, found_of, kind_of, matches_of, rows_of, rule_of, takes, with_rule};
ghost use Rattle.command_line.specs.CommandLine.{AreGiven, each as each_rule, file as file_rule, flag as flag_rule, is_set as sets, meta as meta_rule, program, texts, values};

use crate::help::{
    ABOUT, ECHO, EXPLAIN, EXPLAINED, JOURNAL, LIVE, LOAD, NUMBER, SAVE, SCRIPT, STOP, STRICT,
    VERSION,
};
use clap::error::ErrorKind;
use clap::{Arg, ArgAction, ArgMatches, Command, Error};
use script_answers::Dress;
use std::alloc::{AllocError, Global};

/// The options of a command line.
#[derive(Drop)]
pub struct Options<'a> {
    /// The file of the metamodel (`--meta`).
    pub meta: &'a str,
    /// The file of the script (`--script`); `None` if the script is read from standard input.
    pub script: Option<&'a str>,
    /// The resources that are loaded before the script (`--load`), each as URI=FILE, in the order of the words.
    pub load: Vec<&'a str>,
    /// The resources that are saved after the script (`--save`), each as URI=FILE, in the order of the words.
    pub save: Vec<&'a str>,
    /// The output options: `--echo`, `--number` and `--stop`.
    pub dress: Dress,
    /// Whether the exit status is 4, and not 0, if a line was refused or bad (`--strict`).
    pub strict: bool,
    /// Whether the program holds a dialogue (`--live`). Without a journal it answers each line before it reads the next line. With a
    /// journal it may hold answers back, but writes them before it waits for input.
    pub live: bool,
    /// The file of the journal (`--journal`); `None` if there is no journal. A journal keeps each line that asks for a change of the model,
    /// if the line was done.
    pub journal: Option<&'a str>,
    /// Whether the program says on standard error what to fix (`--explain`).
    pub explain: bool,
}

/// `--meta FILE`, which is required.
fn meta<'a>(alloc: Global) -> Arg<'a>
    ensures rule { rule_of result ≡ meta_rule }
    ensures local { result.global ≡ false }
{
    Arg::new(alloc, "meta")
        .long("meta")
        .value_name("FILE")
        .help("The metamodel, a JSON document")
        .required(true)
        .action(ArgAction::Set)
}

/// An option that takes a file, and may be left out.
fn file<'a>(alloc: Global, name: &'a str, help: &'a str) -> Arg<'a>
    ensures rule { rule_of result ≡ file_rule name.entry.now }
    ensures local { result.global ≡ false }
{
    Arg::new(alloc, name)
        .long(name)
        .value_name("FILE")
        .help(help)
        .action(ArgAction::Set)
}

/// An option that takes a value of the form `URI=FILE`, and may be given several times. The form is not checked here.
fn each<'a>(alloc: Global, name: &'a str, help: &'a str) -> Arg<'a>
    ensures rule { rule_of result ≡ each_rule name.entry.now }
    ensures local { result.global ≡ false }
{
    Arg::new(alloc, name)
        .long(name)
        .value_name("URI=FILE")
        .help(help)
        .action(ArgAction::Append)
}

/// An option that takes no value.
fn flag<'a>(alloc: Global, name: &'a str, help: &'a str) -> Arg<'a>
    ensures rule { rule_of result ≡ flag_rule name.entry.now }
    ensures local { result.global ≡ false }
{
    Arg::new(alloc, name)
        .long(name)
        .help(help)
        .action(ArgAction::SetTrue)
}

/// The command line of the program. Fails only if memory is refused.
fn command<'a>(alloc: Global) -> Result<Command<'a>, AllocError>
    ensures { IfOk result (λ c. app_of c ≡ program) }
{
    Command::new(alloc, "mmrepo")
        .version(VERSION)
        .about(ABOUT)
        .after_help(EXPLAINED)
        .arg(meta(alloc))?
        .arg(file(alloc, "script", SCRIPT))?
        .arg(each(alloc, "load", LOAD))?
        .arg(each(alloc, "save", SAVE))?
        .arg(flag(alloc, "echo", ECHO))?
        .arg(flag(alloc, "number", NUMBER))?
        .arg(flag(alloc, "stop", STOP))?
        .arg(flag(alloc, "strict", STRICT))?
        .arg(flag(alloc, "live", LIVE))?
        .arg(file(alloc, "journal", JOURNAL))?
        .arg(flag(alloc, "explain", EXPLAIN))
}

/// Whether the words give an option that takes no value.
fn is_set(matches: &ArgMatches<'_>, name: &str) -> bool
    ensures { result ≡ sets name.now (rows_of (found_of matches.now)) }
{
    match matches.get_str(name) {
        Some(value) => value == "true",
        None => false,
    }
}

/// The values of an option, in the order of the words. Fails only if memory is refused.
fn values_of<'a>(
    alloc: Global,
    matches: &ArgMatches<'a>,
    name: &str,
) -> Result<Vec<&'a str>, AllocError>
    ensures { IfOk result (λ v. map (λ s. s.now) v.items ≡ values name.now (rows_of (found_of matches.now))) }
{
    match matches.get_strs(name) {
        Some(found) => Vec::from_slice(alloc, found),
        None => Ok(Vec::new(alloc)),
    }
}

/// The usage of the program: one line, which begins with `Usage:`. Fails only if memory is refused.
pub fn usage_of(alloc: Global) -> Result<String, AllocError> {
    command(alloc)?.render_usage()
}

/// The options that the words of a command line give; the first word is the program's name.
///
/// Fails as `clap` does. The error has the text of `--help` or `--version`, or says what is wrong in the words, or that memory was refused.
pub fn options_of<'a>(alloc: Global, words: &'a [&'a str]) -> Result<Options<'a>, Error>
    // The options have what the words give.
    ensures value { IfOk result (λ o. AreGiven o (matches_of program (texts words.entry.now))) }
    // Words that fit the command line are refused only if memory is refused.
    ensures passes { IfErr result (λ e. takes program (texts words.entry.now) ≡ true → kind_of e ≡ ErrorKind.OutOfMemory) }
{
    let matches = command(alloc)?.try_get_matches_from(words)?;
    let load = values_of(alloc, &matches, "load")?;
    let save = values_of(alloc, &matches, "save")?;
    Ok(Options {
        meta: matches.get_str("meta").unwrap(),
        script: matches.get_str("script"),
        load,
        save,
        dress: Dress {
            echo: is_set(&matches, "echo"),
            number: is_set(&matches, "number"),
            stop: is_set(&matches, "stop"),
        },
        strict: is_set(&matches, "strict"),
        live: is_set(&matches, "live"),
        journal: matches.get_str("journal"),
        explain: is_set(&matches, "explain"),
    })
}

/// The value of `--meta` among the words of a command line; the first word is the program's name.
///
/// Fails as `options_of` does. The error has the text of `--help` or `--version`, or says what is wrong in the words, or that memory was
/// refused.
pub fn meta_file<'a>(alloc: Global, words: &'a [&'a str]) -> Result<&'a str, Error>
    // The file is the first value that the words give to `--meta`.
    ensures value { IfOk result (λ file. first_of (codes "meta") (matches_of program (texts words.entry.now)) ≡ Some file.now) }
    // Words that fit the command line are refused only if memory is refused.
    ensures passes { IfErr result (λ e. takes program (texts words.entry.now) ≡ true → kind_of e ≡ ErrorKind.OutOfMemory) }
{
    Ok(options_of(alloc, words)?.meta)
}
