//! The options of a command line.
use crate::misuse::{Misuse, misuse_of};
use crate::stop::Stop;
use command_line::{Options, options_of};
use script_answers::Dress;
use script_streams::RunFault;
use std::io::IsTerminal;
use std::{env, io};

/// A resource by its URI, and the file of its document.
#[derive(Drop)]
pub(crate) struct ResourceFile {
    pub(crate) uri: String,
    pub(crate) file: String,
}

/// What the program has to do, as its options say.
#[derive(Drop)]
pub(crate) struct Asked {
    /// The file of the metamodel.
    pub(crate) meta: String,
    /// The file of the script; `None` if the script is read from standard input.
    pub(crate) script: Option<String>,
    /// The resources that are loaded before the script.
    pub(crate) load: Vec<ResourceFile>,
    /// The resources that are saved after the script.
    pub(crate) save: Vec<ResourceFile>,
    /// The output options.
    pub(crate) dress: Dress,
    /// Whether the exit status is 4 if the run came to its end, and a line was refused or bad (`--strict`).
    pub(crate) strict: bool,
    /// Whether the run is live (`--live`): before the program waits for further lines, it answers all lines that came in.
    pub(crate) live: bool,
    /// The file of the journal, which keeps the lines that change the model; `None` if there is no journal.
    pub(crate) journal: Option<String>,
    /// Whether the program says what to fix, after its messages (`--explain`).
    pub(crate) explain: bool,
    /// Whether the program says which file can't be opened, read or written, with the reason if the program knows it. True with
    /// `--explain`, and also if standard error is a terminal.
    pub(crate) names_files: bool,
}

/// The words that the program was called with. Fails with `NotUtf8` if a word is not UTF-8, and otherwise only with `Memory`.
pub(crate) fn words_of(rt: &HostRuntime) -> Result<Vec<String>, Stop> {
    let args = match env::args(rt) {
        Ok(args) => args,
        Err(error) if error.kind() == io::ErrorKind::InvalidData => return Err(Stop::NotUtf8),
        Err(_) => return Err(Stop::Run(RunFault::Memory)),
    };
    let mut words = Vec::new(rt.alloc());
    for word in args {
        if words.push(word).is_err() {
            return Err(Stop::Run(RunFault::Memory));
        }
    }
    Ok(words)
}

/// A copy of a path; `None` if no path is given.
fn path_of(rt: &HostRuntime, path: Option<&str>) -> Result<Option<String>, Stop> {
    match path {
        Some(path) => Ok(Some(String::from_str(rt.alloc(), path)?)),
        None => Ok(None),
    }
}

/// The resource and the file that a value of the option `option` names. The last `=` of the value separates the URI from the file, since a
/// URI may have `=` too. The value is refused if it has no `=`, or if nothing follows the last `=`.
fn resource_file(
    rt: &HostRuntime,
    option: &'static str,
    value: &str,
) -> Result<ResourceFile, Stop> {
    match value.rsplit_once('=') {
        Some((uri, file)) if !file.is_empty() => {
            let uri = String::from_str(rt.alloc(), uri)?;
            let file = String::from_str(rt.alloc(), file)?;
            Ok(ResourceFile { uri, file })
        }
        _ => Err(Stop::Misuse(Misuse::NoFile(option))),
    }
}

/// The resources and the files that the values of the option `option` name, in the order of the values.
fn resource_files(
    rt: &HostRuntime,
    option: &'static str,
    values: &[&str],
) -> Result<Vec<ResourceFile>, Stop> {
    let mut files = Vec::new(rt.alloc());
    for value in values {
        files.push(resource_file(rt, option, value)?)?;
    }
    Ok(files)
}

/// What the program has to do, as the given options say. The texts are copied out of the words.
fn copied(rt: &HostRuntime, options: &Options<'_>) -> Result<Asked, Stop> {
    let script = path_of(rt, options.script)?;
    let load = resource_files(rt, "--load", options.load.as_slice())?;
    let save = resource_files(rt, "--save", options.save.as_slice())?;
    let journal = path_of(rt, options.journal)?;
    Ok(Asked {
        meta: String::from_str(rt.alloc(), options.meta)?,
        script,
        load,
        save,
        dress: options.dress,
        strict: options.strict,
        live: options.live,
        journal,
        explain: options.explain,
        names_files: options.explain || rt.stderr().is_terminal(),
    })
}

/// What the program has to do, as the words of a command line say. The texts are copied out of the words.
fn asked_of(rt: &HostRuntime, words: &[&str]) -> Result<Asked, Stop> {
    let options = match options_of(rt.alloc(), words) {
        Ok(options) => options,
        Err(error) => return Err(Stop::Arguments(error)),
    };
    match misuse_of(&options) {
        Some(misuse) => Err(Stop::Misuse(misuse)),
        None => copied(rt, &options),
    }
}

/// What the program has to do, as the arguments `args` say.
pub(crate) fn arguments_of(rt: &HostRuntime, args: &[String]) -> Result<Asked, Stop> {
    let mut words = Vec::new(rt.alloc());
    for word in args {
        if words.push(word.as_str()).is_err() {
            return Err(Stop::Run(RunFault::Memory));
        }
    }
    asked_of(rt, words.as_slice())
}
