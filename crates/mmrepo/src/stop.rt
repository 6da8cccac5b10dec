//! Why the program stops, the message that it then writes, and its exit status.
use crate::misuse::Misuse;
use clap::error::ErrorKind;
use command_line::usage_of;
use mm_types::{MetaFault, Refused};
use script_streams::RunFault;
use std::alloc::{AllocError, AllocFailed};
use std::fmt;

/// Why a journal is refused, and left as it is.
#[derive(Clone, Copy)]
pub(crate) enum JournalRefusal {
    /// Another process has the journal open.
    InUse,
    /// The file is no journal.
    NoJournal,
    /// The journal was begun with a metamodel document that differs from the present one in at least one byte.
    OtherMetamodel,
    /// The line of this number was refused or bad when it was run again, or it is not of a kind that a journal keeps. The head is line 1.
    Line(u64),
}

impl fmt::Display for JournalRefusal {
    fn fmt<W: fmt::Write>(&self, f: &mut fmt::Formatter<W>) -> fmt::Result {
        match self {
            JournalRefusal::InUse => f.write_str("IN_USE"),
            JournalRefusal::NoJournal => f.write_str("NO_JOURNAL"),
            JournalRefusal::OtherMetamodel => f.write_str("OTHER_METAMODEL"),
            JournalRefusal::Line(line) => write!(f, "LINE {line}"),
        }
    }
}

/// Why the program stops before it has done all that its options say.
#[derive(Drop)]
pub(crate) enum Stop {
    /// The words are not valid arguments of the program, or they ask for the help or the version, or memory was refused for the arguments.
    Arguments(clap::Error),
    /// An argument is not UTF-8.
    NotUtf8,
    /// Options can't be used together, an option lacks an option that it needs, or the value of an option is not of the form URI=FILE.
    Misuse(Misuse),
    /// The metamodel is refused.
    Metamodel(MetaFault),
    /// The journal is refused.
    Journal(JournalRefusal),
    /// A stream, a file or the journal failed, an input is too long, or memory was refused.
    Run(RunFault),
    /// The metamodel is refused, and a text says what to fix.
    Mend(MetaFault, String),
    /// The journal is refused, and a text says why.
    ExplainedJournal(JournalRefusal, String),
    /// A file or the journal is not opened, read or written, and a text names the file, with the reason if the program knows it.
    Explained(RunFault, String),
    /// The resource of a file is not loaded or not saved: the path of the file, the refusal, and a text that says why or is empty.
    Resource(String, Refused, String),
}

impl From<AllocError> for Stop {
    fn from(_error: AllocError) -> Stop {
        Stop::Run(RunFault::Memory)
    }
}

impl<T: Drop> From<AllocFailed<T>> for Stop {
    fn from(_error: AllocFailed<T>) -> Stop {
        Stop::Run(RunFault::Memory)
    }
}

impl From<RunFault> for Stop {
    fn from(fault: RunFault) -> Stop {
        Stop::Run(fault)
    }
}

impl From<MetaFault> for Stop {
    fn from(fault: MetaFault) -> Stop {
        match fault {
            MetaFault::Memory => Stop::Run(RunFault::Memory),
            _ => Stop::Metamodel(fault),
        }
    }
}

fn report_arguments(rt: &HostRuntime, error: clap::Error) -> u8 {
    if matches!(error.kind(), ErrorKind::OutOfMemory) {
        return report_run(rt, RunFault::Memory);
    }
    let is_help = !error.use_stderr();
    let _ = error.print(rt);
    if is_help { 0 } else { 2 }
}

fn report_not_utf8(rt: &HostRuntime) -> u8 {
    let _ = eprintln!(rt; "error: an argument is not UTF-8");
    2
}

fn report_misuse(rt: &HostRuntime, misuse: Misuse) -> u8 {
    let _ = eprintln!(rt; "error: {misuse}");
    if let Ok(usage) = usage_of(rt.alloc()) {
        let _ = eprintln!(rt; "\n{usage}\n\nFor more information, try '--help'.");
    }
    2
}

fn report_journal(rt: &HostRuntime, refusal: JournalRefusal) -> u8 {
    let _ = eprintln!(rt; "journal refused: {refusal}");
    1
}

fn report_metamodel(rt: &HostRuntime, fault: MetaFault) -> u8 {
    let _ = eprintln!(rt; "metamodel refused: {fault}");
    1
}

fn report_run(rt: &HostRuntime, fault: RunFault) -> u8 {
    let _ = eprintln!(rt; "run stopped: {fault}");
    3
}

fn report_resource(rt: &HostRuntime, file: &str, refused: Refused) -> u8 {
    let _ = eprintln!(rt; "{file}: refused {refused}");
    5
}

/// Writes the text of an explanation to standard error, and returns the exit status `status`.
fn explain(rt: &HostRuntime, status: u8, text: &str) -> u8 {
    let _ = eprint!(rt; "{text}");
    status
}

/// Says on standard error why the program stops, and returns the exit status of the program. Only the texts of `--help` and `--version` are
/// written to standard output; their exit status is 0.
pub(crate) fn report(rt: &HostRuntime, stop: Stop) -> u8 {
    match stop {
        Stop::Arguments(error) => report_arguments(rt, error),
        Stop::NotUtf8 => report_not_utf8(rt),
        Stop::Misuse(misuse) => report_misuse(rt, misuse),
        Stop::Metamodel(fault) => report_metamodel(rt, fault),
        Stop::Journal(refusal) => report_journal(rt, refusal),
        Stop::Run(fault) => report_run(rt, fault),
        Stop::Mend(fault, text) => explain(rt, report_metamodel(rt, fault), text.as_str()),
        Stop::ExplainedJournal(refusal, text) => {
            explain(rt, report_journal(rt, refusal), text.as_str())
        }
        Stop::Explained(fault, text) => explain(rt, report_run(rt, fault), text.as_str()),
        Stop::Resource(file, refused, text) => {
            explain(
                rt,
                report_resource(rt, file.as_str(), refused),
                text.as_str(),
            )
        }
    }
}
