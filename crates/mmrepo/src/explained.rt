//! What the program adds to the report of why it stops. With `--explain` it adds an explanation of the fault. If standard error is a
//! terminal, then even without `--explain` it adds a text about a file that can't be opened, read or written.
use crate::asked::Asked;
use crate::stop::{JournalRefusal, Stop};
use durable::JournalFault;
use explain::explain_meta;
use file_disk::OpenFault;
use mm_types::MetaFault;
use mm_types::limits::INPUT_BYTES;
use script_streams::RunFault;
use std::io;

/// Why the program stops if a call of the system fails for the file at `path`. If `explain` is set, the result has a text with the path and
/// the reason that the system gives. If memory is refused for this text, the fault is `Memory`.
fn failed(rt: &HostRuntime, explain: bool, path: &str, fault: RunFault, error: io::Error) -> Stop {
    if !explain {
        return Stop::Run(fault);
    }
    match format!(in rt.alloc(); "{path}: {error}\n") {
        Ok(text) => Stop::Explained(fault, text),
        Err(_) => Stop::Run(RunFault::Memory),
    }
}

/// Why the program stops if a file is not opened.
pub(crate) fn explained_open(
    rt: &HostRuntime,
    explain: bool,
    path: &str,
    error: io::Error,
) -> Stop {
    failed(rt, explain, path, RunFault::Read, error)
}

/// Why the program stops if a file is not written.
pub(crate) fn explained_write(
    rt: &HostRuntime,
    explain: bool,
    path: &str,
    error: io::Error,
) -> Stop {
    if error.kind() == io::ErrorKind::OutOfMemory {
        return Stop::Run(RunFault::Memory);
    }
    failed(rt, explain, path, RunFault::Write, error)
}

/// Why the program stops if an open file is not read to its end.
pub(crate) fn explained_read(rt: &HostRuntime, explain: bool, path: &str, fault: RunFault) -> Stop {
    if !explain {
        return Stop::Run(fault);
    }
    let text = match fault {
        RunFault::TooLong => format!(in rt.alloc();
            "{path}: it has more than {INPUT_BYTES} bytes\n"
        ),
        _ => format!(in rt.alloc(); "{path}: it can't be read\n"),
    };
    match text {
        Ok(text) => Stop::Explained(fault, text),
        Err(_) => Stop::Run(RunFault::Memory),
    }
}

/// Why the program stops if the run of a script stops with the fault `fault`, and the script is read from the file at `path`.
pub(crate) fn explained_run(rt: &HostRuntime, explain: bool, path: &str, fault: RunFault) -> Stop {
    match fault {
        RunFault::Read | RunFault::TooLong => explained_read(rt, explain, path, fault),
        _ => Stop::Run(fault),
    }
}

/// Why the program stops for a metamodel that is refused.
pub(crate) fn explained_fault(
    rt: &HostRuntime,
    explain: bool,
    bytes: &[u8],
    fault: MetaFault,
) -> Stop {
    if !explain || fault == MetaFault::Memory {
        return Stop::from(fault);
    }
    match explain_meta(rt.alloc(), bytes, fault) {
        Ok(text) => Stop::Mend(fault, text),
        Err(_) => Stop::Run(RunFault::Memory),
    }
}

/// Why the program stops for a journal that is refused. If `--explain` is given, the result has the explanation. If memory is refused for
/// the explanation, the fault is `Memory`.
fn refused(rt: &HostRuntime, asked: &Asked, path: &str, refusal: JournalRefusal) -> Stop {
    if !asked.explain {
        return Stop::Journal(refusal);
    }
    let text = match refusal {
        JournalRefusal::InUse => { format!(in rt.alloc(); "{path}: another process has it open\n") }
        JournalRefusal::NoJournal => format!(in rt.alloc();
            "{path}: it is no journal, and is left as it is: name a new file\n"
        ),
        JournalRefusal::OtherMetamodel => format!(in rt.alloc();
            "{path}: it was begun with another metamodel than {}: its first line has the SHA-256 of that file\n",
            asked.meta
        ),
        JournalRefusal::Line(line) => format!(in rt.alloc();
            "{path}: line {line} is not done when it is run again, so the program did not write it\n"
        ),
    };
    match text {
        Ok(text) => Stop::ExplainedJournal(refusal, text),
        Err(_) => Stop::Run(RunFault::Memory),
    }
}

/// Why the program stops if the file of a journal is not opened.
pub(crate) fn explained_lock(
    rt: &HostRuntime,
    asked: &Asked,
    path: &str,
    fault: OpenFault,
) -> Stop {
    match fault {
        OpenFault::InUse => refused(rt, asked, path, JournalRefusal::InUse),
        OpenFault::Io(error) if error.kind() == io::ErrorKind::OutOfMemory => {
            Stop::Run(RunFault::Memory)
        }
        OpenFault::Io(error) => failed(rt, asked.names_files, path, RunFault::Journal, error),
    }
}

/// Why the program stops if a journal is not opened, or if its lines can't be run again.
pub(crate) fn explained_journal(
    rt: &HostRuntime,
    asked: &Asked,
    path: &str,
    fault: JournalFault,
) -> Stop {
    let refusal = match fault {
        JournalFault::Memory => return Stop::Run(RunFault::Memory),
        JournalFault::Failed => {
            return explained_disk(rt, asked.names_files, path, Stop::Run(RunFault::Journal));
        }
        JournalFault::NoJournal => JournalRefusal::NoJournal,
        JournalFault::OtherMetamodel => JournalRefusal::OtherMetamodel,
        JournalFault::Line(line) => JournalRefusal::Line(line),
    };
    refused(rt, asked, path, refusal)
}

/// Why the program stops if a run that keeps its changes in a journal stops for the reason `stop`. If `explain` is set and `stop` is
/// `Stop::Run` with the fault `Journal`, the result has a text with the path; otherwise the result is `stop`. If memory is refused for this
/// text, the fault is `Memory`.
pub(crate) fn explained_disk(rt: &HostRuntime, explain: bool, path: &str, stop: Stop) -> Stop {
    match stop {
        Stop::Run(RunFault::Journal) if explain => {
            match format!(in rt.alloc(); "{path}: it can't be written\n") {
                Ok(text) => Stop::Explained(RunFault::Journal, text),
                Err(_) => Stop::Run(RunFault::Memory),
            }
        }
        stop => stop,
    }
}
