//! Options that can't be used together, options without an option that they need, and values that are not of the form URI=FILE.
use command_line::Options;
use std::fmt;

/// Why options that `clap` accepts are refused.
#[derive(Clone, Copy)]
pub(crate) enum Misuse {
    /// The first option can't be used with the second.
    Together(&'static str, &'static str),
    /// The first option can't be used without the second.
    Without(&'static str, &'static str),
    /// The value of an option is not of the form URI=FILE.
    NoFile(&'static str),
}

impl fmt::Display for Misuse {
    fn fmt<W: fmt::Write>(&self, f: &mut fmt::Formatter<W>) -> fmt::Result {
        match self {
            Misuse::Together(one, other) => write!(f, "{one} can't be used with {other}"),
            Misuse::Without(one, other) => write!(f, "{one} can't be used without {other}"),
            Misuse::NoFile(option) => write!(f, "{option} takes URI=FILE"),
        }
    }
}

/// The first rule on options that the given options break; `None` if they break no rule. The rules: a live run can have neither `--script`
/// nor output options, since it reads its lines from standard input and writes plain answers. A journal needs a live run. A run with a
/// journal can't load files, since a journal keeps only lines, and not the documents that `--load` loads.
pub(crate) fn misuse_of(options: &Options<'_>) -> Option<Misuse> {
    let is_live = options.live;
    let is_kept = options.journal.is_some();
    let rules = [
        (
            is_live && options.script.is_some(),
            Misuse::Together("--live", "--script"),
        ),
        (
            is_live && options.dress.echo,
            Misuse::Together("--live", "--echo"),
        ),
        (
            is_live && options.dress.number,
            Misuse::Together("--live", "--number"),
        ),
        (
            is_live && options.dress.stop,
            Misuse::Together("--live", "--stop"),
        ),
        (is_kept && !is_live, Misuse::Without("--journal", "--live")),
        (
            is_kept && !options.load.is_empty(),
            Misuse::Together("--load", "--journal"),
        ),
    ];
    for (is_broken, misuse) in rules {
        if is_broken {
            return Some(misuse);
        }
    }
    None
}
