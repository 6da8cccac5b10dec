//! What the answer to a line of a script says.
use mm_types::integers::natural_of;
use mm_types::{DocFault, Refused};
use std::str;

/// What the answer to a line of a script says.
#[derive(Drop)]
pub(crate) enum Printed {
    /// The answer of a bad line.
    Bad,
    /// Why the command was refused.
    Refused(Refused),
    /// A resource by its number.
    Resource(u32),
    /// An object by its number.
    Object(u32),
    /// How many objects a load made.
    Loaded(u32),
    /// Any other answer, or no answer.
    Other,
}

/// The causes for which a document is refused.
const CAUSES: [DocFault; 12] = [
    DocFault::Syntax,
    DocFault::Layout,
    DocFault::Format,
    DocFault::Class,
    DocFault::Feature,
    DocFault::Value,
    DocFault::Reference,
    DocFault::Duplicate,
    DocFault::Bound,
    DocFault::OneSided,
    DocFault::Cross,
    DocFault::Depth,
];

/// All refusals but `Document`.
const REFUSALS: [Refused; 27] = [
    Refused::NoObject,
    Refused::NoResource,
    Refused::NoClass,
    Refused::Abstract,
    Refused::NoFeature,
    Refused::NotSingle,
    Refused::NotMany,
    Refused::WrongType,
    Refused::TextLength,
    Refused::Index,
    Refused::Duplicate,
    Refused::Bound,
    Refused::Recursive,
    Refused::Limit,
    Refused::BadUri,
    Refused::ResourceExists,
    Refused::NotEmpty,
    Refused::Dangling,
    Refused::TooDeep,
    Refused::NotProxy,
    Refused::Unloaded,
    Refused::Unresolved,
    Refused::NoAdapter,
    Refused::AdapterTaken,
    Refused::AdapterFull,
    Refused::Memory,
    Refused::Unmatched,
];

/// The cause with the name `name`; `None` if no cause has it.
fn cause_named(name: &str) -> Option<DocFault> {
    for cause in CAUSES.iter() {
        if cause.name() == name {
            return Some(*cause);
        }
    }
    None
}

/// The refusal with the name `name`, if it is one of `REFUSALS`; otherwise `None`.
fn refusal_named(name: &str) -> Option<Refused> {
    for refused in REFUSALS.iter() {
        if refused.name() == name {
            return Some(*refused);
        }
    }
    None
}

/// The refusal in `words`, the words that come after `refused` in an answer, as `8 TYPE` or `18 DOCUMENT 4 CLASS`. The last word is the
/// name of the refusal or, if a document is refused, the name of the cause. `None` if `words` is one word, or if no refusal or no cause has
/// the name.
fn refusal_in(words: &str) -> Option<Refused> {
    let (front, name) = words.rsplit_once(' ')?;
    if front.starts_with("18 ") {
        Some(Refused::Document(cause_named(name)?))
    } else {
        refusal_named(name)
    }
}

/// What the answer `line` says, if it is `refused` and a refusal, or `loaded` and a number; `None` for any other answer.
fn worded(line: &str) -> Option<Printed> {
    let (word, rest) = line.split_once(' ')?;
    match word {
        "refused" => Some(Printed::Refused(refusal_in(rest)?)),
        "loaded" => Some(Printed::Loaded(natural_of(rest)?)),
        _ => None,
    }
}

/// What the answer `line` says, if it is the number of an object or of a resource, as `#0` or `r0`; `None` for any other answer.
fn marked(line: &str) -> Option<Printed> {
    if let Some(number) = line.strip_prefix('#') {
        return Some(Printed::Object(natural_of(number)?));
    }
    Some(Printed::Resource(natural_of(line.strip_prefix('r')?)?))
}

/// What the answer to a line of a script says; `text` is all that the line printed, and the answer is the first line of `text`.
pub(crate) fn printed_as(text: &[u8]) -> Printed {
    let Ok(text) = str::from_utf8(text) else {
        return Printed::Other;
    };
    let line = text.split('\n').next().unwrap_or("");
    if line == "bad line" {
        return Printed::Bad;
    }
    marked(line).or(worded(line)).unwrap_or(Printed::Other)
}
