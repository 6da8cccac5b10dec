//! Refusals, causes and faults as they are printed.
use mm_types::{Condition, DocFault, MetaFault, Place, Refused};
use std::alloc::{AllocError, Global};
use std::process::Abort;
use std::test::Fail;

const FIRST_REFUSALS: [(Refused, &str); 14] = [
    (Refused::NoObject, "1 NO_OBJECT"),
    (Refused::NoResource, "2 NO_RESOURCE"),
    (Refused::NoClass, "3 NO_CLASS"),
    (Refused::Abstract, "4 ABSTRACT"),
    (Refused::NoFeature, "5 NO_FEATURE"),
    (Refused::NotSingle, "6 NOT_SINGLE"),
    (Refused::NotMany, "7 NOT_MANY"),
    (Refused::WrongType, "8 TYPE"),
    (Refused::TextLength, "9 TEXT_LENGTH"),
    (Refused::Index, "10 INDEX"),
    (Refused::Duplicate, "11 DUPLICATE"),
    (Refused::Bound, "12 BOUND"),
    (Refused::Recursive, "13 RECURSIVE"),
    (Refused::Limit, "14 LIMIT"),
];

const LAST_REFUSALS: [(Refused, &str); 14] = [
    (Refused::BadUri, "15 BAD_URI"),
    (Refused::ResourceExists, "16 RESOURCE_EXISTS"),
    (Refused::NotEmpty, "17 NOT_EMPTY"),
    (
        Refused::Document(DocFault::OneSided),
        "18 DOCUMENT 10 ONE_SIDED",
    ),
    (Refused::Dangling, "19 DANGLING"),
    (Refused::TooDeep, "21 TOO_DEEP"),
    (Refused::NotProxy, "22 NOT_PROXY"),
    (Refused::Unloaded, "23 UNLOADED"),
    (Refused::Unresolved, "24 UNRESOLVED"),
    (Refused::NoAdapter, "25 NO_ADAPTER"),
    (Refused::AdapterTaken, "26 ADAPTER_TAKEN"),
    (Refused::AdapterFull, "27 ADAPTER_FULL"),
    (Refused::Memory, "28 MEMORY"),
    (Refused::Unmatched, "29 UNMATCHED"),
];

const CAUSES: [(DocFault, &str); 12] = [
    (DocFault::Syntax, "1 SYNTAX"),
    (DocFault::Layout, "2 LAYOUT"),
    (DocFault::Format, "3 FORMAT"),
    (DocFault::Class, "4 CLASS"),
    (DocFault::Feature, "5 FEATURE"),
    (DocFault::Value, "6 VALUE"),
    (DocFault::Reference, "7 REFERENCE"),
    (DocFault::Duplicate, "8 DUPLICATE"),
    (DocFault::Bound, "9 BOUND"),
    (DocFault::OneSided, "10 ONE_SIDED"),
    (DocFault::Cross, "11 CROSS"),
    (DocFault::Depth, "12 DEPTH"),
];

const FAULTS: [(MetaFault, &str); 13] = [
    (MetaFault::Syntax, "1 SYNTAX"),
    (MetaFault::Layout, "2 LAYOUT"),
    (MetaFault::Limit, "3 LIMIT"),
    (
        MetaFault::IllFormed(Condition::Name, Place::Enum(2)),
        "4 NAME enum 2",
    ),
    (
        MetaFault::IllFormed(Condition::DuplicateName, Place::Enum(10)),
        "5 DUPLICATE_NAME enum 10",
    ),
    (
        MetaFault::IllFormed(Condition::NoType, Place::Feature(3, 0)),
        "6 NO_TYPE class 3 feature 0",
    ),
    (
        MetaFault::IllFormed(Condition::Cycle, Place::Class(0)),
        "7 CYCLE class 0",
    ),
    (
        MetaFault::IllFormed(Condition::Bounds, Place::Feature(0, 2)),
        "8 BOUNDS class 0 feature 2",
    ),
    (
        MetaFault::IllFormed(Condition::Opposite, Place::Feature(1, 0)),
        "9 OPPOSITE class 1 feature 0",
    ),
    (
        MetaFault::IllFormed(Condition::BothContain, Place::Feature(0, 0)),
        "10 BOTH_CONTAIN class 0 feature 0",
    ),
    (
        MetaFault::IllFormed(Condition::ContainerBound, Place::Feature(4, 5)),
        "11 CONTAINER_BOUND class 4 feature 5",
    ),
    (
        MetaFault::IllFormed(Condition::Default, Place::Feature(0, 1)),
        "12 DEFAULT class 0 feature 1",
    ),
    (MetaFault::Memory, "MEMORY"),
];

/// Whether a refusal is printed as `text`, and `text` begins with the number and the name of the refusal.
fn is_refusal(alloc: Global, refused: Refused, text: &str) -> Result<bool, AllocError> {
    let printed = format!(in alloc; "{refused}")?;
    let begins = format!(in alloc; "{} {}", refused.number(), refused.name())?;
    Ok(printed.as_str() == text && text.starts_with(begins.as_str()))
}

fn check_refusals(rt: &impl Abort, alloc: Global, cases: &[(Refused, &str)]) -> Result<(), Fail> {
    for (refused, text) in cases {
        assert!(rt; is_refusal(alloc, *refused, *text)?, "at {text}");
    }
    Ok(())
}

#[test]
fn refusals_are_printed(rt: HostRuntime) -> Result<(), Fail> {
    check_refusals(&rt, rt.alloc(), FIRST_REFUSALS.as_slice())?;
    check_refusals(&rt, rt.alloc(), LAST_REFUSALS.as_slice())
}

/// Whether a cause is printed as `text`, and `text` is the number and the name of the cause.
fn is_cause(alloc: Global, cause: DocFault, text: &str) -> Result<bool, AllocError> {
    let printed = format!(in alloc; "{cause}")?;
    let parts = format!(in alloc; "{} {}", cause.number(), cause.name())?;
    Ok(printed.as_str() == text && parts.as_str() == text)
}

#[test]
fn causes_are_printed(rt: HostRuntime) -> Result<(), Fail> {
    for (cause, text) in &CAUSES {
        assert!(rt; is_cause(rt.alloc(), *cause, *text)?, "at {text}");
    }
    Ok(())
}

/// A text of the number, the name and the place of a fault, as far as the fault has them. The text is made from these parts, and not by
/// printing the fault.
fn by_parts(alloc: Global, fault: MetaFault) -> Result<String, AllocError> {
    let name = fault.name();
    match (fault.number(), fault) {
        (Some(number), MetaFault::IllFormed(_, at)) => { format!(in alloc; "{number} {name} {at}") }
        (Some(number), _) => format!(in alloc; "{number} {name}"),
        (None, _) => String::from_str(alloc, name),
    }
}

/// Whether a fault is printed as `text`, and `text` is the number, the name and the place of the fault, as far as the fault has them.
fn is_fault(alloc: Global, fault: MetaFault, text: &str) -> Result<bool, AllocError> {
    let printed = format!(in alloc; "{fault}")?;
    let parts = by_parts(alloc, fault)?;
    Ok(printed.as_str() == text && parts.as_str() == text)
}

/// Whether a fault with a condition has the number and the name of the condition; true for a fault without a condition.
fn is_of_its_condition(fault: MetaFault) -> bool {
    match fault {
        MetaFault::IllFormed(condition, _) => {
            fault.number() == Some(condition.number()) && fault.name() == condition.name()
        }
        _ => true,
    }
}

#[test]
fn faults_are_printed(rt: HostRuntime) -> Result<(), Fail> {
    for (fault, text) in &FAULTS {
        assert!(rt; is_fault(rt.alloc(), *fault, *text)?, "at {text}");
        assert!(rt; is_of_its_condition(*fault), "at {text}");
    }
    Ok(())
}
