//! What a case gives.
ghost use Rattle.std.specs.Prelude.{◌≤◌};
ghost use Rattle.mm_types.specs.declared.limits.TheConstants.{WINDOW_NOTICES};

use adapters::{Adapter, Counter, Recorder, Window};
use link_store::{LinkStore, SlotStore};
use mm_check::check_document;
use mm_meta::Meta;
use mm_types::MetaFault;
use script_program::run;
use std::alloc::{AllocError, Global};
use std::io::Write;

/// How many notifications the adapter A8 can count in a script, the notification of REMOVING_ADAPTER included.
const LEFT: u64 = 2;

fn line(alloc: Global, fault: MetaFault) -> Result<Vec<u8>, AllocError> {
    let line = format!(in alloc; "{fault}\n")?;
    Vec::from_slice(alloc, line.as_bytes())
}

/// What a script prints, and then the fault that stopped the script, if a fault stopped it.
fn printed<L: LinkStore, A: Adapter>(
    alloc: Global,
    meta: Meta,
    boxes: Vec<A>,
    script: &[u8],
) -> Result<Vec<u8>, AllocError> {
    let mut reader = script;
    let mut found = Vec::new(alloc);
    let outcome = run::<_, _, L, _>(alloc, &mut reader, &mut found, meta, boxes);
    match outcome {
        Err(fault) if writeln!(found, "stopped: {fault}").is_err() => Err(AllocError),
        _ => Ok(found),
    }
}

/// The outcome of a script that can attach the adapters `boxes`. If the metamodel has a fault, the outcome is this fault. Otherwise it is
/// what the script prints, and then the fault that stopped the script, if a fault stopped it.
fn given<L: LinkStore, A: Adapter>(
    alloc: Global,
    metamodel: &[u8],
    boxes: Vec<A>,
    script: &[u8],
) -> Result<Vec<u8>, AllocError> {
    match check_document(alloc, metamodel) {
        Err(fault) => line(alloc, fault),
        Ok(meta) => printed::<L, A>(alloc, meta, boxes, script),
    }
}

/// An adapter that keeps every notification.
fn recorder(alloc: Global) -> Result<Box<Recorder>, AllocError> {
    Ok(Box::new(alloc, Recorder::new(alloc))?)
}

/// An adapter that keeps the last `room` notifications.
fn window(alloc: Global, room: u64) -> Result<Box<Window>, AllocError>
    requires some { 1 ≤ room }
    requires within { room ≤ WINDOW_NOTICES }
{
    Ok(Box::new(alloc, Window::new(alloc, room)?)?)
}

/// An adapter that counts its notifications and keeps none; its count begins at `told`.
fn counter(alloc: Global, told: u64) -> Result<Box<Counter>, AllocError> {
    Ok(Box::new(alloc, Counter::starting_at(told))?)
}

/// The outcome of a script that runs over a store of the type `L`, with adapters of the same kinds as A1 to A8 of the program. If the
/// metamodel has a fault, the outcome is this fault. Otherwise it is what the script prints, and then the fault that stopped the script, if
/// a fault stopped it.
pub(crate) fn script_outcome<L: LinkStore>(
    alloc: Global,
    metamodel: &[u8],
    script: &[u8],
) -> Result<Vec<u8>, AllocError> {
    let mut boxes: Vec<Box<dyn Adapter>> = Vec::new(alloc);
    for no in 1..=8 {
        let adapter: Box<dyn Adapter> = match no {
            1..=4 => recorder(alloc)?,
            5 => window(alloc, 2)?,
            6 => window(alloc, 100)?,
            7 => counter(alloc, 0)?,
            _ => counter(alloc, u64::MAX - LEFT)?,
        };
        boxes.push(adapter)?;
    }
    given::<L, _>(alloc, metamodel, boxes, script)
}

/// What a metamodel gives: its fault, or `accepted`. The metamodel is accepted if a script without lines has an empty outcome over it.
pub(crate) fn document_outcome(alloc: Global, metamodel: &[u8]) -> Result<Vec<u8>, AllocError> {
    let given = script_outcome::<SlotStore>(alloc, metamodel, b"")?;
    if given.is_empty() {
        return Vec::from_slice(alloc, b"accepted\n".as_slice());
    }
    Ok(given)
}
