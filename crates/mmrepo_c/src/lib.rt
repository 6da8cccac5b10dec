//! mmrepo for C: a static library, whose functions `include/mmrepo.h` declares. A session over a metamodel answers the lines of a script,
//! one line in each call. docs/C.md has an example.
//!
//! A call that uses a session takes the `Box` of the session out of the handle, and puts the `Box` back unless the call closes the session.
//! So only `SessionPointer` and `Loose` work with raw pointers. All other code is safe, and is proved from the contracts of these two
//! types.
#![tactic(auto)]

ghost use Rattle.std.specs.Prelude.{◌≡◌, None};
ghost use Rattle.mmrepo_c.specs.Calls as c;

mod calls;
mod fill;
mod handle;
mod loose;
mod opening;
mod pointer;
mod session;
mod status;

use crate::calls::{node_of, put_back};
use crate::fill::fill;
use crate::opening::begun;
use crate::status::{BAD, CLOSED, MEMORY, OK, TOO_LONG, fault_status, line_status};
pub use handle::Handle;
use mm_types::ResourceNo;
use mm_types::limits::INPUT_BYTES;
pub use pointer::SessionPointer;
pub use session::Session;
use std::alloc::Global;
use std::str;

/// Opens a session: an empty repository over the metamodel of a document. A session that the handle had before is closed first, also if the
/// document is then refused. The adapters of the new session, A1 to A1000, count their notifications and keep none of them.
///
/// Returns `OK`; or a number from 1 to 12 for the first fault of the document; or `TOO_LONG` if the document has more than `INPUT_BYTES`
/// bytes; or `MEMORY` if memory is refused. The handle is closed if the status is not `OK`.
#[unsafe(no_mangle)]
pub extern "C" fn mmrepo_open(alloc: Global, handle: &mut Handle, document: &[u8]) -> u32
    ensures { c.Opens document.now result handle.new.pointer.held }
{
    drop(handle.take(alloc));
    if document.len() > INPUT_BYTES {
        return TOO_LONG;
    }
    match begun(alloc, document) {
        Ok(session) => {
            *handle = Handle::of(session);
            OK
        }
        Err(fault) => fault_status(fault),
    }
}

/// Runs a line of a script. The caller passes the line without the newline that ends it in a script. The text of the session becomes the
/// output of the line.
///
/// Returns how the line is counted: `OK` if its command was done, `BLANK` if the line is empty or has only spaces, `BAD` if the line is no
/// command, `REFUSED` if its command was refused, and `LOST` if the repository was refused memory for the command. After `REFUSED` or
/// `LOST` the repository is as it was. Returns `CLOSED` if the handle is closed, however long the line is. Returns `TOO_LONG` if the line
/// has more than `INPUT_BYTES` bytes: the session is as it was. Returns `MEMORY` if memory is refused to the call itself, and not to the
/// command: the session is closed.
#[unsafe(no_mangle)]
pub extern "C" fn mmrepo_line(alloc: Global, handle: &mut Handle, line: &[u8]) -> u32
    ensures { c.Answers handle.old.pointer.held line.now result handle.new.pointer.held }
{
    if handle.is_open() && line.len() > INPUT_BYTES {
        return TOO_LONG;
    }
    let Some(mut session) = handle.take(alloc) else {
        return CLOSED;
    };
    match session.answer(line) {
        Ok(turn) => {
            *handle = Handle::of(session);
            line_status(turn)
        }
        Err(_) => MEMORY,
    }
}

/// Reads how many values a list has. `number` is the number of a resource if `is_resource` is true, else the number of an object. `feature`
/// is the name of the feature whose values are the list; a resource has only the list `contents`. If the status is `OK`, the text of the
/// session becomes the count.
///
/// Returns `OK` if the node has the list. Returns `REFUSED` if there is no node with this number, or if the node has no list with this
/// name; after `REFUSED` the text of the session is the refusal. Returns `CLOSED` if the handle is closed. Returns `BAD` if the name is not
/// UTF-8: the session is as it was. Returns `MEMORY` if memory is refused for the text: the session is closed.
#[unsafe(no_mangle)]
pub extern "C" fn mmrepo_list_length(
    alloc: Global,
    handle: &mut Handle,
    is_resource: bool,
    number: u32,
    feature: &[u8],
) -> u32
    ensures { c.ReadsList handle.old.pointer.held feature.now (c.asked_len (c.node_of is_resource number) feature.now) result handle.new.pointer.held }
{
    let Some(mut session) = handle.take(alloc) else {
        return CLOSED;
    };
    let Ok(name) = str::from_utf8(feature) else {
        *handle = Handle::of(session);
        return BAD;
    };
    let outcome = session.list_len(node_of(is_resource, number), name);
    put_back(handle, session, outcome)
}

/// Reads the value at an index of a list; the first index is 0. `is_resource`, `number` and `feature` name the list, as in
/// `mmrepo_list_length`. If the status is `OK`, the text of the session becomes the value.
///
/// Returns `OK`; or `REFUSED` if there is no such list, or if the index is past the last value. After `REFUSED` the text of the session is
/// the refusal, which is `INDEX` if the index is past the last value. Returns `CLOSED` if the handle is closed. Returns `BAD` if the name
/// is not UTF-8: the session is as it was. Returns `MEMORY` if memory is refused for the text: the session is closed.
#[unsafe(no_mangle)]
pub extern "C" fn mmrepo_list_value(
    alloc: Global,
    handle: &mut Handle,
    is_resource: bool,
    number: u32,
    feature: &[u8],
    index: u32,
) -> u32
    ensures { c.ReadsList handle.old.pointer.held feature.now (c.asked_value (c.node_of is_resource number) feature.now index) result handle.new.pointer.held }
{
    let Some(mut session) = handle.take(alloc) else {
        return CLOSED;
    };
    let Ok(name) = str::from_utf8(feature) else {
        *handle = Handle::of(session);
        return BAD;
    };
    let outcome = session.list_value(node_of(is_resource, number), name, index);
    put_back(handle, session, outcome)
}

/// Loads a document into the resource with the number `resource`, as the line `load` does. Unlike a line of a script, the document may have
/// any length, and may have newlines. The text of the session becomes the output of the load.
///
/// Returns `OK` if the document was loaded, `REFUSED` if the load was refused, and `LOST` if the repository was refused memory. After
/// `REFUSED` or `LOST` the repository is as it was. Returns `CLOSED` if the handle is closed. Returns `MEMORY` if memory is refused to the
/// call itself, and not to the repository: the session is closed.
#[unsafe(no_mangle)]
pub extern "C" fn mmrepo_load(
    alloc: Global,
    handle: &mut Handle,
    resource: u32,
    document: &[u8],
) -> u32
    ensures { c.Loads handle.old.pointer.held (c.resource_of resource) document.now result handle.new.pointer.held }
{
    let Some(mut session) = handle.take(alloc) else {
        return CLOSED;
    };
    let outcome = session.load(ResourceNo(resource), document);
    put_back(handle, session, outcome)
}

/// Copies the text of the session, or as much of the text as the buffer can hold. The text is what the last line, read or load printed.
/// Returns how many bytes the whole text has: 0 if no line, read or load was run yet, if the last of them was a blank line, and if the
/// handle is closed.
#[unsafe(no_mangle)]
pub extern "C" fn mmrepo_text(alloc: Global, handle: &mut Handle, out: &mut [u8]) -> usize
    ensures { c.Copies handle.old.pointer.held out.old result out.new handle.new.pointer.held }
{
    let Some(session) = handle.take(alloc) else {
        return 0;
    };
    let count = fill(out, session.text());
    *handle = Handle::of(session);
    count
}

/// Closes a session, and frees all that it has. A handle that is closed stays closed.
#[unsafe(no_mangle)]
pub extern "C" fn mmrepo_close(alloc: Global, handle: &mut Handle)
    ensures { handle.new.pointer.held ≡ None }
{
    drop(handle.take(alloc));
}
