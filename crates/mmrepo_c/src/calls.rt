//! Functions that several calls use.
ghost use Rattle.std.specs.Prelude.{◌≡◌, MatchResult, Some};
ghost use Rattle.mmrepo_c.specs.Calls as c;
ghost use Rattle.mmrepo_c.specs.Statuses as s;

use crate::handle::Handle;
use crate::session::Session;
use crate::status::{MEMORY, line_status};
use mm_types::{Node, ObjectNo, ResourceNo};
use script_answers::Turn;
use std::alloc::AllocError;

/// The resource with the number `number` if `is_resource` is true, else the object with this number.
pub(crate) fn node_of(is_resource: bool, number: u32) -> Node
    ensures { result ≡ c.node_of is_resource number }
{
    if is_resource {
        Node::Resource(ResourceNo(number))
    } else {
        Node::Object(ObjectNo(number))
    }
}

/// Puts a session back into its handle, from which a call took the session. Returns the status of the call. If memory was refused to the
/// call itself (`outcome` is an error), the session is dropped instead, and the handle stays as the call left it: closed.
pub(crate) fn put_back(
    handle: &mut Handle,
    session: Box<Session>,
    outcome: Result<Turn, AllocError>,
) -> u32
    ensures { MatchResult outcome (λ t. (result ≡ s.line_status t) × (handle.new.pointer.held ≡ Some session.value))
        (λ e. (result ≡ MEMORY) × (handle.new.pointer.held ≡ handle.old.pointer.held)) }
{
    match outcome {
        Ok(turn) => {
            *handle = Handle::of(session);
            line_status(turn)
        }
        Err(_) => MEMORY,
    }
}
