//! What a form asks for.
use mm_types::{AdapterNo, Refused};
use repository::Command;

/// The request of a form, after its names were looked up.
#[derive(Drop)]
pub(crate) enum Request<A> {
    /// A command of the repository.
    Execute(Command<A>),
    /// The question how often an attached adapter was notified, and how many notifications it keeps.
    Seen(AdapterNo),
    /// The adapter that is to be attached is not in the pool, so the repository is not called. The value is the refusal.
    Refuse(Refused),
}
