//! The result of a call that takes one target from an adapter.

use notice_chain::Notice;

/// The result of taking one target from an adapter (EMF: `eAdapters().remove`).
#[derive(Drop)]
pub struct Detached<A> {
    /// The last notification that the adapter got from the target: REMOVING_ADAPTER.
    pub notice: Notice,
    /// The adapter, which is given back if it has no target left; `None` if it has other targets.
    pub adapter: Option<A>,
}
