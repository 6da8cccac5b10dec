//! One attached adapter.
use adapters::Adapter;
use mm_types::AdapterNo;
use notice_chain::Target;
use std::collections::VecDeque;

/// An adapter with its number and its targets.
#[derive(Drop)]
pub struct Attached<A = Box<dyn Adapter>> {
    /// The number under which the adapter is attached.
    pub no: AdapterNo,
    /// The targets of the adapter: the nodes to which it is attached. No target comes twice, and the targets have the order in which the
    /// adapter got them. They are in a ring buffer, since a deletion may take many targets out, one after another in this order: the target
    /// to take out is then the first in the buffer, or comes just after targets that stay.
    pub targets: VecDeque<Target>,
    /// The adapter itself.
    pub adapter: A,
}
