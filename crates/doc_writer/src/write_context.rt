//! The data from which a document is written.
use fragment_paths::Positions;
use links::LinkStore;
use mm_types::ResourceNo;
use std::alloc::Global;

/// The data from which values are written: the allocator, the model with positions that were noted, and the resource whose document is
/// written.
#[derive(Drop)]
pub(crate) struct WriteContext<'r, 'm, 'a, L: LinkStore> {
    pub alloc: Global,
    pub positions: &'r Positions<'m, 'a, L>,
    pub resource: ResourceNo,
}
