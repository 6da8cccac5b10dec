//! What resolving a proxy finds.
use mm_types::{End, ObjectNo};

/// The target of a proxy: the object at the proxy's address, and the counterpart of the proxy, if it has one. The counterpart is the proxy
/// of the same link at the opposite end.
#[derive(Clone, Copy)]
pub struct ResolvedProxy {
    pub object: ObjectNo,
    pub counterpart: Option<Counterpart>,
}

/// A proxy at the opposite end of a link: the end, and the index at which the proxy is.
#[derive(Clone, Copy)]
pub struct Counterpart {
    pub end: End,
    pub index: u32,
}
