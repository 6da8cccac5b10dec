//! The positions that an object has in ends.
use mm_types::{FeatureNo, Node};

/// One position of an object: the object is at `position` in the end of `node` under `feature`.
#[derive(Clone, Copy)]
pub struct Incoming {
    pub feature: FeatureNo,
    pub node: Node,
    /// The position, from 0.
    pub position: u32,
}
