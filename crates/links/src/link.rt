//! Links, and proxies, which are links that are not resolved.
use mm_types::{End, FeatureNo, ObjectNo, Text};

/// The far side of a link. The near side is the end `Link::end`.
#[derive(Debug, Drop)]
pub enum Far {
    /// The opposite end, and the position of the link in the opposite end.
    At(End, u32),
    /// An object, if the feature has no opposite.
    Alone(ObjectNo),
    /// The text of a proxy.
    Proxy(Text),
}

/// A link or a proxy: its near end, its position in the near end, and its far side (MOF 2.5.1: Link).
#[derive(Debug, Drop)]
pub struct Link {
    pub end: End,
    pub index: u32,
    pub far: Far,
    /// The containing feature: the end's feature or its opposite, if one of the two is a containment.
    pub container: Option<FeatureNo>,
}

/// A link that an edit puts into a set of links (`Edit::Put`). In the opposite end, if there is one, the link gets the last position.
#[derive(Clone, Copy, Debug)]
pub struct NewLink {
    pub end: End,
    /// The position of the object in the end.
    pub index: u32,
    pub object: ObjectNo,
    /// The opposite of the end's feature, if it has one.
    pub opposite: Option<FeatureNo>,
    /// The containing feature: the end's feature or its opposite, if one of the two is a containment.
    pub container: Option<FeatureNo>,
}
