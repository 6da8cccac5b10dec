//! The data from which a refusal is explained.
use adapters::Adapter;
use links::LinkStore;
use mm_types::{End, FeatureNo, Node};
use repository::Repository;
use std::alloc::{AllocError, Global};

/// The result of a function that writes an explanation: an error if memory is refused.
pub(crate) type Written = Result<(), AllocError>;

/// The data from which a refusal is explained, and the text with which the line of the explanation begins.
#[derive(Drop)]
pub(crate) struct Scene<'s, L: LinkStore, A: Adapter> {
    pub(crate) alloc: Global,
    /// The text with which the line of the explanation begins, as `line 12`.
    pub(crate) prefix: &'s str,
    pub(crate) repository: &'s Repository<L, A>,
    /// The URIs of the resources, in the order of the resources' numbers.
    pub(crate) uris: &'s [String],
    /// How many objects were made.
    pub(crate) objects: u64,
    /// The highest number of an adapter that a script can attach.
    pub(crate) adapters: u32,
}

impl<L: LinkStore, A: Adapter> Scene<'_, L, A> {
    /// The feature with a given name among all features of a node's class; for a resource the only feature is `contents`.
    pub(crate) fn feature(&self, node: Node, name: &str) -> Option<FeatureNo> {
        let meta = self.repository.meta();
        match node {
            Node::Object(object) => {
                let class = self.repository.e_class(object).ok()?;
                meta.feature_by_name(class, name)
            }
            Node::Resource(_) if name == "contents" => Some(meta.contents()),
            Node::Resource(_) => None,
        }
    }

    /// How many values the list at an end has; 0 if the end has no list.
    pub(crate) fn len(&self, end: End) -> u32 {
        self.repository.list_len(end.node, end.feature).unwrap_or(0)
    }
}
