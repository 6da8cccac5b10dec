//! The data with which a document is read.
use doc_parts::FoundParts;
use mm_meta::Meta;
use std::alloc::Global;

/// The data with which values are read: the metamodel, the URI of the document's resource, and the parts that were found in the document.
#[derive(Clone, Copy)]
pub(crate) struct ReadContext<'r, 't, 'm> {
    pub alloc: Global,
    pub meta: &'r Meta,
    pub uri: &'r str,
    pub found: &'r FoundParts<'t, 'm>,
}
