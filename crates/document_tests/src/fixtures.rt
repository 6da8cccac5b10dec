//! Metamodels, documents, and short texts that show what a document is read as.
pub(crate) mod library;
pub(crate) mod resource;
