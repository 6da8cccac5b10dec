//! Reads and checks the metamodel.
use crate::asked::Asked;
use crate::explained::{explained_fault, explained_open, explained_read};
use crate::stop::Stop;
use mm_check::check_document;
use mm_meta::Meta;
use script_streams::read_all;
use std::fs;

/// The bytes of the file of the metamodel.
pub(crate) fn read_meta(rt: &HostRuntime, asked: &Asked) -> Result<Vec<u8>, Stop> {
    let path = asked.meta.as_str();
    let mut file = match fs::open(rt, path) {
        Ok(file) => file,
        Err(error) => return Err(explained_open(rt, asked.names_files, path, error)),
    };
    match read_all(rt.alloc(), &mut file) {
        Ok(bytes) => Ok(bytes),
        Err(fault) => Err(explained_read(rt, asked.names_files, path, fault)),
    }
}

/// Checks the document of a metamodel, and returns the metamodel.
pub(crate) fn load(rt: &HostRuntime, asked: &Asked, bytes: &[u8]) -> Result<Box<Meta>, Stop> {
    match check_document(rt.alloc(), bytes) {
        Ok(meta) => Ok(Box::new(rt.alloc(), meta)?),
        Err(fault) => Err(explained_fault(rt, asked.explain, bytes, fault)),
    }
}
