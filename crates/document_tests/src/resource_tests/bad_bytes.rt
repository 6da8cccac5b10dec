//! Documents with a byte replaced are read, or refused with a cause; documents that are cut are refused with the cause SYNTAX.
use crate::fixtures::resource::{library, refusal};
use mm_meta::Meta;
use mm_types::{DocFault, Refused};
use std::alloc::{AllocError, Global};
use std::test::Fail;

const DOCUMENTS: [&str; 2] = [
    r##"{"format":1,"roots":[{"class":"Library","features":{"staff":["//@members.0"],"members":[{"class":"Person","features":{"job":"/","likes":["b#/","#/1"],"name":"\u00e9"}}]}},{"class":"Book","features":{"pages":7,"lent":false,"note":null}}]}"##,
    r#"{"format":1,"roots":[{"class":"Folder","features":{"friends":["//@subs.0"],"subs":[{"class":"Folder","features":{"friends_of":["/0"]}}]}}]}"#,
];

const BYTES: [u8; 14] = [
    0, 9, b' ', b'"', b'#', b'/', b'0', b'9', b':', b'\\', b'{', b']', 0xc3, 0xff,
];

fn is_answered(refusal: Option<Refused>) -> bool {
    match refusal {
        None | Some(Refused::Document(_)) => true,
        Some(_) => false,
    }
}

/// Replaces the byte at a position of a document by each of `BYTES` in turn. Returns whether each of the documents that result is read, or
/// refused with a cause.
fn are_answered(
    alloc: Global,
    meta: &Meta,
    document: &[u8],
    position: usize,
) -> Result<bool, AllocError> {
    let mut bytes = document.to_vec(alloc)?;
    for byte in &BYTES {
        if position < bytes.len() {
            bytes[position] = *byte;
        }
        if !is_answered(refusal(alloc, meta, bytes.as_slice())) {
            return Ok(false);
        }
    }
    Ok(true)
}

#[test]
fn replaced_bytes_are_answered(rt: HostRuntime) -> Result<(), Fail> {
    let meta = library(rt.alloc())?;
    for document in &DOCUMENTS {
        for i in 0..document.len() {
            assert!(rt;
                are_answered(rt.alloc(), &meta, document.as_bytes(), i)?,
                "at {i}"
            );
        }
    }
    Ok(())
}

#[test]
fn cut_documents_are_no_json(rt: HostRuntime) -> Result<(), Fail> {
    let meta = library(rt.alloc())?;
    for document in &DOCUMENTS {
        assert_eq!(rt; refusal(rt.alloc(), &meta, document.as_bytes()), None);
        for i in 0..document.len() {
            assert_eq!(rt;
                refusal(rt.alloc(), &meta, &document.as_bytes()[..i]),
                Some(Refused::Document(DocFault::Syntax)),
                "at {i}"
            );
        }
    }
    Ok(())
}
