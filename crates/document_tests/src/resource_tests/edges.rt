//! Documents whose texts have as many bytes as a text may have, or one byte more; documents whose objects are at as many levels as a
//! document may have, or at more; and a document with 100,000 roots.
use crate::fixtures::resource::{library, of_roots, refusal};
use mm_meta::Meta;
use mm_types::{DocFault, Refused};
use std::alloc::{AllocError, Global};
use std::test::Fail;

fn add_times(text: &mut String, piece: &str, times: usize) -> Result<(), AllocError> {
    for _ in 0..times {
        text.push_str(piece)?;
    }
    Ok(())
}

/// A document with one book, whose name has `bytes` bytes.
fn with_name(alloc: Global, bytes: usize) -> Result<String, AllocError> {
    let mut root = String::from_str(alloc, r#"{"class":"Book","features":{"name":""#)?;
    add_times(&mut root, "a", bytes)?;
    root.push_str(r#""}}"#)?;
    of_roots(alloc, root.as_str())
}

/// A document with one person, who likes a book of another resource; the text of this reference has `bytes` bytes.
fn with_reference(alloc: Global, bytes: usize) -> Result<String, AllocError> {
    let mut root = String::from_str(alloc, r#"{"class":"Person","features":{"likes":[""#)?;
    add_times(&mut root, "b", bytes.saturating_sub(2))?;
    root.push_str(r##"#/"]}}"##)?;
    of_roots(alloc, root.as_str())
}

/// A document of nested folders, one at each of `levels` levels.
fn with_levels(alloc: Global, levels: usize) -> Result<String, AllocError> {
    let mut root = String::new(alloc);
    add_times(
        &mut root,
        r#"{"class":"Folder","features":{"subs":["#,
        levels.saturating_sub(1),
    )?;
    root.push_str(r#"{"class":"Folder","features":{}}"#)?;
    add_times(&mut root, "]}}", levels.saturating_sub(1))?;
    of_roots(alloc, root.as_str())
}

/// A document with `count` folders as its roots.
fn with_roots(alloc: Global, count: usize) -> Result<String, AllocError> {
    let mut roots = String::from_str(alloc, r#"{"class":"Folder","features":{}}"#)?;
    add_times(
        &mut roots,
        r#",{"class":"Folder","features":{}}"#,
        count.saturating_sub(1),
    )?;
    of_roots(alloc, roots.as_str())
}

fn cause(alloc: Global, meta: &Meta, document: &String) -> Option<Refused> {
    refusal(alloc, meta, document.as_bytes())
}

#[test]
fn texts_have_a_limit(rt: HostRuntime) -> Result<(), Fail> {
    let meta = library(rt.alloc())?;
    let value = Some(Refused::Document(DocFault::Value));
    assert_eq!(rt;
        cause(rt.alloc(), &meta, &with_name(rt.alloc(), 65_535)?),
        None
    );
    assert_eq!(rt;
        cause(rt.alloc(), &meta, &with_name(rt.alloc(), 65_536)?),
        value
    );
    assert_eq!(rt;
        cause(rt.alloc(), &meta, &with_reference(rt.alloc(), 65_535)?),
        None
    );
    assert_eq!(rt;
        cause(rt.alloc(), &meta, &with_reference(rt.alloc(), 65_536)?),
        value
    );
    Ok(())
}

#[test]
fn levels_have_a_limit(rt: HostRuntime) -> Result<(), Fail> {
    let meta = library(rt.alloc())?;
    let depth = Some(Refused::Document(DocFault::Depth));
    let syntax = Some(Refused::Document(DocFault::Syntax));
    assert_eq!(rt;
        cause(rt.alloc(), &meta, &with_levels(rt.alloc(), 40)?),
        None
    );
    assert_eq!(rt;
        cause(rt.alloc(), &meta, &with_levels(rt.alloc(), 41)?),
        depth
    );
    assert_eq!(rt;
        cause(rt.alloc(), &meta, &with_levels(rt.alloc(), 200)?),
        syntax
    );
    Ok(())
}

#[test]
fn many_roots_are_read(rt: HostRuntime) -> Result<(), Fail> {
    let meta = library(rt.alloc())?;
    assert_eq!(rt;
        cause(rt.alloc(), &meta, &with_roots(rt.alloc(), 100_000)?),
        None
    );
    Ok(())
}
