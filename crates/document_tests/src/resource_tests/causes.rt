//! Why documents are refused: for each cause except DEPTH, documents to which this cause applies and no cause with a lower number.
use crate::fixtures::resource::{library, of_new_roots, of_roots, told};
use mm_meta::Meta;
use std::alloc::Global;
use std::process::Abort;
use std::test::Fail;

/// A refusal, and the texts that are refused so.
type Refusals = (&'static str, &'static [&'static str]);

/// Whole documents, by their refusals.
const WHOLE: [Refusals; 3] = [
    (
        "18 DOCUMENT 1 SYNTAX",
        &[
            "",
            "{\"format\":1,\"roots\":[]",
            "{\"format\":1,\"roots\":[]} x",
            "{\"format\":1,\"roots\":[\"\\ud800\"]}",
        ],
    ),
    (
        "18 DOCUMENT 2 LAYOUT",
        &[
            "[]",
            "{}",
            "{\"format\":1}",
            "{\"roots\":[]}",
            "{\"format\":1,\"roots\":[],\"more\":1}",
            "{\"format\":1.0,\"roots\":[]}",
            "{\"format\":\"1\",\"roots\":[]}",
            "{\"format\":2.0,\"roots\":[]}",
            "{\"format\":\"2\",\"roots\":[]}",
            "{\"format\":1,\"roots\":{}}",
            "{\"format\":1,\"roots\":[7]}",
            // A fault of layout anywhere wins over an unknown format.
            "{\"format\":3,\"roots\":[null]}",
        ],
    ),
    (
        "18 DOCUMENT 3 FORMAT",
        &[
            "{\"format\":0,\"roots\":[]}",
            "{\"format\":3,\"roots\":[]}",
            "{\"format\":-1,\"roots\":[]}",
            "{\"format\":3,\"roots\":[{\"class\":\"Nope\",\"features\":{}}]}",
        ],
    ),
];

/// Roots of documents, by their refusals in either format.
const ROOTS: [Refusals; 8] = [
    (
        "18 DOCUMENT 2 LAYOUT",
        &[
            r#"{"class":"Book"}"#,
            r#"{"class":7,"features":{}}"#,
            r#"{"class":"Book","features":[]}"#,
            r#"{"class":"Book","features":{},"x":1}"#,
            // A contained object must have the layout, too.
            r#"{"class":"Folder","features":{"subs":[{"class":"Folder"}]}}"#,
        ],
    ),
    (
        "18 DOCUMENT 4 CLASS",
        &[
            r#"{"class":"Nope","features":{"x":1}}"#,
            r#"{"class":"Named","features":{}}"#,
            r#"{"class":"Resource","features":{}}"#,
            // The contents of an object of an unknown class are not looked at.
            r#"{"class":"Nope","features":{"subs":[{"class":7}]}}"#,
        ],
    ),
    (
        "18 DOCUMENT 5 FEATURE",
        &[
            r#"{"class":"Book","features":{"x":1}}"#,
            r#"{"class":"Book","features":{"Name":"a"}}"#,
            r#"{"class":"Book","features":{"library":7}}"#,
            r#"{"class":"Folder","features":{"name":"a","pages":"x"}}"#,
            // A contained object of a class that does not conform is looked at all the same.
            r#"{"class":"Folder","features":{"subs":[{"class":"Book","features":{"x":1}}]}}"#,
        ],
    ),
    (
        "18 DOCUMENT 6 VALUE",
        &[
            r#"{"class":"Book","features":{"name":7}}"#,
            r#"{"class":"Book","features":{"tags":"a"}}"#,
            r#"{"class":"Book","features":{"tags":[null]}}"#,
            r#"{"class":"Book","features":{"pages":[1]}}"#,
            r#"{"class":"Book","features":{"pages":null}}"#,
            r#"{"class":"Book","features":{"pages":2147483648}}"#,
            r#"{"class":"Book","features":{"pages":-2147483649}}"#,
            r#"{"class":"Book","features":{"pages":1.0}}"#,
            r#"{"class":"Book","features":{"big":9223372036854775808}}"#,
            r#"{"class":"Book","features":{"lent":0}}"#,
            r#"{"class":"Book","features":{"genre":"PLAY"}}"#,
            // A value of a containment that is no object, or is an object of a class that does not conform.
            r#"{"class":"Folder","features":{"subs":[7]}}"#,
            r#"{"class":"Folder","features":{"subs":[{"class":"Book","features":{}}]}}"#,
            r#"{"class":"Person","features":{"likes":[7]}}"#,
        ],
    ),
    (
        "18 DOCUMENT 7 REFERENCE",
        &[
            r#"{"class":"Person","features":{"likes":["/9"]}}"#,
            r#"{"class":"Person","features":{"likes":["/"]}}"#,
            r#"{"class":"Person","features":{"likes":[""]}}"#,
            r#"{"class":"Person","features":{"likes":["http://m.example/b"]}}"#,
            r#"{"class":"Person","features":{"likes":["b#0"]}}"#,
            r#"{"class":"Person","features":{"likes":["ftp://m.example/b#/"]}}"#,
            r#"{"class":"Book","features":{"next":"/00"}}"#,
            // A step with an index into a single feature, and a step without an index into a list.
            r#"{"class":"Person","features":{"cover":{"class":"Folder","features":{"friends":["//@cover.0"]}}}}"#,
            r#"{"class":"Folder","features":{"friends":["//@subs"],"subs":[{"class":"Folder","features":{}}]}}"#,
        ],
    ),
    (
        "18 DOCUMENT 8 DUPLICATE",
        &[
            r#"{"class":"Book","features":{"tags":["a","b","a"]}}"#,
            // Two texts for one object, and one proxy twice.
            r##"{"class":"Person","features":{"likes":["/1","#/1"]}},{"class":"Book","features":{}}"##,
            r#"{"class":"Person","features":{"likes":["b#/","http://m.example/b#/"]}}"#,
        ],
    ),
    (
        "18 DOCUMENT 9 BOUND",
        &[r#"{"class":"Book","features":{"scores":[1,1,1,1]}}"#],
    ),
    (
        "18 DOCUMENT 10 ONE_SIDED",
        &[
            r#"{"class":"Library","features":{"staff":["/1"]}},{"class":"Person","features":{}}"#,
            r#"{"class":"Book","features":{"next":"/1"}},{"class":"Book","features":{"prev":"/1"}}"#,
            // A proxy at the opposite end leads to no object of the document, so this end does not lead back.
            r#"{"class":"Library","features":{"staff":["/1"]}},{"class":"Person","features":{"job":"b#/"}}"#,
        ],
    ),
];

/// Roots that are refused in format 1, since references with opposites lead to other resources; and what they are read as in format 2.
const CROSSES: [(&str, &str); 4] = [
    (
        r#"{"class":"Person","features":{"job":"b#/"}}"#,
        "3[ 14: <http://m.example/b#/>; ] roots #0",
    ),
    (
        r#"{"class":"Folder","features":{"friends":["b#/"]}}"#,
        "4[ 19: <http://m.example/b#/>; ] roots #0",
    ),
    (
        r#"{"class":"Folder","features":{"friends_of":["b#/1","/"],"friends":["/0","b#//@subs.0"]}}"#,
        "4[ 19: #0 <http://m.example/b#//@subs.0>; 20: <http://m.example/b#/1> #0; ] roots #0",
    ),
    (
        r#"{"class":"Library","features":{"staff":["b#/","/1"]}},{"class":"Person","features":{"job":"/0"}}"#,
        "1[ 3: <http://m.example/b#/> #1; ] 3[ 14: #0; ] roots #0 #1",
    ),
];

/// Asserts that each document is refused as `wanted` says.
fn are_refused(
    rt: &impl Abort,
    alloc: Global,
    meta: &Meta,
    documents: &[&str],
    wanted: &str,
) -> Result<(), Fail> {
    for document in documents {
        let answer = told(alloc, meta, document.as_bytes())?;
        assert_eq!(rt; answer.as_str(), wanted, "at {document}");
    }
    Ok(())
}

/// Asserts that a document with each of some roots is refused as `wanted` says, in either format.
fn are_refused_as_roots(
    rt: &impl Abort,
    alloc: Global,
    meta: &Meta,
    all_roots: &[&str],
    wanted: &str,
) -> Result<(), Fail> {
    for roots in all_roots {
        let old = of_roots(alloc, roots)?;
        let new = of_new_roots(alloc, roots)?;
        are_refused(rt, alloc, meta, &[old.as_str(), new.as_str()], wanted)?;
    }
    Ok(())
}

#[test]
fn whole_documents_are_refused(rt: HostRuntime) -> Result<(), Fail> {
    let meta = library(rt.alloc())?;
    for (wanted, documents) in &WHOLE {
        are_refused(&rt, rt.alloc(), &meta, documents, wanted)?;
    }
    Ok(())
}

#[test]
fn roots_are_refused_in_either_format(rt: HostRuntime) -> Result<(), Fail> {
    let meta = library(rt.alloc())?;
    for (wanted, roots) in &ROOTS {
        are_refused_as_roots(&rt, rt.alloc(), &meta, roots, wanted)?;
    }
    Ok(())
}

#[test]
fn references_with_opposites_stay_in_a_document_of_format_1(rt: HostRuntime) -> Result<(), Fail> {
    let meta = library(rt.alloc())?;
    for (roots, _) in &CROSSES {
        let document = of_roots(rt.alloc(), roots)?;
        let answer = told(rt.alloc(), &meta, document.as_bytes())?;
        assert_eq!(rt; answer.as_str(), "18 DOCUMENT 11 CROSS", "at {roots}");
    }
    Ok(())
}

#[test]
fn references_with_opposites_lead_out_of_a_document_of_format_2(
    rt: HostRuntime,
) -> Result<(), Fail> {
    let meta = library(rt.alloc())?;
    for (roots, wanted) in &CROSSES {
        let document = of_new_roots(rt.alloc(), roots)?;
        let read = told(rt.alloc(), &meta, document.as_bytes())?;
        assert_eq!(rt; read.as_str(), *wanted, "at {roots}");
    }
    Ok(())
}
