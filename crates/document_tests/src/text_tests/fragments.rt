//! Texts that are fragments, and texts that are not.
use std::alloc::Global;
use web_uris::parse;

/// Fragments as they are written, each with a flag: the segment for the root is empty if the flag is true, else it is the root's index. The
/// only segment of the fragment `/` is empty.
const FRAGMENTS: [(&str, bool); 8] = [
    ("/", true),
    ("/0", false),
    ("/9999999", false),
    ("//@books.0", true),
    ("//@cover", true),
    ("/12/@members.3/@cover", false),
    ("//@_a1.9999999", true),
    ("/0/@a/@a/@a/@a", false),
];

const NONE: [&str; 20] = [
    "",
    "0",
    "@a",
    "/00",
    "/01",
    "/10000000",
    "/-1",
    "/ ",
    "//",
    "//a",
    "//@",
    "//@a.",
    "//@a.01",
    "//@a.10000000",
    "//@a.0.0",
    "//@1a",
    "//@a b",
    "//@é",
    "//@a/",
    "x/@a",
];

fn is_written_back(alloc: Global, text: &str, is_root_left_out: bool) -> bool {
    let Ok(Some(path)) = parse(alloc, text) else {
        return false;
    };
    match path.text(alloc, is_root_left_out) {
        Ok(written) => written.as_str() == text,
        Err(_) => false,
    }
}

fn is_none(alloc: Global, text: &str) -> bool {
    match parse(alloc, text) {
        Ok(path) => path.is_none(),
        Err(_) => false,
    }
}

#[test]
fn fragments_are_read_and_written(rt: HostRuntime) {
    for (text, is_root_left_out) in &FRAGMENTS {
        assert!(rt;
            is_written_back(rt.alloc(), text, *is_root_left_out),
            "at {text}"
        );
    }
}

#[test]
fn other_texts_are_no_fragments(rt: HostRuntime) {
    for text in &NONE {
        assert!(rt; is_none(rt.alloc(), text), "at {text}");
    }
}
