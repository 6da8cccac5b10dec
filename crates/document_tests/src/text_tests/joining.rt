//! References that are joined with a URI, and references that give no URI.
use std::alloc::Global;
use std::test::Fail;
use web_uris::{UriFault, joined};

const JOINED: [(&str, &str, &str); 8] = [
    ("http://m.example/a", "b", "http://m.example/b"),
    ("http://m.example/a/b", "../c", "http://m.example/c"),
    ("http://m.example/a", "", "http://m.example/a"),
    ("http://m.example/a", "?q", "http://m.example/a?q"),
    (
        "http://m.example/a",
        "HTTPS://N.example:443/x y",
        "https://n.example/x%20y",
    ),
    // A reference that is a URI by itself is not joined with the base.
    ("http://m.example/a", "http:b", "http://b/"),
    ("nonsense", "http://m.example/a", "http://m.example/a"),
    ("http://m.example/a", "//n.example", "http://n.example/"),
];

/// Bases and references that give no URI: a base that is no URI, schemes other than http and https, a reference with a fragment, and a port
/// that is too great.
const BAD: [(&str, &str); 6] = [
    ("nonsense", "b"),
    ("http://m.example/a", "ftp://m.example/"),
    ("http://m.example/a", "mailto:a@m.example"),
    ("ftp://m.example/a", "b"),
    ("http://m.example/a", "b#/"),
    ("http://m.example/a", "http://m.example:99999/"),
];

fn gives(alloc: Global, base: &str, reference: &str, wanted: &str) -> bool {
    match joined(alloc, base, reference) {
        Ok(uri) => uri.as_str() == wanted,
        Err(_) => false,
    }
}

fn is_bad(alloc: Global, base: &str, reference: &str) -> bool {
    match joined(alloc, base, reference) {
        Ok(_) => false,
        Err(fault) => fault == UriFault::Bad,
    }
}

#[test]
fn references_are_joined(rt: HostRuntime) {
    for (base, reference, wanted) in &JOINED {
        assert!(rt;
            gives(rt.alloc(), base, reference, wanted),
            "at {reference}"
        );
    }
}

#[test]
fn what_gives_no_uri_is_bad(rt: HostRuntime) {
    for (base, reference) in &BAD {
        assert!(rt; is_bad(rt.alloc(), base, reference), "at {reference}");
    }
}
