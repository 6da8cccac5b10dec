//! What documents are read as. The expected texts are written by hand, and not taken from a run.
use crate::fixtures::resource::{library, of_roots, told};
use std::test::Fail;

/// Roots, and what a document of format 1 with these roots is read as.
const READINGS: [(&str, &str); 16] = [
    ("", "roots"),
    // A library with staff, books and likes: each object comes before its contents, by feature and then by position.
    (
        r#"{"class":"Library","features":{
            "staff":["//@members.1"],
            "members":[{"class":"Person","features":{"likes":["//@books.1","//@books.0"],"name":"Ann"}},
                {"class":"Person","features":{"job":"/"}}],
            "books":[{"class":"Book","features":{"name":"Emma","next":"//@books.1"}},
                {"class":"Book","features":{"prev":"//@books.0"}}],
            "name":"L"}}"#,
        r#"1[ 0: "L"; 1: #1 #2; 2: #3 #4; 3: #4; ] 2[ 0: "Emma"; 12: #2; ] 2[ 13: #1; ] 3[ 0: "Ann"; 15: #2 #1; ] 3[ 14: #0; ] roots #0"#,
    ),
    // Roots are in order, and the contents of a root come before the next root.
    (
        r#"{"class":"Folder","features":{"subs":[{"class":"Folder","features":{}}]}},{"class":"Book","features":{}}"#,
        "4[ 17: #1; ] 4[ ] 2[ ] roots #0 #2",
    ),
    // A single containment has a step without an index.
    (
        r#"{"class":"Person","features":{"cover":{"class":"Folder","features":{"friends":["//@cover/@subs.0"],
            "subs":[{"class":"Folder","features":{"friends_of":["//@cover"]}}]}}}}"#,
        "3[ 16: #1; ] 4[ 17: #2; 19: #2; ] 4[ 20: #1; ] roots #0",
    ),
    // A feature with an empty array is read like a feature that is absent.
    (
        r#"{"class":"Book","features":{"tags":[],"scores":[]}}"#,
        "2[ ] roots #0",
    ),
    // Each value in the document is read as a value of the object, also a default, and null for a single text.
    (
        r#"{"class":"Book","features":{"pages":100,"note":null,"tags":["b","a"],"scores":[1,1],"genre":"POEM","big":9223372036854775807,"lent":true,"name":null}}"#,
        r#"2[ 0: Null; 4: 100; 5: "b" "a"; 6: 1 1; 7: Null; 8: Literal(1); 9: 9223372036854775807; 10: Bool(true); ] roots #0"#,
    ),
    // The values of each end have the order that they have in the document.
    (
        r#"{"class":"Folder","features":{"friends":["/2","/1"]}},
           {"class":"Folder","features":{"friends_of":["/0"]}},
           {"class":"Folder","features":{"friends_of":["/2","/0"],"friends":["/2"]}}"#,
        "4[ 19: #2 #1; ] 4[ 20: #0; ] 4[ 19: #2; 20: #2 #0; ] roots #0 #1 #2",
    ),
    // A reference into another resource is a proxy. Its address is the joined URI, `#`, and the fragment as it is written.
    (
        r#"{"class":"Person","features":{"likes":["b#/","b#/0","HTTP://N.example/x#//@books.3"]}}"#,
        "3[ 15: <http://m.example/b#/> <http://m.example/b#/0> <http://n.example/x#//@books.3>; ] roots #0",
    ),
    // The resource's own URI leads into the document, however it is written.
    (
        r##"{"class":"Person","features":{"likes":["/1","#/2","a#/3","http://m.example/a#/4"]}},
           {"class":"Book","features":{}},{"class":"Book","features":{}},{"class":"Book","features":{}},{"class":"Book","features":{}}"##,
        "3[ 15: #1 #2 #3 #4; ] 2[ ] 2[ ] 2[ ] 2[ ] roots #0 #1 #2 #3 #4",
    ),
    // `/` and `/0` are the first root.
    (
        r#"{"class":"Book","features":{"next":"/1"}},{"class":"Book","features":{"prev":"/"}}"#,
        "2[ 12: #1; ] 2[ 13: #0; ] roots #0 #1",
    ),
    (
        r#"{"class":"Book","features":{"next":"/1"}},{"class":"Book","features":{"prev":"/0"}}"#,
        "2[ 12: #1; ] 2[ 13: #0; ] roots #0 #1",
    ),
    // A book is its own neighbour if both ends say so.
    (
        r#"{"class":"Book","features":{"next":"/","prev":"/"}}"#,
        "2[ 12: #0; 13: #0; ] roots #0",
    ),
    // If a key comes twice, its last value counts.
    (
        r#"{"class":"Book","features":{"pages":"no","pages":7}}"#,
        "2[ 4: 7; ] roots #0",
    ),
    // The least and the greatest number of 32 bits.
    (
        r#"{"class":"Book","features":{"scores":[-2147483648,2147483647,0]}}"#,
        "2[ 6: -2147483648 2147483647 0; ] roots #0",
    ),
    // Texts that differ in case are different values, and a text need be no name.
    (
        r#"{"class":"Book","features":{"tags":["a","A",""]}}"#,
        r#"2[ 5: "a" "A" ""; ] roots #0"#,
    ),
    // Both staff of a library, the second written first.
    (
        r#"{"class":"Library","features":{"staff":["/2","/1"]}},{"class":"Person","features":{"job":"/"}},{"class":"Person","features":{"job":"/0"}}"#,
        "1[ 3: #2 #1; ] 3[ 14: #0; ] 3[ 14: #0; ] roots #0 #1 #2",
    ),
];

#[test]
fn documents_are_read(rt: HostRuntime) -> Result<(), Fail> {
    let meta = library(rt.alloc())?;
    for (roots, wanted) in &READINGS {
        let document = of_roots(rt.alloc(), roots)?;
        let read = told(rt.alloc(), &meta, document.as_bytes())?;
        assert_eq!(rt; read.as_str(), *wanted, "at {roots}");
    }
    Ok(())
}
