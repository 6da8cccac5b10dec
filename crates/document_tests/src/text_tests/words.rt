//! Words that are numbers or names, and words that are neither.
use mm_types::integers::{integer_of, natural_of};
use mm_types::names::is_name;

const INTEGERS: [(&str, Option<i64>); 14] = [
    ("0", Some(0)),
    ("-5", Some(-5)),
    ("2147483648", Some(2147483648)),
    ("9223372036854775807", Some(9223372036854775807)),
    ("-9223372036854775808", Some(-9223372036854775808)),
    ("9223372036854775808", None),
    ("-9223372036854775809", None),
    ("-0", None),
    ("+1", None),
    ("01", None),
    ("-05", None),
    ("", None),
    ("-", None),
    ("1 ", None),
];

const NATURALS: [(&str, Option<u32>); 5] = [
    ("0", Some(0)),
    ("4294967295", Some(4294967295)),
    ("4294967296", None),
    ("-1", None),
    ("00", None),
];

#[test]
fn numbers_are_read(rt: HostRuntime) {
    for (word, number) in &INTEGERS {
        assert!(rt; integer_of(word) == *number, "at {word}");
    }
    for (word, number) in &NATURALS {
        assert!(rt; natural_of(word) == *number, "at {word}");
    }
}

const NAMES: [(&str, bool); 8] = [
    ("A_1", true),
    ("_", true),
    ("zZ9", true),
    ("A b", false),
    ("", false),
    ("1a", false),
    ("é", false),
    ("a-b", false),
];

#[test]
fn names_are_recognised(rt: HostRuntime) {
    for (word, wanted) in &NAMES {
        assert!(rt; is_name(word.as_bytes()) == *wanted, "at {word}");
    }
}
