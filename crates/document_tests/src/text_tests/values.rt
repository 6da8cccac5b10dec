//! The functions of the types `Text`, `Value` and `Seq`.
use mm_types::{ObjectNo, Seq, Text, Value};
use std::alloc::{AllocError, Global};
use std::test::Fail;

/// A text, its copy, and a text that was made from a `String` with the same characters.
fn texts(alloc: Global, text: &str) -> Result<String, AllocError> {
    let text = Text::from_str(alloc, text)?;
    let copy = text.clone()?;
    let made = Text::from_string(alloc, String::from_str(alloc, copy.as_str())?)?;
    format!(in alloc; "{} {} {}", text.as_str(), copy.as_str(), made.as_str())
}

#[test]
fn texts_keep_their_bytes(rt: HostRuntime) -> Result<(), Fail> {
    let alloc = rt.alloc();
    let found = format!(in alloc;
        "{}|{}|{}|{}",
        texts(alloc, "")?,
        texts(alloc, "é")?,
        texts(alloc, "of-twenty-two-bytes-22")?,
        texts(alloc, "of-twenty-three-bytes-3")?
    )?;
    assert_eq!(rt;
        found.as_str(),
        "  |é é é|of-twenty-two-bytes-22 of-twenty-two-bytes-22 of-twenty-two-bytes-22|\
         of-twenty-three-bytes-3 of-twenty-three-bytes-3 of-twenty-three-bytes-3"
    );
    Ok(())
}

/// A value and its copy, as `{:?}` shows them.
fn shown_twice(alloc: Global, value: &Value) -> Result<String, AllocError> {
    let copy = value.clone()?;
    format!(in alloc; "{value:?} {copy:?}")
}

/// The value with the index `at` in a list of six values: one of each kind that has no text, and a second object.
fn value(at: u32) -> Value {
    match at {
        0 => Value::Null,
        1 => Value::Bool(true),
        2 => Value::Int(-5),
        3 => Value::Literal(7),
        4 => Value::Object(ObjectNo(3)),
        _ => Value::Object(ObjectNo(9)),
    }
}

/// What `shown_twice` gives for each of the six values that `value` returns, in the order of their indexes.
const VALUES: [&str; 6] = [
    "Null Null",
    "Bool(true) Bool(true)",
    "Int(-5) Int(-5)",
    "Literal(7) Literal(7)",
    "Object(ObjectNo(3)) Object(ObjectNo(3))",
    "Object(ObjectNo(9)) Object(ObjectNo(9))",
];

#[test]
fn values_are_cloned(rt: HostRuntime) -> Result<(), Fail> {
    for (at, wanted) in (0..6).zip(VALUES) {
        let found = shown_twice(rt.alloc(), &value(at))?;
        assert_eq!(rt; found.as_str(), wanted);
    }
    Ok(())
}

/// What `shown_twice` gives for a text and for a proxy.
fn texts_shown(alloc: Global) -> Result<String, AllocError> {
    let text = Value::Text(Text::from_str(alloc, "a")?);
    let text = shown_twice(alloc, &text)?;
    let proxy = Value::Proxy(Text::from_str(alloc, "b#/0")?);
    let proxy = shown_twice(alloc, &proxy)?;
    format!(in alloc; "{text} {proxy}")
}

#[test]
fn values_of_text_are_cloned(rt: HostRuntime) -> Result<(), Fail> {
    let found = texts_shown(rt.alloc())?;
    let wanted = "Text(\"a\") Text(\"a\") Proxy(\"b#/0\") Proxy(\"b#/0\")";
    assert_eq!(rt; found.as_str(), wanted);
    Ok(())
}

/// How many items a sequence has, whether it has none, and its items: first as a slice, and then as a `Vec`.
fn sequence(alloc: Global, numbers: Seq<usize>) -> Result<String, AllocError> {
    let (len, is_empty) = (numbers.len(), numbers.is_empty());
    let mut shown = format!(in alloc; "{len} {is_empty} {:?}", numbers.as_slice())?;
    let items = format!(in alloc; " {:?}", numbers.into_vec())?;
    shown.push_str(items.as_str())?;
    Ok(shown)
}

fn three_numbers(alloc: Global) -> Result<Seq<usize>, AllocError> {
    let mut numbers = Seq::from_vec(Vec::from_slice(alloc, &[3, 1])?);
    numbers.push(2)?;
    Ok(numbers)
}

#[test]
fn sequences_keep_their_items(rt: HostRuntime) -> Result<(), Fail> {
    let found = sequence(rt.alloc(), three_numbers(rt.alloc())?)?;
    assert_eq!(rt; found.as_str(), "3 false [3, 1, 2] [3, 1, 2]");
    let found = sequence(rt.alloc(), Seq::new(rt.alloc()))?;
    assert_eq!(rt; found.as_str(), "0 true [] []");
    Ok(())
}
