//! The lines of a script.
use script_lines::{laws, next_line};
use std::alloc::{AllocError, Global};
use std::test::Fail;

/// The lines of a script, each between brackets.
fn bracketed(alloc: Global, script: &str) -> Result<String, AllocError> {
    let mut text = String::new(alloc);
    let mut rest = script.as_bytes();
    for _ in 0..script.len() {
        let Some((line, after)) = next_line(rest) else {
            return Ok(text);
        };
        text.push('[')?;
        for byte in line {
            text.push(*byte as char)?;
        }
        text.push(']')?;
        rest = after;
    }
    Ok(text)
}

#[test]
fn a_script_is_cut_at_its_newlines(rt: HostRuntime) -> Result<(), Fail> {
    let cases = [
        ("", ""),
        ("\n", "[]"),
        ("a", "[a]"),
        ("a\n", "[a]"),
        ("a\n\nb \n c", "[a][][b ][ c]"),
    ];
    for (script, wanted) in &cases {
        let found = bracketed(rt.alloc(), *script)?;
        assert_eq!(rt; found.as_str(), *wanted);
    }
    laws::a_script_is_its_lines();
    Ok(())
}
