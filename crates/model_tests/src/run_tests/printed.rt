//! How values, nodes and refusals are printed, also some that no script can cause to be printed; and the names of faults.
use mm_types::{DocFault, Node, ObjectNo, Refused, ResourceNo, Text, Value};
use script_output::Output;
use script_streams::RunFault;
use std::alloc::{AllocError, Global};
use std::test::Fail;

/// Prints `= ` and then the value, and returns whether the output is `text`.
fn is_value(alloc: Global, value: &Value, text: &str) -> Result<bool, AllocError> {
    let mut output = Output::new(alloc);
    output.text("= ")?;
    output.value(value, "NOVEL")?;
    Ok(output.as_bytes() == text.as_bytes())
}

#[test]
fn objects_are_printed_by_number(rt: HostRuntime) -> Result<(), Fail> {
    let object = Value::Object(ObjectNo(3));
    assert!(rt; is_value(rt.alloc(), &object, "= #3")?);
    Ok(())
}

/// Addresses, and what `is_value` expects for a proxy with each address.
const PROXIES: [(&str, &str); 2] = [
    ("http://m.example/b#/0", "= proxy \"http://m.example/b#/0\""),
    ("a\"\\\n\u{1}é/", "= proxy \"a\\\"\\\\\\n\\u0001é/\""),
];

#[test]
fn proxies_are_printed_as_json_strings(rt: HostRuntime) -> Result<(), Fail> {
    for (address, text) in &PROXIES {
        let proxy = Value::Proxy(Text::from_str(rt.alloc(), *address)?);
        assert!(rt; is_value(rt.alloc(), &proxy, *text)?, "at {address}");
    }
    Ok(())
}

#[test]
fn nodes_are_printed_by_number(rt: HostRuntime) -> Result<(), Fail> {
    let mut output = Output::new(rt.alloc());
    output.node(Node::Object(ObjectNo(4294967295)))?;
    output.node(Node::Resource(ResourceNo(0)))?;
    assert_eq!(rt; output.as_bytes(), b"#4294967295r0".as_slice());
    Ok(())
}

#[test]
fn a_refusal_is_printed_with_its_cause(rt: HostRuntime) -> Result<(), Fail> {
    let mut output = Output::new(rt.alloc());
    output.text("before")?;
    output.clear();
    output.refused(Refused::Document(DocFault::OneSided))?;
    let wanted = "refused 18 DOCUMENT 10 ONE_SIDED";
    assert_eq!(rt; output.as_bytes(), wanted.as_bytes());
    Ok(())
}

#[test]
fn faults_are_printed_by_name(rt: HostRuntime) -> Result<(), Fail> {
    let cases = [
        (RunFault::Read, "READ"),
        (RunFault::Write, "WRITE"),
        (RunFault::TooLong, "TOO_LONG"),
        (RunFault::Memory, "MEMORY"),
        (RunFault::Journal, "JOURNAL"),
    ];
    for (fault, name) in &cases {
        let found = format!(in rt.alloc(); "{fault}")?;
        assert_eq!(rt; found.as_str(), *name);
    }
    Ok(())
}
