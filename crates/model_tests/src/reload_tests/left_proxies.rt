//! Proxies that can't be resolved are left as they are, and no adapter is notified.
use crate::fixtures::books::object;
use crate::fixtures::network::{Network, Order, SEES, network, reload, resource, snapshots};
use crate::fixtures::replies::{given, made, made_attached};
use adapters::Counter;
use link_store::{LinkStore, RowStore, SlotStore};
use mm_types::{AdapterNo, Node, ObjectNo, Refused, Text, Value};
use std::alloc::{AllocError, Global};
use std::test::Fail;

/// For each case: the references of the first root of the first resource, as JSON, and how many proxies are left in the two resources
/// together after the attempt to resolve all proxies. In each case one of the proxies that are left is in the second resource.
const LEFT: [(&str, u64); 8] = [
    // No object is at the fragment.
    (r#""sees":["1#/7"]"#, 2),
    // No resource has the URI.
    (r#""top":"9#/""#, 2),
    // The object at the address is of a wrong class.
    (r#""top":"1#/1""#, 2),
    (r#""next":"1#/1""#, 2),
    // The list has the object already.
    (r#""sees":["1#/0"]"#, 2),
    // No proxy at the opposite end leads back.
    (r#""likes":["1#/0"]"#, 2),
    (r#""likes":["1#/2"]"#, 2),
    // All of these cases together.
    (
        r#""likes":["1#/0","1#/2"],"next":"1#/1","sees":["1#/7","1#/0","9#/","1#/1"],"top":"1#/1""#,
        9,
    ),
];

/// Two items and an object of a different class. The second item has a proxy that leads to the second root of the first resource.
const SECOND: &str =
    r#"{"format":2,"roots":[{"class":"Item","features":{}},{"class":"Mark","features":{}},{"class":"Item","features":{"fans":["0#/1"]}}]}"#;

/// Two documents. The first item of the first document has the given features; the second document is `SECOND`.
fn documents(alloc: Global, features: &str) -> Result<Vec<Text>, AllocError> {
    let first = format!(in alloc;
        r#"{{"format":2,"roots":[{{"class":"Item","features":{{{features}}}}},{{"class":"Item","features":{{}}}}]}}"#
    )?;
    let first = Text::from_string(alloc, first)?;
    Ok(vec![in alloc; first, Text::from_str(alloc, SECOND)?]?)
}

/// Attaches a flat adapter to each of the five objects, and a deep adapter to each of the two resources.
fn attach_to_each<L: LinkStore>(repository: &mut Network<L>) -> Result<(), Refused> {
    for no in 0..5 {
        attach(repository, no, object(no), false)?;
    }
    attach(repository, 5, resource(0), true)?;
    attach(repository, 6, resource(1), true)
}

fn attach<L: LinkStore>(
    repository: &mut Network<L>,
    no: u32,
    target: Node,
    deep: bool,
) -> Result<(), Refused> {
    made_attached(repository.attach(AdapterNo(no), target, deep, Counter::new()))
}

/// Loads the documents, adds the first item of the second document to the list `sees` of the first item of the first document, and attaches
/// the adapters.
fn fill<L: LinkStore>(
    alloc: Global,
    repository: &mut Network<L>,
    features: &str,
) -> Result<(), Fail> {
    let order = Order {
        making: &[0, 1],
        loading: &[0, 1],
    };
    let texts = documents(alloc, features)?;
    reload(alloc, repository, texts.as_slice(), order)?;
    made(repository.add(object(0), SEES, Value::Object(ObjectNo(2)), None))?;
    attach_to_each(repository)?;
    Ok(())
}

/// Calls `resolve_all`, and returns its answer, and which adapter was notified of what. Fails unless both resources are as they were.
fn resolved<L: LinkStore>(alloc: Global, repository: &mut Network<L>) -> Result<String, Fail> {
    let before = snapshots(alloc, repository, 2)?;
    let found = given(alloc, repository.resolve_all())?;
    if snapshots(alloc, repository, 2)? != before {
        return Err(Fail::new("something changed"));
    }
    Ok(found)
}

fn resolved_of<L: LinkStore>(alloc: Global, features: &str) -> Result<String, Fail> {
    let mut repository = network::<L>(alloc)?;
    fill(alloc, &mut repository, features)?;
    resolved(alloc, &mut repository)
}

/// Calls `resolve_all`. Fails if a proxy is resolved, if an adapter is notified, or if the number of proxies that are left is not `left`.
fn check_left<L: LinkStore>(alloc: Global, features: &str, left: u64) -> Result<(), Fail> {
    let found = resolved_of::<L>(alloc, features)?;
    let wanted = format!(in alloc; "Resolved {{ done: 0, left: {left} }}")?;
    if found == wanted {
        return Ok(());
    }
    Err(Fail::new(format_args!("{found} at {features}")))
}

#[test]
fn a_proxy_that_cannot_be_resolved_is_left_untold(rt: HostRuntime) -> Result<(), Fail> {
    for (features, left) in &LEFT {
        check_left::<RowStore>(rt.alloc(), *features, *left)?;
        check_left::<SlotStore>(rt.alloc(), *features, *left)?;
    }
    Ok(())
}
