//! Refused calls at lists: with values of a wrong type, some of which no script can name; at features and resources that do not exist; and
//! calls that read or set a list as a single value.
use crate::fixtures::books::{RowRepository, object, text};
use crate::fixtures::boxes::{LIKES, MARKS, PARTS, boxes};
use crate::fixtures::replies::made;
use adapters::{Adapter, Counter};
use mm_types::{FeatureNo, Node, Refused, ResourceNo, Text, Value};
use std::alloc::{AllocError, Global};
use std::test::Fail;

/// Why the value `first` is not added to a list of a node, and why the value `second` is not removed from the list; `None` if the call is
/// done.
fn refusals<A: Adapter>(
    repository: &mut RowRepository<A>,
    node: Node,
    feature: FeatureNo,
    first: Value,
    second: Value,
) -> [Option<Refused>; 2] {
    let added = made(repository.add(node, feature, first, None)).err();
    let removed = made(repository.remove_value(node, feature, second)).err();
    [added, removed]
}

fn proxy(alloc: Global) -> Result<Value, AllocError> {
    Ok(Value::Proxy(Text::from_str(alloc, "a.xmi#/")?))
}

/// What `refusals` returns for a proxy at the list `parts` of a box, for a literal at its list `marks`, and for a Boolean at its list
/// `likes`.
fn refusals_of_type<A: Adapter>(
    alloc: Global,
    repository: &mut RowRepository<A>,
) -> Result<[[Option<Refused>; 2]; 3], AllocError> {
    let (node, literal) = (object(0), Value::Literal);
    let (first, second) = (proxy(alloc)?, proxy(alloc)?);
    Ok([
        refusals(repository, node, PARTS, first, second),
        refusals(repository, node, MARKS, literal(0), literal(0)),
        refusals(
            repository,
            node,
            LIKES,
            Value::Bool(true),
            Value::Bool(true),
        ),
    ])
}

#[test]
fn values_that_no_script_names_are_in_no_list(rt: HostRuntime) -> Result<(), Fail> {
    let mut repository: Box<RowRepository<Counter>> = boxes(rt.alloc(), 1)?;
    let found = refusals_of_type(rt.alloc(), &mut repository)?;
    assert_eq!(rt; found, [[Some(Refused::WrongType); 2]; 3]);
    assert_eq!(rt; repository.e_is_set(object(0), MARKS), Ok(false));
    Ok(())
}

#[test]
fn numbers_past_the_last_name_nothing(rt: HostRuntime) -> Result<(), Fail> {
    let mut repository: Box<RowRepository<Counter>> = boxes(rt.alloc(), 1)?;
    let past = FeatureNo(6);
    let found = refusals(&mut repository, object(0), past, Value::Null, Value::Null);
    assert_eq!(rt; found, [Some(Refused::NoFeature); 2]);
    let resource = Node::Resource(ResourceNo(0));
    let found = refusals(&mut repository, resource, past, Value::Null, Value::Null);
    assert_eq!(rt; found, [Some(Refused::NoResource); 2]);
    Ok(())
}

/// Why a list of one number can't be read or set as a single value.
fn refused_as_one<A: Adapter>(
    alloc: Global,
    repository: &mut RowRepository<A>,
) -> Result<[Option<Refused>; 2], Fail> {
    made(repository.add(object(0), MARKS, Value::Int(7), None))?;
    let one = repository.value(object(0), MARKS).err();
    let name = text(alloc, "Emma")?;
    Ok([one, made(repository.e_set(object(0), MARKS, name)).err()])
}

#[test]
fn a_list_is_no_one_value(rt: HostRuntime) -> Result<(), Fail> {
    let mut repository: Box<RowRepository<Counter>> = boxes(rt.alloc(), 1)?;
    let found = refused_as_one(rt.alloc(), &mut repository)?;
    assert_eq!(rt; found, [Some(Refused::NotSingle); 2]);
    Ok(())
}
