//! An edit of a list is refused since an adapter can't be notified of the edit: no link is cut, and no adapter is notified.
use crate::fixtures::books::{RowRepository, object};
use crate::fixtures::boxes::{PARTS, boxes};
use crate::fixtures::replies::{given, made, made_attached};
use crate::fixtures::telling::{Kind, adapter};
use adapters::Adapter;
use mm_types::{AdapterNo, ObjectNo, Refused, Value};
use repository::Reply;
use std::alloc::{AllocError, Global};
use std::test::Fail;

/// Attaches an adapter to a box, under the number of the box. If the attach is refused, the adapter is dropped.
fn attach<A: Adapter>(
    repository: &mut RowRepository<A>,
    at: u32,
    adapter: A,
) -> Result<(), Refused> {
    made_attached(repository.attach(AdapterNo(at), object(at), false, adapter))
}

/// The parts of the first box and of the last box, and how many notifications the adapters of the first two boxes got.
fn state<A: Adapter>(alloc: Global, repository: &RowRepository<A>) -> Result<String, AllocError> {
    let first = repository.e_get(object(0), PARTS);
    let last = repository.e_get(object(3), PARTS);
    let told = [
        repository.adapter_told(AdapterNo(0)),
        repository.adapter_told(AdapterNo(1)),
    ];
    format!(in alloc; "{first:?} {last:?} {told:?}")
}

/// Puts the second box into the box whose number is `into`.
fn put<A: Adapter>(repository: &mut RowRepository<A>, into: u32) -> Result<Reply<A>, Refused> {
    repository.add(object(into), PARTS, Value::Object(ObjectNo(1)), None)
}

/// A repository of four boxes, of which the second is in the first. An adapter is attached to each of these two boxes.
fn packed<A: Adapter>(alloc: Global, first: A, second: A) -> Result<Box<RowRepository<A>>, Fail> {
    let mut repository = boxes(alloc, 4)?;
    made(put(&mut repository, 0))?;
    attach(&mut repository, 0, first)?;
    attach(&mut repository, 1, second)?;
    Ok(repository)
}

/// Tries twice to put the second box into the last box. Returns why the first call is refused, the reply of the second call, and the state
/// before, between and after the calls.
fn put_twice<A: Adapter>(alloc: Global, repository: &mut RowRepository<A>) -> Result<String, Fail> {
    let before = state(alloc, repository)?;
    let refused = made(put(repository, 3)).err();
    let between = state(alloc, repository)?;
    let told = given(alloc, put(repository, 3))?;
    let after = state(alloc, repository)?;
    Ok(format!(in alloc; "{before}\n{refused:?}\n{between}\n{told}\n{after}")?)
}

/// What `put_twice` returns in the repository that `packed` makes.
fn put_twice_at_boxes<A: Adapter>(alloc: Global, first: A, second: A) -> Result<String, Fail> {
    let mut repository = packed(alloc, first, second)?;
    put_twice(alloc, &mut repository)
}

const PUT_TWICE: &str =
    "Ok(Many(Seq { items: [Object(ObjectNo(1))] })) Ok(Many(Seq { items: [] })) [Ok(0), Ok(0)]
Some(Memory)
Ok(Many(Seq { items: [Object(ObjectNo(1))] })) Ok(Many(Seq { items: [] })) [Ok(0), Ok(0)]
Flag(true); A0 REMOVE Object(ObjectNo(1)) Null 0 true; A1 SET Object(ObjectNo(0)) Object(ObjectNo(3)) -1 true
Ok(Many(Seq { items: [] })) Ok(Many(Seq { items: [Object(ObjectNo(1))] })) [Ok(1), Ok(1)]";

#[test]
fn an_add_that_one_adapter_cannot_hear_cuts_no_link(rt: HostRuntime) -> Result<(), Fail> {
    let recorder = adapter(rt.alloc(), Kind::Recorder)?;
    let found = put_twice_at_boxes(rt.alloc(), recorder, adapter(rt.alloc(), Kind::Poor)?)?;
    assert_eq!(rt; found.as_str(), PUT_TWICE);
    Ok(())
}
