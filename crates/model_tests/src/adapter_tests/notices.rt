//! The kinds of notifications by number and name, a chain that has its notifications in order, and the position that means no index.
use crate::fixtures::notices::added;
use mm_types::AdapterNo;
use notice_chain::{Chain, NO_INDEX, NoticeKind};
use std::test::Fail;

const KINDS: [(NoticeKind, u32, &str); 7] = [
    (NoticeKind::Set, 1, "SET"),
    (NoticeKind::Unset, 2, "UNSET"),
    (NoticeKind::Add, 3, "ADD"),
    (NoticeKind::Remove, 4, "REMOVE"),
    (NoticeKind::Move, 7, "MOVE"),
    (
        NoticeKind::RemovingAdapter(AdapterNo(0)),
        8,
        "REMOVING_ADAPTER",
    ),
    (NoticeKind::Resolve, 9, "RESOLVE"),
];

#[test]
fn kinds_have_numbers_and_names(rt: HostRuntime) {
    for (kind, number, name) in &KINDS {
        assert!(rt;
            kind.number() == *number && kind.name() == *name,
            "at {name}"
        );
    }
}

#[test]
fn a_chain_has_its_notices_in_order(rt: HostRuntime) -> Result<(), Fail> {
    let alloc = rt.alloc();
    let mut chain = Chain::none(alloc);
    assert!(rt; chain.is_empty());
    chain.push(alloc, added(0, 4))?;
    assert_eq!(rt; chain.len(), 1);
    chain.push(alloc, added(0, 7).clone()?)?;
    chain.push(alloc, added(0, 2))?;
    assert!(rt; !chain.is_empty());
    assert_eq!(rt; chain.len(), 3);
    assert_eq!(rt; chain.as_slice()[0].position, 4);
    assert_eq!(rt; chain.as_slice()[1].position, 7);
    assert_eq!(rt; chain.as_slice()[2].position, 2);
    Ok(())
}

#[test]
fn a_chain_of_one_has_its_notice(rt: HostRuntime) {
    let chain = Chain::one(added(0, 7));
    assert_eq!(rt; chain.len(), 1);
    assert_eq!(rt; chain.as_slice()[0].position, 7);
}

#[test]
fn no_index_is_below_every_position(rt: HostRuntime) {
    assert_eq!(rt; NO_INDEX, -1);
}
