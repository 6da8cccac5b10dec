//! Which adapters are notified when all proxies are resolved, and the refusal if an adapter can't be notified.
use crate::fixtures::network::{
    Network, Order, check_resolved, check_saved, network, reload, resource, snapshots,
};
use crate::fixtures::replies::{given, made, made_attached};
use crate::fixtures::three_documents::documents;
use adapters::Counter;
use link_store::{LinkStore, RowStore, SlotStore};
use mm_types::{AdapterNo, Node, ObjectNo, Refused, ResourceNo};
use std::alloc::Global;
use std::test::Fail;

const IN_ORDER: Order<'static> = Order {
    making: &[0, 1, 2],
    loading: &[0, 1, 2],
};

fn attach<L: LinkStore>(
    repository: &mut Network<L>,
    no: u32,
    target: Node,
    deep: bool,
    counter: Counter,
) -> Result<(), Refused> {
    made_attached(repository.attach(AdapterNo(no), target, deep, counter))
}

/// Each loaded object and each resource, and how many notifications a flat and a deep adapter of this node get. When a proxy is resolved,
/// there is one notification at its end and, if its reference has an opposite, one at the opposite end.
const HEARD: [(Node, u64, u64); 11] = [
    (Node::Object(ObjectNo(0)), 5, 6),
    (Node::Object(ObjectNo(1)), 1, 1),
    (Node::Object(ObjectNo(2)), 0, 0),
    (Node::Object(ObjectNo(3)), 3, 4),
    (Node::Object(ObjectNo(4)), 1, 1),
    (Node::Object(ObjectNo(5)), 1, 1),
    (Node::Object(ObjectNo(6)), 2, 5),
    (Node::Object(ObjectNo(7)), 3, 3),
    (Node::Resource(ResourceNo(0)), 0, 6),
    (Node::Resource(ResourceNo(1)), 0, 5),
    (Node::Resource(ResourceNo(2)), 0, 5),
];

/// The number of a node's deep adapter, given the number of the same node's flat adapter. Each node has one flat and one deep adapter.
fn deep_beside(no: u32) -> u32 {
    no.wrapping_add(100)
}

/// Attaches a flat and a deep adapter to each node.
fn attach_to_each<L: LinkStore>(repository: &mut Network<L>) -> Result<(), Refused> {
    let mut no = 0;
    for (node, _, _) in &HEARD {
        attach(repository, no, *node, false, Counter::new())?;
        attach(repository, deep_beside(no), *node, true, Counter::new())?;
        no = no.wrapping_add(1);
    }
    Ok(())
}

fn check_heard<L: LinkStore>(repository: &Network<L>) -> Result<(), Fail> {
    let mut no = 0;
    for (node, flat, deep) in &HEARD {
        let found = repository.adapter_told(AdapterNo(no))?;
        let below = repository.adapter_told(AdapterNo(deep_beside(no)))?;
        if (found, below) != (*flat, *deep) {
            return Err(Fail::new(format_args!("{found} and {below} at {node:?}")));
        }
        no = no.wrapping_add(1);
    }
    Ok(())
}

/// Loads the three documents, and attaches the adapters. Then resolves all proxies, checks the notifications, and resolves all proxies
/// again. Returns the answer of the second resolve.
fn resolved_twice<L: LinkStore>(
    alloc: Global,
    repository: &mut Network<L>,
) -> Result<String, Fail> {
    let texts = documents(alloc)?;
    reload(alloc, repository, texts.as_slice(), IN_ORDER)?;
    attach_to_each(repository)?;
    check_resolved(repository, (10, 0))?;
    check_heard(repository)?;
    given(alloc, repository.resolve_all())
}

fn heard_twice<L: LinkStore>(alloc: Global) -> Result<String, Fail> {
    let mut repository = network::<L>(alloc)?;
    resolved_twice(alloc, &mut repository)
}

#[test]
fn each_end_that_is_resolved_is_told_once(rt: HostRuntime) -> Result<(), Fail> {
    let nothing = "Resolved { done: 0, left: 0 }";
    assert_eq!(rt; heard_twice::<RowStore>(rt.alloc())?.as_str(), nothing);
    assert_eq!(rt; heard_twice::<SlotStore>(rt.alloc())?.as_str(), nothing);
    Ok(())
}

/// The count of a counter that can count `room` more notifications.
fn with_room(room: u64) -> u64 {
    u64::MAX - room
}

/// Attaches a deep counter to each of the first two resources. The counter at the first resource can count `room` more notifications.
fn attach_two<L: LinkStore>(repository: &mut Network<L>, room: u64) -> Result<(), Refused> {
    attach(repository, 1, resource(1), true, Counter::new())?;
    let counter = Counter::starting_at(with_room(room));
    attach(repository, 0, resource(0), true, counter)
}

/// Fails if one of the two counters got a notification since it was attached.
fn check_untold<L: LinkStore>(repository: &Network<L>, room: u64) -> Result<(), Fail> {
    let told = (
        repository.adapter_told(AdapterNo(0)),
        repository.adapter_told(AdapterNo(1)),
    );
    if told == (Ok(with_room(room)), Ok(0)) {
        return Ok(());
    }
    Err(Fail::new(format_args!("{told:?} with room for {room}")))
}

/// Attaches the two counters, calls `resolve_all`, and detaches the counters. Fails unless the call is refused for lack of capacity,
/// nothing changes, and no adapter is notified.
fn check_refused<L: LinkStore>(
    alloc: Global,
    repository: &mut Network<L>,
    room: u64,
) -> Result<(), Fail> {
    attach_two(repository, room)?;
    let before = snapshots(alloc, repository, 3)?;
    let refused = made(repository.resolve_all()).err();
    if refused != Some(Refused::AdapterFull) || snapshots(alloc, repository, 3)? != before {
        return Err(Fail::new(format_args!("{refused:?} with room for {room}")));
    }
    check_untold(repository, room)?;
    made(repository.detach(AdapterNo(0)))?;
    made(repository.detach(AdapterNo(1)))?;
    Ok(())
}

/// Checks that resolving all proxies is refused if the counter at the first resource can count only one to six more notifications, and is
/// done if it can count seven. The counter would be notified six times, and must still be able to get REMOVING_ADAPTER.
fn check_rooms<L: LinkStore>(alloc: Global, repository: &mut Network<L>) -> Result<(), Fail> {
    let texts = documents(alloc)?;
    reload(alloc, repository, texts.as_slice(), IN_ORDER)?;
    for room in 1..7 {
        check_refused(alloc, repository, room)?;
    }
    attach_two(repository, 7)?;
    check_resolved(repository, (10, 0))?;
    check_saved(repository, texts.as_slice(), IN_ORDER)
}

fn check_rooms_in<L: LinkStore>(alloc: Global) -> Result<(), Fail> {
    let mut repository = network::<L>(alloc)?;
    check_rooms(alloc, &mut repository)
}

#[test]
fn all_is_refused_where_an_adapter_has_room_for_some(rt: HostRuntime) -> Result<(), Fail> {
    check_rooms_in::<RowStore>(rt.alloc())?;
    check_rooms_in::<SlotStore>(rt.alloc())
}
