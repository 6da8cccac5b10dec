//! Lists of adapters. Adapters are attached, given targets and notified; attaches, targets and chains are refused.
use crate::fixtures::no_links::without_links;
use crate::fixtures::notices::added;
use crate::fixtures::telling::{Kind, NEARLY_FULL, adapter, attach, tell, three, three_notices};
use adapter_list::AdapterList;
use adapters::{Adapter, Counter, Window};
use mm_types::{AdapterNo, Node, ObjectNo, Refused};
use notice_chain::{Chain, Notice};
use std::alloc::{AllocError, Global};
use std::test::Fail;

/// How many notifications each of the three adapters of a list got.
fn told_of_three<A: Adapter>(list: &AdapterList<A>) -> [Option<u64>; 3] {
    [
        list.told(AdapterNo(5)),
        list.told(AdapterNo(6)),
        list.told(AdapterNo(7)),
    ]
}

/// Tries to deliver `three_notices` to three adapters at object 1. Returns why the chain is refused (`None` if it is delivered), and how
/// many notifications each adapter has counted afterwards.
fn refused_to_three<A: Adapter>(
    alloc: Global,
    first: A,
    second: A,
    third: A,
) -> Result<(Option<Refused>, [Option<u64>; 3]), Fail> {
    let mut list = three(alloc, [1, 1, 1], first, second, third)?;
    let chain = three_notices(alloc)?;
    let store = without_links(alloc);
    let refused = tell(alloc, &store, &mut *list, chain).err();
    Ok((refused, told_of_three(&*list)))
}

/// For each case: the kinds of three adapters, in attach order, and why a chain is refused. One or two of the adapters can't be notified of
/// the chain; the first of these in attach order decides.
const REFUSED: [(Kind, Kind, Kind, Refused); 3] = [
    (
        Kind::Recorder,
        Kind::NearlyFull,
        Kind::Recorder,
        Refused::AdapterFull,
    ),
    (
        Kind::Poor,
        Kind::NearlyFull,
        Kind::Recorder,
        Refused::Memory,
    ),
    (
        Kind::Recorder,
        Kind::NearlyFull,
        Kind::Poor,
        Refused::AdapterFull,
    ),
];

/// How many notifications each adapter of a case of `REFUSED` has counted if no adapter was notified. The second adapter is nearly full in
/// each case.
const NONE_TOLD: [Option<u64>; 3] = [Some(0), Some(NEARLY_FULL), Some(0)];

#[test]
fn a_chain_that_one_adapter_cannot_hear_notifies_none(rt: HostRuntime) -> Result<(), Fail> {
    let alloc = rt.alloc();
    for (first, second, third, reason) in &REFUSED {
        let (first, second) = (adapter(alloc, *first)?, adapter(alloc, *second)?);
        let found = refused_to_three(alloc, first, second, adapter(alloc, *third)?)?;
        assert_eq!(rt; found, (Some(*reason), NONE_TOLD));
    }
    Ok(())
}

/// A list of three counters: the first and the third are at object 1, and the second is at object 2.
fn counters(alloc: Global) -> Result<Box<AdapterList<Counter>>, Fail> {
    three(
        alloc,
        [1, 2, 1],
        Counter::new(),
        Counter::new(),
        Counter::new(),
    )
}

/// The number and the first target of the adapter at each index of the list that `counters` makes, and `None` at the index past the last
/// adapter.
const PLACES: [Option<(AdapterNo, Node)>; 4] = [
    Some((AdapterNo(5), Node::Object(ObjectNo(1)))),
    Some((AdapterNo(6), Node::Object(ObjectNo(2)))),
    Some((AdapterNo(7), Node::Object(ObjectNo(1)))),
    None,
];

/// The number and the first target of the adapter at an index; `None` if the list has no adapter there.
fn first_at<A: Adapter>(list: &AdapterList<A>, i: usize) -> Option<(AdapterNo, Node)> {
    let (no, targets) = list.at(i)?;
    let target = targets.front()?;
    Some((no, target.node))
}

/// The numbers of the adapters that get the notification `notice`.
fn audience<A: Adapter>(
    alloc: Global,
    list: &AdapterList<A>,
    notice: &Notice,
) -> Result<String, AllocError> {
    let audience = list.audience(&without_links(alloc), notice)?;
    format!(in alloc; "{audience:?}")
}

#[test]
fn adapters_stand_in_attach_order(rt: HostRuntime) -> Result<(), Fail> {
    let list = counters(rt.alloc())?;
    assert_eq!(rt; list.len(), 3);
    for (i, wanted) in PLACES.iter().enumerate() {
        assert!(rt; first_at(&list, i) == *wanted, "at {i}");
    }
    assert_eq!(rt; list.told(AdapterNo(8)), None);
    assert_eq!(rt; list.kept_len(AdapterNo(5)), Some(0));
    let found = audience(rt.alloc(), &list, &added(1, 0))?;
    assert_eq!(rt; found.as_str(), "[AdapterNo(5), AdapterNo(7)]");
    Ok(())
}

/// Which adapter is notified of what, in order, as `5 0, 7 0, `: the adapter's number and the notification's position.
fn told(alloc: Global, told: &[(AdapterNo, Notice)]) -> Result<String, AllocError> {
    let mut shown = String::new(alloc);
    for (no, notice) in told {
        let one = format!(in alloc; "{} {}, ", no.0, notice.position)?;
        shown.push_str(one.as_str())?;
    }
    Ok(shown)
}

/// Delivers three notifications to a list of three adapters: the first and the third are at object 1, and the second is at object 2.
/// Returns which adapter is notified of what, how many notifications each adapter got, and how many the first adapter keeps.
fn delivered<A: Adapter>(alloc: Global, first: A, second: A, third: A) -> Result<String, Fail> {
    let mut list = three(alloc, [1, 2, 1], first, second, third)?;
    let chain = three_notices(alloc)?;
    let store = without_links(alloc);
    let told = told(alloc, &tell(alloc, &store, &mut *list, chain)?)?;
    let (counts, kept) = (told_of_three(&*list), list.kept_len(AdapterNo(5)));
    Ok(format!(in alloc; "{told}told {counts:?} kept {kept:?}")?)
}

const DELIVERED: &str = "5 0, 7 0, 6 0, 5 1, 7 1, told [Some(2), Some(1), Some(2)] kept Some(1)";

#[test]
fn a_chain_is_delivered_in_order_to_its_audience(rt: HostRuntime) -> Result<(), Fail> {
    let alloc = rt.alloc();
    let first = adapter(alloc, Kind::WindowOfOne)?;
    let second = adapter(alloc, Kind::Recorder)?;
    let found = delivered(alloc, first, second, adapter(alloc, Kind::Counter)?)?;
    assert_eq!(rt; found.as_str(), DELIVERED);
    Ok(())
}

#[test]
fn a_window_of_two_in_a_list_keeps_two_of_three(rt: HostRuntime) -> Result<(), Fail> {
    let mut list = Box::new(rt.alloc(), AdapterList::new(rt.alloc()))?;
    attach(&mut list, 5, 1, Window::new(rt.alloc(), 2)?)?;
    let notices = vec![in rt.alloc(); added(1, 0), added(1, 1), added(1, 2)]?;
    let store = without_links(rt.alloc());
    assert!(rt; tell(rt.alloc(), &store, &mut *list, Chain::from_vec(notices)).is_ok());
    assert_eq!(rt; list.told(AdapterNo(5)), Some(3));
    assert_eq!(rt; list.kept_len(AdapterNo(5)), Some(2));
    Ok(())
}

#[test]
fn a_taken_number_and_a_full_adapter_are_not_attached(rt: HostRuntime) -> Result<(), Fail> {
    let mut list = Box::new(rt.alloc(), AdapterList::new(rt.alloc()))?;
    attach(&mut list, 5, 1, Counter::new())?;
    let taken = attach(&mut list, 5, 2, Counter::new());
    assert_eq!(rt; taken, Err(Refused::AdapterTaken));
    let last = Counter::starting_at(18446744073709551615);
    assert_eq!(rt; attach(&mut list, 6, 2, last), Err(Refused::AdapterFull));
    assert_eq!(rt; list.len(), 1);
    Ok(())
}

/// The targets of an adapter as a text, each with its flag `deep`; `none` if no adapter has the number `no`.
fn targets<A: Adapter>(
    alloc: Global,
    list: &AdapterList<A>,
    no: u32,
) -> Result<String, AllocError> {
    match list.targets(AdapterNo(no)) {
        Some(targets) => format!(in alloc; "{targets:?}"),
        None => format!(in alloc; "none"),
    }
}

#[test]
fn an_adapter_gets_targets_and_hears_of_each(rt: HostRuntime) -> Result<(), Fail> {
    let mut list = counters(rt.alloc())?;
    let two = Node::Object(ObjectNo(2));
    assert_eq!(rt; list.watch(AdapterNo(7), two, true), Ok(true));
    assert_eq!(rt; list.watch(AdapterNo(7), two, false), Ok(false));
    assert_eq!(rt;
        list.watch(AdapterNo(8), two, false),
        Err(Refused::NoAdapter)
    );
    assert!(rt; list.is_target(AdapterNo(7), two));
    assert!(rt; !list.is_target(AdapterNo(5), two));
    let found = targets(rt.alloc(), &list, 7)?;
    assert_eq!(rt;
        found.as_str(),
        "[Target { node: Object(ObjectNo(1)), deep: false }, Target { node: Object(ObjectNo(2)), deep: true }]"
    );
    let heard = audience(rt.alloc(), &list, &added(2, 0))?;
    assert_eq!(rt; heard.as_str(), "[AdapterNo(6), AdapterNo(7)]");
    let touched = list.touched(&[ObjectNo(2)])?;
    assert_eq!(rt; touched.as_slice(), [1, 2].as_slice());
    Ok(())
}
