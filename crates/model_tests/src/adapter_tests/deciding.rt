//! Which of two adapters decides why a chain is refused, if neither adapter can be notified of the chain.
use crate::fixtures::no_links::without_links;
use crate::fixtures::notices::added;
use crate::fixtures::telling::{Kind, adapter, attach, tell};
use adapter_list::AdapterList;
use adapters::Adapter;
use mm_types::Refused;
use notice_chain::Chain;
use std::alloc::Global;
use std::test::Fail;

/// Tries to deliver a chain to two adapters at two objects. Returns why the chain is refused; `None` if it is delivered. The first
/// notification of the chain is at the object of the second adapter, and the second notification is at the object of the first adapter.
fn refused_to_two<A: Adapter>(alloc: Global, first: A, second: A) -> Result<Option<Refused>, Fail> {
    let mut list = Box::new(alloc, AdapterList::new(alloc))?;
    attach(&mut *list, 5, 1, first)?;
    attach(&mut *list, 6, 2, second)?;
    let chain = Chain::from_vec(vec![in alloc; added(2, 0), added(1, 0)]?);
    let store = without_links(alloc);
    Ok(tell(alloc, &store, &mut *list, chain).err())
}

/// For each case: the kinds of two adapters, in attach order, and why the chain is refused.
const REFUSED: [(Kind, Kind, Refused); 2] = [
    (Kind::LastAlone, Kind::Poor, Refused::AdapterFull),
    (Kind::Poor, Kind::LastAlone, Refused::Memory),
];

#[test]
fn the_first_in_attach_order_decides(rt: HostRuntime) -> Result<(), Fail> {
    let alloc = rt.alloc();
    for (first, second, reason) in &REFUSED {
        let first = adapter(alloc, *first)?;
        let found = refused_to_two(alloc, first, adapter(alloc, *second)?)?;
        assert_eq!(rt; found, Some(*reason));
    }
    Ok(())
}
