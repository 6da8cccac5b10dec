//! Three resources that refer to each other, loaded in each order.
use crate::fixtures::network::{Order, check_resolved, check_saved, load, make, network, reload};
use crate::fixtures::three_documents::documents;
use link_store::{LinkStore, RowStore, SlotStore};
use mm_types::Text;
use std::alloc::Global;
use std::test::Fail;

/// The order in which the resources are loaded, by the numbers that the repository gives them: the resource that was made last is loaded
/// first.
const LAST_FIRST: [u32; 3] = [2, 1, 0];

/// For each case: the order in which the resources are made, by the numbers in their URIs; then, after each load, how many proxies are
/// resolved (the two proxies of one link count as one) and how many are left. The resource that is made last is loaded first. So in the
/// first case the first document is loaded first, then the second, then the third.
const LOADS: [([u32; 3], [(u64, u64); 3]); 6] = [
    ([2, 1, 0], [(0, 6), (3, 6), (7, 0)]),
    ([1, 2, 0], [(0, 6), (4, 5), (6, 0)]),
    ([2, 0, 1], [(0, 5), (3, 6), (7, 0)]),
    ([0, 2, 1], [(0, 5), (3, 5), (7, 0)]),
    ([1, 0, 2], [(0, 5), (4, 5), (6, 0)]),
    ([0, 1, 2], [(0, 5), (3, 5), (7, 0)]),
];

/// Loads all documents, then resolves all proxies, and checks that each resource is saved as its document again.
fn check_at_once<L: LinkStore>(
    alloc: Global,
    texts: &[Text],
    order: Order<'_>,
) -> Result<(), Fail> {
    let mut repository = network::<L>(alloc)?;
    reload(alloc, &mut repository, texts, order)?;
    check_resolved(&mut repository, (10, 0))?;
    check_saved(&repository, texts, order)
}

/// Loads the documents one after the other, and resolves all proxies after each load. Checks the numbers of proxies, and that each resource
/// is saved as its document again.
fn check_in_turn<L: LinkStore>(
    alloc: Global,
    texts: &[Text],
    order: Order<'_>,
    counts: &[(u64, u64); 3],
) -> Result<(), Fail> {
    let mut repository = network::<L>(alloc)?;
    make(alloc, &mut repository, order.making)?;
    for (number, wanted) in order.loading.iter().zip(counts) {
        load(&mut repository, texts, order.making, *number)?;
        check_resolved(&mut repository, *wanted)?;
    }
    check_saved(&repository, texts, order)
}

fn check_orders<L: LinkStore>(alloc: Global) -> Result<(), Fail> {
    let texts = documents(alloc)?;
    for (making, counts) in &LOADS {
        let order = Order {
            making,
            loading: &LAST_FIRST,
        };
        check_at_once::<L>(alloc, texts.as_slice(), order)?;
        check_in_turn::<L>(alloc, texts.as_slice(), order, counts)?;
    }
    Ok(())
}

#[test]
fn three_documents_are_had_again_in_each_order(rt: HostRuntime) -> Result<(), Fail> {
    check_orders::<RowStore>(rt.alloc())?;
    check_orders::<SlotStore>(rt.alloc())
}
