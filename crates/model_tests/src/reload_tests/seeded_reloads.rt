//! Pseudo-random models are saved, and loaded in pseudo-random orders.
use crate::fixtures::network::{
    Network, Order, SEES, TOP, check_resolved, check_saved, network, reload, resource,
};
use crate::fixtures::replies::{made, made_attached};
use crate::fixtures::seeded_network::{RESOURCES, fill, saved};
use crate::fixtures::seeds::shuffled;
use adapters::Counter;
use link_store::{LinkStore, RowStore, SlotStore};
use mm_types::{AdapterNo, FeatureNo, Node, ObjectNo, Refused, Text, Value};
use snapshots::{FeatureState, NodeState};
use std::alloc::{AllocError, Global};
use std::test::Fail;

/// The location of a proxy.
#[derive(Clone, Copy)]
struct Site {
    resource: u32,
    object: ObjectNo,
    feature: FeatureNo,
    index: u32,
}

/// Adds the locations of the proxies in a feature of an object.
fn push_sites(
    sites: &mut Vec<Site>,
    resource: u32,
    object: ObjectNo,
    state: &FeatureState,
) -> Result<(), AllocError> {
    let (feature, mut index) = (state.feature, 0u32);
    for value in state.values.as_slice() {
        if matches!(value, Value::Proxy(_)) {
            sites.push(Site {
                resource,
                object,
                feature,
                index,
            })?;
        }
        index = index.wrapping_add(1);
    }
    Ok(())
}

/// Adds the locations of an object's proxies.
fn push_sites_of(
    sites: &mut Vec<Site>,
    resource: u32,
    state: &NodeState,
) -> Result<(), AllocError> {
    let Node::Object(object) = state.node else {
        return Ok(());
    };
    for feature in state.features.as_slice() {
        push_sites(sites, resource, object, feature)?;
    }
    Ok(())
}

/// Adds the locations of a resource's proxies.
fn push_sites_in<L: LinkStore>(
    alloc: Global,
    sites: &mut Vec<Site>,
    repository: &Network<L>,
    number: u32,
) -> Result<(), Fail> {
    let snapshot = Box::new(alloc, repository.snapshot(resource(number))?)?;
    for state in snapshot.nodes() {
        push_sites_of(sites, number, state)?;
    }
    Ok(())
}

/// The locations of all proxies.
fn sites<L: LinkStore>(alloc: Global, repository: &Network<L>) -> Result<Vec<Site>, Fail> {
    let mut sites = Vec::new(alloc);
    for number in 0..RESOURCES {
        push_sites_in(alloc, &mut sites, repository, number)?;
    }
    Ok(sites)
}

/// How many links the proxies at `sites` stand for. A link of a reference with an opposite has a proxy at each of its two ends; `sees` and
/// `top` have no opposite.
fn count_links(sites: &[Site]) -> u64 {
    let ends = sites
        .iter()
        .filter(|site| site.feature != SEES && site.feature != TOP)
        .count();
    sites.len().wrapping_sub(ends / 2) as u64
}

/// How many of the locations are in a resource.
fn count_in(sites: &[Site], number: u32) -> u64 {
    let count = sites.iter().filter(|site| site.resource == number);
    count.count() as u64
}

/// Attaches a deep adapter to each resource. The adapter has the number of its resource.
fn attach_to_resources<L: LinkStore>(repository: &mut Network<L>) -> Result<(), Refused> {
    for number in 0..RESOURCES {
        let no = AdapterNo(number);
        made_attached(repository.attach(no, resource(number), true, Counter::new()))?;
    }
    Ok(())
}

/// Fails unless the adapter of each resource was notified once of each proxy in this resource.
fn check_told<L: LinkStore>(repository: &Network<L>, sites: &[Site]) -> Result<(), Fail> {
    for number in 0..RESOURCES {
        let told = repository.adapter_told(AdapterNo(number))?;
        if told != count_in(sites, number) {
            return Err(Fail::new(format_args!("{told} told of resource {number}")));
        }
    }
    Ok(())
}

/// Loads the texts, and resolves all proxies by one command. Checks the notifications, and that each resource is saved as its text again.
fn check_at_once<L: LinkStore>(
    alloc: Global,
    repository: &mut Network<L>,
    texts: &[Text],
    order: Order<'_>,
) -> Result<(), Fail> {
    reload(alloc, repository, texts, order)?;
    let sites = sites(alloc, repository)?;
    attach_to_resources(repository)?;
    check_resolved(repository, (count_links(sites.as_slice()), 0))?;
    check_told(repository, sites.as_slice())?;
    check_saved(repository, texts, order)
}

/// Resolves the proxy at a location, and returns whether there was one. There is none if the proxy at the opposite end of the same link was
/// resolved before.
fn is_resolved<L: LinkStore>(repository: &mut Network<L>, site: Site) -> Result<bool, Refused> {
    match made(repository.resolve(site.object, site.feature, site.index)) {
        Ok(()) => Ok(true),
        Err(Refused::NotProxy) => Ok(false),
        Err(refused) => Err(refused),
    }
}

/// Resolves the proxies at the locations one by one; `order` has the indexes of the locations, in the order in which they are taken.
/// Returns how many proxies were resolved; the two proxies of one link count as one.
fn resolve_each<L: LinkStore>(
    repository: &mut Network<L>,
    sites: &[Site],
    order: &[u32],
) -> Result<u64, Fail> {
    let mut done: u64 = 0;
    for i in order {
        let site = sites.get(*i as usize).ok_or("no such site")?;
        done = done.wrapping_add(u64::from(is_resolved(repository, *site)?));
    }
    Ok(done)
}

/// Loads the texts, and resolves all proxies one by one, in an order that is chosen by a seed. Checks how many were resolved, that no proxy
/// is left, and that each resource is saved as its text again.
fn check_one_by_one<L: LinkStore>(
    alloc: Global,
    repository: &mut Network<L>,
    texts: &[Text],
    order: Order<'_>,
    seed: u32,
) -> Result<(), Fail> {
    reload(alloc, repository, texts, order)?;
    let sites = sites(alloc, repository)?;
    let turns = shuffled(alloc, u32::try_from(sites.len())?, seed)?;
    let done = resolve_each(repository, sites.as_slice(), turns.as_slice())?;
    if done != count_links(sites.as_slice()) {
        return Err(Fail::new(format_args!("{done} resolved")));
    }
    check_resolved(repository, (0, 0))?;
    check_saved(repository, texts, order)
}

/// How many items a model over `SlotStore` has. A model over `RowStore`, which scans its rows, has `FEW`.
const MANY: u32 = 300;

const FEW: u32 = 60;

/// The saved texts of a model of `items` items, which is chosen by a seed.
fn texts_of<L: LinkStore>(alloc: Global, items: u32, seed: u32) -> Result<Vec<Text>, Fail> {
    let mut repository = network::<L>(alloc)?;
    fill(alloc, &mut repository, items, seed)?;
    saved(alloc, &repository)
}

/// Makes the resources in one order, and loads them in a second order; a seed chooses both orders. Resolves all proxies by one command, and
/// checks what `check_at_once` checks.
fn check_order<L: LinkStore>(alloc: Global, texts: &[Text], seed: u32) -> Result<(), Fail> {
    let making = shuffled(alloc, RESOURCES, seed)?;
    let loading = shuffled(alloc, RESOURCES, !seed)?;
    let order = Order {
        making: making.as_slice(),
        loading: loading.as_slice(),
    };
    let mut repository = network::<L>(alloc)?;
    check_at_once(alloc, &mut repository, texts, order)
}

/// Saves the model that is chosen by a seed. Then makes and loads the model's resources three times, in orders that depend on the seed, and
/// checks each time what `check_at_once` checks.
fn check_seed<L: LinkStore>(alloc: Global, items: u32, seed: u32) -> Result<(), Fail> {
    let texts = texts_of::<L>(alloc, items, seed)?;
    for order in 10..13 {
        check_order::<L>(alloc, texts.as_slice(), seed.wrapping_mul(order))?;
    }
    Ok(())
}

#[test]
fn models_of_three_seeds_are_had_again(rt: HostRuntime) -> Result<(), Fail> {
    for seed in [1, 2, 3] {
        check_seed::<RowStore>(rt.alloc(), FEW, seed)?;
        check_seed::<SlotStore>(rt.alloc(), MANY, seed)?;
    }
    Ok(())
}

/// Saves the model that is chosen by a seed. Then loads the model, resolves the proxies one by one, and checks what `check_one_by_one`
/// checks.
fn check_seed_one_by_one<L: LinkStore>(alloc: Global, items: u32, seed: u32) -> Result<(), Fail> {
    let texts = texts_of::<L>(alloc, items, seed)?;
    let order = Order {
        making: &[3, 1, 4, 0, 2],
        loading: &[2, 0, 3, 4, 1],
    };
    let mut repository = network::<L>(alloc)?;
    check_one_by_one(alloc, &mut repository, texts.as_slice(), order, seed)
}

#[test]
fn a_model_is_had_again_proxy_by_proxy(rt: HostRuntime) -> Result<(), Fail> {
    check_seed_one_by_one::<RowStore>(rt.alloc(), FEW, 4)?;
    check_seed_one_by_one::<SlotStore>(rt.alloc(), MANY, 4)
}
