//! The repository.
ghost use Rattle.std.specs.Prelude.{◌≡◌};
ghost use Rattle.models.specs.Steady.{HasSteadyTexts};
ghost use Rattle.repository.specs.State as s;

mod attaching;
mod changes;
mod commands;
mod documents;
mod endings;
mod list_reads;
mod lists;
mod loads;
mod reads;
mod resolving;
mod resources;
mod unheard;

use adapter_list::{AdapterList, Hearers};
use adapters::Adapter;
use fragment_paths::PathCache;
use links::LinkStore;
use mm_meta::Meta;
use mm_values::Values;
use models::ModelRef;
use std::alloc::Global;
use std::marker::Model;

/// Resources; objects of a metamodel's classes, with their values; the links of both, in a store; and the adapters that are notified of
/// changes (EMF: Resource with EObjects; MOF 2.5.1: Extent).
///
/// A command that is refused changes nothing and notifies no adapter. Contracts see a repository as its `State`, which is always legal. The
/// type of the store and the type of the adapters are type parameters. A caller with adapters of several types picks `Box<dyn Adapter>`.
/// Then each function that makes or returns the repository, or gets it as an argument, has to be generic over the type of the adapters, and
/// only the outermost caller picks this type. A repository that is dropped drops its adapters without notifying them; `close` gives them
/// back.
#[derive(Drop)]
pub struct Repository<L: LinkStore, A: Adapter = Box<dyn Adapter>> {
    alloc: Global,
    meta: Meta,
    values: Values,
    store: L,
    adapters: AdapterList<A>,
    /// The fragments that are remembered, up to 1,024. All of them are forgotten when a change edits a containing link, and when there
    /// would be more than 1,024.
    paths: PathCache,
    /// The result of the last search for the adapters of a notification: the node of the notification, and the adapters that are notified
    /// of changes at this node. The result is forgotten when a node may get a different container, and when an adapter gets or loses a
    /// target.
    hearers: Hearers,
}

impl<L: LinkStore, A: Adapter> Model for Repository<L, A> {
    ghost use Rattle.std.specs.Coded.{codes};
    ghost use Rattle.links.specs.Links.{coded_links};
    ghost use Rattle.models.specs.Model.{coded_map};
    ghost use Rattle.repository.specs.State.{State};
    ghost use Rattle.repository.specs.Repository.{state, IsLegalInside};

    ghost Value = { State };

    ghost coded = { Prim.hlevel (codes, coded_map, coded_links) };

    ghost view = { state L.links };

    ghost invariant = { IsLegalInside L.links L.kinds };
}

impl<L: LinkStore, A: Adapter> Repository<L, A> {
    /// An empty repository of a metamodel, with no adapters. Takes no memory.
    pub fn new(alloc: Global, meta: Meta) -> Self
        ensures { result ≡ s.empty_state meta }
    {
        meta.lemma_is_of_document();
        Repository {
            alloc,
            meta,
            values: Values::new(alloc),
            store: L::empty(alloc),
            adapters: AdapterList::new(alloc),
            paths: PathCache::new(alloc),
            hearers: Hearers::new(alloc),
        }
    }

    /// The metamodel. Takes no memory.
    pub fn meta(&self) -> &Meta
        ensures { result.now ≡ self.now.model.metamodel }
    {
        &self.meta
    }

    /// The model: the metamodel, the values and the links. Takes no memory.
    pub(crate) fn model(&self) -> ModelRef<'_, L>
        ensures { result ≡ self.now.model }
    {
        ModelRef::new(&self.meta, &self.values, &self.store)
    }

    /// The state of every repository is legal. A proof that knows a repository only as its `State` gets this fact by a call of this method.
    pub fn lemma_is_legal(&self)
        ensures { s.IsLegal self.now }
    {
        let _ = &self.alloc;
    }

    /// In every repository the URIs of resources and of proxies are normalised. The laws by which a saved resource is read back
    /// (`round_trip::laws`) require this.
    pub fn has_steady_texts(&self)
        ensures { HasSteadyTexts self.now.model }
    {
        let _ = &self.alloc;
    }
}
