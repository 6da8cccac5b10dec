//! The classes and features of a well-formed metamodel, and which classes conform to which.
ghost use Rattle.std.specs.Prelude.{◌≡◌, IfOk, length};
ghost use Rattle.mm_types.specs.Resolved.{classes_from, graph_of};
ghost use Rattle.mm_meta.specs.Resolution.{AreFeaturesOf};
ghost use Rattle.mm_types.specs.WellFormed.{WellFormed};

use crate::resolver::Resolver;
use mm_graph::{conform_table, features_table, order_of};
use mm_types::{Class, Feature, Seq};
use std::alloc::{AllocError, Global};

/// The classes and features of a metamodel document by number, and which classes conform to which.
#[derive(Drop)]
pub struct Resolution {
    pub(crate) classes: Seq<Class>,
    pub(crate) features: Seq<Feature>,
    pub(crate) conformance: Seq<Seq<bool>>,
}

impl Resolution {
    ghost use Rattle.mm_meta.specs.Resolution.{IsResolutionOf};

    /// The resolution of the well-formed document of `resolver`; `graph` has the direct supertypes of each class. Fails only if memory is
    /// refused.
    pub fn of(
        alloc: Global,
        resolver: &Resolver<'_>,
        graph: &[Seq<usize>],
    ) -> Result<Self, AllocError>
        requires well_formed { WellFormed resolver.now }
        requires graph { graph.now ≡ graph_of resolver.now.classes }
        ensures { IfOk result (IsResolutionOf resolver.now) }
    {
        let classes = classes_of(alloc, resolver, graph)?;
        let features = resolver.features(alloc)?;
        let conformance = conform_table(alloc, graph)?;
        Ok(Resolution {
            classes,
            features,
            conformance,
        })
    }
}

/// The classes of a well-formed metamodel; `graph` has the direct supertypes of each class.
fn classes_of(
    alloc: Global,
    resolver: &Resolver<'_>,
    graph: &[Seq<usize>],
) -> Result<Seq<Class>, AllocError>
    requires well_formed { WellFormed resolver.now }
    requires graph { graph.now ≡ graph_of resolver.now.classes }
    ensures { IfOk result (λ cs. cs ≡ classes_from resolver.now.classes 0 resolver.now.classes) }
{
    let all = all_features(alloc, resolver, graph)?;
    resolver.resolved_classes(alloc, graph, all)
}

/// For each class of a well-formed metamodel, the numbers of all its features, own and inherited; `graph` has the direct supertypes of each
/// class.
fn all_features(
    alloc: Global,
    resolver: &Resolver<'_>,
    graph: &[Seq<usize>],
) -> Result<Vec<Seq<u32>>, AllocError>
    requires well_formed { WellFormed resolver.now }
    requires graph { graph.now ≡ graph_of resolver.now.classes }
    ensures len { IfOk result (λ t. length t.items ≡ length resolver.now.classes) }
    ensures rows { IfOk result (λ t. AreFeaturesOf resolver.now.classes t.items) }
{
    match order_of(alloc, graph)? {
        Some(order) => features_table(alloc, graph, resolver.own(), order.as_slice()),
        None => unreachable!(),
    }
}
