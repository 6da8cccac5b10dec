//! The ends that hold the roots of resources.
ghost use Rattle.std.specs.Prelude.{◌≡◌};
ghost use Rattle.models.specs.Model.{reading};
ghost use Rattle.models.specs.Reading as r;

use crate::model_ref::ModelRef;
use links::LinkStore;
use mm_meta::Meta;
use mm_types::{End, Node, ResourceNo};

/// The end that holds the roots of a resource in any model of the metamodel `meta`. Takes no memory.
pub fn contents_end(meta: &Meta, resource: ResourceNo) -> End
    ensures { result ≡ r.contents_end meta.now resource }
{
    End {
        node: Node::Resource(resource),
        feature: meta.contents(),
    }
}

/// The end that holds the roots of a resource (EMF: Resource.getContents). Takes no memory.
pub fn roots_end<L: LinkStore>(model: &ModelRef<L>, resource: ResourceNo) -> End
    ensures { result ≡ r.roots_end (reading model.now) resource }
{
    contents_end(model.meta(), resource)
}
