//! The numbers that the objects of a document get.
ghost use Rattle.std.specs.Prelude.{◌≡◌};
ghost use Rattle.doc_loader.specs.Fits.{IsNumbered};
ghost use Rattle.doc_loader.specs.Loading as l;

use mm_types::{End, FeatureNo, Node, ObjectNo};

/// The number that an object of a document gets. `object` is its number in the document, and the first object of the document gets `next`.
/// Takes no memory.
pub fn loaded(next: usize, object: ObjectNo) -> ObjectNo
    requires fits { IsNumbered next object }
    ensures { result ≡ l.loaded_number next object }
{
    ObjectNo((next + object.0 as usize) as u32)
}

/// The end of `feature` at the object `object` of a document. The end names the object by the number that the object gets; the first object
/// of the document gets `next`.
pub(crate) fn object_end(next: usize, object: ObjectNo, feature: FeatureNo) -> End
    requires fits { IsNumbered next object }
    ensures { result ≡ l.object_end next object feature }
{
    End {
        node: Node::Object(loaded(next, object)),
        feature,
    }
}
