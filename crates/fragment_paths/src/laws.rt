//! Laws on fragments and addresses in legal models. Each law is the contract of a function that does nothing.
ghost use Rattle.std.specs.Prelude.{◌≡◌, Some};
ghost use Rattle.mm_types.specs.Resolved.{Metamodel};
ghost use Rattle.mm_types.specs.declared.numbers.ObjectNo.{ObjectNo};
ghost use Rattle.mm_types.specs.declared.numbers.ResourceNo.{ResourceNo};
ghost use Rattle.mm_values.specs.Values.{ValuesState};
ghost use Rattle.links.specs.Holders.{above};
ghost use Rattle.links.specs.Links.{Links};
ghost use Rattle.models.specs.Legal.{IsLegal};
ghost use Rattle.models.specs.Model.{Model, model_of, reading};
ghost use Rattle.containment.specs.Above.{resource_of};
ghost use Rattle.fragment_paths.specs.Laws.{FindsEach, HasImagesOfParts, HasImagesOfRoots, HaveSameParts, IsImageAt, LeavesAddresses};

/// An object that is in a resource has a path, a fragment and an address, and each of them leads to that object (EMF: Resource.getEObject
/// of Resource.getURIFragment; ResourceSet.getEObject of EcoreUtil.getURI).
pub fn an_object_is_found_where_it_stands()
    ensures { (s : Model) → IsLegal s → FindsEach (reading s) }
{}

/// If each end of a containment holds the same values in two models of one metamodel, each node has the same nodes above it in both models,
/// and each object has the same fragment. If the resources have the same URIs too, each object also has the same address.
pub fn addresses_follow_from_what_contains_what()
    ensures { (m : Metamodel) (v w : ValuesState) (a b : Links) → IsLegal (model_of m v a) → IsLegal (model_of m w b) → HaveSameParts m v w a b → LeavesAddresses m v w a b }
{}

/// Take a resource in each of two models of one metamodel. Let each object of the first resource have an image in the second model. Let the
/// image of each root be a root of the second resource at the same position. Let the image of each object contain the images of the
/// object's contents, under the same features and at the same positions. Then the image of each object is in the second resource and has
/// the same path as the object.
pub fn parts_at_the_same_positions_have_the_same_paths()
    ensures { (m : Metamodel) (v w : ValuesState) (a b : Links) (k j : ResourceNo) (image : ObjectNo → ObjectNo) → IsLegal (model_of m v a) → IsLegal (model_of m w b) → HasImagesOfRoots m v w a b k j image → HasImagesOfParts m v w a b k image → (o : ObjectNo) → resource_of (above a) o ≡ Some k → IsImageAt m v w a b j image o }
{}
