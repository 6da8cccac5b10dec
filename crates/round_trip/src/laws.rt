//! Laws of the definitions, each the contract of a function that does nothing.
ghost use Rattle.std.specs.Prelude.{◌≡◌, ℕ, List, Some, slice_get};
ghost use Rattle.mm_types.specs.declared.numbers.ResourceNo.{ResourceNo};
ghost use Rattle.models.specs.Legal.{IsLegal};
ghost use Rattle.models.specs.Model.{Model, reading};
ghost use Rattle.models.specs.Steady.{HasSteadyTexts};
ghost use Rattle.round_trip.specs.Laws.{ReadsBack, ReadsTextBack};
ghost use Rattle.round_trip.specs.PartsLaws.{AreParts};
ghost use Rattle.round_trip.specs.Readable.{IsReadable};
ghost use Rattle.round_trip.specs.TextsLaws.{LeadsBack};
ghost use Rattle.round_trip.specs.ValuesLaws.{AreReadAs};

/// In a legal model, the parts of the document of a resource are the objects of the resource, in loading order, each with its path, its
/// class and its written features.
pub fn the_parts_of_a_saved_document_are_its_objects()
    ensures { (s : Model) → IsLegal s → (k : ResourceNo) → AreParts (reading s) k }
{}

/// In a legal model with normalised URIs: the text by which a resource refers to an object is read as the path of the object, if the object
/// is in the same resource; if the object is in a different resource, the text is read as the address of the object. The text of a proxy
/// with a normalised URI is read as that text, if the URI is not that of the resource in which the text is read. No two objects have the
/// same address.
pub fn a_reference_leads_to_its_object()
    ensures { (s : Model) → IsLegal s → HasSteadyTexts s → (k : ResourceNo) (uri : List ℕ) → slice_get (reading s).uris k.0 ≡ Some uri → LeadsBack (reading s) k uri }
{}

/// Suppose that a resource of a legal model with normalised URIs is readable (`specs/Readable.antt`), and that the two laws above are true
/// of it. Then each object of the resource is read at its index in loading order, and each value of a written feature is read as it was: an
/// object of the resource is read as its index in loading order, an object of a different resource as a proxy with the address of the
/// object, and any other value as itself.
pub fn each_value_is_read_as_it_was()
    ensures { (s : Model) → IsLegal s → HasSteadyTexts s → (k : ResourceNo) (uri : List ℕ) → AreParts (reading s) k → LeadsBack (reading s) k uri → IsReadable (reading s) k uri → AreReadAs (reading s) k uri }
{}

/// In a legal model with normalised URIs, the document of a readable resource is read as that resource: its objects in loading order, each
/// with its class and the values of the features that are set, except container references. Objects of other resources are read as proxies
/// with their addresses. The text that `doc_writer::write_doc` returns is read in the same way.
pub fn what_is_saved_is_read_back()
    ensures value { (s : Model) → ReadsBack s }
    ensures text { (s : Model) → ReadsTextBack s }
{}
