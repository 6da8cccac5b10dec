//! Laws of the definitions, each the contract of a function that does nothing.
ghost use Rattle.std.specs.Prelude.{◌≤◌, ◌+◌, ℕ, List, length};
ghost use Rattle.mm_types.specs.OfDocument.{IsOfDocument};
ghost use Rattle.mm_types.specs.Resolved.{Metamodel};
ghost use Rattle.mm_types.specs.declared.limits.TheConstants.{OBJECTS};
ghost use Rattle.mm_types.specs.declared.numbers.ResourceNo.{ResourceNo};
ghost use Rattle.links.specs.Holders.{HasNoCycle};
ghost use Rattle.links.specs.LegalSets.{AreOfKind, IsLegalSet};
ghost use Rattle.links.specs.Links.{Links};
ghost use Rattle.links.specs.Plans.{IsPlanOfKind};
ghost use Rattle.models.specs.Legal.{kinds_of};
ghost use Rattle.resource_docs.specs.Causes.{IsRead};
ghost use Rattle.resource_docs.specs.declared.doc.Doc.{Doc};
ghost use Rattle.doc_loader.specs.Fits.{IsFitting};
ghost use Rattle.doc_loader.specs.Laws.{IsRoomFor, MakesLinks};
ghost use Rattle.doc_loader.specs.LoadEdits.{load_edits};
ghost use Rattle.doc_loader.specs.Typed.{IsTyped};

/// If a document was read, and its objects get numbers below OBJECTS, the document is within all limits of a load (`IsFitting`).
pub fn a_document_that_is_read_fits()
    ensures { (m : Metamodel) (uri : List ℕ) (doc : Doc) (n : ℕ) → IsRead m uri doc → n + length doc.objects ≤ OBJECTS → IsFitting n doc }
{}

/// A document that was read agrees with its metamodel (`IsTyped`): each object is of a concrete class, and the class has the features under
/// which the object has contents; each value is of its feature's type; no feature has too many values, and no unique feature has a value
/// twice.
pub fn a_document_that_is_read_is_typed()
    ensures { (m : Metamodel) (uri : List ℕ) (doc : Doc) → IsOfDocument m → IsRead m uri doc → IsTyped m doc }
{}

/// If a document was read, the edits that put its links name the opposites and the containments that the metamodel has, and put no proxy
/// under a containment or under the opposite of a containment.
pub fn the_edits_of_a_document_are_of_kind()
    ensures { (m : Metamodel) (uri : List ℕ) (doc : Doc) (n : ℕ) (k : ResourceNo) → IsRead m uri doc → IsPlanOfKind (kinds_of m) (load_edits m n k doc) }
{}

/// Suppose that a document was read, that its first object gets the number n, and that all its objects get numbers below OBJECTS. Suppose
/// also that the set of links is legal, agrees with the metamodel and has no cycle, that no object with the number n or a higher number has
/// a link, and that the resource is empty. Then the edits of the document fit, put no node below itself, and make exactly the links of the
/// document.
pub fn the_edits_of_a_document_make_its_links()
    ensures { (m : Metamodel) (uri : List ℕ) (doc : Doc) (n : ℕ) (k : ResourceNo) (s : Links) → IsOfDocument m → IsRead m uri doc → n + length doc.objects ≤ OBJECTS → IsLegalSet s → AreOfKind (kinds_of m) s → HasNoCycle s → IsRoomFor m n k s → MakesLinks m n k doc s }
{}
