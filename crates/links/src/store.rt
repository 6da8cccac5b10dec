//! Stores of links.
ghost use Rattle.std.specs.Prelude.{◌≡◌, ℕ, ◌<◌, List, [], ◌∷◌, if◌then◌else◌, is_ok, length, map, slice_get, IfOk, OnOk, MatchOption, None, Some};
ghost use Rattle.links.specs.declared.plan.Edit.TheVariants as edit;
ghost use Rattle.std.specs.Option.{option_copied};
ghost use Rattle.mm_types.specs.declared.numbers.Node.TheVariants as node;
ghost use Rattle.mm_types.specs.declared.value.Value.TheVariants as value;
ghost use Rattle.links.specs.declared.plan.Edit.{Edit};
ghost use Rattle.links.specs.Holders.{holder as holder_of};
ghost use Rattle.links.specs.LegalSets.{AreKinds, IsLegalSet, Kinds};
ghost use Rattle.links.specs.Links.{Links, end as end_of, no_links, object_at, proxy_at as proxy_of};
ghost use Rattle.links.specs.Plans.{AreIncoming, AreInOrder, AreEntriesOf, EditFits, HasPlanOfKind, IsEditOfKind, IsPlanOfKind, Lacks, PlanFits, links_after_edits, links_after_edit, incoming_end};

use crate::incoming::Incoming;
use crate::link::NewLink;
use crate::plan::Plan;
use mm_types::{End, ObjectNo};
use std::alloc::{AllocError, Global};

/// A set of links, however it is kept.
///
/// A put names the opposite of its end's feature, and the containing feature. A store may keep both. If it does, it agrees only with
/// metamodels that give the feature the same opposite and the same containing feature (`Kinds`). An empty store agrees with the kinds of
/// every metamodel. If a store and a plan agree with some kinds, the store agrees with these kinds after `apply` too. Likewise, if a store
/// and a new link agree with some kinds, the store agrees with them after `put`.
pub trait LinkStore: Drop {
    /// The links.
    ghost links: { Self → Links };

    /// The kinds of features with which the store agrees.
    ghost kinds: { Self → Kinds → Type 0 };

    /// Whether there is capacity for a plan.
    ghost has_room: { Self → List Edit → Type 0 };

    /// A store with no link. Takes no memory.
    fn empty(alloc: Global) -> Self
        ensures links { links result ≡ no_links }
        ensures kinds { (m : Kinds) → AreKinds m → kinds result m };

    /// How many values an end has.
    fn len(&self, end: End) -> usize
        requires legal { IsLegalSet (links self.now) }
        ensures { result ≡ length (end_of (links self.now) end) };

    /// The object at a position of an end; `None` past the last position, and if a proxy is there.
    fn at(&self, end: End, index: u32) -> Option<ObjectNo>
        requires legal { IsLegalSet (links self.now) }
        ensures { result ≡ object_at (links self.now) end index };

    /// The text of the proxy at a position of an end; `None` past the last position, and if an object is there.
    fn proxy_at(&self, end: End, index: u32) -> Option<&str>
        requires legal { IsLegalSet (links self.now) }
        ensures { option_copied result ≡ proxy_of (links self.now) end index };

    /// A position of an end before which there is no proxy. A search for a proxy can begin at this position.
    fn proxy_start(&self, end: End) -> usize
        requires legal { IsLegalSet (links self.now) }
        ensures { (k : ℕ) → k < result → proxy_of (links self.now) end k ≡ None };

    /// The position of an object in an end; `None` if the object is not in the end.
    fn position(&self, end: End, object: ObjectNo) -> Option<u32>
        requires legal { IsLegalSet (links self.now) }
        ensures { MatchOption result (Lacks (links self.now) end (value.Object object)) (λ k. slice_get (end_of (links self.now) end) k ≡ Some (value.Object object)) };

    /// The end that contains an object (EMF: eContainer, eContainmentFeature); `None` if no end contains it.
    fn holder(&self, object: ObjectNo) -> Option<End>
        requires legal { IsLegalSet (links self.now) }
        ensures { result ≡ holder_of (links self.now) (node.Object object) };

    /// The positions of an object, one for each end that has the object. They are sorted by the number of the feature, then by the kind of
    /// the node (objects first), then by the number of the node. Fails only if memory is refused.
    fn incoming(&self, alloc: Global, object: ObjectNo) -> Result<Vec<Incoming>, AllocError>
        requires legal { IsLegalSet (links self.now) }
        ensures entries { IfOk result (λ r. AreEntriesOf (links self.now) object r.items) }
        ensures order { IfOk result (λ r. AreInOrder (map incoming_end r.items)) };

    /// The ends that an object is in, in any order; an end may be repeated. Fails only if memory is refused.
    fn ends_holding(&self, alloc: Global, object: ObjectNo) -> Result<Vec<End>, AllocError>
        requires legal { IsLegalSet (links self.now) }
        ensures { IfOk result (λ r. AreIncoming (links self.now) object r.items) };

    /// Takes all the memory that a plan needs, and changes no link. Fails only if memory is refused.
    fn reserve_for(&mut self, plan: &Plan) -> Result<(), AllocError>
        ensures links { links self.new ≡ links self.old }
        ensures kinds { (m : Kinds) → kinds self.old m → kinds self.new m }
        ensures ok { OnOk result (has_room self.new plan.now) };

    /// Makes the edits of a plan, in their order. Takes no memory.
    fn apply(&mut self, plan: Plan)
        requires legal { IsLegalSet (links self.old) }
        requires fits { PlanFits (links self.old) plan }
        requires of_kind { HasPlanOfKind (kinds self.old) plan }
        requires reserved { has_room self.old plan }
        ensures links { links self.new ≡ links_after_edits (links self.old) plan }
        ensures kinds { (m : Kinds) → kinds self.old m → IsPlanOfKind m plan → kinds self.new m };

    /// Takes the memory for one link, and puts the link in (`Edit::Put`). Fails only if memory is refused, and then no link changes.
    fn put(&mut self, link: NewLink) -> Result<(), AllocError>
        requires legal { IsLegalSet (links self.old) }
        requires fits { EditFits (links self.old) (edit.Put link) }
        requires of_kind { HasPlanOfKind (kinds self.old) (edit.Put link ∷ []) }
        ensures links { links self.new ≡ (if is_ok result then links_after_edit (links self.old) (edit.Put link) else links self.old) }
        ensures kinds { (m : Kinds) → kinds self.old m → OnOk result (IsEditOfKind m (edit.Put link)) → kinds self.new m };
}
