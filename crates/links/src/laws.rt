//! Laws of the definitions, each the contract of a function that does nothing.
ghost use Rattle.std.specs.Prelude.{◌≡◌, ◌↔◌, ◌<◌, ℕ, Bool, true, false, List, [], ◌∷◌, ◌++◌, length, Option, Some, None};
ghost use Rattle.std.specs.List.{list_any};
ghost use Rattle.std.specs.Option.{option_map_or};
ghost use Rattle.mm_types.specs.Same.{node_value, same_node};
ghost use Rattle.mm_types.specs.declared.numbers.FeatureNo.{FeatureNo};
ghost use Rattle.mm_types.specs.declared.numbers.Node.{Node};
ghost use Rattle.mm_types.specs.declared.numbers.Node.TheVariants as node;
ghost use Rattle.mm_types.specs.declared.numbers.ObjectNo.{ObjectNo};
ghost use Rattle.mm_types.specs.declared.numbers.ResourceNo.{ResourceNo};
ghost use Rattle.mm_types.specs.declared.end.End.{End};
ghost use Rattle.mm_types.specs.declared.value.Value.{Value};
ghost use Rattle.links.specs.declared.link.Link.{Link};
ghost use Rattle.links.specs.declared.plan.Edit.{Edit};
ghost use Rattle.links.specs.declared.plan.Edit.TheVariants as edit;
ghost use Rattle.links.specs.Holders.{HasNoCycle, IsForest, IsUnder, above, holder};
ghost use Rattle.links.specs.Laws.{AreOnce, AreThere, BothEndsAgree, CutByNameMakes, CutMakes, CutsByNameMake, HaveSameEnds, IsPutOutside, NameLinksOf, PutGives, PutMakes, PutProxyMakes, ShiftMakes, WithoutNodesMakes, contains_by, cut_edits, touches_containment, without_all};
ghost use Rattle.links.specs.LegalSets.{AreKinds, AreOfKind, IsLegalSet, Kinds};
ghost use Rattle.links.specs.Links.{In, Links, cut_value, end, no_links, put, without_nodes};
ghost use Rattle.links.specs.Plans.{EditFits, IsPlanOfKind, MakesNoCycle, PlanFits, PlanMakesNoCycle, links_after_edits, put_of};

/// The empty set of links is legal, agrees with any kinds of features (`Kinds`), and has no cycle.
pub fn no_links_are_legal()
    ensures legal { IsLegalSet no_links }
    ensures kinds { (m : Kinds) → AreOfKind m no_links }
    ensures no_cycle { HasNoCycle no_links }
{}

/// A plan that fits keeps a legal set legal.
pub fn a_plan_that_fits_keeps_a_set_legal()
    ensures { (s : Links) (plan : List Edit) → IsLegalSet s → PlanFits s plan → IsLegalSet (links_after_edits s plan) }
{}

/// If the links and a plan agree with the kinds of features (`Kinds`), the links after the plan agree with these kinds too.
pub fn a_plan_keeps_the_kinds()
    ensures { (m : Kinds) → AreKinds m → (s : Links) (plan : List Edit) → AreOfKind m s → IsPlanOfKind m plan → AreOfKind m (links_after_edits s plan) }
{}

/// A plan that fits a legal set of links without a cycle, and puts no node below itself, makes no cycle.
pub fn a_plan_makes_no_cycle()
    ensures { (s : Links) (plan : List Edit) → IsLegalSet s → PlanFits s plan → PlanMakesNoCycle s plan → HasNoCycle s → HasNoCycle (links_after_edits s plan) }
{}

/// If the set of links is legal and no node is below itself, no chain of holders is longer than the number of links. A chain of holders
/// goes from a node to the end that contains it (its holder), from the node of that end to the next holder, and so on.
pub fn chains_of_holders_end()
    ensures { (s : Links) → IsLegalSet s → HasNoCycle s → IsForest s }
{}

/// In a legal set without a cycle, the first node above a node is its container: the node of its holder, which is the end that contains it.
/// Then come the nodes above the container (EMF: eContainer, repeated). No node is above a node without a holder.
pub fn what_is_above_follows_the_holders()
    ensures { (s : Links) → IsLegalSet s → HasNoCycle s → (n : Node) → above s n ≡ option_map_or (λ (e : End). e.node ∷ above s e.node) (holder s n) [] }
{}

/// In a legal set without a cycle, if an end contains a node, fewer nodes are above the end's node than above the contained node. So a loop
/// that goes from container to container terminates.
pub fn fewer_are_above_a_holder()
    ensures { (s : Links) → IsLegalSet s → HasNoCycle s → (n : Node) (e : End) → holder s n ≡ Some e → length (above s e.node) < length (above s n) }
{}

/// In a legal set without a cycle, the nodes above a node are exactly those that are reached from it by one or more steps, each from a node
/// to its container (`IsUnder`). No node is above itself.
pub fn a_node_is_under_those_above_it()
    ensures under { (s : Links) → IsLegalSet s → HasNoCycle s → (x y : Node) → (list_any (same_node y) (above s x) ≡ true) ↔ IsUnder s x y }
    ensures itself { (s : Links) → IsLegalSet s → HasNoCycle s → (x : Node) → list_any (same_node x) (above s x) ≡ false }
{}

/// In a legal set no end contains a resource.
pub fn a_resource_has_no_holder()
    ensures { (s : Links) (r : ResourceNo) → IsLegalSet s → holder s (node.Resource r) ≡ None }
{}

/// After a put that fits a legal set, the end has the object as a new value at the given position. The far end (the object's end under the
/// opposite), if there is one, has the end's node as a new last value. Each other end is as it was. If the new link contains a node, the
/// holder of this node is the containing end; all other holders are as they were.
pub fn a_put_gains_at_both_ends()
    ensures { (s : Links) (e : End) (i : ℕ) (o : ObjectNo) (g c : Option FeatureNo) → IsLegalSet s → EditFits s (put_of e i o g c) → PutMakes s e i o g c }
{}

/// After a put that fits a legal set, each end has the values that `put_end` computes, and each node has the holder that `put_holder`
/// computes.
pub fn a_put_gives_each_end_and_holder()
    ensures { (s : Links) (e : End) (i : ℕ) (o : ObjectNo) (g c : Option FeatureNo) → IsLegalSet s → EditFits s (put_of e i o g c) → PutGives s e i o g c }
{}

/// A put that fits keeps a legal set legal. Let the put have the opposite and the containing feature that the kinds `m` give for the
/// feature of its end. Then a set that agrees with `m` before the put agrees with `m` after it. In a legal set without a cycle, a put that
/// fits makes no cycle if the node that becomes the container is neither the node that becomes contained nor below that node.
pub fn a_put_keeps_a_set_legal()
    ensures legal { (s : Links) (e : End) (i : ℕ) (o : ObjectNo) (g c : Option FeatureNo) → IsLegalSet s → EditFits s (put_of e i o g c) → IsLegalSet (put s e i o g c) }
    ensures kinds { (m : Kinds) → AreKinds m → (s : Links) (e : End) (i : ℕ) (o : ObjectNo) → AreOfKind m s → AreOfKind m (put s e i o (m.opposite e.feature) (m.container e.feature)) }
    ensures outside { (s : Links) (e : End) (i : ℕ) (o : ObjectNo) (g c : Option FeatureNo) → IsLegalSet s → EditFits s (put_of e i o g c) → HasNoCycle s → IsPutOutside s e o c → MakesNoCycle s (put_of e i o g c) }
    ensures no_cycle { (s : Links) (e : End) (i : ℕ) (o : ObjectNo) (g c : Option FeatureNo) → IsLegalSet s → EditFits s (put_of e i o g c) → HasNoCycle s → IsPutOutside s e o c → HasNoCycle (put s e i o g c) }
{}

/// After a put of a proxy that fits a legal set, the end has the proxy as a new value at the given position. Each other end and all holders
/// are as they were.
pub fn a_proxy_stands_in_one_end()
    ensures { (s : Links) (e : End) (i : ℕ) (t : List ℕ) → IsLegalSet s → EditFits s (edit.PutProxy e i t) → PutProxyMakes s e i t }
{}

/// After a cut of a link of a legal set, each end that had the link has lost the link's value there. If the link contained a node, this
/// node has no holder. All other ends and holders are as they were. A cut can name the link by any end that has it, and the link's value in
/// that end.
pub fn a_cut_loses_at_both_ends()
    ensures { (s : Links) (l : Link) → IsLegalSet s → In l s → CutMakes s l }
{}

/// A cut can name its link by an end and the link's value in that end. After such a cut in a legal set, each end of the link has lost the
/// link's value. If the link contained a node, this node has no holder. All else is as it was. If the value is not in the end, nothing is
/// cut.
pub fn a_cut_by_name_loses_what_it_names()
    ensures { (m : Kinds) → AreKinds m → (s : Links) (e : End) (v : Value) → IsLegalSet s → AreOfKind m s → CutByNameMakes m s e v }
{}

/// Each of several cuts in a legal set can name its link by an end and the link's value in that end. After the cuts, the ends of the named
/// links have lost the values of these links, and the nodes that these links contained have no holder. All else is as it was.
pub fn cuts_by_name_lose_what_they_name()
    ensures { (m : Kinds) → AreKinds m → (s : Links) (ts : List (End × Value)) → IsLegalSet s → AreOfKind m s → CutsByNameMake m s ts }
{}

/// A legal set is still legal after cuts, and still agrees with the kinds of features with which it agreed before. If a legal set had no
/// cycle, it has none after the cuts, and no node gains a node above it.
pub fn cuts_by_name_keep_a_set_legal()
    ensures legal { (s : Links) (ts : List (End × Value)) → IsLegalSet s → IsLegalSet (without_all s ts) }
    ensures kinds { (m : Kinds) (s : Links) (ts : List (End × Value)) → AreOfKind m s → AreOfKind m (without_all s ts) }
    ensures no_cycle { (s : Links) (ts : List (End × Value)) → IsLegalSet s → HasNoCycle s → HasNoCycle (without_all s ts) }
    ensures above { (s : Links) (ts : List (End × Value)) → IsLegalSet s → HasNoCycle s → (x y : Node) → list_any (same_node y) (above s x) ≡ false → list_any (same_node y) (above (without_all s ts) x) ≡ false }
{}

/// In a legal set, a node that is cut from the end that contains it has no holder after the cut.
pub fn what_is_cut_from_its_holder_is_free()
    ensures { (s : Links) (n : Node) (e : End) → IsLegalSet s → holder s n ≡ Some e → holder (cut_value s e (node_value n)) n ≡ None }
{}

/// A plan of cuts fits a legal set if each link that a cut names is in the set, and no link is named twice. The plan has the effect of the
/// cuts, agrees with all kinds of features, and makes no cycle.
pub fn a_plan_of_cuts_fits()
    ensures fits { (m : Kinds) → AreKinds m → (s : Links) (ts : List (End × Value)) → IsLegalSet s → AreOfKind m s → AreThere s ts → AreOnce m ts → PlanFits s (cut_edits ts) }
    ensures makes { (m : Kinds) → AreKinds m → (s : Links) (ts : List (End × Value)) → IsLegalSet s → AreOfKind m s → AreThere s ts → AreOnce m ts → links_after_edits s (cut_edits ts) ≡ without_all s ts }
    ensures of_kind { (m : Kinds) (ts : List (End × Value)) → IsPlanOfKind m (cut_edits ts) }
    ensures no_cycle { (s : Links) (ts : List (End × Value)) → PlanMakesNoCycle s (cut_edits ts) }
{}

/// Two plans can be joined: the joined plan has the edits of the first plan, and then those of the second. It has the effect of the two
/// plans, one after the other. The joined plan fits a set if the first plan fits the set, and the second plan fits the set that the first
/// plan leaves. The joined plan agrees with all kinds of features with which both plans agree. It makes no cycle if the first plan makes
/// none in the set, and the second plan makes none in the set that the first plan leaves.
pub fn plans_follow_one_another()
    ensures makes { (s : Links) (xs ys : List Edit) → links_after_edits s (xs ++ ys) ≡ links_after_edits (links_after_edits s xs) ys }
    ensures fits { (s : Links) (xs ys : List Edit) → PlanFits s xs → PlanFits (links_after_edits s xs) ys → PlanFits s (xs ++ ys) }
    ensures of_kind { (m : Kinds) (xs ys : List Edit) → IsPlanOfKind m xs → IsPlanOfKind m ys → IsPlanOfKind m (xs ++ ys) }
    ensures no_cycle { (s : Links) (xs ys : List Edit) → PlanMakesNoCycle s xs → PlanMakesNoCycle (links_after_edits s xs) ys → PlanMakesNoCycle s (xs ++ ys) }
{}

/// Let nodes be removed from a legal set, together with each link that names a removed node. Then the removed nodes have empty ends, and
/// each other end has lost the removed objects. A node has no holder if the node itself or the node of its holder was removed; all other
/// holders are as they were. No link that is left names a removed node. The set is still legal, and still agrees with the kinds of features
/// with which it agreed before. If the set had no cycle, it has none after the removal.
pub fn a_set_without_nodes_names_none_of_them()
    ensures makes { (s : Links) (gone : Node → Bool) → IsLegalSet s → WithoutNodesMakes s gone }
    ensures legal { (s : Links) (gone : Node → Bool) → IsLegalSet s → IsLegalSet (without_nodes s gone) }
    ensures kinds { (m : Kinds) (s : Links) (gone : Node → Bool) → AreOfKind m s → AreOfKind m (without_nodes s gone) }
    ensures no_cycle { (s : Links) (gone : Node → Bool) → IsLegalSet s → HasNoCycle s → HasNoCycle (without_nodes s gone) }
    // the set is the same after cuts that name exactly the links of the removed nodes
    ensures by_cuts { (m : Kinds) → AreKinds m → (s : Links) (gone : Node → Bool) (ts : List (End × Value)) → IsLegalSet s → AreOfKind m s → NameLinksOf m s gone ts → without_all s ts ≡ without_nodes s gone }
{}

/// After a shift that fits a legal set, the value that was at the position `from` of the end is at the position `to`, and the other values
/// of the end keep their order. Each other end and all holders are as they were.
pub fn a_shift_moves_in_one_end()
    ensures { (s : Links) (e : End) (to from : ℕ) → IsLegalSet s → EditFits s (edit.Shift e to from) → ShiftMakes s e to from }
{}

/// Let a plan fit a legal set, and agree with the same kinds of features as the set. If no edit of the plan names an end of a containment
/// or of a container reference, each end of a containment or of a container reference stays as it was.
pub fn a_plan_of_other_links_leaves_what_contains()
    ensures { (m : Kinds) → AreKinds m → (s : Links) (plan : List Edit) → IsLegalSet s → AreOfKind m s → PlanFits s plan → IsPlanOfKind m plan → touches_containment m plan ≡ false → (d : End) → contains_by m d.feature ≡ true → end (links_after_edits s plan) d ≡ end s d }
{}

/// The links of a legal set that agrees with the kinds of features (`Kinds`) agree at both ends: if the features of two ends x and y are
/// opposites, and x has the node of y as a value, then y has the node of x as a value.
pub fn both_ends_agree()
    ensures { (m : Kinds) (s : Links) → IsLegalSet s → AreOfKind m s → BothEndsAgree m s }
{}

/// Links that agree with the kinds of features (`Kinds`) are determined by their ends: two legal sets are equal if they agree with the same
/// kinds, and have the same values in each end.
pub fn the_ends_determine_the_links()
    ensures { (m : Kinds) (s t : Links) → IsLegalSet s → IsLegalSet t → AreOfKind m s → AreOfKind m t → HaveSameEnds s t → s ≡ t }
{}
