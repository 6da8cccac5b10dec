//! Laws of the definitions, each the contract of a function that does nothing.
ghost use Rattle.std.specs.Prelude.{◌≡◌, ◌&&◌, true, not};
ghost use Rattle.mm_types.specs.declared.end.End.{End};
ghost use Rattle.mm_types.specs.declared.numbers.ObjectNo.{ObjectNo};
ghost use Rattle.links.specs.Plans.{AreInOrder, has_end};
ghost use Rattle.models.specs.Legal.{IsLegal};
ghost use Rattle.models.specs.Model.{Model, reading};
ghost use Rattle.models.specs.Reading.{is_live};
ghost use Rattle.removal.specs.Laws.{NameTreeLinks};
ghost use Rattle.removal.specs.Outer.{holds_some, is_in_subtree, touched_ends};

/// If a live object of a legal model is deleted, the list `touched_ends` has exactly the ends of remaining nodes at which a destroyed
/// object is a value. The list has each end once, in order by feature number and then by node.
pub fn touched_ends_are_those_that_hold_something()
    ensures order { (s : Model) (o : ObjectNo) → AreInOrder (touched_ends (reading s) o) }
    ensures all { (s : Model) → IsLegal s → (o : ObjectNo) → is_live (reading s) o ≡ true → (e : End) → has_end (touched_ends (reading s) o) e ≡ (not (is_in_subtree (reading s) o e.node) && holds_some (reading s) (is_in_subtree (reading s) o) e) }
{}

/// The links that are cut when a live object of a legal model is deleted are exactly the links of the object and of all objects below it,
/// each named once.
pub fn each_link_of_a_tree_is_named_once()
    ensures { (s : Model) → IsLegal s → (o : ObjectNo) → is_live (reading s) o ≡ true → NameTreeLinks s o }
{}
