//! Laws of the definitions, each the contract of a function that does nothing.
ghost use Rattle.std.specs.Prelude.{◌≡◌};
ghost use Rattle.std.specs.List.{IsDistinct};
ghost use Rattle.mm_types.specs.Same.{same_object};
ghost use Rattle.mm_types.specs.declared.numbers.Node.{Node};
ghost use Rattle.mm_types.specs.declared.numbers.Node.TheVariants as node;
ghost use Rattle.mm_types.specs.declared.numbers.ObjectNo.{ObjectNo};
ghost use Rattle.models.specs.Legal.{IsLegal};
ghost use Rattle.models.specs.Model.{Model, reading};
ghost use Rattle.models.specs.Reading.{is_within};
ghost use Rattle.containment.specs.Forest.{contents, is_node_among, node_subtree, subtree};

/// A node is in the subtree of an object exactly if the node is the object, or the object is among the nodes above the node.
pub fn a_subtree_has_what_is_below()
    ensures { (s : Model) → IsLegal s → (o : ObjectNo) (n : Node) → is_node_among (subtree (reading s) o) n ≡ is_within (reading s) (node.Object o) n }
{}

/// No node contains an object twice, and no subtree has an object twice.
pub fn a_subtree_repeats_nothing()
    ensures contents { (s : Model) → IsLegal s → (n : Node) → IsDistinct same_object (contents (reading s) n) }
    ensures subtree { (s : Model) → IsLegal s → (o : ObjectNo) → IsDistinct same_object (subtree (reading s) o) }
{}

/// `node_subtree` of a node has exactly the objects that are the node itself or are below the node. No object comes twice.
pub fn all_objects_of_a_node_are_those_below_it()
    ensures below { (s : Model) → IsLegal s → (n : Node) (o : ObjectNo) → is_node_among (node_subtree (reading s) n) (node.Object o) ≡ is_within (reading s) n (node.Object o) }
    ensures once { (s : Model) → IsLegal s → (n : Node) → IsDistinct same_object (node_subtree (reading s) n) }
{}
