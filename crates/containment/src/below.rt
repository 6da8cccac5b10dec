//! Whether an object is above a node, by two searches that take turns: up from the node, and down from the object. The first search that
//! comes to a result decides.
ghost use Rattle.std.specs.Prelude.{◌≡◌, ◌++◌, ◌∷◌, [], false, option_to_list, true};
ghost use Rattle.std.specs.List.{list_any};
ghost use Rattle.mm_types.specs.Same.{same_node};
ghost use Rattle.mm_types.specs.Shapes.{shape};
ghost use Rattle.mm_types.specs.declared.numbers.Node.TheVariants as node_as;
ghost use Rattle.models.specs.Model.{reading};
ghost use Rattle.models.specs.Reading.{objects_of};
ghost use Rattle.containment.specs.Forest as forest;
ghost use Rattle.containment.specs.Waiting.{waiting_objects};

use crate::above::{is_under, parent_of};
use arrayvec::ArrayVec;
use links::LinkStore;
use mm_types::{End, FeatureNo, Node, ObjectNo};
use models::ModelRef;

/// How many objects the search downwards can remember as still to be looked at. If it would have to remember more objects, it stops, and
/// only the search upwards goes on.
const MOST_WAITING: usize = 32;

/// The numbers of the objects at which the search downwards still has to look. The search has to look at all objects below them too.
type Waiting = ArrayVec<u32, MOST_WAITING>;

/// Whether `object` is above `node`. Looks alternately at one of the nodes above `node`, the nearest first, and at one of the objects below
/// `object`. So if few objects are below `object`, few steps decide, however deep `node` is. Takes no memory.
pub(crate) fn is_object_above<L: LinkStore>(
    model: &ModelRef<L>,
    object: ObjectNo,
    node: Node,
) -> bool
    requires apart { same_node (node_as.Object object) node ≡ false }
    ensures { result ≡ list_any (same_node (node_as.Object object)) ((reading model.now).above node) }
{
    model.lemma_is_legal();
    let above = Node::Object(object);
    let mut waiting = Waiting::new();
    if !add_contents(model, object, &mut waiting) {
        return is_under(model.store(), node, above);
    }
    let mut at = node;
    while let Some(next) = parent_of(model.store(), at) {
        if above == next {
            return true;
        }
        at = next;
        let Some(no) = waiting.pop() else {
            return false;
        };
        let part = ObjectNo(no);
        if Node::Object(part) == node {
            return true;
        }
        if !add_contents(model, part, &mut waiting) {
            return is_under(model.store(), at, above);
        }
    }
    false
}

/// Adds the objects that an object contains, and returns whether there was capacity for all of them.
fn add_contents<L: LinkStore>(model: &ModelRef<L>, object: ObjectNo, waiting: &mut Waiting) -> bool
    ensures { result ≡ true → waiting_objects waiting.new.items ≡ waiting_objects waiting.old.items ++ forest.contents (reading model.now) (node_as.Object object) }
{
    let node = Node::Object(object);
    let features = model.all_features(node);
    for feature in features {
        if !add_parts(model, node, *feature, waiting) {
            return false;
        }
    }
    true
}

/// Adds the objects that a node contains under one feature, and returns whether there was capacity for all of them.
fn add_parts<L: LinkStore>(
    model: &ModelRef<L>,
    node: Node,
    feature: FeatureNo,
    waiting: &mut Waiting,
) -> bool
    ensures { result ≡ true → waiting_objects waiting.new.items ≡ waiting_objects waiting.old.items ++ forest.parts (reading model.now) node (feature ∷ []) }
{
    if !model.meta().is_containment(feature) {
        return true;
    }
    add_objects(model, End { node, feature }, waiting)
}

/// Adds the objects among the values of `end`, whose feature is a reference, and returns whether there was capacity for all of them.
fn add_objects<L: LinkStore>(model: &ModelRef<L>, end: End, waiting: &mut Waiting) -> bool
    requires reference { (shape model.now.metamodel end.feature).is_reference ≡ true }
    ensures { result ≡ true → waiting_objects waiting.new.items ≡ waiting_objects waiting.old.items ++ objects_of ((reading model.now).values end) }
{
    for index in 0..model.len(end) {
        if !add_some(model.store().at(end, index), waiting) {
            return false;
        }
    }
    true
}

/// Adds the object, if there is one. Returns false only if there is no capacity for the object.
fn add_some(object: Option<ObjectNo>, waiting: &mut Waiting) -> bool
    ensures { result ≡ true → waiting_objects waiting.new.items ≡ waiting_objects waiting.old.items ++ option_to_list object }
{
    match object {
        Some(object) => waiting.try_push(object.0).is_ok(),
        None => true,
    }
}
