//! An object and all objects below it, all objects in a resource, and whether a node is below a given node.
ghost use Rattle.std.specs.Prelude.{◌≡◌, false, flat_map, reverse, IfOk};
ghost use Rattle.std.specs.List.{list_any};
ghost use Rattle.mm_types.specs.Same.{same_node};
ghost use Rattle.models.specs.Model.{reading};
ghost use Rattle.models.specs.Reading as r;
ghost use Rattle.containment.specs.Forest as forest;

use crate::above::{is_under, parent_of};
use crate::below::is_object_above;
use crate::forest::{contents, may_contain};
use links::LinkStore;
use mm_types::{FeatureNo, Node, ObjectNo};
use models::{ModelRef, at_end};
use std::alloc::{AllocError, Global};

/// An object and all objects below it, each before its contents (EMF: the object, then EObject.eAllContents). If no object has the number
/// `object`, the result has only this number. Fails only if memory is refused.
pub fn subtree<L: LinkStore>(
    alloc: Global,
    model: &ModelRef<L>,
    object: ObjectNo,
) -> Result<Vec<ObjectNo>, AllocError>
    ensures { IfOk result (λ r. r.items ≡ forest.subtree (reading model.now) object) }
{
    let waiting = vec![in alloc; object]?;
    all_below(alloc, model, waiting)
}

/// All objects of a node: for an object, the object and all objects below it; for a resource, all objects in it. Each object comes before
/// its contents. Fails only if memory is refused.
pub fn node_subtree<L: LinkStore>(
    alloc: Global,
    model: &ModelRef<L>,
    node: Node,
) -> Result<Vec<ObjectNo>, AllocError>
    ensures { IfOk result (λ r. r.items ≡ forest.node_subtree (reading model.now) node) }
{
    match node {
        Node::Object(object) => subtree(alloc, model, object),
        Node::Resource(_) => {
            let mut roots = contents(alloc, model, node)?;
            roots.reverse();
            all_below(alloc, model, roots)
        }
    }
}

/// The objects of `waiting`, from the last to the first, each followed by all objects below it. Each object comes before its contents.
/// Fails only if memory is refused.
fn all_below<L: LinkStore>(
    alloc: Global,
    model: &ModelRef<L>,
    mut waiting: Vec<ObjectNo>,
) -> Result<Vec<ObjectNo>, AllocError>
    ensures { IfOk result (λ r. r.items ≡ flat_map (forest.subtree (reading model.now)) (reverse waiting.items)) }
{
    model.lemma_is_legal();
    let mut found = Vec::new(alloc);
    while let Some(next) = waiting.pop() {
        found.push(next)?;
        let mut parts = contents(alloc, model, Node::Object(next))?;
        parts.reverse();
        waiting.append(&mut parts)?;
    }
    Ok(found)
}

/// Whether `node` is `above`, or is below it. Takes no memory, and few steps if `above` is an object with few objects below it.
pub fn is_within<L: LinkStore>(model: &ModelRef<L>, above: Node, node: Node) -> bool
    ensures { result ≡ r.is_within (reading model.now) above node }
{
    above == node || is_below(model, above, node)
}

/// Whether `node` is below `above`. A node that nothing contains is below no node, and no node is below an object that contains nothing. If
/// few objects are below an object, few steps decide whether a node is below this object (`is_object_above`). A new object has few objects
/// below it. So when a new object is put at the bottom of a long chain of objects, the test for a cycle does not climb the chain to its
/// top.
fn is_below<L: LinkStore>(model: &ModelRef<L>, above: Node, node: Node) -> bool
    requires apart { same_node above node ≡ false }
    ensures { result ≡ list_any (same_node above) ((reading model.now).above node) }
{
    model.lemma_is_legal();
    if parent_of(model.store(), node).is_none() {
        return false;
    }
    match above {
        Node::Object(_) if !has_parts(model, above) => false,
        Node::Object(object) => is_object_above(model, object, node),
        Node::Resource(_) => is_under(model.store(), node, above),
    }
}

/// Whether a node contains an object.
fn has_parts<L: LinkStore>(model: &ModelRef<L>, node: Node) -> bool
    ensures { result ≡ forest.has_parts (reading model.now) node }
{
    if !may_contain(model, node) {
        return false;
    }
    let features = model.all_features(node);
    features.iter().any(|f| has_parts_at(model, node, *f))
}

fn has_parts_at<L: LinkStore>(model: &ModelRef<L>, node: Node, feature: FeatureNo) -> bool
    ensures { result ≡ forest.has_parts_at (reading model.now) node feature }
{
    model.meta().is_containment(feature) && model.len(at_end(&node, &feature)) > 0
}
