//! What contains an object, and what a node contains.
ghost use Rattle.std.specs.Prelude.{◌≡◌, ◌∷◌, ◌++◌, [], false, IfOk, OnOk, option_to_list, true};
ghost use Rattle.std.specs.List.{list_any};
ghost use Rattle.mm_types.specs.Shapes.{is_containment, shape};
ghost use Rattle.models.specs.Model.{reading};
ghost use Rattle.models.specs.Reading.{all_features_of, objects_of};
ghost use Rattle.containment.specs.Forest as forest;

use links::LinkStore;
use mm_types::{End, FeatureNo, Node, ObjectNo};
use models::ModelRef;
use std::alloc::{AllocError, Global};

/// The object that contains an object (EMF: EObject.eContainer); `None` if no object contains it. Takes no memory.
pub fn container<L: LinkStore>(model: &ModelRef<L>, object: ObjectNo) -> Option<ObjectNo>
    ensures { result ≡ forest.container (reading model.now) object }
{
    match model.holder(Node::Object(object))?.node {
        Node::Object(container) => Some(container),
        Node::Resource(_) => None,
    }
}

/// Whether some feature of a node may be a containment; if the result is false, no feature of the node is a containment. Takes no memory.
pub(crate) fn may_contain<L: LinkStore>(model: &ModelRef<L>, node: Node) -> bool
    ensures { result ≡ false → list_any (is_containment model.now.metamodel) (all_features_of (reading model.now) node) ≡ false }
{
    match node {
        Node::Object(object) => match model.class(object) {
            Some(class) => model.meta().has_containment(class),
            None => false,
        },
        Node::Resource(_) => true,
    }
}

/// The objects that a node directly contains: feature by feature, in the order of all features of the node, and under each feature by
/// position (EMF: EObject.eContents, Resource.getContents). Fails only if memory is refused.
pub fn contents<L: LinkStore>(
    alloc: Global,
    model: &ModelRef<L>,
    node: Node,
) -> Result<Vec<ObjectNo>, AllocError>
    ensures { IfOk result (λ r. r.items ≡ forest.contents (reading model.now) node) }
{
    let mut out = Vec::new(alloc);
    // Most classes have no containment.
    if !may_contain(model, node) {
        return Ok(out);
    }
    let features = model.all_features(node);
    for feature in features {
        push_parts(model, node, *feature, &mut out)?;
    }
    Ok(out)
}

/// Adds the objects that a node contains under one feature.
fn push_parts<L: LinkStore>(
    model: &ModelRef<L>,
    node: Node,
    feature: FeatureNo,
    out: &mut Vec<ObjectNo>,
) -> Result<(), AllocError>
    ensures { OnOk result (out.new.items ≡ out.old.items ++ forest.parts (reading model.now) node (feature ∷ [])) }
{
    if !model.meta().is_containment(feature) {
        return Ok(());
    }
    push_objects(model, End { node, feature }, out)
}

/// Adds the objects among the values at `end`, whose feature is a reference. Proxies are left out.
fn push_objects<L: LinkStore>(
    model: &ModelRef<L>,
    end: End,
    out: &mut Vec<ObjectNo>,
) -> Result<(), AllocError>
    requires reference { (shape model.now.metamodel end.feature).is_reference ≡ true }
    ensures { OnOk result (out.new.items ≡ out.old.items ++ objects_of ((reading model.now).values end)) }
{
    for index in 0..model.len(end) {
        push_some(model.store().at(end, index), out)?;
    }
    Ok(())
}

/// Adds an object, if there is one.
pub fn push_some(object: Option<ObjectNo>, out: &mut Vec<ObjectNo>) -> Result<(), AllocError>
    ensures { OnOk result (out.new.items ≡ out.old.items ++ option_to_list object) }
{
    if let Some(object) = object {
        out.push(object)?;
    }
    Ok(())
}
