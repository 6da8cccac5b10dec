//! Why a call is refused for what it names: an object, a resource or a class that does not exist, a class that is abstract, or an end whose
//! node does not have the feature. No function here takes memory.
ghost use Rattle.std.specs.Prelude.{◌≡◌};
ghost use Rattle.models.specs.Existence as existence;
ghost use Rattle.models.specs.Model.{reading};
ghost use Rattle.models.specs.Reading as r;

use crate::model_ref::ModelRef;
use links::LinkStore;
use mm_meta::Meta;
use mm_types::{ClassNo, End, Node, ObjectNo, Refused, Value};

/// Why a new object of `class` is refused: `NoClass` if no class has this number, or `Abstract` if the class is abstract; otherwise `None`.
pub fn class_refusal(meta: &Meta, class: ClassNo) -> Option<Refused>
    ensures { result ≡ existence.class_refusal meta.now class }
{
    if meta.class(class).is_none() {
        return Some(Refused::NoClass);
    }
    if !meta.is_concrete(class) {
        return Some(Refused::Abstract);
    }
    None
}

/// Why a call that names `object` is refused: `NoObject` if no live object has this number; otherwise `None`.
pub fn object_refusal<L: LinkStore>(model: &ModelRef<L>, object: ObjectNo) -> Option<Refused>
    ensures { result ≡ existence.object_refusal (reading model.now) object }
{
    if model.class(object).is_none() {
        return Some(Refused::NoObject);
    }
    None
}

/// Why a call that names `node` is refused: `NoObject` if the node is an object that is not live, or `NoResource` if the node is a resource
/// that does not exist; otherwise `None`.
pub fn node_refusal<L: LinkStore>(model: &ModelRef<L>, node: Node) -> Option<Refused>
    ensures { result ≡ existence.node_refusal (reading model.now) node }
{
    match node {
        Node::Object(object) if model.class(object).is_none() => Some(Refused::NoObject),
        Node::Resource(resource) if resource.0 as usize >= model.resources() => {
            Some(Refused::NoResource)
        }
        _ => None,
    }
}

/// Why a call that names `end` is refused: first for its node (`node_refusal`), and then `NoFeature` if the node does not have the feature;
/// `None` if neither applies.
pub fn end_refusal<L: LinkStore>(model: &ModelRef<L>, end: End) -> Option<Refused>
    ensures { result ≡ existence.end_refusal (reading model.now) end }
{
    if let Some(refused) = node_refusal(model, end.node) {
        return Some(refused);
    }
    if !model.has_feature(end.node, end.feature) {
        return Some(Refused::NoFeature);
    }
    None
}

/// Why a call that names `end` and a value for this end is refused: `NoObject` if the value or the node of `end` is an object that is not
/// live; otherwise for the same reason as a call that names only `end` (`end_refusal`).
pub fn value_refusal<L: LinkStore>(model: &ModelRef<L>, end: End, value: &Value) -> Option<Refused>
    ensures { result ≡ existence.value_refusal (reading model.now) end value.now }
{
    if !is_value_live(model, value) {
        return Some(Refused::NoObject);
    }
    end_refusal(model, end)
}

/// Whether a value is a live object, or is no object at all.
fn is_value_live<L: LinkStore>(model: &ModelRef<L>, value: &Value) -> bool
    ensures { result ≡ r.is_value_live (reading model.now) value.now }
{
    match value {
        Value::Object(object) => model.class(*object).is_some(),
        _ => true,
    }
}
