//! Taking snapshots.
ghost use Rattle.std.specs.Prelude.{◌≡◌, ◌++◌, ◌∷◌, [], IfOk, OnOk, map};
ghost use Rattle.mm_types.specs.Shapes.{shape};
ghost use Rattle.models.specs.Model.{reading};
ghost use Rattle.models.specs.Reading as r;
ghost use Rattle.snapshots.specs.Snapshots as snapshots;
ghost use Rattle.snapshots.specs.Snapshots.{AreBelow, snapshot_of};

use crate::snapshot::{FeatureState, NodeState, Snapshot};
use containment::node_subtree;
use links::LinkStore;
use mm_types::{ClassNo, End, FeatureNo, Node, ObjectNo, Seq, Value};
use models::{ModelRef, copied_list};
use std::alloc::{AllocError, Global};

impl Snapshot {
    /// The snapshot of a node: its state, and the state of each node below it. The snapshot of a node that does not exist is empty. Takes
    /// time in proportion to the size of the snapshot, apart from sorting the objects. Fails only if memory is refused.
    pub fn of<L: LinkStore>(
        alloc: Global,
        model: &ModelRef<L>,
        target: Node,
    ) -> Result<Self, AllocError>
        ensures { IfOk result (λ s. s ≡ snapshot_of (reading model.now) target) }
    {
        let objects = objects_below(alloc, model, target)?;
        let nodes = states_of(alloc, model, target, objects.as_slice())?;
        model.lemma_is_legal();
        Ok(Snapshot::from_vec(nodes))
    }
}

/// The objects below a node, and the node itself if it is an object, in the order of their numbers.
fn objects_below<L: LinkStore>(
    alloc: Global,
    model: &ModelRef<L>,
    target: Node,
) -> Result<Vec<ObjectNo>, AllocError>
    ensures { IfOk result (λ os. AreBelow (reading model.now) target os.items) }
{
    model.lemma_is_legal();
    let mut objects = node_subtree(alloc, model, target)?;
    objects.sort_unstable_by_key(|object| object.0);
    Ok(objects)
}

/// The state of the target, if the target is a resource that exists, and then the states of those of `objects` that live.
fn states_of<L: LinkStore>(
    alloc: Global,
    model: &ModelRef<L>,
    target: Node,
    objects: &[ObjectNo],
) -> Result<Vec<NodeState>, AllocError>
    ensures { IfOk result (λ v. v.items ≡ map (snapshots.node_state (reading model.now)) (snapshots.own_resource (reading model.now) target) ++ snapshots.live_states (reading model.now) objects.now) }
{
    let mut out = Vec::with_capacity(alloc, objects.len() + 1)?;
    push_resource(alloc, model, target, &mut out)?;
    for object in objects {
        push_object(alloc, model, *object, &mut out)?;
    }
    Ok(out)
}

/// Adds the state of a node, if the node is a resource that exists.
fn push_resource<L: LinkStore>(
    alloc: Global,
    model: &ModelRef<L>,
    target: Node,
    out: &mut Vec<NodeState>,
) -> Result<(), AllocError>
    ensures { OnOk result (out.new.items ≡ out.old.items ++ map (snapshots.node_state (reading model.now)) (snapshots.own_resource (reading model.now) target)) }
{
    let Node::Resource(resource) = target else {
        return Ok(());
    };
    if !model.has_resource(resource) {
        return Ok(());
    }
    push_state(alloc, model, target, out)
}

/// Adds the state of an object, if it lives.
fn push_object<L: LinkStore>(
    alloc: Global,
    model: &ModelRef<L>,
    object: ObjectNo,
    out: &mut Vec<NodeState>,
) -> Result<(), AllocError>
    ensures { OnOk result (out.new.items ≡ out.old.items ++ snapshots.live_states (reading model.now) (object ∷ [])) }
{
    if model.class(object).is_none() {
        return Ok(());
    }
    push_state(alloc, model, Node::Object(object), out)
}

fn push_state<L: LinkStore>(
    alloc: Global,
    model: &ModelRef<L>,
    node: Node,
    out: &mut Vec<NodeState>,
) -> Result<(), AllocError>
    ensures { OnOk result (out.new.items ≡ out.old.items ++ snapshots.node_state (reading model.now) node ∷ []) }
{
    let features = feature_states(alloc, model, node)?;
    out.push(NodeState {
        node,
        class: class_at(model, node),
        features,
    })?;
    Ok(())
}

fn class_at<L: LinkStore>(model: &ModelRef<L>, node: Node) -> Option<ClassNo>
    ensures { result ≡ snapshots.class_at (reading model.now) node }
{
    match node {
        Node::Object(object) => model.class(object),
        Node::Resource(_) => None,
    }
}

/// The state of each feature of a node.
fn feature_states<L: LinkStore>(
    alloc: Global,
    model: &ModelRef<L>,
    node: Node,
) -> Result<Seq<FeatureState>, AllocError>
    ensures { IfOk result (λ v. v ≡ map (snapshots.feature_state (reading model.now) node) (r.all_features_of (reading model.now) node)) }
{
    let mut out = Seq::new(alloc);
    let features = model.all_features(node);
    'features: for feature in features {
        let state = feature_state(alloc, model, node, *feature)?;
        out.push(state)?;
    }
    Ok(out)
}

/// The state of a feature of a node.
fn feature_state<L: LinkStore>(
    alloc: Global,
    model: &ModelRef<L>,
    node: Node,
    feature: FeatureNo,
) -> Result<FeatureState, AllocError>
    ensures { IfOk result (λ x. x ≡ snapshots.feature_state (reading model.now) node feature) }
{
    let end = End { node, feature };
    let values = shown_values(alloc, model, end)?;
    Ok(FeatureState {
        feature,
        values,
        flag: flag_at(model, end),
    })
}

/// A copy of the values at an end; one null, if a single end is empty.
fn shown_values<L: LinkStore>(
    alloc: Global,
    model: &ModelRef<L>,
    end: End,
) -> Result<Seq<Value>, AllocError>
    ensures { IfOk result (λ vs. vs ≡ (r.held_at (reading model.now) end).values) }
{
    let mut values = copied_list(alloc, model, end)?;
    if values.is_empty() && model.meta().is_single(end.feature) {
        values.push(Value::Null)?;
    }
    Ok(values)
}

/// The set flag of an end, if its feature is unsettable; otherwise `None`. The set flag of a list is always off.
fn flag_at<L: LinkStore>(model: &ModelRef<L>, end: End) -> Option<bool>
    ensures { result ≡ snapshots.flag_of (shape model.now.metamodel end.feature).is_unsettable ((reading model.now).flag end) }
{
    model.lemma_is_legal();
    if !model.meta().is_unsettable(end.feature) {
        return None;
    }
    Some(model.meta().is_single(end.feature) && model.is_set(end))
}
