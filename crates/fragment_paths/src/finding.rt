//! The objects that paths and addresses lead to.
ghost use Rattle.std.specs.Prelude.{◌≡◌, ◌&&◌, IfOk};
ghost use Rattle.models.specs.Model.{reading};
ghost use Rattle.fragment_paths.specs.Finding as finding;

use crate::ends::{object_in, root_at};
use links::LinkStore;
use mm_meta::Meta;
use mm_types::{End, FeatureNo, Node, ObjectNo, ResourceNo};
use models::ModelRef;
use std::alloc::{AllocError, Global};
use web_uris::{Path, Step, parse, split_address};

/// Whether a step leads through a feature: the feature is a containment, and the step has an index exactly if the feature is many-valued.
fn goes_by<L: LinkStore>(model: &ModelRef<L>, step: &Step, feature: FeatureNo) -> bool
    ensures { result ≡ finding.goes_by (reading model.now) step.now feature }
{
    let meta = model.meta();
    meta.is_containment(feature) && meta.is_single(feature) != step.index.is_some()
}

/// The feature through which a step leads from an object: the feature of the object's class that has the step's name. `None` if the class
/// has no feature with this name, or if the step doesn't lead through the feature (`goes_by`).
fn feature_of<L: LinkStore>(model: &ModelRef<L>, object: ObjectNo, step: &Step) -> Option<FeatureNo>
    ensures { result ≡ finding.feature_of (reading model.now) object step.now }
{
    let class = model.class(object)?;
    let feature = model.meta().feature_by_name(class, step.name.as_str())?;
    if goes_by(model, step, feature) {
        Some(feature)
    } else {
        None
    }
}

/// The object to which a step leads from `object`; `None` if the step leads to no object.
fn stepped<L: LinkStore>(model: &ModelRef<L>, object: ObjectNo, step: &Step) -> Option<ObjectNo>
    ensures { result ≡ finding.object_after_step (reading model.now) object step.now }
{
    let feature = feature_of(model, object, step)?;
    let node = Node::Object(object);
    object_in(model, End { node, feature }, step.index.unwrap_or(0))
}

/// The object to which steps lead from `object`, one step after the other; `None` if a step leads to no object.
fn walked<L: LinkStore>(model: &ModelRef<L>, steps: &[Step], object: ObjectNo) -> Option<ObjectNo>
    ensures { result ≡ finding.object_after_steps (reading model.now) steps.now object }
{
    let mut at = object;
    'steps: for step in steps {
        at = stepped(model, at, step)?;
    }
    Some(at)
}

/// The object that a path leads to in a resource (EMF: Resource.getEObject, of a parsed fragment); `None` if no resource has the number, or
/// if no object is at the path. Takes no memory.
pub fn find<L: LinkStore>(
    model: &ModelRef<L>,
    resource: ResourceNo,
    path: &Path,
) -> Option<ObjectNo>
    ensures { result ≡ finding.find (reading model.now) resource path.now }
{
    let root = root_at(model, resource, path.root)?;
    walked(model, path.steps.as_slice(), root)
}

/// The object that a fragment leads to in a resource; `None` if the text is no fragment, or leads to no object.
fn found_by<L: LinkStore>(
    alloc: Global,
    model: &ModelRef<L>,
    resource: ResourceNo,
    fragment: &str,
) -> Result<Option<ObjectNo>, AllocError>
    ensures { IfOk result (λ o. o ≡ finding.found_by (reading model.now) resource fragment.now) }
{
    match parse(alloc, fragment)? {
        Some(path) => Ok(find(model, resource, &path)),
        None => Ok(None),
    }
}

/// The object at an address (EMF: ResourceSet.getEObject, without loading): the object to which the fragment after the first `#` leads in
/// the resource whose URI comes before the `#`. `None` if there is no `#`, if no resource has exactly this URI, if the text after the `#`
/// is no fragment, or if the fragment leads to no object. Fails only if memory is refused.
pub fn object_at<L: LinkStore>(
    alloc: Global,
    model: &ModelRef<L>,
    address: &str,
) -> Result<Option<ObjectNo>, AllocError>
    ensures { IfOk result (λ o. o ≡ finding.at (reading model.now) address.now) }
{
    let Some((uri, fragment)) = split_address(address) else {
        return Ok(None);
    };
    match model.resource_named(uri) {
        Some(resource) => found_by(alloc, model, resource, fragment),
        None => Ok(None),
    }
}
