//! The paths of objects.
ghost use Rattle.std.specs.Prelude.{◌≡◌, IfOk};
ghost use Rattle.models.specs.Model.{reading};
ghost use Rattle.fragment_paths.specs.Fragments as fragments;
ghost use Rattle.fragment_paths.specs.Located.{location_of as located_in, path_by as path_meant};

use crate::positions::Positions;
use links::LinkStore;
use mm_types::{End, Node, ObjectNo, ResourceNo, Seq, Text};
use models::ModelRef;
use std::alloc::{AllocError, Global};
use web_uris::{Path, Step};

/// The resource of an object, and the path from the resource to the object.
#[derive(Drop)]
pub(crate) struct Located {
    pub resource: ResourceNo,
    pub path: Path,
}

/// The name of an end's feature; empty if the metamodel has no feature with the number in `end`.
fn name_of<L: LinkStore>(alloc: Global, model: &ModelRef<L>, end: End) -> Result<Text, AllocError>
    ensures { IfOk result (λ t. t ≡ fragments.end_name (reading model.now) end) }
{
    match model.meta().feature(end.feature) {
        Some(feature) => feature.name.clone(),
        None => Text::from_str(alloc, ""),
    }
}

/// The step that leads from the node of an end to an object that the end contains: the feature's name, and the object's position if the
/// feature is many-valued.
fn step_into<L: LinkStore>(
    alloc: Global,
    positions: &Positions<L>,
    end: End,
    object: ObjectNo,
) -> Result<Step, AllocError>
    ensures { IfOk result (λ s. s ≡ fragments.step_into (reading positions.now) end object) }
{
    let model = positions.model();
    let name = name_of(alloc, model, end)?;
    let index = if model.meta().is_single(end.feature) {
        None
    } else {
        Some(positions.position_in(end, object))
    };
    Ok(Step { name, index })
}

/// The path that begins at a root and then takes `steps`, which are given in reverse order. `end` is the end that contains the root.
fn path_by<L: LinkStore>(
    positions: &Positions<L>,
    end: End,
    root: ObjectNo,
    mut steps: Vec<Step>,
) -> Path
    ensures { result ≡ path_meant (reading positions.now) end root steps.items }
{
    steps.reverse();
    Path {
        root: positions.position_in(end, root),
        steps: Seq::from_vec(steps),
    }
}

/// The resource and the path of an object; `None` if the object is in no resource. Fails only if memory is refused.
pub(crate) fn locate<L: LinkStore>(
    alloc: Global,
    positions: &Positions<L>,
    object: ObjectNo,
) -> Result<Option<Located>, AllocError>
    ensures { IfOk result (λ x. x ≡ located_in (reading positions.now) object) }
{
    positions.lemma_is_legal();
    let mut steps = Vec::new(alloc);
    let mut at = object;
    'up: while let Some(end) = positions.holder(at) {
        match end.node {
            Node::Resource(resource) => {
                let path = path_by(positions, end, at, steps);
                return Ok(Some(Located { resource, path }));
            }
            Node::Object(above) => {
                steps.push(step_into(alloc, positions, end, at)?)?;
                at = above;
            }
        }
    }
    Ok(None)
}
