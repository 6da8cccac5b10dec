//! Saves a resource.
ghost use Rattle.std.specs.Prelude.{◌≡◌, IfOk, string_bytes, true};
ghost use Rattle.std.specs.List.{list_all};
ghost use Rattle.fragment_paths.specs.Finding.{roots as roots_of};
ghost use Rattle.models.specs.Model.{reading};
ghost use Rattle.models.specs.Reading.{is_live};
ghost use Rattle.doc_writer.specs.Saved as saved;
ghost use Rattle.doc_writer.specs.Written.{objects_in};

use crate::document::document_text;
use crate::objects::{objects_below, roots};
use crate::refusals::refusal;
use fragment_paths::Positions;
use links::LinkStore;
use mm_types::{ObjectNo, Refused, ResourceNo};
use models::ModelRef;
use std::alloc::Global;

/// The text of the document of `resource`, or why the resource can't be saved. `roots` are the roots of the resource, `objects` all its
/// objects.
fn text_by<L: LinkStore>(
    alloc: Global,
    positions: &mut Positions<L>,
    resource: ResourceNo,
    roots: &[ObjectNo],
    objects: &[ObjectNo],
) -> Result<String, Refused>
    requires roots { roots.now ≡ roots_of (reading positions.old) resource }
    requires objects { objects.now ≡ objects_in (reading positions.old) resource }
    ensures writes { saved.Writes result (reading positions.old) resource }
    ensures reads { IfOk result (λ t. saved.IsReadAs (reading positions.old) resource (string_bytes t)) }
{
    if let Some(refused) = refusal(alloc, positions, objects)? {
        return Err(refused);
    }
    let text = document_text(alloc, positions, resource, roots)?;
    Ok(text)
}

/// The text of the document of `resource`, or why the resource can't be saved. `roots` are the roots of the resource.
fn written_below<L: LinkStore>(
    alloc: Global,
    model: &ModelRef<L>,
    resource: ResourceNo,
    roots: &[ObjectNo],
) -> Result<String, Refused>
    requires roots { roots.now ≡ roots_of (reading model.now) resource }
    requires live { list_all (is_live (reading model.now)) roots.now ≡ true }
    ensures writes { saved.Writes result (reading model.now) resource }
    ensures reads { IfOk result (λ t. saved.IsReadAs (reading model.now) resource (string_bytes t)) }
{
    let objects = objects_below(alloc, model, roots)?;
    let mut positions = Positions::new(alloc, model);
    text_by(alloc, &mut positions, resource, roots, objects.as_slice())
}

/// The text of a resource (EMF: XMLResource.save): `serde_json`'s compact text of its document. The features that are set are written,
/// except container references. Under a containment, the contained objects are written themselves. Under any other reference, an object of
/// the same resource is written as a fragment, an object of another resource as URI, `#` and fragment, and a proxy as its text. If that
/// reference has an opposite, a link of two objects is written at both of its ends, each end in the document of the resource that has the
/// object of this end. A resource that does not exist has no roots.
///
/// The whole resource is checked before anything is written. Fails with `Dangling` if an object of the resource refers to an object that is
/// in no resource; else with `TooDeep` if an object of the resource is at a deeper level than 40 (a root is at level 1). Fails with
/// `Memory` if memory is refused.
pub fn write_doc<L: LinkStore>(
    alloc: Global,
    model: &ModelRef<L>,
    resource: ResourceNo,
) -> Result<String, Refused>
    ensures writes { saved.Writes result (reading model.now) resource }
    ensures reads { IfOk result (λ t. saved.IsReadAs (reading model.now) resource (string_bytes t)) }
{
    match roots(alloc, model, resource) {
        Ok(roots) => written_below(alloc, model, resource, roots.as_slice()),
        Err(_) => Err(Refused::Memory),
    }
}
