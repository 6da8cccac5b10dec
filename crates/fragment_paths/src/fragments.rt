//! The fragments and the addresses of objects.
ghost use Rattle.std.specs.Prelude.{◌≡◌, IfOk, Some, string_bytes};
ghost use Rattle.models.specs.Model.{reading};
ghost use Rattle.fragment_paths.specs.Fragments as spec;
ghost use Rattle.fragment_paths.specs.Located.{located_address, located_text};

use crate::paths::{Located, locate};
use crate::positions::Positions;
use links::LinkStore;
use mm_types::{ObjectNo, ResourceNo, Text};
use models::{ModelRef, roots_end};
use std::alloc::{AllocError, Global};
use web_uris::address_of;

/// Whether a resource has exactly one root.
fn has_one_root<L: LinkStore>(model: &ModelRef<L>, resource: ResourceNo) -> bool
    ensures { result ≡ spec.has_one_root (reading model.now) resource }
{
    model.len(roots_end(model, resource)) == 1
}

/// The path of a located object as a text: the fragment of the object in its resource.
fn text_of<L: LinkStore>(
    alloc: Global,
    model: &ModelRef<L>,
    found: &Located,
) -> Result<String, AllocError>
    ensures { IfOk result (λ t. string_bytes t ≡ located_text (reading model.now) found.now) }
{
    found.path.text(alloc, has_one_root(model, found.resource))
}

/// The fragment of a located object.
fn fragment_by<L: LinkStore>(
    alloc: Global,
    model: &ModelRef<L>,
    found: &Located,
) -> Result<Option<Text>, AllocError>
    ensures { IfOk result (λ t. t ≡ Some (located_text (reading model.now) found.now)) }
{
    let text = text_of(alloc, model, found)?;
    Ok(Some(Text::from_string(alloc, text)?))
}

/// The fragment of an object in its resource (EMF: Resource.getURIFragment): `/`, then the position of the root on the way to the object,
/// and then a step for each further object on the way. The position of the root is left out if the resource has one root. `None` if the
/// object is in no resource. Fails only if memory is refused.
pub fn write<L: LinkStore>(
    alloc: Global,
    model: &ModelRef<L>,
    object: ObjectNo,
) -> Result<Option<Text>, AllocError>
    ensures { IfOk result (λ t. t ≡ spec.fragment (reading model.now) object) }
{
    match locate(alloc, &Positions::new(alloc, model), object)? {
        Some(found) => fragment_by(alloc, model, &found),
        None => Ok(None),
    }
}

/// The address of a located object.
fn address_by<L: LinkStore>(
    alloc: Global,
    model: &ModelRef<L>,
    found: &Located,
) -> Result<Option<Text>, AllocError>
    ensures { IfOk result (λ t. t ≡ located_address (reading model.now) found.now) }
{
    match model.uri(found.resource) {
        Some(uri) => {
            let fragment = text_of(alloc, model, found)?;
            let text = address_of(alloc, uri, fragment.as_str())?;
            Ok(Some(Text::from_string(alloc, text)?))
        }
        None => Ok(None),
    }
}

/// The address of an object (EMF: EcoreUtil.getURI): the URI of its resource, `#`, and its fragment. `None` if the object is in no
/// resource. Fails only if memory is refused.
pub fn address<L: LinkStore>(
    alloc: Global,
    model: &ModelRef<L>,
    object: ObjectNo,
) -> Result<Option<Text>, AllocError>
    ensures { IfOk result (λ t. t ≡ spec.address (reading model.now) object) }
{
    match locate(alloc, &Positions::new(alloc, model), object)? {
        Some(found) => address_by(alloc, model, &found),
        None => Ok(None),
    }
}

/// How the resource `from` refers to an object (EMF: XMLHelper.getHREF): by the object's fragment if the object is in `from` too, and
/// otherwise by the object's address. `None` if the object is in no resource. Fails only if memory is refused.
pub fn reference<L: LinkStore>(
    alloc: Global,
    positions: &Positions<L>,
    from: ResourceNo,
    object: ObjectNo,
) -> Result<Option<Text>, AllocError>
    ensures { IfOk result (λ t. t ≡ spec.reference (reading positions.now) from object) }
{
    let model = positions.model();
    match locate(alloc, positions, object)? {
        Some(found) => {
            if found.resource.0 == from.0 {
                fragment_by(alloc, model, &found)
            } else {
                address_by(alloc, model, &found)
            }
        }
        None => Ok(None),
    }
}
