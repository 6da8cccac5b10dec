//! Why a resource can't be saved.
ghost use Rattle.std.specs.Prelude.{◌≡◌, IfOk};
ghost use Rattle.mm_types.specs.declared.numbers.ResourceNo.{ResourceNo};
ghost use Rattle.models.specs.Model.{reading};
ghost use Rattle.doc_writer.specs.Saved as saved;
ghost use Rattle.doc_writer.specs.Written.{objects_in};

use crate::levels::any_too_deep;
use crate::ways::note_ways;
use fragment_paths::Positions;
use links::LinkStore;
use mm_types::{ObjectNo, Refused};
use std::alloc::{AllocError, Global};

/// The reason why a resource whose objects are `objects` can't be saved: `Dangling` if one of `objects` refers to an object that is in no
/// resource, else `TooDeep` if one of `objects` is at a deeper level than a document may have, else `None`. If the result is `None`, the
/// ways to all objects to which `objects` refer are noted (`note_ways`). Fails only if memory is refused.
pub(crate) fn refusal<L: LinkStore>(
    alloc: Global,
    positions: &mut Positions<L>,
    objects: &[ObjectNo],
) -> Result<Option<Refused>, AllocError>
    ensures same { positions.new ≡ positions.old }
    ensures refused { IfOk result (λ o. (k : ResourceNo) → objects.now ≡ objects_in (reading positions.old) k → o ≡ saved.save_refusal (reading positions.old) k) }
{
    if note_ways(alloc, positions, objects)? {
        return Ok(Some(Refused::Dangling));
    }
    if any_too_deep(positions.model(), objects) {
        return Ok(Some(Refused::TooDeep));
    }
    Ok(None)
}
