//! Whether some found part has a fault that concerns this part alone.
ghost use Rattle.std.specs.Prelude.{◌≡◌, List};
ghost use Rattle.std.specs.List.{list_any};
ghost use Rattle.mm_types.specs.Resolved.{Metamodel};
ghost use Rattle.doc_parts.specs.Faults.{has_no_class as no_class, has_other_key as other_key, is_deep, is_deep_at, is_misshapen, of_written};
ghost use Rattle.doc_parts.specs.FoundParts.{Knows, has_other_member, lacks_class, looks_misshapen, part_seen};
ghost use Rattle.doc_parts.specs.Parts.{Part};

use crate::found::{FoundPart, FoundParts};
use crate::layout::written;
use crate::objects::{has_no_class, has_other_key};
use mm_meta::Meta;
use mm_types::limits::LEVELS;

fn is_misshapen_part(part: &FoundPart) -> bool
    ensures { result ≡ looks_misshapen (part_seen part.now) }
{
    part.known.is_none()
        && written(part.json).is_none()
        && (part.level == 1 || part.json.is_object())
}

fn is_any_misshapen(parts: &[FoundPart]) -> bool
    ensures { result ≡ list_any (λ r. looks_misshapen (part_seen r)) parts.now }
{
    parts.iter().any(|part| is_misshapen_part(part))
}

fn is_any_without_class(meta: &Meta, parts: &[FoundPart]) -> bool
    ensures { result ≡ list_any (λ r. lacks_class meta.now (part_seen r)) parts.now }
{
    parts.iter().any(|part| has_no_class(meta, part))
}

fn is_any_with_other_key(meta: &Meta, parts: &[FoundPart]) -> bool
    ensures { result ≡ list_any (λ r. has_other_member meta.now (part_seen r)) parts.now }
{
    parts.iter().any(|part| has_other_key(meta, part))
}

fn is_any_deep(parts: &[FoundPart]) -> bool
    ensures { result ≡ list_any (λ r. is_deep_at r.level) parts.now }
{
    parts.iter().any(|part| part.level as usize > LEVELS)
}

/// Whether some part lacks the layout of an object. Each root is tested; a part below the roots is tested only if it is a JSON object.
/// Takes no memory.
pub fn has_misshapen(found: &FoundParts) -> bool
    ensures { (m : Metamodel) (ps : List Part) → Knows m found.now ps → result ≡ list_any is_misshapen ps }
{
    is_any_misshapen(found.parts.as_slice())
}

/// Whether some object names a class that the metamodel doesn't have, or an abstract class. Takes no memory.
pub fn has_unknown_class(meta: &Meta, found: &FoundParts) -> bool
    ensures { (ps : List Part) → Knows meta.now found.now ps → result ≡ of_written (no_class meta.now) ps }
{
    is_any_without_class(meta, found.parts.as_slice())
}

/// Whether some object of a known class has, under `features`, a key that names no feature of the class, or that names a container
/// reference. Takes no memory.
pub fn has_unknown_feature(meta: &Meta, found: &FoundParts) -> bool
    ensures { (ps : List Part) → Knows meta.now found.now ps → result ≡ of_written (other_key meta.now) ps }
{
    is_any_with_other_key(meta, found.parts.as_slice())
}

/// Whether some part is at a level deeper than `LEVELS`, the deepest level that is accepted. Takes no memory.
pub fn has_deep(found: &FoundParts) -> bool
    ensures { (m : Metamodel) (ps : List Part) → Knows m found.now ps → result ≡ list_any is_deep ps }
{
    is_any_deep(found.parts.as_slice())
}
