//! The faults of an object of a document that concern this object alone.
ghost use Rattle.std.specs.Prelude.{◌≡◌};
ghost use Rattle.std.specs.List.{list_all};
ghost use Rattle.borrowed_json.specs.View.{members_view};
ghost use Rattle.json_fields.specs.Fields.{keys_of};
ghost use Rattle.doc_parts.specs.Faults.{is_readable as readable};
ghost use Rattle.doc_parts.specs.FoundParts.{has_other_member, lacks_class, part_seen};

use crate::found::FoundPart;
use crate::layout::written;
use borrowed_json::Members;
use mm_meta::Meta;
use mm_types::ClassNo;

/// Whether an object names a class that the metamodel doesn't have, or an abstract class. Takes no memory.
pub(crate) fn has_no_class(meta: &Meta, part: &FoundPart) -> bool
    ensures { result ≡ lacks_class meta.now (part_seen part.now) }
{
    match part.known {
        Some((class, _)) => !meta.is_concrete(class),
        None => written(part.json).is_some(),
    }
}

/// Whether a class has a feature with the name `name`, and the feature is no container reference.
fn is_readable(meta: &Meta, class: ClassNo, name: &str) -> bool
    ensures { result ≡ readable meta.now class name.now }
{
    match meta.feature_by_name(class, name) {
        Some(feature) => !meta.is_container(feature),
        None => false,
    }
}

fn are_readable(meta: &Meta, class: ClassNo, members: Members) -> bool
    ensures { result ≡ list_all (λ m. readable meta.now class m.0.now) members.now }
{
    members
        .iter()
        .all(|member| is_readable(meta, class, member.0))
}

fn has_only_features(meta: &Meta, class: ClassNo, members: Members) -> bool
    ensures { result ≡ list_all (readable meta.now class) (keys_of (members_view members.now)) }
{
    are_readable(meta, class, members)
}

/// Whether an object of a known class has, under `features`, a key that names no feature of the class, or that names a container reference.
/// Takes no memory.
pub(crate) fn has_other_key(meta: &Meta, part: &FoundPart) -> bool
    ensures { result ≡ has_other_member meta.now (part_seen part.now) }
{
    match part.known {
        Some((class, members)) => !has_only_features(meta, class, members),
        None => false,
    }
}
