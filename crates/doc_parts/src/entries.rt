//! The contents of an object, by the features of its class.
ghost use Rattle.std.specs.Prelude.{◌≡◌, [], length, map, option_map};
ghost use Rattle.mm_types.specs.Lookups as lookups;
ghost use Rattle.mm_types.specs.Shapes.{shape};
ghost use Rattle.borrowed_json.specs.View.{members_view, view};
ghost use Rattle.doc_parts.specs.Parts.{class_and_members as known_meant, class_of as class_meant, content_at as content_meant, new_entry, values_of as values_meant};

use crate::layout::written;
use borrowed_json::{Json, Members, find};
use mm_meta::Meta;
use mm_types::{ClassNo, FeatureNo};
use std::slice;

/// The class whose name an object has under `class`; `None` if `json` lacks the layout of an object, or if no class has that name. Takes no
/// memory.
pub fn class_of(meta: &Meta, json: &Json) -> Option<ClassNo>
    ensures { result ≡ class_meant meta.now (view json.now) }
{
    meta.class_by_name(written(json)?.class)
}

/// The class of an object and the members under its key `features`; `None` if `json` lacks the layout of an object, or if no class has the
/// name that the object gives. Takes no memory.
pub fn known<'t>(meta: &Meta, json: &Json<'t>) -> Option<(ClassNo, Members<'t>)>
    ensures { option_map (λ k. (k.0, members_view k.1.now)) result ≡ known_meant meta.now (view json.now) }
{
    let object = written(json)?;
    let class = meta.class_by_name(object.class)?;
    Some((class, object.features))
}

/// The content of a feature among the members under the key `features` of an object; the last one, if several members have the feature's
/// name. `None` if no member has the feature's name, or if the feature is a container reference. Takes no memory.
pub fn content_at<'t>(meta: &Meta, members: Members<'t>, feature: FeatureNo) -> Option<&'t Json<'t>>
    ensures { option_map (λ v. view v.now) result ≡ content_meant meta.now (members_view members.now) feature }
{
    match find(members, meta.feature_name(feature)) {
        Some(content) if !meta.is_container(feature) => Some(content),
        _ => None,
    }
}

fn no_values<'t>() -> &'t [Json<'t>]
    ensures { result.now ≡ [] }
{
    &[]
}

/// The values of a feature's content: the content itself if the feature is single, otherwise the items of the array. If the content of a
/// many-valued feature is no array, there are no values. Takes no memory.
pub fn values_of<'t>(meta: &Meta, feature: FeatureNo, content: &'t Json<'t>) -> &'t [Json<'t>]
    ensures { map view result.now ≡ values_meant meta.now (new_entry feature (view content.now)) }
{
    if meta.is_single(feature) {
        return slice::from_ref(content);
    }
    let Some(values) = content.as_array() else {
        return no_values();
    };
    values
}
