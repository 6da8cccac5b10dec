//! The layout of a document: how its top (the outermost JSON object) and the objects of the resource are written.
ghost use Rattle.std.specs.Prelude.{◌≡◌, IsTrue, codes, option_map};
ghost use Rattle.serde_json.specs.Data.{object};
ghost use Rattle.serde_json.specs.Find.{as_object, as_str};
ghost use Rattle.borrowed_json.specs.View.{items_view, members_view, view};
ghost use Rattle.doc_parts.specs.Layout.{IsInOrder, new_top, new_written, top as top_meant, written_by, written_object as written_meant};

use borrowed_json::{Json, Members, find, has_only_keys};

/// The members of the top of a document.
#[derive(Clone, Copy)]
pub struct TopMembers<'t> {
    pub format: i64,
    pub roots: &'t [Json<'t>],
}

/// The members of an object of a document: the name of the object's class, and the contents of its features, by the names of the features.
#[derive(Clone, Copy)]
pub(crate) struct ObjectMembers<'t> {
    pub class: &'t str,
    pub features: Members<'t>,
}

/// The members of the top of a document; `None` if `json` lacks the layout of a top. Takes no memory.
#[tactic(auto, unfolding(crate::specs::Layout::top))]
pub fn top<'t>(json: &Json<'t>) -> Option<TopMembers<'t>>
    ensures { option_map (λ t. new_top t.format (items_view t.roots.now)) result ≡ top_meant (view json.now) }
{
    let members = json.as_object()?;
    if !has_only_keys(members, &["format", "roots"]) {
        return None;
    }
    let format = find(members, "format")?.as_i64()?;
    let roots = find(members, "roots")?.as_array()?;
    Some(TopMembers { format, roots })
}

#[inline(always)]
fn is_class(key: &str) -> bool
    ensures { IsTrue result → key.now ≡ codes "class" }
{
    matches!(key.as_bytes(), [b'c', b'l', b'a', b's', b's'])
}

#[inline(always)]
fn is_features(key: &str) -> bool
    ensures { IsTrue result → key.now ≡ codes "features" }
{
    matches!(
        key.as_bytes(),
        [b'f', b'e', b'a', b't', b'u', b'r', b'e', b's']
    )
}

/// Whether an object has exactly the members `class` and `features`, in this order, the order in which they are saved.
#[inline(always)]
fn is_in_order(members: Members) -> bool
    ensures { IsTrue result → IsInOrder members.now }
{
    members.len() == 2 && is_class(members[0].0) && is_features(members[1].0)
}

/// The class and the features of an object, from the values of its two members. `None` if the class is no text or the features are no JSON
/// object.
fn of_two<'t>(class: &'t Json<'t>, features: &'t Json<'t>) -> Option<ObjectMembers<'t>>
    ensures { option_map (λ w. new_written w.class.now (members_view w.features.now)) result ≡ written_by (as_str (view class.now)) (as_object (view features.now)) }
{
    let class = class.as_str()?;
    let features = features.as_object()?;
    Some(ObjectMembers { class, features })
}

/// The class and the features of an object that is written with `members`; `None` if `members` lack the layout of an object.
#[tactic(auto, unfolding(crate::specs::Layout::written_object))]
fn of_members<'t>(members: Members<'t>) -> Option<ObjectMembers<'t>>
    ensures { option_map (λ w. new_written w.class.now (members_view w.features.now)) result ≡ written_meant (object (members_view members.now)) }
{
    if !has_only_keys(members, &["class", "features"]) {
        return None;
    }
    let class = find(members, "class")?.as_str()?;
    let features = find(members, "features")?.as_object()?;
    Some(ObjectMembers { class, features })
}

/// The members of an object; `None` if `json` lacks the layout of an object. Takes no memory.
#[inline(always)]
#[tactic(auto, unfolding(crate::specs::Layout::written_object))]
pub(crate) fn written<'t>(json: &Json<'t>) -> Option<ObjectMembers<'t>>
    ensures { option_map (λ w. new_written w.class.now (members_view w.features.now)) result ≡ written_meant (view json.now) }
{
    let members = json.as_object()?;
    // In a document that was saved, no key has to be looked for.
    if is_in_order(members) {
        return of_two(&members[0].1, &members[1].1);
    }
    of_members(members)
}
