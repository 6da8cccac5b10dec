//! Puts a value at a key of an object while the object is read.
ghost use Rattle.std.specs.Prelude.{◌≡◌, ◌<◌, ◌≤◌, ◌+◌, IfSome, OnOk, drop, length, not, take, true};
ghost use Rattle.std.specs.List.{list_all};
ghost use Rattle.std.specs.Str.{bytes_eq};
ghost use Rattle.serde_json.specs.Data.{put as with_member};
ghost use Rattle.borrowed_json.specs.View.{members_view, view};

use crate::value::{Json, Members};
use std::alloc::AllocError;

/// How many of the last members are searched for a key before the key is added. An object with at most this number of different keys has
/// each key once, however often the key is written.
const SEARCHED: usize = 256;

/// The index of the last member whose key is `key`; `None` if none of the last `SEARCHED` members has this key.
fn last_of(members: Members, key: &str) -> Option<usize>
    ensures { IfSome result (λ i. (i < length members.now) × (list_all (λ m. not (bytes_eq m.0.now key.now)) (drop (i + 1) members.now) ≡ true)) }
{
    let mut left = members.len();
    let end = left.saturating_sub(SEARCHED);
    while left > end {
        left -= 1;
        if members[left].0 == key {
            return Some(left);
        }
    }
    None
}

/// Puts a value at a key of an object. From the index `base` on, `members` has the members of the object; before that index, `members` has
/// members of outer objects. If the key is among the last `SEARCHED` members of the object, the new value replaces the value of that
/// member; otherwise the key and the value are added as the last member.
#[inline(always)]
pub(crate) fn put<'t>(
    members: &mut Vec<(&'t str, Json<'t>)>,
    base: usize,
    key: &'t str,
    value: Json<'t>,
) -> Result<(), AllocError>
    requires { base ≤ length members.old.items }
    ensures outer { OnOk result (take base members.new.items ≡ take base members.old.items) }
    ensures members { OnOk result (members_view (drop base members.new.items) ≡ with_member key.entry.now (view value.entry) (members_view (drop base members.old.items))) }
{
    match last_of(&members[base..], key) {
        Some(index) if members[base + index].0 == key => members[base + index] = (key, value),
        _ => members.push((key, value))?,
    }
    Ok(())
}
