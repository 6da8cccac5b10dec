//! The members of a JSON object are looked up by their keys.
ghost use Rattle.std.specs.Prelude.{◌≡◌, map, option_map};
ghost use Rattle.std.specs.List.{list_all, list_any};
ghost use Rattle.std.specs.Str.{bytes_eq};
ghost use Rattle.serde_json.specs.Find.{get_member};
ghost use Rattle.json_fields.specs.Fields.{only_keys};
ghost use Rattle.borrowed_json.specs.View.{members_view, view};

use crate::value::{Json, Members};

fn is_one_of(key: &str, names: &[&str]) -> bool
    ensures { result ≡ list_any (λ n. bytes_eq n.now key.now) names.now }
{
    names.iter().any(|name| *name == key)
}

fn all_keys_among(members: Members, names: &[&str]) -> bool
    ensures { result ≡ list_all (λ m. list_any (λ n. bytes_eq n.now m.0.now) names.now) members.now }
{
    members.iter().all(|member| is_one_of(member.0, names))
}

/// Whether all keys of an object are among `names`. Takes no memory.
pub fn has_only_keys(members: Members, names: &[&str]) -> bool
    ensures { result ≡ only_keys (map (λ n. n.now) names.now) (members_view members.now) }
{
    all_keys_among(members, names)
}

/// The last value of a key, or nothing if the key is absent. Takes no memory, and looks through the members from the end.
pub fn find<'t>(members: Members<'t>, key: &str) -> Option<&'t Json<'t>>
    ensures { option_map (λ v. view v.now) result ≡ get_member key.now (members_view members.now) }
{
    let mut left = members.len();
    while left > 0 {
        left -= 1;
        let member = &members[left];
        if member.0 == key {
            return Some(&member.1);
        }
    }
    None
}
