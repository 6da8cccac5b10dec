//! Finds and takes the members of a JSON object by their keys, and tests the keys.
ghost use Rattle.std.specs.Prelude.{◌≡◌, ◌||◌, ◌++◌, [], ◌∷◌, Some, None, is_some, map, option_map, option_and_then, string_bytes, if◌then◌else◌};
ghost use Rattle.std.specs.List.{list_all, list_any};
ghost use Rattle.std.specs.Str.{bytes_eq};
ghost use Rattle.std.specs.BTreeMap.{keys};
ghost use Rattle.serde_json.specs.Data.{object};
ghost use Rattle.serde_json.specs.Find.{as_object, get_member};
ghost use Rattle.serde_json.specs.View.{members_view, view};
ghost use Rattle.json_fields.specs.Fields.{KeepsOthers, has_only, only_keys, required_at, word};

use serde_json::{Map, Value};

fn is_one_of(key: &str, names: &[&str]) -> bool
    ensures { result ≡ list_any (λ n. bytes_eq n.now key.now) names.now }
{
    names.iter().any(|name| *name == key)
}

fn is_one_of_either(key: &str, names: &[&str], more: &[&str]) -> bool
    ensures { result ≡ (list_any (λ n. bytes_eq n.now key.now) names.now || list_any (λ n. bytes_eq n.now key.now) more.now) }
{
    is_one_of(key, names) || is_one_of(key, more)
}

fn all_keys_among(members: &Map<String, Value>, names: &[&str], more: &[&str]) -> bool
    ensures { result ≡ list_all (λ k. list_any (λ n. bytes_eq n.now (string_bytes k)) names.now || list_any (λ n. bytes_eq n.now (string_bytes k)) more.now) (keys members.now) }
{
    members
        .keys()
        .all(|key| is_one_of_either(key.as_str(), names, more))
}

/// Whether each key of an object is among `names`. Takes no memory.
pub fn has_only_keys(members: &Map<String, Value>, names: &[&str]) -> bool
    ensures { result ≡ only_keys (map (λ n. n.now) names.now) (members_view members.now.entries) }
{
    all_keys_among(members, names, &[])
}

/// Whether each key of an object is among `names` or among `more`. Takes no memory.
pub fn has_only_keys_of(members: &Map<String, Value>, names: &[&str], more: &[&str]) -> bool
    ensures { result ≡ only_keys (map (λ n. n.now) names.now ++ map (λ n. n.now) more.now) (members_view members.now.entries) }
{
    all_keys_among(members, names, more)
}

/// The members of a JSON object; `None` if the value is no object. Takes no memory.
pub fn members_of(value: Value) -> Option<Map<String, Value>>
    ensures { option_map (λ m. members_view m.entries) result ≡ as_object (view value) }
{
    match value {
        Value::Object(members) => Some(members),
        _ => None,
    }
}

/// The members of a JSON object; `None` if the value is no object, or if a key of the object is not among `names`. Takes no memory.
pub fn only_members_of(value: Value, names: &[&str]) -> Option<Map<String, Value>>
    ensures { option_map (λ m. object (members_view m.entries)) result
        ≡ (if has_only (map (λ n. n.now) names.now) (view value) then Some (view value) else None) }
{
    let members = members_of(value)?;
    if !has_only_keys(&members, names) {
        return None;
    }
    Some(members)
}

/// Takes the member with the key `key` out of an object, and returns its value; `None` if the key is absent. Takes no memory.
pub fn take(members: &mut Map<String, Value>, key: &str) -> Option<Value>
    ensures value { option_map view result ≡ get_member key.now (members_view members.old.entries) }
    ensures others { KeepsOthers (key.now ∷ []) (members_view members.old.entries) (members_view members.new.entries) }
{
    members.remove(key)
}

/// The value of a key; `None` if the key is absent. Takes no memory.
pub fn find<'v>(members: &'v Map<String, Value>, key: &str) -> Option<&'v Value>
    ensures { option_map (λ v. view v.now) result ≡ get_member key.now (members_view members.now.entries) }
{
    members.get(key)
}

/// Whether the value of a key is the text `wanted`; false if the key is absent. Takes no memory.
pub fn is_word(members: &Map<String, Value>, key: &str, wanted: &str) -> bool
    ensures { result ≡ is_some (required_at key.now (word wanted.now) (object (members_view members.now.entries))) }
{
    match find(members, key) {
        Some(found) => found.as_str() == Some(wanted),
        None => false,
    }
}
