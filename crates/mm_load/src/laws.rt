//! Laws of the definitions, each the contract of a function that does nothing.
ghost use Rattle.std.specs.Prelude.{◌≡◌, List, Some, ℕ};
ghost use Rattle.json.specs.Json.{Json, member, no_members};
ghost use Rattle.serde_json.specs.Data.{Members, object};
ghost use Rattle.serde_json.specs.Find.{get};
ghost use Rattle.serde_json.specs.Read.{of_json, of_members};

/// If members of a JSON object have the same key, the last of them counts. So if `last` is the value of the last member of an object, then
/// the value of the key of this member is `last`, whatever members come before it.
pub fn the_last_of_equal_keys_counts()
    ensures { (key : List ℕ) (last : Json) (before all : Members) → of_members (member key last no_members) before ≡ Some all
        → get key (object all) ≡ of_json last }
{}
