//! Features by their names.
ghost use Rattle.std.specs.Prelude.{◌≡◌, ◌<◌, ℕ, suc, [], List, IfOk, length, map, position};
ghost use Rattle.std.specs.List.{slice_index_or};
ghost use Rattle.std.specs.Str.{bytes_eq};
ghost use Rattle.mm_meta.specs.FeatureNames.{AreFeatureNames, IsNext};
ghost use Rattle.mm_meta.specs.NameTable.{IsTableOf};

use crate::name_table::NameTable;
use mm_types::Feature;
use std::alloc::{AllocError, Global};

/// One table of the names of all features, whatever class declares them: the first feature with each name, and for each feature the next
/// feature with the same name. The size of the table depends on how many features are declared, and not on how many are inherited.
#[derive(Drop)]
pub struct FeatureNames {
    first: NameTable,
    /// At the number of each feature, the number of the next feature with the same name; if there is none, the count of all features.
    next: Vec<usize>,
}

impl FeatureNames {
    /// The table of the names of these features. Fails only if memory is refused.
    pub fn of(alloc: Global, features: &[Feature]) -> Result<Self, AllocError>
        ensures { IfOk result (λ n. AreFeatureNames n (map (λ f. f.name) features.now)) }
    {
        let first = NameTable::of(alloc, features)?;
        let next = next_of_name(alloc, features, &first)?;
        Ok(FeatureNames { first, next })
    }

    /// The number of the first feature with a given name; `None` if no feature has the name.
    pub fn first(&self, name: &str) -> Option<usize>
        ensures { (names : List (List ℕ)) → AreFeatureNames self.now names → result ≡ position (λ n. bytes_eq n name.now) names }
    {
        self.first.position(name)
    }

    /// At the number of each feature, the number of the next feature with the same name; if there is none, the count of all features.
    pub fn next(&self) -> &[usize]
        ensures { result.now ≡ self.now.next.items }
    {
        self.next.as_slice()
    }
}

/// At the number of each feature, the number of the next feature with the same name; if there is none, the count of all features. The table
/// `first` finds the first feature with each name. The features are visited from the last to the first.
fn next_of_name(
    alloc: Global,
    features: &[Feature],
    first: &NameTable,
) -> Result<Vec<usize>, AllocError>
    requires { IsTableOf first.now (map (λ f. f.name) features.now) }
    ensures long { IfOk result (λ v. length v.items ≡ length features.now) }
    ensures next { IfOk result (λ v. (f : ℕ) → f < length features.now → IsNext (map (λ x. x.name) features.now) (slice_index_or (map (λ x. x.name) features.now) f []) (suc f) (slice_index_or v.items f 0)) }
{
    let none = features.len();
    let mut next = vec![in alloc; none; none]?;
    // At the number of the first feature with each name: the number of the feature with this name that was visited last, or `none` if no
    // such feature was visited yet.
    let mut met = vec![in alloc; none; none]?;
    let mut f = none;
    'back: while f > 0 {
        f -= 1;
        match first.position(features[f].name.as_str()) {
            Some(p) => {
                next[f] = met[p];
                met[p] = f;
            }
            None => {}
        }
    }
    Ok(next)
}
