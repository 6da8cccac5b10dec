//! Whether two features of a class share a name.
ghost use Rattle.std.specs.Prelude.{[], ◌≡◌, ◌<◌, ◌↔◌, IfOk, IsTrue, length, map};
ghost use Rattle.mm_types.specs.Clashes.{Clash};
ghost use Rattle.mm_types.specs.Names.{repeats};
ghost use Rattle.mm_graph.specs.Gathered.{gathered_names};
ghost use Rattle.mm_graph.specs.Order.{InRange};

use crate::reach::conforming;
use indexmap::IndexSet;
use mm_types::{Seq, Text};
use std::alloc::{AllocError, Global};

/// Whether a name occurs twice in `names`. Fails only if memory is refused.
pub fn has_repeats(alloc: Global, names: &[&str]) -> Result<bool, AllocError>
    ensures { IfOk result (λ b. b ≡ repeats [] (map (λ n. n.now) names.now)) }
{
    let mut seen: IndexSet<&str> = IndexSet::with_capacity(alloc, names.len())?;
    for name in names {
        let is_new = seen.insert(*name)?;
        if !is_new {
            return Ok(true);
        }
    }
    Ok(false)
}

/// The names of the features that the chosen classes declare, one class after another. `chosen` says for each class whether it is chosen,
/// and `names` has the names of the features that each class declares.
fn gather<'a>(
    alloc: Global,
    chosen: &[bool],
    names: &'a [Seq<Text>],
) -> Result<Vec<&'a str>, AllocError>
    requires { length chosen.now ≡ length names.now }
    ensures { IfOk result (λ v. map (λ n. n.now) v.items ≡ gathered_names chosen.now names.now) }
{
    let mut found: Vec<&'a str> = Vec::new(alloc);
    'classes: for (i, own) in names.iter().enumerate() {
        if chosen[i] {
            'own: for name in own.as_slice() {
                found.push(name.as_str())?;
            }
        }
    }
    Ok(found)
}

/// Whether two different features of a class, own or inherited, share a name. `names` has the names of the features that each class
/// declares. Fails only if memory is refused.
///
/// The graph of supertypes may have cycles. The check takes one look-up for each feature of the class, own or inherited.
pub fn clashes(
    alloc: Global,
    graph: &[Seq<usize>],
    names: &[Seq<Text>],
    c: usize,
) -> Result<bool, AllocError>
    requires graph { InRange graph.now }
    requires names { length names.now ≡ length graph.now }
    requires class { c < length graph.now }
    ensures { IfOk result (λ b. IsTrue b ↔ Clash graph.now names.now c) }
{
    let chosen = conforming(alloc, graph, c)?;
    let found = gather(alloc, chosen.as_slice(), names)?;
    has_repeats(alloc, found.as_slice())
}
