//! All features of every class.
ghost use Rattle.std.specs.Prelude.{◌≡◌, ◌<◌, ℕ, [], IfOk, OnOk, length};
ghost use Rattle.std.specs.List.{All};
ghost use Rattle.mm_types.specs.Graph.{by_class};
ghost use Rattle.mm_types.specs.Features.{all_features, with_new};
ghost use Rattle.mm_graph.specs.Order.{InRange, IsOrder};
ghost use Rattle.mm_graph.specs.Rows.{with_rows};

use indexmap::IndexSet;
use mm_types::Seq;
use std::alloc::{AllocError, Global};

/// Adds each feature of `features` that `found` does not have yet, at the end of `found`.
fn add_new(found: &mut IndexSet<u32>, features: &[u32]) -> Result<(), AllocError>
    ensures { OnOk result (found.new.keys ≡ with_new found.old.keys features.now) }
{
    found.reserve(features.len())?;
    for feature in features {
        found.insert(*feature)?;
    }
    Ok(())
}

/// All features of a class, each once: the features of its direct supertypes, one supertype after another, and then the features that the
/// class declares. `supers` are the direct supertypes, `rows` has all features of each of these supertypes at the supertype's number, and
/// `own` are the declared features.
fn merged(
    alloc: Global,
    supers: &[usize],
    rows: &[Seq<u32>],
    own: &[u32],
) -> Result<Seq<u32>, AllocError>
    requires { All (λ e. e < length rows.now) supers.now }
    ensures { IfOk result (λ r. r ≡ with_new (with_rows rows.now [] supers.now) own.now) }
{
    let mut found = IndexSet::new(alloc);
    'supers: for e in supers {
        add_new(&mut found, rows[*e].as_slice())?;
    }
    add_new(&mut found, own)?;
    let items = Vec::from_slice(alloc, found.as_slice())?;
    Ok(Seq::from_vec(items))
}

/// All features of every class, own and inherited, at the class's number. `own` has the features that each class declares, and `order` is
/// an order that `order_of` returns. Fails only if memory is refused.
///
/// Each class's list is made once, by going once through the list of each direct supertype. So the time does not depend on how many paths
/// lead to a supertype. A list takes four bytes a feature and no more, since all lists together are the largest part of a metamodel.
pub fn features_table(
    alloc: Global,
    graph: &[Seq<usize>],
    own: &[Seq<u32>],
    order: &[usize],
) -> Result<Vec<Seq<u32>>, AllocError>
    requires graph { InRange graph.now }
    requires own { length own.now ≡ length graph.now }
    requires order { IsOrder graph.now order.now }
    ensures len { IfOk result (λ t. length t.items ≡ length graph.now) }
    ensures rows { IfOk result (λ t. (c : ℕ) → c < length graph.now → by_class t.items c ≡ all_features graph.now own.now c) }
{
    let mut rows = Vec::with_capacity(alloc, graph.len())?;
    'empty: for _class in 0..graph.len() {
        rows.push(Seq::new(alloc))?;
    }
    // The lists of a class's supertypes are made by now, since the supertypes come before the class in the order.
    'classes: for c in order {
        let made = merged(
            alloc,
            graph[*c].as_slice(),
            rows.as_slice(),
            own[*c].as_slice(),
        )?;
        rows[*c] = made;
    }
    Ok(rows)
}
