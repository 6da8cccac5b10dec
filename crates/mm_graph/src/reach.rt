//! The classes that a class reaches through its supertypes.
ghost use Rattle.std.specs.Prelude.{◌≡◌, ◌<◌, IfOk, length};
ghost use Rattle.mm_types.specs.Graph.{Conforms, Reaches};
ghost use Rattle.mm_graph.specs.ConformTable.{IsConformTable};
ghost use Rattle.mm_graph.specs.First.{IsFirst};
ghost use Rattle.mm_graph.specs.Order.{InRange};
ghost use Rattle.mm_graph.specs.Sets.{IsAdded, IsSetOf};

use crate::order::order_of;
use mm_types::Seq;
use std::alloc::{AllocError, Global};

/// Adds a class, and the classes that it reaches, to a set. If a class is in the set already, its supertypes are not visited.
fn add_reached(graph: &[Seq<usize>], c: usize, seen: &mut [bool])
    requires graph { InRange graph.now }
    requires class { c < length graph.now }
    requires long { length seen.old ≡ length graph.now }
    ensures { IsAdded graph.now c seen.old seen.new }
{
    if seen[c] {
        return;
    }
    seen[c] = true;
    'supers: for e in graph[c].as_slice() {
        add_reached(graph, *e, seen);
    }
}

/// The classes that a class conforms to: itself, and the classes that it reaches. Fails only if memory is refused.
pub fn conforming(alloc: Global, graph: &[Seq<usize>], c: usize) -> Result<Seq<bool>, AllocError>
    requires graph { InRange graph.now }
    requires class { c < length graph.now }
    ensures len { IfOk result (λ s. length s ≡ length graph.now) }
    ensures set { IfOk result (λ s. IsSetOf (Conforms graph.now c) s) }
{
    let mut seen = vec![in alloc; false; graph.len()]?;
    add_reached(graph, c, &mut seen);
    Ok(Seq::from_vec(seen))
}

/// Which classes the class `c` reaches: its direct supertypes, their direct supertypes, and so on; `c` itself only if it is on a cycle.
/// Fails only if memory is refused.
pub fn reached_from(alloc: Global, graph: &[Seq<usize>], c: usize) -> Result<Seq<bool>, AllocError>
    requires graph { InRange graph.now }
    requires class { c < length graph.now }
    ensures len { IfOk result (λ s. length s ≡ length graph.now) }
    ensures set { IfOk result (λ s. IsSetOf (Reaches graph.now c) s) }
{
    let mut seen = vec![in alloc; false; graph.len()]?;
    'supers: for e in graph[c].as_slice() {
        add_reached(graph, *e, &mut seen);
    }
    Ok(Seq::from_vec(seen))
}

/// For each class, the classes that it conforms to. Fails only if memory is refused.
pub fn conform_table(alloc: Global, graph: &[Seq<usize>]) -> Result<Seq<Seq<bool>>, AllocError>
    requires { InRange graph.now }
    ensures { IfOk result (λ table. IsConformTable graph.now table) }
{
    let mut table = Seq::new(alloc);
    'rows: for c in 0..graph.len() {
        table.push(conforming(alloc, graph, c)?)?;
    }
    Ok(table)
}

/// The first class that is reached from itself, or `None` if there is no cycle. Fails only if memory is refused.
pub fn first_on_cycle(alloc: Global, graph: &[Seq<usize>]) -> Result<Option<usize>, AllocError>
    requires { InRange graph.now }
    ensures { IfOk result (λ found. IsFirst (λ c. Reaches graph.now c c) (length graph.now) found) }
{
    // If there is an order in which supertypes come first, there is no cycle. To make an order takes less time than a search from each
    // class.
    match order_of(alloc, graph)? {
        Some(_order) => return Ok(None),
        None => {}
    }
    'classes: for c in 0..graph.len() {
        let reached = reached_from(alloc, graph, c)?;
        if reached.as_slice()[c] {
            return Ok(Some(c));
        }
    }
    Ok(None)
}
