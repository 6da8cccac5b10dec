//! An order in which supertypes come first.
ghost use Rattle.std.specs.Prelude.{◌<◌, IfOk, MatchOption, length};
ghost use Rattle.mm_graph.specs.Order.{HasCycle, InRange, IsOrder};
ghost use Rattle.mm_graph.specs.Visits.{IsBegun, OpenReach, Visits};

use mm_types::Seq;
use std::alloc::{AllocError, AllocFailed, Global};

/// How far the visit of a class has come.
#[derive(Clone, Copy, Debug, PartialEq, Eq)]
enum Mark {
    Unseen,
    /// The supertypes of the class are being visited.
    Open,
    /// The class is in the order, and so is each class that it reaches.
    Done,
}

/// Visits a class: visits its direct supertypes, and then adds the class to the order. Does nothing if the class is in the order already.
/// False if a cycle was met.
fn visit(
    graph: &[Seq<usize>],
    c: usize,
    marks: &mut [Mark],
    order: &mut Vec<usize>,
) -> Result<bool, AllocFailed<usize>>
    requires graph { InRange graph.now }
    requires class { c < length graph.now }
    requires begun { IsBegun graph.now marks.old order.old.items }
    requires reach { OpenReach graph.now marks.old c }
    ensures { IfOk result (λ ok. Visits ok graph.now c marks.old marks.new order.new.items) }
{
    match marks[c] {
        Mark::Done => return Ok(true),
        // Each open class reaches the class that is visited. This class is open, so it reaches itself: this is a cycle.
        Mark::Open => return Ok(false),
        Mark::Unseen => {}
    }
    marks[c] = Mark::Open;
    'supers: for e in graph[c].as_slice() {
        if !visit(graph, *e, marks, order)? {
            return Ok(false);
        }
    }
    marks[c] = Mark::Done;
    order.push(c)?;
    Ok(true)
}

/// The classes in an order in which each comes after its supertypes, or `None` if some class is reached from itself. Fails only if memory
/// is refused.
///
/// Takes time linear in the number of classes and of the supertypes that they name.
pub fn order_of(alloc: Global, graph: &[Seq<usize>]) -> Result<Option<Vec<usize>>, AllocError>
    requires { InRange graph.now }
    ensures { IfOk result (λ found. MatchOption found (HasCycle graph.now) (λ order. IsOrder graph.now order.items)) }
{
    let mut marks = vec![in alloc; Mark::Unseen; graph.len()]?;
    let mut order = Vec::new(alloc);
    'classes: for c in 0..graph.len() {
        if !visit(graph, c, &mut marks, &mut order)? {
            return Ok(None);
        }
    }
    Ok(Some(order))
}
