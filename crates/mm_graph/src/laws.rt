//! Laws of the definitions, each the contract of a function that does nothing.
ghost use Rattle.std.specs.Prelude.{◌≡◌, ◌<◌, ℕ, length};
ghost use Rattle.mm_types.specs.Features.{all_features};
ghost use Rattle.mm_types.specs.Graph.{Reaches};
ghost use Rattle.mm_graph.specs.Order.{IsOrder};
ghost use Rattle.mm_graph.specs.Rows.{from_supers};

use mm_types::Seq;

/// If there is an order in which supertypes come first, all features of a class are these: the features of its direct supertypes, one
/// supertype after another in declared order, and then its own features; of each feature the first occurrence is kept.
pub fn all_features_from_supers(_graph: &[Seq<usize>], _own: &[Seq<u32>], _order: &[usize])
    requires { IsOrder _graph.now _order.now }
    ensures { (c : ℕ) → c < length _graph.now → all_features _graph.now _own.now c ≡ from_supers _graph.now _own.now c }
{}

/// If there is an order in which supertypes come first, no class is reached from itself.
pub fn order_rules_out_cycles(_graph: &[Seq<usize>], _order: &[usize])
    requires { IsOrder _graph.now _order.now }
    ensures { (c : ℕ) → Reaches _graph.now c c → ⊥ }
{}
