//! Tests with small graphs, whose expected results were worked out by hand, and with a ladder, which has more paths than can be walked one
//! by one.
ghost use Rattle.std.specs.Prelude.{◌≡◌, ◌<◌, ◌↔◌, IsTrue, length};
ghost use Rattle.std.specs.List.{All};
ghost use Rattle.mm_graph.specs.Order.{InRange, IsOrder};

use mm_graph::{
    clashes, conform_table, conforming, features_table, first_on_cycle, laws, order_of,
    reached_from,
};
use mm_types::{Seq, Text};
use std::alloc::{AllocError, Global};
use std::fmt::Debug;
use std::test::Fail;

/// Rows of numbers, as a graph has them.
fn rows_of<T: Copy>(alloc: Global, rows: &[&[T]]) -> Result<Vec<Seq<T>>, AllocError> {
    let mut made = Vec::new(alloc);
    for numbers in rows {
        let items = Vec::from_slice(alloc, numbers)?;
        made.push(Seq::from_vec(items))?;
    }
    Ok(made)
}

fn is_below(numbers: &[usize], count: usize) -> bool
    ensures { IsTrue result ↔ All (λ n. n < count) numbers.now }
{
    numbers.iter().all(|n| *n < count)
}

/// Whether each supertype in the rows of `graph` is the number of a class of `graph`.
fn is_in_range(graph: &[Seq<usize>]) -> bool
    ensures { IsTrue result ↔ InRange graph.now }
{
    let count = graph.len();
    graph
        .iter()
        .all(|supers| is_below(supers.as_slice(), count))
}

/// A graph in which class 0 inherits the features of class 3 by two paths. Of the classes 1 and 2, neither conforms to the other.
fn diamond(alloc: Global) -> Result<Vec<Seq<usize>>, AllocError> {
    rows_of(alloc, &[&[2, 1], &[3], &[3], &[]])
}

/// A ladder of diamonds with `count` classes: each class 3i is the supertype of 3i+1 and 3i+2, and these two are the supertypes of 3i+3.
fn ladder(alloc: Global, count: usize) -> Result<Vec<Seq<usize>>, AllocError> {
    let mut graph = Vec::new(alloc);
    for c in 0..count {
        let mut supers = Seq::new(alloc);
        if c > 0 {
            match c % 3 {
                0 => {
                    supers.push(c - 2)?;
                    supers.push(c - 1)?;
                }
                1 => supers.push(c - 1)?,
                _ => supers.push(c - 2)?,
            }
        }
        graph.push(supers)?;
    }
    Ok(graph)
}

/// The items of some rows as a text, each row between brackets. The items are numbers or truth values.
fn shown<T: Debug>(alloc: Global, rows: &[Seq<T>]) -> Result<String, AllocError> {
    let mut shown = String::new(alloc);
    for numbers in rows {
        let numbers = format!(in alloc; "{:?}", numbers.as_slice())?;
        shown.push_str(numbers.as_str())?;
    }
    Ok(shown)
}

/// The order `order` of the classes, and all features of each class, as a text; `own` has the features that each class declares.
fn inherited_by(
    alloc: Global,
    graph: &[Seq<usize>],
    own: &[Seq<u32>],
    order: &[usize],
) -> Result<String, AllocError>
    requires graph { InRange graph.now }
    requires own { length own.now ≡ length graph.now }
    requires order { IsOrder graph.now order.now }
{
    laws::all_features_from_supers(graph, own, order);
    laws::order_rules_out_cycles(graph, order);
    let table = features_table(alloc, graph, own, order)?;
    let rows = shown(alloc, &table)?;
    format!(in alloc; "{order:?} {rows}")
}

/// An order in which each class comes after its supertypes, and all features of each class, as a text; `own` has the features that each
/// class declares. Fails if the graph has a cycle.
fn inherited(alloc: Global, graph: &[Seq<usize>], own: &[Seq<u32>]) -> Result<String, Fail> {
    if !is_in_range(graph) || own.len() != graph.len() {
        return Err(Fail::new("these are no classes"));
    }
    match order_of(alloc, graph)? {
        Some(order) => Ok(inherited_by(alloc, graph, own, &order)?),
        None => Err(Fail::new("there is a cycle")),
    }
}

#[test]
fn features_are_inherited_through_a_diamond_in_order(rt: HostRuntime) -> Result<(), Fail> {
    let alloc = rt.alloc();
    let graph = diamond(alloc)?;
    let own = rows_of(alloc, &[&[40], &[20], &[30, 31], &[10, 11]])?;
    let found = inherited(alloc, &graph, &own)?;
    let wanted = "[3, 2, 1, 0] [10, 11, 30, 31, 20, 40][10, 11, 20][10, 11, 30, 31][10, 11]";
    assert_eq!(rt; found.as_str(), wanted);
    Ok(())
}

/// For each class, whether it conforms to each class. Then, for the class `class` alone, whether it conforms to each class, and whether it
/// reaches each class by one or more steps from a class to a direct supertype.
fn conformance(alloc: Global, graph: &[Seq<usize>], class: usize) -> Result<String, Fail> {
    if !is_in_range(graph) || class >= graph.len() {
        return Err(Fail::new("these are no classes"));
    }
    let table = conform_table(alloc, graph)?;
    let rows = shown(alloc, table.as_slice())?;
    let conforming = conforming(alloc, graph, class)?;
    let reached = reached_from(alloc, graph, class)?;
    let (conforming, reached) = (conforming.as_slice(), reached.as_slice());
    Ok(format!(in alloc; "{rows} {conforming:?} {reached:?}")?)
}

/// The result of `conformance` for the diamond and its class 1.
const CONFORMANCE: &str =
    "[true, true, true, true][false, true, false, true][false, false, true, true][false, false, false, true] [false, true, false, true] [false, false, false, true]";

#[test]
fn classes_conform_through_two_steps_and_not_sideways(rt: HostRuntime) -> Result<(), Fail> {
    let graph = diamond(rt.alloc())?;
    let found = conformance(rt.alloc(), &graph, 1)?;
    assert_eq!(rt; found.as_str(), CONFORMANCE);
    Ok(())
}

/// The first class on a cycle, whether there is an order in which each class comes after its supertypes, and whether class 0 reaches each
/// class.
fn cycle_of(alloc: Global, graph: &[Seq<usize>]) -> Result<String, Fail> {
    if !is_in_range(graph) || graph.is_empty() {
        return Err(Fail::new("these are no classes"));
    }
    let first = first_on_cycle(alloc, graph)?;
    let has_order = order_of(alloc, graph)?.is_some();
    let reached = reached_from(alloc, graph, 0)?;
    Ok(format!(in alloc; "{first:?} {has_order} {:?}", reached.as_slice())?)
}

#[test]
fn a_cycle_is_found_at_its_first_class(rt: HostRuntime) -> Result<(), Fail> {
    // Class 0 reaches the cycle of 1, 2 and 3, and is not on it.
    let graph = rows_of(rt.alloc(), &[&[2], &[2], &[3], &[1]])?;
    let found = cycle_of(rt.alloc(), &graph)?;
    assert_eq!(rt; found.as_str(), "Some(1) false [false, true, true, true]");
    Ok(())
}

fn names_of(alloc: Global, rows: &[[&str; 2]]) -> Result<Vec<Seq<Text>>, AllocError> {
    let mut names = Vec::new(alloc);
    for [first, second] in rows {
        let mut own = Seq::new(alloc);
        own.push(Text::from_str(alloc, *first)?)?;
        own.push(Text::from_str(alloc, *second)?)?;
        names.push(own)?;
    }
    Ok(names)
}

/// For each class whether two of its features, own or inherited, share a name. `names` has the names of the features that each class
/// declares.
fn clashing(alloc: Global, graph: &[Seq<usize>], names: &[Seq<Text>]) -> Result<String, Fail> {
    if !is_in_range(graph) || names.len() != graph.len() {
        return Err(Fail::new("these are no classes"));
    }
    let mut found = String::new(alloc);
    for c in 0..graph.len() {
        let clash = clashes(alloc, graph, names, c)?;
        found.push_str(if clash { "clash " } else { "ok " })?;
    }
    Ok(found)
}

/// The names of the features that each class of the diamond declares.
const NAMES: [[&str; 2]; 4] = [
    ["id", "kind"],
    ["size", "owner"],
    ["size", "price"],
    ["name", "number"],
];

#[test]
fn names_clash_across_a_diamond(rt: HostRuntime) -> Result<(), Fail> {
    let graph = diamond(rt.alloc())?;
    let names = names_of(rt.alloc(), &NAMES)?;
    let found = clashing(rt.alloc(), &graph, &names)?;
    assert_eq!(rt; found.as_str(), "clash ok ok ok ");
    Ok(())
}

/// For each of `count` classes one feature, which the class declares; the feature has the same number as the class.
fn one_each(alloc: Global, count: u32) -> Result<Vec<Seq<u32>>, AllocError> {
    let mut own = Vec::new(alloc);
    for c in 0..count {
        let mut features = Seq::new(alloc);
        features.push(c)?;
        own.push(features)?;
    }
    Ok(own)
}

/// How many features the last class has; `None` if there is no class.
fn last_features(
    alloc: Global,
    graph: &[Seq<usize>],
    own: &[Seq<u32>],
    order: &[usize],
) -> Result<Option<usize>, AllocError>
    requires graph { InRange graph.now }
    requires own { length own.now ≡ length graph.now }
    requires order { IsOrder graph.now order.now }
{
    let table = features_table(alloc, graph, own, order)?;
    Ok(table.last().map(|features| features.len()))
}

/// Whether the last class conforms to every class; `None` if there is no class.
fn last_conforms(alloc: Global, graph: &[Seq<usize>]) -> Result<Option<bool>, AllocError>
    requires graph { InRange graph.now }
{
    let rows = conform_table(alloc, graph)?;
    let Some(conforms) = rows.as_slice().last() else {
        return Ok(None);
    };
    Ok(Some(conforms.as_slice().iter().all(|conforms| *conforms)))
}

/// The first class on a cycle, how many features the last class has (`None` if there is a cycle), and whether the last class conforms to
/// every class.
fn last_of(alloc: Global, graph: &[Seq<usize>], own: &[Seq<u32>]) -> Result<String, Fail> {
    if !is_in_range(graph) || own.len() != graph.len() {
        return Err(Fail::new("these are no classes"));
    }
    let features = match order_of(alloc, graph)? {
        Some(order) => last_features(alloc, graph, own, &order)?,
        None => None,
    };
    let first = first_on_cycle(alloc, graph)?;
    let conforms = last_conforms(alloc, graph)?;
    Ok(format!(in alloc; "{first:?} {features:?} {conforms:?}")?)
}

#[test]
fn many_paths_take_little_time(rt: HostRuntime) -> Result<(), Fail> {
    let graph = ladder(rt.alloc(), 901)?;
    let own = one_each(rt.alloc(), 901)?;
    let found = last_of(rt.alloc(), &graph, &own)?;
    assert_eq!(rt; found.as_str(), "None Some(901) Some(true)");
    Ok(())
}
