//! Algorithms on the classes of a metamodel, as a graph of numbers.
//!
//! The graph is a list that has, at each class's number, the numbers of the direct supertypes of the class. The functions of this crate
//! find an order in which supertypes come first, all features of each class, which classes a class conforms to, the first class on a cycle,
//! and whether two features of a class share a name.
#![tactic(auto)]

mod clash;
mod features;
pub mod laws;
mod order;
mod reach;

pub use clash::{clashes, has_repeats};
pub use features::features_table;
pub use order::order_of;
pub use reach::{conform_table, conforming, first_on_cycle, reached_from};
