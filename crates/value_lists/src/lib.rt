//! Lists of values. A long list that is looked up by value, and repeats no value, mostly finds fast whether it has a value, and at which
//! index.
//!
//! For this the list has a table that counts for each hash how many values of the list have it. If no value of the list has the hash of a
//! given value, the given value is not there, and the list is not searched. Beside each count the table has a label, by which a value with
//! that hash is found: labels are numbers that go up along the list, or nearly so. The table has no copies of values.
//!
//! A reservation for more values than a list can count fails as if memory were refused.
#![tactic(auto)]

mod counted_list;
mod hash_counts;
mod value_list;

pub use value_list::ValueList;
