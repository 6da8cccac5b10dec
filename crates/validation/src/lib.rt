//! The features of an object that have fewer values than their lower bounds.
//!
//! `specs/Bounds.antt` says when a feature has too few values.
#![tactic(auto)]

mod bounds;

pub use bounds::short_features;
