//! Metamodels: what is read from their documents, the look-ups in them, and their graphs.
mod graphs;
mod look_ups;
mod metamodel_keys;
mod raw_metamodels;
