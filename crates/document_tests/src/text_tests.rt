//! Texts, values and words, the texts that address objects, and refusals and faults as they are printed.
mod fragments;
mod joining;
mod printed;
mod values;
mod words;
