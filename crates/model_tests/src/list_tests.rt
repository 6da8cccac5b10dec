//! Values and lists of values, by calls that a script can't make.
mod list_calls;
mod no_links;
mod refused_edits;
mod stored_values;
mod unique_lists;
