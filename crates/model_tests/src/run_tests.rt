//! Runs of scripts and of lists of commands, streams that fail, the options that a command line gives, the lines of a script, and how
//! values are printed.
mod arguments;
mod live_runs;
mod printed;
mod repositories;
mod run_ends;
mod runs;
mod script_text;
mod streams;
