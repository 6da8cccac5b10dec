//! Runs scripts: their lines, what the lines print, and a journal that keeps lines.
#![tactic(auto)]

mod answers;
mod bind;
mod frequent;
mod interpreter;
mod journal_run;
mod journaled;
mod kept_run;
pub mod laws;
mod line;
mod listener;
mod live;
mod loading;
mod plain;
mod pool;
mod recovery;
mod request;
mod script;
mod summary;

pub use interpreter::Interpreter;
pub use journal_run::run_journal;
pub use journaled::Journaled;
pub use kept_run::{KeptFault, KeptRun, run_kept};
pub use listener::{Listener, NoListener};
pub use live::{live_over, run_live};
pub use loading::load_resource;
pub use recovery::run_again;
pub use script::{run, run_dressed, run_over};
pub use script_lines::parse_line;
pub use script_streams::RunFault;
pub use summary::Summary;
