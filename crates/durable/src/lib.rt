//! Runs lines, and answers a line only when this line and the lines before it are on the disk, as far as they are to be kept.
#![tactic(auto)]

mod dialogue;
mod head;
pub mod laws;
mod opening;
mod outbox;
mod recovery;
mod session;

pub use dialogue::run_dialogue;
pub use head::{behind_head, head_of};
pub use opening::{JournalFault, open_journal};
pub use outbox::Outbox;
pub use recovery::{ReplayFault, replay};
pub use session::{JournalTurn, Session, Twin};
