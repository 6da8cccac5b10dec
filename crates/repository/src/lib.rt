//! The repository: objects of classes known only at run time. Each command is answered or refused.
//!
//! `specs/Step.antt` says what a command does, and `specs/Run.antt` what a list of commands does.
#![tactic(auto)]

mod answering;
mod command;
mod edits;
mod leaving;
mod prepared;
mod remembered;
mod replies;
mod reply;
mod repository;

pub use command::Command;
pub use handshake::Act;
pub use mm_types::{EndRead, NodeRead, ObjectRead, Read, Tally};
pub use reply::{Answer, Brief, Failure, FeatureValue, Reply};
pub use repository::Repository;
