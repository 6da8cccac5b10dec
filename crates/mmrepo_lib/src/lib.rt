//! All that a program needs to keep models, under one name.
//!
//! A crate of yours names only `mmrepo_lib` in its line of `crates.txt`. `check_document` reads a metamodel and tests whether it is
//! well-formed. A `Repository` over this metamodel makes objects, links them, notifies adapters, saves and loads. For proofs about your own
//! code, `specs/Steps.antt` has most of the definitions that the contracts of a repository cite; `specs/Commands.antt` has the commands.
//! docs/LIBRARY.md has a first program.
#![tactic(auto)]

pub mod laws;

pub use adapters::{Adapter, Counter, NoRoom, Recorder, Window};
pub use link_store::{LinkStore, RowStore, SlotStore};
pub use mm_check::{check, check_document};
pub use mm_load::load_meta;
pub use mm_meta::Meta;
pub use mm_types::{
    AdapterNo, Class, ClassNo, DataType, DocFault, End, Enumeration, Feature, FeatureNo, Kind,
    MetaFault, Node, ObjectNo, RawMeta, Refused, ResourceNo, Seq, Text, Value, limits,
};
pub use models::Found;
pub use notice_chain::{NO_INDEX, Notice, NoticeKind, Target};
pub use repository::{
    Act, Answer, Command, EndRead, Failure, FeatureValue, NodeRead, ObjectRead, Read, Reply,
    Repository, Tally,
};
pub use snapshots::{FeatureState, NodeState, Snapshot, replay};
