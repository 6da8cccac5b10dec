//! Adapters, which are notified of changes: their interface, and the stock kinds.
//!
//! Contracts see two things of an adapter: its view (how many notifications it got, how many it keeps at most, and which it keeps; `View`
//! of `notice_chain`), and its capacity. The capacity is how many notifications the adapter can get before `reserve` has to be called
//! again. Capacity is reserved before anything changes (`reserve`); `notify_changed` uses capacity for one notification and can't fail.
#![tactic(auto)]

mod adapter;
mod boxed;
mod count;
mod counter;
mod recorder;
mod window;

pub use adapter::{Adapter, NoRoom};
pub use counter::Counter;
pub use recorder::Recorder;
pub use window::Window;
