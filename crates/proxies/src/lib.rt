//! The proxies of a model: the object at the address of a proxy, the proxy of the same link at the opposite end, and why a proxy can't be
//! resolved.
//!
//! `specs/Resolving.antt` says what resolving a proxy finds, `specs/Refusals.antt` why a proxy can't be resolved, and
//! `specs/ResolvingAll.antt` which proxies are resolved if all proxies are tried, one after another.
#![tactic(auto)]

mod ends;
mod keys;
mod lead;
mod resolved;
mod resolved_proxy;
mod resolving;
mod site;

pub use ends::{far_end, opposite_end};
pub use keys::Keys;
pub use lead::{FirstLeads, Lead, leads};
pub use resolved::Resolved;
pub use resolved_proxy::{Counterpart, ResolvedProxy};
pub use resolving::{
    is_mistyped, is_there_already, is_unmatched, proxy_at, resolve_refusal, target_at,
};
pub use site::ProxySite;
