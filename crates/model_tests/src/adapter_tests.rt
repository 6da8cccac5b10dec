//! Adapters: attached, given targets, notified, refused, given back and dropped; and snapshots on which notifications are replayed.
mod adapter_kinds;
mod attached;
mod attached_again;
mod caller;
mod calls;
mod closing;
mod deciding;
mod drops;
mod following;
mod notices;
mod refused_adapters;
mod replays;
mod several_targets;
