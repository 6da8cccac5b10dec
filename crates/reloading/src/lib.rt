//! What was saved comes back: the resources of a model are loaded again in any order, and then proxies are resolved.
//!
//! `specs/Alike.antt` says when two models are isomorphic, by their addresses; `specs/Images.antt` what the load of a saved document makes;
//! `specs/Between.antt` when a model is a partly resolved copy; `specs/Laws.antt` has the laws on one load and on resolves;
//! `specs/Orders.antt` has the loads in any order; and `specs/Reload.antt` the loads and then the resolves.
#![tactic(auto)]

pub mod laws;
