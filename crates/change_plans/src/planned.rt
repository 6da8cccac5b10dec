//! What planning gives.
use links::Plan;
use mm_values::ValuePlan;
use notice_chain::Chain;
use proxies::{Resolved, ResolvedProxy};
use removal::Removal;

/// What planning finds besides the edits and the notifications. The answers of some changes are made of this finding.
#[derive(Drop)]
pub enum Finding {
    /// Nothing: the answer does not depend on the plan.
    Nothing,
    /// The objects that a deletion destroys.
    Removal(Removal),
    /// The target of a proxy that is resolved: the object at the proxy's address, and the proxy of the same link at the opposite end, if
    /// there is one.
    Target(ResolvedProxy),
    /// For a resolve of all proxies: how many proxies are resolved, with two proxies of one link counted as one, and how many are left.
    Counts(Resolved),
}

/// The plan of a change that is not refused: what planning finds, the edits of links and of values, and the notifications.
#[derive(Drop)]
pub struct Planned {
    pub finding: Finding,
    pub edits: Plan,
    pub values: ValuePlan,
    pub chain: Chain,
}
