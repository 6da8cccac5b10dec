//! The plan that resolves all proxies.
ghost use Rattle.std.specs.Prelude.{◌≡◌, ◌++◌, filter, flat_map, length, map, not, IfOk, OnOk};
ghost use Rattle.models.specs.Model.{reading};
ghost use Rattle.change_plans.specs.Joining as spec;
ghost use Rattle.proxies.specs.Keys.{has, key_of};
ghost use Rattle.proxies.specs.Leads.{leads as leads_of};
ghost use Rattle.change_plans.specs.Plans.{IsPlanOf};
ghost use Rattle.handshake.specs.FeatureChange.{notice_at};
ghost use Rattle.handshake.specs.declared.change.Change.TheVariants.{ResolveAll};

use crate::cuts::push_cuts;
use crate::edits::push_joining;
use crate::joining::{Joint, Progress, resolve_all};
use crate::planned::{Finding, Planned};
use handshake::{add_counterpart, push_link_end, push_resolved};
use links::{Edit, LinkStore, Plan};
use mm_values::ValuePlan;
use models::ModelRef;
use notice_chain::Chain;
use proxies::{Keys, Lead, Resolved, far_end, leads};
use std::alloc::{AllocError, Global};

/// The plan that resolves all proxies. The notifications are made only if `is_heard`, that is, if an adapter may have to get them. Fails
/// only if memory is refused.
pub(crate) fn all_resolved<L: LinkStore>(
    alloc: Global,
    model: &ModelRef<L>,
    is_heard: bool,
) -> Result<Planned, AllocError>
    ensures { IfOk result (IsPlanOf is_heard model.now ResolveAll) }
{
    let leads = leads(alloc, model)?;
    let progress = resolve_all(alloc, model, leads.as_slice())?;
    planned(alloc, model, leads.as_slice(), &progress, is_heard)
}

/// The plan that resolves all proxies. `leads` must have all proxies, and `progress` those that are resolved.
fn planned<L: LinkStore>(
    alloc: Global,
    model: &ModelRef<L>,
    leads: &[Lead],
    progress: &Progress,
    is_heard: bool,
) -> Result<Planned, AllocError>
    requires all { leads.now ≡ leads_of (reading model.now) }
    requires done { spec.IsDone (reading model.now) progress.now }
    ensures { IfOk result (IsPlanOf is_heard model.now ResolveAll) }
{
    model.lemma_is_legal();
    let joints = progress.joints.as_slice();
    let edits = edits(alloc, model, joints)?;
    let mut chain = Chain::none(alloc);
    if is_heard {
        resolved_notices(alloc, model, joints, &mut chain)?;
    }
    Ok(Planned {
        finding: Finding::Counts(Resolved {
            done: joints.len(),
            left: left(leads, &progress.gone),
        }),
        edits,
        values: ValuePlan::none(alloc),
        chain,
    })
}

/// The edits that resolve the proxies of `joints`, one after another.
fn edits<L: LinkStore>(
    alloc: Global,
    model: &ModelRef<L>,
    joints: &[Joint],
) -> Result<Plan, AllocError>
    ensures { IfOk result (λ es. es ≡ flat_map (spec.edits_by (reading model.now)) joints.now) }
{
    let mut edits = Plan::none(alloc);
    'joints: for joint in joints {
        push_edits(alloc, model, *joint, &mut edits)?;
    }
    Ok(edits)
}

/// Adds the edits that resolve the proxy of `joint`.
fn push_edits<L: LinkStore>(
    alloc: Global,
    model: &ModelRef<L>,
    joint: Joint,
    edits: &mut Plan,
) -> Result<(), AllocError>
    ensures { OnOk result (edits.new ≡ edits.old ++ spec.edits_by (reading model.now) joint) }
{
    let Joint { site, target } = joint;
    let end = far_end(site.object, site.feature);
    let mut link_ends = Vec::new(alloc);
    push_link_end(alloc, end, model.value_in(end, site.index), &mut link_ends)?;
    add_counterpart(alloc, model, Some(target), &mut link_ends)?;
    push_cuts(alloc, link_ends, edits)?;
    push_joining(alloc, model, end, site.index, Some(target), edits)
}

/// Adds to `chain` the notifications of the proxies of `joints`, which are resolved one after another.
fn resolved_notices<L: LinkStore>(
    alloc: Global,
    model: &ModelRef<L>,
    joints: &[Joint],
    chain: &mut Chain,
) -> Result<(), AllocError>
    ensures { OnOk result (chain.new ≡ chain.old ++ map (notice_at (reading model.now)) (flat_map spec.told_by joints.now)) }
{
    'joints: for joint in joints {
        let end = far_end(joint.site.object, joint.site.feature);
        push_resolved(
            alloc,
            model,
            end,
            joint.site.index,
            Some(joint.target),
            chain,
        )?;
    }
    Ok(())
}

/// How many proxies are left: how many of `leads` have a location that is not in `gone`.
fn left(leads: &[Lead], gone: &Keys) -> usize
    ensures { result ≡ length (filter (λ x. not (has gone.now (key_of x.site))) leads.now) }
{
    let mut left = 0;
    'leads: for lead in leads {
        if !gone.contains(lead.site.key()) {
            left += 1;
        }
    }
    left
}
