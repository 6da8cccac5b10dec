//! Plans a resolve of all proxies of a model, one after another: finds out which proxies are resolved, and the target of each resolved
//! proxy. The model is not changed.
ghost use Rattle.std.specs.Prelude.{◌≡◌, IfOk};
ghost use Rattle.models.specs.Model.{reading};
ghost use Rattle.change_plans.specs.Joining as spec;
ghost use Rattle.proxies.specs.Leads.{leads as leads_of};

use links::LinkStore;
use mm_types::ObjectNo;
use models::{ModelRef, ReferenceKey};
use proxies::{
    Counterpart, FirstLeads, Keys, Lead, ProxySite, ResolvedProxy, far_end, is_mistyped,
    is_there_already, is_unmatched, opposite_end,
};
use std::alloc::{AllocError, Global};

/// A proxy that is resolved: its location, and its target.
#[derive(Clone, Copy)]
pub(crate) struct Joint {
    pub site: ProxySite,
    pub target: ResolvedProxy,
}

/// What was resolved so far. `joints` has the resolved proxies, in order. `gone` has the locations of these proxies and of their
/// counterparts. `linked` has a key for each of these locations: the object and the feature of the location, and the object that has
/// replaced the proxy there.
#[derive(Drop)]
pub(crate) struct Progress {
    pub joints: Vec<Joint>,
    pub gone: Keys,
    linked: Keys,
}

/// Finds out how all proxies of a model are resolved. `leads` has all proxies, in the order in which they are tried. Fails only if memory
/// is refused.
pub(crate) fn resolve_all<L: LinkStore>(
    alloc: Global,
    model: &ModelRef<L>,
    leads: &[Lead],
) -> Result<Progress, AllocError>
    requires all { leads.now ≡ leads_of (reading model.now) }
    ensures { IfOk result (spec.IsDone (reading model.now)) }
{
    model.lemma_is_legal();
    let first = FirstLeads::of(alloc, leads)?;
    let mut progress = Progress::new(alloc);
    'leads: for lead in leads {
        progress.resolve(model, &first, *lead)?;
    }
    Ok(progress)
}

impl Progress {
    ghost use Rattle.std.specs.Prelude.{◌||◌, Option, OnOk};
    ghost use Rattle.proxies.specs.Keys.{has};
    ghost use Rattle.models.specs.declared.reference_key.ReferenceKey.{ReferenceKey};

    /// The progress before the first proxy: nothing is resolved yet. Takes no memory.
    fn new(alloc: Global) -> Self
        ensures { spec.IsNothing result }
    {
        Progress {
            joints: Vec::new(alloc),
            gone: Keys::new(alloc),
            linked: Keys::new(alloc),
        }
    }

    /// Adds the proxy of `lead` to what was resolved, unless the resolve of this proxy is refused or no object is at its address.
    fn resolve<L: LinkStore>(
        &mut self,
        model: &ModelRef<L>,
        first: &FirstLeads,
        lead: Lead,
    ) -> Result<(), AllocError>
        ensures { OnOk result (spec.Resolves self.old self.new lead.site (spec.target_by (reading model.now) self.old first.now lead)) }
    {
        match self.target(model, first, lead) {
            Some(target) => self.add(lead.site, target),
            None => Ok(()),
        }
    }

    /// The target to which the proxy of `lead` is resolved, after the earlier proxies were resolved. `None` if its resolve is refused then,
    /// or if no object is at its address. Takes no memory.
    fn target<L: LinkStore>(
        &self,
        model: &ModelRef<L>,
        first: &FirstLeads,
        lead: Lead,
    ) -> Option<ResolvedProxy>
        ensures { result ≡ spec.target_by (reading model.now) self.now first.now lead }
    {
        let object = lead.object?;
        let target = ResolvedProxy {
            object,
            counterpart: counterpart(model, first, lead.site, object),
        };
        if self.is_refused(model, lead.site, target) {
            None
        } else {
            Some(target)
        }
    }

    /// Whether the proxy at `site` can't be resolved to `target` after the earlier proxies were resolved. There are four reasons: an
    /// earlier resolve has replaced the proxy; the object at the proxy's address is not of the reference's type; this object is a value of
    /// the reference already; the reference has an opposite, and the proxy has no counterpart. Takes no memory.
    fn is_refused<L: LinkStore>(
        &self,
        model: &ModelRef<L>,
        site: ProxySite,
        target: ResolvedProxy,
    ) -> bool
        ensures { result ≡ spec.is_refused (reading model.now) self.now site target }
    {
        let end = far_end(site.object, site.feature);
        self.gone.contains(site.key())
            || is_mistyped(model, end, Some(target))
            || is_there_already(model, end, Some(target))
            || self.linked.contains(ReferenceKey::of(site.object, site.feature, target.object.0))
            || is_unmatched(model, end, target)
    }

    /// Adds a proxy that is resolved, and its counterpart, if it has one.
    fn add(&mut self, site: ProxySite, target: ResolvedProxy) -> Result<(), AllocError>
        ensures { OnOk result (spec.Adds self.old self.new site target) }
    {
        self.joints.push(Joint { site, target })?;
        self.gone.insert(site.key())?;
        self.linked.insert(ReferenceKey::of(site.object, site.feature, target.object.0))?;
        match target.counterpart {
            Some(other) => self.add_far(site, target, other),
            None => Ok(()),
        }
    }

    /// Adds the counterpart `other` of a resolved proxy: its location to `gone`, and to `linked` the referring object, which replaces it.
    /// `site` is the location of the resolved proxy, and `target` its target.
    fn add_far(
        &mut self,
        site: ProxySite,
        target: ResolvedProxy,
        other: Counterpart,
    ) -> Result<(), AllocError>
        ensures joints { OnOk result (self.new.joints.items ≡ self.old.joints.items) }
        ensures gone { OnOk result ((k : ReferenceKey) → has self.new.gone k ≡ has self.old.gone k || spec.is_far_site target other k) }
        ensures linked { OnOk result ((k : ReferenceKey) → has self.new.linked k ≡ has self.old.linked k || spec.is_far_link site target other k) }
    {
        let feature = other.end.feature;
        self.gone
            .insert(ReferenceKey::of(target.object, feature, other.index))?;
        self.linked
            .insert(ReferenceKey::of(target.object, feature, site.object.0))
    }
}

/// The counterpart of the proxy at `site`; `object` is the object at the address of this proxy. The counterpart is the first proxy at the
/// opposite end that leads back to the referring object. `None` if no proxy there leads back, or if the reference has no opposite. Takes no
/// memory.
fn counterpart<L: LinkStore>(
    model: &ModelRef<L>,
    first: &FirstLeads,
    site: ProxySite,
    object: ObjectNo,
) -> Option<Counterpart>
    ensures { result ≡ spec.counterpart_by (reading model.now) first.now site object }
{
    let end = opposite_end(model, far_end(site.object, site.feature), object)?;
    let index = first.index(ReferenceKey::of(object, end.feature, site.object.0))?;
    Some(Counterpart { end, index })
}
