//! The proxies of a model, and the objects at their addresses.
ghost use Rattle.std.specs.Prelude.{◌≡◌, ◌∷◌, ◌++◌, [], map, IfOk, OnOk, if◌then◌else◌};
ghost use Rattle.models.specs.Model.{reading};
ghost use Rattle.proxies.specs.Leads as spec;
ghost use Rattle.proxies.specs.Proxies as proxies;

use crate::ends::far_end;
use crate::resolving::proxy_at;
use crate::site::ProxySite;
use fragment_paths::object_at;
use indexmap::IndexMap;
use links::LinkStore;
use mm_types::{FeatureNo, Node, ObjectNo};
use models::{ModelRef, ReferenceKey};
use std::alloc::{AllocError, Global};

/// The location of a proxy, and the object at the proxy's address, if there is one.
#[derive(Clone, Copy)]
pub struct Lead {
    pub site: ProxySite,
    pub object: Option<ObjectNo>,
}

/// The `Lead`s of all proxies, in the order in which a resolve of all proxies tries them. Fails only if memory is refused.
pub fn leads<L: LinkStore>(alloc: Global, model: &ModelRef<L>) -> Result<Vec<Lead>, AllocError>
    ensures { IfOk result (λ ls. ls.items ≡ spec.leads (reading model.now)) }
{
    model.lemma_is_legal();
    let mut leads = Vec::new(alloc);
    'objects: for object in 0..model.next() {
        push_of_object(alloc, model, ObjectNo(object as u32), &mut leads)?;
    }
    Ok(leads)
}

/// Adds the `Lead`s of all proxies in the references of an object.
fn push_of_object<L: LinkStore>(
    alloc: Global,
    model: &ModelRef<L>,
    object: ObjectNo,
    leads: &mut Vec<Lead>,
) -> Result<(), AllocError>
    ensures { OnOk result (leads.new.items ≡ leads.old.items ++ map (spec.lead (reading model.now)) (proxies.sites_of (reading model.now) object)) }
{
    let features = model.all_features(Node::Object(object));
    'features: for feature in features {
        push_under(alloc, model, object, *feature, leads)?;
    }
    Ok(())
}

/// Adds the `Lead`s of the proxies under a feature of an object.
fn push_under<L: LinkStore>(
    alloc: Global,
    model: &ModelRef<L>,
    object: ObjectNo,
    feature: FeatureNo,
    leads: &mut Vec<Lead>,
) -> Result<(), AllocError>
    ensures { OnOk result (leads.new.items ≡ leads.old.items ++ map (spec.lead (reading model.now)) (proxies.sites_under (reading model.now) object feature)) }
{
    'indices: for index in 0..model.len(far_end(object, feature)) {
        let site = ProxySite {
            object,
            feature,
            index,
        };
        push_lead(alloc, model, site, leads)?;
    }
    Ok(())
}

/// Adds the `Lead` of a location, if a proxy is there.
fn push_lead<L: LinkStore>(
    alloc: Global,
    model: &ModelRef<L>,
    site: ProxySite,
    leads: &mut Vec<Lead>,
) -> Result<(), AllocError>
    ensures { OnOk result (leads.new.items ≡ leads.old.items ++ (if proxies.is_proxy_site (reading model.now) site then spec.lead (reading model.now) site ∷ [] else [])) }
{
    let end = far_end(site.object, site.feature);
    let Some(address) = proxy_at(model, end, site.index) else {
        return Ok(());
    };
    let object = object_at(alloc, model, address)?;
    leads.push(Lead { site, object })?;
    Ok(())
}

/// A table of the indexes of proxies. A key names a reference of an object, and a second object. The index of the key is the index of the
/// first proxy in this reference that has the second object at its address.
#[derive(Drop)]
pub struct FirstLeads {
    indices: IndexMap<ReferenceKey, u32>,
}

impl FirstLeads {
    ghost use Rattle.std.specs.Prelude.{None, Some};
    ghost use Rattle.std.specs.Option.{option_or};
    ghost use Rattle.models.specs.declared.reference_key.ReferenceKey.{ReferenceKey};

    fn new(alloc: Global) -> Self
        ensures { (k : ReferenceKey) → spec.index_at result k ≡ None }
    {
        FirstLeads {
            indices: IndexMap::new(alloc),
        }
    }

    /// The table of the proxies of `leads`. If several proxies have the same key, the proxy that comes first in `leads` counts. Fails only
    /// if memory is refused.
    pub fn of(alloc: Global, leads: &[Lead]) -> Result<Self, AllocError>
        ensures { IfOk result (λ t. (k : ReferenceKey) → spec.index_at t k ≡ spec.first_index leads.now k) }
    {
        let mut first = FirstLeads::new(alloc);
        'leads: for lead in leads {
            first.add(*lead)?;
        }
        Ok(first)
    }

    /// If the key of `lead` has no index yet, gives it the index of the proxy of `lead`. A `Lead` without an object has no key, and changes
    /// nothing.
    fn add(&mut self, lead: Lead) -> Result<(), AllocError>
        ensures { OnOk result ((k : ReferenceKey) → spec.index_at self.new k ≡ option_or (spec.index_at self.old k) (spec.first_index (lead ∷ []) k)) }
    {
        match lead.object {
            Some(object) => {
                let key = ReferenceKey::of(lead.site.object, lead.site.feature, object.0);
                self.add_first(key, lead.site.index)
            }
            None => Ok(()),
        }
    }

    /// Gives a key an index; a key that already has an index keeps it.
    fn add_first(&mut self, key: ReferenceKey, index: u32) -> Result<(), AllocError>
        ensures { OnOk result ((k : ReferenceKey) → spec.index_at self.new k ≡ option_or (spec.index_at self.old k) (if spec.same_reference_key key k then Some index else None)) }
    {
        if self.index(key).is_some() {
            return Ok(());
        }
        self.indices.insert(key, index)?;
        Ok(())
    }

    /// The index of a key; `None` if the key has none. Takes no memory.
    pub fn index(&self, key: ReferenceKey) -> Option<u32>
        ensures { result ≡ spec.index_at self.now key }
    {
        self.indices.get(&key).copied()
    }
}
