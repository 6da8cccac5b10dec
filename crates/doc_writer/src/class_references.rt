//! The features by which the objects of a class may refer to other objects.
ghost use Rattle.std.specs.Prelude.{◌≡◌, ◌∷◌, ◌++◌, [], IsTrue, OnOk, filter};
ghost use Rattle.doc_writer.specs.References.{may_refer};

use mm_meta::Meta;
use mm_types::{ClassNo, FeatureNo};
use std::alloc::{AllocError, Global};

/// Whether objects may refer to other objects by a feature: whether the feature is a reference, but neither a containment nor a container
/// reference. Takes no memory.
fn is_referring(meta: &Meta, feature: FeatureNo) -> bool
    ensures { result ≡ may_refer meta.now feature }
{
    meta.is_reference(feature) && !meta.is_containment(feature) && !meta.is_container(feature)
}

/// Adds `feature` to `features`, if objects may refer to other objects by `feature`.
fn push_referring(
    meta: &Meta,
    feature: FeatureNo,
    features: &mut Vec<FeatureNo>,
) -> Result<(), AllocError>
    ensures { OnOk result (features.new.items ≡ features.old.items ++ filter (may_refer meta.now) (feature ∷ [])) }
{
    if is_referring(meta, feature) {
        features.push(feature)?;
    }
    Ok(())
}

/// Adds to `found` those of `features` by which objects may refer to other objects.
fn push_all_referring(
    meta: &Meta,
    features: &[FeatureNo],
    found: &mut Vec<FeatureNo>,
) -> Result<(), AllocError>
    ensures { OnOk result (found.new.items ≡ found.old.items ++ filter (may_refer meta.now) features.now) }
{
    'features: for feature in features {
        push_referring(meta, *feature, found)?;
    }
    Ok(())
}

/// The features by which the objects of a class may refer to other objects. A caller goes through objects, and successive objects mostly
/// have the same class. So the list is made anew only for an object whose class differs from that of the object before it.
#[derive(Drop)]
pub(crate) struct ClassReferences {
    class: Option<ClassNo>,
    features: Vec<FeatureNo>,
}

impl ClassReferences {
    ghost use Rattle.mm_types.specs.Resolved.{Metamodel};
    ghost use Rattle.doc_writer.specs.References.{IsReferences, IsReferencesOf};

    /// The list for no class, which is empty. Takes no memory.
    pub fn none(alloc: Global) -> Self
        ensures { (m : Metamodel) → IsReferences m result }
    {
        ClassReferences {
            class: None,
            features: Vec::new(alloc),
        }
    }

    /// If the list is not for `class` already, replaces it by the list for `class`: the features by which objects of `class` may refer to
    /// other objects, or no features if `class` is `None`. Fails only if memory is refused. After a failure the list may lack some
    /// features, and must not be used any more.
    #[inline(always)]
    pub fn turn_to(&mut self, meta: &Meta, class: Option<ClassNo>) -> Result<(), AllocError>
        requires { IsReferences meta.now self.old }
        ensures { OnOk result (IsReferencesOf meta.now class self.new) }
    {
        if self.is_of(class) {
            return Ok(());
        }
        self.make(meta, class)
    }

    /// Whether the list is for a given class, or for no class if `class` is `None`.
    #[inline(always)]
    fn is_of(&self, class: Option<ClassNo>) -> bool
        ensures { IsTrue result → self.now.class ≡ class }
    {
        match (self.class, class) {
            (Some(own), Some(other)) => own.0 == other.0,
            (None, None) => true,
            _ => false,
        }
    }

    /// Replaces the list by the list for `class`, which is empty if `class` is `None`. Fails only if memory is refused.
    fn make(&mut self, meta: &Meta, class: Option<ClassNo>) -> Result<(), AllocError>
        ensures { OnOk result (IsReferencesOf meta.now class self.new) }
    {
        let all = match class {
            Some(number) => meta.features(number).unwrap_or(&[]),
            None => &[],
        };
        self.features.truncate(0);
        push_all_referring(meta, all, &mut self.features)?;
        self.class = class;
        Ok(())
    }

    /// The features.
    #[inline(always)]
    pub fn as_slice(&self) -> &[FeatureNo]
        ensures { result.now ≡ self.now.features.items }
    {
        self.features.as_slice()
    }
}
