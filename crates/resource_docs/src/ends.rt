//! Which objects of a document refer to which objects of the same document, and whether the objects that have to refer back do so.
ghost use Rattle.std.specs.Prelude.{◌≡◌, ◌||◌, ◌∷◌, [], IfOk, OnOk, false};
ghost use Rattle.std.specs.List.{list_any};
ghost use Rattle.resource_docs.specs.Causes.{is_one_sided, of_content};
ghost use Rattle.resource_docs.specs.Ends.{asks_back as asks_meant};

use crate::doc::{Content, Doc, DocObject};
use indexmap::IndexSet;
use mm_meta::Meta;
use mm_types::{FeatureNo, Value};
use std::alloc::{AllocError, Global};

/// A reference in a document: the object `object` names the object `named` under `feature`. Both objects are given by their numbers in the
/// document.
#[derive(Clone, Copy, PartialEq, Eq, Hash)]
pub(crate) struct Naming {
    pub object: usize,
    pub feature: u32,
    pub named: usize,
}

/// The references between the objects of a document, as a set: which object names which object under which feature.
#[derive(Drop)]
pub(crate) struct Ends {
    namings: IndexSet<Naming>,
}

impl Ends {
    ghost use Rattle.std.specs.List.{list_any};
    ghost use Rattle.resource_docs.specs.Ends.{IsEndsOf, any_one_sided_by, by_contents, by_values, has, one_sided_by, same_naming, unanswered_by};
    ghost use Rattle.resource_docs.specs.declared.ends.Naming.{Naming};

    /// An empty set: no object names an object. Takes no memory.
    fn new(alloc: Global) -> Self
        ensures { (k : Naming) → has result k ≡ false }
    {
        Ends {
            namings: IndexSet::new(alloc),
        }
    }

    fn insert(&mut self, naming: Naming) -> Result<(), AllocError>
        ensures { OnOk result ((k : Naming) → has self.new k ≡ has self.old k || same_naming k naming) }
    {
        self.namings.insert(naming)?;
        Ok(())
    }

    /// Whether the set has `naming`. Takes no memory.
    fn contains(&self, naming: Naming) -> bool
        ensures { result ≡ has self.now naming }
    {
        self.namings.contains(&naming)
    }

    /// Adds that `object` names `value` under `feature`, if `value` is an object.
    fn add_value(
        &mut self,
        object: usize,
        feature: FeatureNo,
        value: &Value,
    ) -> Result<(), AllocError>
        ensures { OnOk result ((k : Naming) → has self.new k ≡ has self.old k || by_values object feature.0 (value.now ∷ []) k) }
    {
        match value {
            Value::Object(named) => self.insert(Naming {
                object,
                feature: feature.0,
                named: named.0 as usize,
            }),
            _ => Ok(()),
        }
    }

    /// Adds, for each of `values` that is an object, that `object` names it under `feature`.
    fn add_values(
        &mut self,
        object: usize,
        feature: FeatureNo,
        values: &[Value],
    ) -> Result<(), AllocError>
        ensures { OnOk result ((k : Naming) → has self.new k ≡ has self.old k || by_values object feature.0 values.now k) }
    {
        'values: for value in values {
            self.add_value(object, feature, value)?;
        }
        Ok(())
    }

    /// Adds, for each value of `contents` that is an object, that `object` names it under the feature of the content.
    fn add_object(&mut self, object: usize, contents: &[Content]) -> Result<(), AllocError>
        ensures { OnOk result ((k : Naming) → has self.new k ≡ has self.old k || by_contents object contents.now k) }
    {
        'contents: for content in contents {
            self.add_values(object, content.feature, content.values.as_slice())?;
        }
        Ok(())
    }

    /// The references between `objects`, which are all objects of a document. Fails only if memory is refused.
    pub fn of(alloc: Global, objects: &[DocObject]) -> Result<Self, AllocError>
        ensures { IfOk result (λ e. IsEndsOf e objects.now) }
    {
        let mut ends = Ends::new(alloc);
        'objects: for (i, object) in objects.iter().enumerate() {
            ends.add_object(i, object.contents.as_slice())?;
        }
        Ok(ends)
    }

    /// Whether `feature` has an opposite, and `value` is an object that does not name `object` back under the opposite. Takes no memory.
    fn is_unanswered(&self, meta: &Meta, object: usize, feature: FeatureNo, value: &Value) -> bool
        ensures { result ≡ unanswered_by meta.now self.now object feature value.now }
    {
        let Value::Object(named) = value else {
            return false;
        };
        match meta.opposite(feature) {
            Some(opposite) => !self.contains(Naming {
                object: named.0 as usize,
                feature: opposite.0,
                named: object,
            }),
            None => false,
        }
    }

    fn is_any_unanswered(
        &self,
        meta: &Meta,
        object: usize,
        feature: FeatureNo,
        values: &[Value],
    ) -> bool
        ensures { result ≡ list_any (λ v. unanswered_by meta.now self.now object feature v) values.now }
    {
        values
            .iter()
            .any(|value| self.is_unanswered(meta, object, feature, value))
    }

    fn is_one_sided(&self, meta: &Meta, object: usize, content: &Content) -> bool
        ensures { result ≡ one_sided_by meta.now self.now object content.now }
    {
        if meta.is_containment(content.feature) {
            return false;
        }
        self.is_any_unanswered(meta, object, content.feature, content.values.as_slice())
    }

    fn is_any_one_sided(&self, meta: &Meta, object: usize, contents: &[Content]) -> bool
        ensures { result ≡ list_any (λ c. one_sided_by meta.now self.now object c) contents.now }
    {
        contents
            .iter()
            .any(|content| self.is_one_sided(meta, object, content))
    }

    /// Whether an object `a` names an object `b` under a feature that has an opposite and is no containment, but `b` does not name `a`
    /// under the opposite. Takes no memory.
    fn has_one_sided(&self, meta: &Meta, objects: &[DocObject]) -> bool
        ensures { result ≡ any_one_sided_by meta.now self.now objects.now }
    {
        objects.iter().enumerate().any(|(i, object)| self.is_any_one_sided(
            meta,
            i,
            object.contents.as_slice(),
        ))
    }
}

/// Whether the feature of a content has an opposite and is no containment. If so, each object among the values of the content has to name
/// back, under the opposite, the object that has the content.
fn asks_back(meta: &Meta, content: &Content) -> bool
    ensures { result ≡ asks_meant meta.now content.now }
{
    !meta.is_containment(content.feature) && meta.opposite(content.feature).is_some()
}

fn any_asks_back(meta: &Meta, contents: &[Content]) -> bool
    ensures { result ≡ list_any (asks_meant meta.now) contents.now }
{
    contents.iter().any(|content| asks_back(meta, content))
}

fn is_any_asked(meta: &Meta, objects: &[DocObject]) -> bool
    ensures { result ≡ list_any (λ o. list_any (asks_meant meta.now) o.contents) objects.now }
{
    objects
        .iter()
        .any(|object| any_asks_back(meta, object.contents.as_slice()))
}

/// Whether an object `a` of a document names an object `b` under a feature that has an opposite and is no containment, but `b` does not
/// name `a` under the opposite. Fails only if memory is refused. Takes no memory if each feature that has values is a containment or has no
/// opposite.
pub(crate) fn has_one_sided(alloc: Global, meta: &Meta, doc: &Doc) -> Result<bool, AllocError>
    ensures { IfOk result (λ b. b ≡ of_content (is_one_sided meta.now doc.now) doc.now) }
{
    if !is_any_asked(meta, doc.objects.as_slice()) {
        return Ok(false);
    }
    let ends = Ends::of(alloc, doc.objects.as_slice())?;
    Ok(ends.has_one_sided(meta, doc.objects.as_slice()))
}
