//! A well-formed metamodel, and its look-ups.
ghost use Rattle.std.specs.Prelude.{◌≡◌, ◌∷◌, ◌<◌, [], IfOk, IfSome, length};
ghost use Rattle.std.specs.Option.{option_copied};
ghost use Rattle.mm_types.specs.Lookups as m;
ghost use Rattle.mm_types.specs.Resolved.{feature_no, resolved_metamodel};
ghost use Rattle.mm_types.specs.Shapes as shapes;
ghost use Rattle.mm_types.specs.WellFormed.{WellFormed};
ghost use Rattle.mm_meta.specs.Containments.{AreContainments, has_containment};
ghost use Rattle.mm_meta.specs.FeatureNames.{AreRows, ComesTo, IsRow};

use crate::feature_names::FeatureNames;
use crate::name_table::{NameTable, position_at};
use crate::resolution::Resolution;
use crate::shapes::is_containment;
use crate::tables::literal_tables;
use mm_types::{Class, ClassNo, Enumeration, Feature, FeatureNo, Kind, RawMeta, Seq, Value};
use std::alloc::{AllocError, Global};
use std::marker::Model;

/// The greatest number of features with the same name that a look-up goes through one by one. If more features have a name, a list in
/// `Meta::common` has, for each class, the feature with this name.
const FEW: usize = 8;

/// A metamodel with its names resolved into numbers. It is always well-formed and within the limits. Classes are numbered in document
/// order. Features are numbered class by class, and for each class in document order.
///
/// No look-up takes memory. A look-up that returns an `Option` returns `None` for a number that no class, feature, enumeration or literal
/// has; the exception is `containing`.
#[derive(Drop)]
pub struct Meta {
    enums: Seq<Enumeration>,
    classes: Seq<Class>,
    features: Seq<Feature>,
    /// `conformance[sub][sup]`: whether the class with the number `sub` conforms to the class with the number `sup`.
    conformance: Seq<Seq<bool>>,
    class_table: NameTable,
    literal_tables: Vec<NameTable>,
    /// The names of all features, and for each name the features that have it.
    names: FeatureNames,
    /// For each name that more than `FEW` features have: a list that has, for each class, the feature of the class with this name, or
    /// `None`. The list is at the number of the first feature with the name. At the number of any other feature there is no list, or an
    /// empty one.
    common: Vec<Seq<Option<FeatureNo>>>,
    /// For each class, whether it has a containment, own or inherited.
    containments: Vec<bool>,
    /// The default of a reference: null.
    null: Value,
    /// All features of a resource: only `contents()`.
    contents: [FeatureNo; 1],
}

impl Model for Meta {
    ghost use Rattle.mm_types.specs.Resolved.{Metamodel};
    ghost use Rattle.mm_meta.specs.Meta.{IsMeta, metamodel};

    ghost Value = { Metamodel };

    ghost view = { metamodel };

    ghost invariant = { IsMeta };
}

impl Meta {
    ghost use Rattle.mm_types.specs.OfDocument.{IsOfDocument};
    ghost use Rattle.mm_meta.specs.Resolution.{IsResolutionOf};

    /// The metamodel that the well-formed document `raw` gives; `resolution` has the classes and features of this document. Fails only if
    /// memory is refused.
    pub fn new(alloc: Global, raw: RawMeta, resolution: Resolution) -> Result<Self, AllocError>
        requires well_formed { WellFormed raw }
        requires resolution { IsResolutionOf raw resolution }
        ensures { IfOk result (λ m. m ≡ resolved_metamodel raw) }
    {
        let Resolution {
            classes,
            features,
            conformance,
        } = resolution;
        let (enums, _classes) = raw.into_parts();
        let class_table = NameTable::of(alloc, classes.as_slice())?;
        let literal_tables = literal_tables(alloc, enums.as_slice())?;
        let names = FeatureNames::of(alloc, features.as_slice())?;
        let contents = FeatureNo(features.len() as u32);
        let mut meta = Meta {
            enums,
            classes,
            features,
            conformance,
            class_table,
            literal_tables,
            names,
            common: Vec::new(alloc),
            containments: Vec::new(alloc),
            null: Value::Null,
            contents: [contents],
        };
        meta.keep_common(alloc)?;
        meta.keep_containments(alloc)?;
        Ok(meta)
    }

    /// Every `Meta` is the metamodel of a well-formed document. Code calls this function to make the fact known to a proof that has only
    /// the view of the metamodel.
    pub fn lemma_is_of_document(&self)
        ensures { IsOfDocument self.now }
    {
        let _ = &self.null;
    }

    /// The class with a given name. No class has the name `Resource`.
    pub fn class_by_name(&self, name: &str) -> Option<ClassNo>
        ensures { result ≡ m.class_by_name self.now name.now }
    {
        let position = self.class_table.position(name)?;
        Some(ClassNo(position as u32))
    }

    /// The class with a given number.
    pub fn class(&self, class: ClassNo) -> Option<&Class>
        ensures { option_copied result ≡ m.class self.now class }
    {
        self.classes.as_slice().get(class.0 as usize)
    }

    /// The feature with a given name among all features of a class (EClass.getEStructuralFeature).
    pub fn feature_by_name(&self, class: ClassNo, name: &str) -> Option<FeatureNo>
        ensures { result ≡ m.feature_by_name self.now class name.now }
    {
        let first = self.names.first(name)?;
        let feature = FeatureNo(first as u32);
        if self.has_feature(class, feature) {
            return Some(feature);
        }
        match self.kept(class, first) {
            Some(found) => found,
            None => self.search(class, name, self.names.next()[first]),
        }
    }

    /// The feature of `class` with a given name, from the list that is kept for this name. The name is given by `first`, the number of the
    /// first feature that has it. `Some(None)` if the class has no feature with the name. `None` if no list is kept, or if `class` names no
    /// class.
    fn kept(&self, class: ClassNo, first: usize) -> Option<Option<FeatureNo>>
        ensures { IfSome result (λ found. found ≡ m.feature_by_name self.now class (m.feature_name self.now (feature_no first))) }
    {
        let by_class = self.common.get(first)?;
        by_class.as_slice().get(class.0 as usize).copied()
    }

    /// The feature of a class with a given name. The search looks at the features with this name, from the feature `from` on, until the
    /// class has one of them. No feature with the name before `from` is a feature of the class.
    fn search(&self, class: ClassNo, _name: &str, from: usize) -> Option<FeatureNo>
        requires { ComesTo self.now class _name.now from }
        ensures { result ≡ m.feature_by_name self.now class _name.now }
    {
        let next = self.names.next();
        let mut at = from;
        'same: while at < next.len() {
            let feature = FeatureNo(at as u32);
            if self.has_feature(class, feature) {
                return Some(feature);
            }
            at = next[at];
        }
        None
    }

    /// Whether a feature is the first one with its name, and more than `FEW` features have that name.
    fn begins_common(&self, feature: usize) -> bool
        requires { feature < length self.now.features }
    {
        if self
            .names
            .first(self.feature_name(FeatureNo(feature as u32)))
            != Some(feature)
        {
            return false;
        }
        let next = self.names.next();
        let mut at = feature;
        for _ in 0..FEW {
            match next.get(at) {
                Some(after) => at = *after,
                None => return false,
            }
        }
        at < next.len()
    }

    /// If `feature` is the first of more than `FEW` features with the same name: a list that has, for each class, the feature of the class
    /// with this name, or `None`. For any other feature an empty list. Fails only if memory is refused.
    fn by_class(&self, alloc: Global, feature: usize) -> Result<Seq<Option<FeatureNo>>, AllocError>
        requires { feature < length self.now.features }
        ensures { IfOk result (IsRow self.now (m.feature_name self.now (feature_no feature))) }
    {
        if !self.begins_common(feature) {
            return Ok(Seq::new(alloc));
        }
        let mut by_class = Vec::with_capacity(alloc, self.classes.len())?;
        let name = self.feature_name(FeatureNo(feature as u32));
        'classes: for c in 0..self.classes.len() {
            by_class.push(self.feature_by_name(ClassNo(c as u32), name))?;
        }
        Ok(Seq::from_vec(by_class))
    }

    fn rows(&self, alloc: Global) -> Result<Vec<Seq<Option<FeatureNo>>>, AllocError>
        ensures { IfOk result (λ v. AreRows self.now v.items) }
    {
        let mut rows = Vec::with_capacity(alloc, self.features.len())?;
        'features: for f in 0..self.features.len() {
            rows.push(self.by_class(alloc, f)?)?;
        }
        Ok(rows)
    }

    /// Fills `common`: a list for each name that more than `FEW` features have. The list has, for each class, the feature of the class with
    /// this name, so that a look-up need not go through all features with the name. If memory is refused, nothing changes.
    fn keep_common(&mut self, alloc: Global) -> Result<(), AllocError>
        ensures { self.new ≡ self.old }
    {
        let rows = self.rows(alloc)?;
        self.common = rows;
        Ok(())
    }

    /// Whether a class has a containment, own or inherited. Looks at the features of the class until one is a containment.
    fn finds_containment(&self, class: ClassNo) -> bool
        ensures { result ≡ has_containment self.now class }
    {
        match self.features(class) {
            Some(features) => features.iter().any(|feature| self.is_containment(*feature)),
            None => false,
        }
    }

    fn all_containments(&self, alloc: Global) -> Result<Vec<bool>, AllocError>
        ensures { IfOk result (λ v. AreContainments self.now v.items) }
    {
        let mut found = Vec::with_capacity(alloc, self.classes.len())?;
        'classes: for c in 0..self.classes.len() {
            found.push(self.finds_containment(ClassNo(c as u32)))?;
        }
        Ok(found)
    }

    /// Fills `containments`: for each class, whether it has a containment, own or inherited. If memory is refused, nothing changes.
    fn keep_containments(&mut self, alloc: Global) -> Result<(), AllocError>
        ensures { self.new ≡ self.old }
    {
        let found = self.all_containments(alloc)?;
        self.containments = found;
        Ok(())
    }

    /// Whether a class has a containment, own or inherited, so that its objects can contain others. Takes constant time, and no memory.
    pub fn has_containment(&self, class: ClassNo) -> bool
        ensures { result ≡ has_containment self.now class }
    {
        match self.containments.get(class.0 as usize) {
            Some(found) => *found,
            None => self.finds_containment(class),
        }
    }

    /// The feature with a given number; `None` for `contents()`.
    pub fn feature(&self, feature: FeatureNo) -> Option<&Feature>
        ensures { option_copied result ≡ m.feature self.now feature }
    {
        self.features.as_slice().get(feature.0 as usize)
    }

    /// All features of a class, own and inherited (EClass.getEAllStructuralFeatures).
    pub fn features(&self, class: ClassNo) -> Option<&[FeatureNo]>
        ensures { option_copied result ≡ m.features self.now class }
    {
        let class = self.class(class)?;
        Some(class.all.as_slice())
    }

    /// Whether the class `sub` is the class `sup` or inherits from `sup` (EClass.isSuperTypeOf, with the receiver and the argument
    /// exchanged); false if `sub` or `sup` is the number of no class.
    pub fn conforms(&self, sub: ClassNo, sup: ClassNo) -> bool
        ensures { result ≡ m.conforms self.now sub sup }
    {
        match self.conformance.as_slice().get(sub.0 as usize) {
            Some(by_class) => by_class.as_slice().get(sup.0 as usize).copied() == Some(true),
            None => false,
        }
    }

    /// Whether a feature is among all features of a class, own and inherited: exactly if the class conforms to the class that declares the
    /// feature. Takes constant time.
    pub fn has_feature(&self, class: ClassNo, feature: FeatureNo) -> bool
        ensures { result ≡ m.has_feature self.now class feature }
    {
        let features = self.features.as_slice();
        match features.get(feature.0 as usize) {
            Some(found) => self.conforms(class, found.owner),
            None => false,
        }
    }

    /// The default of a feature (EStructuralFeature.getDefaultValue): null for a reference; `None` for `contents()`.
    pub fn default(&self, feature: FeatureNo) -> Option<&Value>
        ensures { option_copied result ≡ m.default self.now feature }
    {
        match &self.feature(feature)?.kind {
            Kind::Attribute { default, .. } => Some(default),
            Kind::Reference { .. } => Some(&self.null),
        }
    }

    /// The opposite of a reference (EReference.getEOpposite); `None` for an attribute, and for a reference without opposite.
    pub fn opposite(&self, feature: FeatureNo) -> Option<FeatureNo>
        ensures opposite { result ≡ m.opposite self.now feature }
        ensures shape { result ≡ (shapes.shape self.now feature).opposite }
    {
        match &self.feature(feature)?.kind {
            Kind::Attribute { .. } => None,
            Kind::Reference { opposite, .. } => *opposite,
        }
    }

    /// Whether a feature is a container reference: its opposite is a containment (EReference.isContainer).
    pub fn is_container(&self, feature: FeatureNo) -> bool
        ensures { result ≡ m.is_container self.now feature }
    {
        let Some(opposite) = self.opposite(feature) else {
            return false;
        };
        match self.feature(opposite) {
            Some(far) => is_containment(&far.kind),
            None => false,
        }
    }

    /// The containing feature of a feature's links (EReference.isContainment, isContainer): the feature itself, if it is a containment; its
    /// opposite, if it is a container reference; `None` for any other feature. `contents()` is a containment, and so it is returned for
    /// itself. It is also returned if no feature has the number. Takes no memory.
    pub fn containing(&self, feature: FeatureNo) -> Option<FeatureNo>
        ensures { result ≡ (shapes.shape self.now feature).containing }
    {
        let Some(found) = self.feature(feature) else {
            return Some(self.contents());
        };
        match &found.kind {
            Kind::Attribute { .. } => None,
            Kind::Reference {
                containment: true,
                ..
            } => Some(feature),
            Kind::Reference { opposite, .. } => {
                if self.is_container(feature) {
                    *opposite
                } else {
                    None
                }
            }
        }
    }

    /// Whether a feature contains its values (EReference.isContainment). `contents()` does. Takes no memory.
    pub fn is_containment(&self, feature: FeatureNo) -> bool
        ensures { result ≡ shapes.is_containment self.now feature }
    {
        match self.feature(feature) {
            Some(found) => is_containment(&found.kind),
            None => feature.0 == self.contents().0,
        }
    }

    /// The name of a literal, by the position of its enumeration in the document and the index of the literal in the enumeration.
    pub fn literal(&self, enumeration: u32, index: u32) -> Option<&str>
        ensures { option_copied result ≡ m.literal self.now enumeration index }
    {
        let literals = self
            .enums
            .as_slice()
            .get(enumeration as usize)?
            .literals
            .as_slice();
        let literal = literals.get(index as usize)?;
        Some(literal.as_str())
    }

    /// The index of the literal with a given name in an enumeration, which is given by its position in the document.
    pub fn literal_by_name(&self, enumeration: u32, name: &str) -> Option<u32>
        ensures { result ≡ m.literal_by_name self.now enumeration name.now }
    {
        let index = position_at(self.literal_tables.as_slice(), enumeration as usize, name)?;
        Some(index as u32)
    }

    /// The only feature of a resource, which holds the resource's roots. Its number is the first after the numbers of all other features.
    pub fn contents(&self) -> FeatureNo
        ensures { result ≡ m.contents self.now }
    {
        self.contents[0]
    }

    /// All features of a resource: `contents()`.
    pub fn features_of_resources(&self) -> &[FeatureNo]
        ensures { result.now ≡ m.contents self.now ∷ [] }
    {
        &self.contents
    }
}
