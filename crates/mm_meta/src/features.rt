//! The features of a metamodel document are resolved.
ghost use Rattle.std.specs.Prelude.{◌≡◌, ◌<◌, ◌++◌, ◌^◌, IfOk, OnOk, map, option_and_then, option_map};
ghost use Rattle.mm_types.specs.Resolved.{default_of, feature_no, features_from, own_named, resolved_feature, resolved_kind, target_named, type_named};

use crate::literals::type_default;
use crate::resolver::Resolver;
use mm_types::{
    ClassNo, DataType, Feature, FeatureNo, Kind, RawFeature, RawKind, Seq, Text, Value,
};
use std::alloc::{AllocError, Global};

impl<'a> Resolver<'a> {
    fn type_of(&self, name: &str) -> DataType
        ensures { result ≡ type_named self.now.enums name.now }
    {
        self.data_type(name).unwrap_or(DataType::EString)
    }

    fn target(&self, name: &str) -> usize
        ensures value { result ≡ target_named self.now.classes name.now }
        ensures small { result < 2 ^ 32 }
    {
        self.class(name).unwrap_or(self.classes().len())
    }

    fn default(
        &self,
        alloc: Global,
        t: DataType,
        literal: &Option<Text>,
    ) -> Result<Value, AllocError>
        ensures { IfOk result (λ v. v ≡ default_of self.now.enums t literal.now) }
    {
        let Some(text) = literal else {
            return Ok(type_default(t));
        };
        match self.literal_value(alloc, t, text.as_str())? {
            Some(value) => Ok(value),
            None => Ok(type_default(t)),
        }
    }

    /// The number of the first feature that the class `target` declares under a name; `None` if no name is given, or if the class declares
    /// no feature with the name.
    fn opposite(&self, target: usize, name: &Option<Text>) -> Option<FeatureNo>
        ensures { result ≡ option_map feature_no (option_and_then (own_named self.now.classes target) name.now) }
    {
        let name = name.as_ref()?;
        let number = self.own_named(target, name.as_str())?;
        Some(FeatureNo(number))
    }

    fn kind(&self, alloc: Global, type_name: &str, kind: &RawKind) -> Result<Kind, AllocError>
        ensures { IfOk result (λ k. k ≡ resolved_kind self.now type_name.now kind.now) }
    {
        match kind {
            RawKind::Attribute {
                unique,
                unsettable,
                default,
            } => {
                let value_type = self.type_of(type_name);
                let default = self.default(alloc, value_type, default)?;
                Ok(Kind::Attribute {
                    value_type,
                    unique: *unique,
                    unsettable: *unsettable,
                    default,
                })
            }
            RawKind::Reference {
                containment,
                opposite,
            } => {
                let target = self.target(type_name);
                Ok(Kind::Reference {
                    target: ClassNo(target as u32),
                    containment: *containment,
                    opposite: self.opposite(target, opposite),
                })
            }
        }
    }

    fn feature(&self, alloc: Global, owner: usize, raw: &RawFeature) -> Result<Feature, AllocError>
        requires { owner < 2 ^ 32 }
        ensures { IfOk result (λ f. f ≡ resolved_feature self.now owner raw.now) }
    {
        let name = raw.name.clone()?;
        let kind = self.kind(alloc, raw.type_name.as_str(), &raw.kind)?;
        Ok(Feature {
            name,
            owner: ClassNo(owner as u32),
            lower: raw.lower,
            upper: raw.upper,
            kind,
        })
    }

    fn add_features(
        &self,
        alloc: Global,
        owner: usize,
        raw: &[RawFeature],
        features: &mut Seq<Feature>,
    ) -> Result<(), AllocError>
        requires { owner < 2 ^ 32 }
        ensures { OnOk result (features.new ≡ features.old ++ map (resolved_feature self.now owner) raw.now) }
    {
        'features: for feature in raw {
            features.push(self.feature(alloc, owner, feature)?)?;
        }
        Ok(())
    }

    /// The features that all classes declare, with their names resolved: class by class, and for each class in document order. Fails only
    /// if memory is refused.
    pub fn features(&self, alloc: Global) -> Result<Seq<Feature>, AllocError>
        ensures { IfOk result (λ s. s ≡ features_from self.now 0 self.now.classes) }
    {
        let classes = self.classes();
        let mut features = Seq::new(alloc);
        'classes: for (c, class) in classes.iter().enumerate() {
            self.add_features(alloc, c, class.features.as_slice(), &mut features)?;
        }
        Ok(features)
    }
}
