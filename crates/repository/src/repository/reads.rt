//! Reads of objects and their values.
ghost use Rattle.std.specs.Prelude.{◌≡◌, false, unwrap_or, ok_or, option_map, Ok, IfOk, IfErr};
ghost use Rattle.mm_types.specs.declared.refused.Refused.TheVariants.{NoObject};
ghost use Rattle.mm_types.specs.declared.value.Value.TheVariants.{Null};
ghost use Rattle.models.specs.Found.{found_value};
ghost use Rattle.repository.specs.Answers.{got_answer};
ghost use Rattle.repository.specs.Commands as commands;
ghost use Rattle.repository.specs.Reads.{IsValueRefusal};
ghost use Rattle.repository.specs.Run.{Executed, read_outcome};
ghost use Rattle.repository.specs.State.{reads};
ghost use Rattle.repository.specs.declared.reply.Answer.TheVariants as answer;
ghost use Rattle.mm_types.specs.Conditions.{is_memory_refusal};

use super::Repository;
use crate::reply::FeatureValue;
use adapters::Adapter;
use containment::{container, contents, holder_resource};
use links::LinkStore;
use mm_types::{ClassNo, End, FeatureNo, Node, ObjectNo, Refused, ResourceNo, Seq};
use models::{Found, copied, copied_list, end_refusal, node_refusal, object_refusal};
use snapshots::Snapshot;
use validation::short_features;

impl<L: LinkStore, A: Adapter> Repository<L, A> {
    /// What a feature of a node holds (EMF: EObject.eGet): for a single attribute the value that was set, or else the default; for a single
    /// reference its object or its proxy, or null if the reference is empty; for a many-valued feature its list. A proxy is not resolved.
    ///
    /// Refused, the first that applies: `NoObject`, `NoResource`, `NoFeature`, `Memory`.
    #[tactic(auto, using(crate::proofs::QuietLemmas::get_done))]
    pub fn e_get(&self, node: Node, feature: FeatureNo) -> Result<FeatureValue, Refused>
        ensures { Executed self.now (commands.get node feature) (read_outcome got_answer result) self.now }
    {
        let model = self.model();
        let end = End { node, feature };
        if let Some(refused) = end_refusal(&model, end) {
            return Err(refused);
        }
        if model.meta().is_single(feature) {
            let value = copied(self.alloc, model.value_at(end))?;
            return Ok(FeatureValue::One(value));
        }
        let values = copied_list(self.alloc, &model, end)?;
        Ok(FeatureValue::Many(values))
    }

    /// The value that `e_get` returns for a single feature, borrowed from the repository and not copied; `None` stands for null. Takes no
    /// memory.
    ///
    /// Refused, the first that applies: `NoObject`, `NoResource`, `NoFeature`, `NotSingle` if the feature is many-valued.
    #[tactic(auto, using(crate::proofs::QuietLemmas::get_done))]
    pub fn value(&self, node: Node, feature: FeatureNo) -> Result<Option<Found<'_>>, Refused>
        ensures ok { IfOk result (λ v. Executed self.now (commands.get node feature) (read_outcome answer.Value (Ok (unwrap_or (option_map found_value v) Null))) self.now) }
        ensures err { IfErr result (λ r. IsValueRefusal self.now node feature r) }
    {
        let model = self.model();
        let end = End { node, feature };
        if let Some(refused) = end_refusal(&model, end) {
            return Err(refused);
        }
        if !model.meta().is_single(feature) {
            return Err(Refused::NotSingle);
        }
        Ok(model.value_at(end))
    }

    /// Whether a feature of a node is set (EMF: EObject.eIsSet). A list is set if it has values. A single unsettable attribute is set if
    /// `e_set` or a load gave it a value and `e_unset` has not unset it since. Any other single feature is set if its value differs from
    /// its default. Takes no memory.
    ///
    /// Refused, the first that applies: `NoObject`, `NoResource`, `NoFeature`.
    #[tactic(auto, using(crate::proofs::QuietLemmas::is_set_done))]
    pub fn e_is_set(&self, node: Node, feature: FeatureNo) -> Result<bool, Refused>
        ensures read { Executed self.now (commands.is_set node feature) (read_outcome answer.Flag result) self.now }
        ensures kind { IfErr result (λ r. is_memory_refusal r ≡ false) }
    {
        let model = self.model();
        let end = End { node, feature };
        if let Some(refused) = end_refusal(&model, end) {
            return Err(refused);
        }
        Ok(model.is_set(end))
    }

    /// The object that contains `object` (EMF: EObject.eContainer); `None` if no object contains it. Takes no memory. Refused with
    /// `NoObject` if no live object has the number.
    #[tactic(auto, using(crate::proofs::QuietLemmas::container_done))]
    pub fn e_container(&self, object: ObjectNo) -> Result<Option<ObjectNo>, Refused>
        ensures read { Executed self.now (commands.container object) (read_outcome answer.Container result) self.now }
        ensures kind { IfErr result (λ r. is_memory_refusal r ≡ false) }
    {
        let model = self.model();
        if let Some(refused) = object_refusal(&model, object) {
            return Err(refused);
        }
        Ok(container(&model, object))
    }

    /// The resource that an object is in, directly or below other objects (EMF: EObject.eResource); `None` if the object is in no resource.
    /// Takes no memory. Refused with `NoObject` if no live object has the number.
    #[tactic(auto, using(crate::proofs::QuietLemmas::resource_done))]
    pub fn e_resource(&self, object: ObjectNo) -> Result<Option<ResourceNo>, Refused>
        ensures read { Executed self.now (commands.resource object) (read_outcome answer.Within result) self.now }
        ensures kind { IfErr result (λ r. is_memory_refusal r ≡ false) }
    {
        let model = self.model();
        if let Some(refused) = object_refusal(&model, object) {
            return Err(refused);
        }
        Ok(holder_resource(model.store(), object))
    }

    /// The objects that a node directly contains (EMF: EObject.eContents). The contents of an object come by feature, in the order of all
    /// features of its class, and then by position. The contents of a resource are its roots, by position.
    ///
    /// Refused, the first that applies: `NoObject`, `NoResource`, `Memory`.
    #[tactic(auto, using(crate::proofs::QuietLemmas::contents_done))]
    pub fn e_contents(&self, node: Node) -> Result<Seq<ObjectNo>, Refused>
        ensures { Executed self.now (commands.contents node) (read_outcome answer.Objects result) self.now }
    {
        let model = self.model();
        if let Some(refused) = node_refusal(&model, node) {
            return Err(refused);
        }
        let objects = contents(self.alloc, &model, node)?;
        Ok(Seq::from_vec(objects))
    }

    /// The state of a node and of each node below it. The state has the class of an object, the values of each feature, and the set flag of
    /// each unsettable feature. The call takes time in proportion to the size of the snapshot, apart from sorting the objects.
    ///
    /// Refused, the first that applies: `NoObject`, `NoResource`, `Memory`.
    #[tactic(auto, using(crate::proofs::QuietLemmas::snapshot_done))]
    pub fn snapshot(&self, node: Node) -> Result<Snapshot, Refused>
        ensures { Executed self.now (commands.snapshot node) (read_outcome answer.Snapshot result) self.now }
    {
        let model = self.model();
        if let Some(refused) = node_refusal(&model, node) {
            return Err(refused);
        }
        let snapshot = Snapshot::of(self.alloc, &model, node)?;
        Ok(snapshot)
    }

    /// The class of an object (EMF: EObject.eClass). Takes no memory. Refused with `NoObject` if no live object has the number.
    #[tactic(auto, using(crate::proofs::QuietLemmas::class_done))]
    pub fn e_class(&self, object: ObjectNo) -> Result<ClassNo, Refused>
        ensures read { Executed self.now (commands.class object) (read_outcome answer.Class result) self.now }
        ensures class { result ≡ ok_or ((reads self.now).class object) NoObject }
    {
        match self.values.class(object) {
            Some(class) => Ok(class),
            None => Err(Refused::NoObject),
        }
    }

    /// The features of an object that have fewer values than their lower bounds, in the order of all features of its class (EMF:
    /// Diagnostician.validate, of multiplicities; MOF 2.5.1: MultiplicityElement.lower). A single feature whose lower bound is 1 has too
    /// few values if its value is null, or if the feature is unsettable and not set.
    ///
    /// Refused, the first that applies: `NoObject` if no live object has the number, `Memory`.
    #[tactic(auto, using(crate::proofs::QuietLemmas::validate_done))]
    pub fn validate(&self, object: ObjectNo) -> Result<Seq<FeatureNo>, Refused>
        ensures { Executed self.now (commands.validate object) (read_outcome answer.Features result) self.now }
    {
        let model = self.model();
        if let Some(refused) = object_refusal(&model, object) {
            return Err(refused);
        }
        let features = short_features(self.alloc, &model, object)?;
        Ok(Seq::from_vec(features))
    }
}
