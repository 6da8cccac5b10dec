//! Calls for the most frequent changes: a new object, a set of an attribute, and a set or an addition that only puts one link. Most
//! commands of a script are changes of these kinds. If the change notifies no adapter, the call makes no reply, since a reply with lists of
//! notified adapters takes longer to make than the change itself. Each public call here does the same as a call that always makes a reply,
//! and the docstring of each names that call.
ghost use Rattle.std.specs.Prelude.{◌≡◌, ◌&&◌, ◌||◌, [], None, false, true, MatchOption, is_some, ◌∷◌, OnOk, OnErr};
ghost use Rattle.mm_types.specs.Shapes.{shape};
ghost use Rattle.mm_values.specs.Room.{values_of};
ghost use Rattle.mm_values.specs.Values.{values_after_edits};
ghost use Rattle.handshake.specs.Effects.{put_values};
ghost use Rattle.handshake.specs.Changes.{edits_one_kind};
ghost use Rattle.handshake.specs.Refusals.{early_refusal as early_refusal_of};
ghost use Rattle.handshake.specs.declared.change.Change.TheVariants as change;
ghost use Rattle.adapter_list.specs.Hearing.{is_heard as is_heard_by};
ghost use Rattle.repository.specs.Puts.{is_put_heard};
ghost use Rattle.repository.specs.Run.{Executed, brief_outcome, read_outcome};
ghost use Rattle.repository.specs.State.{reads};
ghost use Rattle.handshake.specs.declared.act.Act.TheVariants.{Add, Set};
ghost use Rattle.repository.specs.Commands as commands;
ghost use Rattle.repository.specs.declared.command.Command.TheVariants.{At, Create};
ghost use Rattle.repository.specs.declared.reply.Answer.{Answer};
ghost use Rattle.repository.specs.declared.reply.Answer.TheVariants as answer;

use super::Repository;
use crate::answering::next_object;
use crate::edits::NewObjectOf;
use crate::reply::Brief;
use adapters::Adapter;
use change_plans::{attribute_refusal, create_refusal, lone_add, lone_set};
use handshake::{Act, Change, list_early_refusal, set_early_refusal};
use links::{LinkStore, NewLink, Plan};
use mm_types::{ClassNo, End, FeatureNo, Node, ObjectNo, Refused, Value};
use mm_values::{NewValues, Values};
use std::alloc::AllocError;

impl<L: LinkStore, A: Adapter> Repository<L, A> {
    /// Makes an object as `create` does. Returns the object, or the refusal.
    #[inline(always)]
    pub fn create_object(&mut self, class: ClassNo) -> Result<ObjectNo, Refused>
        ensures { Executed self.old (Create class) (read_outcome answer.Object result) self.new }
    {
        self.lemma_is_legal();
        let model = self.model();
        if let Some(refused) = create_refusal(&model, class) {
            return Err(refused);
        }
        let object = next_object(&model);
        match self.edit(NewObjectOf(class)) {
            Ok(()) => Ok(object),
            Err(refused) => Err(refused),
        }
    }

    /// Sets a single feature as `e_set` does. The result is `Replied` only in three cases: an adapter may have to be notified; or the
    /// feature is a reference, and planning refuses the set; or the feature is a reference, and the set does anything other than putting
    /// one link.
    #[inline(always)]
    pub fn set_brief(&mut self, node: Node, feature: FeatureNo, value: Value) -> Brief<A>
        ensures { Executed self.old (commands.set node feature value) (brief_outcome A.heard answer.Done result) self.new }
    {
        let end = End { node, feature };
        if self.meta.is_reference(feature) {
            return self.set_reference(end, value);
        }
        if self.is_heard(node) {
            return self.set_heard(end, value);
        }
        Brief::Unheard(self.set_value(end, value))
    }

    /// Sets a reference as `set_brief` does.
    #[inline(always)]
    fn set_reference(&mut self, end: End, value: Value) -> Brief<A>
        requires reference { (shape self.old.model.metamodel end.feature).is_reference ≡ true }
        ensures { Executed self.old (At end (Set value)) (brief_outcome A.heard answer.Done result) self.new }
    {
        match self.set_lone_link(end, &value) {
            Some(done) => Brief::Unheard(done),
            None => self.displace(end, Act::Set(value)),
        }
    }

    /// Adds a value to a list as `add` does. The result is `Unheard` for an addition to a reference in two cases: the addition is refused
    /// before planning; or the addition puts one link, displaces no other link and notifies no adapter. In the second case the only
    /// possible refusal is `Memory`. For any other addition the result is `Replied`. If `Unheard` has no refusal, the list has changed.
    #[inline(always)]
    pub fn add_brief(
        &mut self,
        node: Node,
        feature: FeatureNo,
        value: Value,
        index: Option<u32>,
    ) -> Brief<A>
        ensures { Executed self.old (commands.add node feature value index) (brief_outcome A.heard (answer.Flag true) result) self.new }
    {
        let end = End { node, feature };
        if self.meta.is_reference(feature) {
            return match self.add_lone_link(end, &value, index) {
                Some(done) => Brief::Unheard(done),
                None => self.displace(end, Act::Add(value, index)),
            };
        }
        Brief::Replied(self.change(Change::At(end, Act::Add(value, index))))
    }

    /// Does an act at a reference. The act must be no `Resolve`, and must not be refused before planning. The function is never inlined
    /// into the code of a change that notifies no adapter: otherwise that code would zero the stack slots of a `Change`.
    #[inline(never)]
    fn displace(&mut self, end: End, act: Act) -> Brief<A>
        requires reference { (shape self.old.model.metamodel end.feature).is_reference ≡ true }
        requires one { edits_one_kind (change.At end act) ≡ true }
        requires asked { early_refusal_of (reads self.old) (change.At end act) ≡ None }
        ensures { (a : Answer) → Executed self.old (At end act) (brief_outcome A.heard a result) self.new }
    {
        Brief::Replied(self.carry_out::<Plan>(Change::At(end, act), self.has_adapters()))
    }

    /// Whether some adapter is notified of changes at a node. Takes no memory.
    #[inline(always)]
    pub(super) fn is_heard(&self, node: Node) -> bool
        ensures { result ≡ is_heard_by (reads self.now).above node self.now.adapters }
    {
        if self.adapters.len() == 0 {
            return false;
        }
        self.adapters.is_heard(&self.store, node, &self.hearers)
    }

    /// Whether an adapter is notified when the link `put` is put in: at the node of `put.end` or, if the feature has an opposite, at the
    /// object `put.object`. Takes no memory.
    #[inline(always)]
    fn is_put_heard(&self, put: NewLink) -> bool
        ensures { result ≡ is_put_heard self.now put }
    {
        self.is_heard(put.end.node)
            || (put.opposite.is_some() && self.is_heard(Node::Object(put.object)))
    }

    /// Sets an attribute as `e_set` does. The caller has to know that no adapter is notified of changes at the node.
    #[inline(always)]
    pub(super) fn set_value(&mut self, end: End, value: Value) -> Result<(), Refused>
        requires attribute { (shape self.old.model.metamodel end.feature).is_reference ≡ false }
        requires unheard { is_heard_by (reads self.old).above end.node self.old.adapters ≡ false }
        ensures { Executed self.old (At end (Set value)) (read_outcome (λ u. answer.Done) result) self.new }
    {
        let model = self.model();
        if let Some(refused) = attribute_refusal(&model, end, &value) {
            return Err(refused);
        }
        let flag = model.meta().is_unsettable(end.feature);
        match put_value(&mut self.values, end, value, flag) {
            Ok(()) => {}
            Err(_) => return Err(Refused::Memory),
        }
        Ok(())
    }

    /// Sets a reference as `e_set` does, if the set only puts one link and notifies no adapter. If the set is refused before planning,
    /// returns the refusal. In any other case returns `None`: nothing was done, and planning has to find out what the set does or why it is
    /// refused.
    #[inline(always)]
    pub(super) fn set_lone_link(&mut self, end: End, value: &Value) -> Option<Result<(), Refused>>
        ensures { MatchOption result
            ((self.new ≡ self.old) × (early_refusal_of (reads self.old) (change.At end (Set value.now)) ≡ None))
            (λ r. Executed self.old (At end (Set value.now)) (read_outcome (λ u. answer.Done) r) self.new) }
    {
        let model = self.model();
        if let Some(refused) = set_early_refusal(&model, end, value) {
            return Some(Err(refused));
        }
        let put = lone_set(&model, end, value)?;
        if self.is_put_heard(put) {
            return None;
        }
        Some(self.edit(put))
    }

    /// Adds to a reference as `add` does, if the addition only puts one link and notifies no adapter. If the addition is refused before
    /// planning, returns the refusal. In any other case returns `None`: nothing was done, and planning has to find out what the addition
    /// does or why it is refused.
    #[inline(always)]
    pub(super) fn add_lone_link(
        &mut self,
        end: End,
        value: &Value,
        index: Option<u32>,
    ) -> Option<Result<(), Refused>>
        ensures { MatchOption result
            ((self.new ≡ self.old) × (early_refusal_of (reads self.old) (change.At end (Add value.now index)) ≡ None))
            (λ r. Executed self.old (At end (Add value.now index)) (read_outcome (λ u. answer.Flag true) r) self.new) }
    {
        let model = self.model();
        if let Some(refused) = list_early_refusal(&model, end, value) {
            return Some(Err(refused));
        }
        let put = lone_add(&model, end, value, index)?;
        if self.is_put_heard(put) {
            return None;
        }
        Some(self.edit(put))
    }
}

/// Replaces the values of an attribute of a node by one value, and the set flag of the attribute by `flag`. Does nothing if the node is a
/// resource, since resources have no attributes. Fails only if memory is refused, and then nothing that contracts see has changed.
#[inline(always)]
fn put_value(values: &mut Values, end: End, value: Value, flag: bool) -> Result<(), AllocError>
    ensures ok { OnOk result (values_of values.new ≡ values_after_edits (values_of values.old) (put_values end (value ∷ []) flag)) }
    ensures err { OnErr result (values_of values.new ≡ values_of values.old) }
{
    match end.node {
        Node::Object(object) => values.try_put(object, end.feature, NewValues::one(value), flag),
        Node::Resource(_) => Ok(()),
    }
}
