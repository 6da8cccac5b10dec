//! Changes of objects, their values and their links.
ghost use Rattle.std.specs.Prelude.{◌≡◌, ◌<◌, ℕ, List, [], None, Some, false, length, true};
ghost use Rattle.mm_types.specs.Shapes.{shape};
ghost use Rattle.adapter_list.specs.Hearing.{IsUnheard};
ghost use Rattle.notice_chain.specs.Listed.{Above};
ghost use Rattle.notice_chain.specs.declared.notice.Notice.{Notice};
ghost use Rattle.handshake.specs.FeatureChanges.{chain};
ghost use Rattle.handshake.specs.Changes.{edits_values_alone};
ghost use Rattle.handshake.specs.declared.change.Change.{Change};
ghost use Rattle.handshake.specs.Refusals.{early_refusal as early_refusal_of};
ghost use Rattle.repository.specs.Run.{Executed, brief_outcome, change_outcome};
ghost use Rattle.repository.specs.State.{reads};
ghost use Rattle.repository.specs.Views.{changed_view, command_of};
ghost use Rattle.repository.specs.Commands as commands;
ghost use Rattle.repository.specs.declared.command.Command.TheVariants.{At, Create, Delete};
ghost use Rattle.repository.specs.declared.reply.Answer.TheVariants as answer;
ghost use Rattle.handshake.specs.declared.act.Act.TheVariants.{Set};
ghost use Rattle.repository.specs.Proper.{IsProper};

use super::Repository;
use crate::edits::AllEdits;
use crate::prepared::{Planned, Prepared};
use crate::replies::{replied, reply};
use crate::reply::{Answer, Brief, Reply};
use adapters::Adapter;
use change_plans::{attribute_refusal, plan_set};
use handshake::{Act, Change, early_refusal};
use links::{LinkStore, Plan};
use mm_types::{ClassNo, End, FeatureNo, Node, ObjectNo, Refused, Value};
use mm_values::ValuePlan;
use notice_chain::Chain;

impl<L: LinkStore, A: Adapter> Repository<L, A> {
    /// Makes an object of a class (EMF: EFactory.create). Each single attribute of the object has its default, and all other features are
    /// empty. Notifies no adapter.
    ///
    /// Refused, the first that applies: `NoClass`, `Abstract`, `Limit` if 1,000,000 objects were made, `Memory`.
    pub fn create(&mut self, class: ClassNo) -> Result<Reply<A>, Refused>
        ensures { Executed self.old (Create class) (change_outcome (changed_view A.heard result)) self.new }
    {
        let object = self.create_object(class)?;
        Ok(reply(self.alloc, Answer::Object(object)))
    }

    /// Sets a single feature of an object (EMF: EObject.eSet). If the feature has an opposite, the opposite ends change too. Links that the
    /// new link displaces are cut at both ends, and an object that is put into a container leaves its former container. Notifies the
    /// adapters at each end that changes, and the deep adapters above that end: first at the ends that lose a link and gain nothing, then
    /// at the opposite end that gains the link, and last of SET at the feature itself. The adapters at the feature are notified of SET even
    /// if the feature had the value already.
    ///
    /// Refused, the first that applies: `NoObject` if the node or the value is an object that does not live, `NoResource`, `NoFeature`,
    /// `NotSingle` if the feature is many-valued, `WrongType`, `TextLength` above 65,535 bytes, `Bound` if the opposite list has to gain a
    /// value and has as many values as its upper bound, `Recursive` if an object would contain itself, directly or not, `Limit` if the
    /// opposite list has to gain a value and has 1,000,000 values, `AdapterFull` if an adapter can't count its notifications of this change
    /// and a last notification from each of its targets, `Memory`.
    pub fn e_set(
        &mut self,
        node: Node,
        feature: FeatureNo,
        value: Value,
    ) -> Result<Reply<A>, Refused>
        ensures { Executed self.old (commands.set node feature value) (change_outcome (changed_view A.heard result)) self.new }
    {
        match self.set_brief(node, feature, value) {
            Brief::Unheard(done) => replied(self.alloc, done, Answer::Done),
            Brief::Replied(reply) => reply,
        }
    }

    /// Unsets a feature of a node (EMF: EObject.eUnset): a single attribute gets its default, a single reference becomes null, a list
    /// becomes empty, and the opposite ends change too. Notifies the adapters at each opposite end, and then the adapters at the feature.
    /// If the feature is single, the adapters at the feature are notified of UNSET, whether the feature was set or not. If the feature is a
    /// list, they are notified of one REMOVE for each value, from the last value to the first. The deep adapters above each end are
    /// notified too.
    ///
    /// Refused, the first that applies: `NoObject`, `NoResource`, `NoFeature`, `AdapterFull`, `Memory`.
    pub fn e_unset(&mut self, node: Node, feature: FeatureNo) -> Result<Reply<A>, Refused>
        ensures { Executed self.old (commands.unset node feature) (change_outcome (changed_view A.heard result)) self.new }
    {
        self.change(Change::At(End { node, feature }, Act::Unset))
    }

    /// Destroys an object and all objects below it, and takes each of them out of every end that has it as a value (EMF: EcoreUtil.delete,
    /// recursively). No other object ever gets the number of a destroyed object. If ends of other nodes lose values, the adapters at these
    /// ends and the deep adapters above them are notified. The notifications come by feature number, then by the number of the node, then
    /// by position; but the notification at the end that contained the object comes last. Then each adapter, in attach order, loses its
    /// targets that were destroyed. It is notified of REMOVING_ADAPTER from each of these targets, and is given back if it has no other
    /// target. Returns how many objects were destroyed.
    ///
    /// Refused, the first that applies: `NoObject`, `AdapterFull`, `Memory`.
    pub fn delete(&mut self, object: ObjectNo) -> Result<Reply<A>, Refused>
        ensures { Executed self.old (Delete object) (change_outcome (changed_view A.heard result)) self.new }
    {
        self.change(Change::Delete(object))
    }

    /// Carries out a change that loads no document. If the change makes a resource, its URI must be normalised. First looks for the
    /// refusals that are found before planning, and returns the first that applies.
    #[inline(always)]
    pub(super) fn change(&mut self, change: Change) -> Result<Reply<A>, Refused>
        requires proper { IsProper (reads self.old) [] change }
        ensures { Executed self.old (command_of [] change) (change_outcome (changed_view A.heard result)) self.new }
    {
        if let Some(refused) = early_refusal(&self.model(), &change) {
            return Err(refused);
        }
        if change.edits_values_alone(&self.meta) {
            let is_heard = self.hears_values(&change);
            return self.carry_out::<ValuePlan>(change, is_heard);
        }
        if change.edits_links_alone(&self.meta) {
            return self.carry_out::<Plan>(change, self.has_adapters());
        }
        self.carry_out::<AllEdits>(change, self.has_adapters())
    }

    /// Sets an attribute; an adapter may have to be notified of the change. The function is never inlined into the code of a set that
    /// notifies no adapter.
    #[inline(never)]
    pub(super) fn set_heard(&mut self, end: End, value: Value) -> Brief<A>
        requires attribute { (shape self.old.model.metamodel end.feature).is_reference ≡ false }
        ensures { Executed self.old (At end (Set value)) (brief_outcome A.heard answer.Done result) self.new }
    {
        let model = self.model();
        if let Some(refused) = attribute_refusal(&model, end, &value) {
            return Brief::Unheard(Err(refused));
        }
        let (edits, notices) = match plan_set(self.alloc, &model, end, value) {
            Ok(plan) => plan,
            Err(_) => return Brief::Unheard(Err(Refused::Memory)),
        };
        let round = match self.round(notices) {
            Ok(round) => round,
            Err(_) => return Brief::Unheard(Err(Refused::Memory)),
        };
        let answer = Answer::Done;
        let spots = Vec::new(self.alloc);
        Brief::Replied(self.finish(
            Prepared {
                answer,
                edits,
                spots,
            },
            round,
        ))
    }

    /// Whether an adapter may have to be notified of a change that edits only values. This is so if the change is an act at a feature of a
    /// node, and some adapter is notified of changes at this node. A change that makes an object notifies no adapter.
    fn hears_values(&self, change: &Change) -> bool
        requires values { edits_values_alone self.now.model.metamodel change.now ≡ true }
        ensures { result ≡ false → IsUnheard (reads self.now).above (chain (reads self.now) change.now) self.now.adapters }
    {
        match change {
            Change::At(end, _) => self.is_heard(end.node),
            _ => false,
        }
    }

    /// Whether any adapter is attached. Takes no memory.
    pub(super) fn has_adapters(&self) -> bool
        ensures { result ≡ false → (up : Above) (ns : List Notice) → IsUnheard up ns self.now.adapters }
    {
        self.adapters.len() > 0
    }

    /// Carries out a change that is not refused before planning, from its plan to its reply. In `is_heard` the caller passes whether an
    /// adapter may have to be notified; if not, no notification is made. If the change loads a document, the outcome is that of `load` with
    /// a text that is read as this document, whichever text it is. The function is never inlined: otherwise each caller would zero the
    /// stack slots of all kinds of edits.
    #[inline(never)]
    pub(super) fn carry_out<E: Planned>(
        &mut self,
        change: Change,
        is_heard: bool,
    ) -> Result<Reply<A>, Refused>
        requires proper { (text : List ℕ) × IsProper (reads self.old) text change }
        requires asked { early_refusal_of (reads self.old) change ≡ None }
        requires covered { E.covers self.old.model.metamodel change }
        requires heard { is_heard ≡ false → IsUnheard (reads self.old).above (chain (reads self.old) change) self.old.adapters }
        ensures { (text : List ℕ) → IsProper (reads self.old) text change → Executed self.old (command_of text change) (change_outcome (changed_view A.heard result)) self.new }
    {
        let mut chain = Chain::none(self.alloc);
        let model = self.model();
        let prepared = match E::prepare(
            self.alloc,
            &model,
            &self.adapters,
            change,
            is_heard,
            &mut chain,
        ) {
            Ok(prepared) => prepared,
            Err(refused) => return Err(refused),
        };
        if chain.is_empty() && prepared.spots.is_empty() {
            let done = self.edit(prepared.edits);
            return replied(self.alloc, done, prepared.answer);
        }
        let round = match self.round(chain) {
            Ok(round) => round,
            Err(_) => return Err(Refused::Memory),
        };
        self.finish(prepared, round)
    }
}
