//! The adapters of a repository.
ghost use Rattle.std.specs.Prelude.{◌≡◌, length, map, Some, option_map, ok_or};
ghost use Rattle.mm_types.specs.declared.refused.Refused.TheVariants.{NoAdapter};
ghost use Rattle.notice_chain.specs.Listed.{adapter};
ghost use Rattle.repository.specs.Run.{Executed, change_outcome, read_outcome};
ghost use Rattle.repository.specs.Step.{adapters_at_close};
ghost use Rattle.repository.specs.Views.{changed_view, outcome_view};
ghost use Rattle.repository.specs.declared.command.Command.TheVariants.{Attach, Detach, Unwatch, Watch};
ghost use Rattle.repository.specs.Commands as commands;
ghost use Rattle.repository.specs.Leaving.{LetsGo};
ghost use Rattle.repository.specs.declared.reply.Answer.TheVariants as answer;

use super::Repository;
use crate::replies::reply;
use crate::reply::{Answer, Failure, Reply};
use adapter_list::{Release, one_spot, own_spots};
use adapters::Adapter;
use links::LinkStore;
use mm_types::{AdapterNo, Node, Refused, Seq};
use models::node_refusal;
use std::mem;

impl<L: LinkStore, A: Adapter> Repository<L, A> {
    /// Attaches an adapter to a node (EMF: Notifier.eAdapters().add). The node is the adapter's first target, and the adapter is last in
    /// attach order. If `deep`, the adapter is also notified of changes below the node.
    ///
    /// Refused, the first that applies: `NoObject`, `NoResource`, `Limit` if all adapters together have 100,000 targets, `AdapterTaken` if
    /// an adapter with this number is attached, `AdapterFull` if the adapter can't count its last notification, `Memory`. If the attach is
    /// refused, the adapter is given back with the notifications that it had.
    pub fn attach(
        &mut self,
        no: AdapterNo,
        target: Node,
        deep: bool,
        adapter: A,
    ) -> Result<Reply<A>, Failure<A>>
        ensures { Executed self.old (Attach no target deep (A.heard adapter)) (outcome_view A.heard result) self.new }
    {
        if let Some(refused) = node_refusal(&self.model(), target) {
            return Err(Failure {
                refused,
                given_back: Some(adapter),
            });
        }
        if let Err(refused) = self.adapters.attach(no, target, deep, adapter) {
            return Err(Failure {
                refused: refused.reason,
                given_back: Some(refused.adapter),
            });
        }
        self.hearers.forget();
        Ok(reply(self.alloc, Answer::Done))
    }

    /// Gives an adapter one more target, flat or deep (EMF: Notifier.eAdapters().add of an adapter that is attached elsewhere). The adapter
    /// gets each notification once, even if the notifier is below several deep targets of the adapter, or is a target itself and also below
    /// a deep target. Returns whether the adapter got the target. If the node is a target of the adapter already, this is false and nothing
    /// changes: a flat target stays flat, and a deep target stays deep.
    ///
    /// Refused, the first that applies: `NoObject`, `NoResource`, `Limit` if all adapters together have 100,000 targets, `NoAdapter` if no
    /// adapter with this number is attached, `AdapterFull` if the adapter can't count a last notification from each of its targets and from
    /// the new one, `Memory`. If the node is a target of the adapter already, only the first two refusals apply.
    pub fn watch(&mut self, no: AdapterNo, target: Node, deep: bool) -> Result<Reply<A>, Refused>
        ensures { Executed self.old (Watch no target deep) (change_outcome (changed_view A.heard result)) self.new }
    {
        if let Some(refused) = node_refusal(&self.model(), target) {
            return Err(refused);
        }
        let added = match self.adapters.watch(no, target, deep) {
            Ok(added) => added,
            Err(refused) => return Err(refused),
        };
        self.hearers.forget();
        Ok(reply(self.alloc, Answer::Flag(added)))
    }

    /// Takes one target from an adapter. The adapter is notified of REMOVING_ADAPTER, its last notification from that target, and is given
    /// back if it has no other target (EMF: Notifier.eAdapters().remove). Returns whether the node was a target of the adapter. If it was
    /// not, nothing changes and no adapter is notified.
    ///
    /// Refused, the first that applies: `NoObject`, `NoResource`, `NoAdapter` if no adapter with this number is attached, `Memory`.
    pub fn unwatch(&mut self, no: AdapterNo, target: Node) -> Result<Reply<A>, Refused>
        ensures { Executed self.old (Unwatch no target) (change_outcome (changed_view A.heard result)) self.new }
    {
        if let Some(refused) = node_refusal(&self.model(), target) {
            return Err(refused);
        }
        if self.adapters.told(no).is_none() {
            return Err(Refused::NoAdapter);
        }
        let answer = Answer::Flag(self.adapters.is_target(no, target));
        let Ok(spots) = one_spot(self.alloc, no, target) else {
            return Err(Refused::Memory);
        };
        self.release(spots, answer)
    }

    /// Detaches an adapter from all its targets, in the order in which the adapter got the targets (EMF: Notifier.eAdapters().remove). The
    /// adapter is notified of REMOVING_ADAPTER from each target, and is given back.
    ///
    /// Refused with `NoAdapter` if no adapter with this number is attached, or with `Memory`.
    pub fn detach(&mut self, no: AdapterNo) -> Result<Reply<A>, Refused>
        ensures { Executed self.old (Detach no) (change_outcome (changed_view A.heard result)) self.new }
    {
        let Some(targets) = self.adapters.targets(no) else {
            return Err(Refused::NoAdapter);
        };
        let Ok(spots) = own_spots(self.alloc, no, targets) else {
            return Err(Refused::Memory);
        };
        self.release(spots, Answer::Done)
    }

    /// Takes targets from their adapters, and returns a reply with `answer`, the last notifications from these targets, and the adapters
    /// that have no target left. Each pair in `spots` names an adapter and a node; the pair is skipped if the node is no target of the
    /// adapter. Refused only with `Memory`.
    fn release(
        &mut self,
        spots: Vec<(AdapterNo, Node)>,
        answer: Answer,
    ) -> Result<Reply<A>, Refused>
        ensures { LetsGo self.old spots.items answer (changed_view A.heard result) self.new }
    {
        let Ok(release) = Release::new(self.alloc, spots) else {
            return Err(Refused::Memory);
        };
        self.hearers.forget();
        let (told, released) = self.adapters.release(release);
        Ok(Reply {
            answer,
            told: Seq::from_vec(told),
            released: Seq::from_vec(released),
        })
    }

    /// How many notifications an adapter got. Takes no memory. Refused with `NoAdapter` if no adapter with this number is attached.
    #[tactic(auto, using(crate::proofs::QuietLemmas::told_done))]
    pub fn adapter_told(&self, no: AdapterNo) -> Result<u64, Refused>
        ensures read { Executed self.now (commands.adapter_told no) (read_outcome answer.Count result) self.now }
        ensures count { result ≡ ok_or (option_map (λ a. a.view.told) (adapter no self.now.adapters)) NoAdapter }
    {
        match self.adapters.told(no) {
            Some(count) => Ok(count),
            None => Err(Refused::NoAdapter),
        }
    }

    /// How many notifications an adapter keeps. Takes no memory. Refused with `NoAdapter` if no adapter with this number is attached.
    #[tactic(auto, using(crate::proofs::QuietLemmas::kept_done))]
    pub fn adapter_kept(&self, no: AdapterNo) -> Result<u64, Refused>
        ensures read { Executed self.now (commands.adapter_kept no) (read_outcome answer.Count result) self.now }
        ensures count { result ≡ ok_or (option_map (λ a. length a.view.kept) (adapter no self.now.adapters)) NoAdapter }
    {
        match self.adapters.kept_len(no) {
            Some(count) => Ok(count),
            None => Err(Refused::NoAdapter),
        }
    }

    /// Gives every adapter back, in attach order. Each adapter is notified of REMOVING_ADAPTER from each of its targets, and is detached
    /// before the next adapter is notified. Takes no memory.
    pub fn close(self) -> Vec<(AdapterNo, A)>
        ensures { map (λ b. (b.0, A.heard b.1)) result.items ≡ adapters_at_close self }
    {
        let Repository { adapters, .. } = self;
        adapters.close()
    }

    /// Notifies every adapter of REMOVING_ADAPTER and gives it back, as `close` does and in the same order. The call is for a process that
    /// is about to end. The memory of objects, values and links is not freed, since freeing it block by block takes about as long as
    /// allocating it. Takes no memory.
    pub fn close_at_exit(self) -> Vec<(AdapterNo, A)>
        ensures { map (λ b. (b.0, A.heard b.1)) result.items ≡ adapters_at_close self }
    {
        let Repository {
            adapters,
            values,
            store,
            ..
        } = self;
        mem::forget(values);
        mem::forget(store);
        adapters.close()
    }
}
