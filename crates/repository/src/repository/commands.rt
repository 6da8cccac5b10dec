//! Commands as values.
ghost use Rattle.std.specs.Prelude.{◌≡◌, length, map, IfOk, IfErr, OnErr};
ghost use Rattle.repository.specs.Run.{AllExecuted, Executed, IsRun, answered_outcome, change_outcome};
ghost use Rattle.repository.specs.Views.{changed_view, command_view, outcome_view};
ghost use Rattle.repository.specs.declared.command.Command.TheVariants as command;
ghost use Rattle.repository.specs.declared.command.Command.TheVariants.{At};
ghost use Rattle.mm_types.specs.declared.read.Read.TheVariants as asks;

use super::Repository;
use crate::command::Command;
use crate::replies::{outcome, replied_read};
use crate::reply::{Answer, Failure, Reply};
use adapters::Adapter;
use handshake::{Act, Change};
use links::LinkStore;
use mm_types::{End, EndRead, NodeRead, ObjectNo, ObjectRead, Read, Refused, Tally};

impl<L: LinkStore, A: Adapter> Repository<L, A> {
    /// Executes a command: does what the call for this command does, and is refused as that call is.
    pub fn execute(&mut self, command: Command<A>) -> Result<Reply<A>, Failure<A>>
        ensures { Executed self.old (command_view A.heard command) (outcome_view A.heard result) self.new }
    {
        match command {
            Command::At(end, act) => outcome(self.act(end, act)),
            command => self.execute_other(command),
        }
    }

    /// Does what `execute` does, for a command of any kind. This is a function of its own, so that the stack frame of `execute` stays
    /// small: the frame of this function has a part for each kind of command, and is zeroed at each call.
    #[inline(never)]
    fn execute_other(&mut self, command: Command<A>) -> Result<Reply<A>, Failure<A>>
        ensures { Executed self.old (command_view A.heard command) (outcome_view A.heard result) self.new }
    {
        match command {
            Command::At(end, act) => outcome(self.act(end, act)),
            Command::Create(class) => outcome(self.create(class)),
            Command::Delete(object) => outcome(self.delete(object)),
            Command::CreateResource(text) => outcome(self.create_resource(text.as_str())),
            Command::Load(resource, text) => outcome(self.load_text(resource, text.as_str())),
            Command::ResolveAll => outcome(self.resolve_all()),
            Command::Attach {
                no,
                target,
                deep,
                adapter,
            } => self.attach(no, target, deep, adapter),
            Command::Watch { no, target, deep } => outcome(self.watch(no, target, deep)),
            Command::Unwatch { no, target } => outcome(self.unwatch(no, target)),
            Command::Detach(no) => outcome(self.detach(no)),
            Command::Read(Read::Of(object, ObjectRead::Fragment)) => {
                outcome(self.fragment_reply(object))
            }
            Command::Read(read) => outcome(replied_read(self.alloc, self.read(read))),
        }
    }

    /// Changes the values of a feature of a node, as the call for the act does: `e_set`, `e_unset`, `add`, `remove`, `remove_value`,
    /// `move_to` or `resolve`. Refused as that call is. A resolve at a resource, for which there is no call, is always refused.
    #[inline(always)]
    pub fn act(&mut self, end: End, act: Act) -> Result<Reply<A>, Refused>
        ensures { Executed self.old (At end act) (change_outcome (changed_view A.heard result)) self.new }
    {
        match act {
            Act::Set(value) => self.e_set(end.node, end.feature, value),
            Act::Add(value, index) => self.add(end.node, end.feature, value, index),
            act => self.change(Change::At(end, act)),
        }
    }

    /// The answer of a read, as the call for the read returns it: `e_get`, `e_is_set`, `e_class`, `e_container`, `e_resource`, `validate`,
    /// `fragment`, `e_contents`, `snapshot`, `save`, `object_at`, `adapter_told` or `adapter_kept`. Refused as that call is.
    pub fn read(&self, read: Read) -> Result<Answer, Refused>
        ensures { Executed self.now (command.Read read) (answered_outcome result) self.now }
    {
        match read {
            Read::At(end, read) => self.read_end(end, read),
            Read::Of(object, read) => self.read_object(object, read),
            Read::Under(node, NodeRead::Contents) => Ok(Answer::Objects(self.e_contents(node)?)),
            Read::Under(node, NodeRead::Snapshot) => Ok(Answer::Snapshot(self.snapshot(node)?)),
            Read::Save(resource) => Ok(Answer::Document(self.save(resource)?)),
            Read::ObjectAt(address) => Ok(Answer::Found(self.object_at(address.as_str())?)),
            Read::Adapter(no, Tally::Told) => Ok(Answer::Count(self.adapter_told(no)?)),
            Read::Adapter(no, Tally::Kept) => Ok(Answer::Count(self.adapter_kept(no)?)),
        }
    }

    /// The part of `read` for questions about a feature of a node.
    fn read_end(&self, end: End, read: EndRead) -> Result<Answer, Refused>
        ensures { Executed self.now (command.Read (asks.At end read)) (answered_outcome result) self.now }
    {
        match read {
            EndRead::Get => Ok(self.e_get(end.node, end.feature)?.into_answer()),
            EndRead::IsSet => Ok(Answer::Flag(self.e_is_set(end.node, end.feature)?)),
        }
    }

    /// The part of `read` for questions about an object.
    fn read_object(&self, object: ObjectNo, read: ObjectRead) -> Result<Answer, Refused>
        ensures { Executed self.now (command.Read (asks.Of object read)) (answered_outcome result) self.now }
    {
        match read {
            ObjectRead::Class => Ok(Answer::Class(self.e_class(object)?)),
            ObjectRead::Container => Ok(Answer::Container(self.e_container(object)?)),
            ObjectRead::Resource => Ok(Answer::Within(self.e_resource(object)?)),
            ObjectRead::Validate => Ok(Answer::Features(self.validate(object)?)),
            ObjectRead::Fragment => Ok(Answer::Fragment(self.fragment(object)?)),
        }
    }

    /// Executes commands one after another, and goes on after a refused command. Returns the outcome of each command, in order. If there is
    /// no memory for the list of outcomes, no command is executed, and the commands are given back.
    pub fn run_all(
        &mut self,
        commands: Vec<Command<A>>,
    ) -> Result<Vec<Result<Reply<A>, Failure<A>>>, Vec<Command<A>>>
        ensures steps { IfOk result (λ os. AllExecuted self.old (map (command_view A.heard) commands.items) (map (outcome_view A.heard) os.items) self.new) }
        ensures run { IfOk result (λ os. IsRun self.old (map (command_view A.heard) commands.items) (map (outcome_view A.heard) os.items) self.new) }
        ensures each { IfOk result (λ os. length os.items ≡ length commands.items) }
        ensures given_back { IfErr result (λ cs. cs.items ≡ commands.items) }
        ensures unchanged { OnErr result (self.new ≡ self.old) }
    {
        let Ok(mut outcomes) = Vec::with_capacity(self.alloc, commands.len()) else {
            return Err(commands);
        };
        'commands: for command in commands {
            outcomes.push_reserved(self.execute(command));
        }
        Ok(outcomes)
    }
}
