//! Calls that no line of a script makes: reads of the length or of one value of a list, and loads of documents of any length.
ghost use Rattle.std.specs.Prelude.{◌≡◌, IfOk};
ghost use Rattle.repository.specs.declared.command.Command.TheVariants.{Load};
ghost use Rattle.script_program.specs.Lists.{list_len_printed, list_value_printed};
ghost use Rattle.script_program.specs.Script.{RunsCommand};
ghost use Rattle.script_program.specs.Session.{session};
ghost use Rattle.script_answers.specs.Turns.{printed_line};

use super::Interpreter;
use crate::answers::{print_found, print_refusal};
use crate::bind::{NOTHING, feature_number};
use crate::line::finish_change;
use adapters::Adapter;
use links::LinkStore;
use mm_types::{FeatureNo, Node, ResourceNo};
use script_answers::Turn;
use std::alloc::AllocError;

impl<L: LinkStore, A: Adapter> Interpreter<L, A> {
    /// Reads how many values a list has, and returns how the read is counted. After this call `text` returns the number, or the refusal.
    ///
    /// Fails only if memory is refused for the text.
    pub fn list_len(&mut self, node: Node, feature: &str) -> Result<Turn, AllocError>
        ensures kept { session self.new.repository self.new.pool ≡ session self.old.repository self.old.pool }
        ensures text { IfOk result (λ t. printed_line self.new.output t ≡ list_len_printed self.old.repository node feature.now) }
    {
        self.output.clear();
        let feature = feature_number(&self.repository, node, feature);
        match self.repository.list_len(node, feature) {
            Ok(len) => {
                self.output.natural(u64::from(len))?;
                self.output.line_end()?;
                Ok(Turn::Done)
            }
            Err(refused) => {
                print_refusal(&mut self.output, refused)?;
                Ok(Turn::Refused)
            }
        }
    }

    /// Reads the value at an index of a list, and returns how the read is counted. After this call `text` returns the value, printed as
    /// `get` prints the value of a single feature. If the read is refused, `text` returns the refusal.
    ///
    /// Fails only if memory is refused for the text.
    pub fn list_value(&mut self, node: Node, feature: &str, index: u32) -> Result<Turn, AllocError>
        ensures kept { session self.new.repository self.new.pool ≡ session self.old.repository self.old.pool }
        ensures text { IfOk result (λ t. printed_line self.new.output t ≡ list_value_printed self.old.repository node feature.now index) }
    {
        self.output.clear();
        let feature = feature_number(&self.repository, node, feature);
        match self.repository.list_value(node, feature, index) {
            Ok(found) => {
                print_found(
                    &mut self.output,
                    self.repository.meta(),
                    feature,
                    Some(found),
                )?;
                Ok(Turn::Done)
            }
            Err(refused) => {
                print_refusal(&mut self.output, refused)?;
                Ok(Turn::Refused)
            }
        }
    }

    /// Loads a document into a resource, as a line with `load` does. The document may have any length, and newlines. Returns how the load
    /// is counted. After this call `text` returns the output of the load.
    ///
    /// Fails only if memory is refused for the text; then no contract determines the state of the interpreter.
    pub fn load(&mut self, resource: ResourceNo, document: &[u8]) -> Result<Turn, AllocError>
        ensures { IfOk result (λ t. RunsCommand (session self.old.repository self.old.pool) (Load resource document.now) (printed_line self.new.output t)
            (session self.new.repository self.new.pool)) }
    {
        self.output.clear();
        let outcome = self.repository.load(resource, document);
        let (pool, output) = (&mut self.pool, &mut self.output);
        finish_change(&self.repository, pool, output, FeatureNo(NOTHING), outcome)
    }
}
