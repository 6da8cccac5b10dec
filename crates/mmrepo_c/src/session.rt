//! A session, which runs the lines of a script over a metamodel.
ghost use Rattle.std.specs.Prelude.{◌≡◌, IfOk};
ghost use Rattle.repository.specs.declared.command.Command.TheVariants.{Load};
ghost use Rattle.script_lines.specs.Forms as forms;
ghost use Rattle.script_program.specs.Lists.{list_len_printed, list_value_printed};
ghost use Rattle.script_program.specs.Script.{RunsCommand, RunsLine};
ghost use Rattle.script_answers.specs.Turns.{printed_line};
ghost use Rattle.mmrepo_c.specs.Sessions.{AreUnheard, Begins, Reads, answer, running_session};

use adapters::{Adapter, Counter};
use link_store::SlotStore;
use mm_meta::Meta;
use mm_types::{Node, ResourceNo};
use script_answers::Turn;
use script_program::Interpreter;
use std::alloc::{AllocError, Global};

/// How many adapters a session has; lines name them A1 to A1000.
const BOXES: usize = 1000;

/// A repository over a metamodel, the adapters that lines can attach, and the output of the last line, read or load.
#[derive(Drop)]
pub struct Session {
    interpreter: Interpreter<SlotStore, Counter>,
}

/// The adapters of a session, none of which was notified of anything. Fails only if memory is refused.
pub(crate) fn counters(alloc: Global) -> Result<Vec<Counter>, AllocError>
    ensures { IfOk result (λ v. AreUnheard (⟦<Counter as Adapter>⟧.heard) v.items) }
{
    let mut boxes = Vec::with_capacity(alloc, BOXES)?;
    'boxes: while boxes.len() < BOXES {
        boxes.push_reserved(Counter::new());
    }
    Ok(boxes)
}

impl Session {
    /// A session over an empty repository. The session has answered nothing yet. Fails only if memory is refused.
    pub(crate) fn new(alloc: Global, meta: Meta, boxes: Vec<Counter>) -> Result<Session, AllocError>
        requires { AreUnheard (⟦<Counter as Adapter>⟧.heard) boxes.items }
        ensures { IfOk result (Begins meta) }
    {
        Ok(Session {
            interpreter: Interpreter::new(alloc, meta, boxes)?,
        })
    }

    /// Runs a line, and returns how it is counted. Fails only if memory is refused to the run itself, and not to the command of the line.
    pub(crate) fn answer(&mut self, line: &[u8]) -> Result<Turn, AllocError>
        ensures { IfOk result (λ t. RunsLine (running_session self.old) (forms.form line.now) (printed_line (answer self.new) t) (running_session self.new)) }
    {
        self.interpreter.answer(line)
    }

    /// Reads how many values a list has, and returns how the read is counted. Fails only if memory is refused for the text.
    pub(crate) fn list_len(&mut self, node: Node, feature: &str) -> Result<Turn, AllocError>
        ensures { IfOk result (λ t. Reads (running_session self.old) (λ s. list_len_printed s.state node feature.now) (printed_line (answer self.new) t) (running_session self.new)) }
    {
        self.interpreter.list_len(node, feature)
    }

    /// Reads the value at an index of a list, and returns how the read is counted. Fails only if memory is refused for the text.
    pub(crate) fn list_value(
        &mut self,
        node: Node,
        feature: &str,
        index: u32,
    ) -> Result<Turn, AllocError>
        ensures { IfOk result (λ t. Reads (running_session self.old) (λ s. list_value_printed s.state node feature.now index) (printed_line (answer self.new) t) (running_session self.new)) }
    {
        self.interpreter.list_value(node, feature, index)
    }

    /// Loads a document, and returns how the load is counted. Fails only if memory is refused to the call itself, and not to the
    /// repository.
    pub(crate) fn load(&mut self, resource: ResourceNo, document: &[u8]) -> Result<Turn, AllocError>
        ensures { IfOk result (λ t. RunsCommand (running_session self.old) (Load resource document.now) (printed_line (answer self.new) t) (running_session self.new)) }
    {
        self.interpreter.load(resource, document)
    }

    /// The text that the last line, read or load printed.
    pub(crate) fn text(&self) -> &[u8]
        ensures { result.now ≡ answer self.now }
    {
        self.interpreter.text()
    }
}
