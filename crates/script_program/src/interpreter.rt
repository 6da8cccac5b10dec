//! An interpreter, which runs lines one at a time.
ghost use Rattle.std.specs.Prelude.{◌≡◌, [], IfOk};
ghost use Rattle.script_lines.specs.Forms as forms;
ghost use Rattle.script_program.specs.Script.{RunsLine};
ghost use Rattle.script_program.specs.Session.{first_session, session};
ghost use Rattle.script_answers.specs.Turns.{printed_line};

mod calls;

use crate::line::run_line;
use crate::pool::Pool;
use adapters::Adapter;
use links::LinkStore;
use mm_meta::Meta;
use repository::Repository;
use script_answers::Turn;
use script_lines::Source;
use script_output::Output;
use std::alloc::{AllocError, Global};

/// A repository, the adapters that lines can attach, and the output that `text` returns.
#[derive(Drop)]
pub struct Interpreter<L: LinkStore, A: Adapter> {
    alloc: Global,
    repository: Repository<L, A>,
    pool: Pool<A>,
    output: Output,
}

impl<L: LinkStore, A: Adapter> Interpreter<L, A> {
    /// An interpreter that has run no line and printed nothing, over an empty repository of a metamodel. The adapters are named A1, A2 and
    /// so on, in the order of `boxes`. Fails only if memory is refused.
    pub fn new(alloc: Global, meta: Meta, boxes: Vec<A>) -> Result<Self, AllocError>
        ensures begin { IfOk result (λ i. session i.repository i.pool ≡ first_session A.heard meta boxes.items) }
        ensures text { IfOk result (λ i. i.output ≡ []) }
    {
        let pool = Pool::new(alloc, boxes)?;
        Ok(Interpreter {
            alloc,
            repository: Repository::new(alloc, meta),
            pool,
            output: Output::new(alloc),
        })
    }

    /// Runs a line, and returns how it is counted. After this call `text` returns the output of the line.
    ///
    /// Fails only if memory is refused for a text that the line has, or for the output; then no contract determines the state of the
    /// interpreter. If memory is refused to the repository, the line prints `refused 28 MEMORY`, and nothing has changed.
    pub fn answer(&mut self, line: &[u8]) -> Result<Turn, AllocError>
        ensures { IfOk result (λ t. RunsLine (session self.old.repository self.old.pool) (forms.form line.now) (printed_line self.new.output t)
            (session self.new.repository self.new.pool)) }
    {
        self.output.clear();
        run_line(
            self.alloc,
            &mut self.repository,
            &mut self.pool,
            &mut self.output,
            Source::Bytes(line),
        )
    }

    /// The repository.
    pub fn repository(&self) -> &Repository<L, A>
        ensures { result.now ≡ self.now.repository }
    {
        &self.repository
    }

    /// What the last call of `answer`, `list_len`, `list_value` or `load` printed; empty if there was no such call.
    pub fn text(&self) -> &[u8]
        ensures { result.now ≡ self.now.output }
    {
        self.output.as_bytes()
    }
}
