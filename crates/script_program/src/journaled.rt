//! Lines whose changes a journal keeps.
ghost use Rattle.std.specs.Prelude.{◌≡◌, false, IfOk};
ghost use Rattle.script_lines.specs.Forms.{form};
ghost use Rattle.script_program.specs.Kept.{asks_change, edits, has_fault, journal_turn, line_asks, lines_run, session_of};
ghost use Rattle.script_program.specs.Session.{first_session};

use crate::interpreter::Interpreter;
use crate::listener::Listener;
use adapters::Adapter;
use durable::Session;
use links::LinkStore;
use mm_meta::Meta;
use repository::Repository;
use script_answers::Turn;
use script_lines::{FeatureForm, Form, Line, parse_line};
use std::alloc::{AllocError, Global};

/// An interpreter that returns for each line whether a journal has to keep the line. A journal keeps a line if the line asks for a change
/// of the model, and the change was done.
#[derive(Drop)]
pub struct Journaled<L: LinkStore, A: Adapter, H: Listener> {
    alloc: Global,
    interpreter: Interpreter<L, A>,
    /// The listener that is called with each line.
    listener: H,
    /// How many lines the interpreter has run.
    lines: u64,
    /// Whether at least one line that the interpreter has run was refused, or bad.
    is_faulty: bool,
}

/// Whether a form asks for a change of the model.
fn is_change(form: &Form<'_>) -> bool
    ensures { result ≡ asks_change form.now }
{
    match form {
        Form::At {
            form: FeatureForm::Read(_),
            ..
        } => false,
        Form::At { .. }
        | Form::New { .. }
        | Form::Resource(_)
        | Form::ResolveAll
        | Form::Load { .. }
        | Form::Delete(_) => true,
        _ => false,
    }
}

/// Whether a line asks for a change of the model. Fails only if memory is refused for a text that the line has.
fn asks_for_change(alloc: Global, line: &[u8]) -> Result<bool, AllocError>
    ensures { IfOk result (λ b. b ≡ line_asks (form line.now)) }
{
    match parse_line(alloc, line)? {
        Line::Form(form) => Ok(is_change(&form)),
        _ => Ok(false),
    }
}

/// How a line that was run counts for a journal; `turn` is how the interpreter counts the line. Fails only if memory is refused for a text
/// that the line has.
fn turn_of(alloc: Global, line: &[u8], turn: Turn) -> Result<durable::JournalTurn, AllocError>
    ensures { IfOk result (λ t. t ≡ journal_turn (line_asks (form line.now)) turn) }
{
    match turn {
        Turn::Done => {
            if asks_for_change(alloc, line)? {
                Ok(durable::JournalTurn::Kept)
            } else {
                Ok(durable::JournalTurn::Other)
            }
        }
        Turn::Lost => Ok(durable::JournalTurn::Lost),
        _ => Ok(durable::JournalTurn::Other),
    }
}

/// Calls a listener with the line that an interpreter ran last, if the listener has to be called.
fn tell<L: LinkStore, A: Adapter, H: Listener>(
    listener: &mut H,
    interpreter: &Interpreter<L, A>,
    line: &[u8],
) {
    if listener.is_listening() {
        listener.line_was_run(interpreter.repository(), line, interpreter.text());
    }
}

impl<L: LinkStore, A: Adapter, H: Listener> Journaled<L, A, H> {
    /// An interpreter over an empty repository of a metamodel. The adapters are named A1, A2 and so on, in the order of `boxes`. The
    /// listener is called with each line. Fails only if memory is refused.
    pub fn new(alloc: Global, meta: Meta, boxes: Vec<A>, listener: H) -> Result<Self, AllocError>
        ensures begin { IfOk result (λ j. session_of j ≡ first_session A.heard meta boxes.items) }
        ensures lines { IfOk result (λ j. lines_run j ≡ 0) }
        ensures faulty { IfOk result (λ j. has_fault j ≡ false) }
    {
        Ok(Journaled {
            alloc,
            interpreter: Interpreter::new(alloc, meta, boxes)?,
            listener,
            lines: 0,
            is_faulty: false,
        })
    }

    /// Calls `script_begins` of the listener. The caller must have run all lines of the journal; the next line must be the first line of a
    /// script.
    pub(crate) fn begin_script(&mut self)
        ensures { session_of self.new ≡ session_of self.old }
    {
        self.listener.script_begins();
    }

    /// The repository.
    pub fn repository(&self) -> &Repository<L, A>
        ensures { result.now ≡ (session_of self.now).state }
    {
        self.interpreter.repository()
    }

    /// How many lines the interpreter has run.
    pub fn lines(&self) -> u64
        ensures { result ≡ lines_run self.now }
    {
        self.lines
    }

    /// Whether at least one line that the interpreter has run was refused, or bad.
    pub fn is_faulty(&self) -> bool
        ensures { result ≡ has_fault self.now }
    {
        self.is_faulty
    }
}

impl<L: LinkStore, A: Adapter, H: Listener> Session for Journaled<L, A, H> {
    ghost use Rattle.script_program.specs.Kept.{RunsJournaled};

    ghost runs = { λ j l p k. RunsJournaled (session_of j) l p (session_of k) };

    fn answer(
        &mut self,
        line: &[u8],
        text: &mut Vec<u8>,
    ) -> Result<durable::JournalTurn, AllocError> {
        let turn = self.interpreter.answer(line)?;
        tell(&mut self.listener, &self.interpreter, line);
        text.extend_from_slice(self.interpreter.text())?;
        self.lines = self.lines.saturating_add(1);
        self.is_faulty = self.is_faulty || turn.is_fault();
        turn_of(self.alloc, line, turn)
    }
}
