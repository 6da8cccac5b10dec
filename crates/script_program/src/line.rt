//! Runs one line of a script.
ghost use Rattle.std.specs.Prelude.{◌≡◌, [], Err, true, IfOk, OnErr};
ghost use Rattle.mm_types.specs.Shapes.{shape};
ghost use Rattle.notice_chain.specs.View.{View};
ghost use Rattle.repository.specs.Run.{Executed, change_outcome};
ghost use Rattle.repository.specs.State.{State};
ghost use Rattle.repository.specs.Step.{attached_adapters};
ghost use Rattle.repository.specs.declared.command.Command.{Command as CommandView};
ghost use Rattle.repository.specs.Views.{changed_view, command_view, outcome_view};
ghost use Rattle.repository.specs.Commands.{get};
ghost use Rattle.script_lines.specs.Forms as forms;
ghost use Rattle.script_lines.specs.Source.{bytes_of};
ghost use Rattle.script_lines.specs.declared.form.Form.TheVariants as form;
ghost use Rattle.script_lines.specs.declared.line.Line.TheVariants as asked;
ghost use Rattle.script_program.specs.Answers as a;
ghost use Rattle.script_program.specs.Bind.{IsGiven, pool_of, request_view};
ghost use Rattle.script_program.specs.Pool.{Pool as PoolView};
ghost use Rattle.script_program.specs.Script.{Adds, IsLeft, RunsCommand, RunsLine, RunsRequest};
ghost use Rattle.script_program.specs.Session.{IsBrought, Session, brought_no, pool_after_take, session};
ghost use Rattle.script_program.specs.Summary.{outcome_turn};
ghost use Rattle.script_program.specs.declared.request.Request.TheVariants as request;

use crate::answers::{feature_of, print_found, print_outcome, print_refusal, print_reply};
use crate::bind::{NOTHING, bind};
use crate::frequent::run_frequent;
use crate::pool::Pool;
use crate::request::Request;
use adapters::Adapter;
use frequent_lines::frequent_of;
use links::LinkStore;
use mm_types::{AdapterNo, End, FeatureNo, Refused, ResourceNo};
use repository::{Command, EndRead, Failure, Read, Reply, Repository};
use script_answers::Turn;
use script_lines::{Line, Source, load_parts, text_line_of};
use script_output::Output;
use std::alloc::{AllocError, Global};

/// How a refusal is counted.
pub(crate) fn turn_of_refusal(refused: Refused) -> Turn
    ensures { result ≡ outcome_turn (change_outcome (Err refused)) }
{
    if refused == Refused::Memory {
        Turn::Lost
    } else {
        Turn::Refused
    }
}

/// How the outcome of a command is counted.
fn turn_of<A>(outcome: &Result<Reply<A>, Failure<A>>) -> Turn
    ensures { (heard : A → View) → result ≡ outcome_turn (outcome_view heard outcome.now) }
{
    match outcome {
        Ok(_) => Turn::Done,
        Err(failure) => turn_of_refusal(failure.refused),
    }
}

/// The number of the adapter that a command attaches; `None` if the command attaches none.
fn number_of<A>(command: &Command<A>) -> Option<AdapterNo>
    ensures { (heard : A → View) → result ≡ brought_no (command_view heard command.now) }
{
    match command {
        Command::Attach { no, .. } => Some(*no),
        _ => None,
    }
}

/// Reads a single feature, and prints its value without copying it, or prints the refusal. Fails only if memory is refused for the output.
pub(crate) fn run_get<L: LinkStore, A: Adapter>(
    repository: &Repository<L, A>,
    output: &mut Output,
    end: End,
) -> Result<Turn, AllocError>
    requires single { (shape repository.now.model.metamodel end.feature).is_single ≡ true }
    ensures { (pool : PoolView)
        → IfOk result (λ t. Adds output.old output.new t (λ p. RunsCommand (session repository.now pool) (get end.node end.feature) p (session repository.now pool))) }
{
    match repository.value(end.node, end.feature) {
        Ok(value) => {
            print_found(output, repository.meta(), end.feature, value)?;
            Ok(Turn::Done)
        }
        Err(refused) => {
            print_refusal(output, refused)?;
            Ok(Turn::Refused)
        }
    }
}

/// Prints how often an adapter was notified, and how many notifications it keeps; or the refusal. Fails only if memory is refused for the
/// output.
fn run_seen<L: LinkStore, A: Adapter>(
    repository: &Repository<L, A>,
    output: &mut Output,
    no: AdapterNo,
) -> Result<Turn, AllocError>
    ensures { (pool : PoolView)
        → IfOk result (λ t. Adds output.old output.new t (λ p. RunsRequest (session repository.now pool) (request.Seen no) p (session repository.now pool))) }
{
    match (repository.adapter_told(no), repository.adapter_kept(no)) {
        (Ok(told), Ok(kept)) => {
            output.seen(told, kept)?;
            output.line_end()?;
            Ok(Turn::Done)
        }
        (Err(refused), _) | (_, Err(refused)) => {
            print_refusal(output, refused)?;
            Ok(Turn::Refused)
        }
    }
}

/// Executes a command, and prints its answer. If the command attaches an adapter, the caller must have taken the adapter out of the pool;
/// if such a command is refused, the adapter goes back to the pool. Adapters that the command releases go back to the pool. Fails only if
/// memory is refused for the output; then the command was executed, and no adapter goes back to the pool.
pub(crate) fn run_command<L: LinkStore, A: Adapter>(
    repository: &mut Repository<L, A>,
    pool: &mut Pool<A>,
    output: &mut Output,
    command: Command<A>,
) -> Result<Turn, AllocError>
    ensures ok { (before : PoolView) → pool.old ≡ pool_after_take before (command_view A.heard command) → IsBrought before (command_view A.heard command) → IfOk result (λ t.
        Adds output.old output.new t (λ p. RunsCommand (session repository.old before) (command_view A.heard command) p (session repository.new pool.new))) }
    ensures left { (before : PoolView) → OnErr result (IsLeft (RunsCommand (session repository.old before) (command_view A.heard command)) repository.old repository.new) }
{
    let feature = feature_of(&command);
    let no = number_of(&command);
    let outcome = repository.execute(command);
    print_outcome(output, repository.meta(), feature, &outcome)?;
    let turn = turn_of(&outcome);
    pool.give_back(no, outcome);
    Ok(turn)
}

/// Prints the outcome of a change, and puts the adapters that the change released back into the pool. Fails only if memory is refused for
/// the output. The function is never inlined into the code of a change that notifies no adapter.
#[inline(never)]
pub(crate) fn finish_change<L: LinkStore, A: Adapter>(
    repository: &Repository<L, A>,
    pool: &mut Pool<A>,
    output: &mut Output,
    feature: FeatureNo,
    outcome: Result<Reply<A>, Refused>,
) -> Result<Turn, AllocError>
    ensures { (s : State) (k : CommandView View) → attached_adapters k ≡ [] → a.feature_of k ≡ feature → Executed s k (change_outcome (changed_view A.heard outcome)) repository.now
        → IfOk result (λ t. Adds output.old output.new t (λ p. RunsCommand (session s pool.old) k p (session repository.now pool.new))) }
{
    match outcome {
        Ok(reply) => {
            print_reply(output, repository.meta(), feature, &reply)?;
            pool.put_all(reply.released.into_vec());
            Ok(Turn::Done)
        }
        Err(refused) => {
            print_refusal(output, refused)?;
            Ok(turn_of_refusal(refused))
        }
    }
}

/// Does what a request asks for, and prints the answer. Fails only if memory is refused for the output.
fn run_request<L: LinkStore, A: Adapter>(
    repository: &mut Repository<L, A>,
    pool: &mut Pool<A>,
    output: &mut Output,
    request: Request<A>,
) -> Result<Turn, AllocError>
    ensures ok { (before : PoolView) → pool.old ≡ pool_of before (request_view A.heard request) → IsGiven before (request_view A.heard request)
        → IfOk result (λ t. Adds output.old output.new t (λ p. RunsRequest (session repository.old before) (request_view A.heard request)
        p (session repository.new pool.new))) }
    ensures left { (before : PoolView) → OnErr result (IsLeft (RunsRequest (session repository.old before) (request_view A.heard request)) repository.old repository.new) }
{
    match request {
        Request::Execute(Command::Read(Read::At(end, EndRead::Get)))
            if repository.meta().is_single(end.feature) => { run_get(repository, output, end) }
        Request::Execute(command) => run_command(repository, pool, output, command),
        Request::Seen(no) => run_seen(repository, output, no),
        Request::Refuse(refused) => print_as_refused(output, refused),
    }
}

/// Prints the refusal of a request that does not reach the repository. Fails only if memory is refused for the output.
fn print_as_refused(output: &mut Output, refused: Refused) -> Result<Turn, AllocError>
    ensures { (s : Session) → IfOk result (λ t. Adds output.old output.new t (λ p. RunsRequest s (request.Refuse refused) p s)) }
{
    print_refusal(output, refused)?;
    Ok(Turn::Refused)
}

/// Adds what a bad line prints: the text `bad line` and a newline. Fails only if memory is refused for this text.
pub(crate) fn print_bad(output: &mut Output) -> Result<Turn, AllocError>
    ensures { (s : Session) → IfOk result (λ t. Adds output.old output.new t (λ p. RunsLine s asked.Bad p s)) }
{
    output.text("bad line\n")?;
    Ok(Turn::Bad)
}

/// Loads a document into a resource, and prints the answer. This function is never inlined into `run_text`, since the frame of `run_text`
/// would then be larger for every line. Fails only if memory is refused for the output.
#[inline(never)]
fn run_load<L: LinkStore, A: Adapter>(
    repository: &mut Repository<L, A>,
    pool: &mut Pool<A>,
    output: &mut Output,
    resource: ResourceNo,
    document: &str,
) -> Result<Turn, AllocError>
    ensures ok { IfOk result (λ t. Adds output.old output.new t (λ p. RunsLine (session repository.old pool.old) (asked.Form (form.Load resource document.now)) p (session repository.new pool.new))) }
    ensures left { OnErr result (IsLeft (RunsLine (session repository.old pool.old) (asked.Form (form.Load resource document.now))) repository.old repository.new) }
{
    let outcome = repository.load_text(resource, document);
    finish_change(repository, pool, output, FeatureNo(NOTHING), outcome)
}

/// Runs a line, given as a text: parses the line, runs its command and prints the answer. A blank line prints nothing, and a bad line
/// prints `bad line`.
///
/// Fails only if memory is refused for a text that the line has, or for the output.
#[inline(never)]
fn run_text<L: LinkStore, A: Adapter>(
    alloc: Global,
    text: &str,
    repository: &mut Repository<L, A>,
    pool: &mut Pool<A>,
    output: &mut Output,
) -> Result<Turn, AllocError>
    ensures ok { IfOk result (λ t. Adds output.old output.new t (λ p. RunsLine (session repository.old pool.old) (forms.text_line text.now) p (session repository.new pool.new))) }
    ensures left { OnErr result (IsLeft (RunsLine (session repository.old pool.old) (forms.text_line text.now)) repository.old repository.new) }
{
    if let Some((resource, document)) = load_parts(text) {
        return run_load(repository, pool, output, resource, document);
    }
    match text_line_of(alloc, text)? {
        Line::Blank => Ok(Turn::Blank),
        Line::Bad => print_bad(output),
        Line::Form(form) => {
            let request = bind(repository, pool, form);
            run_request(repository, pool, output, request)
        }
    }
}

/// Runs a line, given as a text: by `run_frequent` if `frequent_of` reads the line, else by `run_text`.
///
/// Fails as `run_line` does.
fn run_text_line<L: LinkStore, A: Adapter>(
    alloc: Global,
    repository: &mut Repository<L, A>,
    pool: &mut Pool<A>,
    output: &mut Output,
    text: &str,
) -> Result<Turn, AllocError>
    ensures ok { IfOk result (λ t. Adds output.old output.new t (λ p. RunsLine (session repository.old pool.old) (forms.text_line text.now) p (session repository.new pool.new))) }
    ensures left { OnErr result (IsLeft (RunsLine (session repository.old pool.old) (forms.text_line text.now)) repository.old repository.new) }
{
    match frequent_of(text) {
        Some(line) => run_frequent(alloc, repository, pool, output, line),
        None => run_text(alloc, text, repository, pool, output),
    }
}

/// Runs a line: parses it, runs its command and prints the answer. A blank line prints nothing. A line that is bad, for example because it
/// is not UTF-8, prints `bad line`.
///
/// Fails only if memory is refused for a text that the line has, or for the output; then the repository is as it was, or as the line leaves
/// it. If memory is refused to the repository, the line prints `refused 28 MEMORY`.
#[inline(always)]
pub(crate) fn run_line<L: LinkStore, A: Adapter>(
    alloc: Global,
    repository: &mut Repository<L, A>,
    pool: &mut Pool<A>,
    output: &mut Output,
    line: Source<'_>,
) -> Result<Turn, AllocError>
    ensures ok { IfOk result (λ t. Adds output.old output.new t (λ p. RunsLine (session repository.old pool.old) (forms.form (bytes_of line.entry)) p (session repository.new pool.new))) }
    ensures left { OnErr result (IsLeft (RunsLine (session repository.old pool.old) (forms.form (bytes_of line.entry))) repository.old repository.new) }
{
    match line.text_of_line() {
        Some(text) => run_text_line(alloc, repository, pool, output, text),
        None => print_bad(output),
    }
}
