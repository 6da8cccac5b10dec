//! Runs lines of the most frequent forms. Most functions here call the repository directly: to make a command of a line, or to take a reply
//! apart, would take longer than the change itself. For this reason a creation makes no reply. If a set, or an addition to a reference,
//! notifies no adapter, it mostly makes no reply either.
ghost use Rattle.std.specs.Prelude.{◌≡◌, Err, IfOk, MatchOption, None, Ok, OnErr, Some};
ghost use Rattle.mm_types.specs.Resolved.{Metamodel};
ghost use Rattle.mm_types.specs.declared.end.End.{End};
ghost use Rattle.notice_chain.specs.View.{View};
ghost use Rattle.repository.specs.Run.{change_outcome, read_outcome};
ghost use Rattle.repository.specs.declared.command.Command.{Command};
ghost use Rattle.repository.specs.declared.command.Command.TheVariants.{At};
ghost use Rattle.repository.specs.Commands.{container, fragment as fragment_of};
ghost use Rattle.repository.specs.declared.reply.Answer.{Answer};
ghost use Rattle.repository.specs.declared.reply.Answer.TheVariants as answer;
ghost use Rattle.frequent_lines.specs.Frequent.{act_line, bare_form, frequent_line};
ghost use Rattle.frequent_lines.specs.declared.frequent_act.FrequentAct.TheVariants as act;
ghost use Rattle.script_program.specs.Answers.{feature_of, unheard_text};
ghost use Rattle.script_program.specs.Bind as b;
ghost use Rattle.script_program.specs.Pool.{Pool as PoolView};
ghost use Rattle.script_program.specs.Script.{Adds, IsLeft, RunsCommand, RunsLine, command_printed};
ghost use Rattle.script_program.specs.Session.{session};

use crate::answers::print_refusal;
use crate::bind::{class_number, feature_number, value_in};
use crate::line::{finish_change, print_bad, run_command, run_get, turn_of_refusal};
use crate::pool::Pool;
use adapters::Adapter;
use frequent_lines::{BareAct, Frequent, FrequentAct};
use handshake::Act;
use links::LinkStore;
use mm_types::{End, Node, ObjectNo, Refused, Text};
use repository::{Brief, Command, EndRead, Read, Repository};
use script_answers::Turn;
use script_lines::{Name, value_of};
use script_output::Output;
use std::alloc::{AllocError, Global};

/// Prints the refusal of a command that attaches no adapter. Fails only if memory is refused for the output.
fn print_refused(output: &mut Output, refused: Refused) -> Result<Turn, AllocError>
    ensures { (m : Metamodel) (c : Command View) → IfOk result (λ t. Adds output.old output.new t (λ p. p ≡ command_printed m c (change_outcome (Err refused)))) }
{
    print_refusal(output, refused)?;
    Ok(turn_of_refusal(refused))
}

/// Runs a line that asks for the value of a feature of an object: prints the value, the values of a list, or the refusal. Fails only if
/// memory is refused for the output.
fn run_read<L: LinkStore, A: Adapter>(
    repository: &mut Repository<L, A>,
    pool: &mut Pool<A>,
    output: &mut Output,
    object: ObjectNo,
    name: &str,
) -> Result<Turn, AllocError>
    ensures ok { IfOk result (λ t. Adds output.old output.new t (λ p. RunsLine (session repository.old pool.old) (act_line object name.now act.Get) p (session repository.new pool.new))) }
    ensures left { OnErr result (IsLeft (RunsLine (session repository.old pool.old) (act_line object name.now act.Get)) repository.old repository.new) }
{
    let node = Node::Object(object);
    let feature = feature_number(repository, node, name);
    let end = End { node, feature };
    if repository.meta().is_single(feature) {
        run_get(repository, output, end)
    } else {
        let read = Read::At(end, EndRead::Get);
        run_command(repository, pool, output, Command::Read(read))
    }
}

/// Prints an object that was created. Fails only if memory is refused for the output.
fn print_object(output: &mut Output, object: ObjectNo) -> Result<Turn, AllocError>
    ensures { (m : Metamodel) (c : Command View) → IfOk result (λ t. Adds output.old output.new t
        (λ p. p ≡ command_printed m c (read_outcome answer.Object (Ok object)))) }
{
    output.node(Node::Object(object))?;
    output.line_end()?;
    Ok(Turn::Done)
}

/// Creates an object of a class, and prints the answer. Fails only if memory is refused for the output.
fn run_create<L: LinkStore, A: Adapter>(
    repository: &mut Repository<L, A>,
    output: &mut Output,
    class: Name<'_>,
) -> Result<Turn, AllocError>
    ensures ok { (pool : PoolView)
        → IfOk result (λ t. Adds output.old output.new t (λ p. RunsCommand (session repository.old pool) (b.create_command repository.old.model.metamodel class.entry) p (session repository.new pool))) }
    ensures left { (pool : PoolView)
        → OnErr result (IsLeft (RunsCommand (session repository.old pool) (b.create_command repository.old.model.metamodel class.entry)) repository.old repository.new) }
{
    let class = class_number(repository.meta(), class.as_str());
    match repository.create_object(class) {
        Ok(object) => print_object(output, object),
        Err(refused) => print_refused(output, refused),
    }
}

/// Prints the object that contains `object`, `null` if no object contains `object`, or the refusal. Fails only if memory is refused for the
/// output.
fn run_container<L: LinkStore, A: Adapter>(
    repository: &Repository<L, A>,
    output: &mut Output,
    object: ObjectNo,
) -> Result<Turn, AllocError>
    ensures { (pool : PoolView)
        → IfOk result (λ t. Adds output.old output.new t (λ p. RunsCommand (session repository.now pool) (container object) p (session repository.now pool))) }
{
    match repository.e_container(object) {
        Ok(container) => {
            output.node_or_null(container.map(Node::Object))?;
            output.line_end()?;
            Ok(Turn::Done)
        }
        Err(refused) => print_refused(output, refused),
    }
}

/// Prints a fragment. Fails only if memory is refused for the output.
fn print_fragment(output: &mut Output, fragment: &Text) -> Result<Turn, AllocError>
    ensures { (m : Metamodel) (c : Command View) → IfOk result (λ t. Adds output.old output.new t
        (λ p. p ≡ command_printed m c (read_outcome answer.Fragment (Ok fragment.now)))) }
{
    output.json(fragment.as_str())?;
    output.line_end()?;
    Ok(Turn::Done)
}

/// Prints the fragment of an object, or the refusal. If there is memory, the repository also remembers the fragment. Fails only if memory
/// is refused for the output.
#[inline(never)]
fn run_fragment<L: LinkStore, A: Adapter>(
    repository: &mut Repository<L, A>,
    output: &mut Output,
    object: ObjectNo,
) -> Result<Turn, AllocError>
    ensures ok { (pool : PoolView)
        → IfOk result (λ t. Adds output.old output.new t (λ p. RunsCommand (session repository.old pool) (fragment_of object) p (session repository.new pool))) }
    ensures left { (pool : PoolView)
        → OnErr result (IsLeft (RunsCommand (session repository.old pool) (fragment_of object)) repository.old repository.new) }
{
    match repository.remembered_fragment(object) {
        Ok(fragment) => print_fragment(output, &fragment),
        Err(refused) => print_refused(output, refused),
    }
}

/// Prints the outcome of a change that notified no adapter; `done` is the line that is printed if the change was done. Fails only if memory
/// is refused for the output.
#[inline(always)]
fn print_change(
    output: &mut Output,
    outcome: Result<(), Refused>,
    done: &str,
) -> Result<Turn, AllocError>
    ensures { (m : Metamodel) (c : Command View) (a : Answer) → done.now ≡ unheard_text m (feature_of c) a
        → IfOk result (λ t. Adds output.old output.new t (λ p. p ≡ command_printed m c (read_outcome (λ u. a) outcome))) }
{
    match outcome {
        Ok(()) => {
            output.short_text(done)?;
            Ok(Turn::Done)
        }
        Err(refused) => print_refused(output, refused),
    }
}

/// Does an act at an end, and prints the answer. Fails only if memory is refused for the output.
#[inline(always)]
fn run_act<L: LinkStore, A: Adapter>(
    repository: &mut Repository<L, A>,
    pool: &mut Pool<A>,
    output: &mut Output,
    end: End,
    act: Act,
) -> Result<Turn, AllocError>
    ensures ok { IfOk result (λ t. Adds output.old output.new t (λ p. RunsCommand (session repository.old pool.old) (At end act) p (session repository.new pool.new))) }
    ensures left { OnErr result (IsLeft (RunsCommand (session repository.old pool.old) (At end act)) repository.old repository.new) }
{
    let outcome = repository.act(end, act);
    finish_change(repository, pool, output, end.feature, outcome)
}

/// Runs a line that sets a feature of an object to a value, written as `word`. If `word` is no value, the line is bad. Fails only if memory
/// is refused for the output, or for a value that is a text.
#[inline(always)]
fn run_set<L: LinkStore, A: Adapter>(
    alloc: Global,
    repository: &mut Repository<L, A>,
    pool: &mut Pool<A>,
    output: &mut Output,
    object: ObjectNo,
    name: &str,
    word: &str,
) -> Result<Turn, AllocError>
    ensures ok { IfOk result (λ t. Adds output.old output.new t (λ p. RunsLine (session repository.old pool.old) (act_line object name.now (act.Set word.now)) p (session repository.new pool.new))) }
    ensures left { OnErr result (IsLeft (RunsLine (session repository.old pool.old) (act_line object name.now (act.Set word.now))) repository.old repository.new) }
{
    let Some(written) = value_of(alloc, word)? else {
        return print_bad(output);
    };
    let node = Node::Object(object);
    let feature = feature_number(repository, node, name);
    let value = value_in(repository.meta(), feature, written);
    match repository.set_brief(node, feature, value) {
        Brief::Unheard(outcome) => print_change(output, outcome, "ok\n"),
        Brief::Replied(outcome) => finish_change(repository, pool, output, feature, outcome),
    }
}

/// Runs a line that adds a value, written as `word`, to a list of an object: at `index` or, if `index` is `None`, at the end. If `word` is
/// no value, the line is bad. Fails only if memory is refused for the output, or for a value that is a text.
#[inline(always)]
fn run_add<L: LinkStore, A: Adapter>(
    alloc: Global,
    repository: &mut Repository<L, A>,
    pool: &mut Pool<A>,
    output: &mut Output,
    object: ObjectNo,
    name: &str,
    word: &str,
    index: Option<u32>,
) -> Result<Turn, AllocError>
    ensures ok { IfOk result (λ t. Adds output.old output.new t (λ p. RunsLine (session repository.old pool.old) (act_line object name.now (act.Add word.now index)) p (session repository.new pool.new))) }
    ensures left { OnErr result (IsLeft (RunsLine (session repository.old pool.old) (act_line object name.now (act.Add word.now index))) repository.old repository.new) }
{
    let Some(written) = value_of(alloc, word)? else {
        return print_bad(output);
    };
    let node = Node::Object(object);
    let feature = feature_number(repository, node, name);
    let value = value_in(repository.meta(), feature, written);
    match repository.add_brief(node, feature, value, index) {
        Brief::Unheard(outcome) => print_change(output, outcome, "true\n"),
        Brief::Replied(outcome) => finish_change(repository, pool, output, feature, outcome),
    }
}

/// Runs a line that takes the first occurrence of a value, written as `word`, out of a list of an object. If `word` is no value, the line
/// is bad. Fails only if memory is refused for the output, or for a value that is a text.
#[inline(never)]
fn run_remove_value<L: LinkStore, A: Adapter>(
    alloc: Global,
    repository: &mut Repository<L, A>,
    pool: &mut Pool<A>,
    output: &mut Output,
    object: ObjectNo,
    name: &str,
    word: &str,
) -> Result<Turn, AllocError>
    ensures ok { IfOk result (λ t. Adds output.old output.new t (λ p. RunsLine (session repository.old pool.old) (act_line object name.now (act.RemoveValue word.now)) p (session repository.new pool.new))) }
    ensures left { OnErr result (IsLeft (RunsLine (session repository.old pool.old) (act_line object name.now (act.RemoveValue word.now))) repository.old repository.new) }
{
    let Some(written) = value_of(alloc, word)? else {
        return print_bad(output);
    };
    let node = Node::Object(object);
    let feature = feature_number(repository, node, name);
    let value = value_in(repository.meta(), feature, written);
    let end = End { node, feature };
    run_act(repository, pool, output, end, Act::RemoveValue(value))
}

/// The act of the repository that an act without a value asks for.
#[inline(always)]
fn act_of(bare: BareAct) -> Act
    ensures { (m : Metamodel) (e : End) → b.at_command {A = View} m e (bare_form bare) ≡ At e result }
{
    match bare {
        BareAct::Unset => Act::Unset,
        BareAct::Remove(index) => Act::Remove(index),
        BareAct::Move { to, from } => Act::Move { to, from },
        BareAct::Resolve(index) => Act::Resolve(index),
    }
}

/// Does an act that has no value (`unset`, `remove`, `move` or `resolve`) at a feature of an object, and prints the answer. Fails only if
/// memory is refused for the output.
#[inline(never)]
fn run_bare_act<L: LinkStore, A: Adapter>(
    repository: &mut Repository<L, A>,
    pool: &mut Pool<A>,
    output: &mut Output,
    object: ObjectNo,
    name: &str,
    bare: BareAct,
) -> Result<Turn, AllocError>
    ensures ok { IfOk result (λ t. Adds output.old output.new t (λ p. RunsLine (session repository.old pool.old) (act_line object name.now (act.Bare bare)) p (session repository.new pool.new))) }
    ensures left { OnErr result (IsLeft (RunsLine (session repository.old pool.old) (act_line object name.now (act.Bare bare))) repository.old repository.new) }
{
    let node = Node::Object(object);
    let feature = feature_number(repository, node, name);
    let end = End { node, feature };
    run_act(repository, pool, output, end, act_of(bare))
}

/// Asks whether a feature of an object is set, and prints the answer. Fails only if memory is refused for the output.
#[inline(never)]
fn run_is_set<L: LinkStore, A: Adapter>(
    repository: &mut Repository<L, A>,
    pool: &mut Pool<A>,
    output: &mut Output,
    object: ObjectNo,
    name: &str,
) -> Result<Turn, AllocError>
    ensures ok { IfOk result (λ t. Adds output.old output.new t (λ p. RunsLine (session repository.old pool.old) (act_line object name.now act.IsSet) p (session repository.new pool.new))) }
    ensures left { OnErr result (IsLeft (RunsLine (session repository.old pool.old) (act_line object name.now act.IsSet)) repository.old repository.new) }
{
    let node = Node::Object(object);
    let feature = feature_number(repository, node, name);
    let read = Read::At(End { node, feature }, EndRead::IsSet);
    run_command(repository, pool, output, Command::Read(read))
}

/// Does `act` at a feature of an object, and prints the answer. `act` changes the feature, asks for its value, or asks whether the feature
/// is set. If the word of `act` for a value is no value, the line is bad.
///
/// Fails only if memory is refused for the output, or for a value of the line that is a text.
#[inline(always)]
fn run_at<L: LinkStore, A: Adapter>(
    alloc: Global,
    repository: &mut Repository<L, A>,
    pool: &mut Pool<A>,
    output: &mut Output,
    object: ObjectNo,
    name: Name<'_>,
    act: FrequentAct<'_>,
) -> Result<Turn, AllocError>
    ensures ok { IfOk result (λ t. Adds output.old output.new t (λ p. RunsLine (session repository.old pool.old) (act_line object name.entry act.entry) p (session repository.new pool.new))) }
    ensures left { OnErr result (IsLeft (RunsLine (session repository.old pool.old) (act_line object name.entry act.entry)) repository.old repository.new) }
{
    let name = name.as_str();
    match act {
        FrequentAct::Get => run_read(repository, pool, output, object, name),
        FrequentAct::IsSet => run_is_set(repository, pool, output, object, name),
        FrequentAct::Set(word) => {
            run_set(alloc, repository, pool, output, object, name, word.as_str())
        }
        FrequentAct::Add(word, index) => {
            let word = word.as_str();
            run_add(alloc, repository, pool, output, object, name, word, index)
        }
        FrequentAct::RemoveValue(word) => {
            run_remove_value(alloc, repository, pool, output, object, name, word.as_str())
        }
        FrequentAct::Bare(bare) => run_bare_act(repository, pool, output, object, name, bare),
    }
}

/// Runs a line of one of the most frequent forms, and prints the answer. The effect and the answer are those of `run_text`, but take fewer
/// steps, since this function knows which call of the repository the line asks for.
///
/// Fails only if memory is refused for the output, or for a value of the line that is a text.
pub(crate) fn run_frequent<L: LinkStore, A: Adapter>(
    alloc: Global,
    repository: &mut Repository<L, A>,
    pool: &mut Pool<A>,
    output: &mut Output,
    line: Frequent<'_>,
) -> Result<Turn, AllocError>
    ensures ok { IfOk result (λ t. Adds output.old output.new t (λ p. RunsLine (session repository.old pool.old) (frequent_line line.entry) p (session repository.new pool.new))) }
    ensures left { OnErr result (IsLeft (RunsLine (session repository.old pool.old) (frequent_line line.entry)) repository.old repository.new) }
{
    match line {
        Frequent::New(class) => run_create(repository, output, class),
        Frequent::Container(object) => run_container(repository, output, object),
        Frequent::Fragment(object) => run_fragment(repository, output, object),
        Frequent::At(object, name, act) => {
            run_at(alloc, repository, pool, output, object, name, act)
        }
    }
}
