//! What is printed for a command.
ghost use Rattle.std.specs.Prelude.{◌≡◌, ◌++◌, Ok, OnOk, map, option_map, unwrap_or};
ghost use Rattle.mm_types.specs.declared.value.Value.TheVariants.{Null};
ghost use Rattle.models.specs.Found.{found_value};
ghost use Rattle.notice_chain.specs.View.{View};
ghost use Rattle.repository.specs.Views.{command_view, outcome_view, reply_view};
ghost use Rattle.script_program.specs.Answers as a;

use crate::bind::NOTHING;
use adapters::Adapter;
use mm_meta::Meta;
use mm_types::{AdapterNo, FeatureNo, Node, Refused, Value};
use models::Found;
use notice_chain::Notice;
use repository::{Answer, Command, Failure, Read, Reply};
use script_output::{Output, literal_name};
use std::alloc::AllocError;

/// The feature that a command names; if the command names none, the number `NOTHING`, which no feature has.
pub(crate) fn feature_of<A>(command: &Command<A>) -> FeatureNo
    ensures { (heard : A → View) → result ≡ a.feature_of (command_view heard command.now) }
{
    match command {
        Command::At(end, _) | Command::Read(Read::At(end, _)) => end.feature,
        _ => FeatureNo(NOTHING),
    }
}

fn print_answer(
    output: &mut Output,
    meta: &Meta,
    feature: FeatureNo,
    answer: &Answer,
) -> Result<(), AllocError>
    ensures ok { OnOk result (output.new ≡ output.old ++ a.answer_text meta.now feature answer.now) }
{
    match answer {
        Answer::Done => output.short_text("ok"),
        Answer::Object(object) => output.node(Node::Object(*object)),
        Answer::Value(value) => output.value(value, literal_name(meta, feature, value)),
        Answer::Values(values) => output.values(meta, feature, values.as_slice()),
        Answer::Flag(true) => output.text("true"),
        Answer::Flag(false) => output.text("false"),
        Answer::Class(class) => output.class(meta, *class),
        Answer::Count(count) => output.natural(*count),
        Answer::Destroyed(count) => {
            output.text("deleted ")?;
            output.natural(*count)
        }
        Answer::Loaded(count) => {
            output.text("loaded ")?;
            output.natural(*count)
        }
        Answer::Resolved { done, left } => {
            output.text("resolved ")?;
            output.natural(*done)?;
            output.text(" left ")?;
            output.natural(*left)
        }
        Answer::Resource(resource) => output.node(Node::Resource(*resource)),
        Answer::Container(object) => output.node_or_null(object.map(Node::Object)),
        Answer::Within(resource) => output.node_or_null(resource.map(Node::Resource)),
        Answer::Features(features) => output.features(meta, features.as_slice()),
        Answer::Found(object) => output.node_or_null(object.map(Node::Object)),
        Answer::Fragment(fragment) => output.json(fragment.as_str()),
        Answer::Document(text) => output.text(text.as_str()),
        Answer::Objects(objects) => output.objects(objects.as_slice()),
        // No line of a script asks for a snapshot.
        Answer::Snapshot(snapshot) => {
            output.text("snapshot ")?;
            output.natural(snapshot.nodes().len() as u64)
        }
    }
}

/// Adds the line that a read of one value of a feature prints; `found` is the value, with `None` for null.
pub(crate) fn print_found(
    output: &mut Output,
    meta: &Meta,
    feature: FeatureNo,
    found: Option<Found<'_>>,
) -> Result<(), AllocError>
    ensures ok { OnOk result (output.new ≡ output.old ++ a.read_text meta.now feature (unwrap_or (option_map found_value found.entry) Null)) }
{
    match found {
        Some(Found::Kept(value)) => print_value(output, meta, feature, value),
        Some(Found::Object(object)) => print_value(output, meta, feature, &Value::Object(object)),
        Some(Found::Proxy(text)) => {
            output.proxy(text)?;
            output.line_end()
        }
        None => print_value(output, meta, feature, &Value::Null),
    }
}

fn print_value(
    output: &mut Output,
    meta: &Meta,
    feature: FeatureNo,
    value: &Value,
) -> Result<(), AllocError>
    ensures ok { OnOk result (output.new ≡ output.old ++ a.read_text meta.now feature value.now) }
{
    output.value(value, literal_name(meta, feature, value))?;
    output.line_end()
}

/// Adds the line that a refusal prints.
pub(crate) fn print_refusal(output: &mut Output, refused: Refused) -> Result<(), AllocError>
    ensures ok { OnOk result (output.new ≡ output.old ++ a.refusal_line refused) }
{
    output.refused(refused)?;
    output.line_end()
}

/// Adds a line for each notification in `told`, with the number of the adapter that got the notification.
fn print_told(
    output: &mut Output,
    meta: &Meta,
    told: &[(AdapterNo, Notice)],
) -> Result<(), AllocError>
    ensures ok { OnOk result (output.new ≡ output.old ++ a.told_text meta.now told.now) }
{
    for (no, notice) in told {
        output.notified(meta, *no, notice)?;
    }
    Ok(())
}

/// Adds a line for each adapter that was released.
fn print_released<A: Adapter>(
    output: &mut Output,
    released: &[(AdapterNo, A)],
) -> Result<(), AllocError>
    ensures ok { OnOk result (output.new ≡ output.old ++ a.all_released_text (map (λ b. (b.0, A.heard b.1)) released.now)) }
{
    for (no, adapter) in released {
        output.released(*no, adapter.told(), adapter.kept_len())?;
    }
    Ok(())
}

/// Adds a line for each notification, and then a line for each adapter that was released.
fn print_notified<A: Adapter>(
    output: &mut Output,
    meta: &Meta,
    told: &[(AdapterNo, Notice)],
    released: &[(AdapterNo, A)],
) -> Result<(), AllocError>
    ensures ok { OnOk result (output.new ≡ output.old ++ a.notified_text meta.now told.now (map (λ b. (b.0, A.heard b.1)) released.now)) }
{
    print_told(output, meta, told)?;
    print_released(output, released)
}

/// Adds the lines that a command prints if it is done, and not refused; `feature` is the result of `feature_of` for the command.
pub(crate) fn print_reply<A: Adapter>(
    output: &mut Output,
    meta: &Meta,
    feature: FeatureNo,
    reply: &Reply<A>,
) -> Result<(), AllocError>
    ensures ok { OnOk result (output.new ≡ output.old ++ a.outcome_text meta.now feature (Ok (reply_view A.heard reply.now))) }
{
    print_answer(output, meta, feature, &reply.answer)?;
    output.line_end()?;
    print_notified(
        output,
        meta,
        reply.told.as_slice(),
        reply.released.as_slice(),
    )
}

/// Adds the lines that a command with the outcome `outcome` prints; `feature` is the result of `feature_of` for the command.
pub(crate) fn print_outcome<A: Adapter>(
    output: &mut Output,
    meta: &Meta,
    feature: FeatureNo,
    outcome: &Result<Reply<A>, Failure<A>>,
) -> Result<(), AllocError>
    ensures ok { OnOk result (output.new ≡ output.old ++ a.outcome_text meta.now feature (outcome_view A.heard outcome.now)) }
{
    match outcome {
        Ok(reply) => print_reply(output, meta, feature, reply),
        Err(failure) => print_refusal(output, failure.refused),
    }
}
