//! Turns a form into a request: looks up the names of the form. If the form attaches an adapter, takes the adapter out of the pool.
ghost use Rattle.std.specs.Prelude.{◌≡◌};
ghost use Rattle.repository.specs.Views.{command_view};
ghost use Rattle.repository.specs.declared.command.Command.TheVariants as command;
ghost use Rattle.script_program.specs.Bind as b;
ghost use Rattle.script_program.specs.Pool.{Pool as PoolView, box_of};
ghost use Rattle.script_program.specs.Session.{pool_after_take, session};
ghost use Rattle.script_program.specs.declared.request.Request.TheVariants as request;

use crate::pool::Pool;
use crate::request::Request;
use adapters::Adapter;
use links::LinkStore;
use mm_meta::Meta;
use mm_types::{AdapterNo, ClassNo, End, FeatureNo, Node, Value};
use repository::{Act, Command, Read, Repository};
use script_lines::{FeatureForm, Form, Name, WrittenValue};
use script_output::enum_of;

/// A number that no class, no feature and no literal has.
pub(crate) const NOTHING: u32 = u32::MAX;

/// The request of a form. The names of classes, features and literals are looked up in the metamodel. An unknown name gets the number
/// `NOTHING`, so that the repository refuses the command. If the form attaches an adapter, the adapter is taken out of the pool; if the
/// pool does not have the adapter, the request is `Refuse`. Takes no memory.
pub(crate) fn bind<L: LinkStore, A: Adapter>(
    repository: &Repository<L, A>,
    pool: &mut Pool<A>,
    form: Form<'_>,
) -> Request<A>
    ensures request { b.request_view A.heard result ≡ b.bind (session repository.now pool.old) form.entry }
    ensures pool { pool.new ≡ b.pool_of pool.old (b.request_view A.heard result) }
{
    match form {
        Form::New { class } => Request::Execute(create_command(repository.meta(), class)),
        Form::At {
            node,
            feature,
            form,
        } => Request::Execute(at_command(repository, node, feature, form)),
        Form::Resource(text) => Request::Execute(Command::CreateResource(text)),
        Form::Load { resource, text } => Request::Execute(Command::Load(resource, text)),
        Form::ResolveAll => Request::Execute(Command::ResolveAll),
        Form::Attach { no, target, deep } => attach_request(pool, no, target, deep),
        Form::Watch { no, target, deep } => {
            Request::Execute(Command::Watch { no, target, deep })
        }
        Form::Unwatch(no, target) => Request::Execute(Command::Unwatch { no, target }),
        Form::Detach(no) => Request::Execute(Command::Detach(no)),
        Form::Delete(object) => Request::Execute(Command::Delete(object)),
        Form::Read(read) => Request::Execute(Command::Read(read)),
        Form::Seen(no) => Request::Seen(no),
    }
}

fn attach_request<A: Adapter>(
    pool: &mut Pool<A>,
    no: AdapterNo,
    target: Node,
    deep: bool,
) -> Request<A>
    ensures request { b.request_view A.heard result ≡ b.attach_request (box_of pool.old no) no target deep }
    ensures pool { pool.new ≡ b.pool_of pool.old (b.request_view A.heard result) }
{
    match pool.take(no) {
        Ok(adapter) => Request::Execute(Command::Attach {
            no,
            target,
            deep,
            adapter,
        }),
        Err(refused) => Request::Refuse(refused),
    }
}

fn create_command<A>(meta: &Meta, class: Name<'_>) -> Command<A>
    ensures { result ≡ b.create_command meta.now class.entry }
{
    Command::Create(class_number(meta, class.as_str()))
}

/// The command that asks something of a feature of a node, or changes the feature; `name` is the name of the feature. The command attaches
/// no adapter.
fn at_command<L: LinkStore, A: Adapter>(
    repository: &Repository<L, A>,
    node: Node,
    name: Name<'_>,
    form: FeatureForm<'_>,
) -> Command<A>
    ensures command { command_view A.heard result ≡ b.at_command repository.now.model.metamodel (b.named_end repository.now node name.entry) form.entry }
    ensures pool { (pool : PoolView) → pool ≡ pool_after_take pool (command_view A.heard result) }
{
    let end = named_end(repository, node, name);
    let (meta, feature) = (repository.meta(), end.feature);
    match form {
        FeatureForm::Read(read) => Command::Read(Read::At(end, read)),
        FeatureForm::Set(value) => Command::At(end, Act::Set(value_in(meta, feature, value))),
        FeatureForm::Unset => Command::At(end, Act::Unset),
        FeatureForm::Add(value) => {
            Command::At(end, Act::Add(value_in(meta, feature, value), None))
        }
        FeatureForm::AddAt(index, value) => {
            Command::At(end, Act::Add(value_in(meta, feature, value), Some(index)))
        }
        FeatureForm::Remove(index) => Command::At(end, Act::Remove(index)),
        FeatureForm::RemoveValue(value) => {
            Command::At(end, Act::RemoveValue(value_in(meta, feature, value)))
        }
        FeatureForm::Move { to, from } => Command::At(end, Act::Move { to, from }),
        FeatureForm::Resolve(index) => Command::At(end, Act::Resolve(index)),
    }
}

/// The end that consists of `node` and of its feature with the name `name`. If the node has no feature with this name, the end has the
/// feature number `NOTHING`.
fn named_end<L: LinkStore, A: Adapter>(
    repository: &Repository<L, A>,
    node: Node,
    name: Name<'_>,
) -> End
    ensures { result ≡ b.named_end repository.now node name.entry }
{
    let feature = feature_number(repository, node, name.as_str());
    End { node, feature }
}

pub(crate) fn class_number(meta: &Meta, name: &str) -> ClassNo
    ensures { result ≡ b.class_number meta.now name.now }
{
    meta.class_by_name(name).unwrap_or(ClassNo(NOTHING))
}

#[inline(always)]
pub(crate) fn feature_number<L: LinkStore, A: Adapter>(
    repository: &Repository<L, A>,
    node: Node,
    name: &str,
) -> FeatureNo
    ensures { result ≡ b.feature_number repository.now node name.now }
{
    match node {
        Node::Object(object) => match repository.e_class(object) {
            Ok(class) => repository
                .meta()
                .feature_by_name(class, name)
                .unwrap_or(FeatureNo(NOTHING)),
            Err(_) => FeatureNo(NOTHING),
        },
        Node::Resource(_) => {
            if name == "contents" {
                repository.meta().contents()
            } else {
                FeatureNo(NOTHING)
            }
        }
    }
}

fn literal_number(meta: &Meta, feature: FeatureNo, name: &str) -> u32
    ensures { result ≡ b.literal_number meta.now feature name.now }
{
    let Some(e) = enum_of(meta, feature) else {
        return NOTHING;
    };
    meta.literal_by_name(e, name).unwrap_or(NOTHING)
}

/// The value that a written value stands for under a feature. Only a literal is looked up in the metamodel, by its name; an unknown name
/// gets the number `NOTHING`.
#[inline(always)]
pub(crate) fn value_in(meta: &Meta, feature: FeatureNo, written: WrittenValue<'_>) -> Value
    ensures { result ≡ b.value_in meta.now feature written.entry }
{
    match written {
        WrittenValue::Null => Value::Null,
        WrittenValue::Bool(flag) => Value::Bool(flag),
        WrittenValue::Int(n) => Value::Int(n),
        WrittenValue::Text(text) => Value::Text(text),
        WrittenValue::Literal(name) => Value::Literal(literal_number(meta, feature, name.as_str())),
        WrittenValue::Object(object) => Value::Object(object),
    }
}
