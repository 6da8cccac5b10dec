//! A first program over `mmrepo_lib`. The program makes a library with a book, and counts the notifications of an adapter at the library.
//! It prints the saved library, and loads the library again into a second repository. docs/LIBRARY.md shows the program.
#![tactic(auto)]

ghost use Rattle.mmrepo_lib.specs.Commands.{set};
ghost use Rattle.mmrepo_lib.specs.Steps.{Executed, change_outcome, changed_view};
ghost use Rattle.mmrepo_lib.specs.Nodes as node;
ghost use Rattle.mmrepo_lib.specs.Values as value;

mod names;
mod reload;
mod stop;
mod tally;

use mmrepo_lib::{
    Adapter, AdapterNo, Answer, FeatureNo, LinkStore, Meta, MetaFault, Node, Notice, ObjectNo,
    Refused, Reply, Repository, ResourceNo, SlotStore, Text, Value, check_document,
};
use names::Names;
use reload::load_again;
use std::alloc::Global;
use std::io;
use std::io::Write;
use std::process::ExitCode;
use stop::Stop;
use tally::Tally;

/// A library has books, each of which knows its library.
const LIBRARY: &str = r#"{"classes":[
{"name":"Library","features":[
  {"name":"books","kind":"reference","type":"Book","upper":-1,"containment":true,"opposite":"library"}]},
{"name":"Book","features":[
  {"name":"title","kind":"attribute","type":"EString"},
  {"name":"library","kind":"reference","type":"Library","opposite":"books"}]}]}"#;

const LIBRARY_URI: &str = "http://m.example/library";

const TALLY: AdapterNo = AdapterNo(1);

/// The object that a call made.
fn object_in(reply: Reply<Tally>) -> Result<ObjectNo, Stop> {
    match reply.answer {
        Answer::Object(object) => Ok(object),
        _ => Err(Stop::Answer),
    }
}

/// The resource that a call made.
fn resource_in(reply: Reply<Tally>) -> Result<ResourceNo, Stop> {
    match reply.answer {
        Answer::Resource(resource) => Ok(resource),
        _ => Err(Stop::Answer),
    }
}

/// Prints the kind and the position of each notification.
fn print_told<W: Write>(writer: &mut W, told: &[(AdapterNo, Notice)]) -> Result<(), io::Error> {
    for (_no, notice) in told {
        writeln!(writer, "{} at {}", notice.kind.name(), notice.position)?;
    }
    Ok(())
}

/// Prints what the adapter counted, if it was given back.
fn print_counts<W: Write>(
    writer: &mut W,
    released: &[(AdapterNo, Tally)],
) -> Result<(), io::Error> {
    for (_no, tally) in released {
        let (all, additions) = (tally.told(), tally.additions());
        writeln!(writer, "{all} notices, of an addition: {additions}")?;
    }
    Ok(())
}

/// Prints the notifications of a call, and the counts of the adapter, if the call gave it back. This function is where the program acts on
/// notifications.
fn print_reply<W: Write>(writer: &mut W, reply: Reply<Tally>) -> Result<(), io::Error> {
    print_told(writer, reply.told.as_slice())?;
    print_counts(writer, reply.released.as_slice())
}

/// Gives a book a title. The function has the same contract as `e_set`: it does the step of the command `set`, or is refused and changes
/// nothing.
fn set_title<L: LinkStore>(
    repository: &mut Repository<L, Tally>,
    book: ObjectNo,
    title: FeatureNo,
    text: Text,
) -> Result<Reply<Tally>, Refused>
    ensures { Executed repository.old (set (node.Object book) title (value.Text text))
        (change_outcome (changed_view ⟦<Tally as Adapter>⟧.heard result)) repository.new }
{
    repository.e_set(Node::Object(book), title, Value::Text(text))
}

/// Makes a library with a book, attaches the adapter to the library, and prints the notifications.
fn make_books<L: LinkStore, W: Write>(
    alloc: Global,
    writer: &mut W,
    repository: &mut Repository<L, Tally>,
    names: Names,
) -> Result<ObjectNo, Stop> {
    let library = object_in(repository.create(names.library)?)?;
    repository.attach(TALLY, Node::Object(library), true, Tally::new())?;
    let book = object_in(repository.create(names.book)?)?;
    let node = Node::Object(library);
    let reply = repository.add(node, names.books, Value::Object(book), None)?;
    print_reply(writer, reply)?;
    let title = Text::from_str(alloc, "Emma")?;
    let reply = set_title(repository, book, names.title, title)?;
    print_reply(writer, reply)?;
    Ok(library)
}

/// Puts a library into a new resource, and prints the document of the resource.
fn save<L: LinkStore, W: Write>(
    writer: &mut W,
    repository: &mut Repository<L, Tally>,
    names: Names,
    library: ObjectNo,
) -> Result<(), Stop> {
    let resource = resource_in(repository.create_resource(LIBRARY_URI)?)?;
    let node = Node::Resource(resource);
    repository.add(node, names.contents, Value::Object(library), None)?;
    let document = repository.save(resource)?;
    writeln!(writer, "{}", document.as_str())?;
    Ok(())
}

/// Takes the adapter back, and prints what it counted.
fn take_back<L: LinkStore, W: Write>(
    writer: &mut W,
    repository: &mut Repository<L, Tally>,
) -> Result<(), Stop> {
    let reply = repository.detach(TALLY)?;
    Ok(print_reply(writer, reply)?)
}

fn metamodel(alloc: Global) -> Result<Meta, MetaFault> {
    check_document(alloc, LIBRARY.as_bytes())
}

/// Saves the only resource of `first`, loads the saved text into `second`, and prints how many roots the loaded resource has.
fn load_second<L: LinkStore, W: Write>(
    writer: &mut W,
    first: &Repository<L, Tally>,
    second: &mut Repository<L, Tally>,
) -> Result<(), Stop> {
    load_again(first, second, LIBRARY_URI)?;
    let roots = second.e_contents(Node::Resource(ResourceNo(0)))?;
    writeln!(writer, "loaded again, roots: {}", roots.as_slice().len())?;
    Ok(())
}

/// Loads the library again, into a second repository that is made for it.
fn reload_books<L: LinkStore, W: Write>(
    alloc: Global,
    writer: &mut W,
    first: &Repository<L, Tally>,
) -> Result<(), Stop> {
    let mut second = Repository::new(alloc, metamodel(alloc)?);
    let outcome = load_second(writer, first, &mut second);
    let _ = second.close();
    outcome
}

fn session<L: LinkStore, W: Write>(
    alloc: Global,
    writer: &mut W,
    repository: &mut Repository<L, Tally>,
) -> Result<(), Stop> {
    let names = Names::of(repository.meta())?;
    let library = make_books(alloc, writer, repository, names)?;
    save(writer, repository, names, library)?;
    take_back(writer, repository)?;
    reload_books(alloc, writer, repository)
}

fn start(rt: &HostRuntime) -> Result<(), Stop> {
    let alloc = rt.alloc();
    let mut repository = Repository::<SlotStore, Tally>::new(alloc, metamodel(alloc)?);
    let outcome = session(alloc, &mut io::writer(rt), &mut repository);
    let _ = repository.close();
    outcome
}

fn main(rt: HostRuntime) -> ExitCode {
    match start(&rt) {
        Ok(()) => ExitCode::SUCCESS,
        Err(stop) => {
            let _ = eprintln!(&rt; "stopped: {stop}");
            ExitCode::from(1)
        }
    }
}
