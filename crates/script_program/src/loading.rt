//! Makes a resource and loads a document into it, as two lines of a script do.
ghost use Rattle.std.specs.Prelude.{◌≡◌};
ghost use Rattle.repository.specs.Run.{change_outcome};
ghost use Rattle.repository.specs.Views.{changed_view};
ghost use Rattle.script_program.specs.Loading.{LoadsInto, MakesAndLoads, made_resource};

use adapters::Adapter;
use links::LinkStore;
use mm_types::{Refused, ResourceNo};
use repository::{Answer, Reply, Repository};

/// The resource that was made, if the answer is `Answer::Resource`; `None` for any other answer.
fn resource_in(answer: &Answer) -> Option<ResourceNo>
    ensures { result ≡ made_resource answer.now }
{
    match answer {
        Answer::Resource(resource) => Some(*resource),
        _ => None,
    }
}

/// Loads a document into a resource. Refused with `NoResource` if no resource is given, and otherwise as `load` is.
fn load_into<L: LinkStore, A: Adapter>(
    repository: &mut Repository<L, A>,
    resource: Option<ResourceNo>,
    document: &[u8],
) -> Result<Reply<A>, Refused>
    ensures { LoadsInto resource repository.old document.now (change_outcome (changed_view A.heard result)) repository.new }
{
    match resource {
        Some(resource) => repository.load(resource, document),
        None => Err(Refused::NoResource),
    }
}

/// Makes a resource with the URI that the text `uri` gives, and loads `document` into the resource, as the lines `resource` and `load` do.
/// The document may have any length, and newlines. Returns the reply of the load.
///
/// Refused as `create_resource` is, or else as `load` is. If the load is refused, the resource was made, and is empty.
pub fn load_resource<L: LinkStore, A: Adapter>(
    repository: &mut Repository<L, A>,
    uri: &str,
    document: &[u8],
) -> Result<Reply<A>, Refused>
    ensures { MakesAndLoads repository.old uri.now document.now (change_outcome (changed_view A.heard result)) repository.new }
{
    match repository.create_resource(uri) {
        Ok(made) => load_into(repository, resource_in(&made.answer), document),
        Err(refused) => Err(refused),
    }
}
