//! Loads documents into resources.
ghost use Rattle.std.specs.Prelude.{◌≡◌, ℕ, List, Err, None, Some};
ghost use Rattle.mm_types.specs.declared.numbers.Node.TheVariants as node;
ghost use Rattle.resource_docs.specs.Causes.{Answers};
ghost use Rattle.models.specs.Existence.{node_refusal};
ghost use Rattle.models.specs.Model.{reading};
ghost use Rattle.repository.specs.Loads.{load_refusal, reads_into};
ghost use Rattle.repository.specs.Run.{Executed, change_outcome};
ghost use Rattle.repository.specs.State.{reads};
ghost use Rattle.repository.specs.Views.{changed_view};
ghost use Rattle.repository.specs.declared.command.Command.TheVariants.{Load};

use super::Repository;
use crate::edits::AllEdits;
use crate::reply::Reply;
use adapters::Adapter;
use handshake::Change;
use links::LinkStore;
use mm_types::{DocFault, Refused, ResourceNo};
use models::{ModelRef, contents_end};
use resource_docs::{Doc, read_doc, read_doc_text};

impl<L: LinkStore, A: Adapter> Repository<L, A> {
    /// Loads a document into an empty resource (EMF: Resource.load). `bytes` has the document as JSON. The call makes all objects of the
    /// document, with their values, links and proxies, or it makes nothing. The objects get the next numbers, root by root; each object is
    /// directly followed by all objects below it. The contents of an object come by feature, in the order of all features of its class, and
    /// then by position. At both ends of a pair of opposite references, the links have the order that the document gives. Returns how many
    /// objects were made. The adapters at the resource are notified of one ADD on `contents` for each root.
    ///
    /// Refused, the first that applies: `NoResource`; `Limit` if the document has no fault, and more than 1,000,000 objects would then have
    /// been made in all; `NotEmpty` if the resource has roots; `Document` with the cause for which the document can't be read;
    /// `AdapterFull`, `Memory`.
    pub fn load(&mut self, resource: ResourceNo, bytes: &[u8]) -> Result<Reply<A>, Refused>
        ensures { Executed self.old (Load resource bytes.now) (change_outcome (changed_view A.heard result)) self.new }
    {
        let model = self.model();
        let Some(uri) = model.uri(resource) else {
            return Err(Refused::NoResource);
        };
        let read = read_doc(self.alloc, model.meta(), uri, bytes);
        self.load_read(resource, read)
    }

    /// Loads the document in a text as `load` does, and is refused as `load` is. `text` is UTF-8 by its type, so this is not tested.
    pub fn load_text(&mut self, resource: ResourceNo, text: &str) -> Result<Reply<A>, Refused>
        ensures { Executed self.old (Load resource text.now) (change_outcome (changed_view A.heard result)) self.new }
    {
        let model = self.model();
        let Some(uri) = model.uri(resource) else {
            return Err(Refused::NoResource);
        };
        let read = read_doc_text(self.alloc, model.meta(), uri, text);
        self.load_read(resource, read)
    }

    /// Loads a document that was read, into a resource that exists. `read` is the document, or the refusal with which the reading ended.
    fn load_read(
        &mut self,
        resource: ResourceNo,
        read: Result<Doc, Refused>,
    ) -> Result<Reply<A>, Refused>
        requires there { node_refusal (reads self.old) (node.Resource resource) ≡ None }
        requires read { (text : List ℕ) × Answers read (reads_into (reads self.old) resource text) }
        ensures { (text : List ℕ) → Answers read (reads_into (reads self.old) resource text) → Executed self.old (Load resource text) (change_outcome (changed_view A.heard result)) self.new }
    {
        match read {
            Ok(doc) => {
                self.carry_out::<AllEdits>(Change::Load(resource, doc), self.has_adapters())
            }
            Err(Refused::Document(fault)) => Err(fault_refusal(&self.model(), resource, fault)),
            Err(_) => Err(Refused::Memory),
        }
    }
}

/// The refusal of a load whose document has a fault: `NotEmpty` if the resource has roots, or else `Document` with the fault.
fn fault_refusal<L: LinkStore>(
    model: &ModelRef<L>,
    resource: ResourceNo,
    fault: DocFault,
) -> Refused
    ensures { Some result ≡ load_refusal (reading model.now) resource (Err fault) }
{
    if model.len(contents_end(model.meta(), resource)) > 0 {
        return Refused::NotEmpty;
    }
    Refused::Document(fault)
}
