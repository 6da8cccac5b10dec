//! Fragments, addresses and the documents of resources.
ghost use Rattle.std.specs.Prelude.{◌≡◌, IfOk, Some, true};
ghost use Rattle.std.specs.Str.{is_utf8};
ghost use Rattle.doc_writer.specs.Saved.{IsReadAs};
ghost use Rattle.fragment_paths.specs.Fragments.{fragment as fragment_in};
ghost use Rattle.repository.specs.Commands as commands;
ghost use Rattle.repository.specs.Run.{Executed, change_outcome, read_outcome};
ghost use Rattle.repository.specs.State.{reads};
ghost use Rattle.repository.specs.Views.{changed_view};
ghost use Rattle.repository.specs.declared.reply.Answer.TheVariants as answer;

use super::Repository;
use crate::replies::reply;
use crate::reply::{Answer, Reply};
use adapters::Adapter;
use doc_writer::write_doc;
use fragment_paths::{object_at, write};
use links::LinkStore;
use mm_types::{Node, ObjectNo, Refused, ResourceNo, Text};
use models::{is_short_text, node_refusal, object_refusal};
use std::alloc::AllocError;
use web_uris::split_address;

impl<L: LinkStore, A: Adapter> Repository<L, A> {
    /// The fragment of an object in its resource (EMF: Resource.getURIFragment): the path from a root to the object, such as `//@books.0`.
    /// The root's position is left out if the resource has only one root.
    ///
    /// Refused, the first that applies: `NoObject` if no live object has the number, `Dangling` if the object is in no resource, `Memory`.
    #[tactic(auto, using(crate::proofs::DocumentLemmas::fragment_read))]
    pub fn fragment(&self, object: ObjectNo) -> Result<Text, Refused>
        ensures executed { Executed self.now (commands.fragment object) (read_outcome answer.Fragment result) self.now }
        // The text is the fragment of the object. The proof that a remembered fragment is right needs this.
        ensures found { IfOk result (λ t. fragment_in (reads self.now) object ≡ Some t) }
    {
        if let Some(refused) = object_refusal(&self.model(), object) {
            return Err(refused);
        }
        match self.fragment_of(object)? {
            Some(fragment) => Ok(fragment),
            None => Err(Refused::Dangling),
        }
    }

    /// The fragment of an object: the remembered one, or else a computed one; `None` if the object is in no resource.
    fn fragment_of(&self, object: ObjectNo) -> Result<Option<Text>, AllocError>
        ensures { IfOk result (λ t. t ≡ fragment_in (reads self.now) object) }
    {
        match self.paths.get(object) {
            Some(kept) => {
                let fragment = Text::from_str(self.alloc, kept)?;
                Ok(Some(fragment))
            }
            None => write(self.alloc, &self.model(), object),
        }
    }

    /// The fragment of an object, as `fragment` returns it. The fragment is then remembered, if there is memory for it. At most 1,024
    /// fragments are remembered. If there are 1,024, all are forgotten before one more is remembered. All are also forgotten when a change
    /// edits a containing link. Refused as `fragment` is: with `NoObject`, `Dangling` or `Memory`.
    pub fn remembered_fragment(&mut self, object: ObjectNo) -> Result<Text, Refused>
        ensures { Executed self.old (commands.fragment object) (read_outcome answer.Fragment result) self.new }
    {
        let fragment = self.fragment(object)?;
        if self.paths.get(object).is_none() {
            self.paths.keep(object, fragment.as_str());
        }
        Ok(fragment)
    }

    /// Reads a fragment by `remembered_fragment`, and returns a reply with the fragment, or the refusal.
    pub(super) fn fragment_reply(&mut self, object: ObjectNo) -> Result<Reply<A>, Refused>
        ensures { Executed self.old (commands.fragment object) (change_outcome (changed_view A.heard result)) self.new }
    {
        let fragment = self.remembered_fragment(object)?;
        Ok(reply(self.alloc, Answer::Fragment(fragment)))
    }

    /// The object at an address, which is the URI of a resource, `#` and a fragment (EMF: ResourceSet.getEObject, without loading); `None`
    /// if no resource has the URI, or no object is at the fragment. The URI is compared byte by byte, and is not normalised.
    ///
    /// Refused, the first that applies: `TextLength` above 65,535 bytes, `BadUri` if the text has no `#`, `Memory`.
    #[tactic(auto, using(crate::proofs::DocumentLemmas::object_found))]
    pub fn object_at(&self, address: &str) -> Result<Option<ObjectNo>, Refused>
        ensures { Executed self.now (commands.object_at address.now) (read_outcome answer.Found result) self.now }
    {
        if !is_short_text(address) {
            return Err(Refused::TextLength);
        }
        if split_address(address).is_none() {
            return Err(Refused::BadUri);
        }
        let object = object_at(self.alloc, &self.model(), address)?;
        Ok(object)
    }

    /// The document of a resource (EMF: Resource.save), as JSON without spaces between the tokens: the roots of the resource with all
    /// objects below them. For each object the document has the features that are set, but no container reference.
    ///
    /// Refused, the first that applies: `NoResource`, `Dangling` if an object of the resource refers to an object in no resource, `TooDeep`
    /// if an object is below level 40 (the roots are at level 1), `Memory`.
    #[tactic(auto, using(crate::proofs::QuietLemmas::save_done))]
    pub fn save(&self, resource: ResourceNo) -> Result<Text, Refused>
        ensures executed { Executed self.now (commands.save resource) (read_outcome answer.Document result) self.now }
        // If the document is not too deep for the reader of JSON, the text is read back as the document. The laws of reloading have this as
        // a premise.
        ensures reads { IfOk result (λ t. IsReadAs (reads self.now) resource t) }
        ensures utf8 { IfOk result (λ t. is_utf8 t ≡ true) }
    {
        let model = self.model();
        if let Some(refused) = node_refusal(&model, Node::Resource(resource)) {
            return Err(refused);
        }
        match write_doc(self.alloc, &model, resource) {
            Ok(text) => Ok(Text::from_string(self.alloc, text)?),
            Err(refused) => Err(refused),
        }
    }
}
