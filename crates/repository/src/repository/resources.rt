//! Resources.
ghost use Rattle.std.specs.Prelude.{◌≡◌};
ghost use Rattle.repository.specs.Run.{Executed, change_outcome};
ghost use Rattle.repository.specs.Views.{changed_view};
ghost use Rattle.repository.specs.declared.command.Command.TheVariants.{CreateResource};

use super::Repository;
use crate::reply::Reply;
use adapters::Adapter;
use handshake::Change;
use links::LinkStore;
use mm_types::{Refused, Text, limits};
use models::is_short_text;
use web_uris::{UriFault, joined};

impl<L: LinkStore, A: Adapter> Repository<L, A> {
    /// Makes an empty resource (EMF: ResourceSet.createResource). `text` is read as a URI of http or https. The resource gets this URI,
    /// normalised as in the URL Standard. Notifies no adapter.
    ///
    /// Refused, the first that applies: `TextLength` if the text, or the URI that it gives, has more than 65,535 bytes, `Limit` if 100,000
    /// resources were made, `BadUri` if the text gives no URI of http or https, or a URI with a fragment, `ResourceExists` if a resource
    /// has the URI already, `Memory`.
    pub fn create_resource(&mut self, text: &str) -> Result<Reply<A>, Refused>
        ensures { Executed self.old (CreateResource text.now) (change_outcome (changed_view A.heard result)) self.new }
    {
        if !is_short_text(text) {
            return Err(Refused::TextLength);
        }
        match joined(self.alloc, "", text) {
            Ok(url) => {
                let uri = Text::from_string(self.alloc, url)?;
                self.change(Change::NewResource(uri))
            }
            Err(UriFault::Bad) if self.values.resources() >= limits::RESOURCES => Err(
                Refused::Limit,
            ),
            Err(UriFault::Bad) => Err(Refused::BadUri),
            Err(UriFault::Memory) => Err(Refused::Memory),
        }
    }
}
