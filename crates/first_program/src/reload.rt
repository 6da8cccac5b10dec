//! A model of one resource is saved as a text, and loaded into another repository.
ghost use Rattle.std.specs.Prelude.{◌≡◌, ◌∷◌, [], OnOk};
ghost use Rattle.mmrepo_lib.specs.Steps.{Alike, IsSaved, empty_state, reads};

use mmrepo_lib::{Adapter, LinkStore, Refused, Repository, ResourceNo, laws};

/// Saves the only resource of `first`, loads the saved text into `second`, and resolves the proxies of `second`. `second` must be empty and
/// over the same metamodel, and `uri` must be the URI of the resource. If `first` has no proxy, and no text of a reference is too long, the
/// resources of both repositories then have the same objects, with the same values, at the same addresses.
pub(crate) fn load_again<L: LinkStore, A: Adapter>(
    first: &Repository<L, A>,
    second: &mut Repository<L, A>,
    uri: &str,
) -> Result<(), Refused>
    ensures { OnOk result (second.old ≡ empty_state first.now.model.metamodel
        → (reads first.now).uris ≡ uri.now ∷ [] → IsSaved (reads first.now)
        → Alike (reads first.now) (reads second.new)) }
{
    laws::what_was_saved_is_had_again_in_any_order();
    first.lemma_is_legal();
    first.has_steady_texts();
    let text = first.save(ResourceNo(0))?;
    second.create_resource(uri)?;
    second.load(ResourceNo(0), text.as_str().as_bytes())?;
    second.resolve_all()?;
    Ok(())
}
