//! The length of a list, and the value at an index of a list, without a copy of any value.
ghost use Rattle.std.specs.Prelude.{◌≡◌, Err, IfErr, IfOk, MatchOption, Ok};
ghost use Rattle.models.specs.Found.{found_value};
ghost use Rattle.models.specs.Reading.{at_end};
ghost use Rattle.repository.specs.ListReads as l;
ghost use Rattle.repository.specs.State.{reads};

use super::Repository;
use adapters::Adapter;
use links::LinkStore;
use mm_types::{End, FeatureNo, Node, Refused};
use models::{Found, end_refusal};

impl<L: LinkStore, A: Adapter> Repository<L, A> {
    /// How many values a list has (EMF: EList.size). Takes no memory.
    ///
    /// Refused, the first that applies: `NoObject`, `NoResource`, `NoFeature`, `NotMany` if the feature is single.
    pub fn list_len(&self, node: Node, feature: FeatureNo) -> Result<u32, Refused>
        ensures { result ≡ l.list_len (reads self.now) (at_end node feature) }
    {
        let end = End { node, feature };
        match self.list_refusal(end) {
            Some(refused) => Err(refused),
            None => Ok(self.model().len(end)),
        }
    }

    /// The value at an index of a list (EMF: EList.get), borrowed from the repository and not copied. Takes no memory.
    ///
    /// Refused, the first that applies: `NoObject`, `NoResource`, `NoFeature`, `NotMany` if the feature is single, `Index` if no value is
    /// at the index.
    pub fn list_value(
        &self,
        node: Node,
        feature: FeatureNo,
        index: u32,
    ) -> Result<Found<'_>, Refused>
        ensures ok { IfOk result (λ v. l.list_value (reads self.now) (at_end node feature) index ≡ Ok (found_value v)) }
        ensures err { IfErr result (λ r. l.list_value (reads self.now) (at_end node feature) index ≡ Err r) }
    {
        let end = End { node, feature };
        if let Some(refused) = self.list_refusal(end) {
            return Err(refused);
        }
        match self.model().value_in(end, index) {
            Some(found) => Ok(found),
            None => Err(Refused::Index),
        }
    }

    /// Why there is no list at an end: the node doesn't exist, the node doesn't have the feature, or the feature is single. `None` if there
    /// is a list.
    fn list_refusal(&self, end: End) -> Option<Refused>
        ensures { MatchOption result (l.list_at (reads self.now) end ≡ Ok ((reads self.now).values end)) (λ r. l.list_at (reads self.now) end ≡ Err r) }
    {
        let model = self.model();
        if let Some(refused) = end_refusal(&model, end) {
            return Some(refused);
        }
        if model.meta().is_single(end.feature) {
            return Some(Refused::NotMany);
        }
        None
    }
}
