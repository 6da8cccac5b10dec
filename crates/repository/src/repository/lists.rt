//! Changes of the lists at the many-valued features of nodes.
ghost use Rattle.repository.specs.Run.{Executed, change_outcome};
ghost use Rattle.repository.specs.Views.{changed_view};
ghost use Rattle.repository.specs.Commands as commands;

use super::Repository;
use crate::replies::replied;
use crate::reply::{Answer, Brief, Reply};
use adapters::Adapter;
use handshake::{Act, Change};
use links::LinkStore;
use mm_types::{End, FeatureNo, Node, Refused, Value};

impl<L: LinkStore, A: Adapter> Repository<L, A> {
    /// Adds a value to a list, at an index, or after the last value if no index is given (EMF: EList.add). If the feature has an opposite,
    /// the opposite ends change too. Links that the new link displaces are cut at both ends, and an object that is put into a container
    /// leaves its former container. Returns whether the list changed: if a unique list has the value already, adding it without an index
    /// changes nothing and notifies no adapter. Otherwise notifies the adapters at each end that changes, and the deep adapters above that
    /// end: first at the ends that lose a link and gain nothing, then at the opposite end that gains the link, and last of ADD at the list.
    ///
    /// Refused, the first that applies: `NoObject` if the node or the value is an object that does not live, `NoResource`, `NoFeature`,
    /// `NotMany` if the feature is single, `WrongType`, `TextLength` above 65,535 bytes, `Index` if the index is above the length of the
    /// list, `Duplicate` if a unique list already has the value that is added at an index, `Bound` if the list or the opposite list has to
    /// gain a value and has as many values as its upper bound, `Recursive` if an object would contain itself, directly or not, `Limit` if
    /// one of the two lists has to gain a value and has 1,000,000 values, `AdapterFull`, `Memory`.
    pub fn add(
        &mut self,
        node: Node,
        feature: FeatureNo,
        value: Value,
        index: Option<u32>,
    ) -> Result<Reply<A>, Refused>
        ensures { Executed self.old (commands.add node feature value index) (change_outcome (changed_view A.heard result)) self.new }
    {
        match self.add_brief(node, feature, value, index) {
            Brief::Unheard(done) => replied(self.alloc, done, Answer::Flag(true)),
            Brief::Replied(reply) => reply,
        }
    }

    /// Takes the value at an index out of a list, and returns the value (EMF: EList.remove). If the list is of a reference, the link of the
    /// value is cut at both ends. The adapters at the opposite end of the link, if there is one, are notified first: of SET to null if that
    /// end is single, else of REMOVE. Then the adapters at the list are notified of REMOVE. The deep adapters above each end are notified
    /// too.
    ///
    /// Refused, the first that applies: `NoObject`, `NoResource`, `NoFeature`, `NotMany`, `Index` if no value is at the index,
    /// `AdapterFull`, `Memory`.
    pub fn remove(
        &mut self,
        node: Node,
        feature: FeatureNo,
        index: u32,
    ) -> Result<Reply<A>, Refused>
        ensures { Executed self.old (commands.remove node feature index) (change_outcome (changed_view A.heard result)) self.new }
    {
        self.change(Change::At(End { node, feature }, Act::Remove(index)))
    }

    /// Takes the first occurrence of a value out of a list, and returns whether there was one (EMF: EList.remove). If there was none,
    /// nothing changes and no adapter is notified. Otherwise, if the list is of a reference, the link of the value is cut at both ends. The
    /// adapters at the opposite end of the link, if there is one, are notified first: of SET to null if that end is single, else of REMOVE.
    /// Then the adapters at the list are notified of REMOVE. The deep adapters above each end are notified too.
    ///
    /// Refused, the first that applies: `NoObject` if the node or the value is an object that does not live, `NoResource`, `NoFeature`,
    /// `NotMany`, `WrongType`, `TextLength`, `AdapterFull`, `Memory`.
    pub fn remove_value(
        &mut self,
        node: Node,
        feature: FeatureNo,
        value: Value,
    ) -> Result<Reply<A>, Refused>
        ensures { Executed self.old (commands.remove_value node feature value) (change_outcome (changed_view A.heard result)) self.new }
    {
        self.change(Change::At(End { node, feature }, Act::RemoveValue(value)))
    }

    /// Moves the value at the index `from` of a list, so that the value is then at the index `to`, and returns the value (EMF: EList.move).
    /// The adapters at the list and the deep adapters above it are notified of MOVE, even if both indexes are the same. The opposite ends
    /// stay as they are.
    ///
    /// Refused, the first that applies: `NoObject`, `NoResource`, `NoFeature`, `NotMany`, `Index` if `to` or `from` is past the last value,
    /// `AdapterFull`, `Memory`.
    pub fn move_to(
        &mut self,
        node: Node,
        feature: FeatureNo,
        to: u32,
        from: u32,
    ) -> Result<Reply<A>, Refused>
        ensures { Executed self.old (commands.move node feature to from) (change_outcome (changed_view A.heard result)) self.new }
    {
        self.change(Change::At(End { node, feature }, Act::Move { to, from }))
    }
}
