//! Replaces proxies by the objects at their addresses.
ghost use Rattle.repository.specs.Run.{Executed, change_outcome};
ghost use Rattle.repository.specs.Views.{changed_view};
ghost use Rattle.repository.specs.Commands as commands;
ghost use Rattle.repository.specs.declared.command.Command.TheVariants.{ResolveAll};

use super::Repository;
use crate::reply::Reply;
use adapters::Adapter;
use handshake::{Act, Change};
use links::LinkStore;
use mm_types::{End, FeatureNo, Node, ObjectNo, Refused};

impl<L: LinkStore, A: Adapter> Repository<L, A> {
    /// Replaces the proxy at an index of a reference by the object at the proxy's address (EMF: EcoreUtil.resolve). At a single reference
    /// the index is 0. If the reference has an opposite, the referring object (`object`) replaces a proxy at the opposite end too: the
    /// first proxy there that leads back to the referring object. Returns the object at the proxy's address. The adapters at the opposite
    /// end, if there is one, are notified of RESOLVE first, and then the adapters at the reference.
    ///
    /// Refused, the first that applies: `NoObject`, `NoFeature`, `WrongType` if the feature is an attribute or doesn't take the object at
    /// the proxy's address, `Index` if no value is at the index, `Duplicate` if the reference has the object at the proxy's address
    /// already, `NotProxy` if the value at the index is an object, `Unloaded` if no resource has the URI in the proxy's text, `Unresolved`
    /// if no object is at the proxy's address, `Unmatched` if the reference has an opposite but no proxy at the opposite end leads back to
    /// the referring object, `AdapterFull`, `Memory`.
    pub fn resolve(
        &mut self,
        object: ObjectNo,
        feature: FeatureNo,
        index: u32,
    ) -> Result<Reply<A>, Refused>
        ensures { Executed self.old (commands.resolve object feature index) (change_outcome (changed_view A.heard result)) self.new }
    {
        let node = Node::Object(object);
        self.change(Change::At(End { node, feature }, Act::Resolve(index)))
    }

    /// Resolves all proxies, one after another (EMF: EcoreUtil.resolveAll). The proxies are ordered by the number of the referring object,
    /// then by feature in the order of all features, then by index. Each proxy is resolved as by `resolve`, in the state after the earlier
    /// resolves. A proxy is skipped if `resolve` would then be refused, for a reason other than `AdapterFull` and `Memory`. Returns how
    /// many proxies were resolved (two at the ends of one link count as one), and how many are left. For each resolve the adapters at the
    /// opposite end, if there is one, are notified of RESOLVE first, and then the adapters at the reference.
    ///
    /// Refused, the first that applies: `AdapterFull`, `Memory`. In both cases no proxy is resolved.
    pub fn resolve_all(&mut self) -> Result<Reply<A>, Refused>
        ensures { Executed self.old ResolveAll (change_outcome (changed_view A.heard result)) self.new }
    {
        self.change(Change::ResolveAll)
    }
}
