//! Proxies that can't be resolved.
use crate::called::URI_BYTES;
use crate::scene::{Scene, Written};
use adapters::Adapter;
use explain::front_of;
use links::LinkStore;
use mm_types::{End, Node, ObjectNo};
use models::Found;
use std::alloc::AllocError;
use web_uris::{Step, parse, split_address};

impl<'s, L: LinkStore, A: Adapter> Scene<'s, L, A> {
    /// The value at an index of a reference; for a single reference its value, whatever the index. `None` if no value is there.
    fn found_at(&self, end: End, index: u32) -> Option<Found<'s>> {
        let repository = self.repository;
        if repository.meta().is_single(end.feature) {
            repository.value(end.node, end.feature).ok()?
        } else {
            repository.list_value(end.node, end.feature, index).ok()
        }
    }

    /// The address of the proxy at an index of a reference; `None` if no proxy is there.
    fn address_at(&self, end: End, index: u32) -> Option<&'s str> {
        match self.found_at(end, index) {
            Some(Found::Proxy(text)) => Some(text),
            _ => None,
        }
    }

    /// The URI and the fragment in the address of the proxy at an index of a reference; `None` if no proxy is there.
    fn parts_at(&self, end: End, index: u32) -> Option<(&'s str, &'s str)> {
        split_address(self.address_at(end, index)?)
    }
}

impl<L: LinkStore, A: Adapter> Scene<'_, L, A> {
    /// The object at the address of the proxy at an index of a reference; `None` if no proxy is there, or if no object is at the address.
    pub(crate) fn led_to(&self, end: End, index: u32) -> Option<ObjectNo> {
        let address = self.address_at(end, index)?;
        self.repository.object_at(address).ok()?
    }

    /// Explains that the value at an index of a reference is no proxy.
    pub(crate) fn explain_not_proxy(&self, out: &mut String, end: End, index: u32) -> Written {
        let prefix = self.prefix;
        let called = self.end_called(end)?;
        match self.found_at(end, index) {
            Some(found) => {
                let found = self.found_called(&found)?;
                writeln!(
                    out,
                    "{prefix}: {called} has {found} at index {index}, and no proxy"
                )
            }
            None => writeln!(out, "{prefix}: {called} is null, and no proxy"),
        }
    }

    /// Explains that no resource has the URI of a proxy.
    pub(crate) fn explain_unloaded(&self, out: &mut String, end: End, index: u32) -> Written {
        let prefix = self.prefix;
        let Some((uri, _)) = self.parts_at(end, index) else {
            return Ok(());
        };
        let uri = front_of(uri, URI_BYTES);
        writeln!(
            out,
            "{prefix}: no resource has the URI {uri:?}; make one by resource, and load it"
        )
    }
}

/// How far the path of a fragment was followed: the address that was reached, and the object there.
#[derive(Drop)]
struct Way {
    address: String,
    object: ObjectNo,
}

impl<L: LinkStore, A: Adapter> Scene<'_, L, A> {
    /// The address and the object that are reached from `way` by one more step of the path; `None` if the step finds nothing.
    fn gone(&self, way: &Way, step: &Step) -> Result<Option<Way>, AllocError> {
        let name = step.name.as_str();
        let before = way.address.as_str();
        let address = match step.index {
            Some(index) => format!(in self.alloc; "{before}/@{name}.{index}")?,
            None => format!(in self.alloc; "{before}/@{name}")?,
        };
        match self.repository.object_at(address.as_str()) {
            Ok(Some(object)) => Ok(Some(Way { address, object })),
            _ => Ok(None),
        }
    }

    /// Explains that a step of a path finds nothing below `object`, the object that was reached before the step.
    fn explain_step(&self, out: &mut String, step: &Step, object: ObjectNo) -> Written {
        let prefix = self.prefix;
        let name = step.name.as_str();
        let called = self.object_called(object)?;
        match step.index {
            Some(index) => writeln!(
                out,
                "{prefix}: the proxy leads nowhere: \"@{name}.{index}\" finds nothing below {called}"
            ),
            None => writeln!(
                out,
                "{prefix}: the proxy leads nowhere: \"@{name}\" finds nothing below {called}"
            ),
        }
    }

    /// Explains which step of a path finds nothing; `root` is the object at which the path begins.
    fn explain_steps(&self, out: &mut String, root: Way, steps: &[Step]) -> Written {
        let mut way = root;
        for step in steps {
            match self.gone(&way, step)? {
                Some(more) => way = more,
                None => return self.explain_step(out, step, way.object),
            }
        }
        Ok(())
    }

    /// Explains why there is no object at an address of a resource that exists.
    fn explain_nowhere(&self, out: &mut String, uri: &str, fragment: &str) -> Written {
        let prefix = self.prefix;
        let Some(path) = parse(self.alloc, fragment)? else {
            return Ok(());
        };
        let root = path.root;
        let address = format!(in self.alloc; "{uri}#/{root}")?;
        match self.repository.object_at(address.as_str()) {
            Ok(Some(object)) => {
                self.explain_steps(out, Way { address, object }, path.steps.as_slice())
            }
            _ => {
                let uri = front_of(uri, URI_BYTES);
                writeln!(
                    out,
                    "{prefix}: the proxy leads nowhere: the resource of {uri:?} has no root at {root}"
                )
            }
        }
    }

    /// Explains that no object is at the address of a proxy.
    pub(crate) fn explain_unresolved(&self, out: &mut String, end: End, index: u32) -> Written {
        match self.parts_at(end, index) {
            Some((uri, fragment)) => self.explain_nowhere(out, uri, fragment),
            None => Ok(()),
        }
    }

    /// Explains that a proxy leads to an object whose opposite reference has no proxy that leads back.
    pub(crate) fn explain_unmatched(&self, out: &mut String, end: End, index: u32) -> Written {
        let prefix = self.prefix;
        let opposite = self.repository.meta().opposite(end.feature);
        let (Some(object), Some(opposite)) = (self.led_to(end, index), opposite) else {
            return Ok(());
        };
        let far = self.end_called(End {
            node: Node::Object(object),
            feature: opposite,
        })?;
        let near = self.node_called(end.node)?;
        writeln!(
            out,
            "{prefix}: {far} has no proxy that leads back to {near}"
        )
    }
}
