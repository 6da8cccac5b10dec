//! Objects that would be below themselves, that are in no resource, that refer to an object in no resource, or that are too deep.
use crate::named::object_value;
use crate::scene::{Scene, Written};
use adapters::Adapter;
use links::LinkStore;
use mm_types::{End, Node, ObjectNo, limits};
use models::Found;
use script_lines::Form;
use std::alloc::AllocError;
use std::collections::VecDeque;

/// An object below a resource, and its level; the roots of the resource are at level 1.
#[derive(Clone, Copy)]
struct Placed {
    object: ObjectNo,
    level: usize,
}

/// What is looked for in a resource.
#[derive(Clone, Copy)]
enum Sought {
    /// An object that refers to an object in no resource.
    Dangling,
    /// An object at a deeper level than `limits::LEVELS`, the deepest level that a document can have.
    TooDeep,
}

impl<L: LinkStore, A: Adapter> Scene<'_, L, A> {
    /// Explains that an object would be put into itself, or into an object below it.
    pub(crate) fn explain_recursive(&self, out: &mut String, form: &Form<'_>, end: End) -> Written {
        let prefix = self.prefix;
        let (Node::Object(near), Some(far)) = (end.node, object_value(form)) else {
            return Ok(());
        };
        let (holder, part) = if self.repository.meta().is_container(end.feature) {
            (far, near)
        } else {
            (near, far)
        };
        let part_called = self.object_called(part)?;
        if holder == part {
            return writeln!(out, "{prefix}: {part_called} can't be put into itself");
        }
        let holder_called = self.object_called(holder)?;
        writeln!(
            out,
            "{prefix}: {holder_called} is below {part_called}, which can't be put into it"
        )
    }

    /// Whether an object is in no resource.
    fn is_outside(&self, object: ObjectNo) -> bool {
        matches!(self.repository.e_resource(object), Ok(None))
    }

    /// Of the values at an end, the first that is an object in no resource; `None` if there is none.
    fn outside_at(&self, end: End) -> Option<ObjectNo> {
        if let Ok(found) = self.repository.value(end.node, end.feature) {
            return match found {
                Some(Found::Object(object)) if self.is_outside(object) => Some(object),
                _ => None,
            };
        }
        for index in 0..self.len(end) {
            if let Ok(Found::Object(object)) = self
                .repository
                .list_value(end.node, end.feature, index)
                && self.is_outside(object)
            {
                return Some(object);
            }
        }
        None
    }

    /// The first reference by which the object `object` refers to an object in no resource, and the first value of this reference that is
    /// in no resource.
    fn outside_of(&self, object: ObjectNo) -> Option<(End, ObjectNo)> {
        let meta = self.repository.meta();
        let node = Node::Object(object);
        for feature in meta.features(self.repository.e_class(object).ok()?)? {
            let feature = *feature;
            let end = End { node, feature };
            if meta.is_reference(feature)
                && let Some(outside) = self.outside_at(end)
            {
                return Some((end, outside));
            }
        }
        None
    }

    /// Adds to `queue` the objects that a node contains directly, each with the level `level`.
    fn add_contents(&self, queue: &mut VecDeque<Placed>, node: Node, level: usize) -> Written {
        let Ok(contents) = self.repository.e_contents(node) else {
            return Err(AllocError);
        };
        for object in contents.as_slice() {
            queue.push_back(Placed {
                object: *object,
                level,
            })?;
        }
        Ok(())
    }

    /// Whether an object has the fault that is looked for. If so, adds the line that explains the fault.
    fn is_found(
        &self,
        out: &mut String,
        sought: Sought,
        placed: Placed,
    ) -> Result<bool, AllocError> {
        let prefix = self.prefix;
        match sought {
            Sought::Dangling => {
                let Some((end, outside)) = self.outside_of(placed.object) else {
                    return Ok(false);
                };
                let called = self.end_called(end)?;
                let outside = self.object_called(outside)?;
                writeln!(
                    out,
                    "{prefix}: {called} refers to {outside}, which is in no resource; put it, or what contains it, into the contents of one"
                )?;
            }
            Sought::TooDeep => {
                if placed.level <= limits::LEVELS {
                    return Ok(false);
                }
                let called = self.object_called(placed.object)?;
                let level = placed.level;
                let last = limits::LEVELS;
                writeln!(
                    out,
                    "{prefix}: {called} is at level {level}, and the last is {last}"
                )?;
            }
        }
        Ok(true)
    }

    /// Goes through the objects of a resource, level by level, and explains the first object that has the fault that is looked for.
    fn explain_first(&self, out: &mut String, resource: Node, sought: Sought) -> Written {
        let mut queue = VecDeque::new(self.alloc);
        self.add_contents(&mut queue, resource, 1)?;
        for _ in 0..=limits::OBJECTS {
            let Some(placed) = queue.pop_front() else {
                return Ok(());
            };
            if self.is_found(out, sought, placed)? {
                return Ok(());
            }
            let level = placed.level.saturating_add(1);
            self.add_contents(&mut queue, Node::Object(placed.object), level)?;
        }
        Ok(())
    }

    /// Explains the refusal `Dangling`. If the line names an object, this object is in no resource. If the line names a resource, some
    /// objects of the resource refer to objects that are in no resource. The objects of the resource are searched level by level, and the
    /// first that refers to an object in no resource is explained.
    pub(crate) fn explain_dangling(&self, out: &mut String, node: Node) -> Written {
        match node {
            Node::Object(object) => {
                let prefix = self.prefix;
                let called = self.object_called(object)?;
                writeln!(
                    out,
                    "{prefix}: {called} is in no resource; put it, or what contains it, into the contents of one"
                )
            }
            Node::Resource(_) => self.explain_first(out, node, Sought::Dangling),
        }
    }

    /// Explains which object of a resource is at a deeper level than `limits::LEVELS`: the first such object, level by level.
    pub(crate) fn explain_too_deep(&self, out: &mut String, node: Node) -> Written {
        self.explain_first(out, node, Sought::TooDeep)
    }
}
