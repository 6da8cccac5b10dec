//! Which objects have adapters: a mark for each object number. A search through the nodes above a node skips the objects that are not
//! marked, so it needs no look-up for objects without adapters.
ghost use Rattle.std.specs.Prelude.{◌≡◌, ◌≤◌, ◌<◌, ℕ, true, false, get_or, length, nat_eq, OnOk, if◌then◌else◌};
ghost use Rattle.adapter_list.specs.Targets.{AreSameMarks, AreSetAt, HasMarkRoom, is_marked as is_marked_in};

use mm_types::Node;
use std::alloc::AllocError;

/// Whether a node is marked. Every resource counts as marked, so resources need no marks. A resource without adapters is then looked up for
/// nothing, but at most one resource is above a node.
pub(crate) fn is_marked(marks: &[bool], node: Node) -> bool
    ensures { result ≡ is_marked_in marks.now node }
{
    match node {
        Node::Object(object) => is_marked_at(marks, object.0 as usize),
        Node::Resource(_) => true,
    }
}

/// Whether the object with the number `number` is marked.
fn is_marked_at(marks: &[bool], number: usize) -> bool
    ensures { result ≡ get_or marks.now number false }
{
    let len = marks.len();
    if number < len {
        return marks[number];
    }
    false
}

/// Makes the list of marks long enough to have a mark for a node; a resource needs no mark. No mark changes. Fails only if memory is
/// refused.
pub(crate) fn reserve_mark(marks: &mut Vec<bool>, node: Node) -> Result<(), AllocError>
    ensures same { AreSameMarks marks.old.items marks.new.items }
    ensures room { OnOk result (HasMarkRoom marks.new.items node) }
{
    match node {
        Node::Object(object) => lengthen(marks, object.0 as usize + 1),
        Node::Resource(_) => Ok(()),
    }
}

/// If the list has fewer than `len` marks, adds the mark `false` at the end until it has `len`. Fails only if memory is refused.
fn lengthen(marks: &mut Vec<bool>, len: usize) -> Result<(), AllocError>
    ensures same { AreSameMarks marks.old.items marks.new.items }
    ensures room { OnOk result (len ≤ length marks.new.items) }
{
    let old = marks.len();
    if old < len {
        marks.resize(len, false)?;
    }
    Ok(())
}

/// If the node is an object, marks the object if `value` is true, and takes its mark away if `value` is false. If the node is a resource,
/// no mark changes. To mark an object, the list must be long enough (`reserve_mark`).
pub(crate) fn set_mark(marks: &mut Vec<bool>, node: Node, value: bool)
    requires { value ≡ true → HasMarkRoom marks.old.items node }
    ensures { AreSetAt marks.old.items node value marks.new.items }
{
    if let Node::Object(object) = node {
        set_mark_at(marks, object.0 as usize, value);
    }
}

/// Marks the object with the number `number` if `value` is true, and takes its mark away if `value` is false. If the list has no mark for
/// the object, there is nothing to take away, and `value` must be false.
fn set_mark_at(marks: &mut Vec<bool>, number: usize, value: bool)
    requires { value ≡ true → number < length marks.old.items }
    ensures { (i : ℕ) → get_or marks.new.items i false ≡ (if nat_eq number i then value else get_or marks.old.items i false) }
{
    let len = marks.len();
    if number < len {
        marks[number] = value;
    }
}
