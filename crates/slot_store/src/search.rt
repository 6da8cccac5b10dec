//! The position of a value in an end, and the index of an end among the entries of an object. The entries of an object are the ends without
//! opposite that have the object as a value.
//!
//! Most lists of values are made in the order of their objects' numbers. So the guess at the position of an object assumes that these
//! numbers rise or fall along the list; the last and the first position are tried before any other. Some removals from a long list test the
//! guess. If a tested guess is wrong, the next reservation of capacity for the list gives labels to its objects, if there is memory for the
//! labels. From then on positions are guessed from the labels. A list that may have proxies gets no labels. The guess at the position of a
//! proxy assumes that all objects come before all proxies, and that the proxy is the first proxy. A list is searched only if the guess is
//! wrong.
//!
//! Entries may be in any order. A cut that takes an end out of the entries of an object guesses the index of the end. If the guess is
//! wrong, the entries are sorted by `entry_rank`, so that the next guesses are right.
ghost use Rattle.std.specs.Prelude.{◌≡◌, position};
ghost use Rattle.mm_types.specs.Same.{same_end};
ghost use Rattle.mm_types.specs.declared.numbers.Node.TheVariants as node;
ghost use Rattle.links.specs.LegalSets.{IsDistinct};
ghost use Rattle.node_slots.specs.Cells.{AreReordered, cells, room};
ghost use Rattle.slot_store.specs.CellLinks.{IsOnce};
ghost use Rattle.slot_store.specs.Entering.{found_in};

use index_guesses::by_rank;
use mm_types::{End, Node, ObjectNo, Value};
use node_slots::{NodeSlots, entry_rank};

/// Whether two ends are the same.
pub(crate) fn is_same(a: End, b: End) -> bool
    ensures { result ≡ same_end a b }
{
    a == b
}

/// The index of a value in an end that has no value twice; `None` if the value is not there. The guessed index is tried first.
pub(crate) fn found(rows: &NodeSlots, end: End, value: &Value) -> Option<usize>
    requires { IsDistinct ((cells rows.now).vals end) }
    ensures { result ≡ found_in (cells rows.now) value.now end }
{
    let index = rows.guess(end, value);
    if rows.is_at(end, index, value) {
        return Some(index);
    }
    rows.position(end, value)
}

/// A guess at the index of an end among the entries of an object. If the entries are sorted by `entry_rank` and the end is one of them, the
/// guess is right; otherwise it may be any index.
fn entry_guess(rows: &NodeSlots, object: ObjectNo, end: End) -> usize {
    let node = Node::Object(object);
    by_rank(rows.entered_len(node), entry_rank(end), |index| {
        rows.entered_at(node, index).map(|there| entry_rank(*there))
    })
}

/// The index of an end among the entries of an object; `None` if the end is not there. No end comes twice among the entries. The index
/// `guess` is tried first.
pub(crate) fn entry_from(
    rows: &NodeSlots,
    object: ObjectNo,
    end: End,
    guess: usize,
) -> Option<usize>
    requires { IsOnce ((cells rows.now).entered (node.Object object)) }
    ensures { result ≡ position (same_end end) ((cells rows.now).entered (node.Object object)) }
{
    let node = Node::Object(object);
    match rows.entered_at(node, guess) {
        Some(there) if is_same(*there, end) => Some(guess),
        _ => rows.entered_position(node, end),
    }
}

/// The index of an end among the entries of an object; `None` if the end is not there. Makes a guess at the index, and passes it to
/// `entry_from`.
pub(crate) fn entry_found(rows: &NodeSlots, object: ObjectNo, end: End) -> Option<usize>
    requires { IsOnce ((cells rows.now).entered (node.Object object)) }
    ensures { result ≡ position (same_end end) ((cells rows.now).entered (node.Object object)) }
{
    entry_from(rows, object, end, entry_guess(rows, object, end))
}

/// A guess at the index of an end among the entries of an object. If the end is not at the guessed index, the entries are sorted by
/// `entry_rank`, and the index is guessed again. The sort makes at most one insertion for each entry, and sorted entries stay sorted after
/// a cut. So one sort is enough for many cuts of one object's entries. Takes no memory.
pub(crate) fn ordered_guess(rows: &mut NodeSlots, object: ObjectNo, end: End) -> usize
    ensures cells { AreReordered (cells rows.old) (cells rows.new) }
    ensures room { room rows.new ≡ room rows.old }
{
    let node = Node::Object(object);
    let guess = entry_guess(rows, object, end);
    match rows.entered_at(node, guess) {
        Some(there) if is_same(*there, end) => guess,
        _ => {
            rows.order_entries(node);
            entry_guess(rows, object, end)
        }
    }
}
