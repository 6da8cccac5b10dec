//! The hole in a list of pieces: one piece has one value less than it would have if each piece were filled before the next.
ghost use Rattle.std.specs.Prelude.{◌≡◌, ◌+◌, ◌*◌, ◌<◌, ◌≤◌, length};
ghost use Rattle.slot_lists.specs.Pieces.{joined_values, HasHole};

use crate::piece::Piece;

/// Moves the hole from the piece `from` to the piece `to`, and keeps the values in their order. If the hole is counted as a value, there
/// are `len` values, and each piece is filled before the next.
pub(crate) fn move_hole<T: Drop>(pieces: &mut Vec<Piece<T>>, len: usize, from: usize, to: usize)
    requires from { HasHole len from pieces.old.items }
    requires to { 1024 * to < len }
    requires room { len ≤ 1024 * length pieces.old.items }
    ensures count { length pieces.new.items ≡ length pieces.old.items }
    ensures values { joined_values pieces.new.items ≡ joined_values pieces.old.items }
    ensures hole { HasHole len to pieces.new.items }
{
    let mut hole = from;
    while hole < to {
        let value = pieces[hole + 1].pop_first();
        pieces[hole].push_last(value);
        hole += 1;
    }
    while hole > to {
        let value = pieces[hole - 1].pop_last();
        pieces[hole].push_first(value);
        hole -= 1;
    }
}
