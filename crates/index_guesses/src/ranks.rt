//! Guesses at the index of a value in a list that is in the order of its values' ranks. A rank is a number that a value has by itself, for
//! example the number of an object.

/// A guess at the index of `rank` among the `len` ranks that `rank_at` gives. The guess is right if `rank` is the first or the last rank.
/// It is also right if each index has a rank, the ranks rise or fall along the list, and `rank` is one of these ranks. Otherwise the guess
/// may be any index; for an empty list it is 0.
pub fn by_rank<F: Fn(usize) -> Option<u64>>(len: usize, rank: u64, rank_at: F) -> usize
    requires { F.IsAlwaysCallable rank_at }
{
    let last = len.saturating_sub(1);
    if rank_at(last) == Some(rank) {
        return last;
    }
    let first = rank_at(0);
    if first == Some(rank) {
        return 0;
    }
    let rises = first < rank_at(last);
    let mut low = 0;
    let mut high = last;
    while low < high {
        let middle = low + (high - low) / 2;
        match rank_at(middle) {
            Some(found) if found == rank => return middle,
            Some(found) if (found < rank) == rises => low = middle + 1,
            _ => high = middle,
        }
    }
    low
}
