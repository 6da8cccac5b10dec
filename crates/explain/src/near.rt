//! Which word may have been meant.
use std::alloc::{AllocError, Global};
use strsim::levenshtein;

/// The greatest number of bytes of a word for which a near word is looked for. No key, no verb and none of the data types EString, EInt,
/// ELong and EBoolean is longer. A name of a metamodel may be longer.
const LONGEST: usize = 64;

/// The greatest number of edits between a word and a near word.
const MOST_EDITS: usize = 2;

/// The word of a list that is the fewest edits away from a given word; of several such words, the first. An edit inserts, deletes or
/// replaces one character. A word of the list is returned only if it is at most two edits away, and has more bytes than there are edits. A
/// given word of more than 64 bytes has no nearest word. Fails only if memory is refused.
pub fn nearest<'a>(
    alloc: Global,
    word: &str,
    others: &[&'a str],
) -> Result<Option<&'a str>, AllocError> {
    let mut found = None;
    if word.len() > LONGEST {
        return Ok(found);
    }
    let mut least = MOST_EDITS + 1;
    for other in others {
        let edits = levenshtein(alloc, word, other)?;
        if edits < least && edits < other.len() {
            least = edits;
            found = Some(*other);
        }
    }
    Ok(found)
}

/// Whether a list of words has a given word.
pub(crate) fn is_among(words: &[&str], word: &str) -> bool {
    for other in words {
        if *other == word {
            return true;
        }
    }
    false
}
