//! Which word of a bad line is wrong.
use crate::forms::{count_of, form_of, is_of, sort_of, verb_of, verbs};
use explain::nearest;
use script_lines::words_of;
use std::alloc::{AllocError, Global};
use std::str;

/// Adds a line to `out` if `word`, a word of a bad line, is not of the kind that the word `sort` of the form asks for. `number` is the
/// number of the bad line.
fn explain_word(
    alloc: Global,
    out: &mut String,
    number: u64,
    sort: &str,
    word: &str,
) -> Result<(), AllocError> {
    let Some(sort) = sort_of(sort) else {
        return Ok(());
    };
    if is_of(alloc, sort, word)? {
        return Ok(());
    }
    writeln!(out, "line {number}: {word:?} is not {}", sort.wanted)
}

/// Says that a line has too few words or too many; or else, which words after the verb are not of their kind.
fn explain_form(
    alloc: Global,
    out: &mut String,
    number: u64,
    form: &str,
    words: &[&str],
) -> Result<(), AllocError> {
    let count = count_of(form);
    if words.len() < count {
        return writeln!(out, "line {number}: words are missing; the form is: {form}");
    }
    if words.len() > count && verb_of(form) != "load" {
        return writeln!(
            out,
            "line {number}: there are too many words; the form is: {form}"
        );
    }
    for (sort, word) in form.split(' ').zip(words).skip(1) {
        explain_word(alloc, out, number, sort, word)?;
    }
    Ok(())
}

fn explain_verb(
    alloc: Global,
    out: &mut String,
    number: u64,
    verb: &str,
) -> Result<(), AllocError> {
    let verbs = verbs(alloc)?;
    match nearest(alloc, verb, verbs.as_slice())? {
        Some(meant) => writeln!(
            out,
            "line {number}: unknown verb {verb:?}; is {meant:?} meant?"
        ),
        None => writeln!(
            out,
            "line {number}: unknown verb {verb:?}; mmrepo --help has them all"
        ),
    }
}

/// Explains a bad line of a script. One line is added if the bad line is not UTF-8, has an unknown verb, or has too few or too many words;
/// otherwise a line for each word that is not of its kind. Fails only if memory is refused.
pub fn explain_bad_line(
    alloc: Global,
    out: &mut String,
    number: u64,
    line: &[u8],
) -> Result<(), AllocError> {
    let Ok(text) = str::from_utf8(line) else {
        return writeln!(out, "line {number}: it is not UTF-8");
    };
    let words = words_of(text);
    let Some(verb) = words.as_slice().first() else {
        return Ok(());
    };
    match form_of(verb, words.as_slice().len()) {
        Some(form) => explain_form(alloc, out, number, form, words.as_slice()),
        None => explain_verb(alloc, out, number, verb),
    }
}
