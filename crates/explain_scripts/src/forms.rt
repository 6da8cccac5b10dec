//! The forms of the lines of a script, and the kinds of the words in a line.
use script_lines::{Line, parse_line};
use std::alloc::{AllocError, Global};

/// The forms, in the order of the table of commands in `docs/SCRIPT.md`. Two forms of the table that differ only in `flat` and `deep` are
/// one form here, which ends with `flat|deep`.
pub(crate) static FORMS: [&str; 28] = [
    "new NAME",
    "set NODE NAME VALUE",
    "unset NODE NAME",
    "get NODE NAME",
    "add NODE NAME VALUE",
    "add NODE NAME VALUE N",
    "remove NODE NAME N",
    "removevalue NODE NAME VALUE",
    "move NODE NAME N N",
    "resource STR",
    "load RES REST",
    "resolve OBJ NAME N",
    "resolveall",
    "isset NODE NAME",
    "delete OBJ",
    "validate OBJ",
    "class OBJ",
    "container OBJ",
    "within OBJ",
    "contents NODE",
    "fragment OBJ",
    "at STR",
    "save RES",
    "attach AD NODE flat|deep",
    "watch AD NODE flat|deep",
    "unwatch AD NODE",
    "detach AD",
    "seen AD",
];

/// A word of a form that stands for any word of a kind, as `NAME` stands for any name.
pub(crate) struct Sort {
    name: &'static str,
    /// The beginning of a line. If one word is added to this beginning, the line has one of the forms exactly if the word is of this kind.
    before: &'static str,
    /// What a word of this kind is, in words for a reader.
    pub(crate) wanted: &'static str,
}

static SORTS: [Sort; 9] = [
    Sort {
        name: "NAME",
        before: "new",
        wanted: "a name: a letter or _, and then letters, digits and _",
    },
    Sort {
        name: "N",
        before: "remove #0 x",
        wanted: "a number, as 0 or 17",
    },
    Sort {
        name: "OBJ",
        before: "class",
        wanted: "an object, as #0",
    },
    Sort {
        name: "RES",
        before: "save",
        wanted: "a resource, as r0",
    },
    Sort {
        name: "NODE",
        before: "contents",
        wanted: "an object or a resource, as #0 or r0",
    },
    Sort {
        name: "AD",
        before: "seen",
        wanted: "an adapter, as A1",
    },
    Sort {
        name: "STR",
        before: "at",
        wanted: "a text in quotation marks, as \"Emma\"",
    },
    Sort {
        name: "VALUE",
        before: "set #0 x",
        wanted: "a value: null, true, false, a whole number, a text in quotation marks, :LITERAL, or an object, as #0",
    },
    Sort {
        name: "flat|deep",
        before: "attach A1 #0",
        wanted: "flat or deep",
    },
];

/// The kind of words that a word of a form stands for; `None` for a verb, and for `REST`, the rest of a line.
pub(crate) fn sort_of(word: &str) -> Option<&'static Sort> {
    for sort in SORTS.iter() {
        if sort.name == word {
            return Some(sort);
        }
    }
    None
}

/// Whether a word of a line is of the kind `sort`. Fails only if memory is refused.
pub(crate) fn is_of(alloc: Global, sort: &Sort, word: &str) -> Result<bool, AllocError> {
    let before = sort.before;
    let line = format!(in alloc; "{before} {word}")?;
    let parsed = parse_line(alloc, line.as_str().as_bytes())?;
    Ok(matches!(parsed, Line::Form(_)))
}

/// The verb of a form.
pub(crate) fn verb_of(form: &str) -> &str {
    form.split(' ').next().unwrap_or(form)
}

/// How many words a form has.
pub(crate) fn count_of(form: &str) -> usize {
    form.split(' ').count()
}

/// The form with the verb `verb` and `count` words. If there is no such form, the first form with the verb; `None` if no form has the verb.
pub(crate) fn form_of(verb: &str, count: usize) -> Option<&'static str> {
    let mut found = None;
    for form in FORMS.iter() {
        if verb_of(form) == verb && (found.is_none() || count_of(form) == count) {
            found = Some(*form);
        }
    }
    found
}

/// The verbs of all forms; `add` comes twice, since two forms have this verb.
pub(crate) fn verbs(alloc: Global) -> Result<Vec<&'static str>, AllocError> {
    let mut verbs = Vec::new(alloc);
    for form in FORMS.iter() {
        verbs.push(verb_of(form))?;
    }
    Ok(verbs)
}
