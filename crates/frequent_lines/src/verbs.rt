//! The verbs of the most frequent lines, read from the first bytes of a line.
ghost use Rattle.std.specs.Prelude.{◌≡◌, codes, length, nat_eq};
ghost use Rattle.std.specs.List.{starts_with};
ghost use Rattle.frequent_lines.specs.Verbs.{long_verb, long_verb_in, short_verb_in};

/// A verb of three letters.
#[derive(Clone, Copy, Drop)]
pub(crate) enum ShortVerb {
    New,
    Get,
    Set,
    Add,
}

/// A verb of more than three letters whose lines are about a feature. `container` and `fragment`, whose lines name no feature, are not
/// among these verbs.
#[derive(Clone, Copy, Drop)]
pub(crate) enum LongVerb {
    IsSet,
    Unset,
    Remove,
    RemoveValue,
    Move,
    Resolve,
}

/// The verb of three letters that a line begins with, if a space follows the verb.
#[inline(always)]
pub(crate) fn short_verb_of(line: &str) -> Option<ShortVerb>
    ensures { result ≡ short_verb_in line.now }
{
    match line.as_bytes() {
        [b'n', b'e', b'w', b' ', ..] => Some(ShortVerb::New),
        [b'g', b'e', b't', b' ', ..] => Some(ShortVerb::Get),
        [b's', b'e', b't', b' ', ..] => Some(ShortVerb::Set),
        [b'a', b'd', b'd', b' ', ..] => Some(ShortVerb::Add),
        _ => None,
    }
}

/// The `LongVerb` that a line begins with, if a space follows the verb.
#[inline(always)]
pub(crate) fn long_verb_of(line: &str) -> Option<LongVerb>
    ensures { result ≡ long_verb_in line.now }
{
    match line.as_bytes() {
        [b'i', b's', b's', b'e', b't', b' ', ..] => Some(LongVerb::IsSet),
        [b'u', b'n', b's', b'e', b't', b' ', ..] => Some(LongVerb::Unset),
        [b'r', b'e', b'm', b'o', b'v', b'e', b' ', ..] => Some(LongVerb::Remove),
        [
            b'r',
            b'e',
            b'm',
            b'o',
            b'v',
            b'e',
            b'v',
            b'a',
            b'l',
            b'u',
            b'e',
            b' ',
            ..
        ] => Some(LongVerb::RemoveValue),
        [b'm', b'o', b'v', b'e', b' ', ..] => Some(LongVerb::Move),
        [b'r', b'e', b's', b'o', b'l', b'v', b'e', b' ', ..] => Some(LongVerb::Resolve),
        _ => None,
    }
}

/// How many letters a verb has.
#[inline(always)]
pub(crate) fn verb_len_of(verb: LongVerb) -> usize
    ensures { result ≡ length (long_verb verb) }
{
    match verb {
        LongVerb::IsSet => 5,
        LongVerb::Unset => 5,
        LongVerb::Remove => 6,
        LongVerb::RemoveValue => 11,
        LongVerb::Move => 4,
        LongVerb::Resolve => 7,
    }
}

/// Whether a line begins with `container` and a space.
#[inline(always)]
pub(crate) fn asks_container(line: &str) -> bool
    ensures { result ≡ starts_with nat_eq line.now (codes "container ") }
{
    matches!(
        line.as_bytes(),
        [
            b'c',
            b'o',
            b'n',
            b't',
            b'a',
            b'i',
            b'n',
            b'e',
            b'r',
            b' ',
            ..
        ]
    )
}

/// Whether a line begins with `fragment` and a space.
#[inline(always)]
pub(crate) fn asks_fragment(line: &str) -> bool
    ensures { result ≡ starts_with nat_eq line.now (codes "fragment ") }
{
    matches!(
        line.as_bytes(),
        [b'f', b'r', b'a', b'g', b'm', b'e', b'n', b't', b' ', ..]
    )
}
