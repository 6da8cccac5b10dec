//! The most frequent lines, which are read without a list of their words. Most lines of a script are of these forms, and cutting a line
//! into a list of words takes longer than the change that the line asks for. The other functions of this file are inlined into
//! `frequent_of`, so that the parts of a line that were read need not be stored in memory.
ghost use Rattle.std.specs.Prelude.{◌≡◌, IfSome, None, option_map};
ghost use Rattle.std.specs.List.{after_first, before_first};
ghost use Rattle.script_lines.specs.Forms.{text_line};
ghost use Rattle.frequent_lines.specs.Frequent.{act_in, add_in, alone, at_in, frequent_in, frequent_line, move_in, object_feature_in, word_in as the_word_in};
ghost use Rattle.script_lines.specs.Values.{name_in, object_in};
ghost use Rattle.frequent_lines.specs.Verbs.{long_verb, short_verb, short_verb_in};
ghost use Rattle.script_lines.specs.Words.{is_space};
ghost use Rattle.frequent_lines.specs.declared.frequent.Frequent.TheVariants as frequent;

use crate::bare_act::BareAct;
use crate::frequent_act::FrequentAct;
use crate::verbs::{
    LongVerb, ShortVerb, asks_container, asks_fragment, long_verb_of, short_verb_of, verb_len_of,
};
use crate::word::Word;
use mm_types::ObjectNo;
use script_lines::grammar::{OBJECT_MARK, SPACE};
use script_lines::{
    Name, after_byte, cut_at, is_word, natural_of, number_before_space, object_of, word_len_of,
};

/// A line of one of the most frequent forms. Classes and features are given by the names that are in the line.
#[derive(Drop)]
pub enum Frequent<'a> {
    /// `new NAME`
    New(Name<'a>),
    /// `container OBJ`
    Container(ObjectNo),
    /// `fragment OBJ`
    Fragment(ObjectNo),
    /// What the line asks of a feature of an object, or does to the feature.
    At(ObjectNo, Name<'a>, FrequentAct<'a>),
}

/// Reads an object from the bytes before the first space of a text. Returns the object, and the text after that space. If the text has no
/// space, the object is read from the whole text, and the returned text is empty. `None` if the bytes name no object.
#[inline(always)]
fn object_before_space(text: &str) -> Option<(ObjectNo, &str)>
    ensures object { option_map (λ p. p.0) result ≡ object_in (before_first is_space text.now) }
    ensures rest { IfSome result (λ p. p.1.now ≡ after_first is_space text.now) }
{
    if text.is_empty() {
        return None;
    }
    if text.as_bytes()[0] != OBJECT_MARK {
        return None;
    }
    let (number, rest) = number_before_space(after_byte(text))?;
    Some((ObjectNo(number), rest))
}

/// Reads `OBJ NAME` at the beginning of a text. Returns the object, the name of the feature, and the text after the space that follows the
/// name; this text is empty if no space follows. `None` if the text does not begin with `OBJ NAME`.
#[inline(always)]
fn object_feature_of(text: &str) -> Option<(ObjectNo, Name<'_>, &str)>
    ensures feature { option_map (λ p. (p.0, p.1)) result ≡ object_feature_in text.now }
    ensures rest { IfSome result (λ p. p.2.now ≡ after_first is_space (after_first is_space text.now)) }
{
    let (object, rest) = object_before_space(text)?;
    let (feature, more) = Name::before_space(rest)?;
    Some((object, feature, more))
}

/// The act `act`, which takes no arguments, if the text of the arguments is empty; otherwise `None`.
#[inline(always)]
fn alone_of<'a>(act: FrequentAct<'a>, args: &str) -> Option<FrequentAct<'a>>
    ensures { result ≡ alone act.entry args.now }
{
    if args.is_empty() { Some(act) } else { None }
}

/// The text as a word; `None` if the text is not exactly one word.
#[inline(always)]
fn word_of(text: &str) -> Option<Word<'_>>
    ensures { result ≡ the_word_in text.now }
{
    if is_word(text) {
        Some(Word::new(text))
    } else {
        None
    }
}

/// An addition, read from its arguments: a word for a value, or this word and an index. `None` if the arguments are neither.
#[inline(always)]
fn add_of(args: &str) -> Option<FrequentAct<'_>>
    ensures { result ≡ add_in args.now }
{
    let bytes = args.as_bytes();
    if bytes.is_empty() || bytes[0] == SPACE {
        return None;
    }
    let len = word_len_of(bytes);
    if len == bytes.len() {
        return Some(FrequentAct::Add(Word::new(args), None));
    }
    let (word, index) = cut_at(args, len);
    let index = natural_of(index)?;
    Some(FrequentAct::Add(Word::new(word), Some(index)))
}

/// A move, read from its arguments: two indexes. `None` if the arguments are not two indexes.
#[inline(always)]
fn move_of(args: &str) -> Option<FrequentAct<'_>>
    ensures { result ≡ move_in args.now }
{
    let (to, rest) = number_before_space(args)?;
    let from = natural_of(rest)?;
    Some(FrequentAct::Bare(BareAct::Move { to, from }))
}

/// What a line about a feature asks for, by its verb of three letters. `args` is the text after the name of the feature. `None` for `new`,
/// which names no feature, and if `args` does not fit the verb.
#[inline(always)]
fn short_act_of(verb: ShortVerb, args: &str) -> Option<FrequentAct<'_>>
    ensures { result ≡ act_in (short_verb verb) args.now }
{
    match verb {
        ShortVerb::Set => Some(FrequentAct::Set(word_of(args)?)),
        ShortVerb::Get => alone_of(FrequentAct::Get, args),
        ShortVerb::Add => add_of(args),
        ShortVerb::New => None,
    }
}

/// What a line about a feature asks for, by its verb of more than three letters. `args` is the text after the name of the feature. `None`
/// if `args` does not fit the verb.
#[inline(always)]
fn long_act_of(verb: LongVerb, args: &str) -> Option<FrequentAct<'_>>
    ensures { result ≡ act_in (long_verb verb) args.now }
{
    match verb {
        LongVerb::IsSet => alone_of(FrequentAct::IsSet, args),
        LongVerb::Unset => alone_of(FrequentAct::Bare(BareAct::Unset), args),
        LongVerb::Remove => Some(FrequentAct::Bare(BareAct::Remove(natural_of(args)?))),
        LongVerb::RemoveValue => Some(FrequentAct::RemoveValue(word_of(args)?)),
        LongVerb::Move => move_of(args),
        LongVerb::Resolve => Some(FrequentAct::Bare(BareAct::Resolve(natural_of(args)?))),
    }
}

/// A line about a feature, read from a verb of three letters and the text after the verb and its space. `None` if the line is not frequent,
/// and for `new`.
#[inline(always)]
fn short_line_of(verb: ShortVerb, text: &str) -> Option<Frequent<'_>>
    ensures { result ≡ at_in (short_verb verb) text.now }
{
    let (object, feature, args) = object_feature_of(text)?;
    let act = short_act_of(verb, args)?;
    Some(Frequent::At(object, feature, act))
}

/// A line about a feature, read from a verb of more than three letters and the text after the verb and its space. `None` if the line is not
/// frequent.
#[inline(always)]
fn long_line_of(verb: LongVerb, text: &str) -> Option<Frequent<'_>>
    ensures { result ≡ at_in (long_verb verb) text.now }
{
    let (object, feature, args) = object_feature_of(text)?;
    let act = long_act_of(verb, args)?;
    Some(Frequent::At(object, feature, act))
}

/// `new NAME`
#[inline(always)]
fn new_of(class: &str) -> Option<Frequent<'_>>
    ensures { result ≡ option_map frequent.New (name_in class.now) }
{
    Some(Frequent::New(Name::from_word(class)?))
}

/// `container OBJ`
#[inline(always)]
fn container_of<'a>(object: &str) -> Option<Frequent<'a>>
    ensures { result ≡ option_map frequent.Container (object_in object.now) }
{
    Some(Frequent::Container(object_of(object)?))
}

/// `fragment OBJ`
#[inline(always)]
fn fragment_of<'a>(object: &str) -> Option<Frequent<'a>>
    ensures { result ≡ option_map frequent.Fragment (object_in object.now) }
{
    Some(Frequent::Fragment(object_of(object)?))
}

/// A line that does not begin with `new`, `get`, `set` or `add` and a space; `None` if the line is not frequent.
#[inline(always)]
fn other_line_of(line: &str) -> Option<Frequent<'_>>
    requires { short_verb_in line.now ≡ None }
    ensures { result ≡ frequent_in line.now }
{
    if let Some(verb) = long_verb_of(line) {
        return long_line_of(verb, &line[verb_len_of(verb) + 1..]);
    }
    if asks_container(line) {
        return container_of(&line[10..]);
    }
    if asks_fragment(line) {
        return fragment_of(&line[9..]);
    }
    None
}

/// Reads a line of one of the most frequent forms, with one space between its words. `None` for a line of any other form, and for a line
/// with further spaces before, between or after its words; but a line of `get`, `isset` or `unset` may have one space at its end. Takes no
/// memory.
pub fn frequent_of(line: &str) -> Option<Frequent<'_>>
    ensures read { result ≡ frequent_in line.now }
    ensures line { IfSome result (λ f. text_line line.now ≡ frequent_line f) }
{
    let Some(verb) = short_verb_of(line) else {
        return other_line_of(line);
    };
    let rest = &line[4..];
    if let ShortVerb::New = verb {
        return new_of(rest);
    }
    short_line_of(verb, rest)
}
