//! Nodes, adapters, features and values, read from words.
ghost use Rattle.std.specs.Prelude.{◌≡◌, ◌≢◌, ◌<◌, IfOk, false, length, option_map, slice_index};
ghost use Rattle.std.specs.Char.{is_ascii_digit};
ghost use Rattle.mm_types.specs.Integers.{integer};
ghost use Rattle.script_lines.specs.Values.{adapter_in, feature_in, feature_value_in, node_in, number_in, object_in, resource_in, string_in, text_in, value_in, word_value_in};
ghost use Rattle.script_lines.specs.declared.written_value.WrittenValue.TheVariants as written;

use crate::grammar::{ADAPTER_MARK, LITERAL_MARK, MINUS, OBJECT_MARK, QUOTE, RESOURCE_MARK};
use crate::name::Name;
use crate::numbers::{int_of, natural_of};
use crate::texts::text_of;
use crate::words::after_byte;
use crate::written_value::WrittenValue;
use mm_types::{AdapterNo, Node, ObjectNo, ResourceNo, Text};
use std::alloc::{AllocError, Global};

/// The number that a word has after a mark; `None` if the word does not begin with the mark, or no number follows the mark.
fn number_of(mark: u8, word: &str) -> Option<u32>
    requires { mark < 128 }
    ensures { result ≡ number_in mark word.now }
{
    if *word.as_bytes().first()? == mark {
        natural_of(after_byte(word))
    } else {
        None
    }
}

/// The object that a word names: `#3`.
pub fn object_of(word: &str) -> Option<ObjectNo>
    ensures { result ≡ object_in word.now }
{
    number_of(OBJECT_MARK, word).map(ObjectNo)
}

/// The adapter that a word names: `A7`.
pub fn adapter_of(word: &str) -> Option<AdapterNo>
    ensures { result ≡ adapter_in word.now }
{
    number_of(ADAPTER_MARK, word).map(AdapterNo)
}

/// The resource that a word names: `r0`.
pub fn resource_no_of(word: &str) -> Option<ResourceNo>
    ensures { result ≡ resource_in word.now }
{
    number_of(RESOURCE_MARK, word).map(ResourceNo)
}

/// The node that a word names: `#3` or `r0`.
pub fn node_of(word: &str) -> Option<Node>
    ensures { result ≡ node_in word.now }
{
    match *word.as_bytes().first()? {
        OBJECT_MARK => natural_of(after_byte(word)).map(|n| Node::Object(ObjectNo(n))),
        RESOURCE_MARK => natural_of(after_byte(word)).map(|n| Node::Resource(ResourceNo(n))),
        _ => None,
    }
}

/// A node and the name of a feature, as two words give them: `#3 pages`. The call does not check whether the node has a feature of this
/// name.
pub fn feature_of<'a>(node: &str, name: &'a str) -> Option<(Node, Name<'a>)>
    ensures { result ≡ feature_in node.now name.now }
{
    node_of(node).zip(Name::from_word(name))
}

/// The text of a word that is a JSON string and begins with a quotation mark; `None` for any other word.
pub fn string_of(alloc: Global, word: &str) -> Result<Option<Text>, AllocError>
    ensures { IfOk result (λ o. o ≡ string_in word.now) }
{
    match word.as_bytes().first() {
        Some(&QUOTE) => text_of(alloc, word),
        _ => Ok(None),
    }
}

/// The text of a word that is a JSON string, as a value; `None` for any other word.
fn text_value_of(alloc: Global, word: &str) -> Result<Option<WrittenValue<'_>>, AllocError>
    ensures { IfOk result (λ o. o ≡ option_map written.Text (text_in word.now)) }
{
    match text_of(alloc, word)? {
        Some(text) => Ok(Some(WrittenValue::Text(text))),
        None => Ok(None),
    }
}

/// The value of the word `null`, `true` or `false`; `None` for any other word.
fn word_value_of(word: &str) -> Option<WrittenValue<'_>>
    ensures { result ≡ word_value_in word.now }
{
    if word == "null" {
        return Some(WrittenValue::Null);
    }
    if word == "true" {
        return Some(WrittenValue::Bool(true));
    }
    if word == "false" {
        return Some(WrittenValue::Bool(false));
    }
    None
}

/// The signed 64-bit number that a word writes, as a value; `None` if the word writes no such number.
#[inline(always)]
fn number_value_of(word: &str) -> Option<WrittenValue<'_>>
    requires { 0 < length word.now }
    ensures { result ≡ option_map written.Int (integer word.now) }
{
    Some(WrittenValue::Int(int_of(word)?))
}

/// The value of a word: a literal after `:`, an object after `#`, or `null`, `true` or `false`; `None` if the word is none of them. The
/// word does not begin with a quotation mark, a minus sign or a digit.
fn marked_value_of(word: &str) -> Option<WrittenValue<'_>>
    requires some { 0 < length word.now }
    requires no_text { slice_index word.now 0 ≢ QUOTE }
    requires no_minus { slice_index word.now 0 ≢ MINUS }
    requires no_digit { is_ascii_digit (slice_index word.now 0) ≡ false }
    ensures { result ≡ value_in word.now }
{
    match word.as_bytes()[0] {
        LITERAL_MARK => Some(WrittenValue::Literal(Name::from_word(after_byte(word))?)),
        OBJECT_MARK => Some(WrittenValue::Object(ObjectNo(natural_of(after_byte(word))?))),
        _ => word_value_of(word),
    }
}

/// The value that a word writes; `None` if the word writes no value. The word does not begin with a minus sign or a digit. The function is
/// never inlined into the code that reads a number.
#[inline(never)]
fn other_value_of(alloc: Global, word: &str) -> Result<Option<WrittenValue<'_>>, AllocError>
    requires some { 0 < length word.now }
    requires no_minus { slice_index word.now 0 ≢ MINUS }
    requires no_digit { is_ascii_digit (slice_index word.now 0) ≡ false }
    ensures { IfOk result (λ o. o ≡ value_in word.now) }
{
    if word.as_bytes()[0] == QUOTE {
        return text_value_of(alloc, word);
    }
    Ok(marked_value_of(word))
}

/// The value that a word writes; `None` if the word writes no value. The first byte of the word decides which kind of value is read.
#[inline(always)]
pub fn value_of(alloc: Global, word: &str) -> Result<Option<WrittenValue<'_>>, AllocError>
    ensures { IfOk result (λ o. o ≡ value_in word.now) }
{
    if word.is_empty() {
        return Ok(None);
    }
    let first = word.as_bytes()[0];
    if first.is_ascii_digit() || first == MINUS {
        return Ok(number_value_of(word));
    }
    other_value_of(alloc, word)
}

/// A node, the name of a feature, and a value for this feature, as three words give them: `#3 pages 100`. The call does not check whether
/// the node has a feature of this name, or whether the value fits the feature.
pub fn feature_value_of<'a>(
    alloc: Global,
    node: &str,
    name: &'a str,
    value: &'a str,
) -> Result<Option<((Node, Name<'a>), WrittenValue<'a>)>, AllocError>
    ensures { IfOk result (λ o. o ≡ feature_value_in node.now name.now value.now) }
{
    let Some(feature) = feature_of(node, name) else {
        return Ok(None);
    };
    let Some(value) = value_of(alloc, value)? else {
        return Ok(None);
    };
    Ok(Some((feature, value)))
}
