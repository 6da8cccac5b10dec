//! The text of a metamodel, and two documents of objects of this metamodel. Each of the three texts is cut at each byte, or has one byte
//! replaced by a byte 0, by a byte 255 or by a quote. Each text that results is read or refused, and the answers are counted.
//!
//! The expected counts follow from the grammar of JSON. None of the three texts has a backslash. A text that is cut before its last brace
//! is no JSON. Nor is a text with a byte 0 (JSON has none), with a byte 255 (UTF-8 has none), or with an odd number of quotes. If a quote
//! is replaced by a quote, the text stays as it is, and is read.
use crate::fixtures::library::{LIBRARY, library};
use crate::fixtures::resource::refusal;
use mm_check::check_document;
use mm_meta::Meta;
use mm_types::{MetaFault, Refused};
use std::alloc::{AllocError, Global};
use std::test::Fail;

/// What a text is read as.
#[derive(Clone, Copy)]
enum ReadAs {
    Metamodel,
    Document,
}

/// A text that is read.
struct Input {
    read_as: ReadAs,
    text: &'static str,
    bytes: u32,
    quotes: u32,
    /// How many bytes come after the last brace of the text.
    behind: u32,
}

const INPUTS: [Input; 3] = [
    Input {
        read_as: ReadAs::Metamodel,
        text: LIBRARY,
        bytes: 1911,
        quotes: 326,
        behind: 1,
    },
    // A saved library, with a book and a member.
    Input {
        read_as: ReadAs::Document,
        text: r#"{"format":1,"roots":[{"class":"Library","features":{"books":[{"class":"Book","features":{"name":"Emma"}}],"members":[{"class":"Person","features":{"likes":["//@books.0"]}}]}}]}"#,
        bytes: 176,
        quotes: 34,
        behind: 0,
    },
    // A person with two proxies.
    Input {
        read_as: ReadAs::Document,
        text: r#"{"format":1,"roots":[{"class":"Person","features":{"likes":["b#/","b#/0"]}}]}"#,
        bytes: 77,
        quotes: 16,
        behind: 0,
    },
];

/// How often each answer was given. Index 0 has the count of texts that were read; the number of a fault or cause is the index of its
/// count.
type Counts = [u32; 13];

/// The counts if `read` texts were read, `no_json` texts were refused since they are no JSON, and no other answer was given.
fn counts(read: u32, no_json: u32) -> Counts {
    let mut counts = [0; 13];
    counts[0] = read;
    counts[1] = no_json;
    counts
}

/// The fault of a metamodel's text, if it has one.
fn fault_of(alloc: Global, bytes: &[u8]) -> Option<MetaFault> {
    check_document(alloc, bytes).err()
}

/// The number of a metamodel's fault, or 0 if the metamodel is accepted; `None` if memory was refused.
fn metamodel_answer(alloc: Global, bytes: &[u8]) -> Option<u32> {
    match fault_of(alloc, bytes) {
        Some(fault) => fault.number(),
        None => Some(0),
    }
}

/// The number of the cause for which a document is refused, or 0 if the document is read; `None` if the refusal has no cause.
fn document_answer(alloc: Global, meta: &Meta, bytes: &[u8]) -> Option<u32> {
    match refusal(alloc, meta, bytes) {
        Some(Refused::Document(cause)) => Some(cause.number()),
        Some(_) => None,
        None => Some(0),
    }
}

/// Reads a text, and counts the answer. Fails if the answer has no number below 13.
fn count(
    alloc: Global,
    meta: &Meta,
    read_as: ReadAs,
    bytes: &[u8],
    counts: &mut Counts,
) -> Result<(), Fail> {
    let answer = match read_as {
        ReadAs::Metamodel => metamodel_answer(alloc, bytes),
        ReadAs::Document => document_answer(alloc, meta, bytes),
    };
    match answer {
        Some(number) if number < 13 => {
            counts[number as usize] = counts[number as usize].wrapping_add(1);
            Ok(())
        }
        _ => Err(Fail::new("neither read nor refused by a number")),
    }
}

/// Counts the answers to each beginning of a text: the text is cut before its first byte, and after each byte but the last.
fn cut(alloc: Global, meta: &Meta, input: &Input) -> Result<Counts, Fail> {
    let mut counts = [0; 13];
    for at in 0..input.text.len() {
        let bytes = &input.text.as_bytes()[..at];
        count(alloc, meta, input.read_as, bytes, &mut counts)?;
    }
    Ok(counts)
}

/// The bytes of a text, with the byte at the index `at` replaced by `byte`.
fn with_byte(alloc: Global, text: &str, at: usize, byte: u8) -> Result<Vec<u8>, AllocError> {
    let mut bytes = text.as_bytes().to_vec(alloc)?;
    if at < bytes.len() {
        bytes[at] = byte;
    }
    Ok(bytes)
}

/// Replaces each byte of a text by `byte`, only one at a time, and counts the answers to the texts that result.
fn replaced(alloc: Global, meta: &Meta, input: &Input, byte: u8) -> Result<Counts, Fail> {
    let mut counts = [0; 13];
    for at in 0..input.text.len() {
        let bytes = with_byte(alloc, input.text, at, byte)?;
        count(alloc, meta, input.read_as, bytes.as_slice(), &mut counts)?;
    }
    Ok(counts)
}

#[test]
fn a_text_that_is_cut_is_no_json(rt: HostRuntime) -> Result<(), Fail> {
    let meta = library(rt.alloc())?;
    for input in &INPUTS {
        let Input { bytes, behind, .. } = input;
        let found = cut(rt.alloc(), &meta, input)?;
        assert_eq!(rt;
            found,
            counts(*behind, bytes.saturating_sub(*behind)),
            "at {}",
            input.text
        );
    }
    Ok(())
}

#[test]
fn a_text_with_a_byte_0_or_255_is_no_json(rt: HostRuntime) -> Result<(), Fail> {
    let meta = library(rt.alloc())?;
    for input in &INPUTS {
        for byte in &[0u8, 255] {
            let found = replaced(rt.alloc(), &meta, input, *byte)?;
            assert_eq!(rt; found, counts(0, input.bytes), "at {}", input.text);
        }
    }
    Ok(())
}

#[test]
fn a_text_with_one_quote_more_is_no_json(rt: HostRuntime) -> Result<(), Fail> {
    let meta = library(rt.alloc())?;
    for input in &INPUTS {
        let Input { bytes, quotes, .. } = input;
        let found = replaced(rt.alloc(), &meta, input, b'"')?;
        assert_eq!(rt;
            found,
            counts(*quotes, bytes.saturating_sub(*quotes)),
            "at {}",
            input.text
        );
    }
    Ok(())
}
