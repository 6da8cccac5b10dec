//! The root's segment and the steps of a fragment are read one by one.
ghost use Rattle.std.specs.Prelude.{◌≡◌, ◌∷◌, [], IfOk, None, Some, option_map, if◌then◌else◌};
ghost use Rattle.std.specs.List.{slice_split};
ghost use Rattle.mm_types.specs.Names.{is_name as is_a_name};
ghost use Rattle.web_uris.specs.Paths.{index_of as index_meant, is_dot, new_step, root_of as root_meant, step_of as step_meant, step_of_parts};

use crate::path::Step;
use mm_types::Text;
use mm_types::integers::natural_of;
use mm_types::names::is_name;
use std::alloc::{AllocError, Global};

/// The greatest number of digits of an index.
const INDEX_DIGITS: usize = 7;

/// The index that a text writes as `0`, or as a digit 1 to 9 and at most six further digits; `None` for any other text.
fn index_of(digits: &str) -> Option<u32>
    ensures { result ≡ index_meant digits.now }
{
    if digits.len() > INDEX_DIGITS {
        return None;
    }
    natural_of(digits)
}

/// The index of the root that the root's segment names: 0 if the segment is empty, `None` if it is neither empty nor an index. Takes no
/// memory.
pub(crate) fn root_of(segment: &str) -> Option<u32>
    ensures { result ≡ root_meant segment.now }
{
    if segment.is_empty() {
        return Some(0);
    }
    index_of(segment)
}

/// The name of a step, and its index if it has one; `None` if the name does not have the form of a name (`is_name`).
fn named(name: &str, index: Option<u32>) -> Option<(&str, Option<u32>)>
    ensures { option_map (λ s. new_step s.0.now s.1) result ≡ (if is_a_name name.now then Some (new_step name.now index) else None) }
{
    if !is_name(name.as_bytes()) {
        return None;
    }
    Some((name, index))
}

fn numbered<'a>(name: &'a str, digits: &str) -> Option<(&'a str, Option<u32>)>
    ensures { option_map (λ s. new_step s.0.now s.1) result ≡ step_of_parts (name.now ∷ digits.now ∷ []) }
{
    match index_of(digits) {
        Some(index) => named(name, Some(index)),
        None => None,
    }
}

/// The name of a step, and its index if it has one, from the text after the step's `@`; `None` if the text is neither a name, nor a name, a
/// dot and an index.
fn parts_of(text: &str) -> Option<(&str, Option<u32>)>
    ensures { option_map (λ s. new_step s.0.now s.1) result ≡ step_of_parts (slice_split is_dot text.now) }
{
    match text.split_once('.') {
        Some((name, digits)) => numbered(name, digits),
        None => named(text, None),
    }
}

fn borrowed_step(segment: &str) -> Option<(&str, Option<u32>)>
    ensures { option_map (λ s. new_step s.0.now s.1) result ≡ step_meant segment.now }
{
    match segment.strip_prefix('@') {
        Some(text) => parts_of(text),
        None => None,
    }
}

/// The step that a segment writes; `None` if the segment writes no step. Fails only if memory is refused.
pub(crate) fn step_of(alloc: Global, segment: &str) -> Result<Option<Step>, AllocError>
    ensures { IfOk result (λ s. s ≡ step_meant segment.now) }
{
    match borrowed_step(segment) {
        Some((name, index)) => {
            let name = Text::from_str(alloc, name)?;
            Ok(Some(Step { name, index }))
        }
        None => Ok(None),
    }
}
