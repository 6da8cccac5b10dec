//! Fragments are read.
ghost use Rattle.std.specs.Prelude.{◌≡◌, ◌∷◌, [], IfOk, option_copied};
ghost use Rattle.std.specs.List.{slice_split};
ghost use Rattle.web_uris.specs.Paths.{is_slash, parse as parsed, path_of_segments, segments, steps_of as steps_meant};

use crate::path::{Path, Step};
use crate::segments::first_segment;
use crate::step::{root_of, step_of};
use mm_types::Seq;
use std::alloc::{AllocError, Global};

/// The steps that `text` writes; `None` if `text` writes no steps. `text` begins after the slash of the first step. If there is no text,
/// there are no steps. Fails only if memory is refused.
fn steps_of(alloc: Global, text: Option<&str>) -> Result<Option<Seq<Step>>, AllocError>
    ensures { IfOk result (λ steps. steps ≡ steps_meant (segments (option_copied text.entry))) }
{
    let mut steps = Seq::new(alloc);
    let mut rest = text;
    'segments: while let Some(text) = rest {
        let (segment, behind) = first_segment(text);
        let Some(step) = step_of(alloc, segment)? else {
            return Ok(None);
        };
        steps.push(step)?;
        rest = behind;
    }
    Ok(Some(steps))
}

/// The path of the fragment that is a slash followed by `text`; `None` if the slash and `text` are no fragment. Fails only if memory is
/// refused.
fn path_behind(alloc: Global, text: &str) -> Result<Option<Path>, AllocError>
    ensures { IfOk result (λ path. path ≡ path_of_segments ([] ∷ slice_split is_slash text.now)) }
{
    let (root, steps) = first_segment(text);
    let Some(root) = root_of(root) else {
        return Ok(None);
    };
    match steps_of(alloc, steps)? {
        Some(steps) => Ok(Some(Path { root, steps })),
        None => Ok(None),
    }
}

/// The path of a text; `None` if the text is no fragment. A fragment is `/`, the root's segment, and any number of steps. The root's
/// segment is empty or an index. A step is `/@NAME` or `/@NAME.INDEX`. An index is `0`, or a digit 1 to 9 and at most six further digits.
/// Fails only if memory is refused.
pub fn parse(alloc: Global, text: &str) -> Result<Option<Path>, AllocError>
    ensures { IfOk result (λ path. path ≡ parsed text.now) }
{
    match text.strip_prefix('/') {
        Some(behind) => path_behind(alloc, behind),
        None => Ok(None),
    }
}
