//! The path to an object of a resource, and the text of a path, which is a fragment.
ghost use Rattle.std.specs.Prelude.{◌≡◌, ◌++◌, ◌∷◌, [], IfOk, OnOk, decimal, flat_map, string_bytes, if◌then◌else◌};
ghost use Rattle.web_uris.specs.Paths.{index_text, path_text, step_text};

use itoa::Buffer;
use mm_types::{Seq, Text};
use std::alloc::{AllocError, Global};

/// One step from an object to an object that it contains.
#[derive(Debug, Drop)]
pub struct Step {
    /// The name of the feature that has the contained object as a value.
    pub name: Text,
    /// The index of the contained object among the values of the feature, if the feature is many-valued; `None` if it is single.
    pub index: Option<u32>,
}

/// The way from a resource to an object in it: a root, by its index among the roots, and then steps.
#[derive(Debug, Drop)]
pub struct Path {
    pub root: u32,
    pub steps: Seq<Step>,
}

/// Most texts of paths have at most this many bytes.
const SHORT: usize = 24;

fn push_number(text: &mut String, number: u32) -> Result<(), AllocError>
    ensures { OnOk result (string_bytes text.new ≡ string_bytes text.old ++ decimal number) }
{
    text.push_str(Buffer::new().format(number))
}

fn push_index(text: &mut String, index: Option<u32>) -> Result<(), AllocError>
    ensures { OnOk result (string_bytes text.new ≡ string_bytes text.old ++ index_text index) }
{
    let Some(index) = index else {
        return Ok(());
    };
    text.push_str(".")?;
    push_number(text, index)
}

fn push_step(text: &mut String, step: &Step) -> Result<(), AllocError>
    ensures { OnOk result (string_bytes text.new ≡ string_bytes text.old ++ step_text step.now) }
{
    text.push_str("/@")?;
    text.push_str(step.name.as_str())?;
    push_index(text, step.index)
}

fn push_steps(text: &mut String, steps: &[Step]) -> Result<(), AllocError>
    ensures { OnOk result (string_bytes text.new ≡ string_bytes text.old ++ flat_map step_text steps.now) }
{
    'steps: for step in steps {
        push_step(text, step)?;
    }
    Ok(())
}

impl Path {
    /// The text of the path. The root's segment is empty if `is_root_left_out` is true, and is the index of the root otherwise. Fails only
    /// if memory is refused.
    pub fn text(&self, alloc: Global, is_root_left_out: bool) -> Result<String, AllocError>
        ensures { IfOk result (λ t. string_bytes t ≡ path_text is_root_left_out self.now) }
    {
        let mut text = String::with_capacity(alloc, SHORT)?;
        text.push_str("/")?;
        if !is_root_left_out {
            push_number(&mut text, self.root)?;
        }
        push_steps(&mut text, self.steps.as_slice())?;
        Ok(text)
    }
}
