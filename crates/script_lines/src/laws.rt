//! Laws of the definitions, each the contract of a function that does nothing.
ghost use Rattle.std.specs.Prelude.{◌≡◌, ◌++◌, ◌∷◌, ◌⊎◌, [], List, ℕ, Some, codes, false, true};
ghost use Rattle.std.specs.List.{list_all, list_any};
ghost use Rattle.std.specs.Str.{is_utf8};
ghost use Rattle.script_lines.specs.Forms.{form};
ghost use Rattle.script_lines.specs.Lines.{has_no_newline, lines, with_newlines};
ghost use Rattle.script_lines.specs.Values.{resource, resource_in};
ghost use Rattle.script_lines.specs.Words.{is_space};
ghost use Rattle.script_lines.specs.declared.form.Form.TheVariants as asks;
ghost use Rattle.script_lines.specs.declared.line.Line.TheVariants as line;
ghost use Rattle.mm_types.specs.declared.numbers.ResourceNo.{ResourceNo};

use crate::grammar::{NEWLINE, SPACE};

/// A script is its lines, with a newline after each but perhaps the last, and no line has a newline in it. So no byte of a script is lost,
/// and every newline ends a line.
pub fn a_script_is_its_lines()
    ensures whole { (bytes : List ℕ) → (with_newlines (lines bytes) ≡ bytes) ⊎ (with_newlines (lines bytes) ≡ bytes ++ NEWLINE ∷ []) }
    ensures cut { (bytes : List ℕ) → list_all has_no_newline (lines bytes) ≡ true }
{}

/// The text of a `load` line is all bytes after the one space that follows the resource; further spaces before and after the document
/// belong to the text. The text may be empty, but a `load` line with no space after the resource is bad.
pub fn a_load_line_keeps_its_text()
    ensures kept { (word text : List ℕ) (r : ResourceNo) → resource_in word ≡ Some r → list_any is_space word ≡ false
        → let bytes : List ℕ = codes "load " ++ (word ++ SPACE ∷ text) in is_utf8 bytes ≡ true → form bytes ≡ line.Form (asks.Load r text) }
    ensures end_kept { form (codes "load r0 {\"a\": [1, 2]}  ") ≡ line.Form (asks.Load (resource 0) (codes "{\"a\": [1, 2]}  ")) }
    ensures start_kept { form (codes "load r0  x") ≡ line.Form (asks.Load (resource 0) (codes " x")) }
    ensures led_by_spaces { form (codes "  load   r12 x") ≡ line.Form (asks.Load (resource 12) (codes "x")) }
    ensures empty { form (codes "load r0 ") ≡ line.Form (asks.Load (resource 0) []) }
    ensures no_text { form (codes "load r0") ≡ line.Bad }
    ensures verb_alone { form (codes "load") ≡ line.Bad }
    ensures no_resource { form (codes "load #1 {}") ≡ line.Bad }
{}
