//! Laws of the definitions, each the contract of a function that does nothing.
ghost use Rattle.std.specs.Prelude.{◌≡◌, List, ℕ, length, true};
ghost use Rattle.script_answers.specs.Dressed.{dressed_output, plain_dress, until_fault};
ghost use Rattle.script_answers.specs.Turns.{Printed, texts};

/// Without output options, the output of a script is what all its lines print. With only `--stop`, the output is what the lines print up to
/// and including the first line that is refused or bad.
pub fn a_plain_script_is_its_text()
    ensures whole { (ls : List (List ℕ)) (printed : List Printed) → length ls ≡ length printed → dressed_output plain_dress ls printed ≡ texts printed }
    ensures stop { (ls : List (List ℕ)) (printed : List Printed) → length ls ≡ length printed
        → dressed_output (record plain_dress { stop = true }) ls printed ≡ texts (until_fault printed) }
{}
