//! Laws of the definitions, each the contract of a function that does nothing.
ghost use Rattle.std.specs.Prelude.{◌≡◌, ◌++◌, [], List, ℕ, Some, length, map};
ghost use Rattle.script_lines.specs.Lines.{lines};
ghost use Rattle.script_program.specs.Batch.{RunsBatch};
ghost use Rattle.script_answers.specs.Dressed.{dressed_output};
ghost use Rattle.durable.specs.Printed.{Refuses};
ghost use Rattle.script_program.specs.Kept.{RunsJournaled, kept_lines, model_after_lines};
ghost use Rattle.script_program.specs.Live.{live_text, with_empty_line};
ghost use Rattle.script_program.specs.Lost.{AreCommands, lost_lines, script};
ghost use Rattle.script_program.specs.Session.{Session};
ghost use Rattle.script_program.specs.Script.{RunsLines};
ghost use Rattle.script_answers.specs.Turns.{Printed, texts};
ghost use Rattle.script_program.specs.Summary.{summary_of};
ghost use Rattle.script_answers.specs.declared.dress.Dress.{Dress};

/// A line is lost if its command is refused for memory. The definition `script` gives, for each choice of lost lines, what the lines of a
/// script print. If all lines are run, they print exactly what `script` gives for the lines that are lost in this run. If only the first
/// lines are run, the list of their outputs is a prefix of what `script` gives for the lines that are lost among them. The numbers of the
/// lost lines are all different, each is the number of a line that has a form, and the count `no_memory` of a summary is the number of lost
/// lines.
pub fn what_lines_print_is_the_script()
    ensures whole { (s t : Session) (bytes : List ℕ) (printed : List Printed) → RunsLines s (lines bytes) printed t
        → script s bytes (lost_lines printed) ≡ printed }
    ensures front { (s t : Session) (bytes : List ℕ) (first rest : List (List ℕ)) (printed : List Printed)
        → lines bytes ≡ first ++ rest → RunsLines s first printed t
        → (more : List Printed) × (script s bytes (lost_lines printed) ≡ printed ++ more) }
    ensures lost { (s t : Session) (ls : List (List ℕ)) (printed : List Printed) → RunsLines s ls printed t
        → AreCommands ls (lost_lines printed) }
    ensures as_many { (printed : List Printed) → length (lost_lines printed) ≡ (summary_of printed).no_memory }
{}

/// If no line is lost, the output of a script depends only on the bytes of the script and on the session before the run.
pub fn with_no_line_lost_the_script_is_a_function()
    ensures { (s t : Session) (bytes : List ℕ) (printed : List Printed) → RunsLines s (lines bytes) printed t
        → (summary_of printed).no_memory ≡ 0 → printed ≡ script s bytes [] }
{}

/// Take what `script` gives for a script and for the lost lines of a run of this script, and write it as the output options say. The result
/// is the output of the run with these options. The law also holds if the option `stop` ended the run before the last line.
pub fn a_run_writes_the_dressed_script()
    ensures { (d : Dress) (s t : Session) (bytes : List ℕ) (first : List (List ℕ)) (printed : List Printed) → RunsBatch d s bytes first printed t
        → dressed_output d (lines bytes) (script s bytes (lost_lines printed)) ≡ dressed_output d first printed }
{}

/// A live run writes the output of each line with an empty line after it. If all lines are run, the run writes exactly what `script` gives
/// for the lost lines of the run, with an empty line after the output of each line.
pub fn a_live_run_writes_the_script_with_empty_lines()
    ensures texts { (printed : List Printed) → live_text printed ≡ texts (map with_empty_line printed) }
    ensures script { (s t : Session) (bytes : List ℕ) (printed : List Printed) → RunsLines s (lines bytes) printed t
        → live_text (script s bytes (lost_lines printed)) ≡ live_text printed }
{}

/// What was kept comes back. A journal keeps some of the lines of a run. Let the kept lines be run again in turn, from the model before the
/// run and without adapters. If memory is not refused, all of them are done, and they leave the model that all lines of the run left. A
/// session that begins with the model from before the run, and with no attached adapter, refuses one of the kept lines only if memory is
/// refused.
pub fn what_was_kept_comes_back()
    ensures again { (s t : Session) (ls : List (List ℕ)) (printed : List Printed) → RunsLines s ls printed t
        → model_after_lines s.state.model (kept_lines ls printed) ≡ Some t.state.model }
    ensures done { (s t x : Session) (ls : List (List ℕ)) (printed : List Printed) → RunsLines s ls printed t → x.state.model ≡ s.state.model
        → x.state.adapters ≡ [] → Refuses RunsJournaled x (kept_lines ls printed) → ⊥ }
{}
