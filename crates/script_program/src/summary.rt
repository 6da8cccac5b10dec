//! The counts of a run.
ghost use Rattle.std.specs.Prelude.{◌≡◌, ◌-◌, ◌^◌};
ghost use Rattle.script_program.specs.Summary.{IsWithin, no_lines, with_turn};

use script_answers::Turn;

/// The counts of a run that came to its end.
#[derive(Clone, Copy, Debug, PartialEq, Eq)]
pub struct Summary {
    /// How many of the lines that were run are not blank.
    pub lines: u64,
    /// How many of the lines that were run printed a refusal.
    pub refused: u64,
    /// How many of the lines that were run printed `bad line`.
    pub bad: u64,
    /// How many of the refused lines were refused with `Memory`.
    pub no_memory: u64,
}

impl Summary {
    pub(crate) fn new() -> Self
        ensures { result ≡ no_lines }
    {
        Summary {
            lines: 0,
            refused: 0,
            bad: 0,
            no_memory: 0,
        }
    }

    /// The counts after one more line; `turn` is how the line is counted.
    pub(crate) fn with(self, turn: Turn) -> Self
        requires { IsWithin self (2 ^ 64 - 2) }
        ensures { result ≡ with_turn self turn }
    {
        let lines = self.lines + 1;
        match turn {
            Turn::Done => Summary { lines, ..self },
            Turn::Blank => self,
            Turn::Bad => Summary {
                lines,
                bad: self.bad + 1,
                ..self
            },
            Turn::Refused => Summary {
                lines,
                refused: self.refused + 1,
                ..self
            },
            Turn::Lost => Summary {
                lines,
                refused: self.refused + 1,
                no_memory: self.no_memory + 1,
                ..self
            },
        }
    }
}
