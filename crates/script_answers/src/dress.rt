//! The output options of a script.
ghost use Rattle.std.specs.Prelude.{◌≡◌, ◌&&◌, IsTrue};
ghost use Rattle.script_answers.specs.Dressed.{plain_dress};
ghost use Rattle.script_answers.specs.Turns.{is_fault};

use crate::turn::Turn;

/// What a run writes beside the answers of its lines, and at which line the run ends.
#[derive(Clone, Copy)]
pub struct Dress {
    /// Whether each line that is not skipped is written before its answer, as `> LINE`.
    pub echo: bool,
    /// Whether each line of an answer begins with the number of the script line that is answered, as `7: ok`. Script lines are counted from
    /// 1; skipped lines count too.
    pub number: bool,
    /// Whether the run ends after the first line that is refused or bad.
    pub stop: bool,
}

impl Dress {
    /// No output options: the answers of all lines are written, and nothing else.
    pub fn plain() -> Self
        ensures { result ≡ plain_dress }
    {
        Dress {
            echo: false,
            number: false,
            stop: false,
        }
    }

    /// Whether there are no output options: only answers are written, and all lines are run.
    pub fn is_plain(self) -> bool
        ensures { IsTrue result → self ≡ plain_dress }
    {
        !(self.echo || self.number || self.stop)
    }

    /// Whether the run ends after a line that is counted as `turn`.
    pub fn ends_at(self, turn: Turn) -> bool
        ensures { result ≡ (self.stop && is_fault turn) }
    {
        self.stop && turn.is_fault()
    }
}
