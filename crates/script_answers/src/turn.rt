//! How a line is counted.
ghost use Rattle.std.specs.Prelude.{◌≡◌};
ghost use Rattle.script_answers.specs.Turns.{is_fault as is_turn_of_fault};

/// How a line is counted.
#[derive(Clone, Copy, PartialEq, Eq)]
pub enum Turn {
    /// The line is empty or has only spaces, and is skipped.
    Blank,
    /// The line is not UTF-8, or fits no form.
    Bad,
    /// The command of the line was done.
    Done,
    /// The command of the line was refused, for a reason other than memory.
    Refused,
    /// The command of the line was refused because memory was refused.
    Lost,
}

impl Turn {
    /// Whether the line is bad, or its command was refused for any reason, memory included.
    pub fn is_fault(self) -> bool
        ensures { result ≡ is_turn_of_fault self }
    {
        matches!(self, Turn::Bad | Turn::Refused | Turn::Lost)
    }
}
