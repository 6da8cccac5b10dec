//! The interface of a session, which runs lines.
ghost use Rattle.std.specs.Prelude.{◌≡◌, true, false, List, ℕ, IfOk};
ghost use Rattle.durable.specs.Printed.{AddsRun, Printed, is_kept as is_kept_turn, is_lost as is_lost_turn};

use std::alloc::AllocError;

/// The byte that makes the empty line at the end of an answer.
pub(crate) const NEWLINE: u8 = b'\n';

/// How a line ended.
#[derive(Clone, Copy, Debug, PartialEq, Eq)]
pub enum JournalTurn {
    /// The line was done, and is to be kept.
    Kept,
    /// The line is not to be kept: it was refused for a reason other than memory, is blank or bad, only reads, or concerns only this
    /// session.
    Other,
    /// The line was refused because memory was refused.
    Lost,
}

impl JournalTurn {
    pub(crate) fn is_kept(self) -> bool
        ensures { result ≡ is_kept_turn self }
    {
        matches!(self, JournalTurn::Kept)
    }

    pub(crate) fn is_lost(self) -> bool
        ensures { result ≡ is_lost_turn self }
    {
        matches!(self, JournalTurn::Lost)
    }
}

/// Runs lines in turn.
pub trait Session {
    /// How a session runs a line: the session before the line, the line, what the line prints and how it ends, and the session after the
    /// line.
    ghost runs: { Self → List ℕ → Printed → Self → Type 0 };

    /// Runs a line, and appends to `text` what the line prints. Fails only if memory is refused for the text.
    fn answer(&mut self, line: &[u8], text: &mut Vec<u8>) -> Result<JournalTurn, AllocError>
        ensures { IfOk result (λ turn. AddsRun runs self.old line.now text.old.items text.new.items turn self.new) };
}

/// A session that can be recovered from the lines that were kept: a second session, its twin, runs only these lines.
pub trait Twin: Session {
    /// Two sessions are the same, except for things that concern only one of the two.
    ghost alike: { Self → Self → Type 0 };

    /// The session has nothing that concerns only this session.
    ghost is_alone: { Self → Type 0 };

    /// A line that is not to be kept changes nothing but things that concern only this session: if the session was the same as its twin
    /// (`alike`), the session after the line is still the same as this twin.
    ghost others: { (s t x : Self) (l : List ℕ) (p : Printed) → Self.Session.runs s l p t → is_kept_turn p.turn ≡ false → alike s x → alike t x };

    /// If a session and its twin are the same (`alike`), and both run and keep the same line, they are still the same after this line.
    ghost kept: { (s t x y : Self) (l : List ℕ) (p q : Printed) → Self.Session.runs s l p t → is_kept_turn p.turn ≡ true → alike s x
        → Self.Session.runs x l q y → is_kept_turn q.turn ≡ true → alike t y };

    /// Let a session and its twin be the same (`alike`), and let the twin have nothing that concerns only the twin (`is_alone`). If the
    /// session keeps a line, the twin keeps this line too, unless memory is refused to the twin.
    ghost done: { (s t x y : Self) (l : List ℕ) (p q : Printed) → Self.Session.runs s l p t → is_kept_turn p.turn ≡ true → alike s x → is_alone x
        → Self.Session.runs x l q y → is_kept_turn q.turn ≡ false → is_lost_turn q.turn ≡ true };

    /// If `is_alone` is true of a session, `is_alone` is still true of the session after a line that the session keeps.
    ghost alone: { (x y : Self) (l : List ℕ) (q : Printed) → is_alone x → Self.Session.runs x l q y → is_kept_turn q.turn ≡ true → is_alone y };
}
