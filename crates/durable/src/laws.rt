//! Laws, each the contract of a function that does nothing.
ghost use Rattle.std.specs.Prelude.{List, ℕ};
ghost use Rattle.durable.specs.Printed.{Printed, Refuses, RunsKept, RunsLines, kept_lines};

use crate::session::Twin;

/// Let a session and its twin be the same, except for things that concern only one of the two (`alike`). Let the session run some lines,
/// and let the twin run only those of these lines that the session kept. If the twin keeps each of them too, the session and the twin are
/// `alike` again. If before this run the twin has nothing that concerns only the twin (`is_alone`), the twin does keep each of them, unless
/// memory is refused to the twin.
pub fn what_was_kept_comes_back<S: Twin>()
    ensures alike { (s t x y : S) (ls : List (List ℕ)) (ps : List Printed) → S.Twin.alike s x → RunsLines S.Session.runs s ls ps t
        → RunsKept S.Session.runs x (kept_lines ls ps) y → S.Twin.alike t y }
    ensures done { (s t x : S) (ls : List (List ℕ)) (ps : List Printed) → S.Twin.alike s x → S.Twin.is_alone x → RunsLines S.Session.runs s ls ps t
        → Refuses S.Session.runs x (kept_lines ls ps) → ⊥ }
{}
