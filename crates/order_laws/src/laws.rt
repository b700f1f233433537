//! What follows from the definition of the order alone.

ghost use Rattle.std.specs.Prelude.{◌≡◌, ◌≢◌, ℕ, List, Some, length};
ghost use Rattle.tty_calls.specs.declared.journals.PortRun.{PortRun};
ghost use Rattle.tty_calls.specs.Plain.{PlainEntry};
ghost use Rattle.tty_calls.specs.Sessions.{PlainSession, call_at, counts_on};
ghost use Rattle.tty_terminal.specs.Terminals.{Terminal};
ghost use Rattle.tty_terminal.specs.Runs.{IsRun};
ghost use Rattle.legal_runs.specs.Legal.{AreInPhases, IsLegal, IsLegalOn, flip_on, name_at, steps_in};
ghost use Rattle.legal_runs.specs.Order.{AreInTurn, IsInOneOrder, first_place};
ghost use Rattle.order_laws.specs.Growth.{AddsCall, Grew, KeepsEnded};
ghost use Rattle.order_laws.specs.Lost.{overruns_before, IsSameRun};

/// In the order of one thread exactly those characters are overruns that exceed what was taken before
/// their line's end, what the flip buffer holds, and the overruns before them.
pub fn what_exceeds_the_buffer_is_lost()
    ensures { (p : ℕ) (session : PlainSession) (run : PortRun) → IsLegalOn p session run
        → IsInOneOrder p session run.journal.items run.line.overruns.items
        → run.line.overruns.items ≡ overruns_before p session run.journal.items (length session.phases) }
{}

/// A session has one run in the order of one thread: two legal runs of a port that are in the order
/// have the same journal and the same line report, and lead to the same terminal.
pub fn a_session_has_one_run()
    ensures { (p : ℕ) (session : PlainSession) (run other : PortRun) (t u : Terminal)
        → IsLegal p session run t
        → IsLegal p session other u
        → IsInOneOrder p session run.journal.items run.line.overruns.items
        → IsInOneOrder p session other.journal.items other.line.overruns.items
        → IsSameRun run other × (t ≡ u) }
{}

/// A run in the order of one thread, as far as it has come, is one of each session that grew out of its session: the
/// same but for further calls in the phase that it has come to and later, none of them by a caller that has ended
/// there. So a player may learn a caller's call when it is that caller's turn.
pub fn a_run_grows_with_its_session()
    ensures { (p : ℕ) (session later : PlainSession) (journal : List PlainEntry) (t : Terminal)
        → Grew p t.phase session later → KeepsEnded p t.phase session later t
        → IsRun (call_at p session) (counts_on p session) (flip_on p session) journal t
        → AreInPhases p session 0 journal → AreInTurn p session (first_place p session) journal
        → IsRun (call_at p later) (counts_on p later) (flip_on p later) journal t
        × AreInPhases p later 0 journal × AreInTurn p later (first_place p later) journal }
{}

/// A session with one call more of a caller, behind all its others, grew out of the session, and no other caller of
/// that phase has more calls in it.
pub fn a_session_grows_by_a_call()
    ensures grew { (p k : ℕ) (session later : PlainSession) (name : List ℕ)
        → AddsCall p k session later name
        → Grew p k session later }
    ensures others { (p k : ℕ) (session later : PlainSession) (name : List ℕ) (c : ℕ) → AddsCall p k session later name
        → name_at p session c ≢ Some name → steps_in p later k c ≡ steps_in p session k c }
{}
