//! What follows from the definitions alone.

ghost use Rattle.std.specs.Prelude.{◌≡◌, ℕ, ◌+◌, ◌*◌, ◌<◌, ◌≤◌, length};
ghost use Rattle.tty_base.specs.Sizes.{MOST_ENTRIES};
ghost use Rattle.tty_calls.specs.declared.journals.PortRun.{PortRun};
ghost use Rattle.tty_calls.specs.Sessions.{PlainSession};
ghost use Rattle.tty_calls.specs.Limits.{IsWithinLimits, character_count, tick_count};
ghost use Rattle.tty_terminal.specs.Terminals.{Terminal};
ghost use Rattle.legal_runs.specs.Legal.{IsLegal};
ghost use Rattle.legal_runs.specs.Short.{IsCutShort};
ghost use Rattle.journal_bound.specs.Counts.{byte_count_on, call_count_on};
ghost use Rattle.journal_bound.specs.Rows.{worked_phases};

/// A run of a session as far as it went has no longer a journal than the session allows: less than two
/// entries for each byte written, by a sixteenth of one; three for each call on the port, two for each
/// character that arrives, one for each tick, and 1,219 more. For a part of a write that has fewer than
/// 64 bytes takes one of the last eight places for held output, or a CR that posts nothing, and only a
/// call or a character makes room there. So no port has a journal of 4,194,304 entries whose bytes
/// written and characters, twice each, and calls, three times each, are at most so many.
pub fn a_journal_is_bounded()
    ensures by_its_session { (p : ℕ) (session : PlainSession) (run : PortRun) (t : Terminal)
        → IsWithinLimits session
        → IsCutShort p session run t
        → 16 * length run.journal.items
        ≤ 31 * byte_count_on p session.phases + 48 * call_count_on p session.phases
        + 32 * character_count p session.phases + 16 * tick_count p session.phases + 19504 }
    ensures never_full { (p : ℕ) (session : PlainSession) (run : PortRun) (t : Terminal)
        → IsWithinLimits session
        → IsCutShort p session run t
        → 2 * byte_count_on p session.phases + 3 * call_count_on p session.phases
        + 2 * character_count p session.phases ≤ MOST_ENTRIES
        → length run.journal.items < MOST_ENTRIES }
{}

/// A legal run is one of its session as far as it went, so that its journal is bounded too.
pub fn a_legal_run_is_one_as_far_as_it_went()
    ensures { (p : ℕ) (session : PlainSession) (run : PortRun) (t : Terminal)
        → IsLegal p session run t
        → IsCutShort p session run t }
{}

/// Of three bytes and two that are written on port 0, and a packet that is sent there, five are bytes
/// written; the calls are all those of the port.
pub fn a_worked_session_is_counted()
    ensures bytes { (byte_count_on 0 worked_phases ≡ 5) × (byte_count_on 1 worked_phases ≡ 1) }
    ensures calls { (call_count_on 0 worked_phases ≡ 5) × (call_count_on 1 worked_phases ≡ 1) }
{}
