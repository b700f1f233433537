//! What follows from the definitions alone.

ghost use Rattle.std.specs.Prelude.{◌≡◌, ℕ, List, []};
ghost use Rattle.tty_base.specs.declared.lines.Overrun.{Overrun};
ghost use Rattle.tty_calls.specs.Plain.{PlainEntry};
ghost use Rattle.tty_calls.specs.Sessions.{PlainSession, call_at, counts_on};
ghost use Rattle.tty_terminal.specs.Terminals.{Terminal};
ghost use Rattle.tty_terminal.specs.Runs.{Leads};
ghost use Rattle.legal_runs.specs.Legal.{IsPhasePart, session_events_in};
ghost use Rattle.legal_runs.specs.Phases.{BeginsPhase, CompletesPhase};

/// The entries of a phase are those of a finished journal where the terminals at the phase's two ends say so.
pub fn the_ends_of_a_phase_tell_its_part()
    ensures { (p : ℕ) (session : PlainSession) (overruns : List Overrun) (k : ℕ) (t : Terminal) (part : List PlainEntry)
        (u : Terminal)
        → Leads (call_at p session) (counts_on p session) t part u
        → session_events_in part ≡ []
        → BeginsPhase t
        → CompletesPhase p session overruns k t u
        → IsPhasePart p session overruns k part }
{}
