//! What follows from the definitions alone.

ghost use Rattle.std.specs.Prelude.{◌≡◌, ℕ, List};
ghost use Rattle.tty_calls.specs.declared.journals.PortRun.{PortRun};
ghost use Rattle.tty_calls.specs.Sessions.{PlainSession};
ghost use Rattle.tty_calls.specs.Limits.{IsWithinLimits};
ghost use Rattle.legal_runs.specs.Legal.{IsAccounted, IsLegalOn};
ghost use Rattle.journal_check.specs.Verdicts.{HasNoWrong, VerdictFits};
ghost use Rattle.journal_check.specs.WellFormed.{IsWellFormed};
ghost use Rattle.journal_check.specs.declared.verdicts.Verdict.{Verdict};

/// A session within the limits is well-formed, so that its journals can be judged.
pub fn a_session_within_the_limits_is_well_formed()
    ensures { (session : PlainSession) → IsWithinLimits session → IsWellFormed session }
{}

/// No two verdicts fit the same runs.
pub fn at_most_one_verdict_fits()
    ensures { (session : PlainSession) (runs : List PortRun) (v w : Verdict)
        → VerdictFits session runs v
        → VerdictFits session runs w
        → v ≡ w }
{}

/// A legal run has no wrong entry, and its account is right.
pub fn a_legal_run_has_no_wrong_entry()
    ensures no_wrong { (p : ℕ) (session : PlainSession) (run : PortRun)
        → IsLegalOn p session run
        → HasNoWrong p session run.journal.items }
    ensures accounted { (p : ℕ) (session : PlainSession) (run : PortRun)
        → IsLegalOn p session run
        → IsAccounted p session run }
{}

/// A run without a wrong entry whose account is right is legal.
pub fn an_accounted_run_without_wrong_entries_is_legal()
    ensures { (p : ℕ) (session : PlainSession) (run : PortRun)
        → HasNoWrong p session run.journal.items
        → IsAccounted p session run
        → IsLegalOn p session run }
{}
