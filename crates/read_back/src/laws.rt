//! What follows from the definitions alone.

ghost use Rattle.std.specs.Prelude.{◌≡◌, ◌≤◌, ℕ, List, ◌++◌, length, map};
ghost use Rattle.tty_calls.specs.declared.journals.PortRun.{PortRun};
ghost use Rattle.tty_calls.specs.Sessions.{PlainSession};
ghost use Rattle.session_text.specs.Grammar.{Spells as SpellsSession};
ghost use Rattle.session_print.specs.Lines.{newline};
ghost use Rattle.legal_runs.specs.Legal.{IsLegalOn};
ghost use Rattle.legal_runs.specs.Ports.{OfRun, AreLegal};
ghost use Rattle.check_text.specs.Callers.{callers_on};
ghost use Rattle.check_text.specs.Grammar.{most, Spells};
ghost use Rattle.check_text.specs.Printed.{IsRunOf, text_after};
ghost use Rattle.check_text.specs.Runs.{run_of};

/// A legal run of a session that a text spells can be printed, where a number of 32 bits counts its
/// entries: they are of the port's callers and their calls, each answer is one that its call may be
/// given, with bytes, modes and counts of their sizes, and every number has 32 bits.
pub fn a_legal_run_can_be_printed()
    ensures { (text : List ℕ) (session : PlainSession) (p : ℕ) (run : PortRun)
        → SpellsSession text session
        → IsLegalOn p session run
        → length run.journal.items ≤ most
        → IsRunOf (callers_on p session) (run_of run) }
{}

/// What is printed of legal runs, one for each port, after a text of their session, spells that session and
/// those runs.
pub fn legal_runs_are_read_back()
    ensures { (text : List ℕ) (session : PlainSession) (runs : List PortRun)
        → SpellsSession text session
        → length runs ≡ session.ports
        → AreLegal session runs
        → ((p : ℕ) → OfRun runs p (λ run. length run.journal.items ≤ most))
        → Spells (text ++ (newline ++ text_after session runs)) session (map run_of runs) }
{}
