//! What follows from the definitions of a session of processes alone.

ghost use Rattle.std.specs.Prelude.{◌≡◌, ℕ, List, []};
ghost use Rattle.tty_calls.specs.declared.journals.PortRun.{PortRun};
ghost use Rattle.tty_calls.specs.Sessions.{PlainSession};
ghost use Rattle.passed_calls.specs.declared.placed.PlacedCall.{PlacedCall};
ghost use Rattle.job_text.specs.Events.{JobLog};
ghost use Rattle.job_text.specs.Sessions.{JobsSession, session_with};
ghost use Rattle.job_text.specs.declared.calls.OwnCall.{OwnCall};
ghost use Rattle.job_text.specs.declared.sessions.PortProc.{PortProc};
ghost use Rattle.job_steps.specs.Derived.{block_phases, derived};
ghost use Rattle.order_laws.specs.Passed.{IsOfBlocks};
ghost use Rattle.order_laws.specs.Sessions.{journal_on};
ghost use Rattle.job_one.specs.Played.{begun_in, derived_with};

/// Where no port has begun a call that it has not answered, the session that was played is the derived one.
pub fn what_is_whole_is_derived()
    ensures { (session : JobsSession) (log : JobLog) (runs : List PortRun)
        → ((p : ℕ) → begun_in session log p (journal_on runs p) ≡ [])
        → derived_with session log runs ≡ derived session log }
{}

/// The ports' part of a session of processes is a session of its blocks.
pub fn a_session_has_its_blocks()
    ensures { (p : ℕ) (plain : PlainSession) (procs : List PortProc) (parts : List (List (PlacedCall OwnCall)))
        → IsOfBlocks p (block_phases (session_with plain procs parts)) plain }
{}
