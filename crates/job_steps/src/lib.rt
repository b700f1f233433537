//! Sessions whose callers are processes with sessions and groups: which events may be logged beside a port's journal,
//! and the session that the port was played.
#![tactic(auto)]

ghost use Rattle.std.specs.Prelude.{◌≡◌, []};
ghost use Rattle.job_steps.specs.Derived.{derived};
ghost use Rattle.job_steps.specs.Order.{IsInJobsOrder};
ghost use Rattle.job_steps.specs.Steps.{IsJobsRun};
ghost use Rattle.job_steps.specs.Rows.{port_of, read_passed, read_passed_journal, interrupt_to_shell};
ghost use Rattle.job_steps.specs.Rows.{interrupt_unsent, orphan_stopped, not_hung_up, stopped_early};
ghost use Rattle.job_steps.specs.Rows.{foreground_given, foreground_log, foreground_played, foreground_journal};
ghost use Rattle.job_steps.specs.Rows.{shell_ends, shell_ends_log, shell_ends_played, shell_ends_journal};

/// A law: a read from the background is stopped, and in the foreground the job gets the interrupt.
pub fn foreground_given()
    ensures log { IsJobsRun (port_of foreground_given foreground_log foreground_journal) foreground_log }
    ensures played { derived foreground_given foreground_log ≡ foreground_played }
{}

/// A law: an orphaned group is refused what would stop it, and the end of a leader hangs the port up.
pub fn shell_ends()
    ensures log { IsJobsRun (port_of shell_ends shell_ends_log shell_ends_journal) shell_ends_log }
    ensures played { derived shell_ends shell_ends_log ≡ shell_ends_played }
{}

/// A law: a log is none of the port where a read from the background goes on, an interrupt goes to another group or
/// to none, an orphaned group is stopped, or the end of a leader hangs nothing up.
pub fn wrong_logs_are_none()
    ensures read_passed { IsJobsRun (port_of foreground_given read_passed read_passed_journal) read_passed → ⊥ }
    ensures other_group { IsJobsRun (port_of foreground_given interrupt_to_shell foreground_journal) interrupt_to_shell
        → ⊥ }
    ensures unsent { IsJobsRun (port_of foreground_given interrupt_unsent foreground_journal) interrupt_unsent → ⊥ }
    ensures orphan_stopped { IsJobsRun (port_of shell_ends orphan_stopped shell_ends_journal) orphan_stopped → ⊥ }
    ensures not_hung_up { IsJobsRun (port_of shell_ends not_hung_up shell_ends_journal) not_hung_up → ⊥ }
{}

/// A law: worked logs are in the order of one thread, and a log is not where a call is answered before the line's end.
pub fn worked_logs_are_in_order()
    ensures foreground { IsInJobsOrder (port_of foreground_given foreground_log foreground_journal) foreground_log [] }
    ensures shell { IsInJobsOrder (port_of shell_ends shell_ends_log shell_ends_journal) shell_ends_log [] }
    ensures too_early { IsInJobsOrder (port_of foreground_given stopped_early foreground_journal) stopped_early [] → ⊥ }
{}
