//! What follows from the definitions of job control alone: a read from the background never comes to the port, each
//! signal of the port goes to the foreground, and a session of processes has one run in the order of one thread.
#![tactic(auto)]

ghost use Rattle.std.specs.Prelude.{◌≡◌, ℕ, false};
ghost use Rattle.job_control.specs.Control.{JobState, in_background};
ghost use Rattle.job_control.specs.declared.answers.Target.{Target};
ghost use Rattle.job_text.specs.Events.{JobLog};
ghost use Rattle.job_steps.specs.Steps.{Port, proc_of, foreground_target, IsJobsRun};
ghost use Rattle.tty_calls.specs.declared.journals.PortRun.{PortRun};
ghost use Rattle.tty_terminal.specs.Terminals.{Terminal};
ghost use Rattle.job_text.specs.Sessions.{JobsSession};
ghost use Rattle.job_steps.specs.Rows.{port_of, foreground_given, foreground_journal};
ghost use Rattle.job_laws.specs.Rows.{asked_early, two_writes, logged_twice, two_writes_journal};
ghost use Rattle.job_laws.specs.OneRun.{IsPlayedWhole};
ghost use Rattle.order_laws.specs.Same.{IsSamePort};
ghost use Rattle.job_laws.specs.Sending.{jobs_at, IsReadPassed, IsPortSignalSent};

/// A law: no read from the background is passed to the port. Of a read that was passed, through a handle that was live
/// and for reading as it began, the process was not in the background then.
pub fn no_background_read_is_passed()
    ensures { (port : Port) (log : JobLog) (c entries : ℕ)
        → IsJobsRun port log
        → IsReadPassed port log c entries
        → in_background (jobs_at port log entries) (proc_of port c) ≡ false }
{}

/// A law: each interrupt, quit and suspend of the port is sent to the group that is in the foreground then, or to
/// nobody where no session holds the port.
pub fn port_signals_go_to_the_foreground()
    ensures { (port : Port) (log : JobLog) (jobs : JobState) (target : Target)
        → IsJobsRun port log
        → IsPortSignalSent port log jobs target
        → target ≡ foreground_target jobs }
{}

/// A law: a session of processes has one run on each port. Two runs of a port that are legal and in the order of one
/// thread, each for the session that its log derives, with the whole log of job control beside it in which each event
/// is in its turn, have the same journal, line report and log, and lead to the same terminal.
pub fn a_port_of_processes_has_one_run()
    ensures { (p : ℕ) (session : JobsSession) (log other : JobLog) (run again : PortRun) (t u : Terminal)
        → IsPlayedWhole p session log run t
        → IsPlayedWhole p session other again u
        → IsSamePort p log other run again t u }
{}

/// A law: a log is none of its port where a call is answered in another phase than its own, or where one answer of the
/// port is logged for two calls.
pub fn further_logs_are_none()
    ensures other_phase { IsJobsRun (port_of foreground_given asked_early foreground_journal) asked_early → ⊥ }
    ensures twice { IsJobsRun (port_of two_writes logged_twice two_writes_journal) logged_twice → ⊥ }
{}
