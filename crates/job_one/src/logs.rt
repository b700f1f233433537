//! The log of a port while its journal still grows.

ghost use Rattle.std.specs.Prelude.{◌≡◌, ◌<◌, ◌≤◌, ◌+◌, ℕ, IsTrue, List, [], ◌∷◌};
ghost use Rattle.std.specs.Prelude.{◌++◌, Some, true, false, length, slice_get};
ghost use Rattle.tty_base.specs.declared.counters.Signal.{Signal};
ghost use Rattle.tty_calls.specs.Plain.{PlainCall, hangs_up, PlainAnswer, done, PlainEntry};
ghost use Rattle.tty_terminal.specs.Terminals.{caller_at, has_begun};
ghost use Rattle.port_core.specs.Ports.{PortValue, IsPort, call_in};
ghost use Rattle.job_control.specs.declared.answers.JobAnswer.{JobAnswer};
ghost use Rattle.job_control.specs.declared.answers.Target.{Target};
ghost use Rattle.job_control.specs.declared.processes.JobSignal.{JobSignal};
ghost use Rattle.job_control.specs.declared.processes.Judged.TheVariants.{Pass};
ghost use Rattle.passed_calls.specs.Scripts.{plain};
ghost use Rattle.passed_calls.specs.Journals.{Journal};
ghost use Rattle.job_text.specs.Events.{JobEvent, own, passed, passed_down, sent, JobLog};
ghost use Rattle.job_text.specs.Sessions.{JobCall, JobsSession};
ghost use Rattle.job_steps.specs.Derived.{IsStepIn};
ghost use Rattle.job_steps.specs.Steps.{Port, JobsState, first_place, is_of_step, judged_call, jobs_before, proc_of};
ghost use Rattle.job_steps.specs.Steps.{next_of, next_call, with_jobs, answered_for, after_own, after_passed};
ghost use Rattle.job_steps.specs.Steps.{after_event, outcome_of, is_own, job_signal, foreground_target};
ghost use Rattle.order_laws.specs.Later.{IsLater, ComesBy, WasAnswered};
ghost use Rattle.job_one.specs.Later.{port_with, HasLogged, HasGoneOn};

/// The log of a port grows by one event, of each kind, and stays one as the port makes entries.
pub fn logs_grow()
    ensures own { (p : ℕ) (session : JobsSession) (log : JobLog) (v : PortValue) (u : JobsState) (d : Journal) (c : ℕ)
        (call : JobCall) (answer : JobAnswer)
        → IsPort v
        → HasLogged p session log v u
        → u.due ≡ []
        → next_call (port_with p session d) u c ≡ Some call
        → IsStepIn p session v.terminal.phase c (next_of u c)
        → has_begun (caller_at v.terminal c) ≡ false
        → IsTrue (is_own u.now.jobs v.terminal (proc_of (port_with p session d) c) call)
        → answer ≡ (outcome_of u.now.jobs v.terminal (proc_of (port_with p session d) c) c call).answer
        → HasLogged p session
        (log ++ record { port = p; at = length v.journal; event = own c (next_of u c) answer } ∷ []) v
        (answered_for (after_own v.terminal (proc_of (port_with p session d) c) c u (length v.journal) (Some call)) c) }
    ensures passed { (p : ℕ) (session : JobsSession) (log : JobLog) (v : PortValue) (u : JobsState) (d : Journal)
        (c step : ℕ) (call : PlainCall) (answer : PlainAnswer)
        → IsPort v
        → HasLogged p session log v u
        → u.due ≡ []
        → next_call (port_with p session d) u c ≡ Some (plain call)
        → IsStepIn p session v.terminal.phase c (next_of u c)
        → call_in v.kept c step ≡ Some call
        → u.now.at < length v.journal
        → WasAnswered v c step answer
        → HasGoneOn p session v u c step
        → HasLogged p session
        (log ++ record { port = p; at = length v.journal; event = passed c (next_of u c) answer } ∷ []) v
        (answered_for (after_passed u (length v.journal) (next_call (port_with p session d) u c) answer) c) }
    ensures due { (p : ℕ) (session : JobsSession) (log : JobLog) (v : PortValue) (u : JobsState) (signal : JobSignal)
        (target : Target) (rest : List JobEvent)
        → HasLogged p session log v u
        → u.due ≡ sent signal target ∷ rest
        → length v.journal ≡ u.now.at
        → HasLogged p session (log ++ record { port = p; at = length v.journal; event = sent signal target } ∷ []) v
        (record (with_jobs u (length v.journal) u.now.jobs) { signals = u.signals; due = rest }) }
    ensures down { (p : ℕ) (session : JobsSession) (log : JobLog) (v : PortValue) (u : JobsState) (c step handle : ℕ)
        (rest : List JobEvent)
        → HasLogged p session log v u
        → u.due ≡ passed_down c handle ∷ rest
        → length v.journal ≡ u.now.at + 1
        → call_in v.kept c step ≡ Some (hangs_up handle)
        → WasAnswered v c step done
        → HasLogged p session (log ++ record { port = p; at = length v.journal; event = passed_down c handle } ∷ []) v
        (record (with_jobs u (length v.journal) u.now.jobs) { due = rest }) }
    ensures raised { (p : ℕ) (session : JobsSession) (log : JobLog) (old v : PortValue) (e : PlainEntry) (u : JobsState)
        (signal : Signal)
        → IsPort old
        → IsPort v
        → ComesBy old v (e ∷ [])
        → HasLogged p session log v u
        → u.due ≡ []
        → length old.terminal.tally.signals.items ≤ u.signals
        → slice_get v.terminal.tally.signals.items u.signals ≡ Some signal
        → HasLogged p session
        (log
        ++ record { port = p; at = length v.journal; event = sent (job_signal signal) (foreground_target u.now.jobs) }
        ∷ []) v (record (with_jobs u (length v.journal) u.now.jobs) { signals = u.signals + 1; due = [] }) }
    ensures stays { (p : ℕ) (session : JobsSession) (log : JobLog) (v w : PortValue) (part : List PlainEntry)
        (u : JobsState)
        → ComesBy v w part
        → HasLogged p session log v u
        → HasLogged p session log w u }
{}

/// An event says nothing of job control before an earlier entry.
pub fn what_came_before_stays()
    ensures now { (port : Port) (s : JobsState) (place : ℕ) → s.now.at ≤ place → jobs_before port s place ≡ s.now.jobs }
    ensures behind { (port : Port) (s : JobsState) (at place : ℕ) (event : JobEvent)
        → place < at
        → jobs_before port (after_event port s at event) place ≡ jobs_before port s place }
{}

/// The first entry of a call that a caller has not begun is the next one that is of it.
pub fn a_call_begins_at_its_first_entry()
    ensures { (v w : PortValue) (e : PlainEntry) (part : List PlainEntry) (c : ℕ) (j : Journal)
        → IsPort v
        → has_begun (caller_at v.terminal c) ≡ false
        → ComesBy v w (e ∷ part)
        → is_of_step c (caller_at v.terminal c).next e ≡ true
        → IsLater w j
        → first_place j c (caller_at v.terminal c).next ≡ length v.journal }
{}

/// A call that a caller has begun went on to the port: from its first entry on, as the port makes entries, and as
/// events are logged that answer no call of this caller.
pub fn calls_have_gone_on()
    ensures begins { (p : ℕ) (session : JobsSession) (log : JobLog) (v w : PortValue) (e : PlainEntry)
        (part : List PlainEntry) (u : JobsState) (d : Journal) (c : ℕ) (call : PlainCall)
        → IsPort v
        → ComesBy v w (e ∷ part)
        → HasLogged p session log v u
        → next_call (port_with p session d) u c ≡ Some (plain call)
        → judged_call u.now.jobs v.terminal (proc_of (port_with p session d) c) call ≡ Pass
        → has_begun (caller_at v.terminal c) ≡ false
        → is_of_step c (caller_at v.terminal c).next e ≡ true
        → HasGoneOn p session w u c (caller_at v.terminal c).next }
    ensures stays { (p : ℕ) (session : JobsSession) (v w : PortValue) (part : List PlainEntry) (u : JobsState)
        (c step : ℕ)
        → ComesBy v w part
        → HasGoneOn p session v u c step
        → HasGoneOn p session w u c step }
    ensures behind { (p : ℕ) (session : JobsSession) (v : PortValue) (u next : JobsState) (event : JobEvent)
        (c step : ℕ)
        → ((j : Journal) → IsLater v j → after_event (port_with p session j) u (length v.journal) event ≡ next)
        → next_of next c ≡ next_of u c
        → HasGoneOn p session v u c step
        → HasGoneOn p session v next c step }
{}
