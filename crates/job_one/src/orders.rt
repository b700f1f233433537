//! What the log of a port passes down, and whose turn its events are in.

ghost use Rattle.std.specs.Prelude.{◌≡◌, ◌≤◌, ◌+◌, ℕ, List, [], ◌∷◌, ◌++◌, Some, length, slice_get};
ghost use Rattle.job_text.specs.Events.{JobEvent, own, passed, passed_down, sent, JobLog};
ghost use Rattle.job_text.specs.Sessions.{JobsSession};
ghost use Rattle.job_steps.specs.Derived.{job_call_at, passings_on};
ghost use Rattle.job_one.specs.Latest.{latest_after, latest_on, passings_by};
ghost use Rattle.tty_calls.specs.declared.sessions.Script.{Script};
ghost use Rattle.tty_calls.specs.Plain.{PlainAnswer, PlainEntry};
ghost use Rattle.port_core.specs.Ports.{PortValue, IsPort};
ghost use Rattle.legal_runs.specs.Order.{is_of_consoles};
ghost use Rattle.play_base.specs.Roles.{Scene};
ghost use Rattle.one_thread.specs.Turns.{role_numbers, IsTurn};
ghost use Rattle.play_base.specs.declared.roles.Role.{Role};
ghost use Rattle.one_thread.specs.declared.after_line.Stand.{Stand};
ghost use Rattle.order_laws.specs.Agreed.{PlaysEach};
ghost use Rattle.job_control.specs.declared.answers.JobAnswer.{JobAnswer};
ghost use Rattle.job_control.specs.declared.answers.Target.{Target};
ghost use Rattle.job_control.specs.declared.processes.JobSignal.{JobSignal};
ghost use Rattle.job_steps.specs.Steps.{JobsState};
ghost use Rattle.order_laws.specs.Later.{ComesBy};
ghost use Rattle.job_one.specs.Later.{HasLogged};
ghost use Rattle.job_one.specs.Ordered.{HasOrdered};
ghost use Rattle.one_thread.specs.declared.after_line.Turn.TheVariants as turn;

/// What is passed down follows the log: by each event what that passes down, the hangup of a process at the latest
/// step that was answered without the port.
pub fn passings_follow_the_log()
    ensures passings { (session : JobsSession) (log : JobLog) (p at : ℕ) (event : JobEvent)
        → passings_on session (log ++ record { port = p; at = at; event = event } ∷ []) p
        ≡ passings_on session log p ++ passings_by (job_call_at p session) (latest_on log p) event }
    ensures latest { (log : JobLog) (p at : ℕ) (event : JobEvent)
        → latest_on (log ++ record { port = p; at = at; event = event } ∷ []) p
        ≡ latest_after (latest_on log p) (event ∷ []) }
{}

/// The events of the log are in their turn, whatever session the port is found to have played.
pub fn events_come_in_turn()
    ensures stays { (first : Scene) (session : JobsSession) (log : JobLog) (v w : PortValue) (part : List PlainEntry)
        → ComesBy v w part
        → HasOrdered first session log v
        → HasOrdered first session log w }
    ensures sent { (first : Scene) (session : JobsSession) (log : JobLog) (v : PortValue) (u : JobsState)
        (signal : JobSignal) (target : Target)
        → HasLogged first.port session log v u
        → HasOrdered first session log v
        → HasOrdered first session
        (log ++ record { port = first.port; at = length v.journal; event = sent signal target } ∷ []) v }
    ensures down { (first : Scene) (session : JobsSession) (log : JobLog) (v : PortValue) (u : JobsState) (c handle : ℕ)
        → HasLogged first.port session log v u
        → HasOrdered first session log v
        → HasOrdered first session
        (log ++ record { port = first.port; at = length v.journal; event = passed_down c handle } ∷ []) v }
    ensures own { (first : Scene) (session : JobsSession) (log : JobLog) (scripts : Scene → List Script)
        (roles : List Role) (start v : PortValue) (ticks : ℕ) (stand : Stand) (place : ℕ) (r : Role) (u : JobsState)
        (step : ℕ) (answer : JobAnswer)
        → PlaysEach first scripts roles start v ticks stand
        → IsTurn (is_of_consoles first.session) v (role_numbers roles) stand.going (turn.Call place)
        → slice_get roles place ≡ Some r
        → IsPort v
        → HasLogged first.port session log v u
        → HasOrdered first session log v
        → length v.terminal.tally.signals.items ≤ u.signals
        → HasOrdered first session
        (log ++ record { port = first.port; at = length v.journal; event = own r.number step answer } ∷ []) v }
    ensures passed { (first : Scene) (session : JobsSession) (log : JobLog) (old v : PortValue) (e : PlainEntry)
        (u : JobsState) (c step : ℕ) (answer : PlainAnswer)
        → IsPort old
        → ComesBy old v (e ∷ [])
        → HasLogged first.port session log v u
        → HasOrdered first session log v
        → length old.terminal.tally.signals.items ≤ u.signals
        → HasOrdered first session
        (log ++ record { port = first.port; at = length v.journal; event = passed c step answer } ∷ []) v }
{}
