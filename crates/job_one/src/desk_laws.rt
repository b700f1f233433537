//! The desk of a port, at which its callers' calls of job control are made and its signals are sent on: what each event
//! and each entry makes of it.

ghost use Rattle.std.specs.Prelude.{◌≡◌, ◌≤◌, ◌+◌, ℕ, IsTrue, List, [], ◌∷◌, ◌++◌, Option, Some};
ghost use Rattle.std.specs.Prelude.{true, false, length, slice_get, slice_index_or, slice_set};
ghost use Rattle.tty_base.specs.declared.counters.Signal.{Signal};
ghost use Rattle.tty_calls.specs.declared.sessions.Script.{Script};
ghost use Rattle.tty_calls.specs.Plain.{PlainCall, hangs_up, PlainAnswer, done, PlainEntry, is_caller};
ghost use Rattle.tty_terminal.specs.Terminals.{Terminal, caller_at, has_begun};
ghost use Rattle.tty_terminal.specs.Steps.{after};
ghost use Rattle.tty_terminal.specs.Runs.{is_flush, is_of_call};
ghost use Rattle.tty_base.specs.declared.characters.Flagged.{Flagged};
ghost use Rattle.word_ring.specs.Ends.{PutterState};
ghost use Rattle.port_core.specs.Flips.{after_meeting};
ghost use Rattle.port_core.specs.Phases.{EndsLine};
ghost use Rattle.port_core.specs.Ports.{PortValue, IsPort, call_in};
ghost use Rattle.legal_runs.specs.Order.{is_of_consoles};
ghost use Rattle.play_base.specs.Roles.{Scene};
ghost use Rattle.one_thread.specs.Acts.{FlushesOnce};
ghost use Rattle.one_thread.specs.Turns.{role_numbers, IsTurn, Adds};
ghost use Rattle.play_base.specs.declared.roles.Role.{Role};
ghost use Rattle.one_thread.specs.declared.after_line.Stand.{Stand};
ghost use Rattle.one_thread.specs.declared.after_line.Turn.TheVariants as turn;
ghost use Rattle.order_laws.specs.Agreed.{PlaysEach};
ghost use Rattle.job_control.specs.Control.{JobState};
ghost use Rattle.job_control.specs.declared.answers.Target.{Target};
ghost use Rattle.job_control.specs.declared.processes.JobSignal.{JobSignal};
ghost use Rattle.job_control.specs.declared.processes.Judged.TheVariants.{Pass};
ghost use Rattle.passed_calls.specs.Journals.{Journal};
ghost use Rattle.passed_calls.specs.Scripts.{plain};
ghost use Rattle.job_text.specs.Events.{JobEvent, own, passed, passed_down, sent, JobLog};
ghost use Rattle.job_text.specs.Sessions.{JobCall, JobsSession};
ghost use Rattle.job_steps.specs.Steps.{outcome_of, is_own, is_of_step, judged_call, job_signal, foreground_target};
ghost use Rattle.order_laws.specs.Later.{ComesBy, WasAnswered};
ghost use Rattle.job_steps.specs.Derived.{IsStepIn, passings_on};
ghost use Rattle.job_one.specs.Along.{SendsAlong, StopsAlong};
ghost use Rattle.job_one.specs.Events.{DeskState, new_sent_on, IsSameDesk, HasRaised, StandsAt};
ghost use Rattle.order_laws.specs.Begun.{HadBegun};
ghost use Rattle.job_one.specs.Desk.{proc_in, call_after, signals_of, IsDeskAt, jobs_passed, due_passed};

/// Signals come of flushes alone.
pub fn signals_come_of_flushes()
    ensures step { (calls : ℕ → ℕ → Option PlainCall) (t : Terminal) (e : PlainEntry)
        → is_flush e.event ≡ false
        → signals_of (after calls t e) ≡ signals_of t }
    ensures entry { (v w : PortValue) (e : PlainEntry)
        → IsPort v
        → IsPort w
        → ComesBy v w (e ∷ [])
        → is_flush e.event ≡ false
        → signals_of w.terminal ≡ signals_of v.terminal }
{}

/// Calls are begun by entries of their callers, and of them, alone.
pub fn calls_begin_by_their_entries()
    ensures elsewhere { (s : Scene) (v w : PortValue) (h : Adds s v w) (c : ℕ)
        → is_caller h.entry.who c ≡ false
        → HadBegun v w c }
    ensures by_none { (s : Scene) (v w : PortValue) (h : Adds s v w) (c : ℕ)
        → is_of_call h.entry.event ≡ false
        → HadBegun v w c }
{}

/// Each event is logged at the desk as the rules of job control say, and each entry of the port leaves it as it is:
/// what is due is sent, a signal that a flush has raised goes to the foreground, a call is answered in its caller's
/// turn, and the port's answer is logged behind it.
pub fn desks_follow_their_ports()
    ensures sends { (first : Scene) (session : JobsSession) (log : JobLog) (v : PortValue) (jobs : JobState)
        (next : List ℕ) (signals : ℕ) (signal : JobSignal) (target : Target) (rest : List JobEvent)
        → IsDeskAt first session log v jobs next signals (sent signal target ∷ rest)
        → IsDeskAt first session
        (log ++ record { port = first.port; at = length v.journal; event = sent signal target } ∷ [])
        v jobs next signals rest }
    ensures hangs_up { (first : Scene) (session : JobsSession) (log : JobLog) (old v : PortValue) (e : PlainEntry)
        (jobs : JobState) (next : List ℕ) (signals : ℕ) (c step handle : ℕ) (rest : List JobEvent)
        → ComesBy old v (e ∷ [])
        → ((x : ℕ) → HadBegun old v x)
        → IsDeskAt first session log old jobs next signals (passed_down c handle ∷ rest)
        → call_in v.kept c step ≡ Some (hangs_up handle)
        → WasAnswered v c step done
        → IsDeskAt first session
        (log ++ record { port = first.port; at = length v.journal; event = passed_down c handle } ∷ [])
        v jobs next signals rest }
    ensures raises { (first : Scene) (session : JobsSession) (log : JobLog) (old v : PortValue) (e : PlainEntry)
        (jobs : JobState) (next : List ℕ) (signals : ℕ) (signal : Signal)
        → IsPort old
        → IsPort v
        → ComesBy old v (e ∷ [])
        → IsDeskAt first session log v jobs next signals []
        → length (signals_of old.terminal) ≤ signals
        → slice_get (signals_of v.terminal) signals ≡ Some signal
        → IsDeskAt first session
        (log
        ++ record {
          port = first.port;
          at = length v.journal;
          event = sent (job_signal signal) (foreground_target jobs);
        } ∷ []) v jobs next (signals + 1) [] }
    ensures answers { (first : Scene) (session : JobsSession) (log : JobLog) (scripts : Scene → List Script)
        (roles : List Role) (start v : PortValue) (ticks : ℕ) (stand : Stand) (place : ℕ) (r : Role) (jobs : JobState)
        (next : List ℕ) (signals : ℕ) (call : JobCall) (d : Journal)
        → PlaysEach first scripts roles start v ticks stand
        → IsTurn (is_of_consoles first.session) v (role_numbers roles) stand.going (turn.Call place)
        → slice_get roles place ≡ Some r
        → IsPort v
        → IsDeskAt first session log v jobs next signals []
        → length (signals_of v.terminal) ≤ signals
        → has_begun (caller_at v.terminal r.number) ≡ false
        → call_after session first.port next r.number ≡ Some call
        → IsStepIn first.port session v.terminal.phase r.number (slice_index_or next r.number 0)
        → IsTrue (is_own jobs v.terminal (proc_in session first.port r.number) call)
        → IsDeskAt first session
        (log
        ++ record {
          port = first.port;
          at = length v.journal;
          event = own r.number (slice_index_or next r.number 0)
              (outcome_of jobs v.terminal (proc_in session first.port r.number) r.number call).answer;
        } ∷ []) v (outcome_of jobs v.terminal (proc_in session first.port r.number) r.number call).left
        (slice_set next r.number (slice_index_or next r.number 0 + 1)) signals
        (outcome_of jobs v.terminal (proc_in session first.port r.number) r.number call).due }
    ensures stays { (first : Scene) (session : JobsSession) (log : JobLog) (v w : PortValue) (part : List PlainEntry)
        (jobs : JobState) (next : List ℕ) (signals : ℕ)
        → ComesBy v w part
        → ((c : ℕ) → HadBegun v w c)
        → IsDeskAt first session log v jobs next signals []
        → IsDeskAt first session log w jobs next signals [] }
    ensures begins { (first : Scene) (session : JobsSession) (log : JobLog) (v w : PortValue) (e : PlainEntry) (c : ℕ)
        (jobs : JobState) (next : List ℕ) (signals : ℕ) (call : PlainCall) (d : Journal)
        → IsPort v
        → ComesBy v w (e ∷ [])
        → ((x : ℕ) → (x ≡ c → ⊥) → HadBegun v w x)
        → (caller_at w.terminal c).next ≡ (caller_at v.terminal c).next
        → is_of_step c (caller_at v.terminal c).next e ≡ true
        → call_after session first.port next c ≡ Some (plain call)
        → (has_begun (caller_at v.terminal c) ≡ false
        → judged_call jobs v.terminal (proc_in session first.port c) call ≡ Pass)
        → IsDeskAt first session log v jobs next signals []
        → IsDeskAt first session log w jobs next signals [] }
    ensures passes { (first : Scene) (session : JobsSession) (log : JobLog) (old v : PortValue) (e : PlainEntry) (c : ℕ)
        (jobs : JobState) (next : List ℕ) (signals : ℕ) (call : PlainCall) (answer : PlainAnswer) (d : Journal)
        → IsPort old
        → IsPort v
        → ComesBy old v (e ∷ [])
        → ((x : ℕ) → (x ≡ c → ⊥) → HadBegun old v x)
        → has_begun (caller_at v.terminal c) ≡ false
        → is_of_step c (caller_at old.terminal c).next e ≡ true
        → WasAnswered v c (caller_at old.terminal c).next answer
        → call_after session first.port next c ≡ Some (plain call)
        → IsStepIn first.port session v.terminal.phase c (slice_index_or next c 0)
        → call_in v.kept c (caller_at old.terminal c).next ≡ Some call
        → (has_begun (caller_at old.terminal c) ≡ false
        → judged_call jobs old.terminal (proc_in session first.port c) call ≡ Pass)
        → IsDeskAt first session log old jobs next signals []
        → length (signals_of old.terminal) ≤ signals
        → IsDeskAt first session
        (log ++ record { port = first.port; at = length v.journal; event = passed c (slice_index_or next c 0) answer }
        ∷ []) v (jobs_passed jobs call answer) (slice_set next c (slice_index_or next c 0 + 1)) signals
        (due_passed jobs call answer) }
{}

/// A port's new signals are sent on, whatever they are: the log leads on, all are sent on then, and nothing else
/// changes.
pub fn new_signals_are_sent_on()
    ensures stands { (first : Scene) (session : JobsSession) (v : PortValue) (d : DeskState)
        → IsPort v
        → HasRaised v d.sent
        → StandsAt first session v d
        → StandsAt first session v (new_sent_on v d) }
    ensures all { (v : PortValue) (d : DeskState) → length (signals_of v.terminal) ≤ (new_sent_on v d).sent }
    ensures same { (v : PortValue) (d : DeskState) → IsSameDesk d (new_sent_on v d) }
    ensures passes { (session : JobsSession) (v : PortValue) (d : DeskState)
        → passings_on session (new_sent_on v d).log d.number ≡ passings_on session d.log d.number }
{}

/// The desk goes along with the line of a phase: with a flush at most, behind which new signals are sent on, with what
/// both ends of the flip buffer tell each other, and with the line's end.
pub fn desks_go_along_with_lines()
    ensures flush { (v w : PortValue) (d x : DeskState)
        → IsPort v
        → IsPort w
        → FlushesOnce v w
        → x ≡ new_sent_on w d
        → SendsAlong v w d x }
    ensures stops { (v w : PortValue) (d : DeskState) → IsPort v → IsPort w → FlushesOnce v w → StopsAlong v w d d }
    ensures meets { (v w : PortValue) (putter : PutterState Flagged) (d : DeskState)
        → w ≡ record v { flip = after_meeting v.flip putter }
        → SendsAlong v w d d }
    ensures ends { (v w : PortValue) (putter now : PutterState Flagged) (d : DeskState)
        → IsPort v
        → IsPort w
        → EndsLine v w putter now
        → SendsAlong v w d d }
{}
