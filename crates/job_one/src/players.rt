//! A player of a session of processes, turn by turn: what each turn, each event and each call leaves of what it keeps.

ghost use Rattle.std.specs.Prelude.{◌≡◌, ◌≤◌, ◌<◌, ◌+◌, ◌⊎◌, ℕ, IsTrue, List, [], ◌∷◌, ◌++◌, None};
ghost use Rattle.std.specs.Prelude.{Some, true, false, length, slice_get, slice_index_or, slice_set};
ghost use Rattle.tty_base.specs.declared.counters.Signal.{Signal};
ghost use Rattle.tty_base.specs.declared.characters.Flagged.{Flagged};
ghost use Rattle.tty_base.specs.declared.lines.LineStep.{LineStep};
ghost use Rattle.word_ring.specs.Ends.{PutterState};
ghost use Rattle.uart_line.specs.LineState.{LineState};
ghost use Rattle.tty_calls.specs.Sessions.{line_on, ticks_on};
ghost use Rattle.legal_runs.specs.Legal.{phase_at};
ghost use Rattle.order_laws.specs.Agreed.{AreRolesOfEach};
ghost use Rattle.tty_calls.specs.declared.sessions.Script.{Script};
ghost use Rattle.tty_calls.specs.Plain.{PlainCall, hangs_up, PlainAnswer, done, PlainEntry, is_caller};
ghost use Rattle.tty_calls.specs.Limits.{IsCallWithin};
ghost use Rattle.passed_calls.specs.Journals.{Journal};
ghost use Rattle.passed_calls.specs.Scripts.{plain};
ghost use Rattle.port_core.specs.Attempts.{PlainTried, done_by, took_part, must_wait};
ghost use Rattle.port_core.specs.Ports.{PortValue, IsPort};
ghost use Rattle.legal_runs.specs.Order.{is_of_consoles};
ghost use Rattle.play_base.specs.Roles.{Scene};
ghost use Rattle.one_thread.specs.Turns.{role_numbers, who_of, IsTurn};
ghost use Rattle.one_thread.specs.Acts.{PlaysItsLine, AddsEntry, PlaysTurn, TriesCall};
ghost use Rattle.one_thread.specs.Acts.{PlaysCall, EndsCalls, PlaysLast, PlaysEnd};
ghost use Rattle.play_base.specs.declared.roles.Role.{Role};
ghost use Rattle.one_thread.specs.declared.after_line.Stand.{Stand};
ghost use Rattle.one_thread.specs.declared.after_line.Turn.{Turn};
ghost use Rattle.one_thread.specs.declared.after_line.Turn.TheVariants as turn;
ghost use Rattle.job_control.specs.declared.answers.Target.{Target};
ghost use Rattle.job_control.specs.declared.processes.JobSignal.{JobSignal};
ghost use Rattle.job_control.specs.declared.processes.Judged.TheVariants.{Pass};
ghost use Rattle.job_text.specs.Events.{JobEvent, own, passed, passed_down, sent, JobLog};
ghost use Rattle.job_text.specs.Sessions.{JobCall, JobsSession};
ghost use Rattle.job_steps.specs.Derived.{IsStepIn, block_phases};
ghost use Rattle.job_steps.specs.Steps.{outcome_of, is_own, judged_call, job_signal, foreground_target};
ghost use Rattle.order_laws.specs.Passed.{begin_of, IsOfBlocks};
ghost use Rattle.passed_calls.specs.Within.{AreBlocksWithin};
ghost use Rattle.order_laws.specs.Witness.{IsCalling};
ghost use Rattle.order_laws.specs.Later.{ComesBy};
ghost use Rattle.job_one.specs.Latest.{latest_on};
ghost use Rattle.job_one.specs.Desk.{proc_in, call_after, signals_of, jobs_passed, due_passed};
ghost use Rattle.job_one.specs.Events.{DeskState};
ghost use Rattle.job_one.specs.Along.{SendsAlong};
ghost use Rattle.job_one.specs.Between.{value_at, IsBeforeJobs};
ghost use Rattle.order_laws.specs.Begun.{begun_at, begun_with};
ghost use Rattle.job_one.specs.Playing.{DeskValue, step_at, passings_with};
ghost use Rattle.job_one.specs.Playing.{hangup_with, AreLoggedBefore, IsPlayingJobs};

/// By a flush, a tick, the clock's end or the end of a caller's calls the player goes on.
pub fn players_take_their_turns()
    ensures turn { (first : Scene) (session : JobsSession) (scripts : Scene → List Script) (roles : List Role)
        (start : PortValue) (log : JobLog) (old new : PortValue) (d : DeskValue) (ticks : ℕ) (was now : Stand)
        (next : Turn)
        → IsPlayingJobs first session scripts roles start log old d ticks was
        → d.due ≡ []
        → IsTurn (is_of_consoles first.session) old (role_numbers roles) was.going next
        → ((c : ℕ) → is_caller (who_of (role_numbers roles) next) c ≡ false)
        → PlaysTurn roles old new was now next
        → AddsEntry old new
        → IsPlayingJobs first session scripts roles start log new d ticks now }
    ensures last { (first : Scene) (session : JobsSession) (scripts : Scene → List Script) (roles : List Role)
        (start : PortValue) (log : JobLog) (old new : PortValue) (d : DeskValue) (ticks : ℕ) (was now : Stand)
        (place : ℕ) (r : Role)
        → IsPlayingJobs first session scripts roles start log old d ticks was
        → d.due ≡ []
        → IsTurn (is_of_consoles first.session) old (role_numbers roles) was.going (turn.Call place)
        → slice_get roles place ≡ Some r
        → begun_at old r.number ≡ false
        → EndsCalls roles old new place
        → PlaysLast roles old new was now place
        → IsPlayingJobs first session scripts roles start log new d ticks now }
{}

/// By what is due, and by a signal that the latest flush has raised.
pub fn players_send_signals_on()
    ensures due { (first : Scene) (session : JobsSession) (scripts : Scene → List Script) (roles : List Role)
        (start : PortValue) (log : JobLog) (v : PortValue) (d : DeskValue) (ticks : ℕ) (stand : Stand)
        (signal : JobSignal) (target : Target) (rest : List JobEvent)
        → IsPlayingJobs first session scripts roles start log v d ticks stand
        → d.due ≡ sent signal target ∷ rest
        → IsPlayingJobs first session scripts roles start
        (log ++ record { port = first.port; at = length v.journal; event = sent signal target } ∷ []) v
        (record d { due = rest }) ticks stand }
    ensures raised { (first : Scene) (session : JobsSession) (scripts : Scene → List Script) (roles : List Role)
        (start : PortValue) (log : JobLog) (old v : PortValue) (e : PlainEntry) (d : DeskValue) (ticks : ℕ)
        (stand : Stand) (signal : Signal)
        → IsPort old
        → IsPort v
        → ComesBy old v (e ∷ [])
        → IsPlayingJobs first session scripts roles start log v d ticks stand
        → d.due ≡ []
        → length (signals_of old.terminal) ≤ d.signals
        → slice_get (signals_of v.terminal) d.signals ≡ Some signal
        → IsPlayingJobs first session scripts roles start
        (log
        ++ record {
          port = first.port;
          at = length v.journal;
          event = sent (job_signal signal) (foreground_target d.jobs);
        } ∷ []) v (record d { signals = d.signals + 1; due = [] }) ticks stand }
{}

/// By a call that is answered without the port, in its caller's turn.
pub fn players_answer_calls()
    ensures own { (first : Scene) (session : JobsSession) (scripts : Scene → List Script) (roles : List Role)
        (start : PortValue) (log : JobLog) (v : PortValue) (d : DeskValue) (ticks : ℕ) (stand : Stand) (place : ℕ)
        (r : Role) (call : JobCall) (j : Journal)
        → IsPlayingJobs first session scripts roles start log v d ticks stand
        → IsTurn (is_of_consoles first.session) v (role_numbers roles) stand.going (turn.Call place)
        → slice_get roles place ≡ Some r
        → IsPort v
        → d.due ≡ []
        → length (signals_of v.terminal) ≤ d.signals
        → begun_at v r.number ≡ false
        → r.number < length d.next
        → call_after session first.port d.next r.number ≡ Some call
        → IsStepIn first.port session v.terminal.phase r.number (step_at d r.number)
        → IsTrue (is_own d.jobs v.terminal (proc_in session first.port r.number) call)
        → IsPlayingJobs first session scripts roles start
        (log
        ++ record {
          port = first.port;
          at = length v.journal;
          event = own r.number (step_at d r.number)
              (outcome_of d.jobs v.terminal (proc_in session first.port r.number) r.number call).answer;
        } ∷ []) v
        (record {
          jobs = (outcome_of d.jobs v.terminal (proc_in session first.port r.number) r.number call).left;
          next = slice_set d.next r.number (step_at d r.number + 1);
          signals = d.signals;
          due = (outcome_of d.jobs v.terminal (proc_in session first.port r.number) r.number call).due;
        }) ticks stand }
{}

/// A call that is for the port is played: one that its caller begins, where the background check lets it go on, and one
/// that it has begun; and behind the attempt the player goes on, with the port's answer logged where there is one.
pub fn players_pass_calls_down()
    ensures begins { (first : Scene) (session : JobsSession) (scripts : Scene → List Script) (roles : List Role)
        (start : PortValue) (log : JobLog) (v : PortValue) (d : DeskValue) (ticks : ℕ) (stand : Stand) (place : ℕ)
        (r : Role) (call : PlainCall)
        → IsPlayingJobs first session scripts roles start log v d ticks stand
        → IsTurn (is_of_consoles first.session) v (role_numbers roles) stand.going (turn.Call place)
        → slice_get roles place ≡ Some r
        → begun_at v r.number ≡ false
        → IsOfBlocks first.port (block_phases session) first.session
        → AreBlocksWithin first.session.ports first.session.flips (block_phases session)
        → IsCallWithin call
        → call_after session first.port d.next r.number ≡ Some (plain call)
        → begin_of first.port (block_phases session) v.terminal.phase r.number ≤ step_at d r.number
        → step_at d r.number < begin_of first.port (block_phases session) (v.terminal.phase + 1) r.number
        → IsCalling first (block_phases session) scripts roles start
        (passings_with session log first.port d (begun_with v r.number)) v ticks stand place call }
    ensures begun { (first : Scene) (session : JobsSession) (scripts : Scene → List Script) (roles : List Role)
        (start : PortValue) (log : JobLog) (v : PortValue) (d : DeskValue) (ticks : ℕ) (stand : Stand) (place : ℕ)
        (r : Role) (call : PlainCall)
        → IsPlayingJobs first session scripts roles start log v d ticks stand
        → slice_get roles place ≡ Some r
        → begun_at v r.number ≡ true
        → call_after session first.port d.next r.number ≡ Some (plain call)
        → IsCalling first (block_phases session) scripts roles start
        (passings_with session log first.port d (begun_with v r.number)) v ticks stand place call }
    ensures waits { (first : Scene) (session : JobsSession) (scripts : Scene → List Script) (roles : List Role)
        (start : PortValue) (log : JobLog) (old new : PortValue) (d : DeskValue) (ticks : ℕ) (was now : Stand)
        (place : ℕ) (r : Role) (call : PlainCall) (tried : PlainTried) (j : Journal)
        → IsPlayingJobs first session scripts roles start log old d ticks was
        → d.due ≡ []
        → IsCalling first (block_phases session) scripts roles start
        (passings_with session log first.port d (begun_with old r.number)) old ticks was place call
        → IsTurn (is_of_consoles first.session) old (role_numbers roles) was.going (turn.Call place)
        → slice_get roles place ≡ Some r
        → IsPort old
        → call_after session first.port d.next r.number ≡ Some (plain call)
        → (begun_at old r.number ≡ false
        → judged_call d.jobs old.terminal (proc_in session first.port r.number) call ≡ Pass)
        → (tried ≡ must_wait) ⊎ (tried ≡ took_part)
        → TriesCall roles old new place call tried
        → PlaysCall roles old new was now place call
        → IsPlayingJobs first session scripts roles start log new d ticks now }
    ensures answered { (first : Scene) (session : JobsSession) (scripts : Scene → List Script) (roles : List Role)
        (start : PortValue) (log : JobLog) (old new : PortValue) (d : DeskValue) (ticks : ℕ) (was now : Stand)
        (place : ℕ) (r : Role) (call : PlainCall) (answer : PlainAnswer) (j : Journal)
        → IsPlayingJobs first session scripts roles start log old d ticks was
        → IsCalling first (block_phases session) scripts roles start
        (passings_with session log first.port d (begun_with old r.number)) old ticks was place call
        → IsTurn (is_of_consoles first.session) old (role_numbers roles) was.going (turn.Call place)
        → slice_get roles place ≡ Some r
        → IsPort old
        → IsPort new
        → d.due ≡ []
        → length (signals_of old.terminal) ≤ d.signals
        → r.number < length d.next
        → call_after session first.port d.next r.number ≡ Some (plain call)
        → IsStepIn first.port session start.terminal.phase r.number (step_at d r.number)
        → (begun_at old r.number ≡ false
        → judged_call d.jobs old.terminal (proc_in session first.port r.number) call ≡ Pass)
        → TriesCall roles old new place call (done_by answer)
        → PlaysCall roles old new was now place call
        → IsPlayingJobs first session scripts roles start
        (log
        ++ record { port = first.port; at = length new.journal; event = passed r.number (step_at d r.number) answer }
        ∷ []) new
        (record {
          jobs = jobs_passed d.jobs call answer;
          next = slice_set d.next r.number (step_at d r.number + 1);
          signals = d.signals;
          due = due_passed d.jobs call answer;
        }) ticks now }
{}

/// A process that leads the session ends: the hangup that is due is passed down at the step of its end, and once the
/// port has answered it, it is logged.
pub fn players_hang_up_for_processes()
    ensures begins { (first : Scene) (session : JobsSession) (scripts : Scene → List Script) (roles : List Role)
        (start : PortValue) (log : JobLog) (v : PortValue) (d : DeskValue) (ticks : ℕ) (stand : Stand) (place : ℕ)
        (r : Role) (handle : ℕ)
        → IsPlayingJobs first session scripts roles start log v d ticks stand
        → IsTurn (is_of_consoles first.session) v (role_numbers roles) stand.going (turn.Call place)
        → slice_get roles place ≡ Some r
        → begun_at v r.number ≡ false
        → IsOfBlocks first.port (block_phases session) first.session
        → AreBlocksWithin first.session.ports first.session.flips (block_phases session)
        → IsCallWithin (hangs_up handle)
        → AreLoggedBefore session log first.port r.number (latest_on log first.port)
        → begin_of first.port (block_phases session) v.terminal.phase r.number ≤ latest_on log first.port
        → latest_on log first.port < begin_of first.port (block_phases session) (v.terminal.phase + 1) r.number
        → IsCalling first (block_phases session) scripts roles start
        (hangup_with session log first.port d v r.number handle) v ticks stand place (hangs_up handle) }
    ensures answered { (first : Scene) (session : JobsSession) (scripts : Scene → List Script) (roles : List Role)
        (start : PortValue) (log : JobLog) (old new : PortValue) (d : DeskValue) (ticks : ℕ) (was now : Stand)
        (place : ℕ) (r : Role) (handle : ℕ)
        → IsPlayingJobs first session scripts roles start log old d ticks was
        → IsCalling first (block_phases session) scripts roles start
        (hangup_with session log first.port d old r.number handle) old ticks was place (hangs_up handle)
        → IsTurn (is_of_consoles first.session) old (role_numbers roles) was.going (turn.Call place)
        → slice_get roles place ≡ Some r
        → begun_at old r.number ≡ false
        → d.due ≡ passed_down r.number handle ∷ []
        → latest_on log first.port < step_at d r.number
        → TriesCall roles old new place (hangs_up handle) (done_by done)
        → PlaysCall roles old new was now place (hangs_up handle)
        → IsPlayingJobs first session scripts roles start
        (log ++ record { port = first.port; at = length new.journal; event = passed_down r.number handle } ∷ []) new
        (record d { due = [] }) ticks now }
{}

/// A phase begins to be played behind its line, and at its end the next one can begin.
pub fn phases_of_processes_are_played()
    ensures begins { (first : Scene) (session : JobsSession) (scripts : Scene → List Script) (roles : List Role)
        (lines : List LineStep) (old mid : PortValue) (putter now : PutterState Flagged) (line played : LineState)
        (run later ticks : ℕ) (d x : DeskState)
        → IsBeforeJobs first session old putter line run d
        → PlaysItsLine lines old mid putter now line played run later
        → SendsAlong old mid d x
        → old.terminal.phase < length first.session.phases
        → lines ≡ line_on first.port (phase_at first.session old.terminal.phase)
        → ticks ≡ ticks_on first.port (phase_at first.session old.terminal.phase)
        → IsPort mid
        → AreRolesOfEach first scripts roles old.terminal.phase mid
        → IsPlayingJobs first session scripts roles mid x.log mid (value_at x) ticks
        (record { run = later; part = 0; ticks = ticks; going = None }) }
    ensures ends { (first : Scene) (session : JobsSession) (scripts : Scene → List Script) (roles : List Role)
        (lines : List LineStep) (old mid v new : PortValue) (putter now left : PutterState Flagged)
        (line played : LineState) (run later next ticks : ℕ) (stand : Stand) (d x : DeskState)
        → IsBeforeJobs first session old putter line run d
        → PlaysItsLine lines old mid putter now line played run later
        → old.terminal.phase < length first.session.phases
        → lines ≡ line_on first.port (phase_at first.session old.terminal.phase)
        → IsPlayingJobs first session scripts roles mid x.log v (value_at x) ticks stand
        → first.port ≡ x.number
        → length (signals_of v.terminal) ≤ x.sent
        → IsTurn (is_of_consoles first.session) v (role_numbers roles) stand.going turn.End
        → PlaysEnd roles v new now left stand next
        → AddsEntry v new
        → IsPort v
        → IsPort new
        → ((c : ℕ) → slice_index_or x.next c 0 ≡ begin_of first.port (block_phases session) (old.terminal.phase + 1) c)
        → IsBeforeJobs first session new left played next x }
{}
