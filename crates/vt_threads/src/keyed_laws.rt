//! What follows from the definitions alone of a console's phase whose keys have come.

ghost use Rattle.std.specs.Prelude.{◌≡◌, ◌+◌, ◌<◌, ◌≤◌, ℕ, List, [], ◌++◌, Some};
ghost use Rattle.std.specs.Prelude.{length, map, replicate, slice_get, sum, take, None};
ghost use Rattle.tty_base.specs.declared.characters.Flagged.{Flagged};
ghost use Rattle.word_ring.specs.Ends.{PutterState};
ghost use Rattle.uart_line.specs.LineState.{LineState};
ghost use Rattle.tty_calls.specs.Sessions.{PlainSession, counts_on, ticks_on};
ghost use Rattle.legal_runs.specs.Legal.{phase_at, script_of_first};
ghost use Rattle.port_core.specs.Ports.{PortValue};
ghost use Rattle.play_base.specs.Phases.{IsFullRun, IsPortOf};
ghost use Rattle.play_base.specs.Roles.{Scene, AreFirstSteps, AreRolesOf, role_in};
ghost use Rattle.play_base.specs.Putting.{HasPut};
ghost use Rattle.play_base.specs.declared.roles.Role.{Role};
ghost use Rattle.play_base.specs.declared.stations.Station.{Station};
ghost use Rattle.many_threads.specs.Cast.{seated};
ghost use Rattle.many_threads.specs.InPlay.{IsBeforePhase};
ghost use Rattle.many_threads.specs.PhaseStarts.{CanPlayPhase};
ghost use Rattle.many_threads.specs.PhaseEnds.{PhaseComes};
ghost use Rattle.many_threads.specs.declared.shared_phase.PhaseWork.{PhaseWork};
ghost use Rattle.many_threads.specs.declared.shared_phase.PhaseEnd.{PhaseEnd};
ghost use Rattle.vt_consoles.specs.declared.entries.VtEntry.{VtEntry};
ghost use Rattle.vt_text.specs.Sessions.{PlainVtPhase, PlainVtSession};
ghost use Rattle.vt_account.specs.Keyed.{IsWithinKeys, all_keys, consoles_in, key_line, keyed, keys_to};
ghost use Rattle.port_cell.specs.Knowledge.{list_seen, number_of};
ghost use Rattle.tty_port.specs.declared.shared.SharedPort.{SharedPort};
ghost use Rattle.many_threads.specs.declared.caller_threads.CallersBack.{CallersBack};
ghost use Rattle.many_threads.specs.declared.thread_bodies.FlusherBack.{FlusherBack};
ghost use Rattle.many_threads.specs.declared.seats.Seats.{Seats};
ghost use Rattle.many_threads.specs.Comings.{FlusherComes};
ghost use Rattle.many_threads.specs.Callers.{CallersCome, plain_cast};
ghost use Rattle.many_threads.specs.Crew.{CrewComes, crew_in};
ghost use Rattle.vt_consoles.specs.declared.entries.VtEvent.{VtEvent};
ghost use Rattle.vt_consoles.specs.declared.shared.SharedBoard.{SharedBoard};
ghost use Rattle.vt_consoles.specs.Histories.{history_of};
ghost use Rattle.vt_consoles.specs.Seats.{BoardSeat};
ghost use Rattle.vt_consoles.specs.Shared.{opening_board};
ghost use Rattle.vt_keyboard.specs.declared.console_ends.KeySeats.{KeySeats};
ghost use Rattle.vt_threads.specs.Closing.{MadeSince, OperatorPlayed};
ghost use Rattle.vt_keyboard.specs.Consoles.{ConsoleComes};
ghost use Rattle.vt_threads.specs.Halves.{crew_back, with_steps};
ghost use Rattle.vt_threads.specs.Between.{ConsoleStands, IsFullBefore};
ghost use Rattle.vt_keyboard.specs.Keying.{CanBegin, DoesSteps};
ghost use Rattle.uart_line.specs.Received.{closed_script};
ghost use Rattle.vt_keyboard.specs.Operating.{AnswersCalls, MakesAll, calls_of_seat};

/// A law: before a phase of the session that a console plays once the keys have come, whatever entries follow, it can
/// play the phase's work with these keys on its line.
pub fn a_phase_is_played_with_its_keys()
    ensures { (session : PlainVtSession) (p k : ℕ) (phase : PlainVtPhase) (entries part more : List VtEntry)
        (went : List ℕ) (callers : ℕ) (station : Station) (work : PhaseWork) (roles : List Role)
        → IsWithinKeys session
        → p < session.calls.ports
        → slice_get session.phases k ≡ Some phase
        → k < length session.calls.phases
        → consoles_in part ≡ went
        → length went ≡ length phase.keys
        → length (consoles_in entries) ≡ length (all_keys (take k session.phases))
        → work.phase ≡ station.port.terminal.phase
        → IsBeforePhase (record { port = p; session = keyed session (entries ++ (part ++ more)) }) k station work.run
        → work.ticks ≡ ticks_on p (phase_at session.calls k)
        → callers ≡ sum (counts_on p session.calls)
        → AreRolesOf (record { port = p; session = session.calls }) k (map (role_in work.scripts.now) roles)
        → work.cast.now ≡ seated roles (replicate callers None)
        → CanPlayPhase (record { port = p; session = keyed session (entries ++ (part ++ more)) }) station
        (with_steps (key_line (keys_to p phase.keys went)) work) }
{}

/// A law: what such a phase comes to stands before the next one of that session, also where the journal is full.
pub fn a_phase_leads_to_the_next()
    ensures { (session : PlainVtSession) (p k : ℕ) (entries : List VtEntry) (station new left : Station) (run : ℕ)
        (end : PhaseEnd)
        → IsWithinKeys session
        → k < length session.calls.phases
        → left.port ≡ new.port
        → left.putter ≡ new.putter
        → left.line ≡ new.line
        → IsBeforePhase (record { port = p; session = keyed session entries }) k station run
        → PhaseComes (record { port = p; session = keyed session entries }) k station new end
        → AreFirstSteps (record { port = p; session = session.calls }) (k + 1) left.steps.items
        → ConsoleStands (record { port = p; session = keyed session entries }) (k + 1) left end }
{}

/// A law: where the journal of a console is full its port stays as it is, and its line does its keys of a phase. At the
/// end of the session this is a run as far as it went.
pub fn keys_go_on_after_a_full_journal()
    ensures next { (session : PlainVtSession) (p k : ℕ) (phase : PlainVtPhase) (entries part more : List VtEntry)
        (went : List ℕ) (station left : Station)
        → IsWithinKeys session
        → p < session.calls.ports
        → slice_get session.phases k ≡ Some phase
        → k < length session.calls.phases
        → consoles_in part ≡ went
        → length went ≡ length phase.keys
        → length (consoles_in entries) ≡ length (all_keys (take k session.phases))
        → left.port ≡ station.port
        → DoesSteps (closed_script (key_line (keys_to p phase.keys went)))
        station.line left.line station.putter left.putter
        → IsFullBefore (record { port = p; session = keyed session (entries ++ (part ++ more)) }) k station
        → IsFullBefore (record { port = p; session = keyed session (entries ++ (part ++ more)) }) (k + 1) left }
    ensures end { (s : Scene) (station : Station) → IsFullBefore s (length s.session.phases) station
        → IsPortOf s station.port × IsFullRun s station.port station.putter station.line }
{}

/// A law: a line that has done the phases before one can begin the keys of that phase.
pub fn lines_rest_between_phases()
    ensures { (x : PlainSession) (p k : ℕ) (v : PortValue) (putter : PutterState Flagged) (line : LineState)
        → HasPut v putter line (script_of_first p x k) → line.report.arrived ≤ line.most → CanBegin line putter }
{}

/// A law: what the keyboard's thread and a console's own threads bring back is what a crew brings back whose line did
/// the keys.
pub fn console_threads_are_a_crew()
    ensures { (p : SharedPort) (dealt : Seats) (work : PhaseWork) (keys : List ℕ) (s t : KeySeats) (l m : LineState)
        (e f : PutterState Flagged) (flusher : FlusherBack) (callers : CallersBack)
        → s.line ≡ dealt.line
        → s.clock ≡ dealt.clock
        → s.ticks ≡ work.ticks
        → ConsoleComes p keys s t l m e f
        → FlusherComes p work.run dealt.flusher flusher
        → CallersCome p (plain_cast work.scripts.now work.cast.now) callers
        → CrewComes p (crew_in dealt l e (with_steps (key_line keys) work)) (crew_back t m f flusher callers) }
{}

/// A law: since a board was shared, a seat that answered its calls of a phase played an operator's part of it, and one
/// that pressed its keys made what these name.
pub fn seats_played_since_the_opening()
    ensures operator { (b : SharedBoard) (names : List (List ℕ)) (phase : PlainVtPhase) (n : ℕ) (old new : BoardSeat)
        → number_of old ≡ n
        → number_of new ≡ n
        → list_seen old ≡ history_of (opening_board b)
        → AnswersCalls (opening_board b).consoles n (calls_of_seat names n phase.operators) old new
        → OperatorPlayed (opening_board b).consoles names phase (history_of (opening_board b)) new }
    ensures any { (b : SharedBoard) (n : ℕ) (events : List VtEvent) (old new : BoardSeat)
        → number_of old ≡ n
        → number_of new ≡ n
        → list_seen old ≡ history_of (opening_board b)
        → MakesAll n events old new
        → MadeSince (history_of (opening_board b)) new events }
    ensures none { (consoles n : ℕ) (s : BoardSeat) → AnswersCalls consoles n [] s s }
{}
