//! A port that plays each session that agrees with it goes on to do so: what a player whose session is known only at
//! its end keeps.

ghost use Rattle.std.specs.Prelude.{◌≡◌, ◌<◌, ℕ, List, None, length};
ghost use Rattle.tty_base.specs.declared.lines.LineStep.{LineStep};
ghost use Rattle.uart_line.specs.LineState.{LineState};
ghost use Rattle.word_ring.specs.Ends.{PutterState};
ghost use Rattle.tty_base.specs.declared.characters.Flagged.{Flagged};
ghost use Rattle.tty_calls.specs.declared.sessions.Script.{Script};
ghost use Rattle.tty_calls.specs.Plain.{PlainCall};
ghost use Rattle.tty_calls.specs.Sessions.{line_on, ticks_on};
ghost use Rattle.legal_runs.specs.Legal.{phase_at};
ghost use Rattle.port_core.specs.Attempts.{PlainTried};
ghost use Rattle.port_core.specs.Ports.{PortValue, IsPort};
ghost use Rattle.legal_runs.specs.Order.{is_of_consoles};
ghost use Rattle.play_base.specs.Roles.{Scene};
ghost use Rattle.play_base.specs.Phases.{IsBeforePhase};
ghost use Rattle.play_base.specs.declared.stations.Station.{Station};
ghost use Rattle.one_thread.specs.Turns.{role_numbers, IsTurn};
ghost use Rattle.one_thread.specs.Acts.{BeginsLine, PlaysItsLine, AddsEntry, PlaysTurn};
ghost use Rattle.one_thread.specs.Acts.{TriesCall, PlaysCall, EndsCalls, PlaysLast, PlaysEnd};
ghost use Rattle.play_base.specs.declared.roles.Role.{Role};
ghost use Rattle.one_thread.specs.declared.after_line.Stand.{Stand};
ghost use Rattle.one_thread.specs.declared.after_line.Turn.{Turn};
ghost use Rattle.one_thread.specs.declared.after_line.Turn.TheVariants as turn;
ghost use Rattle.order_laws.specs.Agreed.{IsBeforeEach, AreRolesOfEach, PlaysEach, EndsEach};

/// A port that was opened for a session is at the beginning of each like it.
pub fn a_port_that_opens_is_before_each()
    ensures { (first : Scene) (station : Station)
        → IsBeforePhase first 0 station 0
        → IsBeforeEach first station.port station.putter station.line 0 }
{}

/// By the line of a phase it comes to what follows the line in each.
pub fn a_line_plays_each()
    ensures { (first : Scene) (scripts : Scene → List Script) (roles : List Role) (steps : List LineStep)
        (old mid : PortValue) (putter now : PutterState Flagged) (line played : LineState) (run later ticks : ℕ)
        → IsBeforeEach first old putter line run
        → BeginsLine steps old putter line run
        → PlaysItsLine steps old mid putter now line played run later
        → old.terminal.phase < length first.session.phases
        → steps ≡ line_on first.port (phase_at first.session old.terminal.phase)
        → ticks ≡ ticks_on first.port (phase_at first.session old.terminal.phase)
        → IsPort mid
        → AreRolesOfEach first scripts roles old.terminal.phase mid
        → PlaysEach first scripts roles mid mid ticks (record { run = later; part = 0; ticks = ticks; going = None }) }
{}

/// By a flush, a tick or the end of the clock.
pub fn a_turn_plays_each()
    ensures { (first : Scene) (scripts : Scene → List Script) (roles : List Role) (start old new : PortValue)
        (ticks : ℕ) (before now : Stand) (next : Turn)
        → PlaysEach first scripts roles start old ticks before
        → IsTurn (is_of_consoles first.session) old (role_numbers roles) before.going next
        → PlaysTurn roles old new before now next
        → AddsEntry old new
        → PlaysEach first scripts roles start new ticks now }
{}

/// By an attempt of a call.
pub fn a_call_plays_each()
    ensures { (first : Scene) (scripts : Scene → List Script) (roles : List Role) (start old new : PortValue)
        (ticks : ℕ) (before now : Stand) (place : ℕ) (call : PlainCall) (tried : PlainTried)
        → PlaysEach first scripts roles start old ticks before
        → IsTurn (is_of_consoles first.session) old (role_numbers roles) before.going (turn.Call place)
        → TriesCall roles old new place call tried
        → PlaysCall roles old new before now place call
        → PlaysEach first scripts roles start new ticks now }
{}

/// By the end of a caller's calls.
pub fn an_end_of_calls_plays_each()
    ensures { (first : Scene) (scripts : Scene → List Script) (roles : List Role) (start old new : PortValue)
        (ticks : ℕ) (before now : Stand) (place : ℕ)
        → PlaysEach first scripts roles start old ticks before
        → IsTurn (is_of_consoles first.session) old (role_numbers roles) before.going (turn.Call place)
        → EndsCalls roles old new place
        → PlaysLast roles old new before now place
        → PlaysEach first scripts roles start new ticks now }
{}

/// By the end of the phase it ends the phase of each.
pub fn an_end_of_a_phase_ends_each()
    ensures { (first : Scene) (scripts : Scene → List Script) (roles : List Role) (start old new : PortValue)
        (putter now : PutterState Flagged) (ticks : ℕ) (stand : Stand) (run : ℕ)
        → PlaysEach first scripts roles start old ticks stand
        → IsTurn (is_of_consoles first.session) old (role_numbers roles) stand.going turn.End
        → PlaysEnd roles old new putter now stand run
        → AddsEntry old new
        → EndsEach first start new putter now run }
{}

/// By the line and what follows it comes to the next phase of each.
pub fn a_phase_plays_each()
    ensures { (first : Scene) (steps : List LineStep) (old mid new : PortValue) (putter now left : PutterState Flagged)
        (line played : LineState) (run later next : ℕ)
        → IsBeforeEach first old putter line run
        → BeginsLine steps old putter line run
        → PlaysItsLine steps old mid putter now line played run later
        → old.terminal.phase < length first.session.phases
        → steps ≡ line_on first.port (phase_at first.session old.terminal.phase)
        → EndsEach first mid new now left next
        → IsBeforeEach first new left played next }
{}
