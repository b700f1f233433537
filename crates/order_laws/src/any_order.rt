//! A port that plays each session that agrees with it goes on to do so, in whatever order its turns are taken.

ghost use Rattle.std.specs.Prelude.{◌≡◌, ◌<◌, ℕ, List, None, length};
ghost use Rattle.tty_base.specs.declared.lines.LineStep.{LineStep};
ghost use Rattle.uart_line.specs.LineState.{LineState};
ghost use Rattle.word_ring.specs.Ends.{PutterState};
ghost use Rattle.tty_base.specs.declared.characters.Flagged.{Flagged};
ghost use Rattle.tty_calls.specs.declared.sessions.Script.{Script};
ghost use Rattle.tty_calls.specs.Plain.{PlainCall};
ghost use Rattle.tty_calls.specs.Sessions.{line_on, ticks_on};
ghost use Rattle.legal_runs.specs.Legal.{phase_at};
ghost use Rattle.port_core.specs.Attempts.{PlainTried};
ghost use Rattle.port_core.specs.Ports.{PortValue, IsPort};
ghost use Rattle.play_base.specs.Roles.{Scene};
ghost use Rattle.play_base.specs.Scenes.{HasAnyOrder};
ghost use Rattle.one_thread.specs.Turns.{role_numbers, IsPossible};
ghost use Rattle.one_thread.specs.Acts.{BeginsLine, PlaysItsLine, AddsEntry, PlaysTurn};
ghost use Rattle.one_thread.specs.Acts.{TriesCall, PlaysCall, EndsCalls, PlaysLast, PlaysEnd};
ghost use Rattle.play_base.specs.declared.roles.Role.{Role};
ghost use Rattle.one_thread.specs.declared.after_line.Stand.{Stand};
ghost use Rattle.one_thread.specs.declared.after_line.Turn.{Turn};
ghost use Rattle.one_thread.specs.declared.after_line.Turn.TheVariants as turn;
ghost use Rattle.order_laws.specs.Agreed.{IsBeforeEach, IsBeforeEachIn, AreRolesOfEach, PlaysEachIn, EndsEachIn};

/// By a turn that can be taken: a flush, a tick or the end of the clock; an attempt of a call; the end of a caller's
/// calls; and the end of the phase.
pub fn possible_turns_play_each()
    ensures turn { (first : Scene) (scripts : Scene → List Script) (roles : List Role) (start old new : PortValue)
        (ticks : ℕ) (was now : Stand) (next : Turn)
        → PlaysEachIn HasAnyOrder first scripts roles start old ticks was
        → IsPossible old (role_numbers roles) was.going next
        → PlaysTurn roles old new was now next
        → AddsEntry old new
        → PlaysEachIn HasAnyOrder first scripts roles start new ticks now }
    ensures call { (first : Scene) (scripts : Scene → List Script) (roles : List Role) (start old new : PortValue)
        (ticks : ℕ) (was now : Stand) (place : ℕ) (call : PlainCall) (tried : PlainTried)
        → PlaysEachIn HasAnyOrder first scripts roles start old ticks was
        → IsPossible old (role_numbers roles) was.going (turn.Call place)
        → TriesCall roles old new place call tried
        → PlaysCall roles old new was now place call
        → PlaysEachIn HasAnyOrder first scripts roles start new ticks now }
    ensures last { (first : Scene) (scripts : Scene → List Script) (roles : List Role) (start old new : PortValue)
        (ticks : ℕ) (was now : Stand) (place : ℕ)
        → PlaysEachIn HasAnyOrder first scripts roles start old ticks was
        → IsPossible old (role_numbers roles) was.going (turn.Call place)
        → EndsCalls roles old new place
        → PlaysLast roles old new was now place
        → PlaysEachIn HasAnyOrder first scripts roles start new ticks now }
    ensures end { (first : Scene) (scripts : Scene → List Script) (roles : List Role) (start old new : PortValue)
        (putter now : PutterState Flagged) (ticks : ℕ) (stand : Stand) (run : ℕ)
        → PlaysEachIn HasAnyOrder first scripts roles start old ticks stand
        → IsPossible old (role_numbers roles) stand.going turn.End
        → PlaysEnd roles old new putter now stand run
        → AddsEntry old new
        → EndsEachIn HasAnyOrder first start new putter now run }
{}

/// By the line of a phase, and by the phase; and what is so in the order of one thread is so in any.
pub fn phases_play_each_in_any_order()
    ensures before { (first : Scene) (v : PortValue) (putter : PutterState Flagged) (line : LineState) (run : ℕ)
        → IsBeforeEach first v putter line run
        → IsBeforeEachIn HasAnyOrder first v putter line run }
    ensures line { (first : Scene) (scripts : Scene → List Script) (roles : List Role) (steps : List LineStep)
        (old mid : PortValue) (putter now : PutterState Flagged) (line played : LineState) (run later ticks : ℕ)
        → IsBeforeEachIn HasAnyOrder first old putter line run
        → BeginsLine steps old putter line run
        → PlaysItsLine steps old mid putter now line played run later
        → old.terminal.phase < length first.session.phases
        → steps ≡ line_on first.port (phase_at first.session old.terminal.phase)
        → ticks ≡ ticks_on first.port (phase_at first.session old.terminal.phase)
        → IsPort mid
        → AreRolesOfEach first scripts roles old.terminal.phase mid
        → PlaysEachIn HasAnyOrder first scripts roles mid mid ticks
        (record { run = later; part = 0; ticks = ticks; going = None }) }
    ensures phase { (first : Scene) (steps : List LineStep) (old mid new : PortValue)
        (putter now left : PutterState Flagged) (line played : LineState) (run later next : ℕ)
        → IsBeforeEachIn HasAnyOrder first old putter line run
        → BeginsLine steps old putter line run
        → PlaysItsLine steps old mid putter now line played run later
        → old.terminal.phase < length first.session.phases
        → steps ≡ line_on first.port (phase_at first.session old.terminal.phase)
        → EndsEachIn HasAnyOrder first mid new now left next
        → IsBeforeEachIn HasAnyOrder first new left played next }
{}
