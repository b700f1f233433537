//! What is passed down and played, in whatever order turns are taken that can be taken.

ghost use Rattle.std.specs.Prelude.{◌≡◌, ◌<◌, ◌≤◌, ℕ, List, [], ◌∷◌, None, Some, true, false, length, slice_get};
ghost use Rattle.tty_base.specs.declared.lines.LineStep.{LineStep};
ghost use Rattle.tty_base.specs.declared.characters.Flagged.{Flagged};
ghost use Rattle.uart_line.specs.LineState.{LineState};
ghost use Rattle.word_ring.specs.Ends.{PutterState};
ghost use Rattle.tty_calls.specs.declared.sessions.Script.{Script};
ghost use Rattle.tty_calls.specs.Plain.{PlainCall, is_caller};
ghost use Rattle.tty_calls.specs.Limits.{IsCallWithin};
ghost use Rattle.tty_calls.specs.Sessions.{line_on, ticks_on};
ghost use Rattle.passed_calls.specs.Derived.{Passing, BlockPhase, calls_at};
ghost use Rattle.legal_runs.specs.Legal.{phase_at};
ghost use Rattle.port_core.specs.Attempts.{PlainTried};
ghost use Rattle.port_core.specs.Ports.{PortValue, IsPort, call_in};
ghost use Rattle.play_base.specs.Roles.{Scene};
ghost use Rattle.play_base.specs.Scenes.{HasAnyOrder};
ghost use Rattle.one_thread.specs.Turns.{role_numbers, who_of, standing_at, IsPossible, TakesTurn};
ghost use Rattle.one_thread.specs.Acts.{BeginsLine, PlaysItsLine, AddsEntry, InTurn, PlaysTurn, InCall};
ghost use Rattle.one_thread.specs.Acts.{TriesCall, PlaysCall, EndsCalls, InLast, PlaysLast, PlaysEnd};
ghost use Rattle.play_base.specs.declared.roles.Role.{Role};
ghost use Rattle.one_thread.specs.declared.after_line.Stand.{Stand};
ghost use Rattle.one_thread.specs.declared.after_line.Turn.{Turn};
ghost use Rattle.one_thread.specs.declared.after_line.Turn.TheVariants as turn;
ghost use Rattle.order_laws.specs.Agreed.{Agrees, IsLike, IsBeforeEachIn, AreRolesOfEach, PlaysEachIn, EndsEachIn};
ghost use Rattle.order_laws.specs.Passed.{begin_of, IsOfBlocks, AreBefore, AreUpTo, PassesMore};
ghost use Rattle.passed_calls.specs.Within.{AreBlocksWithin};
ghost use Rattle.order_laws.specs.Witness.{HasPassed, IsPlayingIn, IsCallingIn};

/// A phase begins: its line can be played, and behind it some session is played, and each that agrees with the port.
pub fn phases_begin_in_any_order()
    ensures line { (first : Scene) (phases : List BlockPhase) (mine : ℕ → List Passing) (lines : List LineStep)
        (v : PortValue) (putter : PutterState Flagged) (line : LineState) (run : ℕ)
        → IsBeforeEachIn HasAnyOrder first v putter line run
        → HasPassed first phases mine v
        → v.terminal.phase < length first.session.phases
        → lines ≡ line_on first.port (phase_at first.session v.terminal.phase)
        → BeginsLine lines v putter line run }
    ensures playing { (first : Scene) (phases : List BlockPhase) (scripts : Scene → List Script) (roles : List Role)
        (mine : ℕ → List Passing) (lines : List LineStep) (old mid : PortValue) (putter now : PutterState Flagged)
        (line played : LineState) (run later ticks : ℕ)
        → IsBeforeEachIn HasAnyOrder first old putter line run
        → HasPassed first phases mine old
        → AreBefore first.port phases old.terminal.phase mine
        → PlaysItsLine lines old mid putter now line played run later
        → old.terminal.phase < length first.session.phases
        → lines ≡ line_on first.port (phase_at first.session old.terminal.phase)
        → ticks ≡ ticks_on first.port (phase_at first.session old.terminal.phase)
        → IsPort mid
        → AreRolesOfEach first scripts roles old.terminal.phase mid
        → IsPlayingIn HasAnyOrder first phases scripts roles mid mine mid ticks
        (record { run = later; part = 0; ticks = ticks; going = None }) }
{}

/// A flush, a tick or the end of the clock, where it can be taken.
pub fn possible_turns_are_played()
    ensures in_turn { (first : Scene) (phases : List BlockPhase) (scripts : Scene → List Script) (roles : List Role)
        (start : PortValue) (mine : ℕ → List Passing) (v : PortValue) (ticks : ℕ) (stand : Stand) (next : Turn)
        → IsPlayingIn HasAnyOrder first phases scripts roles start mine v ticks stand
        → IsPossible v (role_numbers roles) stand.going next
        → InTurn roles v stand next }
    ensures on { (first : Scene) (phases : List BlockPhase) (scripts : Scene → List Script) (roles : List Role)
        (start : PortValue) (mine : ℕ → List Passing) (old new : PortValue) (ticks : ℕ) (was now : Stand) (next : Turn)
        → IsPlayingIn HasAnyOrder first phases scripts roles start mine old ticks was
        → IsPossible old (role_numbers roles) was.going next
        → ((c : ℕ) → is_caller (who_of (role_numbers roles) next) c ≡ false)
        → PlaysTurn roles old new was now next
        → AddsEntry old new
        → IsPlayingIn HasAnyOrder first phases scripts roles start mine new ticks now }
{}

/// A call: the one that a caller has begun, or a new one that it passes down.
pub fn possible_calls_are_played()
    ensures begun { (first : Scene) (phases : List BlockPhase) (scripts : Scene → List Script) (roles : List Role)
        (start : PortValue) (mine : ℕ → List Passing) (v : PortValue) (ticks : ℕ) (stand : Stand) (place : ℕ) (r : Role)
        (call : PlainCall)
        → IsPlayingIn HasAnyOrder first phases scripts roles start mine v ticks stand
        → slice_get roles place ≡ Some r
        → (standing_at v r.number).begun ≡ true
        → call_in v.kept r.number (standing_at v r.number).next ≡ Some call
        → IsCallingIn HasAnyOrder first phases scripts roles start mine v ticks stand place call }
    ensures next { (first : Scene) (phases : List BlockPhase) (scripts : Scene → List Script) (roles : List Role)
        (start : PortValue) (mine more : ℕ → List Passing) (m : Passing) (v : PortValue) (ticks : ℕ) (stand : Stand)
        (place : ℕ) (r : Role) (call : PlainCall)
        → IsPlayingIn HasAnyOrder first phases scripts roles start mine v ticks stand
        → IsPossible v (role_numbers roles) stand.going (turn.Call place)
        → slice_get roles place ≡ Some r
        → (standing_at v r.number).begun ≡ false
        → IsOfBlocks first.port phases first.session
        → AreBlocksWithin first.session.ports first.session.flips phases
        → PassesMore r.number m mine more
        → m.caller ≡ r.number
        → m.calls ≡ call ∷ []
        → IsCallWithin call
        → calls_at (mine r.number) m.step ≡ []
        → begin_of first.port phases v.terminal.phase r.number ≤ m.step
        → AreUpTo first.port phases v.terminal.phase more
        → IsCallingIn HasAnyOrder first phases scripts roles start more v ticks stand place call }
    ensures in_call { (first : Scene) (phases : List BlockPhase) (scripts : Scene → List Script) (roles : List Role)
        (start : PortValue) (more : ℕ → List Passing) (v : PortValue) (ticks : ℕ) (stand : Stand) (place : ℕ)
        (call : PlainCall)
        → IsCallingIn HasAnyOrder first phases scripts roles start more v ticks stand place call
        → IsPossible v (role_numbers roles) stand.going (turn.Call place)
        → InCall roles v stand place call }
    ensures on { (first : Scene) (phases : List BlockPhase) (scripts : Scene → List Script) (roles : List Role)
        (start : PortValue) (more : ℕ → List Passing) (old new : PortValue) (ticks : ℕ) (was now : Stand) (place : ℕ)
        (call : PlainCall) (tried : PlainTried)
        → IsCallingIn HasAnyOrder first phases scripts roles start more old ticks was place call
        → IsPossible old (role_numbers roles) was.going (turn.Call place)
        → TriesCall roles old new place call tried
        → PlaysCall roles old new was now place call
        → IsPlayingIn HasAnyOrder first phases scripts roles start more new ticks now }
{}

/// The end of a caller's calls of a phase, where it has passed down all that it makes.
pub fn possible_calls_end()
    ensures in_last { (first : Scene) (phases : List BlockPhase) (scripts : Scene → List Script) (roles : List Role)
        (start : PortValue) (mine : ℕ → List Passing) (v : PortValue) (ticks : ℕ) (stand : Stand) (place : ℕ) (r : Role)
        → IsPlayingIn HasAnyOrder first phases scripts roles start mine v ticks stand
        → IsPossible v (role_numbers roles) stand.going (turn.Call place)
        → slice_get roles place ≡ Some r
        → (standing_at v r.number).begun ≡ false
        → InLast roles v stand place }
    ensures on { (first : Scene) (phases : List BlockPhase) (scripts : Scene → List Script) (roles : List Role)
        (start : PortValue) (mine : ℕ → List Passing) (old new : PortValue) (ticks : ℕ) (was now : Stand) (place : ℕ)
        (r : Role)
        → IsPlayingIn HasAnyOrder first phases scripts roles start mine old ticks was
        → IsPossible old (role_numbers roles) was.going (turn.Call place)
        → slice_get roles place ≡ Some r
        → (standing_at old r.number).begun ≡ false
        → EndsCalls roles old new place
        → PlaysLast roles old new was now place
        → IsPlayingIn HasAnyOrder first phases scripts roles start mine new ticks now }
{}

/// The end of a phase.
pub fn phases_end_in_any_order()
    ensures on { (first : Scene) (phases : List BlockPhase) (scripts : Scene → List Script) (roles : List Role)
        (start : PortValue) (mine : ℕ → List Passing) (old new : PortValue) (putter now : PutterState Flagged)
        (ticks : ℕ) (stand : Stand) (run : ℕ)
        → IsPlayingIn HasAnyOrder first phases scripts roles start mine old ticks stand
        → IsPossible old (role_numbers roles) stand.going turn.End
        → PlaysEnd roles old new putter now stand run
        → AddsEntry old new
        → EndsEachIn HasAnyOrder first start new putter now run × HasPassed first phases mine new }
{}

/// Each session that agrees with the port took the turn: a flush, a tick or the end of the clock; a call of a caller;
/// and the end of its calls.
pub fn each_takes_the_turn()
    ensures turn { (first : Scene) (scripts : Scene → List Script) (roles : List Role) (start old new : PortValue)
        (ticks : ℕ) (was now : Stand) (next : Turn)
        → PlaysEachIn HasAnyOrder first scripts roles start old ticks was
        → IsPossible old (role_numbers roles) was.going next
        → PlaysTurn roles old new was now next
        → AddsEntry old new
        → (s : Scene)
        → IsLike first s
        → Agrees s new
        → TakesTurn s (scripts s) roles old new was now next }
    ensures call { (first : Scene) (scripts : Scene → List Script) (roles : List Role) (start old new : PortValue)
        (ticks : ℕ) (was now : Stand) (place : ℕ) (call : PlainCall) (tried : PlainTried)
        → PlaysEachIn HasAnyOrder first scripts roles start old ticks was
        → IsPossible old (role_numbers roles) was.going (turn.Call place)
        → TriesCall roles old new place call tried
        → PlaysCall roles old new was now place call
        → (s : Scene)
        → IsLike first s
        → Agrees s new
        → TakesTurn s (scripts s) roles old new was now (turn.Call place) }
    ensures last { (first : Scene) (scripts : Scene → List Script) (roles : List Role) (start old new : PortValue)
        (ticks : ℕ) (was now : Stand) (place : ℕ)
        → PlaysEachIn HasAnyOrder first scripts roles start old ticks was
        → IsPossible old (role_numbers roles) was.going (turn.Call place)
        → EndsCalls roles old new place
        → PlaysLast roles old new was now place
        → (s : Scene)
        → IsLike first s
        → Agrees s new
        → TakesTurn s (scripts s) roles old new was now (turn.Call place) }
{}
