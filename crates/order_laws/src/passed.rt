//! What a session comes to that is known only as its calls are passed down.

ghost use Rattle.std.specs.Prelude.{◌≡◌, ◌<◌, ◌+◌, ℕ, List, [], ◌∷◌, Some, true, false, length, map, slice_get};
ghost use Rattle.port_core.specs.Ports.{PortValue, IsPort, call_in};
ghost use Rattle.tty_calls.specs.Plain.{PlainCall, PlainEntry, is_caller};
ghost use Rattle.passed_calls.specs.Journals.{Journal, terminal_at};
ghost use Rattle.order_laws.specs.Later.{IsLater, ComesBy};
ghost use Rattle.tty_calls.specs.declared.journals.Who.TheVariants.{Caller};
ghost use Rattle.tty_terminal.specs.Runs.{is_of_call};
ghost use Rattle.tty_calls.specs.Sessions.{PlainSession, script_of, scripts_on};
ghost use Rattle.tty_calls.specs.declared.sessions.Script.{Script};
ghost use Rattle.tty_terminal.specs.Terminals.{caller_at};
ghost use Rattle.legal_runs.specs.Legal.{first_step, flip_on, phase_at};
ghost use Rattle.passed_calls.specs.Derived.{Passing, BlockPhase, all_calls, calls_for};
ghost use Rattle.legal_runs.specs.Order.{is_of_consoles};
ghost use Rattle.one_thread.specs.Turns.{role_numbers, standing_at, who_of, IsNextCall, PlaysIn, Adds, TakesTurn};
ghost use Rattle.one_thread.specs.Acts.{BeginsLine, HasNoCall, PlaysItsLine};
ghost use Rattle.play_base.specs.Roles.{Scene, names_in, role_in};
ghost use Rattle.play_base.specs.Scenes.{HasAnyOrder, AreAtFirst};
ghost use Rattle.one_thread.specs.declared.after_line.Turn.{Turn};
ghost use Rattle.play_base.specs.declared.roles.Role.{Role};
ghost use Rattle.one_thread.specs.declared.after_line.Stand.{Stand};
ghost use Rattle.order_laws.specs.Agreed.{Agrees, IsBeforeEachIn, AreRolesOfEach};
ghost use Rattle.order_laws.specs.Growth.{HasShape, Grew};
ghost use Rattle.tty_base.specs.declared.lines.LineStep.{LineStep};
ghost use Rattle.tty_base.specs.declared.characters.Flagged.{Flagged};
ghost use Rattle.uart_line.specs.LineState.{LineState};
ghost use Rattle.word_ring.specs.Ends.{PutterState};
ghost use Rattle.play_base.specs.Casting.{HaveSameCallers, own_scripts, cast_of};
ghost use Rattle.order_laws.specs.Filled.{scripts_in, AreNextSteps};
ghost use Rattle.play_base.specs.Phases.{IsBeforePhase};
ghost use Rattle.play_base.specs.declared.stations.Station.{Station};
ghost use Rattle.order_laws.specs.Witness.{HasPassed};
ghost use Rattle.order_laws.specs.Passed.{begin_of, IsOfBlocks, IsPassedBy, AreBefore, AreUpTo};
ghost use Rattle.order_laws.specs.Passed.{AreMade, PassesMore, GrowsBy, made_by, with_passing};
ghost use Rattle.passed_calls.specs.Within.{AreBlocksWithin};

/// A caller's first step in a phase, among the calls that were passed down.
pub fn callers_keep_their_steps()
    ensures { (p : ℕ) (phases : List BlockPhase) (mine : ℕ → List Passing) (session : PlainSession) (k c : ℕ)
        → IsPassedBy p phases mine session
        → first_step p session k c ≡ length (calls_for (mine c) 0 (begin_of p phases k c)) }
{}

/// The sessions of these blocks have one shape.
pub fn sessions_of_blocks_have_one_shape()
    ensures of_blocks { (p : ℕ) (phases : List BlockPhase) (mine : ℕ → List Passing) (session : PlainSession)
        → IsPassedBy p phases mine session
        → IsOfBlocks p phases session }
    ensures shape { (p : ℕ) (phases : List BlockPhase) (session later : PlainSession)
        → is_of_consoles later ≡ is_of_consoles session
        → flip_on p later ≡ flip_on p session
        → IsOfBlocks p phases session
        → IsOfBlocks p phases later
        → HasShape p session later }
{}

/// A session in which one caller passes something more down in a phase, where it has not ended, agrees with a port that
/// has played the session before up to there.
pub fn a_passing_more_agrees()
    ensures grew { (p k : ℕ) (phases : List BlockPhase) (c : ℕ) (m : Passing) (mine more : ℕ → List Passing)
        (session later : PlainSession)
        → GrowsBy p k phases c m mine more session later
        → Grew p k session later }
    ensures agrees { (p : ℕ) (phases : List BlockPhase) (c : ℕ) (m : Passing) (mine more : ℕ → List Passing)
        (session later : PlainSession) (scripts : List Script) (roles : List Role) (v : PortValue) (stand : Stand)
        → PlaysIn HasAnyOrder (record { port = p; session = session }) scripts roles v stand
        → GrowsBy p v.terminal.phase phases c m mine more session later
        → (caller_at v.terminal c).over ≡ false
        → Agrees (record { port = p; session = later }) v }
{}

/// The next call of a caller whose turn it is: the one that it has begun, or else the one that it passes down last; and
/// who has passed nothing more down has no call left in the phase.
pub fn what_is_passed_last_is_next()
    ensures begun { (s : Scene) (scripts : List Script) (roles : List Role) (v : PortValue) (stand : Stand) (place : ℕ)
        (r : Role) (call : PlainCall)
        → PlaysIn HasAnyOrder s scripts roles v stand
        → slice_get roles place ≡ Some r
        → (standing_at v r.number).begun ≡ true
        → call_in v.kept r.number (standing_at v r.number).next ≡ Some call
        → IsNextCall scripts roles v place call }
    ensures passed { (p : ℕ) (phases : List BlockPhase) (m : Passing) (mine more : ℕ → List Passing)
        (session later : PlainSession) (scripts : List Script) (roles : List Role) (v : PortValue) (stand : Stand)
        (place : ℕ) (r : Role) (call : PlainCall)
        → PlaysIn HasAnyOrder (record { port = p; session = later }) scripts roles v stand
        → slice_get roles place ≡ Some r
        → GrowsBy p v.terminal.phase phases r.number m mine more session later
        → m.calls ≡ call ∷ []
        → AreMade mine v
        → (standing_at v r.number).begun ≡ false
        → IsNextCall scripts roles v place call }
    ensures none { (p : ℕ) (phases : List BlockPhase) (mine : ℕ → List Passing) (session : PlainSession)
        (scripts : List Script) (roles : List Role) (v : PortValue) (stand : Stand) (place : ℕ) (r : Role)
        → PlaysIn HasAnyOrder (record { port = p; session = session }) scripts roles v stand
        → slice_get roles place ≡ Some r
        → IsPassedBy p phases mine session
        → AreUpTo p phases v.terminal.phase mine
        → AreMade mine v
        → (standing_at v r.number).begun ≡ false
        → HasNoCall scripts roles v place }
{}

/// Callers have made just what they have passed down: from the beginning of a phase on, by each turn of the flusher and
/// the clock, by an entry of a caller's call, and by the end of a caller's calls.
pub fn callers_make_what_they_pass()
    ensures first { (p k : ℕ) (phases : List BlockPhase) (mine : ℕ → List Passing) (session : PlainSession)
        (v : PortValue)
        → IsPassedBy p phases mine session
        → AreBefore p phases k mine
        → AreAtFirst (record { port = p; session = session }) k v.terminal
        → AreMade mine v }
    ensures turn { (s : Scene) (scripts : List Script) (roles : List Role) (v w : PortValue) (stand now : Stand)
        (next : Turn) (mine : ℕ → List Passing)
        → ((c : ℕ) → is_caller (who_of (role_numbers roles) next) c ≡ false)
        → TakesTurn s scripts roles v w stand now next
        → AreMade mine v
        → AreMade mine w }
    ensures call { (s : Scene) (v w : PortValue) (more : ℕ → List Passing) (h : Adds s v w) (c : ℕ)
        → h.entry.who ≡ Caller c
        → is_of_call h.entry.event ≡ true
        → length (all_calls (more c)) ≡ (standing_at v c).next + 1
        → ((d : ℕ) → (d ≡ c → ⊥) → length (all_calls (more d)) ≡ made_by v d)
        → AreMade more w }
    ensures last { (s : Scene) (v w : PortValue) (mine : ℕ → List Passing) (h : Adds s v w)
        → is_of_call h.entry.event ≡ false
        → AreMade mine v
        → AreMade mine w }
{}

/// The roles that were cast for the callers of a phase are those of each session of these callers.
pub fn roles_are_cast_for_each()
    ensures { (first : Scene) (callers : List Script) (names : List (List ℕ)) (steps : List ℕ) (roles : List Role)
        (lines : List LineStep) (old mid : PortValue) (putter now : PutterState Flagged) (line played : LineState)
        (run later : ℕ)
        → IsBeforeEachIn HasAnyOrder first old putter line run
        → BeginsLine lines old putter line run
        → PlaysItsLine lines old mid putter now line played run later
        → old.terminal.phase < length first.session.phases
        → own_scripts first.port (map script_of callers)
        ≡ scripts_on first.port (phase_at first.session old.terminal.phase)
        → names ≡ names_in first
        → AreNextSteps old.terminal (length names) steps
        → ((others : List Script)
        → HaveSameCallers others callers
        → map (role_in others) roles ≡ cast_of names steps first.port (map script_of others))
        → AreRolesOfEach first (scripts_in first.port callers old.terminal.phase) roles old.terminal.phase mid }
{}

/// What was passed down, and one passing more.
pub fn what_is_passed_goes_on()
    ensures { (p : ℕ) (phases : List BlockPhase) (mine more : ℕ → List Passing) (m : Passing) (session : PlainSession)
        (h : IsPassedBy p phases mine session)
        → PassesMore m.caller m mine more
        → IsPassedBy p phases more (with_passing p phases m h.passed session) }
{}

/// At its beginning a port has passed nothing down.
pub fn a_port_opens_with_nothing_passed()
    ensures opens { (first : Scene) (phases : List BlockPhase) (station : Station)
        → IsBeforePhase first 0 station 0
        → IsPort station.port
        → IsOfBlocks first.port phases first.session
        → AreBlocksWithin first.session.ports first.session.flips phases
        → HasPassed first phases (λ c. []) station.port }
    ensures before { (p k : ℕ) (phases : List BlockPhase) → AreBefore p phases k (λ c. []) }
{}

/// A journal to which a port comes is one to which it came before, and leads to the port's terminal at its last entry.
pub fn journals_lead_to_the_port()
    ensures before { (v w : PortValue) (part : List PlainEntry) (j : Journal)
        → ComesBy v w part
        → IsLater w j
        → IsLater v j }
    ensures terminal { (v : PortValue) (j : Journal)
        → IsPort v
        → IsLater v j
        → terminal_at j (length v.journal) ≡ v.terminal }
{}
