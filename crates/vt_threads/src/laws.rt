//! What follows from the definitions alone.

ghost use Rattle.std.specs.Prelude.{◌≡◌, ◌+◌, ◌<◌, ℕ, List, [], ◌∷◌, ◌++◌, Some, drop, length, slice_get, take};
ghost use Rattle.tty_base.specs.declared.characters.Flagged.{Flagged};
ghost use Rattle.tty_base.specs.declared.lines.LineStep.TheVariants.{Trigger};
ghost use Rattle.uart_line.specs.GoodSteps.{good_steps};
ghost use Rattle.uart_line.specs.LineState.{LineState};
ghost use Rattle.uart_line.specs.Received.{closed_script};
ghost use Rattle.word_ring.specs.Ends.{PutterState};
ghost use Rattle.tty_calls.specs.Sessions.{PlainSession, line_on};
ghost use Rattle.legal_runs.specs.Legal.{phase_at};
ghost use Rattle.play_base.specs.Roles.{PlainRole, AreFirstSteps, AreRolesOf};
ghost use Rattle.port_cell.specs.declared.kept.Stamped.{Stamped};
ghost use Rattle.port_cell.specs.Entries.{Each};
ghost use Rattle.vt_consoles.specs.declared.entries.VtEntry.{VtEntry};
ghost use Rattle.vt_consoles.specs.declared.entries.VtEvent.{VtEvent};
ghost use Rattle.vt_consoles.specs.Boards.{BoardState, IsBoard};
ghost use Rattle.vt_text.specs.Sessions.{PlainVtPhase, PlainVtSession};
ghost use Rattle.vt_account.specs.Seats.{operator_names};
ghost use Rattle.vt_account.specs.Account.{IsAccount, IsPhasePart};
ghost use Rattle.vt_account.specs.Keyed.{HasAllPhases, all_keys, consoles_in, key_line, keyed, keys_to};
ghost use Rattle.vt_keyboard.specs.Keying.{DoesSteps};
ghost use Rattle.vt_keyboard.specs.Phases.{PhaseMade, AddsPart, HasPartsUpTo};
ghost use Rattle.vt_threads.specs.Openings.{DifferInLines};
ghost use Rattle.vt_threads.specs.Counting.{count_below};

/// A law: where each seat of a board made what a phase has for it, and nobody else made an entry, the board has the
/// entries of that phase more, in whatever order the seats made them.
pub fn seats_make_their_phase()
    ensures { (session : PlainVtSession) (phase : PlainVtPhase) (first : ℕ) (went : List ℕ) (a b : BoardState)
        → a.consoles ≡ session.calls.ports → PhaseMade (operator_names session.phases) phase first went a b
        → AddsPart session phase first went a b }
{}

/// A law: the parts of a session's phases, one behind the other, make its account.
pub fn parts_make_an_account()
    ensures none { (session : PlainVtSession) → HasPartsUpTo session 0 0 [] }
    ensures more { (session : PlainVtSession) (k first : ℕ) (phase : PlainVtPhase) (entries part : List VtEntry)
        → drop k session.phases ≡ phase ∷ drop (k + 1) session.phases
        → HasPartsUpTo session k first entries
        → IsPhasePart session phase first part
        → HasPartsUpTo session (k + 1) (first + length phase.keys) (entries ++ part) }
    ensures all { (session : PlainVtSession) (first : ℕ) (b : BoardState)
        → IsBoard b → b.consoles ≡ session.calls.ports → HasPartsUpTo session (length session.phases) first b.entries
        → IsAccount session b.entries }
{}

/// A law: on a console's line of a phase come the keys that the phase's entries name for it, whatever entries follow.
pub fn keys_come_in_their_phase()
    ensures { (session : PlainVtSession) (p k : ℕ) (phase : PlainVtPhase) (entries part more : List VtEntry)
        (went : List ℕ)
        → HasAllPhases session
        → p < session.calls.ports
        → slice_get session.phases k ≡ Some phase
        → consoles_in part ≡ went
        → length went ≡ length phase.keys
        → length (consoles_in entries) ≡ length (all_keys (take k session.phases))
        → line_on p (phase_at (keyed session (entries ++ (part ++ more))) k) ≡ key_line (keys_to p phase.keys went) }
{}

/// A law: a line that began its keys, took them and ended them did the line of these keys, closed as any line is.
pub fn keys_are_a_line()
    ensures { (keys : List ℕ) (l m k j : LineState) (e f g h : PutterState Flagged)
        → DoesSteps (Trigger 1 ∷ []) l m e f
        → DoesSteps (good_steps keys) m k f g
        → DoesSteps (closed_script []) k j g h
        → DoesSteps (closed_script (key_line keys)) l j e h }
{}

/// A law: the session that consoles play differs from the session's own in what comes on its lines alone, whatever
/// entries the board has.
pub fn keyed_sessions_differ_in_lines()
    ensures { (session : PlainVtSession) (entries : List VtEntry)
        → HasAllPhases session
        → DifferInLines (keyed session entries) session.calls }
{}

/// A law: where sessions differ in their lines alone, the callers of a port have the same roles and the same first
/// steps.
pub fn callers_are_the_same()
    ensures roles { (x y : PlainSession) (p k : ℕ) (rs : List PlainRole) → DifferInLines x y
        → AreRolesOf (record { port = p; session = y }) k rs → AreRolesOf (record { port = p; session = x }) k rs }
    ensures steps { (x y : PlainSession) (p k : ℕ) (steps : List ℕ)
        → DifferInLines x y
        → AreFirstSteps (record { port = p; session = y }) k steps
        → AreFirstSteps (record { port = p; session = x }) k steps }
{}

/// A law: a history in which only seats below a number made entries has as many as these seats made, seat by seat.
pub fn entries_are_counted_by_seat()
    ensures { (n : ℕ) (xs : List (Stamped VtEvent)) → Each (λ k. k < n) xs → count_below n xs ≡ length xs }
{}
