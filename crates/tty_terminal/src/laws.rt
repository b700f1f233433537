//! What follows from the definitions alone.

ghost use Rattle.std.specs.Prelude.{◌≡◌, ◌+◌, ◌<◌, ◌≤◌, ℕ, List, [], ◌∷◌, ◌++◌, true};
ghost use Rattle.std.specs.Prelude.{Option, Some, is_some, IsTrue, length, sum};
ghost use Rattle.tty_base.specs.declared.characters.Flagged.{Flagged};
ghost use Rattle.tty_calls.specs.declared.journals.Who.{Who};
ghost use Rattle.tty_calls.specs.Plain.{PlainCall, hangs_up, PlainAnswer, done, PlainEntry, answered, hung_up};
ghost use Rattle.tty_calls.specs.Limits.{byte_count};
ghost use Rattle.opost_out.specs.Column.{column_of};
ghost use Rattle.n_tty.specs.States.{NTtyState};
ghost use Rattle.n_slip.specs.Discipline.{Slip};
ghost use Rattle.n_slip.specs.History.{HasSeen};
ghost use Rattle.ldisc_switch.specs.declared.kinds.Kind.{Kind};
ghost use Rattle.ldisc_switch.specs.declared.discipline.Disc.{Disc};
ghost use Rattle.ldisc_switch.specs.Disciplines.{kind_of, fresh_of};
ghost use Rattle.ldisc_switch.specs.Happenings.{HasHappened, slip_parts};
ghost use Rattle.ldisc_switch.specs.Posted.{text_of_all};
ghost use Rattle.tty_terminal.specs.declared.callers.CallerState.{CallerState};
ghost use Rattle.tty_terminal.specs.Terminals.{Terminal, opening, caller_at, has_begun};
ghost use Rattle.tty_terminal.specs.Generations.{HasNothing};
ghost use Rattle.tty_terminal.specs.Outcomes.{gives};
ghost use Rattle.tty_terminal.specs.Meeting.{drops_of};
ghost use Rattle.tty_terminal.specs.Questions.{call_drops, is_purge, IsPurged};
ghost use Rattle.tty_terminal.specs.Calls.{outcome};
ghost use Rattle.tty_terminal.specs.Steps.{Allowed, after, TakesPart};
ghost use Rattle.tty_terminal.specs.Runs.{IsRun, KnowsMore, AgreesOn, OneGeneration};
ghost use Rattle.tty_terminal.specs.Runs.{GoesOnInGeneration, is_flush, RunHas, chars_of};
ghost use Rattle.tty_terminal.specs.Standing.{standing_of, standing_in, at_first};
ghost use Rattle.tty_terminal.specs.Marks.{marks_of, marks_after, marks_in, no_marks};
ghost use Rattle.tty_terminal.specs.Makers.{IsByItsMaker};
ghost use Rattle.tty_terminal.specs.Begins.{begins_generation, generation_after};
ghost use Rattle.tty_terminal.specs.Happened.{happened_in};
ghost use Rattle.tty_terminal.specs.Heard.{characters_of, HasHeard, heard_in};

/// What holds of the numbers of a terminal to which a run leads: as many characters were taken as the
/// journal has, no more than was sent once the line is over; no more was sent than was taken and fits
/// in the flip buffer, whose capacity never changes; and no number is larger than the journal.
pub fn numbers_of_a_run()
    ensures taken { (f : ℕ → ℕ → Option PlainCall) (counts : List ℕ) (capacity : ℕ) (es : List PlainEntry)
        (u : Terminal)
        → IsRun f counts capacity es u
        → u.taken ≡ length (chars_of es) }
    ensures in_line { (f : ℕ → ℕ → Option PlainCall) (counts : List ℕ) (capacity : ℕ) (es : List PlainEntry)
        (u : Terminal)
        → IsRun f counts capacity es u
        → IsTrue u.line_over
        → u.taken ≤ u.sent }
    ensures within { (f : ℕ → ℕ → Option PlainCall) (counts : List ℕ) (capacity : ℕ) (es : List PlainEntry)
        (u : Terminal)
        → IsRun f counts capacity es u
        → u.sent ≤ u.taken + u.capacity }
    ensures capacity { (f : ℕ → ℕ → Option PlainCall) (counts : List ℕ) (capacity : ℕ) (es : List PlainEntry)
        (u : Terminal)
        → IsRun f counts capacity es u
        → u.capacity ≡ capacity }
    ensures callers { (f : ℕ → ℕ → Option PlainCall) (counts : List ℕ) (capacity : ℕ) (es : List PlainEntry)
        (u : Terminal)
        → IsRun f counts capacity es u
        → length u.callers ≡ sum counts }
    ensures generation { (f : ℕ → ℕ → Option PlainCall) (counts : List ℕ) (capacity : ℕ) (es : List PlainEntry)
        (u : Terminal)
        → IsRun f counts capacity es u
        → u.generation ≤ length es }
    ensures tick { (f : ℕ → ℕ → Option PlainCall) (counts : List ℕ) (capacity : ℕ) (es : List PlainEntry) (u : Terminal)
        → IsRun f counts capacity es u
        → u.tick ≤ length es }
    ensures phase { (f : ℕ → ℕ → Option PlainCall) (counts : List ℕ) (capacity : ℕ) (es : List PlainEntry)
        (u : Terminal)
        → IsRun f counts capacity es u
        → u.phase ≤ length es }
    ensures next { (f : ℕ → ℕ → Option PlainCall) (counts : List ℕ) (capacity : ℕ) (es : List PlainEntry) (u : Terminal)
        → IsRun f counts capacity es u
        → (c : ℕ)
        → (caller_at u c).next ≤ length es }
    ensures parts { (f : ℕ → ℕ → Option PlainCall) (counts : List ℕ) (capacity : ℕ) (es : List PlainEntry)
        (u : Terminal)
        → IsRun f counts capacity es u
        → (c : ℕ)
        → (caller_at u c).parts ≤ length es }
{}

/// Where a caller stands follows from its own entries and from the ends of phases.
pub fn own_entries_tell()
    ensures { (f : ℕ → ℕ → Option PlainCall) (counts : List ℕ) (capacity : ℕ) (es : List PlainEntry) (u : Terminal) →
        IsRun f counts capacity es u → (c : ℕ) → standing_of (caller_at u c) ≡ standing_in c es at_first }
{}

/// A run is a run also where more calls are known.
pub fn more_calls_keep_a_run()
    ensures { (f g : ℕ → ℕ → Option PlainCall) (counts : List ℕ) (capacity : ℕ) (es : List PlainEntry) (u : Terminal) →
        KnowsMore f g → IsRun f counts capacity es u → IsRun g counts capacity es u }
{}

/// A run stays in one generation, flush run by flush run and call by call, as one entry more is made
/// that goes on in the generation of its flush run, or of its call.
pub fn one_generation_goes_on()
    ensures { (f : ℕ → ℕ → Option PlainCall) (counts : List ℕ) (capacity : ℕ) (es : List PlainEntry) (u : Terminal)
        (e : PlainEntry)
        → IsRun f counts capacity es u
        → OneGeneration es
        → Allowed f counts u e
        → GoesOnInGeneration u e
        → (IsTrue (is_flush e.event) → 0 < e.part → RunHas e.step e.generation es)
        → OneGeneration (es ++ e ∷ []) }
{}

/// Each entry is by the one whose part it is: an entry of a call by a known caller, of a known call; a
/// flush by the flusher, the line's end by the line, ticks and the clock's end by the clock.
pub fn entries_are_by_their_makers()
    ensures { (f : ℕ → ℕ → Option PlainCall) (counts : List ℕ) (t : Terminal) (e : PlainEntry) →
        Allowed f counts t e → IsByItsMaker f (length t.callers) e.who e.step e.event }
{}

/// Tick, line, clock, phase and the latest piece of a flush run follow from the entries alone.
pub fn entries_tell_the_marks()
    ensures step { (f : ℕ → ℕ → Option PlainCall) (counts : List ℕ) (t : Terminal) (e : PlainEntry) →
        Allowed f counts t e → marks_of (after f t e) ≡ marks_after e.event e.step e.part (marks_of t) }
    ensures run { (f : ℕ → ℕ → Option PlainCall) (counts : List ℕ) (capacity : ℕ) (es : List PlainEntry) (u : Terminal)
        → IsRun f counts capacity es u
        → marks_of u ≡ marks_in es no_marks }
{}

/// Two functions of calls that agree on the entries of a journal have the same runs.
pub fn agreeing_calls_have_the_same_runs()
    ensures { (f g : ℕ → ℕ → Option PlainCall) (counts : List ℕ) (capacity : ℕ) (es : List PlainEntry) (u : Terminal) →
        AgreesOn f g es → IsRun f counts capacity es u → IsRun g counts capacity es u }
{}

/// A caller that waits, or of whose write parts were taken, has begun a call.
pub fn who_waits_has_begun()
    ensures waits { (f : ℕ → ℕ → Option PlainCall) (counts : List ℕ) (capacity : ℕ) (es : List PlainEntry)
        (u : Terminal)
        → IsRun f counts capacity es u
        → (c : ℕ)
        → is_some (caller_at u c).waits ≡ true
        → has_begun (caller_at u c) ≡ true }
    ensures parts { (f : ℕ → ℕ → Option PlainCall) (counts : List ℕ) (capacity : ℕ) (es : List PlainEntry)
        (u : Terminal)
        → IsRun f counts capacity es u
        → (c : ℕ)
        → 0 < (caller_at u c).parts
        → has_begun (caller_at u c) ≡ true }
{}

/// A part takes at least one byte, and leaves at least one.
pub fn a_part_takes_some_and_leaves_some()
    ensures takes { (t : Terminal) (s : CallerState) (call : PlainCall) (n : ℕ)
        → TakesPart (outcome t s call) n
        → 1 ≤ n }
    ensures leaves { (t : Terminal) (s : CallerState) (call : PlainCall) (n : ℕ)
        → TakesPart (outcome t s call) n
        → s.taken + n < byte_count call }
{}

/// The generation rises by one at each change of the discipline, each last close and each hangup, and at nothing else.
pub fn generations_are_counted()
    ensures { (f : ℕ → ℕ → Option PlainCall) (counts : List ℕ) (t : Terminal) (e : PlainEntry)
        → Allowed f counts t e
        → (after f t e).generation ≡ generation_after (begins_generation f t e.who e.step e.event) t.generation }
{}

/// A hangup leaves nothing: the session's after its last phase, and a `vhangup` that was answered Done.
pub fn hangup_leaves_nothing()
    ensures session { (f : ℕ → ℕ → Option PlainCall) (t : Terminal) (e : PlainEntry) (dropped : List Flagged) →
        e.event ≡ hung_up dropped → HasNothing (after f t e) }
    ensures answered { (f : ℕ → ℕ → Option PlainCall) (counts : List ℕ) (t : Terminal) (e : PlainEntry) (c h : ℕ)
        (dropped : List Flagged)
        → Allowed f counts t e
        → e.who ≡ Who.Caller c
        → f c e.step ≡ Some (hangs_up h)
        → e.event ≡ answered done dropped
        → HasNothing (after f t e) }
{}

/// An outcome that drops what waits in the flip buffer is answered Done, and is that of `flush in` or `flush both`,
/// `modes flush`, or `vhangup`; and so each answer that drops characters is one of these.
pub fn who_drops_is_answered_done()
    ensures answer { (t : Terminal) (s : CallerState) (call : PlainCall) →
        drops_of (outcome t s call) ≡ true → (left : Terminal) × (outcome t s call ≡ gives done true left) }
    ensures calls { (t : Terminal) (s : CallerState) (call : PlainCall)
        → drops_of (outcome t s call) ≡ true
        → is_purge call ≡ true }
    ensures exactly { (t : Terminal) (s : CallerState) (call : PlainCall)
        → drops_of (outcome t s call) ≡ call_drops t s call }
    ensures entry { (f : ℕ → ℕ → Option PlainCall) (counts : List ℕ) (t : Terminal) (e : PlainEntry) (a : PlainAnswer)
        (dropped : List Flagged)
        → Allowed f counts t e
        → e.event ≡ answered a dropped
        → 0 < length dropped
        → IsPurged f e.who e.step a }
{}

/// A discipline is the fold of what has happened to it in its run since it was installed: characters, each with the
/// modes, the tick, the output and the counts that it found; reads, pieces of writes, flushes, other modes, and
/// packets that were taken.
pub fn disciplines_are_what_happened()
    ensures { (f : ℕ → ℕ → Option PlainCall) (counts : List ℕ) (capacity : ℕ) (es : List PlainEntry) (u : Terminal)
        → IsRun f counts capacity es u
        → HasHappened u.disc (kind_of u.disc) (happened_in f (opening (sum counts) capacity) es []) }
{}

/// The column of N_TTY is that of all text that its run has posted since it was installed.
pub fn columns_are_of_what_was_posted()
    ensures { (f : ℕ → ℕ → Option PlainCall) (counts : List ℕ) (capacity : ℕ) (es : List PlainEntry) (u : Terminal)
        (tty : NTtyState)
        → IsRun f counts capacity es u
        → u.disc ≡ Disc.Tty tty
        → tty.column
        ≡ column_of (text_of_all (fresh_of Kind.Tty) (happened_in f (opening (sum counts) capacity) es [])) }
{}

/// The packets of N_SLIP are those of all characters that its run has flushed to it since it was installed, less those
/// that were taken and dropped.
pub fn packets_are_of_what_was_flushed()
    ensures { (f : ℕ → ℕ → Option PlainCall) (counts : List ℕ) (capacity : ℕ) (es : List PlainEntry) (u : Terminal)
        (slip : Slip)
        → IsRun f counts capacity es u
        → u.disc ≡ Disc.Slip slip
        → HasSeen slip (slip_parts (happened_in f (opening (sum counts) capacity) es [])) }
{}

/// A discipline has heard the characters of the flushes since it was installed, and no others.
pub fn disciplines_hear_the_flushes()
    ensures characters { (f : ℕ → ℕ → Option PlainCall) (t : Terminal) (es : List PlainEntry) →
        characters_of (happened_in f t es []) ≡ heard_in f t es [] }
    ensures heard { (f : ℕ → ℕ → Option PlainCall) (counts : List ℕ) (capacity : ℕ) (es : List PlainEntry)
        (u : Terminal)
        → IsRun f counts capacity es u
        → HasHeard u.disc (heard_in f (opening (sum counts) capacity) es []) }
{}
