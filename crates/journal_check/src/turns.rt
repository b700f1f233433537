//! Which calls each caller has in a phase.

ghost use Rattle.std.specs.Prelude.{◌≡◌, ◌↔◌, ℕ, ◌+◌, ◌≤◌, ◌<◌, ◌==◌, ◌&&◌};
ghost use Rattle.std.specs.Prelude.{Some, IsTrue, IfOk, OnOk, length, map, slice_get};
ghost use Rattle.std.specs.Str.{bytes_eq};
ghost use Rattle.tty_base.specs.Sizes.{NUMBER_END};
ghost use Rattle.tty_calls.specs.Plain.{call_of, event_of};
ghost use Rattle.tty_calls.specs.Sessions.{PlainSession, script_of, session_of, scripts_on};
ghost use Rattle.tty_calls.specs.Sessions.{scripts_over, names_of, number_in, call_at};
ghost use Rattle.tty_terminal.specs.Runs.{is_of_call};
ghost use Rattle.legal_runs.specs.Legal.{phase_at, is_caller_end, IsInPhase};
ghost use Rattle.journal_check.specs.Scripts.{turn_then, turns_with_next, AreTurns, AreIdle, IsTurnOfPhase, calls_from};

use tty_base::NoMemory;
use tty_calls::{Call, Entry, Event, Names, Script, Session, Who};

/// The latest phase in which a caller has scripts, and its calls there.
#[derive(Clone, Copy)]
pub(crate) struct Turn {
    /// The number of that phase, counted from 1.
    pub(crate) begun: u32,
    /// The caller's first step there, and how many calls it has there.
    pub(crate) first: usize,
    pub(crate) steps: usize,
    /// The place of its first script there, or one before it.
    pub(crate) script: usize,
}

/// A caller that has had no script.
pub(crate) const NO_TURN: Turn = Turn {
    begun: 0,
    first: 0,
    steps: 0,
    script: 0,
};

/// The scripts of a phase.
fn scripts_of(session: &Session, phase: u32) -> &[Script]
    requires { phase < length (session_of session.now).phases }
    ensures { map script_of result.now ≡ (phase_at (session_of session.now) phase).callers }
{
    session.phases.as_slice()[phase as usize].callers.as_slice()
}

/// The sum of two numbers. One that a number does not hold is want of memory.
pub(crate) fn sum_of(one: usize, other: usize) -> Result<usize, NoMemory>
    ensures { IfOk result (λ sum. sum ≡ one + other) }
{
    one.checked_add(other).ok_or(NoMemory)
}

/// A turn with so many calls more in this phase, by the script at this place.
fn turn_with(turn: Turn, phase: u32, steps: usize, place: usize) -> Result<Turn, NoMemory>
    requires { phase ≤ NUMBER_END }
    ensures { IfOk result (λ next. next ≡ turn_then turn phase steps place) }
{
    if turn.begun == phase + 1 {
        return Ok(Turn {
            begun: turn.begun,
            first: turn.first,
            steps: sum_of(turn.steps, steps)?,
            script: turn.script,
        });
    }
    Ok(Turn {
        begun: phase + 1,
        first: sum_of(turn.first, turn.steps)?,
        steps,
        script: place,
    })
}

/// The caller of a script has its turn.
fn open_script(
    turns: &mut [Turn],
    names: &Names,
    phase: u32,
    place: usize,
    script: &Script,
) -> Result<(), NoMemory>
    requires many { length names.now ≤ length turns.old }
    requires phase { phase ≤ NUMBER_END }
    ensures { OnOk result (turns.new
        ≡ turns_with_next turns.old (number_in names.now script.now.name.bytes) phase (length script.now.calls.items)
        place) }
{
    if let Some(caller) = names.number(&script.name) {
        turns[caller] = turn_with(turns[caller], phase, script.calls.len(), place)?;
    }
    Ok(())
}

/// The callers of a phase have their turns.
pub(crate) fn open_phase(
    turns: &mut [Turn],
    names: &Names,
    session: &Session,
    port: usize,
    phase: u32,
) -> Result<(), NoMemory>
    requires names { names.now ≡ names_of (scripts_over port (session_of session.now).phases) }
    requires many { length names.now ≤ length turns.old }
    requires phase { phase < length (session_of session.now).phases }
    requires small { phase ≤ NUMBER_END }
    requires idle { AreIdle port (session_of session.now) phase turns.old }
    ensures turns { OnOk result (AreTurns port (session_of session.now) phase turns.new) }
    ensures many { OnOk result (length turns.new ≡ length turns.old) }
{
    let scripts = scripts_of(session, phase);
    for (place, script) in scripts.iter().enumerate() {
        if usize::from(script.port) == port {
            open_script(turns, names, phase, place, script)?;
        }
    }
    Ok(())
}

/// Whether a caller's entry is of its part of the phase: of one of its calls there, or its end after
/// all of them.
pub(crate) fn is_in_phase(turns: &[Turn], phase: u32, entry: &Entry) -> bool
    requires { phase < NUMBER_END }
    ensures { (p : ℕ) (session : PlainSession) → AreTurns p session phase turns.now
        → (IsTrue result ↔ IsInPhase p session phase entry.now.who entry.now.step (event_of entry.now.event)) }
{
    let Who::Caller(caller) = entry.who else {
        return true;
    };
    let Some(turn) = turns.get(caller as usize) else {
        return false;
    };
    turn.begun == phase + 1 && is_in_turn(turn, entry.step as usize, &entry.event)
}

/// Whether an entry of this step may be of a turn.
fn is_in_turn(turn: &Turn, step: usize, event: &Event) -> bool
    ensures calls { IsTrue result
        → IsTrue (is_of_call (event_of event.now))
        → (turn.now.first ≤ step) × (step < turn.now.first + turn.now.steps) }
    ensures end { IsTrue result → IsTrue (is_caller_end (event_of event.now)) → turn.now.first + turn.now.steps ≤ step }
    ensures may { (IsTrue (is_of_call (event_of event.now))
        → (turn.now.first ≤ step) × (step < turn.now.first + turn.now.steps))
        → (IsTrue (is_caller_end (event_of event.now)) → turn.now.first + turn.now.steps ≤ step)
        → IsTrue result }
{
    match event {
        Event::Answer { .. } | Event::Part(_) | Event::Wait => {
            step >= turn.first && step - turn.first < turn.steps
        }
        Event::CallerEnd => step >= turn.first && step - turn.first >= turn.steps,
        _ => true,
    }
}

/// Whether a script is of a port, and under a name.
fn is_under(script: &Script, port: usize, name: &str) -> bool
    ensures { result ≡ ((script.now.port == port) && bytes_eq script.now.name.bytes name.now) }
{
    usize::from(script.port) == port && script.name.as_str() == name
}

/// The call at a place among those of a port under a name, from this script on.
fn call_from<'a>(
    scripts: &'a [Script],
    port: usize,
    name: &str,
    from: usize,
    place: usize,
) -> Call<'a>
    requires { place < length (calls_from port (map script_of scripts.now) from name.now) }
    ensures { slice_get (calls_from port (map script_of scripts.now) from name.now) place ≡ Some (call_of result) }
{
    let mut left = place;
    for at in from..scripts.len() {
        let script = &scripts[at];
        if is_under(script, port, name) {
            if left < script.calls.len() {
                return script.calls.at(left);
            }
            left -= script.calls.len();
        }
    }
    unreachable!()
}

/// The call of a caller's step.
pub(crate) fn call_in<'a>(
    session: &'a Session,
    names: &Names,
    port: usize,
    phase: u32,
    caller: u16,
    turn: Turn,
    step: u32,
) -> Call<'a>
    requires phase { phase < length (session_of session.now).phases }
    requires names { names.now ≡ names_of (scripts_over port (session_of session.now).phases) }
    requires open { IsTurnOfPhase port (session_of session.now) phase
        (scripts_on port (phase_at (session_of session.now) phase)) caller turn }
    requires first { turn.first ≤ step }
    requires within { step < turn.first + turn.steps }
    ensures { call_at port (session_of session.now) caller step ≡ Some (call_of result) }
{
    let scripts = scripts_of(session, phase);
    match names.name(caller as usize) {
        Some(name) => call_from(scripts, port, name, turn.script, step as usize - turn.first),
        None => unreachable!(),
    }
}
