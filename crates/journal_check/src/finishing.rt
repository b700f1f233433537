//! Whether a journal is finished.

ghost use Rattle.std.specs.Prelude.{◌≡◌, ◌+◌, ◌≤◌, ◌<◌, ◌^◌, length, slice_index};
ghost use Rattle.tty_calls.specs.Plain.{event_of};
ghost use Rattle.tty_calls.specs.Sessions.{session_of, ticks_on};
ghost use Rattle.tty_terminal.specs.Runs.{phase_after};
ghost use Rattle.legal_runs.specs.Legal.{phase_at};
ghost use Rattle.journal_check.specs.Finishing.{may_go as may_stand, ticks_after};
ghost use Rattle.journal_check.specs.Finishing.{is_hangup as hangs_up, goes_well as goes_well_from};

use tty_calls::{Event, Journal, Session};

/// Whether an event may stand in a phase whose line sends so many characters by its end, and whose
/// clock has so many ticks, of which so many have passed.
fn may_go(event: &Event, sent: usize, ticks: u32, passed: usize) -> bool
    ensures { result ≡ may_stand (event_of event.now) sent ticks passed }
{
    match event {
        Event::LineEnd(count) => *count == sent as u64,
        Event::ClockEnd => passed == ticks as usize,
        Event::Hangup(_) => false,
        _ => true,
    }
}

fn is_hangup(event: &Event) -> bool
    ensures { result ≡ hangs_up (event_of event.now) }
{
    match event {
        Event::Hangup(_) => true,
        _ => false,
    }
}

/// How many ticks have passed in the phase after an event.
fn ticks_so_far(event: &Event, passed: usize) -> usize
    requires { passed + 1 < 2 ^ 64 }
    ensures value { result ≡ ticks_after (event_of event.now) passed }
    ensures most { result ≤ passed + 1 }
{
    match event {
        Event::Tick => passed + 1,
        Event::PhaseEnd => 0,
        _ => passed,
    }
}

/// The phase that runs after an event.
fn phase_then(event: &Event, phase: usize) -> usize
    requires { phase + 1 < 2 ^ 64 }
    ensures value { result ≡ phase_after (event_of event.now) phase }
    ensures most { result ≤ phase + 1 }
{
    match event {
        Event::PhaseEnd => phase + 1,
        _ => phase,
    }
}

/// How many ticks a port has in a phase.
fn ticks_in(session: &Session, port: usize, phase: usize) -> u32
    requires { phase < length (session_of session.now).phases }
    ensures { result ≡ ticks_on port (phase_at (session_of session.now) phase) }
{
    match session.phases.as_slice()[phase].ticks.as_slice().get(port) {
        Some(count) => *count,
        None => 0,
    }
}

/// Whether these entries go through the phases, with so many characters sent at the end of each
/// phase's line, to a hangup after the last.
pub(crate) fn goes_well(session: &Session, port: usize, sents: &[usize], journal: &Journal) -> bool
    requires { length sents.now ≡ length (session_of session.now).phases }
    ensures { result
        ≡ goes_well_from (λ k. slice_index sents.now k) (λ k. ticks_on port (phase_at (session_of session.now) k))
        (length (session_of session.now).phases) 0 0 journal.now.items }
{
    let mut phase = 0;
    let mut passed = 0;
    for place in 0..journal.len() {
        let entry = journal.at(place);
        if phase >= sents.len() {
            return is_hangup(&entry.event) && place + 1 == journal.len();
        }
        if !may_go(
            &entry.event,
            sents[phase],
            ticks_in(session, port, phase),
            passed,
        ) {
            return false;
        }
        passed = ticks_so_far(&entry.event, passed);
        phase = phase_then(&entry.event, phase);
    }
    false
}
