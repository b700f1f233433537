//! What the overruns of a line have seen taken.

ghost use Rattle.std.specs.Prelude.{◌≡◌, ◌+◌, ◌≤◌, ◌<◌, ◌^◌, ◌∷◌, ◌++◌, [], IfOk};
ghost use Rattle.std.specs.Prelude.{OnOk, ◌==◌, if◌then◌else◌, length, drop};
ghost use Rattle.tty_calls.specs.Plain.{event_of};
ghost use Rattle.tty_terminal.specs.Runs.{chars_of};
ghost use Rattle.legal_runs.specs.Legal.{is_phase_end as ends_phase, line_ends};
ghost use Rattle.journal_check.specs.Seen.{phase_starts, line_stops, phase_from, are_between};

use crate::characters::chars_of_event;
use std::alloc::Global;
use tty_base::{NoMemory, Overrun};
use tty_calls::{Event, Journal};

/// How many characters a journal had taken where each phase began, and where its line ended.
#[derive(Drop)]
pub(crate) struct Taken {
    pub(crate) starts: Vec<usize>,
    pub(crate) stops: Vec<usize>,
}

fn is_phase_end(event: &Event) -> bool
    ensures { result ≡ ends_phase (event_of event.now) }
{
    match event {
        Event::PhaseEnd => true,
        _ => false,
    }
}

fn is_no_line_end(event: &Event) -> bool
    ensures { result ≡ (length (line_ends (event_of event.now)) == 0) }
{
    match event {
        Event::LineEnd(_) => false,
        _ => true,
    }
}

/// How many characters the entries had taken where phases began and lines ended.
pub(crate) fn taken_by(alloc: Global, journal: &Journal) -> Result<Taken, NoMemory>
    requires { length (chars_of journal.now.items) < 2 ^ 64 }
    ensures starts { IfOk result (λ taken. taken.starts.items ≡ 0 ∷ phase_starts 0 journal.now.items) }
    ensures stops { IfOk result (λ taken. taken.stops.items ≡ line_stops 0 journal.now.items) }
{
    let mut starts = Vec::new(alloc);
    starts.push(0)?;
    let mut stops = Vec::new(alloc);
    let mut count = 0;
    for place in 0..journal.len() {
        let entry = journal.at(place);
        note_stop(&mut stops, &entry.event, count)?;
        count += chars_of_event(&entry.event).len();
        note_start(&mut starts, &entry.event, count)?;
    }
    Ok(Taken { starts, stops })
}

/// Where a line ends, so many characters were taken by then.
fn note_stop(stops: &mut Vec<usize>, event: &Event, count: usize) -> Result<(), NoMemory>
    ensures { OnOk result (stops.new.items
        ≡ (if length (line_ends (event_of event.now)) == 0 then stops.old.items else stops.old.items ++ count ∷ [])) }
{
    if !is_no_line_end(event) {
        stops.push(count)?;
    }
    Ok(())
}

/// Where a phase ends, so many characters were taken before the next.
fn note_start(starts: &mut Vec<usize>, event: &Event, count: usize) -> Result<(), NoMemory>
    ensures { OnOk result (starts.new.items
        ≡ (if ends_phase (event_of event.now) then starts.old.items ++ count ∷ [] else starts.old.items)) }
{
    if is_phase_end(event) {
        starts.push(count)?;
    }
    Ok(())
}

/// The first phase from this one on by whose end more than so many characters were received.
fn phase_of(ends: &[usize], from: usize, at: u32) -> usize
    requires { from ≤ length ends.now }
    ensures value { result ≡ phase_from from (drop from ends.now) at }
    ensures within { result ≤ length ends.now }
{
    let mut phase = from;
    while phase < ends.len() && ends[phase] <= at as usize {
        phase += 1;
    }
    phase
}

/// Whether each of these overruns stands at a character that was received in some phase, and has seen
/// at least what was taken where that phase began, and at most what was taken where its line ended.
pub(crate) fn are_between(
    ends: &[usize],
    starts: &[usize],
    stops: &[usize],
    overruns: &[Overrun],
) -> bool
    requires starts { length ends.now ≤ length starts.now }
    requires stops { length ends.now ≤ length stops.now }
    ensures { result ≡ are_between ends.now starts.now stops.now 0 overruns.now }
{
    let mut phase = 0;
    for overrun in overruns {
        phase = phase_of(ends, phase, overrun.at);
        if phase >= ends.len() {
            return false;
        }
        let seen = overrun.seen;
        if (starts[phase] as u64) > seen || seen > stops[phase] as u64 {
            return false;
        }
    }
    true
}
