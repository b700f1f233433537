//! How many characters a journal flushes, and how many were dropped.

ghost use Rattle.std.specs.Prelude.{◌≡◌, IfOk};
ghost use Rattle.tty_calls.specs.Plain.{event_of};
ghost use Rattle.session_print.specs.Lines.{dropped_count, dropped_in, flushed_count, flushed_in};

use tty_base::NoMemory;
use tty_calls::{Event, Journal};

/// How many characters a journal flushes, and how many were dropped beside its answers and at its hangup.
#[derive(Clone, Copy)]
pub(crate) struct Counted {
    pub(crate) flushed: u64,
    pub(crate) dropped: u64,
}

/// What a journal flushes and drops, counted in one walk. More than can be counted is want of memory.
pub(crate) fn counted_in(journal: &Journal) -> Result<Counted, NoMemory>
    ensures flushed { IfOk result (λ counted. counted.flushed ≡ flushed_count journal.now.items) }
    ensures dropped { IfOk result (λ counted. counted.dropped ≡ dropped_count journal.now.items) }
{
    let mut flushed = 0u64;
    let mut dropped = 0u64;
    for place in 0..journal.len() {
        let entry = journal.at(place);
        let more = flushed_in(&entry.event);
        flushed = flushed.checked_add(more).ok_or(NoMemory)?;
        dropped = dropped
            .checked_add(dropped_in(&entry.event))
            .ok_or(NoMemory)?;
    }
    Ok(Counted { flushed, dropped })
}

fn flushed_in(event: &Event) -> u64
    ensures { result ≡ flushed_in (event_of event.now) }
{
    match event {
        Event::Flush(characters) => characters.len() as u64,
        _ => 0,
    }
}

fn dropped_in(event: &Event) -> u64
    ensures { result ≡ dropped_in (event_of event.now) }
{
    match event {
        Event::Answer { dropped, .. } => dropped.len() as u64,
        Event::Hangup(dropped) => dropped.len() as u64,
        _ => 0,
    }
}
