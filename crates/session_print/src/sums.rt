//! How many characters a journal flushes, and how many were dropped.

ghost use Rattle.std.specs.Prelude.{◌≡◌, ◌+◌, IfOk, OnOk, length};
ghost use Rattle.tty_calls.specs.Plain.{event_of};
ghost use Rattle.session_print.specs.Lines.{flushed_in as flushed_by, dropped_in as dropped_by};

use tty_base::{Flagged, NoMemory};
use tty_calls::Event;

/// How many characters a journal flushes, and how many were dropped beside its answers and at its hangup.
#[derive(Clone, Copy)]
pub(crate) struct Sums {
    pub(crate) flushed: u64,
    pub(crate) dropped: u64,
}

impl Sums {
    /// Adds what an event flushes, and what is dropped with it. More than can be counted is want of memory.
    #[inline(always)]
    pub(crate) fn add(&mut self, event: &Event) -> Result<(), NoMemory>
        ensures flushed { OnOk result (self.new.flushed ≡ self.old.flushed + flushed_by (event_of event.now)) }
        ensures dropped { OnOk result (self.new.dropped ≡ self.old.dropped + dropped_by (event_of event.now)) }
    {
        match event {
            Event::Answer { dropped, .. } => add_to(&mut self.dropped, dropped),
            Event::Flush(characters) => add_to(&mut self.flushed, characters),
            Event::Hangup(dropped) => add_to(&mut self.dropped, dropped),
            _ => Ok(()),
        }
    }
}

/// How many characters an event flushes.
#[inline(always)]
pub(crate) fn flushed_in(event: &Event) -> u64
    ensures { result ≡ flushed_by (event_of event.now) }
{
    match event {
        Event::Flush(characters) => characters.len() as u64,
        _ => 0,
    }
}

/// Adds how many characters there are to a sum.
#[inline(always)]
fn add_to(sum: &mut u64, characters: &[Flagged]) -> Result<(), NoMemory>
    ensures { OnOk result (sum.new ≡ sum.old + length characters.now) }
{
    *sum = sum_of(*sum, characters.len() as u64)?;
    Ok(())
}

/// The sum of two numbers. One that 64 bits do not hold is want of memory.
#[inline(always)]
pub(crate) fn sum_of(one: u64, other: u64) -> Result<u64, NoMemory>
    ensures { IfOk result (λ sum. sum ≡ one + other) }
{
    one.checked_add(other).ok_or(NoMemory)
}
