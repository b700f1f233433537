//! Calls that a port has begun and not answered.

ghost use Rattle.std.specs.Prelude.{◌≡◌, ◌<◌, ◌++◌, ◌∷◌, [], ℕ, false, IfOk, OnOk, if◌then◌else◌};
ghost use Rattle.std.specs.Prelude.{length, slice_index_or};
ghost use Rattle.tty_calls.specs.Plain.{entry_of, event_of};
ghost use Rattle.tty_terminal.specs.Standing.{standing_in, at_first};
ghost use Rattle.derived_session.specs.declared.passed.Down.TheVariants as down;
ghost use Rattle.derived_session.specs.Begun.{begun_after, begun_down, begun_own, has_begun};

use crate::passed::{Down, PassedDown};
use std::alloc::Global;
use tty_base::NoMemory;
use tty_calls::{Entry, Event, Journal, Who};

/// Adds the calls that a port has begun and not answered: of each such caller the one at its next step.
pub fn add_begun(
    alloc: Global,
    passed: &mut Vec<PassedDown>,
    journal: &Journal,
    next: &[u32],
) -> Result<(), NoMemory>
    ensures { OnOk result (passed.new.items ≡ passed.old.items ++ begun_down journal.now.items next.now) }
{
    let begun = callers_begun(alloc, journal, next.len())?;
    for caller in 0..next.len() {
        add_call(passed, begun[caller], caller, next[caller])?;
    }
    Ok(())
}

/// Of so many callers, whether each has begun a call that was not answered.
fn callers_begun(alloc: Global, journal: &Journal, callers: usize) -> Result<Vec<bool>, NoMemory>
    ensures many { IfOk result (λ begun. length begun.items ≡ callers) }
    ensures begun { IfOk result (λ begun. (c : ℕ)
        → c < callers
        → slice_index_or begun.items c false ≡ (standing_in c journal.now.items at_first).begun) }
{
    let mut begun = vec![in alloc; false; callers]?;
    for place in 0..journal.len() {
        note(begun.as_mut_slice(), &journal.at(place));
    }
    Ok(begun)
}

fn note(begun: &mut [bool], entry: &Entry)
    ensures { begun.new ≡ begun_after begun.old (entry_of entry.now) }
{
    match entry.who {
        Who::Caller(caller) => note_own(begun, caller as usize, &entry.event),
        _ => {}
    }
}

fn note_own(begun: &mut [bool], caller: usize, event: &Event)
    ensures { begun.new ≡ begun_own begun.old caller (event_of event.now) }
{
    if caller < begun.len() {
        begun[caller] = has_begun(event, begun[caller]);
    }
}

/// Whether a caller has begun a call, after an entry of its own.
fn has_begun(event: &Event, begun: bool) -> bool
    ensures { result ≡ has_begun (event_of event.now) begun }
{
    match event {
        Event::Answer { .. } => false,
        Event::Part(_) | Event::Wait => true,
        _ => begun,
    }
}

fn add_call(
    passed: &mut Vec<PassedDown>,
    begun: bool,
    caller: usize,
    step: u32,
) -> Result<(), NoMemory>
    ensures { OnOk result (passed.new.items
        ≡ passed.old.items
        ++ (if begun then record { caller = caller; step = step; down = down.Call } ∷ [] else [])) }
{
    if begun {
        let Ok(caller) = u16::try_from(caller) else {
            return Err(NoMemory);
        };
        passed.push(PassedDown {
            caller,
            step,
            down: Down::Call,
        })?;
    }
    Ok(())
}
