//! The calls of a script that were passed down.

ghost use Rattle.std.specs.Prelude.{◌≡◌, ◌+◌, ◌<◌, ◌++◌, IfOk, OnOk, None, Some, IsTrue};
ghost use Rattle.std.specs.Prelude.{◌||◌, length, map, nat_lt, replicate, slice_get};
ghost use Rattle.tty_calls.specs.Plain.{call_of};
ghost use Rattle.passed_calls.specs.Scripts.{mixed};
ghost use Rattle.derived_session.specs.Steps.{step_of};
ghost use Rattle.derived_session.specs.Slots.{calls_from, hangup_list, slot_calls, slot_in};
ghost use Rattle.derived_session.specs.Walks.{WalksOn, further_place, next_further};

use crate::slots::StepSlot;
use passed_calls::PlacedCall;
use std::alloc::Global;
use tty_base::NoMemory;
use tty_calls::{Call, Calls};

/// Where a script stands: its next step, how many of its calls for the port and of the others were taken, and the
/// place of the next call.
#[derive(Clone, Copy)]
pub(crate) struct Cursor {
    pub(crate) step: usize,
    pub(crate) taken: usize,
    pub(crate) own: usize,
    pub(crate) place: u64,
}

/// The calls that were passed down at the steps of a script from its first on, and the step behind them. More steps
/// than can be counted are want of memory.
pub(crate) fn calls_passed<C: Copy>(
    alloc: Global,
    slots: &[StepSlot],
    first: usize,
    calls: &Calls,
    placed: &[PlacedCall<C>],
) -> Result<(Calls, usize), NoMemory>
    ensures calls { IfOk result
        (λ made. made.0.items ≡ calls_from slots.now first (map step_of (mixed 0 calls.now.items placed.now))) }
    ensures next { IfOk result (λ made. made.1 ≡ first + length (mixed 0 calls.now.items placed.now)) }
{
    let mut made = Calls::new(alloc);
    let mut at = Cursor {
        step: first,
        taken: 0,
        own: 0,
        place: 0,
    };
    while at.taken < calls.len() || at.own < placed.len() {
        at = pass_next(&mut made, slots, at, calls, placed)?;
    }
    Ok((made, at.step))
}

/// Adds what was passed down at the next step of a script.
fn pass_next<C: Copy>(
    made: &mut Calls,
    slots: &[StepSlot],
    at: Cursor,
    calls: &Calls,
    placed: &[PlacedCall<C>],
) -> Result<Cursor, NoMemory>
    requires { IsTrue (nat_lt at.taken (length calls.now.items) || nat_lt at.own (length placed.now)) }
    ensures { IfOk result
        (λ next. WalksOn slots.now calls.now.items placed.now at made.old.items next made.new.items) }
{
    let slot = slot_in(slots, at.step);
    let step = at.step.checked_add(1).ok_or(NoMemory)?;
    match next_further(at, calls.len(), placed) {
        Some(place) => {
            add_hangup(made, slot.hangup)?;
            let place = place.checked_add(1).ok_or(NoMemory)?;
            Ok(Cursor {
                step,
                own: at.own + 1,
                place,
                ..at
            })
        }
        None => {
            add_call(made, slot, &calls.at(at.taken))?;
            let place = at.place.checked_add(1).ok_or(NoMemory)?;
            Ok(Cursor {
                step,
                taken: at.taken + 1,
                place,
                ..at
            })
        }
    }
}

/// The place of the next call of a script that has so many for the port, where it is not for the port.
fn next_further<C: Copy>(at: Cursor, count: usize, placed: &[PlacedCall<C>]) -> Option<u64>
    ensures { result ≡ next_further count (slice_get placed.now at.own) at }
{
    match placed.get(at.own) {
        None => None,
        Some(call) => further_place(at, count, call.place),
    }
}

/// This place, where no call for the port comes before it.
fn further_place(at: Cursor, count: usize, place: u64) -> Option<u64>
    ensures { result ≡ further_place count place at }
{
    if at.taken < count && at.place < place {
        None
    } else {
        Some(place)
    }
}

/// What was passed down at a step.
fn slot_in(slots: &[StepSlot], step: usize) -> StepSlot
    ensures { result ≡ slot_in slots.now step }
{
    match slots.get(step) {
        None => StepSlot::empty(),
        Some(slot) => *slot,
    }
}

/// Adds what was passed down at a step where this call is made.
fn add_call(made: &mut Calls, slot: StepSlot, call: &Call) -> Result<(), NoMemory>
    ensures { OnOk result (made.new.items ≡ made.old.items ++ slot_calls slot (Some (call_of call.now))) }
{
    if slot.own {
        made.add(call)?;
    }
    add_hangup(made, slot.hangup)
}

fn add_hangup(made: &mut Calls, hangup: Option<u8>) -> Result<(), NoMemory>
    ensures { OnOk result (made.new.items ≡ made.old.items ++ hangup_list hangup) }
{
    match hangup {
        None => Ok(()),
        Some(h) => made.add(&Call::Vhangup { h }),
    }
}

/// The calls that were passed down at so many steps from a first one on, at which the port sees no call, and the step
/// behind them.
pub(crate) fn hangups_passed(
    alloc: Global,
    slots: &[StepSlot],
    first: usize,
    count: u32,
) -> Result<(Calls, usize), NoMemory>
    ensures calls { IfOk result (λ made. made.0.items ≡ calls_from slots.now first (replicate count None)) }
    ensures next { IfOk result (λ made. made.1 ≡ first + count) }
{
    let mut made = Calls::new(alloc);
    let mut step = first;
    for _ in 0..count {
        add_hangup(&mut made, slot_in(slots, step).hangup)?;
        step = step.checked_add(1).ok_or(NoMemory)?;
    }
    Ok((made, step))
}
