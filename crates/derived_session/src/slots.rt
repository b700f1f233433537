//! What each caller of a port passed down, step by step.

ghost use Rattle.std.specs.Prelude.{◌≡◌, ◌<◌, ◌==◌, ◌&&◌, ℕ, IfOk, OnOk, if◌then◌else◌, length, map};
ghost use Rattle.derived_session.specs.Slots.{no_slot, with_down, slot_after, slot_in, slot_at};

use crate::passed::{Down, PassedDown};
use std::alloc::Global;
use tty_base::NoMemory;

/// What was passed down at a step: the call that is made there, and a hangup.
#[derive(Clone, Copy)]
pub(crate) struct StepSlot {
    pub(crate) own: bool,
    pub(crate) hangup: Option<u8>,
}

impl StepSlot {
    /// Nothing.
    pub(crate) fn empty() -> StepSlot
        ensures { result ≡ no_slot }
    {
        StepSlot {
            own: false,
            hangup: None,
        }
    }

    fn with(self, down: Down) -> StepSlot
        ensures { result ≡ with_down self down }
    {
        match down {
            Down::Call => StepSlot { own: true, ..self },
            Down::Hangup(h) => StepSlot {
                hangup: Some(h),
                ..self
            },
        }
    }
}

/// What each caller passed down at each step.
pub(crate) fn slots_of(alloc: Global, passed: &[PassedDown]) -> Result<Vec<Vec<StepSlot>>, NoMemory>
    ensures { IfOk result (λ slots.
        (c step : ℕ) → slot_at (map (λ s. s.items) slots.items) c step ≡ slot_after no_slot passed.now c step) }
{
    let mut slots = Vec::new(alloc);
    for one in passed {
        note(alloc, &mut slots, *one)?;
    }
    Ok(slots)
}

fn note(alloc: Global, slots: &mut Vec<Vec<StepSlot>>, one: PassedDown) -> Result<(), NoMemory>
    ensures { OnOk result ((c step : ℕ)
        → slot_at (map (λ s. s.items) slots.new.items) c step
        ≡ (if one.caller == c && one.step == step
        then with_down (slot_at (map (λ s. s.items) slots.old.items) c step) one.down
        else slot_at (map (λ s. s.items) slots.old.items) c step)) }
{
    let caller = one.caller as usize;
    reach_caller(alloc, slots, caller)?;
    note_step(&mut slots[caller], one.step as usize, one.down)
}

/// Makes this caller one of those that are kept.
fn reach_caller(
    alloc: Global,
    slots: &mut Vec<Vec<StepSlot>>,
    caller: usize,
) -> Result<(), NoMemory>
    ensures room { OnOk result (caller < length slots.new.items) }
    ensures same { OnOk result ((c step : ℕ)
        → slot_at (map (λ s. s.items) slots.new.items) c step
        ≡ slot_at (map (λ s. s.items) slots.old.items) c step) }
{
    while slots.len() <= caller {
        slots.push(Vec::new(alloc))?;
    }
    Ok(())
}

fn note_step(steps: &mut Vec<StepSlot>, at: usize, down: Down) -> Result<(), NoMemory>
    ensures { OnOk result ((step : ℕ)
        → slot_in steps.new.items step
        ≡ (if at == step then with_down (slot_in steps.old.items step) down else slot_in steps.old.items step)) }
{
    reach_step(steps, at)?;
    steps[at] = steps[at].with(down);
    Ok(())
}

/// Makes this step one of those that are kept.
fn reach_step(steps: &mut Vec<StepSlot>, at: usize) -> Result<(), NoMemory>
    ensures room { OnOk result (at < length steps.new.items) }
    ensures same { OnOk result ((step : ℕ) → slot_in steps.new.items step ≡ slot_in steps.old.items step) }
{
    while steps.len() <= at {
        steps.push(StepSlot::empty())?;
    }
    Ok(())
}
