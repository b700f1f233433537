//! A port whose scripts are made.

ghost use Rattle.std.specs.Prelude.{◌≡◌, ◌<◌, ℕ, IfOk, OnOk, Some, [], length, map, slice_index_or};
ghost use Rattle.tty_calls.specs.Sessions.{number_in, script_of, with_name};
ghost use Rattle.derived_session.specs.Steps.{further_steps, steps_with};
ghost use Rattle.derived_session.specs.Making.{reached, script_after, script_made};
ghost use Rattle.derived_session.specs.Slots.{no_slot, slot_after, slot_at};

use crate::calls::{calls_passed, hangups_passed};
use crate::passed::{FurtherBlock, PassedDown};
use crate::slots::{StepSlot, slots_of};
use arrayvec::ArrayString;
use passed_calls::PlacedCall;
use std::alloc::Global;
use std::marker::Model;
use tty_base::NoMemory;
use tty_calls::{Names, Script};

/// The names of the callers of a port so far, what each passed down, and the next step of each.
#[derive(Drop)]
pub(crate) struct PortSteps {
    names: Names,
    slots: Vec<Vec<StepSlot>>,
    next: Vec<usize>,
}

impl Model for PortSteps {
    ghost use Rattle.std.specs.Prelude.{◌≡◌, length, map};
    ghost use Rattle.derived_session.specs.Making.{PortState};

    ghost Value = { PortState };

    ghost view = { λ p. record {
      names = p.names;
      slots = map (λ s. s.items) p.slots.items;
      next = p.next.items;
    } };

    ghost invariant = { λ p. length p.next.items ≡ length p.names };
}

impl PortSteps {
    /// A port that was passed this, of which no script is made.
    pub(crate) fn new(alloc: Global, passed: &[PassedDown]) -> Result<PortSteps, NoMemory>
        ensures names { IfOk result (λ port. port.names ≡ []) }
        ensures next { IfOk result (λ port. port.next ≡ []) }
        ensures slots { IfOk result
            (λ port. (c step : ℕ) → slot_at port.slots c step ≡ slot_after no_slot passed.now c step) }
    {
        let slots = slots_of(alloc, passed)?;
        Ok(PortSteps {
            names: Names::new(alloc),
            slots,
            next: Vec::new(alloc),
        })
    }

    /// Makes the next script of the port.
    pub(crate) fn make_script<C: Copy>(
        &mut self,
        alloc: Global,
        script: &Script,
        placed: &[PlacedCall<C>],
    ) -> Result<Script, NoMemory>
        ensures made { IfOk result (λ made. script_of made
            ≡ script_made self.old (steps_with (script_of script.now) placed.now)) }
        ensures after { OnOk result (self.new ≡ script_after self.old (steps_with (script_of script.now) placed.now)) }
    {
        let caller = self.learn(&script.name)?;
        let slots = slots_by(self.slots.as_slice(), caller);
        let (calls, next) = calls_passed(alloc, slots, self.next[caller], &script.calls, placed)?;
        self.next[caller] = next;
        Ok(Script {
            port: script.port,
            name: script.name,
            calls,
        })
    }

    /// Makes the script of a block of which the port sees no call.
    pub(crate) fn make_further(
        &mut self,
        alloc: Global,
        block: &FurtherBlock,
    ) -> Result<Script, NoMemory>
        ensures made { IfOk result (λ made. script_of made ≡ script_made self.old (further_steps block.now)) }
        ensures after { OnOk result (self.new ≡ script_after self.old (further_steps block.now)) }
    {
        let caller = self.learn(&block.name)?;
        let slots = slots_by(self.slots.as_slice(), caller);
        let (calls, next) = hangups_passed(alloc, slots, self.next[caller], block.steps)?;
        self.next[caller] = next;
        Ok(Script {
            port: block.port,
            name: block.name,
            calls,
        })
    }

    /// The number of a caller, by its name.
    fn learn(&mut self, name: &ArrayString<16>) -> Result<usize, NoMemory>
        ensures number { IfOk result (λ caller. number_in self.new.names name.now.bytes ≡ Some caller) }
        ensures known { IfOk result (λ caller. caller < length self.new.next) }
        ensures names { OnOk result (self.new.names ≡ with_name self.old.names name.now.bytes) }
        ensures slots { OnOk result (self.new.slots ≡ self.old.slots) }
        ensures next { OnOk result (self.new.next ≡ reached self.new.names self.old.next) }
    {
        self.next.reserve(1)?;
        let caller = self.names.learn(name)?;
        if self.next.len() < self.names.len() {
            self.next.push_reserved(0);
        }
        Ok(caller)
    }
}

/// What a caller passed down.
fn slots_by(slots: &[Vec<StepSlot>], caller: usize) -> &[StepSlot]
    ensures { result.now ≡ slice_index_or (map (λ s. s.items) slots.now) caller [] }
{
    match slots.get(caller) {
        None => &[],
        Some(slots) => slots.as_slice(),
    }
}
