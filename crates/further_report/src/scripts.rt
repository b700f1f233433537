//! The lines of scripts: each call that was answered.

ghost use Rattle.std.specs.Prelude.{◌≡◌, ◌++◌, ◌+◌, ◌-◌, ◌<◌, ◌≤◌, ◌==◌, IfOk, OnOk, ◌∷◌, [], drop, if◌then◌else◌};
ghost use Rattle.std.specs.Prelude.{length, map, nat_lt, replicate, slice_get, take};
ghost use Rattle.tty_calls.specs.Sessions.{number_in, script_of};
ghost use Rattle.session_print.specs.Words.{verb_of};
ghost use Rattle.passed_calls.specs.Scripts.{mixed, mixed_scripts, plain, further};
ghost use Rattle.further_report.specs.Calls.{answered_line, lines_from, verb_in};
ghost use Rattle.further_report.specs.Printing.{bytes_of, script_text, scripts_text, steps_after, steps_then};

use crate::verbs::{FurtherCall, verb_of};
use passed_calls::{PlacedCall, count_in};
use std::alloc::Global;
use tty_base::{Bytes, NoMemory};
use tty_calls::{Calls, Names, Script};

/// What the lines of the calls of a port are told from: the names of its callers, and what each was answered.
#[derive(Drop)]
pub(crate) struct Teller {
    pub(crate) port: u8,
    pub(crate) names: Names,
    pub(crate) answers: Vec<Vec<Bytes>>,
}

impl Teller {
    /// Adds the lines of the port's scripts among those of a phase. `steps` has each caller's next step.
    pub(crate) fn put_scripts<C: FurtherCall>(
        &self,
        alloc: Global,
        text: &mut Vec<u8>,
        steps: &mut Vec<usize>,
        scripts: &[Script],
        placed: &[PlacedCall<C>],
    ) -> Result<(), NoMemory>
        requires steps { length steps.old.items ≡ length self.now.names }
        requires answers { length self.now.answers.items ≡ length self.now.names }
        ensures text { OnOk result (text.new.items
            ≡ text.old.items
            ++ scripts_text C.verb_text self.now.port self.now.names
            (map (λ texts. bytes_of texts.items) self.now.answers.items) steps.old.items
            (mixed_scripts 0 (map script_of scripts.now) placed.now)) }
        ensures steps { OnOk result (steps.new.items
            ≡ steps_after self.now.port self.now.names steps.old.items
            (mixed_scripts 0 (map script_of scripts.now) placed.now)) }
        ensures each { OnOk result (length steps.new.items ≡ length steps.old.items) }
    {
        let mut rest = placed;
        for (number, script) in scripts.iter().enumerate() {
            let count = count_in(number, rest);
            self.put_one(alloc, text, steps, script, &rest[..count])?;
            rest = &rest[count..];
        }
        Ok(())
    }

    /// Adds the lines of a script in which these calls are placed, where it is of the port.
    fn put_one<C: FurtherCall>(
        &self,
        alloc: Global,
        text: &mut Vec<u8>,
        steps: &mut Vec<usize>,
        script: &Script,
        placed: &[PlacedCall<C>],
    ) -> Result<(), NoMemory>
        requires steps { length steps.old.items ≡ length self.now.names }
        requires answers { length self.now.answers.items ≡ length self.now.names }
        ensures text { OnOk result (text.new.items
            ≡ text.old.items
            ++ scripts_text C.verb_text self.now.port self.now.names
            (map (λ texts. bytes_of texts.items) self.now.answers.items) steps.old.items
            (record {
              port = script.now.port;
              name = script.now.name.bytes;
              calls = mixed 0 script.now.calls.items placed.now;
            } ∷ [])) }
        ensures steps { OnOk result (steps.new.items
            ≡ steps_after self.now.port self.now.names steps.old.items
            (record {
              port = script.now.port;
              name = script.now.name.bytes;
              calls = mixed 0 script.now.calls.items placed.now;
            } ∷ [])) }
        ensures each { OnOk result (length steps.new.items ≡ length steps.old.items) }
    {
        if script.port == self.port {
            self.put_script(alloc, text, steps, script, placed)
        } else {
            Ok(())
        }
    }

    /// Adds the lines of a script, in which these calls are placed.
    fn put_script<C: FurtherCall>(
        &self,
        alloc: Global,
        text: &mut Vec<u8>,
        steps: &mut Vec<usize>,
        script: &Script,
        placed: &[PlacedCall<C>],
    ) -> Result<(), NoMemory>
        requires steps { length steps.old.items ≡ length self.now.names }
        requires answers { length self.now.answers.items ≡ length self.now.names }
        ensures text { OnOk result (text.new.items
            ≡ text.old.items
            ++ script_text C.verb_text self.now.port (map (λ texts. bytes_of texts.items) self.now.answers.items)
            steps.old.items
            (record {
              port = script.now.port;
              name = script.now.name.bytes;
              calls = mixed 0 script.now.calls.items placed.now;
            })
            (number_in self.now.names script.now.name.bytes)) }
        ensures steps { OnOk result (steps.new.items
            ≡ steps_then steps.old.items
            (record {
              port = script.now.port;
              name = script.now.name.bytes;
              calls = mixed 0 script.now.calls.items placed.now;
            })
            (number_in self.now.names script.now.name.bytes)) }
        ensures each { OnOk result (length steps.new.items ≡ length steps.old.items) }
    {
        match self.names.number(&script.name) {
            None => Ok(()),
            Some(caller) => {
                let front = Front {
                    port: self.port,
                    name: script.name.as_str(),
                    answers: self.answers[caller].as_slice(),
                };
                steps[caller] = front.put_calls(alloc, text, steps[caller], &script.calls, placed)?;
                Ok(())
            }
        }
    }
}

/// The steps of so many callers at the beginning.
pub(crate) fn first_steps(alloc: Global, callers: usize) -> Result<Vec<usize>, NoMemory>
    ensures { IfOk result (λ steps. steps.items ≡ replicate callers 0) }
{
    let mut steps = Vec::new(alloc);
    while steps.len() < callers {
        steps.push(0)?;
    }
    Ok(steps)
}

/// Where a script is told: the next step, how many of its calls for the port were told, and the place of the next call.
#[derive(Clone, Copy)]
struct Cursor {
    step: usize,
    taken: usize,
    place: u64,
}

/// What the lines of a script are told from: its port, its caller's name, and what the caller was answered.
#[derive(Clone, Copy)]
struct Front<'a> {
    port: u8,
    name: &'a str,
    answers: &'a [Bytes],
}

impl Front<'_> {
    /// Adds the lines of a script's calls from a step on, and gives the step behind them. More steps than can be
    /// counted are want of memory.
    fn put_calls<C: FurtherCall>(
        &self,
        alloc: Global,
        text: &mut Vec<u8>,
        step: usize,
        calls: &Calls,
        placed: &[PlacedCall<C>],
    ) -> Result<usize, NoMemory>
        ensures text { OnOk result (text.new.items
            ≡ text.old.items
            ++ lines_from self.now.port self.now.name.now (bytes_of self.now.answers.now) step
            (map (verb_in C.verb_text) (mixed 0 calls.now.items placed.now))) }
        ensures step { IfOk result (λ next. next ≡ step + length (mixed 0 calls.now.items placed.now)) }
    {
        let mut cursor = Cursor {
            step,
            taken: 0,
            place: 0,
        };
        for call in placed {
            cursor = self.put_placed(alloc, text, cursor, calls, *call)?;
        }
        Ok(self.put_plain(alloc, text, cursor, calls, calls.len())?)
    }

    /// Adds the lines of a call and of those for the port that stand before it, and gives where the script is told
    /// then.
    fn put_placed<C: FurtherCall>(
        &self,
        alloc: Global,
        text: &mut Vec<u8>,
        cursor: Cursor,
        calls: &Calls,
        placed: PlacedCall<C>,
    ) -> Result<Cursor, NoMemory>
        requires { cursor.taken ≤ length calls.now.items }
        ensures text { OnOk result (text.new.items
            ≡ text.old.items
            ++ lines_from self.now.port self.now.name.now (bytes_of self.now.answers.now) cursor.step
            (map (verb_in C.verb_text) (map plain
            (take (placed.place - cursor.place) (drop cursor.taken calls.now.items)) ++ further placed.call ∷ []))) }
        ensures step { IfOk result (λ next.
            next.step
            ≡ cursor.step
            + length (map plain (take (placed.place - cursor.place) (drop cursor.taken calls.now.items))
            ++ further placed.call ∷ [])) }
        ensures taken { IfOk result (λ next.
            drop next.taken calls.now.items ≡ drop (placed.place - cursor.place) (drop cursor.taken calls.now.items)) }
        ensures within { IfOk result (λ next. next.taken ≤ length calls.now.items) }
        ensures place { IfOk result (λ next. next.place ≡ placed.place + 1) }
    {
        let place = placed.place.checked_add(1).ok_or(NoMemory)?;
        let taken = end_of(cursor, placed.place, calls.len());
        let step = self.put_plain(alloc, text, cursor, calls, taken)?;
        self.put_line(alloc, text, step, placed.call.verb())?;
        let step = next_step(step)?;
        Ok(Cursor { step, taken, place })
    }

    /// Adds the lines of the calls for the port up to this one, and gives the step behind them.
    fn put_plain(
        &self,
        alloc: Global,
        text: &mut Vec<u8>,
        cursor: Cursor,
        calls: &Calls,
        end: usize,
    ) -> Result<usize, NoMemory>
        requires from { cursor.taken ≤ end }
        requires within { end ≤ length calls.now.items }
        ensures text { OnOk result (text.new.items
            ≡ text.old.items
            ++ lines_from self.now.port self.now.name.now (bytes_of self.now.answers.now) cursor.step
            (map verb_of (take (end - cursor.taken) (drop cursor.taken calls.now.items)))) }
        ensures step { IfOk result (λ next. next ≡ cursor.step + (end - cursor.taken)) }
    {
        let mut step = cursor.step;
        for place in cursor.taken..end {
            self.put_line(alloc, text, step, verb_of(&calls.at(place)))?;
            step = next_step(step)?;
        }
        Ok(step)
    }

    /// Adds the line of a call, where it was answered.
    fn put_line(
        &self,
        alloc: Global,
        text: &mut Vec<u8>,
        step: usize,
        verb: &str,
    ) -> Result<(), NoMemory>
        ensures { OnOk result (text.new.items
            ≡ text.old.items
            ++ answered_line self.now.port self.now.name.now step verb.now
            (slice_get (bytes_of self.now.answers.now) step)) }
    {
        match self.answers.get(step) {
            None => Ok(()),
            Some(answer) => {
                let (port, name) = (self.port, self.name);
                let head = format!(in alloc; "{port}.{name}.{step} {verb} ")?;
                text.extend_from_slice(head.as_bytes())?;
                text.extend_from_slice(answer.as_slice())?;
                Ok(text.extend_from_slice(b"\n".as_slice())?)
            }
        }
    }
}

/// The step after a step. More than can be counted are want of memory.
fn next_step(step: usize) -> Result<usize, NoMemory>
    ensures { IfOk result (λ next. next ≡ step + 1) }
{
    step.checked_add(1).ok_or(NoMemory)
}

/// Where the calls for the port end that stand before a place.
fn end_of(cursor: Cursor, place: u64, count: usize) -> usize
    requires { cursor.taken ≤ count }
    ensures from { cursor.taken ≤ result }
    ensures within { result ≤ count }
    ensures end { result
        ≡ (if nat_lt (place - cursor.place) (count - cursor.taken)
        then cursor.taken + (place - cursor.place)
        else count) }
{
    let gap = place.saturating_sub(cursor.place);
    let left = count - cursor.taken;
    if gap < left as u64 {
        cursor.taken + gap as usize
    } else {
        count
    }
}
