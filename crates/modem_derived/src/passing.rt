//! What ports with modem lines were passed, by their log and their journals.

ghost use Rattle.std.specs.Prelude.{◌≡◌, ◌<◌, ◌++◌, ◌==◌, [], ◌∷◌, ℕ, IfOk, OnOk, if◌then◌else◌, length, map};
ghost use Rattle.std.specs.Prelude.{slice_index_or, unwrap_or};
ghost use Rattle.tty_calls.specs.Sessions.{number_in, session_of};
ghost use Rattle.modem_text.specs.Events.{event_of, events_on, logged_of};
ghost use Rattle.modem_text.specs.Sessions.{carrier_name};
ghost use Rattle.modem_derived.specs.Walked.{all_down, down_on, first_walk, walked_by, walked_over};
ghost use Rattle.derived_session.specs.Begun.{one_more};

use crate::carriers::carrier_name;
use derived_session::{Down, PassedDown, add_begun};
use modem_text::{ModemEvent, ModemLog};
use std::alloc::Global;
use std::marker::Model;
use tty_base::NoMemory;
use tty_calls::{Journal, Names, PortRun, Session};

/// What each port was passed.
pub(crate) fn passed_in(
    alloc: Global,
    base: &Session,
    log: &[ModemLog],
    runs: &[PortRun],
) -> Result<Vec<Vec<PassedDown>>, NoMemory>
    ensures many { IfOk result (λ passed. length passed.items ≡ length runs.now) }
    ensures each { IfOk result (λ passed. (p : ℕ)
        → p < length runs.now
        → slice_index_or (map (λ d. d.items) passed.items) p []
        ≡ down_on (session_of base.now) (map logged_of log.now) runs.now p) }
{
    let mut passed = Vec::new(alloc);
    for (port, run) in runs.iter().enumerate() {
        let names = Names::on_port(alloc, base, port)?;
        let own = passed_by(alloc, &names, port, log, &run.journal)?;
        passed.push(own)?;
    }
    Ok(passed)
}

/// What a port with these callers was passed: what was logged of it, and the calls that it has begun.
fn passed_by(
    alloc: Global,
    names: &Names,
    port: usize,
    log: &[ModemLog],
    journal: &Journal,
) -> Result<Vec<PassedDown>, NoMemory>
    ensures { IfOk result (λ passed.
        passed.items ≡ all_down names.now (events_on port (map logged_of log.now)) journal.now.items) }
{
    let carrier = number_of_carrier(names)?;
    let mut walk = Walk::new(alloc, names.len(), carrier)?;
    walk.note_all(port, log)?;
    let Walk {
        mut passed,
        answered,
        items: _,
        carrier: _,
    } = walk;
    add_begun(alloc, &mut passed, journal, answered.as_slice())?;
    Ok(passed)
}

/// The number of `carrier` among these callers; where it is none of them it stands past the last.
fn number_of_carrier(names: &Names) -> Result<u16, NoMemory>
    ensures { IfOk result (λ number. number ≡ unwrap_or (number_in names.now carrier_name) (length names.now)) }
{
    let number = match names.number(&carrier_name()) {
        None => names.len(),
        Some(number) => number,
    };
    let Ok(carrier) = u16::try_from(number) else {
        return Err(NoMemory);
    };
    Ok(carrier)
}

/// What was passed down so far, how many calls of each caller were answered, and how many items of the modem blocks
/// were done; and the number of `carrier`.
#[derive(Drop)]
struct Walk {
    passed: Vec<PassedDown>,
    answered: Vec<u32>,
    items: u32,
    carrier: u16,
}

impl Model for Walk {
    ghost use Rattle.modem_derived.specs.Walked.{Walked};

    ghost Value = { Walked };

    ghost view = { λ w.
        record { passed = w.passed.items; answered = w.answered.items; items = w.items; carrier = w.carrier } };
}

impl Walk {
    /// Of a port of so many callers, of which nothing was logged.
    fn new(alloc: Global, callers: usize, carrier: u16) -> Result<Walk, NoMemory>
        ensures { IfOk result (λ walk. walk ≡ first_walk callers carrier) }
    {
        let answered = vec![in alloc; 0; callers]?;
        Ok(Walk {
            passed: Vec::new(alloc),
            answered,
            items: 0,
            carrier,
        })
    }

    /// Notes what was logged of a port.
    fn note_all(&mut self, port: usize, log: &[ModemLog]) -> Result<(), NoMemory>
        ensures { OnOk result (self.new ≡ walked_over self.old (events_on port (map logged_of log.now))) }
    {
        for logged in log {
            self.note_on(port, logged)?;
        }
        Ok(())
    }

    fn note_on(&mut self, port: usize, logged: &ModemLog) -> Result<(), NoMemory>
        ensures { OnOk result (self.new
            ≡ (if logged.now.port == port then walked_by self.old (event_of logged.now.event) else self.old)) }
    {
        if logged.port as usize == port {
            self.note(&logged.event)
        } else {
            Ok(())
        }
    }

    fn note(&mut self, event: &ModemEvent) -> Result<(), NoMemory>
        ensures { OnOk result (self.new ≡ walked_by self.old (event_of event.now)) }
    {
        match *event {
            ModemEvent::Pin(_, _) => {
                self.items = self.items.checked_add(1).ok_or(NoMemory)?;
                Ok(())
            }
            ModemEvent::Own { caller, .. } => self.answer(caller),
            ModemEvent::Passed { caller, step, .. } => {
                self.answer(caller)?;
                self.pass(caller, step, Down::Call)
            }
            ModemEvent::Carrier { h } => {
                self.pass(self.carrier, self.items.saturating_sub(1), Down::Hangup(h))
            }
        }
    }

    fn pass(&mut self, caller: u16, step: u32, down: Down) -> Result<(), NoMemory>
        ensures { OnOk result (self.new
            ≡ record self.old {
              passed = self.old.passed ++ record { caller = caller; step = step; down = down } ∷ [];
            }) }
    {
        self.passed.push(PassedDown { caller, step, down })?;
        Ok(())
    }

    /// One more call of a caller was answered.
    fn answer(&mut self, caller: u16) -> Result<(), NoMemory>
        ensures { OnOk result (self.new ≡ record self.old { answered = one_more self.old.answered caller }) }
    {
        count_one(self.answered.as_mut_slice(), caller as usize)
    }
}

/// Adds one at a place, where it is one. More than can be counted are want of memory.
fn count_one(counts: &mut [u32], place: usize) -> Result<(), NoMemory>
    ensures { OnOk result (counts.new ≡ one_more counts.old place) }
{
    if place < counts.len() {
        counts[place] = counts[place].checked_add(1).ok_or(NoMemory)?;
    }
    Ok(())
}
