//! The desk of a port: its modem lines, and what is noted of them.

ghost use Rattle.std.specs.Prelude.{◌≡◌, ◌<◌, ◌-◌, ◌^◌, [], ◌∷◌, ◌++◌, length, map, ℕ};
ghost use Rattle.std.specs.Prelude.{IfErr, IfOk, OnErr, OnOk, Some};
ghost use Rattle.modem_lines.specs.Lines.{first_lines, loses_carrier};
ghost use Rattle.modem_text.specs.Events.{event_of, logged_of};
ghost use Rattle.tty_calls.specs.Plain.{answer_of, call_of};
ghost use Rattle.passed_calls.specs.Scripts.{plain};
ghost use Rattle.modem_steps.specs.Steps.{waits_for_carrier};
ghost use Rattle.modem_one.specs.Desk.{AreOn, noted, step_of, answered_own, controlled, told_idle};
ghost use Rattle.modem_one.specs.Desk.{answered_passed, pinned, hung_up_through};
ghost use Rattle.tty_calls.specs.declared.answers.Denied.TheVariants as denied;

use crate::controls::{control, settle};
use modem_lines::{Modem, Pin};
use modem_text::{ModemEvent, ModemLog, OwnCall};
use port_core::Port;
use std::alloc::Global;
use std::marker::Model;
use tty_base::NoMemory;
use tty_calls::{Answer, Call, Denied};

/// The modem lines of a port, the next step of each caller among all its calls, how many items of the modem blocks are
/// done, and the log.
#[derive(Drop)]
pub struct Desk {
    number: u8,
    modem: Modem,
    next: Vec<u32>,
    items: u32,
    log: Vec<ModemLog>,
}

impl Model for Desk {
    ghost use Rattle.std.specs.Prelude.{map};
    ghost use Rattle.modem_text.specs.Events.{logged_of};
    ghost use Rattle.modem_one.specs.Desk.{AreOn, DeskState};

    ghost Value = { DeskState };

    ghost view = { λ d. record {
      number = d.number;
      lines = d.modem;
      next = d.next.items;
      items = d.items;
      log = map logged_of d.log.items;
    } };

    ghost invariant = { λ d. AreOn d.number (map logged_of d.log.items) };
}

fn push_event(log: &mut Vec<ModemLog>, logged: ModemLog) -> Result<(), NoMemory>
    ensures ok { OnOk result (log.new.items ≡ log.old.items ++ logged ∷ []) }
    ensures err { OnErr result (log.new.items ≡ log.old.items) }
{
    log.push(logged)?;
    Ok(())
}

/// Adds an event to a log. One of events of one port stays so, where this is such a one.
fn add_event(log: &mut Vec<ModemLog>, logged: ModemLog) -> Result<(), Denied>
    ensures ok { OnOk result (log.new.items ≡ log.old.items ++ logged ∷ []) }
    ensures err { IfErr result (λ d. d ≡ denied.NoMemory) }
    ensures own { (p : ℕ)
        → logged.port ≡ p
        → AreOn p (map logged_of log.old.items)
        → AreOn p (map logged_of log.new.items) }
{
    match push_event(log, logged) {
        Ok(()) => Ok(()),
        Err(NoMemory) => Err(Denied::NoMemory),
    }
}

impl Desk {
    /// A desk at which nothing was logged, for callers at these steps.
    pub fn new(alloc: Global, number: u8, next: Vec<u32>) -> Desk
        ensures { result ≡ record { number = number; lines = first_lines; next = next.items; items = 0; log = [] } }
    {
        Desk {
            number,
            modem: Modem::new(),
            next,
            items: 0,
            log: Vec::new(alloc),
        }
    }

    /// What was logged, all of it of the desk's port. It takes no memory.
    pub fn into_log(self) -> Vec<ModemLog>
        ensures log { map logged_of result.items ≡ self.log }
        ensures own { AreOn self.number self.log }
    {
        let Desk {
            number: _,
            modem: _,
            next: _,
            items: _,
            log,
        } = self;
        log
    }

    /// Whether a call is an open that waits for the carrier.
    pub(crate) fn holds(&self, port: &Port, call: &Call) -> bool
        ensures { result ≡ waits_for_carrier self.now.lines port.now.terminal (Some (plain (call_of call.now))) }
    {
        match call {
            Call::Open { h, nonblock, .. } => {
                !self.modem.may_open(*nonblock) && port.handle(*h).is_none() && !port.is_exclusive()
            }
            _ => false,
        }
    }

    /// A caller's call is answered without the port.
    fn answer(&mut self, port: &Port, caller: u16, answer: Answer) -> Result<(), Denied>
        requires known { caller < length self.old.next }
        requires few { step_of self.old caller < 2 ^ 32 - 1 }
        ensures ok { OnOk result
            (self.new ≡ answered_own self.old (length port.now.journal) caller (answer_of answer)) }
        ensures err { IfErr result (λ d. d ≡ denied.NoMemory) }
    {
        let step = self.next[usize::from(caller)];
        self.note(
            port,
            ModemEvent::Own {
                caller,
                step,
                answer,
            },
        )?;
        self.next[usize::from(caller)] = step + 1;
        Ok(())
    }

    /// A caller's call of modem lines is made and answered.
    pub(crate) fn control(&mut self, port: &Port, caller: u16, call: OwnCall) -> Result<(), Denied>
        requires known { caller < length self.old.next }
        requires few { step_of self.old caller < 2 ^ 32 - 1 }
        ensures ok { OnOk result (self.new ≡ controlled self.old port.now caller call) }
        ensures err { IfErr result (λ d. d ≡ denied.NoMemory) }
    {
        let answer = control(&mut self.modem, port, call);
        self.answer(port, caller, answer)
    }

    /// A caller is told that its open waits in vain.
    pub(crate) fn tell(&mut self, port: &Port, caller: u16) -> Result<(), Denied>
        requires known { caller < length self.old.next }
        requires few { step_of self.old caller < 2 ^ 32 - 1 }
        ensures ok { OnOk result (self.new ≡ told_idle self.old (length port.now.journal) caller) }
        ensures err { IfErr result (λ d. d ≡ denied.NoMemory) }
    {
        self.answer(port, caller, Answer::Idle)
    }

    /// The port has answered a caller's call, before which a handle was live or none.
    pub(crate) fn pass(
        &mut self,
        port: &Port,
        caller: u16,
        call: &Call,
        answer: Answer,
        was_live: bool,
    ) -> Result<(), Denied>
        requires known { caller < length self.old.next }
        requires few { step_of self.old caller < 2 ^ 32 - 1 }
        ensures ok { OnOk result
            (self.new ≡ answered_passed self.old port.now was_live caller (call_of call.now) (answer_of answer)) }
        ensures err { IfErr result (λ d. d ≡ denied.NoMemory) }
    {
        settle(&mut self.modem, port, call, &answer, was_live);
        let step = self.next[usize::from(caller)];
        self.note(
            port,
            ModemEvent::Passed {
                caller,
                step,
                answer,
            },
        )?;
        self.next[usize::from(caller)] = step + 1;
        Ok(())
    }

    /// An item of the modem block is done. True says that the carrier is lost, and the port is to be hung up.
    pub(crate) fn set_pin(&mut self, port: &Port, pin: Pin, up: bool) -> Result<bool, Denied>
        requires few { self.old.items < 2 ^ 32 - 1 }
        ensures ok { OnOk result (self.new ≡ pinned self.old (length port.now.journal) pin up) }
        ensures lost { IfOk result (λ lost. lost ≡ loses_carrier self.old.lines pin up) }
        ensures err { IfErr result (λ d. d ≡ denied.NoMemory) }
    {
        let lost = self.modem.set(pin, up);
        self.items += 1;
        self.note(port, ModemEvent::Pin(pin, up))?;
        Ok(lost)
    }

    /// The port was hung up, as the carrier was lost.
    pub(crate) fn hang_up(&mut self, port: &Port, h: u8) -> Result<(), Denied>
        ensures ok { OnOk result (self.new ≡ hung_up_through self.old (length port.now.journal) h) }
        ensures err { IfErr result (λ d. d ≡ denied.NoMemory) }
    {
        self.modem.shut();
        self.note(port, ModemEvent::Carrier { h })
    }

    /// Notes an event at the port's last entry.
    fn note(&mut self, port: &Port, event: ModemEvent) -> Result<(), Denied>
        ensures ok { OnOk result (self.new ≡ noted self.old (length port.now.journal) (event_of event)) }
        ensures err { IfErr result (λ d. d ≡ denied.NoMemory) }
    {
        let at = port.journal().len() as u32;
        let logged = ModemLog {
            port: self.number,
            at,
            event,
        };
        add_event(&mut self.log, logged)
    }
}
