//! The ends of a line, of a phase and of the session, at which both ends of the flip buffer meet.

ghost use Rattle.std.specs.Prelude.{◌≡◌, ◌≤◌, true, false, IfErr, OnOk, OnErr, length};

use super::Port;
use crate::entries::{add_entry, reserve_entry, room_for_chars, starve};
use crate::flips::{drop_rest, look_at, tell_each_other};
use flip_buffer::FlipIn;
use ldisc_switch::{Kind, fresh};
use tty_calls::{Denied, Entry, Event, Who};

impl Port {
    ghost use Rattle.tty_terminal.specs.Steps.{may_end};
    ghost use Rattle.port_core.specs.Flips.{after_meeting, MeetsTaker};
    ghost use Rattle.port_core.specs.Phases.{EndsLine, EndsPhase, HangsUp};
    ghost use Rattle.port_core.specs.Ports.{IsOpen, Denies};

    /// Both ends of the flip buffer are told what the other knows: all that was put is pushed, and from
    /// then on a look counts at least that, and a head that the putter loads at least what was taken. It
    /// makes no entry, and takes no memory.
    pub fn meet(&mut self, putter: &mut FlipIn)
        requires { putter.old.ring ≡ self.old.flip.ring }
        ensures port { self.new ≡ record self.old { flip = after_meeting self.old.flip putter.old } }
        ensures putter { MeetsTaker self.old.flip putter.old putter.new }
    {
        tell_each_other(&mut self.flip, putter);
    }

    /// The end that takes out is told of all that was put: it is pushed, and from then on a look counts at
    /// least that. It makes no entry, and takes no memory.
    #[inline(always)]
    pub fn hear(&mut self, putter: &mut FlipIn)
        requires { putter.old.ring ≡ self.old.flip.ring }
        ensures port { self.new ≡ record self.old { flip = after_meeting self.old.flip putter.old } }
        ensures putter { putter.new ≡ record putter.old { pushed = putter.old.sent } }
    {
        self.flip.meet(putter.note());
    }

    /// The line of the phase is over: all that its putter put was sent.
    pub fn line_end(&mut self, putter: &mut FlipIn) -> Result<(), Denied>
        requires not_over { self.old.terminal.line_over ≡ false }
        requires ring { putter.old.ring ≡ self.old.flip.ring }
        requires sent { self.old.terminal.sent ≤ length putter.old.sent }
        ensures open { OnOk result (IsOpen self.old) }
        ensures ok { OnOk result (EndsLine self.old self.new putter.old putter.new) }
        ensures err { IfErr result (λ d. Denies d self.old self.new) }
        ensures putter { OnErr result (putter.new ≡ putter.old) }
    {
        self.gate()?;
        let sent = putter.sent();
        let entry = self.entry_of_phase(Who::Line, Event::LineEnd(sent));
        add_entry(&mut self.journal, &mut self.starved, &entry)?;
        tell_each_other(&mut self.flip, putter);
        self.flip.look(); // so what was put fits beside what was taken
        self.terminal.end_line(sent);
        Ok(())
    }

    /// The phase that runs is over, and the next one begins.
    pub fn phase_end(&mut self, putter: &mut FlipIn) -> Result<(), Denied>
        requires may { may_end self.old.counts self.old.terminal ≡ true }
        requires ring { putter.old.ring ≡ self.old.flip.ring }
        ensures open { OnOk result (IsOpen self.old) }
        ensures ok { OnOk result (EndsPhase self.old self.new putter.old putter.new) }
        ensures err { IfErr result (λ d. Denies d self.old self.new) }
        ensures putter { OnErr result (putter.new ≡ putter.old) }
    {
        self.gate()?;
        let entry = self.entry_of_phase(Who::Session, Event::PhaseEnd);
        add_entry(&mut self.journal, &mut self.starved, &entry)?;
        tell_each_other(&mut self.flip, putter);
        self.terminal.begin_phase();
        Ok(())
    }

    /// The session hangs the port up after its last phase: all that was sent and not taken is dropped.
    /// The putter's end of the flip buffer is taken over, and is lost where the call is denied.
    pub fn last_hangup(&mut self, putter: FlipIn) -> Result<(), Denied>
        requires after { self.old.terminal.phase ≡ length self.old.counts }
        requires ring { putter.ring ≡ self.old.flip.ring }
        requires sent { self.old.terminal.sent ≡ length putter.sent }
        ensures open { OnOk result (IsOpen self.old) }
        ensures ok { OnOk result (HangsUp self.old self.new putter) }
        ensures err { IfErr result (λ d. Denies d self.old self.new) }
    {
        self.gate()?;
        let capacity = self.flip.capacity();
        reserve_entry(&mut self.journal, &mut self.starved, 0, capacity)?;
        let mut dropped = room_for_chars(self.alloc, &mut self.starved, capacity)?;
        let Ok(disc) = fresh(self.alloc, Kind::Tty) else {
            return Err(starve(&mut self.starved));
        };
        let generation = self.terminal.generation();
        drop_rest(&mut self.flip, putter, &mut dropped);
        self.terminal.hang_up(disc);
        self.terminal.drop_characters(dropped.len() as u64);
        self.journal.add(&Entry {
            who: Who::Session,
            step: self.counts.len() as u32,
            part: 0,
            generation,
            event: Event::Hangup(dropped.as_slice()),
        });
        Ok(())
    }
}
