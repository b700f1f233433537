//! A port: the entries that its clock and the ends of its callers make, what can be asked of it, and its laws.

ghost use Rattle.std.specs.Prelude.{◌≡◌, ℕ, Option, [], false};
ghost use Rattle.std.specs.Prelude.{◌+◌, ◌≤◌, ◌<◌, IsTrue, IfOk, IfErr, OnOk, length, sum};
ghost use Rattle.tty_base.specs.Sizes.{MOST_ENTRIES, MOST_FLIP, MOST_PHASES};
ghost use Rattle.tty_calls.specs.Plain.{PlainCall, entry_of, event_of, ticked, clock_ended};
ghost use Rattle.tty_calls.specs.declared.journals.Who.TheVariants.{Clock};

pub(crate) mod attempting;
mod ending;
pub(crate) mod flushing;
mod giving;

use crate::asked::AskedCalls;
use crate::entries::{add_entry, entry_of_call};
use crate::waiting::WaitingCall;
use flip_buffer::FlipOut;
use handle_table::HandleState;
use std::alloc::Global;
use std::marker::Model;
use tty_base::{Moves, NoMemory, Signal};
use tty_calls::{Denied, Entry, Event, Journal, PortEnd, Who};
use tty_modes::Modes;
use tty_terminal::{CallerState, Terminal};

/// A port. Contracts see it as the record `PortValue`.
#[derive(Drop)]
pub struct Port {
    alloc: Global,
    terminal: Terminal,
    journal: Journal,
    kept: AskedCalls,
    /// For each caller the latest of its calls that waited.
    waiting: Vec<Option<WaitingCall>>,
    counts: Vec<u8>,
    limit: u32,
    starved: bool,
    flip: FlipOut,
}

impl Model for Port {
    ghost use Rattle.port_core.specs.Ports.{PortValue};

    ghost Value = { PortValue };

    ghost use Rattle.port_core.specs.Inside.{value_of, IsSound};

    ghost view = { value_of };

    ghost invariant = { IsSound };
}

impl Moves for Port {}

/// How many callers there are in all phases.
fn total(callers: &[u8]) -> usize
    requires { length callers.now ≤ MOST_PHASES }
    ensures { result ≡ sum callers.now }
{
    callers.iter().map(|count| *count as usize).sum()
}

/// A slot for a waiting call of each of so many callers.
fn slots_for(alloc: Global, count: usize) -> Result<Vec<Option<WaitingCall>>, NoMemory>
    ensures { IfOk result (λ slots. length slots.items ≡ count) }
{
    let mut slots = Vec::new(alloc);
    slots.resize_with(count, || None)?;
    Ok(slots)
}

impl Port {
    ghost use Rattle.tty_terminal.specs.Terminals.{opening, caller_at, handle_at, has_begun};
    ghost use Rattle.tty_terminal.specs.Steps.{may_end, quiet, callers_in, nothing_to_flush};
    ghost use Rattle.tty_terminal.specs.Runs.{IsRun, KnowsMore, AgreesOn};
    ghost use Rattle.tty_terminal.specs.Standing.{standing_of, standing_in, at_first};
    ghost use Rattle.tty_terminal.specs.Marks.{marks_of, marks_in, no_marks};
    ghost use Rattle.port_core.specs.Ports.{PortValue, IsPort, Appends, IsOpen, call_in};
    ghost use Rattle.port_core.specs.Ports.{is_stuck, Denies, phase_entry, end_entry};

    /// A closed port with N_TTY and the default modes, with so many callers in each phase, at most
    /// `limit` entries in its journal, and an end of a flip buffer from which nothing was taken.
    pub fn new(alloc: Global, callers: &[u8], limit: u32, flip: FlipOut) -> Result<Port, NoMemory>
        requires phases { length callers.now ≤ MOST_PHASES }
        requires some { 1 ≤ limit }
        requires few { limit ≤ MOST_ENTRIES }
        requires fresh { flip.taken ≡ [] }
        requires small { flip.capacity ≤ MOST_FLIP }
        ensures { IfOk result (λ p.
            p
            ≡ record {
              terminal = opening (sum callers.now) flip.capacity;
              journal = [];
              kept = [];
              counts = callers.now;
              limit = limit;
              starved = false;
              flip = flip;
            }) }
    {
        let count = total(callers);
        let waiting = slots_for(alloc, count)?;
        let counts = callers.to_vec(alloc)?;
        Ok(Port {
            alloc,
            terminal: Terminal::new(alloc, count, flip.capacity() as u32)?,
            journal: Journal::new(alloc),
            kept: AskedCalls::new(),
            waiting,
            counts,
            limit,
            starved: false,
            flip,
        })
    }

    /// Whether an entry can be made. A full journal is told first.
    fn gate(&self) -> Result<(), Denied>
        ensures open { OnOk result (IsOpen self.now) }
        ensures err { IfErr result (λ d. Denies d self.now self.now) }
    {
        if self.journal.len() >= self.limit as usize {
            return Err(Denied::Full);
        }
        if self.starved {
            return Err(Denied::NoMemory);
        }
        Ok(())
    }

    /// How many callers the phase that runs has.
    fn callers(&self) -> u8
        ensures { result ≡ callers_in self.now.counts self.now.terminal.phase }
    {
        match self.counts.get(self.terminal.phase() as usize) {
            Some(count) => *count,
            None => 0,
        }
    }

    /// An entry of the phase that runs.
    #[inline(always)]
    fn entry_of_phase<'a>(&self, who: Who, event: Event<'a>) -> Entry<'a>
        ensures { entry_of result ≡ phase_entry self.now who (event_of event.entry) }
    {
        Entry {
            who,
            step: self.terminal.phase(),
            part: 0,
            generation: self.terminal.generation(),
            event,
        }
    }

    /// A tenth of a second passed.
    pub fn tick(&mut self) -> Result<(), Denied>
        requires { self.old.terminal.clock_over ≡ false }
        ensures open { OnOk result (IsOpen self.old) }
        ensures ok { OnOk result (Appends self.old self.new self.old.flip (phase_entry self.old Clock ticked)) }
        ensures err { IfErr result (λ d. Denies d self.old self.new) }
    {
        self.gate()?;
        let entry = self.entry_of_phase(Who::Clock, Event::Tick);
        add_entry(&mut self.journal, &mut self.starved, &entry)?;
        self.terminal.raise_tick();
        Ok(())
    }

    /// The clock of the phase is over.
    pub fn clock_end(&mut self) -> Result<(), Denied>
        requires { self.old.terminal.clock_over ≡ false }
        ensures open { OnOk result (IsOpen self.old) }
        ensures ok { OnOk result (Appends self.old self.new self.old.flip (phase_entry self.old Clock clock_ended)) }
        ensures err { IfErr result (λ d. Denies d self.old self.new) }
    {
        self.gate()?;
        let entry = self.entry_of_phase(Who::Clock, Event::ClockEnd);
        add_entry(&mut self.journal, &mut self.starved, &entry)?;
        self.terminal.end_clock();
        Ok(())
    }

    /// The calls of a caller of the port are over in the phase that runs.
    pub fn caller_end(&mut self, caller: u16) -> Result<(), Denied>
        requires known { caller < sum self.old.counts }
        requires not_over { (caller_at self.old.terminal caller).over ≡ false }
        requires between { has_begun (caller_at self.old.terminal caller) ≡ false }
        ensures open { OnOk result (IsOpen self.old) }
        ensures ok { OnOk result (Appends self.old self.new self.old.flip (end_entry self.old caller)) }
        ensures err { IfErr result (λ d. Denies d self.old self.new) }
    {
        self.gate()?;
        let step = self.terminal.caller(caller).next;
        let generation = self.terminal.generation();
        let entry = entry_of_call(caller, step, 0, generation, Event::CallerEnd);
        add_entry(&mut self.journal, &mut self.starved, &entry)?;
        self.terminal.end_caller(caller);
        Ok(())
    }

    // ---- questions

    /// Whether line, clock and all callers of the phase that runs are over, and nothing is left to
    /// flush: all that was sent is taken, no handle is live, or the discipline does not accept.
    pub fn may_end(&self) -> bool
        ensures { result ≡ may_end self.now.counts self.now.terminal }
    {
        self.terminal.may_end(self.callers())
    }

    /// Whether nothing can happen any more but that calls that wait are told so: as `may_end`, but
    /// callers may also wait.
    pub fn quiet(&self) -> bool
        ensures { result ≡ quiet self.now.counts self.now.terminal }
    {
        self.terminal.is_quiet(self.callers())
    }

    /// Whether no handle is live or the discipline does not accept.
    pub(crate) fn is_stuck(&self) -> bool
        ensures { result ≡ is_stuck self.now.terminal }
    {
        !self.terminal.is_open() || !self.terminal.accepts()
    }

    /// Whether no character that is known to be sent can be flushed: all of them are taken, or the port
    /// is stuck.
    pub fn has_nothing_to_flush(&self) -> bool
        ensures { result ≡ nothing_to_flush self.now.terminal }
    {
        self.terminal.has_nothing_to_flush()
    }

    /// Where a caller stands.
    pub fn caller(&self, caller: u16) -> CallerState
        requires { caller < sum self.now.counts }
        ensures { result ≡ caller_at self.now.terminal caller }
    {
        self.terminal.caller(caller)
    }

    /// The phase that runs, from 0.
    pub fn phase(&self) -> u32
        ensures { result ≡ self.now.terminal.phase }
    {
        self.terminal.phase()
    }

    /// Whether the line of the phase is over.
    pub fn line_is_over(&self) -> bool
        ensures { result ≡ self.now.terminal.line_over }
    {
        self.terminal.line_is_over()
    }

    /// Whether the clock of the phase is over.
    pub fn clock_is_over(&self) -> bool
        ensures { result ≡ self.now.terminal.clock_over }
    {
        self.terminal.clock_is_over()
    }

    /// The journal so far. It is always a run that leads to the terminal, and its characters are those
    /// taken out of the flip buffer.
    pub fn journal(&self) -> &Journal
        ensures entries { result.now.items ≡ self.now.journal }
        ensures port { IsPort self.now }
    {
        &self.journal
    }

    /// How many discipline changes, hangups and last closes there were.
    pub fn generation(&self) -> u32
        ensures value { result ≡ self.now.terminal.generation }
        ensures few { result ≤ MOST_ENTRIES }
    {
        self.terminal.generation()
    }

    /// The bytes that went to the wire.
    pub fn wire(&self) -> &[u8]
        ensures { result.now ≡ self.now.terminal.output.wire }
    {
        self.terminal.wire()
    }

    /// How the handle of a number stands, if it is in use.
    pub fn handle(&self, h: u8) -> Option<HandleState>
        ensures { result ≡ handle_at self.now.terminal h }
    {
        self.terminal.handle(h)
    }

    /// Whether the port may not be opened again (EXCL).
    pub fn is_exclusive(&self) -> bool
        ensures { result ≡ self.now.terminal.exclusive }
    {
        self.terminal.is_exclusive()
    }

    /// The modes in force.
    pub fn modes(&self) -> Modes
        ensures { result ≡ self.now.terminal.modes }
    {
        self.terminal.modes()
    }

    /// The signals so far.
    pub fn signals(&self) -> &[Signal]
        ensures { result.now ≡ self.now.terminal.tally.signals.items }
    {
        self.terminal.signals()
    }

    // ---- what is known of every port

    /// A law: what is known of every port. Its journal is a run that leads to the terminal. Where each caller stands
    /// follows from its own entries and the ends of phases, so that a caller which made these knows what `attempt`
    /// needs; all entries together tell where line, clock and flush runs stand. The terminal counts what was taken out
    /// of the flip buffer; no more is known to be sent than the flip buffer holds beside that, and once the line is
    /// over, no more is taken than it sent.
    pub fn known(&self)
        ensures port { IsPort self.now }
        ensures callers { (c : ℕ)
            → standing_of (caller_at self.now.terminal c) ≡ standing_in c self.now.journal at_first }
        ensures marks { marks_of self.now.terminal ≡ marks_in self.now.journal no_marks }
        ensures taken { self.now.terminal.taken ≡ length self.now.flip.taken }
        ensures capacity { self.now.terminal.capacity ≡ self.now.flip.capacity }
        ensures within { self.now.terminal.sent ≤ length self.now.flip.taken + self.now.flip.capacity }
        ensures line { IsTrue self.now.terminal.line_over → length self.now.flip.taken ≤ self.now.terminal.sent }
    {
        let _ = &self.journal; // known: the invariant
    }

    /// The journal, and what is left at the end. The journal is a run of every session that has the
    /// calls that the port kept, or at least those of its entries.
    pub fn into_journal(self) -> (Journal, PortEnd)
        ensures journal { result.0.items ≡ self.journal }
        ensures port { IsPort self }
        ensures run { (session : ℕ → ℕ → Option PlainCall)
            → KnowsMore (call_in self.kept) session
            → IsRun session self.counts self.flip.capacity self.journal self.terminal }
        ensures agrees { (session : ℕ → ℕ → Option PlainCall)
            → AgreesOn (call_in self.kept) session self.journal
            → IsRun session self.counts self.flip.capacity self.journal self.terminal }
        ensures counts { result.1.counts ≡ self.terminal.tally.counts }
        ensures signals { result.1.signals.items ≡ self.terminal.tally.signals.items }
        ensures generation { result.1.generation ≡ self.terminal.generation }
        ensures wire { result.1.wire.items ≡ self.terminal.output.wire }
    {
        let Port {
            alloc: _,
            terminal,
            journal,
            kept: _,
            waiting: _,
            counts: _,
            limit: _,
            starved: _,
            flip: _,
        } = self;
        (journal, terminal.into_end())
    }
}
