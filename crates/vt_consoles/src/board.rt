//! A board of consoles.

ghost use Rattle.std.specs.Prelude.{◌≡◌, ◌<◌, ◌≤◌, [], length, IfOk, IfErr, OnOk, OnErr};
ghost use Rattle.tty_base.specs.Sizes.{MOST_CONSOLES, MOST_ENTRIES, MOST_SENT};
ghost use Rattle.vt_consoles.specs.Runs.{NamesRightly};
ghost use Rattle.vt_consoles.specs.Boards.{IsBoard, Adds, IsDenied, active_on};
ghost use Rattle.vt_consoles.specs.Faults.{IsRefusedCall};
ghost use Rattle.vt_consoles.specs.Keys.{CanPut, GoesTo, PutsAndPushes, key_character};

use crate::entries::{Keyed, VtEntry, VtEvent, VtFault};
use flip_buffer::FlipIn;
use std::alloc::Global;
use std::marker::Model;
use tty_base::{Buffer, Flag, Flagged, Full, NoMemory, Put};
use tty_calls::Denied;

/// For so many entries a new board has room.
const FIRST_ROOM: usize = 64;

/// Up to eight consoles, of which one is active, and an entry for each thing that was done.
#[derive(Drop)]
pub struct Board {
    consoles: u8,
    active: u8,
    limit: u32,
    entries: Buffer<VtEntry>,
}

impl Model for Board {
    ghost use Rattle.vt_consoles.specs.Boards.{BoardState, IsKept};

    ghost Value = { BoardState };

    ghost view = { λ b. record { consoles = b.consoles; limit = b.limit; entries = b.entries.items } };

    ghost invariant = { λ b. IsKept b.consoles b.active b.limit b.entries.items };
}

impl Board {
    /// A board with so many consoles, which has at most so many entries. Console 0 is active.
    pub fn new(alloc: Global, consoles: u8, limit: u32) -> Result<Board, NoMemory>
        requires consoles { (0 < consoles) × (consoles ≤ MOST_CONSOLES) }
        requires limit { (0 < limit) × (limit ≤ MOST_ENTRIES) }
        ensures { IfOk result (λ b. b ≡ record { consoles = consoles; limit = limit; entries = [] }) }
    {
        let mut entries = Buffer::new(alloc);
        entries.reserve(FIRST_ROOM)?;
        Ok(Board {
            consoles,
            active: 0,
            limit,
            entries,
        })
    }

    /// Makes a console the active one. `NoConsole` comes where there is none of that number, and is tested first.
    /// `Full` comes where the board has as many entries as it may have. A refusal leaves the board as it was.
    pub fn activate(&mut self, seat: u32, n: u8) -> Result<(), VtFault>
        ensures ok { OnOk result (Adds seat (VtEvent.Activate n) self.old self.new) }
        ensures err { OnErr result (self.new ≡ self.old) }
        ensures refused { IfErr result (λ fault. IsRefusedCall self.old n fault) }
    {
        if n >= self.consoles() {
            return Err(VtFault::NoConsole);
        }
        self.add(seat, VtEvent::Activate(n))?;
        Ok(())
    }

    /// Tells which console is active. `Full` comes where the board has as many entries as it may have. A refusal
    /// leaves the board as it was.
    pub fn state(&mut self, seat: u32) -> Result<u8, Denied>
        ensures ok { IfOk result (λ n. Adds seat (VtEvent.State n) self.old self.new) }
        ensures err { OnErr result (self.new ≡ self.old) }
        ensures denied { IfErr result (λ denied. IsDenied self.old denied) }
    {
        let active = self.active();
        self.add(seat, VtEvent::State(active))?;
        Ok(active)
    }

    /// Puts a key into the end of the active console, and pushes. There is one end for each console. `Full` comes
    /// where the board has as many entries as it may have. A refusal leaves the board and the ends as they were.
    pub fn key(
        &mut self,
        seat: u32,
        index: u32,
        byte: u8,
        ends: &mut [FlipIn],
    ) -> Result<Keyed, Denied>
        requires each { length ends.old ≡ self.old.consoles }
        requires can_put { CanPut ends.old }
        ensures ok { IfOk result (λ keyed. Adds seat (VtEvent.Key index keyed.console) self.old self.new) }
        ensures puts { IfOk result (λ keyed. GoesTo byte keyed.console keyed.lost ends.old ends.new) }
        ensures err { OnErr result (self.new ≡ self.old) }
        ensures ends { OnErr result (ends.new ≡ ends.old) }
        ensures denied { IfErr result (λ denied. IsDenied self.old denied) }
    {
        let console = self.press(seat, index)?;
        let lost = put_at(ends, console, byte);
        Ok(Keyed { console, lost })
    }

    /// Notes a key, and tells the console to which it goes. `Full` comes where the board has as many entries as it may
    /// have. A refusal leaves the board as it was.
    pub fn press(&mut self, seat: u32, index: u32) -> Result<u8, Denied>
        ensures ok { IfOk result (λ console. Adds seat (VtEvent.Key index console) self.old self.new) }
        ensures within { IfOk result (λ console. console < self.old.consoles) }
        ensures err { OnErr result (self.new ≡ self.old) }
        ensures denied { IfErr result (λ denied. IsDenied self.old denied) }
    {
        let console = self.active();
        self.add(seat, VtEvent::Key { index, console })?;
        Ok(console)
    }

    /// The entries so far: they are a board run.
    pub fn entries(&self) -> &[VtEntry]
        ensures entries { result.now ≡ self.now.entries }
        ensures board { IsBoard self.now }
    {
        let _active = &self.active; // known: the board keeps its entries
        self.entries.as_slice()
    }

    /// How many consoles there are.
    pub fn consoles(&self) -> u8
        ensures { result ≡ self.now.consoles }
    {
        self.consoles
    }

    /// The active console.
    pub fn active(&self) -> u8
        ensures active { result ≡ active_on self.now }
        ensures within { result < self.now.consoles }
    {
        self.active
    }

    fn add(&mut self, seat: u32, event: VtEvent) -> Result<(), Denied>
        requires { NamesRightly self.old.consoles (active_on self.old) event }
        ensures ok { OnOk result (Adds seat event self.old self.new) }
        ensures err { OnErr result (self.new ≡ self.old) }
        ensures denied { IfErr result (λ denied. IsDenied self.old denied) }
    {
        if self.entries.len() == self.limit as usize {
            return Err(Denied::Full);
        }
        reserve_one(&mut self.entries)?;
        self.active = event.active_after(self.active);
        self.entries.add(VtEntry { seat, event });
        Ok(())
    }
}

/// Makes room for one entry.
fn reserve_one(entries: &mut Buffer<VtEntry>) -> Result<(), Denied>
    ensures items { entries.new.items ≡ entries.old.items }
    ensures room { OnOk result (0 < entries.new.spare) }
    ensures err { IfErr result (λ denied. denied ≡ Denied.NoMemory) }
{
    match entries.reserve(1) {
        Ok(()) => Ok(()),
        Err(NoMemory) => Err(Denied::NoMemory),
    }
}

/// Puts a key into the end of one console, and pushes.
fn put_at(ends: &mut [FlipIn], console: u8, byte: u8) -> Option<Full>
    requires within { console < length ends.old }
    requires can_put { CanPut ends.old }
    ensures { GoesTo byte console result ends.old ends.new }
{
    let end = &mut ends[usize::from(console)];
    put_and_push(end, byte)
}

/// Puts a key, and pushes.
fn put_and_push(end: &mut FlipIn, byte: u8) -> Option<Full>
    requires { length end.old.sent < MOST_SENT }
    ensures { PutsAndPushes (key_character byte) result end.old end.new }
{
    let key = Flagged {
        byte,
        flag: Flag::Normal,
    };
    let lost = end.put(key).err();
    end.push();
    lost
}
