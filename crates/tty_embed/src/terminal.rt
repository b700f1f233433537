//! N_TTY for a program that runs it for ever: the calls.

ghost use Rattle.std.specs.Prelude.{◌≡◌, ◌+◌, ◌≤◌, take, length, is_some, IfSome, IfOk, OnOk, OnErr};
ghost use Rattle.tty_base.specs.Sizes.{MOST_UNREAD};
ghost use Rattle.tty_modes.specs.Reading.{word_of};
ghost use Rattle.n_tty.specs.States.{unread_count};
ghost use Rattle.n_tty.specs.Writing.{piece_size};
ghost use Rattle.tty_embed.specs.Embedded.{fresh, accepts, after_receipt, received_count, after_receiving};
ghost use Rattle.tty_embed.specs.Embedded.{after_advance, is_ready_for, read_answer, place_after_read};
ghost use Rattle.tty_embed.specs.Embedded.{after_reading, after_writing, after_setting, wire_of, taken_count};
ghost use Rattle.tty_embed.specs.Embedded.{at_front, without_wire_front, first_signal, without_first_signal};

use crate::pieces::receive_bytes;
use crate::places::{make_room, put_front};
use flow_control::{Signals, Tally, Wire};
use n_tty::{CHARACTER_ROOM, NTty};
use std::alloc::Global;
use std::marker::Model;
use tty_base::sizes::{MOST_POSTED, MOST_READ, PIECE};
use tty_base::{Bytes, Flag, Flagged, NoMemory, Signal, front_of};
use tty_modes::places::IXON;
use tty_modes::{Modes, set_word_bytes};

/// N_TTY with its modes, its output, what it counts, and its clock.
///
/// It runs for ever: what goes to the wire and the signals are taken out at the front, and no count of calls ends it.
/// No call has a condition; a call that finds no memory leaves the terminal as it was.
#[derive(Drop)]
pub struct Tty {
    disc: NTty,
    modes: Modes,
    wire: Wire,
    tally: Tally,
    tick: u64,
    alloc: Global,
    bytes: Bytes,
    signals: Signals,
}

impl Model for Tty {
    ghost use Rattle.tty_embed.specs.Embedded.{Embedded};

    ghost Value = { Embedded };

    ghost use Rattle.tty_embed.specs.Inside.{embedded_of, IsSound};

    ghost view = { embedded_of };

    ghost invariant = { IsSound };
}

impl Tty {
    /// A terminal with the default modes, to which nothing has happened.
    pub fn new(alloc: Global) -> Result<Tty, NoMemory>
        ensures { IfOk result (λ t. t ≡ fresh) }
    {
        Ok(Tty {
            disc: NTty::new(alloc)?,
            modes: Modes::sane(),
            wire: Wire::new(alloc)?,
            tally: Tally::new(alloc),
            tick: 0,
            alloc,
            bytes: Bytes::new(alloc),
            signals: Signals::new(alloc),
        })
    }

    /// Receives a character from the line, where it is accepted: it is stored, edits, is echoed, steers output or
    /// raises a signal. Answers whether it was accepted.
    pub fn receive(&mut self, byte: u8, flag: Flag) -> Result<bool, NoMemory>
        ensures accepted { IfOk result (λ accepted. accepted ≡ accepts self.old) }
        ensures after { OnOk result (self.new ≡ after_receipt self.old (record { byte = byte; flag = flag })) }
        ensures err { OnErr result (self.new ≡ self.old) }
    {
        if !self.disc.accepts(&self.modes) {
            return Ok(false);
        }
        let room = self.disc.pending(&self.wire) + CHARACTER_ROOM;
        self.wire.reserve(room)?;
        self.tally.reserve(1)?;
        let c = Flagged { byte, flag };
        self.disc
            .receive(c, self.tick, &self.modes, &mut self.wire, &mut self.tally);
        self.disc.wrap_column();
        Ok(true)
    }

    /// Receives good characters, the first 64 at most, up to the first that is not accepted. Answers how many.
    pub fn receive_bytes(&mut self, bytes: &[u8]) -> Result<usize, NoMemory>
        ensures count { IfOk result (λ count. count ≡ received_count self.old bytes.now) }
        ensures few { IfOk result (λ count. count ≤ PIECE) }
        ensures after { OnOk result (self.new ≡ after_receiving self.old bytes.now) }
        ensures err { OnErr result (self.new ≡ self.old) }
    {
        let bytes = front_of(bytes, PIECE.min(bytes.len()));
        let room = self.disc.pending(&self.wire) + CHARACTER_ROOM * bytes.len();
        self.wire.reserve(room)?;
        self.tally.reserve(bytes.len())?;
        let count = receive_bytes(
            &mut self.disc,
            bytes,
            self.tick,
            &self.modes,
            &mut self.wire,
            &mut self.tally,
        );
        self.disc.wrap_column();
        Ok(count)
    }

    /// Sets the clock, which counts tenths of a second. A tick that is past changes nothing.
    pub fn advance(&mut self, tick: u64)
        ensures { self.new ≡ after_advance self.old tick }
    {
        self.tick = self.tick.max(tick);
    }

    /// Whether a read of at most `n` bytes, which has waited since a tick, would be answered: by a complete piece in
    /// canonical mode, and else by MIN and TIME.
    pub fn ready(&self, nonblock: bool, since: u64, n: usize) -> bool
        ensures { result ≡ is_ready_for self.now nonblock since n }
    {
        let asked = n.min(MOST_READ) as u32;
        self.disc
            .ready(asked, &self.modes, nonblock, since, self.tick)
    }

    /// Reads into a place, and answers how many bytes; `None` where the read has to wait. In canonical mode the bytes
    /// are of the first piece. 0 bytes are the end of the input, or what a read that asks for none is given.
    pub fn read(
        &mut self,
        nonblock: bool,
        since: u64,
        place: &mut [u8],
    ) -> Result<Option<usize>, NoMemory>
        ensures count { IfOk result (λ count. count ≡ read_answer self.old nonblock since (length place.old)) }
        ensures few { IfOk result (λ count. IfSome count (λ n. n ≤ MOST_READ)) }
        ensures place { OnOk result (place.new ≡ place_after_read self.old nonblock since place.old) }
        ensures after { OnOk result (self.new ≡ after_reading self.old nonblock since (length place.old)) }
        ensures err { OnErr result ((self.new ≡ self.old) × (place.new ≡ place.old)) }
    {
        if !self.ready(nonblock, since, place.len()) {
            return Ok(None); // the read waits
        }
        let asked = place.len().min(MOST_READ);
        make_room(&mut self.bytes, self.alloc, asked)?;
        self.wire.reserve(1)?;
        let count = self.disc.read(asked as u32, &self.modes, &mut self.bytes);
        self.disc.ixoff(&self.modes, &mut self.wire);
        put_front(place, self.bytes.as_slice());
        Ok(Some(count as usize))
    }

    /// Posts bytes of a write, 64 at most, up to the first that does not fit while output is halted. Answers how many.
    pub fn write(&mut self, bytes: &[u8]) -> Result<usize, NoMemory>
        ensures count { IfOk result
            (λ count. count ≡ piece_size self.old.modes self.old.port.tty self.old.port.output bytes.now) }
        ensures few { IfOk result (λ count. count ≤ PIECE) }
        ensures after { OnOk result (self.new ≡ after_writing self.old bytes.now) }
        ensures err { OnErr result (self.new ≡ self.old) }
    {
        self.wire.reserve(MOST_POSTED)?;
        let count = self.disc.write_piece(bytes, &self.modes, &mut self.wire);
        self.disc.wrap_column();
        Ok(count)
    }

    /// Makes the change of modes that a mode word asks for. Answers whether it is a mode word; another text changes
    /// nothing.
    pub fn set(&mut self, word: &[u8]) -> Result<bool, NoMemory>
        ensures known { IfOk result (λ known. known ≡ is_some (word_of word.now)) }
        ensures after { OnOk result (self.new ≡ after_setting self.old (word_of word.now)) }
        ensures err { OnErr result (self.new ≡ self.old) }
    {
        let Ok(word) = set_word_bytes(word) else {
            return Ok(false);
        };
        let room = self.wire.held() + 1;
        self.wire.reserve(room)?;
        let mut new = self.modes;
        new.apply(word);
        self.disc.recast(&self.modes, &new);
        self.wire
            .start_where(self.modes.has(IXON) && !new.has(IXON));
        self.disc.ixoff(&new, &mut self.wire);
        self.modes = new;
        Ok(true)
    }

    /// Takes the first bytes that went to the wire into a place, as many as are there and as it holds. Answers how
    /// many.
    pub fn take_wire(&mut self, place: &mut [u8]) -> Result<usize, NoMemory>
        ensures count { IfOk result (λ count. count ≡ taken_count self.old place.old) }
        ensures place { IfOk result (λ count. place.new ≡ at_front place.old (take count (wire_of self.old))) }
        ensures after { IfOk result (λ count. self.new ≡ without_wire_front count self.old) }
        ensures err { OnErr result ((self.new ≡ self.old) × (place.new ≡ place.old)) }
    {
        let count = place.len().min(self.wire.wire().len());
        make_room(&mut self.bytes, self.alloc, count)?;
        self.wire.take_front(count, &mut self.bytes);
        put_front(place, self.bytes.as_slice());
        Ok(count)
    }

    /// Takes the first signal that was raised; `None` where there is none.
    pub fn take_signal(&mut self) -> Result<Option<Signal>, NoMemory>
        ensures signal { IfOk result (λ signal. signal ≡ first_signal self.old) }
        ensures after { OnOk result (self.new ≡ without_first_signal self.old) }
        ensures err { OnErr result (self.new ≡ self.old) }
    {
        let Some(signal) = self.tally.signals.as_slice().first().copied() else {
            return Ok(None);
        };
        make_room(&mut self.signals, self.alloc, 1)?;
        self.tally.take_signals(1, &mut self.signals);
        Ok(Some(signal))
    }

    /// How many bytes are unread: those of complete pieces, plain ones, and those of the edited line.
    pub fn unread(&self) -> usize
        ensures most { result ≤ MOST_UNREAD }
        ensures count { result ≡ unread_count self.now.port.tty }
    {
        self.disc.unread()
    }
}
