//! Reads a text line by line.

ghost use Rattle.std.specs.Prelude.{◌≡◌, ◌==◌, OnOk, count_by};
ghost use Rattle.text_lines.specs.Lines.{words_of};
ghost use Rattle.session_text.specs.Reading.{GivesRead};
ghost use Rattle.session_text.specs.Stands.{holds};
ghost use Rattle.further_text.specs.Reading.{spend};
ghost use Rattle.further_text.specs.Sorts.{sort_of};
ghost use Rattle.modem_text.specs.Sessions.{modem_session_of};
ghost use Rattle.modem_text.specs.Reading.{after_item, after_line, after_opening, after_own};
ghost use Rattle.modem_text.specs.Reading.{after_session_item, after_shared, first_modem_reading, is_taken};
ghost use Rattle.modem_text.specs.Reading.{may_stand, modem_at_end, modem_in, port_of, with_base};
ghost use Rattle.modem_text.specs.Reading.{with_caller, with_item, with_own, with_phase_closed, with_pin};
ghost use Rattle.modem_text.specs.Views.{modem_reading_of};

use crate::items::{ModemItem, OwnCall, item_of};
use crate::sessions::{ModemPart, ModemSession, PinItem};
use crate::verbs::{ModemVerb, verb_of};
use further_text::{BaseReader, Sort, bad, has_count, sort_of};
use passed_calls::PlacedCall;
use session_text::{Reason, TextFault};
use std::alloc::Global;
use std::mem;
use text_lines::{FirstTwo, is_comment, split_line, split_word};
use tty_base::{Buffer, NoMemory};
use tty_modes::is_same;

/// So many callers a port has at most in a phase, beside the one that hangs it up.
const CALLERS: usize = 15;

/// Which block is open.
#[derive(Clone, Copy)]
pub(crate) enum Block {
    Caller,
    /// The modem block of this port.
    Modem(u8),
    /// Another, or none.
    Another,
}

/// What was read of a text.
#[derive(Drop)]
pub(crate) struct ModemReader {
    base: BaseReader,
    block: Block,
    /// The ports of the modem blocks, and of the callers' blocks, of the open phase.
    modems: Buffer<u64>,
    callers: Buffer<u64>,
    /// The items of the modem blocks, and the calls of modem lines, of the open phase.
    pins: Buffer<PinItem>,
    own: Buffer<PlacedCall<OwnCall>>,
    /// The phases before the open one.
    parts: Buffer<ModemPart>,
}

impl ModemReader {
    /// Before the first line.
    fn new(alloc: Global) -> ModemReader
        ensures { modem_reading_of result ≡ first_modem_reading }
    {
        ModemReader {
            base: BaseReader::new(alloc),
            block: Block::Another,
            modems: Buffer::new(alloc),
            callers: Buffer::new(alloc),
            pins: Buffer::new(alloc),
            own: Buffer::new(alloc),
            parts: Buffer::new(alloc),
        }
    }

    /// Reads the line with this number.
    fn read_line(&mut self, alloc: Global, number: u32, line: &[u8]) -> Result<(), TextFault>
        ensures { GivesRead (λ _. modem_reading_of self.new) result
            (after_line (modem_reading_of self.old) number (words_of line.now)) }
    {
        match split_word(line) {
            None => Ok(()),
            Some((word, behind)) => {
                if is_comment(word) {
                    return Ok(());
                }
                self.read_item(alloc, number, word, &FirstTwo::of(behind))
            }
        }
    }

    fn read_item(
        &mut self,
        alloc: Global,
        number: u32,
        word: &[u8],
        arguments: &FirstTwo,
    ) -> Result<(), TextFault>
        ensures { GivesRead (λ _. modem_reading_of self.new) result
            (after_item (modem_reading_of self.old) number word.now arguments.now) }
    {
        if self.base.is_at_start() {
            return self.read_by_session(alloc, number, word, arguments);
        }
        match verb_of(word) {
            None => self.read_shared(alloc, number, word, arguments),
            Some(verb) => self.read_own(number, verb, arguments),
        }
    }

    /// Reads an item of the session of ports.
    fn read_by_session(
        &mut self,
        alloc: Global,
        number: u32,
        word: &[u8],
        arguments: &FirstTwo,
    ) -> Result<(), TextFault>
        ensures { GivesRead (λ _. modem_reading_of self.new) result
            (after_session_item (modem_reading_of self.old) number word.now arguments.now) }
    {
        self.base.read_item(alloc, number, word, arguments)
    }

    /// Reads an item that may stand in the text of any session.
    fn read_shared(
        &mut self,
        alloc: Global,
        number: u32,
        word: &[u8],
        arguments: &FirstTwo,
    ) -> Result<(), TextFault>
        ensures { GivesRead (λ _. modem_reading_of self.new) result
            (after_shared (modem_reading_of self.old) number word.now arguments.now (sort_of word.now)) }
    {
        match sort_of(word) {
            Sort::Ports => self.base.read_ports(alloc, number, word, arguments),
            Sort::Caller => self.read_caller(alloc, number, word, arguments),
            Sort::Border => self.read_border(alloc, number, word, arguments),
            Sort::Inside => self.read_inside(alloc, number, word, arguments),
            Sort::Other => {
                self.read_by_session(alloc, number, word, arguments)?;
                self.block = Block::Another;
                Ok(())
            }
        }
    }

    fn read_caller(
        &mut self,
        alloc: Global,
        number: u32,
        word: &[u8],
        arguments: &FirstTwo,
    ) -> Result<(), TextFault>
        ensures { GivesRead (λ _. modem_reading_of self.new) result
            (after_shared (modem_reading_of self.old) number word.now arguments.now Sort.Caller) }
    {
        if !has_count(arguments, 2) {
            return self.read_by_session(alloc, number, word, arguments);
        }
        let words = arguments.whole();
        if self.is_taken(words.first()) {
            return Err(bad(number, Reason::Word));
        }
        self.read_opening(alloc, number, word, arguments, words.second_number())
    }

    /// Reads the item that opens the block of a caller on this port.
    fn read_opening(
        &mut self,
        alloc: Global,
        number: u32,
        word: &[u8],
        arguments: &FirstTwo,
        port: u64,
    ) -> Result<(), TextFault>
        ensures { GivesRead (λ _. modem_reading_of self.new) result
            (after_opening (modem_reading_of self.old) number word.now arguments.now port) }
    {
        self.read_by_session(alloc, number, word, arguments)?;
        self.open_caller(number, port)
    }

    /// Whether the name of a caller is that of the one that hangs ports up.
    fn is_taken(&self, name: &[u8]) -> bool
        ensures { result ≡ is_taken (modem_reading_of self.now) name.now }
    {
        self.base.is_in_phase() && is_same(name, b"carrier".as_slice())
    }

    fn open_caller(&mut self, number: u32, port: u64) -> Result<(), TextFault>
        ensures { GivesRead (λ _. modem_reading_of self.new) result (with_caller number port (modem_reading_of self.old)) }
    {
        if callers_on(self.callers.as_slice(), port) >= CALLERS {
            return Err(bad(number, Reason::Limit));
        }
        self.callers.reserve(1)?;
        self.callers.add(port);
        self.block = Block::Caller;
        self.base.open_block();
        Ok(())
    }

    /// Reads an item at which an open phase is over.
    fn read_border(
        &mut self,
        alloc: Global,
        number: u32,
        word: &[u8],
        arguments: &FirstTwo,
    ) -> Result<(), TextFault>
        ensures { GivesRead (λ _. modem_reading_of self.new) result
            (after_shared (modem_reading_of self.old) number word.now arguments.now Sort.Border) }
    {
        let is_open = self.base.is_in_phase();
        self.read_by_session(alloc, number, word, arguments)?;
        Ok(self.close_phase(alloc, is_open)?)
    }

    fn close_phase(&mut self, alloc: Global, is_open: bool) -> Result<(), NoMemory>
        ensures { OnOk result (modem_reading_of self.new ≡ with_phase_closed is_open (modem_reading_of self.old)) }
    {
        self.block = Block::Another;
        self.modems = Buffer::new(alloc);
        self.callers = Buffer::new(alloc);
        let pins = mem::replace(&mut self.pins, Buffer::new(alloc));
        let own = mem::replace(&mut self.own, Buffer::new(alloc));
        if is_open {
            self.parts.reserve(1)?;
            self.parts.add(ModemPart { pins, own });
        }
        Ok(())
    }

    /// Reads an item that stands inside a block.
    fn read_inside(
        &mut self,
        alloc: Global,
        number: u32,
        word: &[u8],
        arguments: &FirstTwo,
    ) -> Result<(), TextFault>
        ensures { GivesRead (λ _. modem_reading_of self.new) result
            (after_shared (modem_reading_of self.old) number word.now arguments.now Sort.Inside) }
    {
        if matches!(self.block, Block::Modem(_)) {
            return Err(bad(number, Reason::Order));
        }
        self.base.read_step(alloc, number, word, arguments)
    }

    /// Counts a step.
    fn spend(&mut self, number: u32) -> Result<(), TextFault>
        ensures { GivesRead (λ _. modem_reading_of self.new) result
            (with_base (modem_reading_of self.old) (spend number (modem_reading_of self.old).base)) }
    {
        self.base.spend(number)
    }

    /// Reads an item that only this text has.
    fn read_own(
        &mut self,
        number: u32,
        verb: ModemVerb,
        arguments: &FirstTwo,
    ) -> Result<(), TextFault>
        ensures { GivesRead (λ _. modem_reading_of self.new) result
            (after_own (modem_reading_of self.old) number verb arguments.now) }
    {
        if !self.may_stand(verb) {
            return Err(bad(number, Reason::Order));
        }
        match item_of(self.base.ports(), verb, arguments) {
            Err(reason) => Err(bad(number, reason)),
            Ok(item) => self.take_item(number, item),
        }
    }

    fn may_stand(&self, verb: ModemVerb) -> bool
        ensures { result ≡ may_stand (modem_reading_of self.now) verb }
    {
        match verb {
            ModemVerb::Modem => self.base.is_in_phase(),
            ModemVerb::Dcd | ModemVerb::Dsr | ModemVerb::Cts | ModemVerb::Ri => {
                matches!(self.block, Block::Modem(_))
            }
            _ => matches!(self.block, Block::Caller),
        }
    }

    fn take_item(&mut self, number: u32, item: ModemItem) -> Result<(), TextFault>
        ensures { GivesRead (λ _. modem_reading_of self.new) result (with_item (modem_reading_of self.old) number item) }
    {
        match item {
            ModemItem::Block { port } => self.open_modem(number, port),
            ModemItem::Pin(pin, up) => {
                let port = port_of(self.block);
                self.add_pin(PinItem { port, pin, up })?;
                self.spend(number)
            }
            ModemItem::Call(call) => {
                self.add_own(call)?;
                self.spend(number)
            }
        }
    }

    fn open_modem(&mut self, number: u32, port: u8) -> Result<(), TextFault>
        ensures { GivesRead (λ _. modem_reading_of self.new) result
            (with_item (modem_reading_of self.old) number (ModemItem.Block port)) }
    {
        let key = u64::from(port);
        if holds(self.modems.as_slice(), key) {
            return Err(bad(number, Reason::Order));
        }
        self.modems.reserve(1)?;
        self.modems.add(key);
        self.block = Block::Modem(port);
        Ok(())
    }

    fn add_pin(&mut self, pin: PinItem) -> Result<(), NoMemory>
        ensures { OnOk result (modem_reading_of self.new ≡ with_pin (modem_reading_of self.old) pin) }
    {
        self.pins.reserve(1)?;
        self.pins.add(pin);
        Ok(())
    }

    /// Adds a call to the last caller's block.
    fn add_own(&mut self, call: OwnCall) -> Result<(), NoMemory>
        ensures { OnOk result (modem_reading_of self.new ≡ with_own (modem_reading_of self.old) call) }
    {
        self.own.reserve(1)?;
        self.own.add(PlacedCall {
            script: self.callers.len().saturating_sub(1),
            place: self.base.place(),
            call,
        });
        Ok(())
    }

    /// The session, where the text ends before the line with this number.
    fn finish(self, number: u32) -> Result<ModemSession, TextFault>
        ensures { GivesRead modem_session_of result (modem_at_end (modem_reading_of self) number) }
    {
        let ModemReader {
            base,
            block: _,
            modems: _,
            callers: _,
            pins: _,
            own: _,
            parts,
        } = self;
        let session = base.finish(number)?;
        Ok(ModemSession { session, parts })
    }
}

fn port_of(block: Block) -> u8
    ensures { result ≡ port_of block }
{
    match block {
        Block::Modem(port) => port,
        _ => 0,
    }
}

fn holds(ports: &[u64], port: u64) -> bool
    ensures { result ≡ holds ports.now port }
{
    ports.iter().any(|other| *other == port)
}

fn callers_on(ports: &[u64], port: u64) -> usize
    ensures { result ≡ count_by (λ p. p == port) ports.now }
{
    ports.iter().filter(|other| **other == port).count()
}

/// The session that a text spells. `Bad` comes exactly where it spells none, and names its first wrong line, counted
/// from 1 and as far as 32 bits count, and why that line is wrong.
pub fn parse_modem(alloc: Global, text: &[u8]) -> Result<ModemSession, TextFault>
    ensures { GivesRead modem_session_of result (modem_in text.now) }
{
    let mut reader = ModemReader::new(alloc);
    let mut rest = text;
    let mut number = 1u32;
    while let Some((line, after)) = split_line(rest) {
        reader.read_line(alloc, number, line)?;
        rest = after;
        number = number.saturating_add(1);
    }
    reader.finish(number)
}
