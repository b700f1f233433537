//! What every text with further items reads of a session of ports, and counts beside it.

ghost use Rattle.std.specs.Prelude.{◌≡◌, min};
ghost use Rattle.tty_base.specs.Sizes.{MOST_PORTS};
ghost use Rattle.tty_calls.specs.Sessions.{session_of};
ghost use Rattle.session_text.specs.Reading.{GivesRead};
ghost use Rattle.further_text.specs.Reading.{at_end, at_start, base_after_item, base_after_ports, base_after_step};
ghost use Rattle.further_text.specs.Reading.{base_at_end, first_base, in_open_phase, place_in, spend, with_block};
ghost use Rattle.further_text.specs.Views.{base_of};

use crate::numbers::{bad, has_count};
use session_text::{Reader, Reason, TextFault};
use std::alloc::Global;
use text_lines::FirstTwo;
use tty_base::sizes::MOST_STEPS;
use tty_calls::Session;

/// So many steps a text has at most.
/// What was read of the session of ports, and how many ports it has; and how many steps may still come.
#[derive(Drop)]
pub struct BaseReader {
    session: Reader,
    ports: u8,
    /// How many steps could still come when the open caller's block began, and how many now.
    left_at_opening: u64,
    steps_left: u64,
}

impl BaseReader {
    /// Before the first line.
    pub fn new(alloc: Global) -> BaseReader
        ensures { base_of result ≡ first_base }
    {
        BaseReader {
            session: Reader::new(alloc),
            ports: 0,
            left_at_opening: MOST_STEPS as u64,
            steps_left: MOST_STEPS as u64,
        }
    }

    /// Reads an item of the session of ports.
    pub fn read_item(
        &mut self,
        alloc: Global,
        number: u32,
        word: &[u8],
        arguments: &FirstTwo,
    ) -> Result<(), TextFault>
        ensures { GivesRead (λ _. base_of self.new) result
            (base_after_item (base_of self.old) number word.now arguments.now) }
    {
        self.session.read_item(alloc, number, word, arguments)
    }

    /// Reads the item that says how many ports there are.
    pub fn read_ports(
        &mut self,
        alloc: Global,
        number: u32,
        word: &[u8],
        arguments: &FirstTwo,
    ) -> Result<(), TextFault>
        ensures { GivesRead (λ _. base_of self.new) result
            (base_after_ports (base_of self.old) number word.now arguments.now) }
    {
        if !has_count(arguments, 1) {
            return self.read_item(alloc, number, word, arguments);
        }
        let ports = ports_of(arguments.whole().first_number());
        self.read_item(alloc, number, word, arguments)?;
        self.ports = ports;
        Ok(())
    }

    /// Reads an item of the session that is a step.
    pub fn read_step(
        &mut self,
        alloc: Global,
        number: u32,
        word: &[u8],
        arguments: &FirstTwo,
    ) -> Result<(), TextFault>
        ensures { GivesRead (λ _. base_of self.new) result
            (base_after_step (base_of self.old) number word.now arguments.now) }
    {
        self.read_item(alloc, number, word, arguments)?;
        self.spend(number)
    }

    /// Counts a step.
    pub fn spend(&mut self, number: u32) -> Result<(), TextFault>
        ensures { GivesRead (λ _. base_of self.new) result (spend number (base_of self.old)) }
    {
        if self.steps_left == 0 {
            return Err(bad(number, Reason::Limit));
        }
        self.steps_left -= 1;
        Ok(())
    }

    /// A caller's block begins.
    pub fn open_block(&mut self)
        ensures { base_of self.new ≡ with_block (base_of self.old) }
    {
        self.left_at_opening = self.steps_left;
    }

    /// How many calls the open caller's block has.
    pub fn place(&self) -> u64
        ensures { result ≡ place_in (base_of self.now) }
    {
        self.left_at_opening.saturating_sub(self.steps_left)
    }

    /// How many ports there are, 8 at most; 0 before that is said.
    pub fn ports(&self) -> u8
        ensures { result ≡ (base_of self.now).ports }
    {
        self.ports
    }

    /// Whether nothing was read.
    pub fn is_at_start(&self) -> bool
        ensures { result ≡ at_start (base_of self.now) }
    {
        self.session.is_at_start()
    }

    /// Whether a phase is open.
    pub fn is_in_phase(&self) -> bool
        ensures { result ≡ in_open_phase (base_of self.now) }
    {
        self.session.is_in_phase()
    }

    /// Whether the session is over.
    pub fn is_ended(&self) -> bool
        ensures { result ≡ at_end (base_of self.now) }
    {
        self.session.is_ended()
    }

    /// The session of ports, where the text ends before the line with this number.
    pub fn finish(self, number: u32) -> Result<Session, TextFault>
        ensures { GivesRead session_of result (base_at_end (base_of self) number) }
    {
        let BaseReader {
            session,
            ports: _,
            left_at_opening: _,
            steps_left: _,
        } = self;
        session.finish(number)
    }
}

// There are 8 ports at most.
fn ports_of(number: u64) -> u8
    ensures { result ≡ min number MOST_PORTS }
{
    if number < 8 { number as u8 } else { 8 }
}
