//! Reads a text line by line.

ghost use Rattle.std.specs.Prelude.{◌≡◌, None, Some, OnOk};
ghost use Rattle.text_lines.specs.Lines.{words_of};
ghost use Rattle.text_lines.specs.Values.{word_at, number_at};
ghost use Rattle.session_text.specs.Reading.{GivesRead};
ghost use Rattle.vt_text.specs.Sessions.{vt_session_of};
ghost use Rattle.vt_text.specs.Items.{IsByteAlone, first_vt_reading};
ghost use Rattle.vt_text.specs.Items.{keys_fault, operator_fault, activate_fault, state_fault};
ghost use Rattle.vt_text.specs.Items.{with_keys, with_operator, with_call, with_phase_closed};
ghost use Rattle.vt_text.specs.Reading.{after_border, after_call, after_header, after_item, after_line};
ghost use Rattle.vt_text.specs.Reading.{after_session_item, after_verb, is_header, unless, vt_at_end, vt_in};
ghost use Rattle.vt_text.specs.Views.{vt_reading_of};

use crate::items::{Block, byte_fault, is_none, is_one, once_fault, wrong_unless};
use crate::scripts::{add_call, add_operator};
use crate::sessions::{OpCall, OpScript, VtPhase, VtSession};
use crate::verbs::{VtVerb, verb_of};
use session_text::{BadLine, Reader, Reason, TextFault};
use std::alloc::Global;
use std::mem;
use text_lines::{FirstTwo, bytes_in, is_comment, is_hex, is_name, split_line, split_word};
use tty_base::sizes::{MOST_KEYS, MOST_STEPS};
use tty_base::{Buffer, Bytes, NoMemory};
use tty_modes::is_same;

/// What was read of a text.
#[derive(Drop)]
pub(crate) struct VtReader {
    session: Reader,
    block: Block,
    /// The keys and the operators of the open phase.
    keys: Bytes,
    operators: Vec<OpScript>,
    /// The phases before the open one.
    phases: Buffer<VtPhase>,
    calls_left: u64,
    keys_left: u64,
}

fn bad(line: u32, reason: Reason) -> TextFault
    ensures { result ≡ TextFault.Bad (record { line = line; reason = reason }) }
{
    TextFault::Bad(BadLine { line, reason })
}

impl VtReader {
    /// Before the first line.
    fn new(alloc: Global) -> VtReader
        ensures { vt_reading_of result ≡ first_vt_reading }
    {
        VtReader {
            session: Reader::new(alloc),
            block: Block::Neither,
            keys: Bytes::new(alloc),
            operators: Vec::new(alloc),
            phases: Buffer::new(alloc),
            calls_left: MOST_STEPS as u64,
            keys_left: MOST_KEYS as u64,
        }
    }

    /// Reads the line with this number.
    fn read_line(&mut self, alloc: Global, number: u32, line: &[u8]) -> Result<(), TextFault>
        ensures { GivesRead (λ _. vt_reading_of self.new) result
            (after_line (vt_reading_of self.old) number (words_of line.now)) }
    {
        match split_word(line) {
            None => Ok(()),
            Some((word, behind)) => {
                if is_comment(word) {
                    return Ok(());
                }
                self.read_item(alloc, number, word, &FirstTwo::of(behind))
            }
        }
    }

    fn read_item(
        &mut self,
        alloc: Global,
        number: u32,
        word: &[u8],
        arguments: &FirstTwo,
    ) -> Result<(), TextFault>
        ensures { GivesRead (λ _. vt_reading_of self.new) result
            (after_item (vt_reading_of self.old) number word.now arguments.now) }
    {
        if self.session.is_at_start() {
            return self.read_header(alloc, number, word, arguments);
        }
        match verb_of(word) {
            None => Err(bad(number, Reason::Word)),
            Some(verb) => self.read_verb(alloc, number, verb, word, arguments),
        }
    }

    /// Reads the header, which begins the reading.
    fn read_header(
        &mut self,
        alloc: Global,
        number: u32,
        word: &[u8],
        arguments: &FirstTwo,
    ) -> Result<(), TextFault>
        ensures { GivesRead (λ _. vt_reading_of self.new) result (after_header number word.now arguments.now) }
    {
        if !is_header(word, arguments) {
            return Err(bad(number, Reason::Header));
        }
        *self = VtReader::new(alloc);
        self.read_by_session(alloc, number, b"tty-session".as_slice(), arguments)
    }

    fn read_verb(
        &mut self,
        alloc: Global,
        number: u32,
        verb: VtVerb,
        word: &[u8],
        arguments: &FirstTwo,
    ) -> Result<(), TextFault>
        ensures { GivesRead (λ _. vt_reading_of self.new) result
            (after_verb (vt_reading_of self.old) number word.now arguments.now (Some verb)) }
    {
        match verb {
            VtVerb::Header => Err(bad(number, Reason::Order)),
            VtVerb::Consoles => {
                self.read_by_session(alloc, number, b"ports".as_slice(), arguments)
            }
            VtVerb::Phase | VtVerb::End => self.read_border(alloc, number, word, arguments),
            VtVerb::Caller => {
                self.read_by_session(alloc, number, word, arguments)?;
                self.block = Block::Caller;
                Ok(())
            }
            VtVerb::Call => self.read_call(alloc, number, word, arguments),
            VtVerb::Keys => self.read_keys(alloc, number, arguments),
            VtVerb::Operator => self.read_operator(alloc, number, arguments),
            VtVerb::Activate => self.read_activate(number, arguments),
            VtVerb::State => self.read_state(number, arguments),
        }
    }

    /// Reads an item of the callers' session, as if this were its first word.
    fn read_by_session(
        &mut self,
        alloc: Global,
        number: u32,
        word: &[u8],
        arguments: &FirstTwo,
    ) -> Result<(), TextFault>
        ensures { GivesRead (λ _. vt_reading_of self.new) result
            (after_session_item (vt_reading_of self.old) number word.now arguments.now) }
    {
        self.session.read_item(alloc, number, word, arguments)
    }

    /// Reads an item at which an open phase is over.
    fn read_border(
        &mut self,
        alloc: Global,
        number: u32,
        word: &[u8],
        arguments: &FirstTwo,
    ) -> Result<(), TextFault>
        ensures { GivesRead (λ _. vt_reading_of self.new) result
            (after_border (vt_reading_of self.old) number word.now arguments.now) }
    {
        let is_open = self.session.is_in_phase();
        self.read_by_session(alloc, number, word, arguments)?;
        Ok(self.close_phase(alloc, is_open)?)
    }

    fn close_phase(&mut self, alloc: Global, is_open: bool) -> Result<(), NoMemory>
        ensures { OnOk result (vt_reading_of self.new ≡ with_phase_closed is_open (vt_reading_of self.old)) }
    {
        self.block = Block::Neither;
        let keys = mem::replace(&mut self.keys, Bytes::new(alloc));
        let operators = mem::replace(&mut self.operators, Vec::new(alloc));
        if is_open {
            self.phases.reserve(1)?;
            self.phases.add(VtPhase {
                keys,
                operators: Buffer::from_vec(operators),
            });
        }
        Ok(())
    }

    /// Reads a call of a caller.
    fn read_call(
        &mut self,
        alloc: Global,
        number: u32,
        word: &[u8],
        arguments: &FirstTwo,
    ) -> Result<(), TextFault>
        ensures { GivesRead (λ _. vt_reading_of self.new) result
            (after_call (vt_reading_of self.old) number word.now arguments.now) }
    {
        if !matches!(self.block, Block::Caller) {
            return Err(bad(number, Reason::Order));
        }
        self.read_by_session(alloc, number, word, arguments)?;
        if self.calls_left == 0 {
            return Err(bad(number, Reason::Limit));
        }
        self.calls_left -= 1;
        Ok(())
    }

    fn read_keys(
        &mut self,
        alloc: Global,
        number: u32,
        arguments: &FirstTwo,
    ) -> Result<(), TextFault>
        ensures { GivesRead (λ _. vt_reading_of self.new) result
            (unless number (keys_fault (vt_reading_of self.old) arguments.now)
            (with_keys (vt_reading_of self.old) (word_at arguments.now 0))) }
    {
        match self.keys_fault(arguments) {
            Some(reason) => Err(bad(number, reason)),
            None => Ok(self.take_keys(alloc, arguments)?),
        }
    }

    fn keys_fault(&self, arguments: &FirstTwo) -> Option<Reason>
        ensures { result ≡ keys_fault (vt_reading_of self.now) arguments.now }
    {
        if !self.session.is_in_phase() {
            return Some(Reason::Order);
        }
        if !is_one(arguments) {
            return Some(Reason::Word);
        }
        let arguments = arguments.whole();
        if !is_hex(arguments.first()) {
            return Some(Reason::Hex);
        }
        wrong_unless(
            Reason::Limit,
            arguments.first().len() as u64 / 2 <= self.keys_left,
        )
    }

    fn take_keys(&mut self, alloc: Global, arguments: &FirstTwo) -> Result<(), NoMemory>
        requires { keys_fault (vt_reading_of self.old) arguments.now ≡ None }
        ensures { OnOk result (vt_reading_of self.new ≡ with_keys (vt_reading_of self.old) (word_at arguments.now 0)) }
    {
        let arguments = arguments.whole();
        let digits = arguments.first();
        let keys = bytes_in(alloc, digits)?;
        self.keys.reserve(keys.len())?;
        self.keys.append(keys.as_slice());
        self.keys_left = self.keys_left.saturating_sub(digits.len() as u64 / 2);
        self.block = Block::Neither;
        Ok(())
    }

    fn read_operator(
        &mut self,
        alloc: Global,
        number: u32,
        arguments: &FirstTwo,
    ) -> Result<(), TextFault>
        ensures { GivesRead (λ _. vt_reading_of self.new) result
            (unless number (operator_fault (vt_reading_of self.old) arguments.now)
            (with_operator (vt_reading_of self.old) (word_at arguments.now 0))) }
    {
        match self.operator_fault(arguments) {
            Some(reason) => Err(bad(number, reason)),
            None => Ok(self.take_operator(alloc, arguments)?),
        }
    }

    fn operator_fault(&self, arguments: &FirstTwo) -> Option<Reason>
        ensures { result ≡ operator_fault (vt_reading_of self.now) arguments.now }
    {
        if !self.session.is_in_phase() {
            return Some(Reason::Order);
        }
        if !is_one(arguments) || !is_name(arguments.whole().first()) {
            return Some(Reason::Word);
        }
        once_fault(self.operators.as_slice(), arguments.whole().first())
    }

    fn take_operator(&mut self, alloc: Global, arguments: &FirstTwo) -> Result<(), NoMemory>
        requires { operator_fault (vt_reading_of self.old) arguments.now ≡ None }
        ensures { OnOk result
            (vt_reading_of self.new ≡ with_operator (vt_reading_of self.old) (word_at arguments.now 0)) }
    {
        let arguments = arguments.whole();
        add_operator(alloc, &mut self.operators, arguments.first())?;
        self.block = Block::Operator;
        Ok(())
    }

    fn read_activate(&mut self, number: u32, arguments: &FirstTwo) -> Result<(), TextFault>
        ensures { GivesRead (λ _. vt_reading_of self.new) result
            (unless number (activate_fault (vt_reading_of self.old) arguments.now)
            (with_call (vt_reading_of self.old) (OpCall.Activate (number_at arguments.now 0)))) }
    {
        match self.activate_fault(arguments) {
            Some(reason) => Err(bad(number, reason)),
            None => {
                let n = console_in(arguments);
                Ok(self.take_call(OpCall::Activate(n))?)
            }
        }
    }

    fn activate_fault(&self, arguments: &FirstTwo) -> Option<Reason>
        ensures { result ≡ activate_fault (vt_reading_of self.now) arguments.now }
    {
        if !matches!(self.block, Block::Operator) {
            return Some(Reason::Order);
        }
        if !is_one(arguments) {
            return Some(Reason::Word);
        }
        match byte_fault(arguments.whole().first()) {
            Some(reason) => Some(reason),
            None => wrong_unless(Reason::Limit, self.calls_left > 0),
        }
    }

    fn read_state(&mut self, number: u32, arguments: &FirstTwo) -> Result<(), TextFault>
        ensures { GivesRead (λ _. vt_reading_of self.new) result
            (unless number (state_fault (vt_reading_of self.old) arguments.now)
            (with_call (vt_reading_of self.old) OpCall.State)) }
    {
        match self.state_fault(arguments) {
            Some(reason) => Err(bad(number, reason)),
            None => Ok(self.take_call(OpCall::State)?),
        }
    }

    fn state_fault(&self, arguments: &FirstTwo) -> Option<Reason>
        ensures { result ≡ state_fault (vt_reading_of self.now) arguments.now }
    {
        if !matches!(self.block, Block::Operator) {
            return Some(Reason::Order);
        }
        if !is_none(arguments) {
            return Some(Reason::Word);
        }
        wrong_unless(Reason::Limit, self.calls_left > 0)
    }

    /// Adds a call of the open operator.
    fn take_call(&mut self, call: OpCall) -> Result<(), NoMemory>
        ensures { OnOk result (vt_reading_of self.new ≡ with_call (vt_reading_of self.old) call) }
    {
        add_call(self.operators.as_mut_slice(), call)?;
        self.calls_left = self.calls_left.saturating_sub(1);
        Ok(())
    }

    /// The session of consoles, where the text ends before the line with this number.
    fn finish(self, number: u32) -> Result<VtSession, TextFault>
        ensures { GivesRead vt_session_of result (vt_at_end (vt_reading_of self) number) }
    {
        let VtReader {
            session,
            block: _,
            keys: _,
            operators: _,
            phases,
            calls_left: _,
            keys_left: _,
        } = self;
        let calls = session.finish(number)?;
        Ok(VtSession { calls, phases })
    }
}

/// Whether an item is `vt-session 1`.
fn is_header(word: &[u8], arguments: &FirstTwo) -> bool
    ensures { result ≡ is_header word.now arguments.now }
{
    is_same(word, b"vt-session".as_slice())
        && is_one(arguments)
        && is_same(arguments.whole().first(), b"1".as_slice())
}

/// The number of the console that is the only argument.
fn console_in(arguments: &FirstTwo) -> u8
    requires { IsByteAlone arguments.now }
    ensures { result ≡ number_at arguments.now 0 }
{
    arguments.whole().first_number() as u8
}

/// The session of consoles that a text spells. `Bad` comes exactly where it spells none, and names its first wrong
/// line, counted from 1 and as far as 32 bits count, and why that line is wrong.
pub fn parse_vt(alloc: Global, text: &[u8]) -> Result<VtSession, TextFault>
    ensures { GivesRead vt_session_of result (vt_in text.now) }
{
    let mut reader = VtReader::new(alloc);
    let mut rest = text;
    let mut number = 1u32;
    while let Some((line, after)) = split_line(rest) {
        reader.read_line(alloc, number, line)?;
        rest = after;
        number = number.saturating_add(1);
    }
    reader.finish(number)
}
