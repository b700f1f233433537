//! Reads a text line by line, each item judged where the reader stands, into its session or its first wrong line.

ghost use Rattle.std.specs.Prelude.{◌≡◌, ◌<◌, ◌⊎◌, Some, IfOk, OnOk, IsTrue, length};
ghost use Rattle.session_text.specs.Fronts.{front_from, front_in};
ghost use Rattle.session_text.specs.Kinds.{modes_in};
ghost use Rattle.session_text.specs.Refusals.{refusal, lines_in};
ghost use Rattle.session_text.specs.Grammar.{Spells};
ghost use Rattle.tty_calls.specs.Sessions.{session_of as session_view};
ghost use Rattle.text_lines.specs.Lines.{words_of};
ghost use Rattle.session_text.specs.Reading.{GivesRead, first_reading, reading_with, reading_after_line};
ghost use Rattle.session_text.specs.Reading.{reading_after_item, session_at_end, session_from, session_in};
ghost use Rattle.session_text.specs.Stands.{verdict_on, is_start, in_phase, is_ended, is_good};
ghost use Rattle.session_text.specs.Views.{stand_of, reading_of, reading_at};

use super::calls::{modes_into, no_modes};
use super::drafts::Draft;
use super::faults::{BadLine, Reason, TextFault};
use super::stands::{ItemPlace, Stand, in_phase};
use super::verbs::Verb;
use std::alloc::Global;
use text_lines::{Arguments, FirstTwo, is_comment, split_line, split_word};
use tty_base::NoMemory;
use tty_calls::Session;
use tty_modes::Word;

/// Where the reader of a text stands, and what it has read.
#[derive(Drop)]
pub struct Reader {
    stand: Stand,
    draft: Draft,
    /// The mode words of the last line of more than two arguments. Their room is used again.
    modes: Vec<Word>,
}

impl Reader {
    /// Before the first line.
    pub fn new(alloc: Global) -> Reader
        ensures { reading_of result ≡ first_reading }
    {
        Reader {
            stand: Stand::new(alloc),
            draft: Draft::new(alloc),
            modes: Vec::new(alloc),
        }
    }

    /// Reads the line with this number.
    pub fn read_line(&mut self, alloc: Global, number: u32, line: &[u8]) -> Result<(), TextFault>
        ensures { GivesRead (λ _. reading_of self.new) result
            (reading_after_line (reading_of self.old) number (words_of line.now)) }
    {
        match split_word(line) {
            None => Ok(()),
            Some((word, behind)) => {
                if is_comment(word) {
                    return Ok(());
                }
                self.read_item(alloc, number, word, &FirstTwo::of(behind))
            }
        }
    }

    /// Reads an item of the line with this number: its first word, and what follows it.
    #[inline(always)]
    pub fn read_item(
        &mut self,
        alloc: Global,
        number: u32,
        word: &[u8],
        arguments: &FirstTwo,
    ) -> Result<(), TextFault>
        ensures { GivesRead (λ _. reading_of self.new) result
            (reading_after_item (reading_of self.old) number arguments.now
            (verdict_on (stand_of self.old.stand) word.now arguments.now)) }
    {
        if arguments.are_all() {
            let modes = no_modes(arguments);
            let (stand, draft) = (&mut self.stand, &mut self.draft);
            read_by(alloc, stand, draft, number, word, &arguments.whole(), modes)
        } else {
            self.read_longer(alloc, number, word, arguments)
        }
    }

    /// Reads an item of more than two arguments.
    #[inline(always)]
    fn read_longer(
        &mut self,
        alloc: Global,
        number: u32,
        word: &[u8],
        arguments: &FirstTwo,
    ) -> Result<(), TextFault>
        requires { 2 < length arguments.now }
        ensures { GivesRead (λ _. reading_of self.new) result
            (reading_after_item (reading_of self.old) number arguments.now
            (verdict_on (stand_of self.old.stand) word.now arguments.now)) }
    {
        let count = modes_into(&mut self.modes, arguments)?;
        let arguments = arguments.counted(count);
        let modes = self.modes.as_slice();
        let (stand, draft) = (&mut self.stand, &mut self.draft);
        read_by(alloc, stand, draft, number, word, &arguments, modes)
    }

    /// Whether no item was read yet.
    pub fn is_at_start(&self) -> bool
        ensures { result ≡ is_start self.now.stand.place }
    {
        matches!(self.stand.place(), ItemPlace::Start)
    }

    /// Whether a phase is open.
    pub fn is_in_phase(&self) -> bool
        ensures { result ≡ in_phase self.now.stand.place }
    {
        in_phase(self.stand.place())
    }

    /// Whether the session is over.
    pub fn is_ended(&self) -> bool
        ensures { result ≡ is_ended self.now.stand.place }
    {
        matches!(self.stand.place(), ItemPlace::Ended)
    }

    /// The session, where the text ends before the line with this number.
    pub fn finish(mut self, number: u32) -> Result<Session, TextFault>
        ensures { GivesRead session_view result (session_at_end (reading_of self) number) }
    {
        self.end(number)
    }

    /// Takes the session out, where the text ends before the line with this number.
    fn end(&mut self, number: u32) -> Result<Session, TextFault>
        ensures { GivesRead session_view result (session_at_end (reading_of self.old) number) }
    {
        if !self.is_ended() {
            return Err(TextFault::Bad(BadLine {
                line: number,
                reason: Reason::Order,
            }));
        }
        Ok(self.draft.finish(&self.stand)?)
    }

    /// Reads a text from its first line on.
    fn read_lines(&mut self, alloc: Global, text: &[u8]) -> Result<Session, TextFault>
        ensures { GivesRead session_view result (session_from (reading_of self.old) 1 (lines_in text.now)) }
    {
        let mut rest = text;
        let mut number = 1u32;
        while let Some((line, after)) = split_line(rest) {
            self.read_line(alloc, number, line)?;
            rest = after;
            number = number.saturating_add(1);
        }
        self.end(number)
    }

    /// Reads a text from its first line on, up to the session's end.
    fn read_front<'a>(
        &mut self,
        alloc: Global,
        text: &'a [u8],
    ) -> Result<(Session, u32, &'a [u8]), TextFault>
        ensures { GivesRead
            (λ front. record { session = session_view front.0; line = front.1; rest = lines_in front.2.now }) result
            (front_from (reading_of self.old) 1 (lines_in text.now)) }
    {
        let mut rest = text;
        let mut number = 1u32;
        while !self.is_ended() {
            match split_line(rest) {
                None => {
                    return Err(TextFault::Bad(BadLine {
                        line: number,
                        reason: Reason::Order,
                    }));
                }
                Some((line, after)) => {
                    self.read_line(alloc, number, line)?;
                    rest = after;
                    number = number.saturating_add(1);
                }
            }
        }
        Ok((self.end(number)?, number, rest))
    }
}

/// Reads an item that has these mode words. It stands twice where items are read, so that the way
/// of those that have none carries none.
#[inline(always)]
fn read_by(
    alloc: Global,
    stand: &mut Stand,
    draft: &mut Draft,
    number: u32,
    word: &[u8],
    arguments: &Arguments,
    modes: &[Word],
) -> Result<(), TextFault>
    requires { modes.now ≡ modes_in arguments.now }
    ensures { GivesRead (λ _. reading_at stand.new draft.new) result
        (reading_after_item (reading_at stand.old draft.old) number arguments.now
        (verdict_on (stand_of stand.old) word.now arguments.now)) }
{
    match stand.judge(word, arguments, modes.len()) {
        Ok(verb) => Ok(take_item(alloc, stand, draft, verb, arguments, modes)?),
        Err(reason) => Err(TextFault::Bad(BadLine {
            line: number,
            reason,
        })),
    }
}

/// Reads an item that is not wrong, and that has these mode words. Most are calls: these are taken
/// here, and the others apart.
#[inline(always)]
fn take_item(
    alloc: Global,
    stand: &mut Stand,
    draft: &mut Draft,
    verb: Verb,
    arguments: &Arguments,
    modes: &[Word],
) -> Result<(), NoMemory>
    requires good { IsTrue (is_good stand.old.ports verb arguments.now) }
    requires modes { modes.now ≡ modes_in arguments.now }
    ensures { OnOk result
        (reading_at stand.new draft.new ≡ reading_with (reading_at stand.old draft.old) verb arguments.now) }
{
    match verb {
        Verb::Call(call) => take_any(alloc, stand, draft, Verb::Call(call), arguments, modes),
        _ => take_apart(alloc, stand, draft, verb, arguments, modes),
    }
}

#[inline(never)]
fn take_apart(
    alloc: Global,
    stand: &mut Stand,
    draft: &mut Draft,
    verb: Verb,
    arguments: &Arguments,
    modes: &[Word],
) -> Result<(), NoMemory>
    requires good { IsTrue (is_good stand.old.ports verb arguments.now) }
    requires modes { modes.now ≡ modes_in arguments.now }
    ensures { OnOk result
        (reading_at stand.new draft.new ≡ reading_with (reading_at stand.old draft.old) verb arguments.now) }
{
    take_any(alloc, stand, draft, verb, arguments, modes)
}

#[inline(always)]
fn take_any(
    alloc: Global,
    stand: &mut Stand,
    draft: &mut Draft,
    verb: Verb,
    arguments: &Arguments,
    modes: &[Word],
) -> Result<(), NoMemory>
    requires good { IsTrue (is_good stand.old.ports verb arguments.now) }
    requires modes { modes.now ≡ modes_in arguments.now }
    ensures { OnOk result
        (reading_at stand.new draft.new ≡ reading_with (reading_at stand.old draft.old) verb arguments.now) }
{
    draft.add(alloc, stand, verb, arguments, modes)?;
    stand.take(alloc, verb, arguments)
}

/// The session that a text spells. `Bad` comes exactly where it spells none, and names its first wrong
/// line, counted from 1 and as far as 32 bits count, and why that line is wrong.
pub fn parse(alloc: Global, text: &[u8]) -> Result<Session, TextFault>
    ensures ok { IfOk result (λ session. Spells text.now (session_view session)) }
    ensures bad { (line : BadLine) → result ≡ Err (TextFault.Bad line) → refusal text.now ≡ Some line }
    ensures refused { (line : BadLine)
        → refusal text.now ≡ Some line
        → (result ≡ Err (TextFault.Bad line)) ⊎ (result ≡ Err TextFault.NoMemory) }
{
    read_session(alloc, text)
}

fn read_session(alloc: Global, text: &[u8]) -> Result<Session, TextFault>
    ensures { GivesRead session_view result (session_in text.now) }
{
    let mut reader = Reader::new(alloc);
    reader.read_lines(alloc, text)
}

/// The session that the front of a text spells, up to its `end`; the number of the line after that, and what follows.
pub fn parse_front(alloc: Global, text: &[u8]) -> Result<(Session, u32, &[u8]), TextFault>
    ensures { GivesRead (λ front. record {
      session = session_view front.0;
      line = front.1;
      rest = lines_in front.2.now;
    }) result (front_in text.now) }
{
    let mut reader = Reader::new(alloc);
    reader.read_front(alloc, text)
}
