//! What each line after a session writes: an entry, a heading, an overrun, the numbers of a port's line, or one
//! fixed word.

ghost use Rattle.std.specs.Prelude.{◌≡◌, List, Ok, Err, MatchResult};
ghost use Rattle.tty_base.specs.declared.characters.Flagged.{Flagged};
ghost use Rattle.tty_calls.specs.Plain.{answer_of, flushed, hung_up, parted, waited};
ghost use Rattle.tty_calls.specs.Plain.{line_ended, answered, PlainAnswer};
ghost use Rattle.text_lines.specs.Lines.{words_of};
ghost use Rattle.check_text.specs.Fields.{in_front, at_end};
ghost use Rattle.check_text.specs.Entries.{ends_in_number, maker_of as maker_named, who_of as who_named};
ghost use Rattle.check_text.specs.Entries.{who_in as read_who, call_of_entry as call_in_entry, chars_in as read_chars};
ghost use Rattle.check_text.specs.Entries.{ends_in_chars, with_dropped as read_dropped, bare_by};
ghost use Rattle.check_text.specs.Entries.{event_by as read_event_by, event_in as read_event, entry_in as read_entry};
ghost use Rattle.check_text.specs.Entries.{fixed_in as read_fixed, heading_in as read_heading};
ghost use Rattle.check_text.specs.Entries.{overrun_in as read_overrun, numbers_in as read_numbers};
ghost use Rattle.check_text.specs.Results.{ReadsAs};
ghost use Rattle.check_text.specs.Views.{callers_of, entry_with, event_with};

use super::answers::answer_in;
use super::callers::Callers;
use super::characters::read_characters;
use super::faults::LineFault;
use super::fields::{after_first, no_more, number_in, port_in, word_in};
use super::kinds::{AnswerKind, EventKind, kind_of};
use super::read_entries::{ReadEntry, ReadEvent};
use session_text::Reason;
use std::alloc::Global;
use text_lines::split_word;
use tty_base::{Chars, Overrun};
use tty_calls::{Answer, Who};

/// The entry that a line writes; its characters become these.
pub(crate) fn entry_in(
    alloc: Global,
    callers: &Callers,
    words: &[u8],
    characters: &mut Chars,
) -> Result<ReadEntry, LineFault>
    ensures { ReadsAs (entry_with characters.new.items) result
        (read_entry (callers_of callers.now) (words_of words.now)) }
{
    let (who, rest) = who_in(callers, words)?;
    let (step, rest) = number_in(rest)?;
    let (part, rest) = number_in(rest)?;
    let (generation, rest) = number_in(rest)?;
    let event = event_in(alloc, callers, who, step, rest, characters)?;
    Ok(ReadEntry {
        who,
        step,
        part,
        generation,
        event,
    })
}

fn who_in<'a>(callers: &Callers, words: &'a [u8]) -> Result<(Who, &'a [u8]), Reason>
    ensures { MatchResult result
        (λ parts.
        read_who (callers_of callers.now).names (words_of words.now) ≡ Ok (in_front (words_of parts.1.now) parts.0))
        (λ reason. read_who (callers_of callers.now).names (words_of words.now) ≡ Err reason) }
{
    let (word, rest) = word_in(words)?;
    match who_of(callers, word) {
        Some(who) => Ok((who, rest)),
        None => Err(Reason::Word),
    }
}

/// Who a word names: one of the four that are no callers, or a caller.
fn who_of(callers: &Callers, word: &[u8]) -> Option<Who>
    ensures { result ≡ who_named (callers_of callers.now).names word.now }
{
    if let Some(who) = maker_of(word) {
        return Some(who);
    }
    match callers.number(word) {
        Some(number) => Some(Who::Caller(number)),
        None => None,
    }
}

fn maker_of(word: &[u8]) -> Option<Who>
    ensures { result ≡ maker_named word.now }
{
    if word == b"*flush".as_slice() {
        Some(Who::Flusher)
    } else if word == b"*line".as_slice() {
        Some(Who::Line)
    } else if word == b"*clock".as_slice() {
        Some(Who::Clock)
    } else if word == b"*session".as_slice() {
        Some(Who::Session)
    } else {
        None
    }
}

fn event_in(
    alloc: Global,
    callers: &Callers,
    who: Who,
    step: u32,
    words: &[u8],
    characters: &mut Chars,
) -> Result<ReadEvent, LineFault>
    ensures { ReadsAs (event_with characters.new.items) result
        (read_event (callers_of callers.now) who step (words_of words.now)) }
{
    let (word, rest) = word_in(words)?;
    match kind_of(word) {
        Some(kind) => event_by(alloc, callers, who, step, kind, rest, characters),
        None => Err(LineFault::Wrong(Reason::Word)),
    }
}

fn event_by(
    alloc: Global,
    callers: &Callers,
    who: Who,
    step: u32,
    kind: EventKind,
    words: &[u8],
    characters: &mut Chars,
) -> Result<ReadEvent, LineFault>
    ensures { ReadsAs (event_with characters.new.items) result
        (read_event_by (callers_of callers.now) who step kind (words_of words.now)) }
{
    match kind {
        EventKind::Answer => answer_event(alloc, callers, who, step, words, characters),
        EventKind::Part => Ok(ReadEvent::Part(part_in(callers, who, step, words)?)),
        EventKind::Wait => {
            wait_in(callers, who, step, words)?;
            Ok(ReadEvent::Wait)
        }
        EventKind::Flush => flush_event(words, characters),
        EventKind::Hangup => hangup_event(words, characters),
        EventKind::LineEnd => Ok(ReadEvent::LineEnd(sent_in(words)?)),
        EventKind::Tick => bare_event(EventKind::Tick, words),
        EventKind::ClockEnd => bare_event(EventKind::ClockEnd, words),
        EventKind::CallerEnd => bare_event(EventKind::CallerEnd, words),
        EventKind::PhaseEnd => bare_event(EventKind::PhaseEnd, words),
    }
}

/// An event that no word follows.
fn bare_event(kind: EventKind, words: &[u8]) -> Result<ReadEvent, LineFault>
    ensures { (chars : List Flagged) → ReadsAs (event_with chars) result (at_end (bare_by kind) (words_of words.now)) }
{
    no_more(words)?;
    Ok(match kind {
        EventKind::Tick => ReadEvent::Tick,
        EventKind::ClockEnd => ReadEvent::ClockEnd,
        EventKind::CallerEnd => ReadEvent::CallerEnd,
        _ => ReadEvent::PhaseEnd,
    })
}

/// The kind of the call that an entry speaks of: its maker is a caller, whose script has the step.
fn call_of_entry(callers: &Callers, who: Who, step: u32) -> Result<AnswerKind, Reason>
    ensures { result ≡ call_in_entry (callers_of callers.now) who step }
{
    match who {
        Who::Caller(caller) => callers.kind(caller, step).ok_or(Reason::Order),
        _ => Err(Reason::Word),
    }
}

fn answer_event(
    alloc: Global,
    callers: &Callers,
    who: Who,
    step: u32,
    words: &[u8],
    dropped: &mut Chars,
) -> Result<ReadEvent, LineFault>
    ensures { ReadsAs (event_with dropped.new.items) result
        (read_event_by (callers_of callers.now) who step EventKind.Answer (words_of words.now)) }
{
    let kind = call_of_entry(callers, who, step)?;
    let (answer, rest) = answer_in(alloc, kind, words)?;
    with_dropped(answer, rest, dropped)
}

/// An answer, and the characters that were dropped beside it.
fn with_dropped(answer: Answer, words: &[u8], dropped: &mut Chars) -> Result<ReadEvent, LineFault>
    ensures { ReadsAs (event_with dropped.new.items) result (read_dropped (answer_of answer) (words_of words.now)) }
{
    dropped_in(words, dropped)?;
    Ok(ReadEvent::Answer(answer))
}

/// The characters that were dropped beside an answer.
fn dropped_in(words: &[u8], dropped: &mut Chars) -> Result<(), LineFault>
    ensures { (answer : PlainAnswer)
        → ReadsAs (λ _. answered answer dropped.new.items) result (read_dropped answer (words_of words.now)) }
{
    match split_word(words) {
        None => {
            dropped.truncate(0);
            Ok(())
        }
        Some((word, rest)) => {
            if word != b"drop".as_slice() {
                return Err(LineFault::Wrong(Reason::Word));
            }
            let rest = characters_in(rest, dropped)?;
            Ok(no_more(rest)?)
        }
    }
}

/// How many bytes a part took.
fn part_in(callers: &Callers, who: Who, step: u32, words: &[u8]) -> Result<u32, Reason>
    ensures { MatchResult result
        (λ taken.
        read_event_by (callers_of callers.now) who step EventKind.Part (words_of words.now) ≡ Ok (parted taken))
        (λ reason. read_event_by (callers_of callers.now) who step EventKind.Part (words_of words.now) ≡ Err reason) }
{
    call_of_entry(callers, who, step)?;
    let (taken, rest) = number_in(words)?;
    no_more(rest)?;
    Ok(taken)
}

fn wait_in(callers: &Callers, who: Who, step: u32, words: &[u8]) -> Result<(), Reason>
    ensures { MatchResult result
        (λ _. read_event_by (callers_of callers.now) who step EventKind.Wait (words_of words.now) ≡ Ok waited)
        (λ reason. read_event_by (callers_of callers.now) who step EventKind.Wait (words_of words.now) ≡ Err reason) }
{
    call_of_entry(callers, who, step)?;
    no_more(words)
}

/// How many characters were sent by the line's end.
fn sent_in(words: &[u8]) -> Result<u64, Reason>
    ensures { MatchResult result (λ sent. ends_in_number line_ended (words_of words.now) ≡ Ok (line_ended sent))
        (λ reason. ends_in_number line_ended (words_of words.now) ≡ Err reason) }
{
    let (sent, rest) = number_in(words)?;
    no_more(rest)?;
    Ok(u64::from(sent))
}

fn flush_event(words: &[u8], characters: &mut Chars) -> Result<ReadEvent, LineFault>
    ensures { ReadsAs (event_with characters.new.items) result (ends_in_chars flushed (words_of words.now)) }
{
    let rest = characters_in(words, characters)?;
    no_more(rest)?;
    Ok(ReadEvent::Flush)
}

fn hangup_event(words: &[u8], dropped: &mut Chars) -> Result<ReadEvent, LineFault>
    ensures { ReadsAs (event_with dropped.new.items) result (ends_in_chars hung_up (words_of words.now)) }
{
    let rest = characters_in(words, dropped)?;
    no_more(rest)?;
    Ok(ReadEvent::Hangup)
}

/// What follows the first word. The characters that it writes become these.
fn characters_in<'a>(words: &'a [u8], characters: &mut Chars) -> Result<&'a [u8], LineFault>
    ensures { ReadsAs (λ rest. in_front (words_of rest.now) characters.new.items) result
        (read_chars (words_of words.now)) }
{
    let (word, rest) = word_in(words)?;
    read_characters(word, characters)?;
    Ok(rest)
}

/// A line that is one fixed word.
pub(crate) fn fixed_in(text: &[u8], words: &[u8]) -> Result<(), Reason>
    ensures { result ≡ read_fixed text.now (words_of words.now) }
{
    no_more(after_first(text, words)?)
}

/// How many lines follow a heading: a fixed word, and the port that is due.
pub(crate) fn heading_in(text: &[u8], port: usize, words: &[u8]) -> Result<u32, Reason>
    ensures { result ≡ read_heading text.now port (words_of words.now) }
{
    let rest = after_first(text, words)?;
    let rest = port_in(port, rest)?;
    let (count, rest) = number_in(rest)?;
    no_more(rest)?;
    Ok(count)
}

/// The overrun that a line writes.
pub(crate) fn overrun_in(words: &[u8]) -> Result<Overrun, Reason>
    ensures { result ≡ read_overrun (words_of words.now) }
{
    let (at, rest) = number_in(words)?;
    let (sent, rest) = number_in(rest)?;
    let (seen, rest) = number_in(rest)?;
    no_more(rest)?;
    Ok(Overrun {
        at,
        sent: u64::from(sent),
        seen: u64::from(seen),
    })
}

/// What the line of a port did, without its overruns.
#[derive(Clone, Copy)]
pub(crate) struct LineNumbers {
    pub(crate) arrived: u32,
    pub(crate) lost: u32,
    pub(crate) sent: u32,
}

/// The numbers of a port's line.
pub(crate) fn numbers_in(port: usize, words: &[u8]) -> Result<LineNumbers, Reason>
    ensures { result ≡ read_numbers port (words_of words.now) }
{
    let rest = after_first(b"line".as_slice(), words)?;
    let rest = port_in(port, rest)?;
    let (arrived, rest) = number_in(rest)?;
    let (lost, rest) = number_in(rest)?;
    let (sent, rest) = number_in(rest)?;
    no_more(rest)?;
    Ok(LineNumbers {
        arrived,
        lost,
        sent,
    })
}
