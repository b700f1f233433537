//! An entry as its line says it, with its characters apart, and how it is added to a journal.

ghost use Rattle.std.specs.Prelude.{◌≡◌, [], ◌∷◌, ◌++◌, OnOk, length};
ghost use Rattle.tty_calls.specs.Plain.{bytes_by, chars_in, entry_of, event_of};
ghost use Rattle.check_text.specs.Views.{entry_with, event_with};

use tty_base::{Flagged, NoMemory};
use tty_calls::{Answer, AnswerRef, Entry, Event, Journal, Who};

/// What the line of an entry says. The characters that it hands over or drops stand apart from it, in a
/// list that is used again for the next line.
#[derive(Drop)]
pub(crate) enum ReadEvent {
    Answer(Answer),
    Part(u32),
    Wait,
    Flush,
    Tick,
    LineEnd(u64),
    ClockEnd,
    CallerEnd,
    PhaseEnd,
    Hangup,
}

/// The entry that a line writes.
#[derive(Drop)]
pub(crate) struct ReadEntry {
    pub(crate) who: Who,
    pub(crate) step: u32,
    pub(crate) part: u32,
    pub(crate) generation: u32,
    pub(crate) event: ReadEvent,
}

impl ReadEntry {
    /// The entry with its characters, lent.
    pub(crate) fn lent<'a>(&'a self, characters: &'a [Flagged]) -> Entry<'a>
        ensures { entry_of result ≡ entry_with characters.now self.now }
    {
        Entry {
            who: self.who,
            step: self.step,
            part: self.part,
            generation: self.generation,
            event: self.event.lent(characters),
        }
    }
}

impl ReadEvent {
    fn lent<'a>(&'a self, characters: &'a [Flagged]) -> Event<'a>
        ensures { event_of result ≡ event_with characters.now self.now }
    {
        match self {
            ReadEvent::Answer(answer) => Event::Answer {
                answer: answer.lent(),
                dropped: characters,
            },
            ReadEvent::Part(taken) => Event::Part(*taken),
            ReadEvent::Wait => Event::Wait,
            ReadEvent::Flush => Event::Flush(characters),
            ReadEvent::Tick => Event::Tick,
            ReadEvent::LineEnd(sent) => Event::LineEnd(*sent),
            ReadEvent::ClockEnd => Event::ClockEnd,
            ReadEvent::CallerEnd => Event::CallerEnd,
            ReadEvent::PhaseEnd => Event::PhaseEnd,
            ReadEvent::Hangup => Event::Hangup(characters),
        }
    }
}

/// Adds an entry to a journal.
pub(crate) fn add_entry(journal: &mut Journal, entry: &Entry) -> Result<(), NoMemory>
    ensures { OnOk result (journal.new.items ≡ journal.old.items ++ entry_of entry.now ∷ []) }
{
    let bytes = byte_count(&entry.event);
    let characters = character_count(&entry.event);
    journal.reserve(bytes, characters)?;
    journal.add(entry);
    Ok(())
}

/// How many bytes an event gives.
fn byte_count(event: &Event) -> usize
    ensures { result ≡ length (bytes_by (event_of event.now)) }
{
    match event {
        Event::Answer {
            answer: AnswerRef::Got(bytes),
            ..
        } => bytes.len(),
        _ => 0,
    }
}

/// How many characters an event takes out of the flip buffer.
fn character_count(event: &Event) -> usize
    ensures { result ≡ length (chars_in (event_of event.now)) }
{
    match event {
        Event::Answer { dropped, .. } => dropped.len(),
        Event::Flush(characters) | Event::Hangup(characters) => characters.len(),
        _ => 0,
    }
}
