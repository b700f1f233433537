//! A port's journal: its entries in a list.

ghost use Rattle.std.specs.Prelude.{◌≡◌, ◌<◌, ◌≤◌, Some, [], ◌∷◌, ◌++◌, OnOk, length, slice_get};
ghost use Rattle.std.specs.Option.{option_map};
ghost use Rattle.tty_calls.specs.Plain.{answer_lent, answered, bytes_by, bytes_in, chars_in, entry_of, event_of};
ghost use Rattle.tty_calls.specs.Entries.{Grows, IsSame, HasAnswer, HasEntry, HasEvent, HasPurge};
ghost use Rattle.tty_calls.specs.Entries.{answer_in, entry_in, event_in, purge_at, rare_spare};

use super::answers::AnswerRef;
use super::journals::{Entry, Event, Who};
use super::parts::{KeptList, ListPart, part_in};
use std::alloc::Global;
use std::marker::Model;
use tty_base::{Counts, Errno, Flagged, Moves, NoMemory};
use tty_modes::Modes;

/// An answer with which characters were dropped.
#[derive(Clone, Copy)]
struct KeptPurge {
    answer: KeptEvent,
    dropped: ListPart,
}

/// An event that names what stands in lists. The first eight are answers with which nothing was dropped;
/// in an enum of their own they would take four bytes more.
#[derive(Clone, Copy)]
enum KeptEvent {
    Done,
    Count(u32),
    Got(ListPart),
    Number(u32),
    ModesAre(u32),
    CountsAre(u32),
    Refused(Errno),
    Idle,
    Purge(u32),
    Part(u32),
    Wait,
    Flush(ListPart),
    Tick,
    LineEnd(u32),
    ClockEnd,
    CallerEnd,
    PhaseEnd,
    Hangup(ListPart),
}

/// An entry that names what stands in lists.
#[derive(Clone, Copy)]
struct KeptEntry {
    who: Who,
    step: u32,
    part: u32,
    generation: u32,
    event: KeptEvent,
}

/// What entries tell, in a list for each kind of it.
#[derive(Drop)]
struct Lists {
    bytes: KeptList<u8>,
    characters: KeptList<Flagged>,
    modes: KeptList<Modes>,
    counts: KeptList<Counts>,
    purges: KeptList<KeptPurge>,
    sents: KeptList<u64>,
}

/// What happened on a port, in order. An entry takes 28 bytes; the bytes, characters, modes and counts
/// that all tell stand in a list each.
#[derive(Drop)]
pub struct Journal {
    entries: KeptList<KeptEntry>,
    lists: Lists,
}

impl Model for Journal {
    ghost use Rattle.std.specs.Prelude.{All, map, min};
    ghost use Rattle.tty_calls.specs.Entries.{JournalValue, HasEntry, entry_in, rare_spare};

    ghost Value = { JournalValue };

    ghost view = { λ j. record {
      items = map (entry_in j.lists) j.entries.items;
      spare = min j.entries.spare (rare_spare j.lists);
      spare_bytes = j.lists.bytes.spare;
      spare_characters = j.lists.characters.spare;
    } };

    ghost invariant = { λ j. All (HasEntry j.lists) j.entries.items };
}

impl Moves for Journal {}

/// An answer that was kept.
#[inline(always)]
fn lent_answer<'a>(lists: &'a Lists, kept: KeptEvent) -> AnswerRef<'a>
    requires { HasAnswer lists.now kept }
    ensures { answer_lent result ≡ answer_in lists.now kept }
{
    match kept {
        KeptEvent::Count(count) => AnswerRef::Count(count),
        KeptEvent::Got(part) => AnswerRef::Got(part_in(lists.bytes.as_slice(), part)),
        KeptEvent::Number(number) => AnswerRef::Number(number),
        KeptEvent::ModesAre(place) => AnswerRef::ModesAre(lists.modes.at(place)),
        KeptEvent::CountsAre(place) => AnswerRef::CountsAre(lists.counts.at(place)),
        KeptEvent::Refused(errno) => AnswerRef::Refused(errno),
        KeptEvent::Idle => AnswerRef::Idle,
        _ => AnswerRef::Done,
    }
}

/// An answer that was kept with the characters that it dropped.
#[inline(always)]
fn lent_purge<'a>(lists: &'a Lists, place: u32) -> Event<'a>
    requires { HasPurge lists.now (slice_get lists.now.purges.items place) }
    ensures { event_of result ≡ purge_at lists.now (slice_get lists.now.purges.items place) }
{
    let purge = lists.purges.at(place);
    Event::Answer {
        answer: lent_answer(lists, purge.answer),
        dropped: part_in(lists.characters.as_slice(), purge.dropped),
    }
}

/// An event that was kept.
#[inline(always)]
fn lent_event<'a>(lists: &'a Lists, kept: KeptEvent) -> Event<'a>
    requires { HasEvent lists.now kept }
    ensures { event_of result ≡ event_in lists.now kept }
{
    match kept {
        KeptEvent::Purge(place) => lent_purge(lists, place),
        KeptEvent::Part(count) => Event::Part(count),
        KeptEvent::Wait => Event::Wait,
        KeptEvent::Flush(part) => Event::Flush(part_in(lists.characters.as_slice(), part)),
        KeptEvent::Tick => Event::Tick,
        KeptEvent::LineEnd(place) => Event::LineEnd(*lists.sents.at(place)),
        KeptEvent::ClockEnd => Event::ClockEnd,
        KeptEvent::CallerEnd => Event::CallerEnd,
        KeptEvent::PhaseEnd => Event::PhaseEnd,
        KeptEvent::Hangup(part) => Event::Hangup(part_in(lists.characters.as_slice(), part)),
        answer => Event::Answer {
            answer: lent_answer(lists, answer),
            dropped: &[],
        },
    }
}

/// An entry that was kept.
#[inline(always)]
fn lent_entry<'a>(lists: &'a Lists, kept: &KeptEntry) -> Entry<'a>
    requires { HasEntry lists.now kept.now }
    ensures { entry_of result ≡ entry_in lists.now kept.now }
{
    Entry {
        who: kept.who,
        step: kept.step,
        part: kept.part,
        generation: kept.generation,
        event: lent_event(lists, kept.event),
    }
}

/// Keeps an answer, in room that was reserved.
#[inline(always)]
fn keep_answer(lists: &mut Lists, answer: &AnswerRef) -> KeptEvent
    requires bytes { length (bytes_in (answer_lent answer.now)) ≤ lists.old.bytes.spare }
    requires rare { 0 < rare_spare lists.old }
    ensures answer { answer_in lists.new result ≡ answer_lent answer.now }
    ensures event { event_in lists.new result ≡ answered (answer_lent answer.now) [] }
    ensures there { HasAnswer lists.new result }
    ensures stands { HasEvent lists.new result }
    ensures grows { Grows lists.old lists.new }
    ensures characters { lists.new.characters ≡ lists.old.characters }
    ensures purges { lists.new.purges ≡ lists.old.purges }
{
    match *answer {
        AnswerRef::Done => KeptEvent::Done,
        AnswerRef::Count(count) => KeptEvent::Count(count),
        AnswerRef::Got(bytes) => KeptEvent::Got(lists.bytes.keep(bytes)),
        AnswerRef::Number(number) => KeptEvent::Number(number),
        AnswerRef::ModesAre(modes) => KeptEvent::ModesAre(lists.modes.add(*modes)),
        AnswerRef::CountsAre(counts) => KeptEvent::CountsAre(lists.counts.add(*counts)),
        AnswerRef::Refused(errno) => KeptEvent::Refused(errno),
        AnswerRef::Idle => KeptEvent::Idle,
    }
}

/// Keeps an answer and the characters that it dropped, in room that was reserved.
#[inline(never)]
fn keep_purge(lists: &mut Lists, answer: &AnswerRef, dropped: &[Flagged]) -> KeptEvent
    requires bytes { length (bytes_in (answer_lent answer.now)) ≤ lists.old.bytes.spare }
    requires characters { length dropped.now ≤ lists.old.characters.spare }
    requires rare { 0 < rare_spare lists.old }
    ensures event { event_in lists.new result ≡ answered (answer_lent answer.now) dropped.now }
    ensures there { HasEvent lists.new result }
    ensures grows { Grows lists.old lists.new }
{
    let answer = keep_answer(lists, answer);
    let dropped = lists.characters.keep(dropped);
    KeptEvent::Purge(lists.purges.add(KeptPurge { answer, dropped }))
}

/// Keeps an event, in room that was reserved.
#[inline(always)]
fn keep_event(lists: &mut Lists, event: &Event) -> KeptEvent
    requires bytes { length (bytes_by (event_of event.now)) ≤ lists.old.bytes.spare }
    requires characters { length (chars_in (event_of event.now)) ≤ lists.old.characters.spare }
    requires rare { 0 < rare_spare lists.old }
    ensures event { event_in lists.new result ≡ event_of event.now }
    ensures there { HasEvent lists.new result }
    ensures grows { Grows lists.old lists.new }
{
    match *event {
        Event::Answer { answer, dropped } => {
            if dropped.is_empty() {
                keep_answer(lists, &answer)
            } else {
                keep_purge(lists, &answer, dropped)
            }
        }
        Event::Part(count) => KeptEvent::Part(count),
        Event::Wait => KeptEvent::Wait,
        Event::Flush(characters) => KeptEvent::Flush(lists.characters.keep(characters)),
        Event::Tick => KeptEvent::Tick,
        Event::LineEnd(sent) => KeptEvent::LineEnd(lists.sents.add(sent)),
        Event::ClockEnd => KeptEvent::ClockEnd,
        Event::CallerEnd => KeptEvent::CallerEnd,
        Event::PhaseEnd => KeptEvent::PhaseEnd,
        Event::Hangup(dropped) => KeptEvent::Hangup(lists.characters.keep(dropped)),
    }
}

impl Journal {
    /// No entries. It takes no memory.
    pub fn new(alloc: Global) -> Journal
        ensures { result ≡ record { items = []; spare = 0; spare_bytes = 0; spare_characters = 0 } }
    {
        Journal {
            entries: KeptList::new(alloc),
            lists: Lists {
                bytes: KeptList::new(alloc),
                characters: KeptList::new(alloc),
                modes: KeptList::new(alloc),
                counts: KeptList::new(alloc),
                purges: KeptList::new(alloc),
                sents: KeptList::new(alloc),
            },
        }
    }

    /// How many entries there are.
    #[inline(always)]
    pub fn len(&self) -> usize
        ensures { result ≡ length self.now.items }
    {
        self.entries.len()
    }

    /// The entry at a place, counted from 0.
    #[inline(always)]
    pub fn get(&self, place: usize) -> Option<Entry<'_>>
        ensures { option_map entry_of result ≡ slice_get self.now.items place }
    {
        let kept = self.entries.as_slice().get(place)?;
        Some(lent_entry(&self.lists, kept))
    }

    /// The entry at a place, counted from 0, where one stands.
    #[inline(always)]
    pub fn at(&self, place: usize) -> Entry<'_>
        requires { place < length self.now.items }
        ensures { slice_get self.now.items place ≡ Some (entry_of result) }
    {
        let kept = &self.entries.as_slice()[place];
        lent_entry(&self.lists, kept)
    }

    /// Makes room for one more entry that gives at most so many bytes, and hands over or drops at most
    /// so many characters. Room grows by doubling, and where it is there nothing is done.
    #[inline(always)]
    pub fn reserve(&mut self, bytes: usize, characters: usize) -> Result<(), NoMemory>
        ensures items { self.new.items ≡ self.old.items }
        ensures entry { OnOk result (0 < self.new.spare) }
        ensures bytes { OnOk result (bytes ≤ self.new.spare_bytes) }
        ensures characters { OnOk result (characters ≤ self.new.spare_characters) }
    {
        self.entries.reserve(1)?;
        self.lists.reserve(bytes, characters)
    }

    /// Adds an entry in room that was reserved.
    #[inline(always)]
    pub fn add(&mut self, entry: &Entry)
        requires entry { 0 < self.old.spare }
        requires bytes { length (bytes_by (event_of entry.now.event)) ≤ self.old.spare_bytes }
        requires characters { length (chars_in (event_of entry.now.event)) ≤ self.old.spare_characters }
        ensures { self.new.items ≡ self.old.items ++ entry_of entry.now ∷ [] }
    {
        let event = keep_event(&mut self.lists, &entry.event);
        self.entries.add(KeptEntry {
            who: entry.who,
            step: entry.step,
            part: entry.part,
            generation: entry.generation,
            event,
        });
    }
}

impl Lists {
    /// Makes room for so many bytes and characters, and for one of what is told rarely.
    #[inline(always)]
    fn reserve(&mut self, bytes: usize, characters: usize) -> Result<(), NoMemory>
        ensures same { IsSame self.old self.new }
        ensures bytes { OnOk result (bytes ≤ self.new.bytes.spare) }
        ensures characters { OnOk result (characters ≤ self.new.characters.spare) }
        ensures rare { OnOk result (0 < rare_spare self.new) }
    {
        self.bytes.reserve(bytes)?;
        self.characters.reserve(characters)?;
        self.modes.reserve(1)?;
        self.counts.reserve(1)?;
        self.purges.reserve(1)?;
        self.sents.reserve(1)
    }
}
