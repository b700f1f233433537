//! The answers of a journal by caller and step, and its sums, from one walk over it.

ghost use Rattle.std.specs.Prelude.{◌≡◌, ℕ, IfOk, OnOk, IfSome, IsSome};
ghost use Rattle.std.specs.Option.{option_map};
ghost use Rattle.tty_calls.specs.Plain.{answer_lent, entry_of, event_of};
ghost use Rattle.session_print.specs.Report.{answer_in, answer_by, answer_of_event};
ghost use Rattle.session_print.specs.Printing.{noted_answer, answer_at, place_in, entry_answer, sums_of};

use super::places::{Places, Turn, entry_at};
use super::sums::Sums;
use std::alloc::Global;
use tty_base::NoMemory;
use tty_calls::{AnswerRef, Entry, Event, Journal, Who};

/// The answers of a journal: the journal, and for each turn the place of the entry that answers it.
#[derive(Clone, Copy)]
pub(crate) struct Answers<'a> {
    pub(crate) journal: &'a Journal,
    pub(crate) places: &'a Places,
}

impl<'a> Answers<'a> {
    /// The answer to a turn.
    #[inline(always)]
    pub(crate) fn get(&self, turn: Turn) -> Option<AnswerRef<'a>>
        ensures { option_map answer_lent result ≡ noted_answer self.now turn.caller turn.step }
    {
        let journal = self.journal;
        let entry = entry_at(journal, self.places.get(turn))?;
        answer_to(&entry.event)
    }
}

/// Notes the places of a journal's answers among none, and gives the sums of the journal. It is large, and is waited
/// for: so it is walked once for all that a report says of it. More entries than can be counted are want of memory.
pub(crate) fn walk(alloc: Global, journal: &Journal, places: &mut Places) -> Result<Sums, NoMemory>
    requires { (c step : ℕ) → place_in places.old c step ≡ 0 }
    ensures answers { OnOk result
        ((c step : ℕ) → answer_at journal.now.items (place_in places.new c step) ≡ answer_in journal.now.items c step) }
    ensures sums { IfOk result (λ sums. sums ≡ sums_of journal.now.items) }
{
    if journal.len() > u32::MAX as usize {
        return Err(NoMemory);
    }
    let mut sums = Sums {
        flushed: 0,
        dropped: 0,
    };
    for index in 0..journal.len() {
        let entry = journal.at(index);
        sums.add(&entry.event)?;
        if let Some(turn) = turn_of(&entry) {
            places.note(alloc, turn, index as u32 + 1)?;
        }
    }
    Ok(sums)
}

/// The turn that an entry answers.
#[inline(always)]
fn turn_of(entry: &Entry) -> Option<Turn>
    ensures turn { (c step : ℕ)
        → entry_answer result (entry_of entry.now) c step ≡ answer_by (entry_of entry.now) c step }
    ensures answer { IfSome result (λ turn. IsSome (answer_of_event (entry_of entry.now).event)) }
{
    let Who::Caller(caller) = entry.who else {
        return None;
    };
    answer_to(&entry.event)?;
    Some(Turn {
        caller: usize::from(caller),
        step: entry.step as usize,
    })
}

/// The answer that an event gives.
#[inline(always)]
fn answer_to<'a>(event: &Event<'a>) -> Option<AnswerRef<'a>>
    ensures { option_map answer_lent result ≡ answer_of_event (event_of event.now) }
{
    match *event {
        Event::Answer { answer, .. } => Some(answer),
        _ => None,
    }
}
