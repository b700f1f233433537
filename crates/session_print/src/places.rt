//! Places of entries in a journal, by caller and step.

ghost use Rattle.std.specs.Prelude.{◌≡◌, ℕ, ◌<◌, OnOk, if◌then◌else◌, ◌==◌, slice_index};
ghost use Rattle.std.specs.Option.{option_map};
ghost use Rattle.tty_calls.specs.Plain.{entry_of};
ghost use Rattle.session_print.specs.Printing.{same_turn, stretch_of, stretches_of, place_at};
ghost use Rattle.session_print.specs.Sizes.{STEPS};
ghost use Rattle.session_print.specs.Printing.{place_on as place_by_row, place_in, entry_at as entry_by_place};

use std::alloc::{AllocError, Global};
use tty_calls::{Entry, Journal};

/// How many steps a stretch has.
const STEPS: usize = 64;

/// A step of a caller: the caller's number, and the number of the step.
#[derive(Clone, Copy)]
pub(crate) struct Turn {
    pub(crate) caller: usize,
    pub(crate) step: usize,
}

/// The entry at a place of a journal. A place is how many entries there are up to it, with its own; at 0 there is none.
#[inline(always)]
pub(crate) fn entry_at(journal: &Journal, place: usize) -> Option<Entry<'_>>
    ensures { option_map entry_of result ≡ entry_by_place journal.now.items place }
{
    if place == 0 {
        return None;
    }
    journal.get(place - 1)
}

/// Places in a journal: for each caller a row of stretches. Of a run these are no more than its session has calls. A
/// stretch takes 32 bytes, and only where callers mix four more for each of its steps.
#[derive(Drop)]
pub(crate) struct Places {
    rows: Vec<Vec<Stretch>>,
}

/// The places of some steps of a caller. Those of the first `count` stand one behind the other, from
/// `first` on. A place in the list, where it is not 0, stands over these.
#[derive(Drop)]
struct Stretch {
    first: u32,
    count: u32,
    list: Vec<u32>,
}

impl Places {
    /// No places.
    pub(crate) fn new(alloc: Global) -> Places
        ensures { (c step : ℕ) → place_in result c step ≡ 0 }
    {
        Places {
            rows: Vec::new(alloc),
        }
    }

    /// The place of a turn.
    #[inline(always)]
    pub(crate) fn get(&self, turn: Turn) -> usize
        ensures { result ≡ place_in self.now turn.caller turn.step }
    {
        match self.rows.get(turn.caller) {
            Some(row) => place_on(row.as_slice(), turn.step),
            None => 0,
        }
    }

    /// Notes the place of a turn in place of an earlier one.
    #[inline(always)]
    pub(crate) fn note(&mut self, alloc: Global, turn: Turn, place: u32) -> Result<(), AllocError>
        requires { 0 < place }
        ensures { OnOk result ((c step : ℕ)
            → place_in self.new c step
            ≡ if same_turn turn (record { caller = c; step = step }) then place else place_in self.old c step) }
    {
        while self.rows.len() <= turn.caller {
            self.rows.push(Vec::new(alloc))?;
        }
        note_on(alloc, &mut self.rows[turn.caller], turn.step, place)
    }
}

/// The place at a step of a row.
#[inline(always)]
fn place_on(row: &[Stretch], step: usize) -> usize
    ensures { result ≡ place_by_row (stretches_of row.now) step }
{
    match row.get(step / STEPS) {
        Some(stretch) => stretch.get(step % STEPS),
        None => 0,
    }
}

/// Notes the place of a step in a row, which is made longer where it is too short.
#[inline(always)]
fn note_on(alloc: Global, row: &mut Vec<Stretch>, step: usize, place: u32) -> Result<(), AllocError>
    requires { 0 < place }
    ensures { OnOk result ((at : ℕ)
        → place_by_row (stretches_of row.new.items) at
        ≡ if step == at then place else place_by_row (stretches_of row.old.items) at) }
{
    while row.len() <= step / STEPS {
        row.push(Stretch {
            first: place,
            count: 0,
            list: Vec::new(alloc),
        })?;
    }
    row[step / STEPS].note(step % STEPS, place)
}

impl Stretch {
    /// The place of a step.
    #[inline(always)]
    fn get(&self, step: usize) -> usize
        ensures { result ≡ place_at (stretch_of self.now) step }
    {
        let listed = self.list.get(step).copied().unwrap_or(0);
        if listed != 0 {
            return listed as usize;
        }
        if step < self.count as usize {
            return self.first as usize + step;
        }
        0
    }

    /// Notes the place of a step in place of an earlier one. The answers of a run come step by step.
    #[inline(always)]
    fn note(&mut self, step: usize, place: u32) -> Result<(), AllocError>
        requires some { 0 < place }
        requires within { step < STEPS }
        ensures { OnOk result ((at : ℕ)
            → place_at (stretch_of self.new) at ≡ if step == at then place else place_at (stretch_of self.old) at) }
    {
        let next = self.first as usize + step;
        if step == self.count as usize && place as usize == next && self.list.len() <= step {
            self.count += 1;
            return Ok(());
        }
        put_at(&mut self.list, step, place)
    }
}

/// Puts a place at its step in a list.
#[inline(always)]
fn put_at(list: &mut Vec<u32>, step: usize, place: u32) -> Result<(), AllocError>
    ensures { OnOk result
        ((at : ℕ) → slice_index list.new.items at ≡ if step == at then place else slice_index list.old.items at) }
{
    if step == list.len() && step < list.capacity() {
        list.push_reserved(place);
        return Ok(());
    }
    put_anywhere(list, step, place)
}

/// Puts a place at its step in a list, which is made longer where it is too short.
#[inline(never)]
fn put_anywhere(list: &mut Vec<u32>, step: usize, place: u32) -> Result<(), AllocError>
    ensures { OnOk result
        ((at : ℕ) → slice_index list.new.items at ≡ if step == at then place else slice_index list.old.items at) }
{
    if list.len() == 0 {
        list.reserve(STEPS)?;
    }
    while list.len() <= step {
        list.push(0)?;
    }
    list[step] = place;
    Ok(())
}
