//! What a port's line received, phase by phase.

ghost use Rattle.std.specs.Prelude.{◌≡◌, ◌+◌, ◌≤◌, ◌<◌, ◌^◌, ◌++◌, ◌∷◌, [], IsTrue, IfOk, OnOk, length, drop};
ghost use Rattle.tty_base.specs.Lines.{arrival_count};
ghost use Rattle.tty_calls.specs.Sessions.{session_of, line_on};
ghost use Rattle.tty_calls.specs.Limits.{character_count};
ghost use Rattle.legal_runs.specs.Legal.{phase_at};
ghost use Rattle.journal_check.specs.WellFormed.{IsWellFormed};
ghost use Rattle.journal_check.specs.Accounts.{is_at, kept_from};
ghost use Rattle.journal_check.specs.Receipts.{IsReceived};

use crate::turns::sum_of;
use std::alloc::Global;
use tty_base::{Chars, Flagged, LineStep, NoMemory, Overrun};
use tty_calls::Session;
use uart_line::Line;

/// The most characters that a line counts.
const MOST_COUNTED: usize = 0xffff_ffff;

/// How many characters arrive in these steps.
fn arrivals_in(steps: &[LineStep]) -> usize
    ensures { result ≡ arrival_count steps.now }
{
    let mut count = 0usize;
    for step in steps {
        match step {
            LineStep::Rx(_) | LineStep::Break => count += 1,
            _ => {}
        }
    }
    count
}

/// The steps of a port's line in a phase, written out one by one: none, where the phase has no line for the port.
fn steps_out(
    alloc: Global,
    session: &Session,
    port: usize,
    phase: usize,
) -> Result<Vec<LineStep>, NoMemory>
    requires { phase < length (session_of session.now).phases }
    ensures { IfOk result (λ steps. steps.items ≡ line_on port (phase_at (session_of session.now) phase)) }
{
    match session.phases.as_slice()[phase].lines.as_slice().get(port) {
        Some(steps) => steps.written_out(alloc),
        None => Ok(Vec::new(alloc)),
    }
}

/// How many characters arrive on a port. More than a number of 32 bits counts is want of memory.
fn arrivals_on(alloc: Global, session: &Session, port: usize) -> Result<u32, NoMemory>
    ensures { IfOk result (λ count. count ≡ character_count port (session_of session.now).phases) }
{
    let mut count = 0;
    for phase in 0..session.phases.len() {
        let steps = steps_out(alloc, session, port, phase)?;
        count = sum_of(count, arrivals_in(steps.as_slice()))?;
    }
    if count > MOST_COUNTED {
        return Err(NoMemory);
    }
    Ok(count as u32)
}

/// Whether the next overrun, if any, has this place.
fn is_next_at(overruns: &[Overrun], next: usize, place: usize) -> bool
    ensures value { result ≡ is_at (drop next overruns.now) place }
    ensures there { IsTrue result → next < length overruns.now }
{
    match overruns.get(next) {
        Some(overrun) => overrun.at as usize == place,
        None => false,
    }
}

/// Adds these characters without those at the places of the overruns, in room that was reserved. It
/// answers how many of the overruns were passed.
pub(crate) fn keep(kept: &mut Chars, chars: &[Flagged], place: usize, overruns: &[Overrun]) -> usize
    requires place { place + length chars.now < 2 ^ 64 }
    requires room { length chars.now ≤ kept.old.spare }
    ensures kept { kept.new.items ≡ kept.old.items ++ (kept_from place chars.now overruns.now).chars }
    ensures within { result ≤ length overruns.now }
    ensures rest { drop result overruns.now ≡ (kept_from place chars.now overruns.now).overruns }
    ensures spare { kept.old.spare ≤ kept.new.spare + length chars.now }
{
    let mut next = 0;
    for (offset, c) in chars.iter().enumerate() {
        if is_next_at(overruns, next, place + offset) {
            next += 1;
        } else {
            kept.add(*c);
        }
    }
    next
}

/// What a port's line comes to, by its steps and its overruns.
#[derive(Drop)]
pub(crate) struct Received {
    /// The characters that it received and that are no overruns.
    pub(crate) kept: Chars,
    /// How many characters it had received at the end of each phase, and how many of these are no
    /// overruns.
    pub(crate) ends: Vec<usize>,
    pub(crate) sents: Vec<usize>,
    pub(crate) arrived: u32,
    pub(crate) fifo_lost: u32,
}

/// What a port's line received and lost, and which characters its overruns leave of it.
pub(crate) fn received_on(
    alloc: Global,
    session: &Session,
    port: usize,
    overruns: &[Overrun],
) -> Result<Received, NoMemory>
    requires { IsWellFormed (session_of session.now) }
    ensures { IfOk result (λ received. IsReceived port (session_of session.now) overruns.now received) }
{
    let most = arrivals_on(alloc, session, port)?;
    let mut line = Line::new(alloc, most)?;
    let mut chars = Chars::new(alloc);
    chars.reserve(most as usize)?;
    let mut received = Received {
        kept: Chars::new(alloc),
        ends: Vec::new(alloc),
        sents: Vec::new(alloc),
        arrived: 0,
        fifo_lost: 0,
    };
    let mut next = 0;
    for phase in 0..session.phases.len() {
        let place = chars.len();
        let steps = steps_out(alloc, session, port, phase)?;
        line.run_into(steps.as_slice(), &mut chars);
        let left = overruns_from(overruns, next);
        next += keep_phase(&mut received, chars.as_slice(), place, left)?;
    }
    received.arrived = line.report().arrived;
    received.fifo_lost = line.report().fifo_lost;
    Ok(received)
}

/// The overruns from this one on.
fn overruns_from(overruns: &[Overrun], next: usize) -> &[Overrun]
    requires { next ≤ length overruns.now }
    ensures { result.now ≡ drop next overruns.now }
{
    &overruns[next..]
}

/// Keeps what a phase received, from this place on. It answers how many of the overruns were passed.
fn keep_phase(
    received: &mut Received,
    chars: &[Flagged],
    place: usize,
    overruns: &[Overrun],
) -> Result<usize, NoMemory>
    requires place { place ≤ length chars.now }
    ensures kept { OnOk result (received.new.kept.items
        ≡ received.old.kept.items ++ (kept_from place (drop place chars.now) overruns.now).chars) }
    ensures within { IfOk result (λ passed. passed ≤ length overruns.now) }
    ensures rest { IfOk result
        (λ passed. drop passed overruns.now ≡ (kept_from place (drop place chars.now) overruns.now).overruns) }
    ensures ends { OnOk result (received.new.ends.items ≡ received.old.ends.items ++ length chars.now ∷ []) }
    ensures sents { OnOk result
        (received.new.sents.items ≡ received.old.sents.items ++ length received.new.kept.items ∷ []) }
{
    let new = &chars[place..];
    received.kept.reserve(new.len())?;
    let passed = keep(&mut received.kept, new, place, overruns);
    received.ends.push(chars.len())?;
    received.sents.push(received.kept.len())?;
    Ok(passed)
}
