//! An entry tried on the terminal, by its kind and by who made it.

ghost use Rattle.std.specs.Prelude.{◌≡◌, ◌↔◌, ℕ, Option, Some, true, false, ◌+◌};
ghost use Rattle.std.specs.Prelude.{◌≤◌, ◌<◌, ◌^◌, IsTrue, IfOk, OnOk, length};
ghost use Rattle.tty_base.specs.Sizes.{COLUMNS_OF_ENTRY, COLUMNS_OF_PIECE};
ghost use Rattle.tty_calls.specs.declared.journals.Who.TheVariants as who;
ghost use Rattle.tty_calls.specs.Plain.{PlainCall, call_of, event_of};
ghost use Rattle.tty_calls.specs.Sessions.{session_of, scripts_over, names_of, call_at};
ghost use Rattle.tty_calls.specs.Limits.{byte_count};
ghost use Rattle.ldisc_switch.specs.Disciplines.{column_in};
ghost use Rattle.tty_terminal.specs.Receiving.{after_characters};
ghost use Rattle.tty_terminal.specs.Steps.{IsFlush, IsNext, IsTick, IsLineEnd, IsCallerEnd};
ghost use Rattle.tty_terminal.specs.Steps.{IsPhaseEnd, IsHangup, ByCaller, by_caller, IsAllowed};
ghost use Rattle.tty_terminal.specs.Steps.{after_event, after_caller_end, next_phase, with_dropped};
ghost use Rattle.tty_terminal.specs.Generations.{after_hangup};
ghost use Rattle.tty_terminal.specs.Runs.{is_of_call, is_flush};
ghost use Rattle.legal_runs.specs.Legal.{IsInPhase};
ghost use Rattle.journal_check.specs.WellFormed.{IsWellFormed};
ghost use Rattle.journal_check.specs.Trying.{Tries, IsSmall, IsSmallCall};
ghost use Rattle.journal_check.specs.Scripts.{AreTurns};
ghost use Rattle.journal_check.specs.Replaying.{CallStays, Stays};

use crate::steps::{
    Callers, callers_of, is_next, may_end_caller, may_end_line, may_end_phase, may_hang_up,
    may_tick, try_answer, try_flush, try_part, try_wait,
};
use crate::turns::{Turn, call_in};
use ldisc_switch::{Kind, fresh};
use std::alloc::Global;
use tty_base::{Flagged, NoMemory};
use tty_calls::{Call, Entry, Event, Names, Session, Who};
use tty_terminal::Terminal;

/// What is kept of a port's callers beside the terminal.
#[derive(Clone, Copy)]
pub(crate) struct Table<'a> {
    /// Each caller's turn.
    pub(crate) turns: &'a [Turn],
    pub(crate) names: &'a Names,
    /// How many callers each phase has.
    pub(crate) counts: &'a [usize],
}

// ---- generations

/// Whether a caller's call, of which a part was taken and which has not waited since, goes on in the
/// generation of its parts.
fn call_stays(terminal: &Terminal, callers: usize, who: Who, generation: u32) -> bool
    requires { callers ≡ length terminal.now.terminal.callers }
    ensures { IsTrue result ↔ CallStays terminal.now.terminal who generation }
{
    let Who::Caller(caller) = who else {
        return true;
    };
    if usize::from(caller) >= callers {
        return true;
    }
    let state = terminal.caller(caller);
    state.parts == 0 || state.waits.is_some() || state.generation == generation
}

/// Whether an entry stays in the generation of its call, or of the latest flush run.
pub(crate) fn stays(terminal: &Terminal, callers: usize, latest: u32, entry: &Entry) -> bool
    requires { callers ≡ length terminal.now.terminal.callers }
    ensures { IsTrue result
        ↔ Stays terminal.now.terminal latest entry.now.who entry.now.part entry.now.generation
        (event_of entry.now.event) }
{
    match entry.event {
        Event::Answer { .. } | Event::Part(_) | Event::Wait => {
            call_stays(terminal, callers, entry.who, entry.generation)
        }
        Event::Flush(_) => entry.part == 0 || latest == entry.generation,
        _ => true,
    }
}

// ---- line, clock, callers' ends and the session

fn try_tick(terminal: &mut Terminal, entry: &Entry) -> bool
    requires { IsSmall terminal.old.terminal }
    ensures tries { Tries ((entry.now.who ≡ who.Clock) × IsTick terminal.old.terminal entry.now.step entry.now.part)
        (record terminal.old.terminal { tick = terminal.old.terminal.tick + 1 }) terminal.new.terminal result }
    ensures column { column_in terminal.new.terminal.disc ≡ column_in terminal.old.terminal.disc }
{
    if entry.who != Who::Clock || !may_tick(terminal, entry.step, entry.part) {
        return false;
    }
    terminal.raise_tick();
    true
}

fn try_clock_end(terminal: &mut Terminal, entry: &Entry) -> bool
    ensures tries { Tries ((entry.now.who ≡ who.Clock) × IsTick terminal.old.terminal entry.now.step entry.now.part)
        (record terminal.old.terminal { clock_over = true }) terminal.new.terminal result }
    ensures column { column_in terminal.new.terminal.disc ≡ column_in terminal.old.terminal.disc }
{
    if entry.who != Who::Clock || !may_tick(terminal, entry.step, entry.part) {
        return false;
    }
    terminal.end_clock();
    true
}

fn try_line_end(terminal: &mut Terminal, entry: &Entry, sent: u64) -> bool
    requires { IsSmall terminal.old.terminal }
    ensures tries { Tries
        ((entry.now.who ≡ who.Line) × IsLineEnd terminal.old.terminal entry.now.step entry.now.part sent)
        (record terminal.old.terminal { sent = sent; line_over = true }) terminal.new.terminal result }
    ensures column { column_in terminal.new.terminal.disc ≡ column_in terminal.old.terminal.disc }
{
    if entry.who != Who::Line || !may_end_line(terminal, entry.step, entry.part, sent) {
        return false;
    }
    terminal.end_line(sent);
    true
}

fn try_caller_end(terminal: &mut Terminal, callers: usize, entry: &Entry) -> bool
    requires { callers ≡ length terminal.old.terminal.callers }
    ensures tries { Tries
        (ByCaller entry.now.who (λ c. IsCallerEnd terminal.old.terminal c entry.now.step entry.now.part))
        (by_caller entry.now.who terminal.old.terminal (after_caller_end terminal.old.terminal))
        terminal.new.terminal result }
    ensures column { column_in terminal.new.terminal.disc ≡ column_in terminal.old.terminal.disc }
{
    let Who::Caller(caller) = entry.who else {
        return false;
    };
    if !may_end_caller(terminal, callers, caller, entry.step, entry.part) {
        return false;
    }
    terminal.end_caller(caller);
    true
}

fn try_phase_end(
    terminal: &mut Terminal,
    callers: usize,
    counts: &[usize],
    entry: &Entry,
) -> Result<bool, NoMemory>
    requires small { IsSmall terminal.old.terminal }
    requires callers { callers ≡ length terminal.old.terminal.callers }
    ensures tries { IfOk result (λ made. Tries
        ((entry.now.who ≡ who.Session) × IsPhaseEnd counts.now terminal.old.terminal entry.now.step entry.now.part)
        (next_phase terminal.old.terminal) terminal.new.terminal made) }
    ensures column { OnOk result (column_in terminal.new.terminal.disc ≡ column_in terminal.old.terminal.disc) }
{
    if entry.who != Who::Session
        || !may_end_phase(terminal, callers, counts, entry.step, entry.part)?
    {
        return Ok(false);
    }
    terminal.begin_phase();
    Ok(true)
}

fn try_hangup(
    alloc: Global,
    terminal: &mut Terminal,
    counts: &[usize],
    entry: &Entry,
    dropped: &[Flagged],
) -> Result<bool, NoMemory>
    requires { IsSmall terminal.old.terminal }
    ensures tries { IfOk result (λ made. Tries ((entry.now.who ≡ who.Session)
        × IsHangup counts.now terminal.old.terminal entry.now.step entry.now.part dropped.now)
        (with_dropped (after_hangup terminal.old.terminal) (length dropped.now)) terminal.new.terminal made) }
    ensures column { OnOk result (column_in terminal.new.terminal.disc ≤ column_in terminal.old.terminal.disc) }
{
    if entry.who != Who::Session
        || !may_hang_up(terminal, counts, entry.step, entry.part, dropped)
    {
        return Ok(false);
    }
    terminal.hang_up(fresh(alloc, Kind::Tty)?);
    terminal.drop_characters(dropped.len() as u64);
    Ok(true)
}

/// Tries an entry that is neither of a call nor of a flush run.
fn try_other(
    alloc: Global,
    terminal: &mut Terminal,
    callers: usize,
    counts: &[usize],
    entry: &Entry,
) -> Result<bool, NoMemory>
    requires small { IsSmall terminal.old.terminal }
    requires callers { callers ≡ length terminal.old.terminal.callers }
    requires other { is_of_call (event_of entry.now.event) ≡ false }
    requires no_flush { is_flush (event_of entry.now.event) ≡ false }
    ensures tries { IfOk result (λ made.
        (calls : ℕ → ℕ → Option PlainCall)
        → Tries (IsAllowed calls counts.now terminal.old.terminal entry.now.who entry.now.step entry.now.part
        (event_of entry.now.event))
        (after_event calls terminal.old.terminal entry.now.who entry.now.step entry.now.part (event_of entry.now.event))
        terminal.new.terminal made) }
    ensures column { OnOk result (column_in terminal.new.terminal.disc ≤ column_in terminal.old.terminal.disc) }
{
    match &entry.event {
        Event::Tick => Ok(try_tick(terminal, entry)),
        Event::LineEnd(sent) => Ok(try_line_end(terminal, entry, *sent)),
        Event::ClockEnd => Ok(try_clock_end(terminal, entry)),
        Event::CallerEnd => Ok(try_caller_end(terminal, callers, entry)),
        Event::PhaseEnd => try_phase_end(terminal, callers, counts, entry),
        Event::Hangup(dropped) => { try_hangup(alloc, terminal, counts, entry, dropped) }
        _ => unreachable!(),
    }
}

// ---- calls and flushes

/// The most bytes of a call that a number of 32 bits counts.
const MOST_BYTES: usize = 0xffff_ffff;

/// Tries an entry of a caller's next call, which is known.
fn try_of_call(
    alloc: Global,
    terminal: &mut Terminal,
    callers: usize,
    counts: &[usize],
    caller: u16,
    call: &Call,
    entry: &Entry,
) -> Result<bool, NoMemory>
    requires callers { callers ≡ length terminal.old.terminal.callers }
    requires known { caller < length terminal.old.terminal.callers }
    requires small { IsSmall terminal.old.terminal }
    requires call { IsSmallCall (call_of call.now) }
    requires next { IsNext terminal.old.terminal caller entry.now.step entry.now.part }
    requires of_call { is_of_call (event_of entry.now.event) ≡ true }
    ensures tries { IfOk result (λ made.
        (calls : ℕ → ℕ → Option PlainCall)
        → calls caller entry.now.step ≡ Some (call_of call.now)
        → Tries (IsAllowed calls counts.now terminal.old.terminal (who.Caller caller) entry.now.step entry.now.part
        (event_of entry.now.event))
        (after_event calls terminal.old.terminal (who.Caller caller) entry.now.step entry.now.part
        (event_of entry.now.event)) terminal.new.terminal made) }
    ensures column { OnOk result
        (column_in terminal.new.terminal.disc ≤ column_in terminal.old.terminal.disc + COLUMNS_OF_PIECE) }
{
    match &entry.event {
        Event::Answer { answer, dropped } => {
            let callers = Callers {
                all: callers,
                of_phase: callers_of(counts, terminal.phase()),
            };
            let count = dropped.len();
            try_answer(alloc, terminal, callers, caller, call, answer, count)
        }
        Event::Part(count) => try_part(alloc, terminal, caller, call, *count),
        Event::Wait => Ok(try_wait(terminal, caller, call)),
        _ => unreachable!(),
    }
}

/// Whether a number of 32 bits counts the bytes that a call hands over.
fn is_counted(call: &Call) -> bool
    ensures { IsTrue result ↔ (byte_count (call_of call.now) < 2 ^ 32) }
{
    match call {
        Call::Write { bytes, .. } => bytes.len() <= MOST_BYTES,
        Call::SendPacket { bytes, .. } => bytes.len() <= MOST_BYTES,
        _ => true,
    }
}

/// Tries an entry of a call of a caller whose turn it is.
fn try_by_caller(
    alloc: Global,
    terminal: &mut Terminal,
    table: &Table,
    session: &Session,
    port: usize,
    caller: u16,
    entry: &Entry,
) -> Result<bool, NoMemory>
    requires formed { IsWellFormed (session_of session.now) }
    requires names { table.now.names.now ≡ names_of (scripts_over port (session_of session.now).phases) }
    requires small { IsSmall terminal.old.terminal }
    requires turns { AreTurns port (session_of session.now) terminal.old.terminal.phase table.now.turns.now }
    requires many { length table.now.turns.now ≡ length terminal.old.terminal.callers }
    requires by_caller { entry.now.who ≡ who.Caller caller }
    requires of_call { is_of_call (event_of entry.now.event) ≡ true }
    requires in_phase { IsInPhase port (session_of session.now) terminal.old.terminal.phase entry.now.who entry.now.step
        (event_of entry.now.event) }
    ensures tries { IfOk result (λ made. Tries (IsAllowed (call_at port (session_of session.now)) table.now.counts.now
        terminal.old.terminal entry.now.who entry.now.step entry.now.part (event_of entry.now.event))
        (after_event (call_at port (session_of session.now)) terminal.old.terminal entry.now.who entry.now.step
        entry.now.part (event_of entry.now.event)) terminal.new.terminal made) }
    ensures column { OnOk result
        (column_in terminal.new.terminal.disc ≤ column_in terminal.old.terminal.disc + COLUMNS_OF_PIECE) }
{
    if !is_next(terminal, table.turns.len(), caller, entry.step, entry.part) {
        return Ok(false);
    }
    let turn = table.turns[caller as usize];
    let phase = terminal.phase();
    let call = call_in(session, table.names, port, phase, caller, turn, entry.step);
    if !is_counted(&call) {
        return Err(NoMemory);
    }
    try_of_call(
        alloc,
        terminal,
        table.turns.len(),
        table.counts,
        caller,
        &call,
        entry,
    )
}

/// Tries a piece of a flush run.
fn try_piece(terminal: &mut Terminal, entry: &Entry, chars: &[Flagged]) -> Result<bool, NoMemory>
    requires { IsSmall terminal.old.terminal }
    ensures tries { IfOk result (λ made. Tries
        ((entry.now.who ≡ who.Flusher) × IsFlush terminal.old.terminal entry.now.step entry.now.part chars.now)
        (record (after_characters terminal.old.terminal chars.now) {
          flushed = Some (record { run = entry.now.step; part = entry.now.part });
        }) terminal.new.terminal made) }
    ensures column { OnOk result
        (column_in terminal.new.terminal.disc ≤ column_in terminal.old.terminal.disc + COLUMNS_OF_ENTRY) }
{
    if entry.who != Who::Flusher {
        return Ok(false);
    }
    try_flush(terminal, entry.step, entry.part, chars)
}

/// Tries an entry that is of its phase.
pub(crate) fn try_entry(
    alloc: Global,
    terminal: &mut Terminal,
    table: &Table,
    session: &Session,
    port: usize,
    entry: &Entry,
) -> Result<bool, NoMemory>
    requires formed { IsWellFormed (session_of session.now) }
    requires names { table.now.names.now ≡ names_of (scripts_over port (session_of session.now).phases) }
    requires small { IsSmall terminal.old.terminal }
    requires turns { AreTurns port (session_of session.now) terminal.old.terminal.phase table.now.turns.now }
    requires many { length table.now.turns.now ≡ length terminal.old.terminal.callers }
    requires in_phase { IsInPhase port (session_of session.now) terminal.old.terminal.phase entry.now.who entry.now.step
        (event_of entry.now.event) }
    ensures tries { IfOk result (λ made. Tries (IsAllowed (call_at port (session_of session.now)) table.now.counts.now
        terminal.old.terminal entry.now.who entry.now.step entry.now.part (event_of entry.now.event))
        (after_event (call_at port (session_of session.now)) terminal.old.terminal entry.now.who entry.now.step
        entry.now.part (event_of entry.now.event)) terminal.new.terminal made) }
    ensures column { OnOk result
        (column_in terminal.new.terminal.disc ≤ column_in terminal.old.terminal.disc + COLUMNS_OF_ENTRY) }
{
    match &entry.event {
        Event::Answer { .. } | Event::Part(_) | Event::Wait => match entry.who {
            Who::Caller(caller) => {
                try_by_caller(alloc, terminal, table, session, port, caller, entry)
            }
            _ => Ok(false),
        },
        Event::Flush(chars) => try_piece(terminal, entry, chars),
        _ => try_other(alloc, terminal, table.turns.len(), table.counts, entry),
    }
}
