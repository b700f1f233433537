//! One entry of each kind on the terminal: whether it may stand, and what it does where it may.

ghost use Rattle.std.specs.Prelude.{◌≡◌, ◌↔◌, List, ◌+◌, ◌-◌, ◌*◌, ◌^◌, ◌≤◌, ◌<◌, ◌&&◌};
ghost use Rattle.std.specs.Prelude.{false, Some, is_some, IsTrue, IfOk, OnOk, length};
ghost use Rattle.tty_base.specs.Sizes.{COLUMNS_OF_CHARACTER, COLUMNS_OF_ENTRY, COLUMNS_OF_PIECE, MOST_SENT, PIECE};
ghost use Rattle.tty_base.specs.declared.characters.Flagged.{Flagged};
ghost use Rattle.tty_calls.specs.Plain.{call_of, answer_lent, handle_of, idle};
ghost use Rattle.ldisc_switch.specs.Disciplines.{column_in};
ghost use Rattle.tty_terminal.specs.Terminals.{caller_at, live_count};
ghost use Rattle.tty_terminal.specs.Receiving.{after_characters, AcceptsAll};
ghost use Rattle.tty_terminal.specs.Calls.{outcome};
ghost use Rattle.tty_terminal.specs.Meeting.{Meets, room_for_characters};
ghost use Rattle.tty_terminal.specs.Steps.{IsNext, IsTick, IsLineEnd, IsCallerEnd, IsPhaseEnd, IsHangup, IsFlush};
ghost use Rattle.tty_terminal.specs.Steps.{TakesPart, MustWait, DropsAt, callers_in, follows as piece_follows, left_by};
ghost use Rattle.tty_terminal.specs.Steps.{is_wait, quiet_with, after_answer, after_wait, after_part, with_dropped};
ghost use Rattle.journal_check.specs.Trying.{Tries, IsSmall, IsSmallCall, IsAnsweredBy, BeginsWait};

use crate::answers::is_same;
use crate::resting::{is_quiet, may_end};
use std::alloc::Global;
use tty_base::sizes::PIECE;
use tty_base::{Flagged, NoMemory};
use tty_calls::{AnswerRef, Call};
use tty_terminal::{Met, Piece, ROOM_FOR_CALL, Terminal};

/// How many callers a phase has.
pub(crate) fn callers_of(counts: &[usize], phase: u32) -> usize
    ensures { result ≡ callers_in counts.now phase }
{
    match counts.get(phase as usize) {
        Some(count) => *count,
        None => 0,
    }
}

/// Whether the clock of the phase goes on, and an entry is of it.
pub(crate) fn may_tick(terminal: &Terminal, step: u32, part: u32) -> bool
    ensures { IsTrue result ↔ IsTick terminal.now.terminal step part }
{
    step == terminal.phase() && part == 0 && !terminal.clock_is_over()
}

/// Whether the line of the phase may end, with so many characters sent.
pub(crate) fn may_end_line(terminal: &Terminal, step: u32, part: u32, sent: u64) -> bool
    requires { IsSmall terminal.now.terminal }
    ensures { IsTrue result ↔ IsLineEnd terminal.now.terminal step part sent }
{
    step == terminal.phase()
        && part == 0
        && !terminal.line_is_over()
        && terminal.taken() <= sent
        && terminal.sent() <= sent
        && sent <= terminal.taken() + u64::from(terminal.capacity())
}

/// Whether a caller, one of so many, may end.
pub(crate) fn may_end_caller(
    terminal: &Terminal,
    callers: usize,
    caller: u16,
    step: u32,
    part: u32,
) -> bool
    requires { callers ≡ length terminal.now.terminal.callers }
    ensures { IsTrue result ↔ IsCallerEnd terminal.now.terminal caller step part }
{
    if usize::from(caller) >= callers {
        return false;
    }
    let state = terminal.caller(caller);
    step == state.next && part == 0 && !state.over && state.bound.is_none()
}

/// Whether the phase may end.
pub(crate) fn may_end_phase(
    terminal: &Terminal,
    callers: usize,
    counts: &[usize],
    step: u32,
    part: u32,
) -> Result<bool, NoMemory>
    requires { callers ≡ length terminal.now.terminal.callers }
    ensures { IfOk result (λ may. IsTrue may ↔ IsPhaseEnd counts.now terminal.now.terminal step part) }
{
    if step != terminal.phase() || part != 0 {
        return Ok(false);
    }
    may_end(terminal, callers, callers_of(counts, terminal.phase()))
}

/// Whether the session may hang up, with so many characters dropped.
pub(crate) fn may_hang_up(
    terminal: &Terminal,
    counts: &[usize],
    step: u32,
    part: u32,
    dropped: &[Flagged],
) -> bool
    ensures { IsTrue result ↔ IsHangup counts.now terminal.now.terminal step part dropped.now }
{
    counts.len() <= terminal.phase() as usize
        && step as usize == counts.len()
        && part == 0
        && dropped.len() as u64 == terminal.sent().saturating_sub(terminal.taken())
}

/// Whether an entry is of the next step of a caller, one of so many, that is not over.
pub(crate) fn is_next(
    terminal: &Terminal,
    callers: usize,
    caller: u16,
    step: u32,
    part: u32,
) -> bool
    requires { callers ≡ length terminal.now.terminal.callers }
    ensures { IsTrue result ↔ IsNext terminal.now.terminal caller step part }
{
    if usize::from(caller) >= callers {
        return false;
    }
    let state = terminal.caller(caller);
    step == state.next && part == state.parts && !state.over
}

// ---- flushes

/// Whether a piece is the next of its run, or the first of the next run.
fn follows(latest: Option<Piece>, run: u32, part: u32) -> bool
    ensures { result ≡ piece_follows latest run part }
{
    match latest {
        None => run == 0 && part == 0,
        Some(piece) => {
            (run == piece.run && u64::from(part) == u64::from(piece.part) + 1)
                || (u64::from(run) == u64::from(piece.run) + 1 && part == 0)
        }
    }
}

/// Whether a piece of so many characters may be handed over, as far as the discipline accepts them.
fn may_flush(terminal: &Terminal, run: u32, part: u32, count: usize) -> bool
    requires { IsSmall terminal.now.terminal }
    ensures live { IsTrue result → 0 < live_count terminal.now.terminal }
    ensures some { IsTrue result → 0 < count }
    ensures few { IsTrue result → count ≤ PIECE }
    ensures numbered { IsTrue result → IsTrue (piece_follows terminal.now.terminal.flushed run part) }
    ensures sent { IsTrue result
        → IsTrue terminal.now.terminal.line_over
        → terminal.now.terminal.taken + count ≤ terminal.now.terminal.sent }
    ensures not { result ≡ false
        → (chars : List Flagged)
        → length chars ≡ count
        → IsFlush terminal.now.terminal run part chars
        → ⊥ }
{
    terminal.is_open()
        && count > 0
        && count <= PIECE
        && follows(terminal.latest_piece(), run, part)
        && (!terminal.line_is_over() || terminal.taken() + count as u64 <= terminal.sent())
}

/// Hands characters over as long as the discipline accepts, and says whether it accepted all.
fn receive_all(terminal: &mut Terminal, chars: &[Flagged]) -> bool
    requires few { length chars.now ≤ PIECE }
    requires taken { terminal.old.terminal.taken < MOST_SENT - 2 ^ 32 }
    requires wire { room_for_characters terminal.old.terminal (length chars.now) ≤ terminal.old.wire_room }
    requires signals { length chars.now ≤ terminal.old.signal_room }
    requires column { column_in terminal.old.terminal.disc < 2 ^ 61 }
    ensures tries { Tries (AcceptsAll terminal.old.terminal chars.now)
        (after_characters terminal.old.terminal chars.now) terminal.new.terminal result }
    ensures column { column_in terminal.new.terminal.disc
        ≤ column_in terminal.old.terminal.disc + COLUMNS_OF_CHARACTER * length chars.now }
{
    terminal.receive_all(chars) == chars.len()
}

/// Tries a piece of a flush run.
pub(crate) fn try_flush(
    terminal: &mut Terminal,
    run: u32,
    part: u32,
    chars: &[Flagged],
) -> Result<bool, NoMemory>
    requires { IsSmall terminal.old.terminal }
    ensures tries { IfOk result (λ made. Tries (IsFlush terminal.old.terminal run part chars.now)
        (record (after_characters terminal.old.terminal chars.now) {
          flushed = Some (record { run = run; part = part });
        }) terminal.new.terminal made) }
    ensures column { column_in terminal.new.terminal.disc ≤ column_in terminal.old.terminal.disc + COLUMNS_OF_ENTRY }
{
    if !may_flush(terminal, run, part, chars.len()) {
        return Ok(false);
    }
    let room = terminal.room_for_characters(chars.len());
    terminal.reserve(room, chars.len())?;
    if !receive_all(terminal, chars) {
        return Ok(false);
    }
    terminal.note_piece(run, part);
    Ok(true)
}

// ---- calls

/// Makes a call in room that is made for it.
fn meet_in_room(
    alloc: Global,
    terminal: &mut Terminal,
    caller: u16,
    call: &Call,
) -> Result<Met, NoMemory>
    requires known { caller < length terminal.old.terminal.callers }
    requires small { IsSmall terminal.old.terminal }
    requires call { IsSmallCall (call_of call.now) }
    ensures met { IfOk result
        (λ met. Meets (outcome terminal.old.terminal (caller_at terminal.old.terminal caller) (call_of call.now)) met) }
    ensures left { OnOk result (terminal.new.terminal
        ≡ left_by (outcome terminal.old.terminal (caller_at terminal.old.terminal caller) (call_of call.now))
        terminal.old.terminal) }
    ensures column { OnOk result
        (column_in terminal.new.terminal.disc ≤ column_in terminal.old.terminal.disc + COLUMNS_OF_PIECE) }
{
    terminal.reserve(ROOM_FOR_CALL, 0)?;
    let room = terminal.make_room(alloc, call)?;
    Ok(terminal.meet(caller, call, room))
}

/// Whether an answer says that nothing can come any more.
fn is_idle(answer: &AnswerRef) -> bool
    ensures { IsTrue result ↔ (answer_lent answer.now ≡ idle) }
{
    match answer {
        AnswerRef::Idle => true,
        _ => false,
    }
}

/// Whether so many characters may be dropped with an answer that drops, or does not.
fn may_drop(terminal: &Terminal, drops: bool, count: usize) -> bool
    ensures { IsTrue result ↔ DropsAt terminal.now.terminal drops count }
{
    if !drops {
        return count == 0;
    }
    let left = terminal.sent().saturating_sub(terminal.taken());
    left <= count as u64
        && count as u64 <= u64::from(terminal.capacity())
        && (!terminal.line_is_over() || count as u64 == left)
}

/// Whether a call that must wait may be told so, in a phase with so many callers of so many.
fn may_be_idle(
    terminal: &Terminal,
    known: usize,
    callers: usize,
    caller: u16,
) -> Result<bool, NoMemory>
    requires many { known ≡ length terminal.now.terminal.callers }
    requires known { caller < length terminal.now.terminal.callers }
    ensures { IfOk result (λ may.
        may ≡ (is_some (caller_at terminal.now.terminal caller).waits && quiet_with callers terminal.now.terminal)) }
{
    if terminal.caller(caller).waits.is_none() {
        return Ok(false);
    }
    is_quiet(terminal, known, callers)
}

/// How many callers a port has, and how many of them the phase that runs has.
#[derive(Clone, Copy)]
pub(crate) struct Callers {
    pub(crate) all: usize,
    pub(crate) of_phase: usize,
}

/// Tries an answer to a call that must wait: it can only be told so, and drops nothing.
fn try_idle(
    terminal: &mut Terminal,
    callers: Callers,
    caller: u16,
    call: &Call,
    answer: &AnswerRef,
    dropped: usize,
) -> Result<bool, NoMemory>
    requires many { callers.all ≡ length terminal.old.terminal.callers }
    requires known { caller < length terminal.old.terminal.callers }
    requires small { IsSmall terminal.old.terminal }
    requires must { MustWait
        (outcome terminal.old.terminal (caller_at terminal.old.terminal caller) (call_of call.now)) }
    ensures tries { IfOk result (λ made. Tries
        (IsAnsweredBy terminal.old.terminal callers.of_phase caller (call_of call.now) (answer_lent answer.now) dropped)
        (after_answer (with_dropped (left_by
        (outcome terminal.old.terminal (caller_at terminal.old.terminal caller) (call_of call.now))
        terminal.old.terminal) dropped) caller) terminal.new.terminal made) }
    ensures column { OnOk result (column_in terminal.new.terminal.disc ≡ column_in terminal.old.terminal.disc) }
{
    let _ = call; // for the contract alone
    if !is_idle(answer)
        || dropped != 0
        || !may_be_idle(terminal, callers.all, callers.of_phase, caller)?
    {
        return Ok(false);
    }
    terminal.drop_characters(dropped as u64);
    terminal.advance(caller);
    Ok(true)
}

/// Tries an answer to a call that need not wait.
fn try_given(
    alloc: Global,
    terminal: &mut Terminal,
    callers: usize,
    caller: u16,
    call: &Call,
    answer: &AnswerRef,
    dropped: usize,
) -> Result<bool, NoMemory>
    requires known { caller < length terminal.old.terminal.callers }
    requires small { IsSmall terminal.old.terminal }
    requires call { IsSmallCall (call_of call.now) }
    requires at_once { is_wait
        (outcome terminal.old.terminal (caller_at terminal.old.terminal caller) (call_of call.now)) ≡ false }
    ensures tries { IfOk result (λ made. Tries
        (IsAnsweredBy terminal.old.terminal callers caller (call_of call.now) (answer_lent answer.now) dropped)
        (after_answer (with_dropped (left_by
        (outcome terminal.old.terminal (caller_at terminal.old.terminal caller) (call_of call.now))
        terminal.old.terminal) dropped) caller) terminal.new.terminal made) }
    ensures column { OnOk result
        (column_in terminal.new.terminal.disc ≤ column_in terminal.old.terminal.disc + COLUMNS_OF_PIECE) }
{
    let _ = callers; // for the contract alone
    let drops = terminal.drops(caller, call);
    if !may_drop(terminal, drops, dropped) {
        return Ok(false);
    }
    match meet_in_room(alloc, terminal, caller, call)? {
        Met::Gives(given) => {
            if !is_same(&given.lent(), answer) {
                return Ok(false);
            }
            terminal.drop_characters(dropped as u64);
            terminal.advance(caller);
            Ok(true)
        }
        Met::Takes(_) => Ok(false),
        Met::Waits => Ok(false),
    }
}

/// Tries an answer to a call, with so many characters dropped, in a phase with so many of the callers.
pub(crate) fn try_answer(
    alloc: Global,
    terminal: &mut Terminal,
    callers: Callers,
    caller: u16,
    call: &Call,
    answer: &AnswerRef,
    dropped: usize,
) -> Result<bool, NoMemory>
    requires many { callers.all ≡ length terminal.old.terminal.callers }
    requires known { caller < length terminal.old.terminal.callers }
    requires small { IsSmall terminal.old.terminal }
    requires call { IsSmallCall (call_of call.now) }
    ensures tries { IfOk result (λ made. Tries
        (IsAnsweredBy terminal.old.terminal callers.of_phase caller (call_of call.now) (answer_lent answer.now) dropped)
        (after_answer (with_dropped (left_by
        (outcome terminal.old.terminal (caller_at terminal.old.terminal caller) (call_of call.now))
        terminal.old.terminal) dropped) caller) terminal.new.terminal made) }
    ensures column { OnOk result
        (column_in terminal.new.terminal.disc ≤ column_in terminal.old.terminal.disc + COLUMNS_OF_PIECE) }
{
    if terminal.must_wait(caller, call) {
        return try_idle(terminal, callers, caller, call, answer, dropped);
    }
    try_given(
        alloc,
        terminal,
        callers.of_phase,
        caller,
        call,
        answer,
        dropped,
    )
}

/// Tries a part of so many bytes of a call.
pub(crate) fn try_part(
    alloc: Global,
    terminal: &mut Terminal,
    caller: u16,
    call: &Call,
    count: u32,
) -> Result<bool, NoMemory>
    requires known { caller < length terminal.old.terminal.callers }
    requires small { IsSmall terminal.old.terminal }
    requires call { IsSmallCall (call_of call.now) }
    ensures tries { IfOk result (λ made. Tries
        (TakesPart (outcome terminal.old.terminal (caller_at terminal.old.terminal caller) (call_of call.now)) count)
        (after_part (left_by (outcome terminal.old.terminal (caller_at terminal.old.terminal caller) (call_of call.now))
        terminal.old.terminal) caller (handle_of (call_of call.now)) count) terminal.new.terminal made) }
    ensures column { OnOk result
        (column_in terminal.new.terminal.disc ≤ column_in terminal.old.terminal.disc + COLUMNS_OF_PIECE) }
{
    match meet_in_room(alloc, terminal, caller, call)? {
        Met::Takes(taken) => {
            if taken != count {
                return Ok(false);
            }
            terminal.note_part(caller, call.handle(), taken);
            Ok(true)
        }
        Met::Gives(_) => Ok(false),
        Met::Waits => Ok(false),
    }
}

/// Tries that a call begins to wait.
pub(crate) fn try_wait(terminal: &mut Terminal, caller: u16, call: &Call) -> bool
    requires known { caller < length terminal.old.terminal.callers }
    requires small { IsSmall terminal.old.terminal }
    requires call { IsSmallCall (call_of call.now) }
    ensures tries { Tries (BeginsWait terminal.old.terminal caller (call_of call.now))
        (after_wait terminal.old.terminal caller (handle_of (call_of call.now))) terminal.new.terminal result }
    ensures column { column_in terminal.new.terminal.disc ≡ column_in terminal.old.terminal.disc }
{
    if terminal.caller(caller).waits.is_some() || !terminal.must_wait(caller, call) {
        return false;
    }
    terminal.wait(caller, call.handle());
    true
}
