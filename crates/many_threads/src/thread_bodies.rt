//! The threads of a phase: what each does, and what it brings back. None acts before all are made.

ghost use Rattle.std.specs.Prelude.{IfOk};
ghost use Rattle.port_cell.specs.Knowledge.{list_seen};
ghost use Rattle.many_threads.specs.Needs.{CanPlayCaller, CanPlayClock, CanPlayFlusher, CanPlayLine};
ghost use Rattle.many_threads.specs.Comings.{CallerComes, ClockComes, FlusherComes, LineComes};

use crate::caller_part::play_caller;
use crate::clock_part::play_clock;
use crate::flusher_part::play_flusher;
use crate::line_part::{Receiver, play_line};
use crate::start_signal::Site;
use std::sync::Wait;
use tty_base::{LineStep, NoMemory};
use tty_calls::{Calls, Denied};
use tty_port::{Gate, Seat, SharedPort};

/// What a caller's thread, or the clock's, brings back.
#[derive(Drop)]
pub struct SeatBack {
    pub seat: Seat,
    pub result: Result<(), Denied>,
}

/// What the flusher's thread brings back: the number of the next flush run, where it was not denied.
#[derive(Drop)]
pub struct FlusherBack {
    pub seat: Seat,
    pub result: Result<u32, Denied>,
}

/// What the line's thread brings back.
#[derive(Drop)]
pub struct LineBack {
    pub receiver: Receiver,
    pub result: Result<(), Denied>,
}

/// A caller's thread.
pub fn caller_thread<R: Wait, G: Gate>(
    rt: &R,
    gate: &G,
    site: Site<'_>,
    mut seat: Seat,
    caller: u16,
    first: u32,
    calls: &Calls,
) -> Result<SeatBack, NoMemory>
    requires can { CanPlayCaller site.shared.now caller first calls.now.items seat }
    ensures { IfOk result (CallerComes site.entry.shared.now caller first calls.now.items (list_seen seat)) }
{
    site.start.wait(rt)?;
    let result = play_caller(rt, site.shared, &mut seat, caller, first, calls, gate);
    Ok(SeatBack { seat, result })
}

/// The clock's part of a phase.
pub fn tick_all<R: Wait>(rt: &R, shared: &SharedPort, mut seat: Seat, ticks: u32) -> SeatBack
    requires can { CanPlayClock shared.now seat }
    ensures { ClockComes shared.now ticks (list_seen seat) result }
{
    let result = play_clock(rt, shared, &mut seat, ticks);
    SeatBack { seat, result }
}

/// The clock's thread.
pub fn clock_thread<R: Wait>(
    rt: &R,
    site: Site<'_>,
    seat: Seat,
    ticks: u32,
) -> Result<SeatBack, NoMemory>
    requires can { CanPlayClock site.shared.now seat }
    ensures { IfOk result (ClockComes site.entry.shared.now ticks (list_seen seat)) }
{
    site.start.wait(rt)?;
    Ok(tick_all(rt, site.shared, seat, ticks))
}

/// The flusher's thread.
pub fn flusher_thread<R: Wait>(
    rt: &R,
    site: Site<'_>,
    mut seat: Seat,
    run: u32,
) -> Result<FlusherBack, NoMemory>
    requires can { CanPlayFlusher site.shared.now run seat }
    ensures { IfOk result (FlusherComes site.entry.shared.now run seat) }
{
    site.start.wait(rt)?;
    let result = play_flusher(rt, site.shared, &mut seat, run);
    Ok(FlusherBack { seat, result })
}

/// Lets go of what a thread has whose start was refused.
fn refused<T: Drop>(_owned: T) -> NoMemory {
    NoMemory
}

/// The line's thread.
pub fn line_thread<R: Wait, G: Gate>(
    rt: &R,
    gate: &G,
    site: Site<'_>,
    mut receiver: Receiver,
    steps: &[LineStep],
    phase: u32,
) -> Result<LineBack, NoMemory>
    requires can { CanPlayLine site.shared.now receiver steps.now }
    ensures { IfOk result (LineComes site.entry.shared.now steps.now receiver) }
{
    if site.start.wait(rt).is_err() {
        return Err(refused(receiver));
    }
    let result = play_line(rt, gate, site.shared, &mut receiver, steps, phase);
    Ok(LineBack { receiver, result })
}
