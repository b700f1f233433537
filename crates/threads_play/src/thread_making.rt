//! How the threads of a phase are made, each with a promise of what comes of it. Where one cannot be made,
//! those that were made give up.

ghost use Rattle.std.specs.Prelude.{◌≡◌, IfOk};
ghost use Rattle.port_cell.specs.Knowledge.{list_seen};
ghost use Rattle.many_threads.specs.Needs.{CanPlayCaller, CanPlayClock, CanPlayFlusher, CanPlayLine};
ghost use Rattle.many_threads.specs.Comings.{CallerComes, ClockComes, FlusherComes, LineComes};

use core::thread::Stack;
use line_steps::LineSteps;
use many_threads::{
    FlusherBack, LineBack, Receiver, SeatBack, Site, caller_thread, clock_thread, flusher_thread,
    line_thread,
};
use std::alloc::Global;
use std::snapshot::Snapshot;
use std::sync::Wait;
use std::thread::{Promise, PromisedHandle, Scope};
use tty_base::NoMemory;
use tty_calls::Calls;
use tty_port::{Gate, Seat};

/// The size of a thread's stack. Those of a phase are kept for the next only where all of them are small.
const STACK: usize = 1_048_576;

/// A caller's thread makes these calls, from this seat.
#[derive(Drop)]
pub(crate) struct CallerPromise<'s> {
    pub(crate) site: Site<'s>,
    pub(crate) seat: Snapshot<Seat>,
    pub(crate) caller: u16,
    pub(crate) first: u32,
    pub(crate) calls: &'s Calls,
}

impl<'s> Promise<Result<SeatBack, NoMemory>> for CallerPromise<'s> {
    ghost kept_by = { λ p r.
        IfOk r (CallerComes p.site.shared.now p.caller p.first p.calls.now.items (list_seen p.seat.value)) };
}

/// The clock's thread makes so many ticks, from this seat.
#[derive(Drop)]
pub(crate) struct ClockPromise<'s> {
    pub(crate) site: Site<'s>,
    pub(crate) seat: Snapshot<Seat>,
    pub(crate) ticks: u32,
}

impl<'s> Promise<Result<SeatBack, NoMemory>> for ClockPromise<'s> {
    ghost kept_by = { λ p r. IfOk r (ClockComes p.site.shared.now p.ticks (list_seen p.seat.value)) };
}

/// The flusher's thread makes flush runs, the first of which has this number, from this seat.
#[derive(Drop)]
pub(crate) struct FlusherPromise<'s> {
    pub(crate) site: Site<'s>,
    pub(crate) seat: Snapshot<Seat>,
    pub(crate) run: u32,
}

impl<'s> Promise<Result<FlusherBack, NoMemory>> for FlusherPromise<'s> {
    ghost kept_by = { λ p r. IfOk r (FlusherComes p.site.shared.now p.run p.seat.value) };
}

/// The line's thread does these steps of a phase, with this line and from its seat.
#[derive(Drop)]
pub(crate) struct LinePromise<'s> {
    pub(crate) site: Site<'s>,
    pub(crate) receiver: Snapshot<Receiver>,
    pub(crate) steps: &'s LineSteps,
    pub(crate) phase: u32,
}

impl<'s> Promise<Result<LineBack, NoMemory>> for LinePromise<'s> {
    ghost kept_by = { λ p r. IfOk r (LineComes p.site.shared.now p.steps.now.items p.receiver.value) };
}

/// Starts a caller's thread.
pub(crate) fn start_caller<'s, E, R: Wait + Sync, G: Gate + Sync>(
    scope: &Scope<'s, E>,
    rt: &'s R,
    gate: &'s G,
    seat: Seat,
    promise: CallerPromise<'s>,
) -> Result<PromisedHandle<Result<SeatBack, NoMemory>, CallerPromise<'s>>, NoMemory>
    requires can { CanPlayCaller promise.site.shared.now promise.caller promise.first promise.calls.now.items seat }
    requires of_seat { promise.seat.value ≡ seat }
    ensures { IfOk result (λ h. h.promise ≡ promise.entry) }
{
    let site = promise.site;
    let caller = promise.caller;
    let first = promise.first;
    let calls = promise.calls;
    let made = Stack::new().stack_size(STACK).spawn_scoped_with(
        scope,
        promise,
        move || -> Result<SeatBack, NoMemory>
            requires { CanPlayCaller site.shared.now caller first calls.now.items seat }
            ensures { IfOk result
                (CallerComes site.entry.shared.now caller first calls.entry.now.items (list_seen seat)) }
        { caller_thread(rt, gate, site, seat, caller, first, calls) },
    );
    match made {
        Ok(child) => Ok(child),
        Err(_) => Err(site.start.refuse(rt)),
    }
}

/// Starts the clock's thread.
pub(crate) fn start_clock<'s, E, R: Wait + Sync>(
    scope: &Scope<'s, E>,
    rt: &'s R,
    seat: Seat,
    promise: ClockPromise<'s>,
) -> Result<PromisedHandle<Result<SeatBack, NoMemory>, ClockPromise<'s>>, NoMemory>
    requires can { CanPlayClock promise.site.shared.now seat }
    requires of_seat { promise.seat.value ≡ seat }
    ensures { IfOk result (λ h. h.promise ≡ promise.entry) }
{
    let site = promise.site;
    let ticks = promise.ticks;
    let made = Stack::new().stack_size(STACK).spawn_scoped_with(
        scope,
        promise,
        move || -> Result<SeatBack, NoMemory>
            requires { CanPlayClock site.shared.now seat }
            ensures { IfOk result (ClockComes site.entry.shared.now ticks (list_seen seat)) }
        { clock_thread(rt, site, seat, ticks) },
    );
    match made {
        Ok(child) => Ok(child),
        Err(_) => Err(site.start.refuse(rt)),
    }
}

/// Starts the flusher's thread.
pub(crate) fn start_flusher<'s, E, R: Wait + Sync>(
    scope: &Scope<'s, E>,
    rt: &'s R,
    seat: Seat,
    promise: FlusherPromise<'s>,
) -> Result<PromisedHandle<Result<FlusherBack, NoMemory>, FlusherPromise<'s>>, NoMemory>
    requires can { CanPlayFlusher promise.site.shared.now promise.run seat }
    requires of_seat { promise.seat.value ≡ seat }
    ensures { IfOk result (λ h. h.promise ≡ promise.entry) }
{
    let site = promise.site;
    let run = promise.run;
    let made = Stack::new().stack_size(STACK).spawn_scoped_with(
        scope,
        promise,
        move || -> Result<FlusherBack, NoMemory>
            requires { CanPlayFlusher site.shared.now run seat }
            ensures { IfOk result (FlusherComes site.entry.shared.now run seat) }
        { flusher_thread(rt, site, seat, run) },
    );
    match made {
        Ok(child) => Ok(child),
        Err(_) => Err(site.start.refuse(rt)),
    }
}

/// Starts the line's thread, which has the steps one by one.
pub(crate) fn start_line<'s, E, R: Wait + Sync, G: Gate + Sync>(
    scope: &Scope<'s, E>,
    rt: &'s R,
    alloc: Global,
    gate: &'s G,
    receiver: Receiver,
    promise: LinePromise<'s>,
) -> Result<PromisedHandle<Result<LineBack, NoMemory>, LinePromise<'s>>, NoMemory>
    requires can { CanPlayLine promise.site.shared.now receiver promise.steps.now.items }
    requires of_receiver { promise.receiver.value ≡ receiver }
    ensures { IfOk result (λ h. h.promise ≡ promise.entry) }
{
    let site = promise.site;
    let phase = promise.phase;
    let Ok(steps) = promise.steps.written_out(alloc) else {
        return Err(site.start.refuse(rt));
    };
    let made = Stack::new().stack_size(STACK).spawn_scoped_with(
        scope,
        promise,
        move || -> Result<LineBack, NoMemory>
            requires { CanPlayLine site.shared.now receiver steps.items }
            ensures { IfOk result (LineComes site.entry.shared.now steps.items receiver) }
        { line_thread(rt, gate, site, receiver, steps.as_slice(), phase) },
    );
    match made {
        Ok(child) => Ok(child),
        Err(_) => Err(site.start.refuse(rt)),
    }
}
