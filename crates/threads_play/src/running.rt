//! The crew of a phase at work: all its threads side by side, and what comes back.

ghost use Rattle.std.specs.Prelude.{◌≡◌, [], IfOk};
ghost use Rattle.port_cell.specs.Knowledge.{list_seen};
ghost use Rattle.many_threads.specs.Needs.{CanPlayClock, CanPlayFlusher};
ghost use Rattle.many_threads.specs.Comings.{ClockComes, FlusherComes};
ghost use Rattle.many_threads.specs.Callers.{CallersCome};
ghost use Rattle.many_threads.specs.Crew.{cast_of, CanPlayCallers, CanRun, CrewComes};

use crate::callers::play_callers;
use crate::thread_making::{
    ClockPromise, FlusherPromise, LinePromise, start_clock, start_flusher, start_line,
};
use many_threads::{
    CallersBack, CallersOfCrew, ClockOfCrew, Crew, CrewBack, FlusherBack, FlusherOfCrew,
    LineOfCrew, SeatBack, Site, Start, tick_all,
};
use std::alloc::Global;
use std::snapshot::Snapshot;
use std::sync::Wait;
use std::thread;
use std::thread::{Scope, Threads};
use tty_base::NoMemory;
use tty_calls::Calls;
use tty_port::{Gate, SharedPort};

/// The flusher's thread, beside those of the callers.
fn flush_and_call<'s, E, R: Threads + Wait + Sync, G: Gate + Sync>(
    scope: &Scope<'s, E>,
    rt: &'s R,
    gate: &'s G,
    site: Site<'s>,
    flusher: FlusherOfCrew,
    callers: CallersOfCrew<'s>,
) -> Result<(FlusherBack, CallersBack), NoMemory>
    requires flusher { CanPlayFlusher site.shared.now flusher.run flusher.seat }
    requires callers { CanPlayCallers site.shared.now callers }
    requires none { site.no_calls.now.items ≡ [] }
    ensures flusher { IfOk result (λ r. FlusherComes site.entry.shared.now flusher.run flusher.seat r.0) }
    ensures callers { IfOk result (λ r. CallersCome site.entry.shared.now (cast_of callers.entry) r.1) }
{
    let FlusherOfCrew { seat, run } = flusher;
    let promise = FlusherPromise {
        site,
        seat: Snapshot::of(&seat),
        run,
    };
    let child = start_flusher(scope, rt, seat, promise)?;
    let CallersOfCrew {
        seats,
        cast,
        scripts,
    } = callers;
    let others = play_callers(scope, rt, gate, site, seats, cast, scripts);
    let flusher = child.join(rt)?;
    Ok((flusher, others?))
}

/// The clock's thread, beside those of flusher and callers. A clock without ticks needs none.
fn tick_and_flush<'s, E, R: Threads + Wait + Sync, G: Gate + Sync>(
    scope: &Scope<'s, E>,
    rt: &'s R,
    gate: &'s G,
    site: Site<'s>,
    clock: ClockOfCrew,
    flusher: FlusherOfCrew,
    callers: CallersOfCrew<'s>,
) -> Result<(SeatBack, (FlusherBack, CallersBack)), NoMemory>
    requires clock { CanPlayClock site.shared.now clock.seat }
    requires flusher { CanPlayFlusher site.shared.now flusher.run flusher.seat }
    requires callers { CanPlayCallers site.shared.now callers }
    requires none { site.no_calls.now.items ≡ [] }
    ensures clock { IfOk result (λ r. ClockComes site.entry.shared.now clock.ticks (list_seen clock.seat) r.0) }
    ensures flusher { IfOk result (λ r. FlusherComes site.entry.shared.now flusher.run flusher.seat r.1.0) }
    ensures callers { IfOk result (λ r. CallersCome site.entry.shared.now (cast_of callers.entry) r.1.1) }
{
    let ClockOfCrew { seat, ticks } = clock;
    if ticks == 0 {
        // what is left to the clock is its end
        let clock = tick_all(rt, site.shared, seat, 0);
        let others = flush_and_call(scope, rt, gate, site, flusher, callers)?;
        return Ok((clock, others));
    }
    let promise = ClockPromise {
        site,
        seat: Snapshot::of(&seat),
        ticks,
    };
    let child = start_clock(scope, rt, seat, promise)?;
    let others = flush_and_call(scope, rt, gate, site, flusher, callers);
    let clock = child.join(rt)?;
    Ok((clock, others?))
}

/// The line's thread, beside those of clock, flusher and callers.
fn run_all<'s, E, R: Threads + Wait + Sync, G: Gate + Sync>(
    scope: &Scope<'s, E>,
    rt: &'s R,
    alloc: Global,
    gate: &'s G,
    site: Site<'s>,
    crew: Crew<'s>,
) -> Result<CrewBack, NoMemory>
    requires can { CanRun site.shared.now crew }
    requires none { site.no_calls.now.items ≡ [] }
    ensures { IfOk result (CrewComes site.entry.shared.now crew.entry) }
{
    let Crew {
        line,
        clock,
        flusher,
        callers,
    } = crew;
    let LineOfCrew {
        receiver,
        steps,
        phase,
    } = line;
    let promise = LinePromise {
        site,
        receiver: Snapshot::of(&receiver),
        steps,
        phase,
    };
    let child = start_line(scope, rt, alloc, gate, receiver, promise)?;
    let others = tick_and_flush(scope, rt, gate, site, clock, flusher, callers);
    let line = child.join(rt)?;
    let (clock, (flusher, callers)) = others?;
    Ok(CrewBack {
        line,
        clock,
        flusher,
        callers,
    })
}

/// Runs the threads of a phase side by side, none of which acts before all are made. Where one cannot be
/// made, nothing is played.
pub(crate) fn run_crew<R: Threads + Wait + Sync, G: Gate + Sync>(
    rt: &R,
    alloc: Global,
    gate: &G,
    shared: &SharedPort,
    crew: Crew<'_>,
) -> Result<CrewBack, NoMemory>
    requires can { CanRun shared.now crew }
    ensures { IfOk result (CrewComes shared.now crew.entry) }
{
    let start = Start::new();
    let no_calls = Calls::new(alloc);
    let site = Site {
        shared,
        start: &start,
        no_calls: &no_calls,
    };
    thread::scope(
        thread::scope_env(),
        rt,
        move |scope| -> Result<CrewBack, NoMemory>
            requires { CanRun site.shared.now crew × (site.no_calls.now.items ≡ []) }
            ensures { IfOk result (CrewComes site.entry.shared.now crew.entry) }
        { run_all(scope, rt, alloc, gate, site, crew) },
    )
}

/// Runs the flusher's thread and the callers' threads of a phase side by side, where others play its line and its
/// clock. None acts before `start` is open, which it is told once these threads are made.
pub fn run_beside<R: Threads + Wait + Sync, G: Gate + Sync>(
    rt: &R,
    alloc: Global,
    gate: &G,
    shared: &SharedPort,
    start: &Start,
    flusher: FlusherOfCrew,
    callers: CallersOfCrew<'_>,
) -> Result<(FlusherBack, CallersBack), NoMemory>
    requires flusher { CanPlayFlusher shared.now flusher.run flusher.seat }
    requires callers { CanPlayCallers shared.now callers }
    ensures flusher { IfOk result (λ r. FlusherComes shared.now flusher.run flusher.seat r.0) }
    ensures callers { IfOk result (λ r. CallersCome shared.now (cast_of callers.entry) r.1) }
{
    let no_calls = Calls::new(alloc);
    let site = Site {
        shared,
        start,
        no_calls: &no_calls,
    };
    thread::scope(
        thread::scope_env(),
        rt,
        move |scope| -> Result<(FlusherBack, CallersBack), NoMemory>
            requires { CanPlayFlusher site.shared.now flusher.run flusher.seat × CanPlayCallers site.shared.now callers
                × (site.no_calls.now.items ≡ []) }
            ensures { IfOk result (λ r. FlusherComes site.entry.shared.now flusher.run flusher.seat r.0
                × CallersCome site.entry.shared.now (cast_of callers.entry) r.1) }
        { flush_and_call(scope, rt, gate, site, flusher, callers) },
    )
}
