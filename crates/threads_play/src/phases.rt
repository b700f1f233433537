//! A phase of a port on threads: the port is shared for it, and whole again at its end.

ghost use Rattle.std.specs.Prelude.{◌≡◌, IfOk, length};
ghost use Rattle.play_base.specs.Roles.{Scene};
ghost use Rattle.play_base.specs.Putting.{KnowsTaken};
ghost use Rattle.many_threads.specs.Crew.{CanRun, seats_of};
ghost use Rattle.many_threads.specs.Seats.{AreDealt};
ghost use Rattle.many_threads.specs.PhaseStarts.{CanPlayPhase};
ghost use Rattle.many_threads.specs.PhaseEnds.{ThreadsCome, ThreadsLeave, PhaseComes};

use crate::running::run_crew;
use many_threads::{
    Crew, PhaseBack, PhaseEnd, PhaseWork, crew_of, finish_phase, share, take_together, unshare,
};
use play_base::Station;
use std::alloc::Global;
use std::sync::Wait;
use std::thread::Threads;
use tty_base::NoMemory;
use tty_port::{Gate, Seat, SharedPort};

/// Runs the crew of a phase beside the session's seat, and takes together what it brings back.
fn play_together<R: Threads + Wait + Sync, G: Gate + Sync>(
    rt: &R,
    alloc: Global,
    gate: &G,
    shared: &SharedPort,
    crew: Crew<'_>,
    session: Seat,
) -> Result<PhaseBack, NoMemory>
    requires can { CanRun shared.now crew }
    requires dealt { AreDealt shared.now (seats_of crew session) }
    ensures { IfOk result (ThreadsCome shared.now crew.entry) }
{
    let back = run_crew(rt, alloc, gate, shared, crew)?;
    take_together(back, session)
}

/// Shares a port for the threads of its phase, and has it whole again after them.
fn play_threads<R: Threads + Wait + Sync, G: Gate + Sync>(
    rt: &R,
    alloc: Global,
    gate: &G,
    station: Station,
    work: PhaseWork<'_>,
) -> Result<(Station, PhaseEnd), NoMemory>
    ghost scene: { Scene }
    requires can { CanPlayPhase scene station work }
    requires knows { KnowsTaken (length station.port.flip.taken) station.putter.heads }
    ensures left { IfOk result (λ r. ThreadsLeave scene work.entry.phase station r.0 r.1) }
    ensures steps { IfOk result (λ r. r.0.steps ≡ station.steps) }
{
    let Station {
        port,
        putter,
        line,
        steps,
    } = station;
    let (shared, dealt) = share(alloc, port, work.cast.len())?;
    let (crew, session) = crew_of(dealt, line, putter, work);
    let back = play_together(rt, alloc, gate, &shared, crew, session)?;
    let PhaseBack {
        seats,
        line,
        putter,
        end,
    } = back;
    let port = unshare(shared, seats)?;
    let left = Station {
        port,
        putter,
        line,
        steps,
    };
    Ok((left, end))
}

/// Plays a phase of a port: its callers, line, flusher and a clock that ticks side by side on threads, and
/// then its end. A port whose journal is full plays no further phase.
pub(crate) fn play_shared<R: Threads + Wait + Sync, G: Gate + Sync>(
    rt: &R,
    alloc: Global,
    gate: &G,
    mut station: Station,
    work: PhaseWork<'_>,
) -> Result<(Station, PhaseEnd), NoMemory>
    ghost scene: { Scene }
    requires can { CanPlayPhase scene station work }
    ensures comes { IfOk result (λ r. PhaseComes scene work.entry.phase station r.0 r.1) }
    ensures steps { IfOk result (λ r. r.0.steps ≡ station.steps) }
{
    station.port.meet(&mut station.putter);
    let (left, end) = play_threads(rt, alloc, gate, station, work)?;
    finish_phase(left, end)
}
