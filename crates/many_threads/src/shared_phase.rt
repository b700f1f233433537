//! A phase of a port on threads: the port is shared for it, and whole again at its end.

ghost use Rattle.std.specs.Prelude.{◌≡◌, ◌≤◌, true, IfOk};
ghost use Rattle.tty_base.specs.Sizes.{MOST_CALLER_SEATS};
ghost use Rattle.tty_terminal.specs.Steps.{may_end};
ghost use Rattle.play_base.specs.Roles.{Scene};
ghost use Rattle.play_base.specs.declared.stations.Station.{Station};
ghost use Rattle.many_threads.specs.declared.shared_phase.PhaseWork.{PhaseWork};
ghost use Rattle.many_threads.specs.Crew.{crew_in};
ghost use Rattle.many_threads.specs.PhaseStarts.{CanPlayPhase};
ghost use Rattle.many_threads.specs.PhaseEnds.{AreBack, IsShared, IsClosed, IsNextTold, end_of, IsEndBy, AreTaken};
ghost use Rattle.many_threads.specs.PhaseEnds.{CanFinish, EndsOrStops, PhaseComes, ThreadsLeave};

use crate::caller_threads::is_full;
use crate::crew::{CallersOfCrew, ClockOfCrew, Crew, CrewBack, FlusherOfCrew, LineOfCrew};
use crate::keeping::beside;
use crate::line_part::Receiver;
use crate::seats::{Seats, deal, gather};
use flip_buffer::FlipIn;
use line_steps::LineSteps;
use play_base::{Role, Station};
use port_core::Port;
use std::alloc::Global;
use tty_base::NoMemory;
use tty_calls::{Denied, Script};
use tty_port::{Seat, SharedPort};
use uart_line::Line;

/// What a phase asks of a port: the steps of its line, the ticks of its clock, and the roles of its callers
/// from these scripts; beside it the phase's own number, and that of the next flush run.
#[derive(Clone, Copy)]
pub struct PhaseWork<'s> {
    pub phase: u32,
    pub run: u32,
    pub steps: &'s LineSteps,
    pub ticks: u32,
    pub cast: &'s [Option<Role>],
    pub scripts: &'s [Script],
}

/// What a phase came to: its end, with the number of the next flush run, or a full journal.
#[derive(Clone, Copy)]
pub enum PhaseEnd {
    Over(u32),
    Full,
}

/// What the threads of a phase leave: all seats of the port, its line with the putting end, and whether
/// the phase may end.
#[derive(Drop)]
pub struct PhaseBack {
    pub seats: Seats,
    pub line: Line,
    pub putter: FlipIn,
    pub end: PhaseEnd,
}

/// Shares a port of so many callers, and deals out its seats.
pub fn share(alloc: Global, port: Port, callers: usize) -> Result<(SharedPort, Seats), NoMemory>
    requires { callers ≤ MOST_CALLER_SEATS }
    ensures { IfOk result (λ r. IsShared callers port r.0 r.1) }
{
    port.known();
    let (shared, seats) = SharedPort::new(alloc, port, callers as u32 + 4)?;
    let dealt = deal(&shared, seats);
    Ok((shared, dealt))
}

/// Ends the sharing, with all seats.
pub fn unshare(shared: SharedPort, seats: Seats) -> Result<Port, NoMemory>
    requires { AreBack shared seats }
    ensures { IfOk result (λ port. IsClosed shared seats port) }
{
    let all = gather(seats);
    let (shared, all) = beside(shared, all)?;
    Ok(shared.close(all))
}

/// The number of the next flush run, where the journal is not full.
fn next_after(outcome: Result<u32, Denied>) -> Result<Option<u32>, NoMemory>
    ensures { IfOk result (λ next. IsNextTold outcome next) }
{
    match outcome {
        Ok(next) => Ok(Some(next)),
        Err(Denied::Full) => Ok(None),
        Err(Denied::NoMemory) => Err(NoMemory),
    }
}

/// What a phase comes to whose flusher would go on with this run.
fn end_of(next: Option<u32>, full: bool) -> PhaseEnd
    ensures { result ≡ end_of next full }
{
    match next {
        Some(next) if !full => PhaseEnd::Over(next),
        _ => PhaseEnd::Full,
    }
}

/// What a phase comes to by what its threads were answered.
fn end_by(back: &CrewBack) -> Result<PhaseEnd, NoMemory>
    ensures { IfOk result (IsEndBy back.now) }
{
    let line_full = is_full(back.line.result)?;
    let clock_full = is_full(back.clock.result)?;
    let next = next_after(back.flusher.result)?;
    Ok(end_of(next, back.callers.full || line_full || clock_full))
}

/// Takes together what the threads brought back. Memory that was wanting on one of them is wanting.
pub fn take_together(back: CrewBack, session: Seat) -> Result<PhaseBack, NoMemory>
    ensures { IfOk result (AreTaken back session) }
{
    let end = end_by(&back);
    let (back, end) = beside(back, end)?;
    let CrewBack {
        line,
        clock,
        flusher,
        callers,
    } = back;
    let Receiver { seat, line, putter } = line.receiver;
    Ok(PhaseBack {
        seats: Seats {
            callers: callers.seats,
            flusher: flusher.seat,
            line: seat,
            clock: clock.seat,
            session,
        },
        line,
        putter,
        end,
    })
}

/// The crew of a phase: each with its seat and its part of the work, and the line with its putter. The seat of
/// the session is left.
pub fn crew_of<'s>(
    seats: Seats,
    line: Line,
    putter: FlipIn,
    work: PhaseWork<'s>,
) -> (Crew<'s>, Seat)
    ensures crew { result.0 ≡ crew_in seats line putter work.entry }
    ensures session { result.1 ≡ seats.session }
{
    let receiver = Receiver {
        seat: seats.line,
        line,
        putter,
    };
    let crew = Crew {
        line: LineOfCrew {
            receiver,
            steps: work.steps,
            phase: work.phase,
        },
        clock: ClockOfCrew {
            seat: seats.clock,
            ticks: work.ticks,
        },
        flusher: FlusherOfCrew {
            seat: seats.flusher,
            run: work.run,
        },
        callers: CallersOfCrew {
            seats: seats.callers,
            cast: work.cast,
            scripts: work.scripts,
        },
    };
    (crew, seats.session)
}

/// Ends a phase that may end.
fn end_phase(port: &mut Port, putter: &mut FlipIn, next: u32) -> Result<PhaseEnd, NoMemory>
    requires may { may_end port.old.counts port.old.terminal ≡ true }
    requires ring { putter.old.ring ≡ port.old.flip.ring }
    ensures { IfOk result (EndsOrStops port.old port.new putter.old putter.new next) }
{
    match port.phase_end(putter) {
        Ok(()) => Ok(PhaseEnd::Over(next)),
        Err(Denied::Full) => Ok(PhaseEnd::Full),
        Err(Denied::NoMemory) => Err(NoMemory),
    }
}

/// Ends the phase of a port where it may end, after its threads. Whatever scene they played, this is what comes of its
/// phase.
pub fn finish_phase(mut left: Station, end: PhaseEnd) -> Result<(Station, PhaseEnd), NoMemory>
    requires { CanFinish left end }
    ensures comes { (s : Scene) (old : Station) (work : PhaseWork)
        → CanPlayPhase s old work
        → ThreadsLeave s work.phase old left end
        → IfOk result (λ r. PhaseComes s work.phase old r.0 r.1) }
    ensures steps { IfOk result (λ r. r.0.steps ≡ left.steps) }
{
    let PhaseEnd::Over(next) = end else {
        return Ok((left, PhaseEnd::Full));
    };
    let end = end_phase(&mut left.port, &mut left.putter, next);
    beside(left, end)
}
