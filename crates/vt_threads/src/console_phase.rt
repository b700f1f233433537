//! A phase of a console in two halves round its threads: its port is shared, and later whole again.

ghost use Rattle.std.specs.Prelude.{◌≡◌, ◌≤◌, IfOk};
ghost use Rattle.tty_base.specs.Sizes.{MOST_CALLER_SEATS};
ghost use Rattle.tty_base.specs.declared.characters.Flagged.{Flagged};
ghost use Rattle.uart_line.specs.LineState.{LineState};
ghost use Rattle.word_ring.specs.Ends.{PutterState};
ghost use Rattle.play_base.specs.Roles.{Scene};
ghost use Rattle.play_base.specs.declared.stations.Station.{Station};
ghost use Rattle.many_threads.specs.declared.seats.Seats.{Seats};
ghost use Rattle.many_threads.specs.declared.shared_phase.PhaseWork.{PhaseWork};
ghost use Rattle.many_threads.specs.PhaseEnds.{PhaseComes};
ghost use Rattle.vt_threads.specs.Halves.{IsShut, SomeThreadsOver, ThreadsOver};

use flip_buffer::FlipIn;
use many_threads::{
    CrewBack, PhaseBack, PhaseEnd, Seats, finish_phase, share, take_together, unshare,
};
use play_base::Station;
use std::alloc::Global;
use tty_base::NoMemory;
use tty_port::{Seat, SharedPort};
use uart_line::Line;

/// A console whose port is shared for a phase.
#[derive(Drop)]
pub struct Shut {
    pub shared: SharedPort,
    pub dealt: Seats,
    pub line: Line,
    pub putter: FlipIn,
    pub steps: Vec<u32>,
}

/// Shares the port of a console that has so many callers, and deals out its seats.
pub fn share_console(alloc: Global, mut station: Station, callers: usize) -> Result<Shut, NoMemory>
    requires few { callers ≤ MOST_CALLER_SEATS }
    requires ring { station.putter.ring ≡ station.port.flip.ring }
    ensures shut { IfOk result (λ r. IsShut station callers r.shared r.dealt r.line r.putter) }
    ensures steps { IfOk result (λ r. r.steps ≡ station.steps) }
{
    station.port.meet(&mut station.putter);
    let Station {
        port,
        putter,
        line,
        steps,
    } = station;
    let (shared, dealt) = share(alloc, port, callers)?;
    Ok(Shut {
        shared,
        dealt,
        line,
        putter,
        steps,
    })
}

/// Has the port of a console whole again after the threads of a phase, and ends the phase where it may end. Whatever
/// scene the threads played, this is what comes of its phase.
pub fn unshare_console(
    shared: SharedPort,
    back: CrewBack,
    session: Seat,
    steps: Vec<u32>,
) -> Result<(Station, PhaseEnd), NoMemory>
    requires { SomeThreadsOver shared session back }
    ensures comes { (s : Scene) (old : Station) (work : PhaseWork) (dealt : Seats) (line : LineState)
        (putter : PutterState Flagged)
        → ThreadsOver s old work shared dealt line putter session back
        → IfOk result (λ r. PhaseComes s work.phase old r.0 r.1) }
    ensures steps { IfOk result (λ r. r.0.steps ≡ steps) }
{
    let taken = take_together(back, session)?;
    let PhaseBack {
        seats,
        line,
        putter,
        end,
    } = taken;
    let port = unshare(shared, seats)?;
    let left = Station {
        port,
        putter,
        line,
        steps,
    };
    finish_phase(left, end)
}
