//! A console in its parts for the threads of a phase, and whole again after it.

ghost use Rattle.std.specs.Prelude.{◌≡◌, ◌≤◌, ◌<◌, ◌+◌, ◌^◌, ◌++◌, List, None, Some};
ghost use Rattle.std.specs.Prelude.{IsSome, IfOk, All, length, map, replicate, sum};
ghost use Rattle.tty_base.specs.Sizes.{MOST_CALLER_SEATS};
ghost use Rattle.tty_base.specs.declared.characters.Flagged.{Flagged};
ghost use Rattle.word_ring.specs.Ends.{PutterState};
ghost use Rattle.uart_line.specs.LineState.{LineState};
ghost use Rattle.tty_calls.specs.Limits.{IsWithinLimits};
ghost use Rattle.tty_calls.specs.Sessions.{counts_on, session_of};
ghost use Rattle.play_base.specs.Roles.{Scene, AreFirstSteps, AreRolesOf, names_in, role_in, scene_of};
ghost use Rattle.play_base.specs.Casting.{scripts_at};
ghost use Rattle.play_base.specs.declared.stations.Station.{Station};
ghost use Rattle.many_threads.specs.Cast.{seated};
ghost use Rattle.many_threads.specs.PhaseEnds.{PhaseComes};
ghost use Rattle.many_threads.specs.declared.seats.Seats.{Seats};
ghost use Rattle.many_threads.specs.declared.shared_phase.PhaseWork.{PhaseWork};
ghost use Rattle.vt_consoles.specs.declared.entries.VtEntry.{VtEntry};
ghost use Rattle.vt_text.specs.Sessions.{vt_session_of};
ghost use Rattle.vt_account.specs.Keyed.{IsWithinKeys};
ghost use Rattle.vt_threads.specs.Between.{IsConsoleBefore};
ghost use Rattle.vt_threads.specs.Halves.{SomeThreadsOver, ThreadsOver, crew_back};
ghost use Rattle.vt_threads.specs.Parting.{CanPutTogether, HasMovedOn, IsDealtOut, IsParted, IsPartedFull};
ghost use Rattle.vt_threads.specs.Parting.{IsPartedShared, IsPlayed, IsPlayedIn, IsPutTogether, IsSomeConsoleBefore};

use crate::console_phase::{Shut, share_console, unshare_console};
use crate::consoles::Console;
use flip_buffer::FlipIn;
use many_threads::{
    CallersBack, CrewBack, FlusherBack, LineBack, PhaseEnd, Receiver, SeatBack, Seats, beside,
    seat_roles,
};
use play_base::{Role, Station, move_on, roles_of, scripts_of, ticks_of};
use port_core::Port;
use std::alloc::Global;
use tty_base::NoMemory;
use tty_calls::{Names, Session};
use tty_port::{Seat, SharedPort};
use uart_line::Line;
use vt_keyboard::KeySeats;
use vt_text::VtSession;

/// The callers of a console in a phase: their names and how many there are in all phases; their roles, and the cast.
#[derive(Drop)]
pub struct Casting {
    pub names: Names,
    pub callers: usize,
    pub roles: Vec<Role>,
    pub cast: Vec<Option<Role>>,
}

/// The seats of a console's flusher, whose next run has this number, and of its callers.
#[derive(Drop)]
pub struct OwnSeats {
    pub flusher: Seat,
    pub run: u32,
    pub callers: Vec<Seat>,
}

/// What of a console no thread of a phase takes.
#[derive(Drop)]
pub struct Rest {
    pub casting: Casting,
    pub steps: Vec<u32>,
    pub standing: Standing,
}

/// The seat of the session at a shared port; or a port whose journal is full, which is not shared.
#[derive(Drop)]
pub enum Standing {
    Shared(Seat),
    Full(Port),
}

/// A console in its parts.
#[derive(Drop)]
pub struct Parted {
    pub port: Option<SharedPort>,
    pub seats: Option<KeySeats>,
    pub own: Option<OwnSeats>,
    pub line: Line,
    pub end: FlipIn,
    pub rest: Rest,
}

/// A console in its parts after the threads of a phase.
#[derive(Drop)]
pub struct PartedBack {
    pub port: Option<SharedPort>,
    pub seats: Option<KeySeats>,
    pub own: Option<(FlusherBack, CallersBack)>,
    pub line: Line,
    pub end: FlipIn,
    pub rest: Rest,
}

/// The roles of a console's callers in a phase, and the cast of these roles.
fn cast_console(
    alloc: Global,
    session: &Session,
    number: usize,
    k: usize,
    console: &Console,
) -> Result<(Vec<Role>, Vec<Option<Role>>), NoMemory>
    requires within { IsWithinLimits (session_of session.now) }
    requires phase { k < length (session_of session.now).phases }
    requires names { console.now.names ≡ names_in (scene_of number session.now) }
    requires callers { console.now.callers ≡ sum (counts_on number (session_of session.now)) }
    requires steps { AreFirstSteps (scene_of number session.now) k console.now.station.steps.items }
    ensures roles { IfOk result
        (λ r. AreRolesOf (scene_of number session.now) k (map (role_in (scripts_at session.now k)) r.0.items)) }
    ensures cast { IfOk result (λ r. r.1.items ≡ seated r.0.items (replicate console.now.callers None)) }
{
    let steps = console.station.steps.as_slice();
    let roles = roles_of(alloc, session, number, k, &console.names, steps)?;
    let cast = seat_roles(alloc, roles.as_slice(), console.callers)?;
    Ok((roles, cast))
}

/// The parts of a console whose journal is full.
fn part_full(station: Station, casting: Casting) -> Parted
    ensures full { IsPartedFull station result }
    ensures casting { result.rest.casting ≡ casting }
    ensures steps { result.rest.steps ≡ station.steps }
{
    let Station {
        port,
        putter,
        line,
        steps,
    } = station;
    Parted {
        port: None,
        seats: None,
        own: None,
        line,
        end: putter,
        rest: Rest {
            casting,
            steps,
            standing: Standing::Full(port),
        },
    }
}

/// The parts of a console whose port is shared.
fn dealt_out(shut: Shut, casting: Casting, ticks: u32, run: u32) -> Parted
    ensures dealt { IsDealtOut shut ticks run result }
    ensures casting { result.rest.casting ≡ casting }
    ensures steps { result.rest.steps ≡ shut.steps }
{
    let Shut {
        shared,
        dealt,
        line,
        putter,
        steps,
    } = shut;
    let Seats {
        callers,
        flusher,
        line: line_seat,
        clock,
        session,
    } = dealt;
    let keys = KeySeats {
        line: line_seat,
        clock,
        ticks,
        line_result: Ok(()),
        clock_result: Ok(()),
    };
    Parted {
        port: Some(shared),
        seats: Some(keys),
        own: Some(OwnSeats {
            flusher,
            run,
            callers,
        }),
        line,
        end: putter,
        rest: Rest {
            casting,
            steps,
            standing: Standing::Shared(session),
        },
    }
}

/// Shares the port of a console for a phase with so many ticks, whose first flush run has this number.
fn part_shared(
    alloc: Global,
    station: Station,
    casting: Casting,
    ticks: u32,
    run: u32,
) -> Result<Parted, NoMemory>
    requires few { casting.callers ≤ MOST_CALLER_SEATS }
    requires ring { station.putter.ring ≡ station.port.flip.ring }
    ensures shared { IfOk result (IsPartedShared station casting.callers ticks run) }
    ensures casting { IfOk result (λ q. q.rest.casting ≡ casting) }
    ensures steps { IfOk result (λ q. q.rest.steps ≡ station.steps) }
{
    let shut = share_console(alloc, station, casting.callers);
    let (casting, shut) = beside(casting, shut)?;
    Ok(dealt_out(shut, casting, ticks, run))
}

/// Parts a console for a phase. One whose journal is full is not shared.
pub fn part_console(
    alloc: Global,
    session: &VtSession,
    number: usize,
    k: usize,
    console: Console,
) -> Result<Parted, NoMemory>
    requires within { IsWithinKeys (vt_session_of session.now) }
    requires port { number < (vt_session_of session.now).calls.ports }
    requires phase { k < length (vt_session_of session.now).calls.phases }
    requires before { IsSomeConsoleBefore (vt_session_of session.now) number k console }
    ensures { IfOk result (IsParted session.now.calls number k console) }
{
    let calls = &session.calls;
    let ticks = ticks_of(calls, number, k);
    let roles_and_cast = cast_console(alloc, calls, number, k, &console);
    let (console, (roles, cast)) = beside(console, roles_and_cast)?;
    let Console {
        names,
        callers,
        station,
        end,
    } = console;
    let casting = Casting {
        names,
        callers,
        roles,
        cast,
    };
    match end {
        PhaseEnd::Over(run) => part_shared(alloc, station, casting, ticks, run),
        PhaseEnd::Full => Ok(part_full(station, casting)),
    }
}

/// What is there.
fn taken<T: Drop>(one: Option<T>) -> T
    requires { IsSome one }
    ensures { one ≡ Some result }
{
    let Some(it) = one else { unreachable!() };
    it
}

/// Lets go of what a full console does not have.
fn let_go<T: Drop>(_one: T) {}

/// A console whose threads came back from a phase, with its port whole again.
fn whole_shared(
    shared: SharedPort,
    seats: KeySeats,
    own: (FlusherBack, CallersBack),
    session: Seat,
    line: Line,
    end: FlipIn,
    steps: Vec<u32>,
) -> Result<(Station, PhaseEnd), NoMemory>
    requires { SomeThreadsOver shared session (crew_back seats line end own.0 own.1) }
    ensures comes { (s : Scene) (old : Station) (work : PhaseWork) (dealt : Seats) (l : LineState)
        (putter : PutterState Flagged)
        → ThreadsOver s old work shared dealt l putter session (crew_back seats line end own.0 own.1)
        → IfOk result (λ r. PhaseComes s work.phase old r.0 r.1) }
    ensures steps { IfOk result (λ r. r.0.steps ≡ steps) }
{
    let KeySeats {
        line: line_seat,
        clock,
        ticks: _,
        line_result,
        clock_result,
    } = seats;
    let (flusher, callers) = own;
    let receiver = Receiver {
        seat: line_seat,
        line,
        putter: end,
    };
    let back = CrewBack {
        line: LineBack {
            receiver,
            result: line_result,
        },
        clock: SeatBack {
            seat: clock,
            result: clock_result,
        },
        flusher,
        callers,
    };
    unshare_console(shared, back, session, steps)
}

/// Puts the parts of a console together again, but for its callers.
fn put_together(
    port: Option<SharedPort>,
    seats: Option<KeySeats>,
    own: Option<(FlusherBack, CallersBack)>,
    line: Line,
    end: FlipIn,
    steps: Vec<u32>,
    standing: Standing,
) -> Result<(Station, PhaseEnd), NoMemory>
    requires { CanPutTogether port seats own line end standing }
    ensures whole { IfOk result (IsPutTogether port seats own line end standing) }
    ensures steps { IfOk result (λ r. r.0.steps ≡ steps) }
{
    match standing {
        Standing::Full(full) => {
            let_go(port);
            let_go(seats);
            let_go(own);
            let station = Station {
                port: full,
                putter: end,
                line,
                steps,
            };
            Ok((station, PhaseEnd::Full))
        }
        Standing::Shared(session) => {
            let shared = taken(port);
            let seats = taken(seats);
            let own = taken(own);
            whole_shared(shared, seats, own, session, line, end, steps)
        }
    }
}

/// A console after a phase, with the next steps of its callers moved on.
fn moved_on(
    session: &VtSession,
    k: usize,
    casting: Casting,
    mut station: Station,
    end: PhaseEnd,
) -> Console
    requires phase { k < length (vt_session_of session.now).calls.phases }
    requires within { All (λ r. r.number < length station.steps.items)
        (map (role_in (scripts_at session.now.calls k)) casting.roles.items) }
    requires few { All (λ r. r.first + length r.calls < 2 ^ 32)
        (map (role_in (scripts_at session.now.calls k)) casting.roles.items) }
    ensures { HasMovedOn (scripts_at session.now.calls k) casting station end result }
{
    let scripts = scripts_of(&session.calls, k);
    move_on(
        casting.roles.as_slice(),
        scripts,
        station.steps.as_mut_slice(),
    );
    let Casting {
        names,
        callers,
        roles: _,
        cast: _,
    } = casting;
    Console {
        names,
        callers,
        station,
        end,
    }
}

/// A console before the next phase, from its parts after this one.
pub fn whole_console(
    session: &VtSession,
    number: usize,
    k: usize,
    back: PartedBack,
) -> Result<Console, NoMemory>
    requires within { IsWithinKeys (vt_session_of session.now) }
    requires port { number < (vt_session_of session.now).calls.ports }
    requires phase { k < length (vt_session_of session.now).calls.phases }
    requires played { IsPlayed session.now number k back }
    ensures { (entries part : List VtEntry)
        → IsPlayedIn session.now number k entries part back
        → IfOk result (IsConsoleBefore (vt_session_of session.now) number (k + 1) (entries ++ part)) }
{
    let PartedBack {
        port,
        seats,
        own,
        line,
        end,
        rest,
    } = back;
    let Rest {
        casting,
        steps,
        standing,
    } = rest;
    let left = put_together(port, seats, own, line, end, steps, standing);
    let (casting, (station, end)) = beside(casting, left)?;
    let _number = number; // for the contract alone
    Ok(moved_on(session, k, casting, station, end))
}
