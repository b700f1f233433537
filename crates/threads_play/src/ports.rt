//! The ports of a session on threads, from their opening to their end.

ghost use Rattle.std.specs.Prelude.{◌≡◌, ◌+◌, ◌<◌, ◌≤◌, None, IfOk, length, map, replicate, sum};
ghost use Rattle.std.specs.Thread.{IsSync};
ghost use Rattle.tty_calls.specs.Limits.{IsWithinLimits};
ghost use Rattle.tty_calls.specs.Sessions.{session_of, counts_on};
ghost use Rattle.play_base.specs.Played.{IsPlayedOn};
ghost use Rattle.play_base.specs.Roles.{Scene, scene_of, names_in, role_in, AreRolesOf, AreFirstSteps};
ghost use Rattle.play_base.specs.Casting.{scripts_at};
ghost use Rattle.many_threads.specs.Cast.{seated};
ghost use Rattle.many_threads.specs.PhaseStarts.{CanPlayPhase};
ghost use Rattle.many_threads.specs.PhaseEnds.{PhaseComes};
ghost use Rattle.many_threads.specs.InPlay.{IsBeforePhase, CanEnd};
ghost use Rattle.threads_play.specs.PortsInPlay.{IsInPlay, AreInPlay};

use crate::phases::play_shared;
use many_threads::{PhaseEnd, PhaseWork, beside, caller_count, end_port, seat_roles};
use play_base::{
    Role, Station, counts_of, move_on, open_port, roles_of, scripts_of, steps_of, ticks_of,
};
use std::alloc::Global;
use std::sync::Wait;
use std::thread::{Threads, join};
use tty_base::NoMemory;
use tty_calls::{Names, PortEnd, PortRun, Session};
use tty_port::Gate;

/// A port that is played: its number, the names of its callers, and how many callers its phases have; the
/// port with its line and their next steps; and what its latest phase came to.
#[derive(Drop)]
pub(crate) struct PortInPlay {
    number: usize,
    names: Names,
    callers: usize,
    station: Station,
    end: PhaseEnd,
}

/// A port at the beginning of its session.
fn open(alloc: Global, session: &Session, number: usize) -> Result<PortInPlay, NoMemory>
    requires within { IsWithinLimits (session_of session.now) }
    requires port { number < (session_of session.now).ports }
    ensures { IfOk result (IsInPlay (scene_of number session.now) 0) }
{
    let counts = counts_of(alloc, session, number)?;
    let callers = caller_count(counts.as_slice());
    let names = Names::on_port(alloc, session, number)?;
    let station = open_port(alloc, session, number, &names)?;
    Ok(PortInPlay {
        number,
        names,
        callers,
        station,
        end: PhaseEnd::Over(0),
    })
}

/// All ports at the beginning of a session.
pub(crate) fn open_all(alloc: Global, session: &Session) -> Result<Vec<PortInPlay>, NoMemory>
    requires { IsWithinLimits (session_of session.now) }
    ensures { IfOk result (λ all. AreInPlay (session_of session.now) 0 all.items
        × (length all.items ≡ (session_of session.now).ports)) }
{
    let mut all = Vec::new(alloc);
    for number in 0..usize::from(session.ports) {
        all.push(open(alloc, session, number)?)?;
    }
    Ok(all)
}

/// Plays a phase of a port by its work. The callers' next steps are left as they are.
fn play_work<R: Threads + Wait + Sync, G: Gate + Sync>(
    rt: &R,
    alloc: Global,
    gate: &G,
    port: PortInPlay,
    work: PhaseWork<'_>,
) -> Result<PortInPlay, NoMemory>
    ghost scene: { Scene }
    requires { CanPlayPhase scene port.station work }
    ensures comes { IfOk result (λ r. PhaseComes scene work.entry.phase port.station r.station r.end) }
    ensures steps { IfOk result (λ r. r.station.steps ≡ port.station.steps) }
    ensures number { IfOk result (λ r. r.number ≡ port.number) }
    ensures names { IfOk result (λ r. r.names ≡ port.names) }
    ensures callers { IfOk result (λ r. r.callers ≡ port.callers) }
{
    let PortInPlay {
        number,
        names,
        callers,
        station,
        end: _,
    } = port;
    let (station, end) = play_shared(rt, alloc, gate, station, work)?;
    Ok(PortInPlay {
        number,
        names,
        callers,
        station,
        end,
    })
}

/// The roles of a port's callers in a phase, and the cast of these roles.
fn cast_roles(
    alloc: Global,
    session: &Session,
    k: usize,
    port: &PortInPlay,
) -> Result<(Vec<Role>, Vec<Option<Role>>), NoMemory>
    requires within { IsWithinLimits (session_of session.now) }
    requires phase { k < length (session_of session.now).phases }
    requires names { port.now.names ≡ names_in (scene_of port.now.number session.now) }
    requires callers { port.now.callers ≡ sum (counts_on port.now.number (session_of session.now)) }
    requires steps { AreFirstSteps (scene_of port.now.number session.now) k port.now.station.steps.items }
    ensures roles { IfOk result (λ r.
        AreRolesOf (scene_of port.now.number session.now) k (map (role_in (scripts_at session.now k)) r.0.items)) }
    ensures cast { IfOk result (λ r. r.1.items ≡ seated r.0.items (replicate port.now.callers None)) }
{
    let steps = port.station.steps.as_slice();
    let roles = roles_of(alloc, session, port.number, k, &port.names, steps)?;
    let cast = seat_roles(alloc, roles.as_slice(), port.callers)?;
    Ok((roles, cast))
}

/// Plays a phase of a port whose journal is not full, and whose next flush run has this number.
fn play_on<R: Threads + Wait + Sync, G: Gate + Sync>(
    rt: &R,
    alloc: Global,
    session: &Session,
    gate: &G,
    k: usize,
    port: PortInPlay,
    run: u32,
) -> Result<PortInPlay, NoMemory>
    ghost scene: { Scene }
    requires scene { scene ≡ scene_of port.number session.now }
    requires within { IsWithinLimits (session_of session.now) }
    requires phase { k < length (session_of session.now).phases }
    requires known { port.number < (session_of session.now).ports }
    requires names { port.names ≡ names_in (scene_of port.number session.now) }
    requires callers { port.callers ≡ sum (counts_on port.number (session_of session.now)) }
    requires before { IsBeforePhase scene k port.station run }
    ensures { IfOk result (IsInPlay scene (k + 1)) }
{
    let scripts = scripts_of(session, k);
    let roles_and_cast = cast_roles(alloc, session, k, &port);
    let (port, (roles, cast)) = beside(port, roles_and_cast)?;
    let work = PhaseWork {
        phase: port.station.port.phase(),
        run,
        steps: steps_of(session, port.number, k),
        ticks: ticks_of(session, port.number, k),
        cast: cast.as_slice(),
        scripts,
    };
    let mut left = play_work(rt, alloc, gate, port, work)?;
    move_on(roles.as_slice(), scripts, left.station.steps.as_mut_slice());
    Ok(left)
}

/// Plays a phase of a port. One whose journal is full plays no further phase.
fn play_phase<R: Threads + Wait + Sync, G: Gate + Sync>(
    rt: &R,
    alloc: Global,
    session: &Session,
    gate: &G,
    k: usize,
    port: PortInPlay,
) -> Result<PortInPlay, NoMemory>
    requires within { IsWithinLimits (session_of session.now) }
    requires phase { k < length (session_of session.now).phases }
    requires known { port.number < (session_of session.now).ports }
    requires in_play { IsInPlay (scene_of port.number session.now) k port }
    ensures { IfOk result (IsInPlay (scene_of port.number session.now) (k + 1)) }
{
    match port.end {
        PhaseEnd::Over(run) => play_on(rt, alloc, session, gate, k, port, run),
        PhaseEnd::Full => Ok(port),
    }
}

/// Plays a phase of ports side by side, which begin with port 0.
pub(crate) fn play_side_by_side<R: Threads + Wait + Sync, G: Gate + Sync>(
    rt: &R,
    alloc: Global,
    session: &Session,
    gate: &G,
    k: usize,
    mut ports: Vec<PortInPlay>,
) -> Result<Vec<PortInPlay>, NoMemory>
    requires within { IsWithinLimits (session_of session.now) }
    requires phase { k < length (session_of session.now).phases }
    requires known { length ports.items ≤ (session_of session.now).ports }
    requires in_play { AreInPlay (session_of session.now) k ports.items }
    ensures { IfOk result (λ all. AreInPlay (session_of session.now) (k + 1) all.items
        × (length all.items ≡ length ports.items)) }
{
    let Some(port) = ports.pop() else {
        return Ok(ports);
    };
    let (others, one) = join(
        rt,
        move || -> Result<Vec<PortInPlay>, NoMemory>
            requires { IsSync R.row × IsSync G.row × IsWithinLimits (session_of session.now)
                × (k < length (session_of session.now).phases) × (length ports.items ≤ (session_of session.now).ports)
                × AreInPlay (session_of session.now) k ports.items }
            ensures { IfOk result (λ all. AreInPlay (session_of session.entry.now) (k + 1) all.items
                × (length all.items ≡ length ports.items)) }
        { play_side_by_side(rt, alloc, session, gate, k, ports) },
        move || -> Result<PortInPlay, NoMemory>
            requires { IsSync R.row × IsSync G.row × IsWithinLimits (session_of session.now)
                × (k < length (session_of session.now).phases) × (port.number < (session_of session.now).ports)
                × IsInPlay (scene_of port.number session.now) k port }
            ensures { IfOk result (IsInPlay (scene_of port.number session.entry.now) (k + 1)) }
        { play_phase(rt, alloc, session, gate, k, port) },
    );
    let (one, mut all) = beside(one, others)?;
    all.push(one?)?;
    Ok(all)
}

/// Ends a port: it is hung up, unless its journal is full.
pub(crate) fn end(port: PortInPlay) -> Result<(PortRun, PortEnd), NoMemory>
    requires { CanEnd port.station port.end }
    ensures { (s : Scene)
        → IsInPlay s (length s.session.phases) port
        → IfOk result (λ played. IsPlayedOn s.port s.session played.0 played.1) }
{
    let PortInPlay {
        number: _,
        names: _,
        callers: _,
        station,
        end,
    } = port;
    end_port(station, end)
}
