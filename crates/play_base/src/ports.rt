//! A port of a session, from its opening to its hangup.

ghost use Rattle.std.specs.Prelude.{◌≡◌, ◌<◌, ◌≤◌, IfOk, length};
ghost use Rattle.tty_base.specs.Sizes.{LEAST_FLIP, MOST_ARRIVALS, MOST_FLIP};
ghost use Rattle.tty_calls.specs.Limits.{IsWithinLimits, character_count};
ghost use Rattle.tty_calls.specs.Sessions.{session_of};
ghost use Rattle.legal_runs.specs.Legal.{flip_on};
ghost use Rattle.play_base.specs.Roles.{Scene, scene_of, names_in};
ghost use Rattle.play_base.specs.Phases.{HaveSeenAll, IsBeforePhase, IsPortOf, IsFullRun, IsAtEnd, IsLeftOf, EndsRun};
ghost use Rattle.play_base.specs.Leaving.{EndsJournal};
ghost use Rattle.play_base.specs.Played.{IsPlayedOn, IsRunInOrder};
ghost use Rattle.play_base.specs.Scenes.{HasAnyOrder, IsOfSceneIn, IsOfScene};

use crate::roles::counts_of;
use crate::stations::{Station, steps_of};
use flip_buffer::{FlipIn, flip};
use port_core::Port;
use std::alloc::Global;
use tty_base::sizes::{MOST_ARRIVALS, MOST_ENTRIES};
use tty_base::{Buffer, NoMemory};
use tty_calls::{Denied, Names, PortEnd, PortRun, Session};
use uart_line::Line;

/// At least as many as the characters that arrive on a port: the steps of its line, or the most that
/// may arrive.
fn room_on(session: &Session, number: usize) -> u32
    requires within { IsWithinLimits (session_of session.now) }
    requires port { number < (session_of session.now).ports }
    ensures enough { character_count number (session_of session.now).phases ≤ result }
    ensures few { result ≤ MOST_ARRIVALS }
{
    let mut steps: usize = 0;
    for k in 0..session.phases.len() {
        steps = steps.saturating_add(steps_of(session, number, k).len());
    }
    steps.min(MOST_ARRIVALS) as u32
}

/// The room of a port's flip buffer.
fn capacity_on(session: &Session, number: usize) -> usize
    requires within { IsWithinLimits (session_of session.now) }
    requires port { number < (session_of session.now).ports }
    ensures is { result ≡ flip_on number (session_of session.now) }
    ensures enough { LEAST_FLIP ≤ result }
    ensures few { result ≤ MOST_FLIP }
{
    session.flips.as_slice()[number] as usize
}

/// A port at the beginning of its session.
pub fn open_port(
    alloc: Global,
    session: &Session,
    number: usize,
    names: &Names,
) -> Result<Station, NoMemory>
    requires within { IsWithinLimits (session_of session.now) }
    requires port { number < (session_of session.now).ports }
    requires names { names.now ≡ names_in (scene_of number session.now) }
    ensures { IfOk result (λ station. IsBeforePhase (scene_of number session.now) 0 station 0) }
{
    let capacity = capacity_on(session, number);
    let counts = counts_of(alloc, session, number)?;
    let steps = vec![in alloc; 0; names.len()]?;
    let line = Line::new(alloc, room_on(session, number))?;
    let (putter, taker) = flip(alloc, capacity)?;
    Ok(Station {
        port: Port::new(alloc, counts.as_slice(), MOST_ENTRIES, taker)?,
        putter,
        line,
        steps,
    })
}

/// What is left of a port at its end.
pub fn left_of(port: Port, line: Line) -> (PortRun, PortEnd)
    ensures { IsLeftOf port line result.0 result.1 }
{
    let (journal, end) = port.into_journal();
    let run = PortRun {
        journal,
        line: line.into_report(),
    };
    (run, end)
}

/// A port whose journal is full, as far as it went.
pub fn stop(mut port: Port, mut putter: FlipIn, line: Line) -> (PortRun, PortEnd)
    requires { putter.ring ≡ port.flip.ring }
    ensures played { (s : Scene)
        → IsPortOf s port
        → IsFullRun s port putter line
        → IsPlayedOn s.port s.session result.0 result.1 }
    ensures journal { result.0.journal.items ≡ port.journal }
{
    port.meet(&mut putter);
    left_of(port, line)
}

/// A port whose phases were played, hung up.
pub fn hang_up(
    mut port: Port,
    mut putter: FlipIn,
    line: Line,
) -> Result<(PortRun, PortEnd), NoMemory>
    requires after { port.terminal.phase ≡ length port.counts }
    requires ring { putter.ring ≡ port.flip.ring }
    requires sent { port.terminal.sent ≡ length putter.sent }
    ensures played { (s : Scene)
        → IsAtEnd s port putter line
        → IfOk result (λ played. IsPlayedOn s.port s.session played.0 played.1) }
    ensures ends { (s : Scene)
        → IsOfSceneIn HasAnyOrder s port
        → port.terminal.phase ≡ length s.session.phases
        → IfOk result (λ played. EndsRun s port.journal line.report.overruns.items played.0) }
    ensures in_order { (s : Scene)
        → IsOfScene s port
        → port.terminal.phase ≡ length s.session.phases
        → HaveSeenAll s port.journal line.report.overruns.items
        → IfOk result (λ played. IsRunInOrder s.port s.session played.0) }
    ensures journal { IfOk result (λ played. EndsJournal port played.0.journal.items) }
{
    port.known();
    port.meet(&mut putter);
    match port.last_hangup(putter) {
        Ok(()) => Ok(left_of(port, line)),
        Err(Denied::Full) => Ok(left_of(port, line)),
        Err(Denied::NoMemory) => {
            drop(left_of(port, line));
            Err(NoMemory)
        }
    }
}

/// What became of the ports of a session: the run of each, and what a report prints of its end.
#[derive(Drop)]
pub struct Played {
    pub runs: Buffer<PortRun>,
    pub ends: Buffer<PortEnd>,
}
