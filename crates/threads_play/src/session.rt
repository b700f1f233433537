//! A session played on threads: in each phase its ports side by side, and then the end of each port.

ghost use Rattle.std.specs.Prelude.{◌≡◌, IfOk, length};
ghost use Rattle.tty_calls.specs.Limits.{IsWithinLimits};
ghost use Rattle.tty_calls.specs.Sessions.{session_of};
ghost use Rattle.play_base.specs.Played.{ArePlayed};
ghost use Rattle.threads_play.specs.PortsInPlay.{AreInPlay};

use crate::ports::{PortInPlay, end, open_all, play_side_by_side};
use play_base::Played;
use std::alloc::Global;
use std::sync::Wait;
use std::thread::Threads;
use tty_base::{Buffer, NoMemory};
use tty_calls::Session;
use tty_port::Gate;

/// Ends all ports of a session.
fn end_all(alloc: Global, session: &Session, ports: Vec<PortInPlay>) -> Result<Played, NoMemory>
    requires in_play { AreInPlay (session_of session.now) (length (session_of session.now).phases) ports.items }
    requires all { length ports.items ≡ (session_of session.now).ports }
    ensures { IfOk result (λ played. ArePlayed (session_of session.now) played.runs.items played.ends.items) }
{
    let count = usize::from(session.ports);
    let mut runs = Buffer::new(alloc);
    runs.reserve(count)?;
    let mut ends = Buffer::new(alloc);
    ends.reserve(count)?;
    for port in ports {
        let (run, port_end) = end(port)?;
        runs.add(run);
        ends.add(port_end);
    }
    Ok(Played { runs, ends })
}

/// Plays a session on threads. In each phase the ports are played side by side, each with a thread for
/// each caller, one each for line and flusher, and one for a clock that ticks, and all threads end before
/// the next phase. A port whose journal is full plays no further phase; after the last phase each other is
/// hung up.
pub fn play<R: Threads + Wait + Sync, G: Gate + Sync>(
    rt: &R,
    alloc: Global,
    session: &Session,
    gate: &G,
) -> Result<Played, NoMemory>
    requires { IsWithinLimits (session_of session.now) }
    ensures { IfOk result (λ played. ArePlayed (session_of session.now) played.runs.items played.ends.items) }
{
    let mut ports = open_all(alloc, session)?;
    for k in 0..session.phases.len() {
        ports = play_side_by_side(rt, alloc, session, gate, k, ports)?;
    }
    end_all(alloc, session, ports)
}
