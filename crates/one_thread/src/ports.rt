//! A port of a session, from its opening to its hangup.

ghost use Rattle.std.specs.Prelude.{◌≡◌, ◌<◌, IfOk, IfErr, length};
ghost use Rattle.tty_calls.specs.Limits.{IsWithinLimits};
ghost use Rattle.tty_calls.specs.Sessions.{session_of};
ghost use Rattle.play_base.specs.Roles.{scene_of, names_in};
ghost use Rattle.play_base.specs.Phases.{IsBeforePhase, IsStopped};
ghost use Rattle.play_base.specs.Played.{IsPlayedOn, IsRunInOrder};

use crate::phases::play_phase;
use play_base::{Station, hang_up, left_of, open_port, stop};
use std::alloc::Global;
use tty_base::NoMemory;
use tty_calls::{Denied, Names, PortEnd, PortRun, Session};

/// Plays the phases of a port, one after the other. Answers the number of the next flush run.
fn play_phases(
    alloc: Global,
    session: &Session,
    number: usize,
    names: &Names,
    station: &mut Station,
) -> Result<u32, Denied>
    requires within { IsWithinLimits (session_of session.now) }
    requires port { number < (session_of session.now).ports }
    requires names { names.now ≡ names_in (scene_of number session.now) }
    requires before { IsBeforePhase (scene_of number session.now) 0 station.old 0 }
    ensures ok { IfOk result (λ next.
        IsBeforePhase (scene_of number session.now) (length (session_of session.now).phases) station.new next) }
    ensures err { IfErr result (λ d. IsStopped d (scene_of number session.now) station.new) }
{
    let mut run = 0;
    for k in 0..session.phases.len() {
        run = play_phase(alloc, session, number, k, names, station, run)?;
    }
    Ok(run)
}

/// Plays a port of a session.
pub(crate) fn play_port(
    alloc: Global,
    session: &Session,
    number: usize,
) -> Result<(PortRun, PortEnd), NoMemory>
    requires within { IsWithinLimits (session_of session.now) }
    requires port { number < (session_of session.now).ports }
    ensures played { IfOk result (λ played. IsPlayedOn number (session_of session.now) played.0 played.1) }
    ensures in_order { IfOk result (λ played. IsRunInOrder number (session_of session.now) played.0) }
{
    let names = Names::on_port(alloc, session, number)?;
    let mut station = open_port(alloc, session, number, &names)?;
    match play_phases(alloc, session, number, &names, &mut station) {
        Ok(_) => hang_up(station.port, station.putter, station.line),
        Err(Denied::Full) => Ok(stop(station.port, station.putter, station.line)),
        Err(Denied::NoMemory) => {
            drop(left_of(station.port, station.line));
            Err(NoMemory)
        }
    }
}
