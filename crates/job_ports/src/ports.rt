//! A port of a session of processes, from its opening to its hangup.

ghost use Rattle.std.specs.Prelude.{◌≡◌, ◌<◌, ℕ, IfOk, IfErr, length, map};
ghost use Rattle.tty_calls.specs.Sessions.{session_of};
ghost use Rattle.play_base.specs.Roles.{Scene, scene_of};
ghost use Rattle.job_text.specs.Events.{logged_of};
ghost use Rattle.job_text.specs.Sessions.{JobsSession as PlainJobsSession, jobs_session_of};
ghost use Rattle.job_text.specs.Within.{IsJobsSessionWithin};
ghost use Rattle.job_one.specs.Events.{AreOn};
ghost use Rattle.job_one.specs.Played.{by_blocks};
ghost use Rattle.job_ports.specs.Between.{IsBetween, IsStoppedBy};
ghost use Rattle.passed_ports.specs.Ports.{IsSceneOf};
ghost use Rattle.job_ports.specs.Ports.{IsJobsEnd, IsJobsFull, IsPortPlayed};

use crate::opening::open_desk;
use crate::phases::{JobStation, play_phase};
use job_text::{JobLog, JobsSession};
use play_base::{hang_up, open_port, stop};
use std::alloc::Global;
use tty_base::NoMemory;
use tty_calls::{Denied, Names, PortEnd, PortRun};

/// What became of a port, and what was logged of it.
#[derive(Drop)]
pub(crate) struct PortPlayed {
    pub(crate) run: PortRun,
    pub(crate) end: PortEnd,
    pub(crate) log: Vec<JobLog>,
}

/// A port at the beginning of its session.
fn open(alloc: Global, session: &JobsSession, number: u8) -> Result<JobStation, NoMemory>
    requires within { IsJobsSessionWithin (jobs_session_of session.now) }
    requires port { number < (session_of session.now.session).ports }
    ensures { IfOk result (λ at. IsBetween (scene_of number session.now.session) (jobs_session_of session.now) 0 0 at) }
{
    let port = usize::from(number);
    let names = Names::on_port(alloc, &session.session, port)?;
    let desk = open_desk(alloc, session, number, &names)?;
    let station = open_port(alloc, &session.session, port, &names)?;
    station.port.known();
    Ok(JobStation {
        names,
        station,
        desk,
    })
}

/// Plays the phases of a port, one after the other. Answers the number of the next flush run.
fn play_phases(
    alloc: Global,
    session: &JobsSession,
    number: u8,
    at: &mut JobStation,
) -> Result<u32, Denied>
    requires within { IsJobsSessionWithin (jobs_session_of session.now) }
    requires port { number < (session_of session.now.session).ports }
    requires before { IsBetween (scene_of number session.now.session) (jobs_session_of session.now) 0 0 at.old }
    ensures ok { IfOk result (λ run. IsBetween (scene_of number session.now.session) (jobs_session_of session.now)
        (length (session_of session.now.session).phases) run at.new) }
    ensures err { IfErr result
        (λ d. IsStoppedBy d (scene_of number session.now.session) (jobs_session_of session.now) at.new) }
{
    let mut run = 0;
    for k in 0..session.session.phases.len() {
        run = play_phase(alloc, session, number, k, at, run)?;
    }
    Ok(run)
}

/// A port whose phases were played, hung up.
fn end(at: JobStation) -> Result<PortPlayed, NoMemory>
    requires after { at.station.port.terminal.phase ≡ length at.station.port.counts }
    requires ring { at.station.putter.ring ≡ at.station.port.flip.ring }
    requires sent { at.station.port.terminal.sent ≡ length at.station.putter.sent }
    ensures played { (first : Scene) (session : PlainJobsSession) (run : ℕ)
        → IsSceneOf first (by_blocks session)
        → IsJobsEnd first session at.station.port at.station.putter at.station.line run at.desk
        → IfOk result
        (λ played. IsPortPlayed first.port session (map logged_of played.log.items) played.run played.end) }
    ensures own { IfOk result (λ played. AreOn at.desk.number (map logged_of played.log.items)) }
{
    let JobStation {
        names: _,
        station,
        desk,
    } = at;
    let (run, end) = hang_up(station.port, station.putter, station.line)?;
    let log = desk.into_log();
    Ok(PortPlayed { run, end, log })
}

/// A port whose journal is full, as far as it went.
fn cut(at: JobStation) -> PortPlayed
    requires { at.station.putter.ring ≡ at.station.port.flip.ring }
    ensures played { (first : Scene) (session : PlainJobsSession)
        → IsSceneOf first (by_blocks session)
        → IsJobsFull first session at.station.port at.station.putter at.station.line at.desk
        → IsPortPlayed first.port session (map logged_of result.log.items) result.run result.end }
    ensures own { AreOn at.desk.number (map logged_of result.log.items) }
{
    let JobStation {
        names: _,
        station,
        desk,
    } = at;
    let (run, end) = stop(station.port, station.putter, station.line);
    let log = desk.into_log();
    PortPlayed { run, end, log }
}

/// Plays a port of a session.
pub(crate) fn play_port(
    alloc: Global,
    session: &JobsSession,
    number: u8,
) -> Result<PortPlayed, NoMemory>
    requires within { IsJobsSessionWithin (jobs_session_of session.now) }
    requires port { number < (session_of session.now.session).ports }
    ensures played { IfOk result (λ played.
        IsPortPlayed number (jobs_session_of session.now) (map logged_of played.log.items) played.run played.end) }
    ensures own { IfOk result (λ played. AreOn number (map logged_of played.log.items)) }
{
    let mut at = open(alloc, session, number)?;
    match play_phases(alloc, session, number, &mut at) {
        Ok(_) => end(at),
        Err(Denied::Full) => Ok(cut(at)),
        Err(Denied::NoMemory) => {
            drop(at);
            Err(NoMemory)
        }
    }
}
