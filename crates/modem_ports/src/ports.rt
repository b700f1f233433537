//! A port with modem lines, from its opening to its hangup.

ghost use Rattle.std.specs.Prelude.{◌≡◌, ◌<◌, ℕ, IfOk, IfErr, length, map};
ghost use Rattle.tty_calls.specs.Sessions.{session_of};
ghost use Rattle.play_base.specs.Roles.{Scene, scene_of};
ghost use Rattle.modem_text.specs.Events.{logged_of};
ghost use Rattle.modem_text.specs.Sessions.{ModemSession as PlainModemSession, modem_session_of};
ghost use Rattle.modem_text.specs.Within.{IsModemSessionWithin};
ghost use Rattle.modem_one.specs.Desk.{AreOn};
ghost use Rattle.modem_one.specs.Played.{by_blocks};
ghost use Rattle.passed_ports.specs.Ports.{IsSceneOf};
ghost use Rattle.modem_derived.specs.Blocks.{nothing_passed};
ghost use Rattle.modem_ports.specs.Between.{IsBetween, IsStoppedBy};
ghost use Rattle.modem_ports.specs.Ports.{IsModemsEnd, IsModemsFull, IsPortPlayed};

use crate::phases::{ModemStation, play_phase};
use modem_one::Desk;
use modem_text::{ModemLog, ModemSession};
use play_base::{hang_up, open_port, stop};
use std::alloc::Global;
use tty_base::NoMemory;
use tty_calls::{Denied, Names, PortEnd, PortRun, Session};

/// What became of a port, and what was logged of it.
#[derive(Drop)]
pub(crate) struct PortPlayed {
    pub(crate) run: PortRun,
    pub(crate) end: PortEnd,
    pub(crate) log: Vec<ModemLog>,
}

/// A port at the beginning of its session.
fn open(
    alloc: Global,
    session: &ModemSession,
    base: &Session,
    number: u8,
) -> Result<ModemStation, NoMemory>
    requires within { IsModemSessionWithin (modem_session_of session.now) }
    requires base { session_of base.now ≡ nothing_passed (modem_session_of session.now) }
    requires port { number < (session_of base.now).ports }
    ensures { IfOk result (λ at. IsBetween (scene_of number base.now) (modem_session_of session.now) 0 0 at) }
{
    let _ = session; // for the contract alone
    let port = usize::from(number);
    let names = Names::on_port(alloc, base, port)?;
    let next = vec![in alloc; 0; names.len()]?;
    let desk = Desk::new(alloc, number, next);
    let station = open_port(alloc, base, port, &names)?;
    station.port.known();
    Ok(ModemStation {
        names,
        station,
        desk,
    })
}

/// Plays the phases of a port, one after the other. Answers the number of the next flush run.
fn play_phases(
    alloc: Global,
    session: &ModemSession,
    base: &Session,
    number: u8,
    at: &mut ModemStation,
) -> Result<u32, Denied>
    requires within { IsModemSessionWithin (modem_session_of session.now) }
    requires base { session_of base.now ≡ nothing_passed (modem_session_of session.now) }
    requires port { number < (session_of base.now).ports }
    requires before { IsBetween (scene_of number base.now) (modem_session_of session.now) 0 0 at.old }
    ensures ok { IfOk result (λ run. IsBetween (scene_of number base.now) (modem_session_of session.now)
        (length (session_of base.now).phases) run at.new) }
    ensures err { IfErr result
        (λ d. IsStoppedBy d (scene_of number base.now) (modem_session_of session.now) at.new) }
{
    let mut run = 0;
    for k in 0..base.phases.len() {
        run = play_phase(alloc, session, base, number, k, at, run)?;
    }
    Ok(run)
}

/// A port whose phases were played, hung up.
fn end(at: ModemStation) -> Result<PortPlayed, NoMemory>
    requires after { at.station.port.terminal.phase ≡ length at.station.port.counts }
    requires ring { at.station.putter.ring ≡ at.station.port.flip.ring }
    requires sent { at.station.port.terminal.sent ≡ length at.station.putter.sent }
    ensures played { (first : Scene) (session : PlainModemSession) (run : ℕ)
        → IsSceneOf first (by_blocks session)
        → IsModemsEnd first session at.station.port at.station.putter at.station.line run at.desk
        → IfOk result
        (λ played. IsPortPlayed first.port session (map logged_of played.log.items) played.run played.end) }
    ensures own { IfOk result (λ played. AreOn at.desk.number (map logged_of played.log.items)) }
{
    let ModemStation {
        names: _,
        station,
        desk,
    } = at;
    let (run, end) = hang_up(station.port, station.putter, station.line)?;
    let log = desk.into_log();
    Ok(PortPlayed { run, end, log })
}

/// A port whose journal is full, as far as it went.
fn cut(at: ModemStation) -> PortPlayed
    requires { at.station.putter.ring ≡ at.station.port.flip.ring }
    ensures played { (first : Scene) (session : PlainModemSession)
        → IsSceneOf first (by_blocks session)
        → IsModemsFull first session at.station.port at.station.putter at.station.line at.desk
        → IsPortPlayed first.port session (map logged_of result.log.items) result.run result.end }
    ensures own { AreOn at.desk.number (map logged_of result.log.items) }
{
    let ModemStation {
        names: _,
        station,
        desk,
    } = at;
    let (run, end) = stop(station.port, station.putter, station.line);
    let log = desk.into_log();
    PortPlayed { run, end, log }
}

/// Plays a port of a session.
pub(crate) fn play_port(
    alloc: Global,
    session: &ModemSession,
    base: &Session,
    number: u8,
) -> Result<PortPlayed, NoMemory>
    requires within { IsModemSessionWithin (modem_session_of session.now) }
    requires base { session_of base.now ≡ nothing_passed (modem_session_of session.now) }
    requires port { number < (session_of base.now).ports }
    ensures played { IfOk result (λ played.
        IsPortPlayed number (modem_session_of session.now) (map logged_of played.log.items) played.run played.end) }
    ensures own { IfOk result (λ played. AreOn number (map logged_of played.log.items)) }
{
    let mut at = open(alloc, session, base, number)?;
    match play_phases(alloc, session, base, number, &mut at) {
        Ok(_) => end(at),
        Err(Denied::Full) => Ok(cut(at)),
        Err(Denied::NoMemory) => {
            drop(at);
            Err(NoMemory)
        }
    }
}
