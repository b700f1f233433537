//! A session of ports with modem lines played on one thread, and what became of it.

ghost use Rattle.std.specs.Prelude.{◌≡◌, ◌++◌, IfOk, OnOk, map};
ghost use Rattle.tty_calls.specs.Sessions.{session_of};
ghost use Rattle.passed_calls.specs.Within.{ArePassedWithin};
ghost use Rattle.modem_text.specs.Events.{logged_of};
ghost use Rattle.modem_text.specs.Sessions.{modem_session_of};
ghost use Rattle.modem_text.specs.Within.{IsModemSessionWithin};
ghost use Rattle.modem_steps.specs.Derived.{passings_on};
ghost use Rattle.modem_one.specs.Played.{AreModemsPlayed, begun_in};
ghost use Rattle.modem_derived.specs.Blocks.{nothing_passed};
ghost use Rattle.modem_ports.specs.Ports.{AreFirstPlayed};
ghost use Rattle.order_laws.specs.Sessions.{journal_on};

use crate::ports::play_port;
use modem_derived::{base_of, derive_session};
use modem_text::{ModemLog, ModemSession};
use std::alloc::Global;
use tty_base::{Buffer, NoMemory};
use tty_calls::{PortEnd, PortRun, Session};

/// What became of a session with modem lines: what was logged of its ports, of each the run and what a report prints of
/// its end, and the session that they were played.
#[derive(Drop)]
pub struct ModemRan {
    pub log: Buffer<ModemLog>,
    pub runs: Buffer<PortRun>,
    pub ends: Buffer<PortEnd>,
    pub derived: Session,
}

/// The log, the runs and the ends of ports.
#[derive(Drop)]
struct PortsRan {
    log: Vec<ModemLog>,
    runs: Buffer<PortRun>,
    ends: Buffer<PortEnd>,
}

/// Plays a session with modem lines on one thread (termios(3), ioctl_tty(2)), its ports one after the other. A port
/// whose journal is full is played no further.
pub fn modem_run(alloc: Global, session: &ModemSession) -> Result<ModemRan, NoMemory>
    requires { IsModemSessionWithin (modem_session_of session.now) }
    ensures played { IfOk result (λ ran. AreModemsPlayed (modem_session_of session.now) (map logged_of ran.log.items)
        ran.runs.items ran.ends.items (session_of ran.derived)) }
    ensures within { IfOk result (λ ran. ArePassedWithin (λ p.
        passings_on (modem_session_of session.now) (map logged_of ran.log.items) p
        ++ begun_in (modem_session_of session.now) (map logged_of ran.log.items) p (journal_on ran.runs.items p))) }
{
    let base = base_of(alloc, session)?;
    let ran = run_ports(alloc, session, &base)?;
    let derived = derive_session(
        alloc,
        session,
        &base,
        ran.log.as_slice(),
        ran.runs.as_slice(),
    )?;
    Ok(ModemRan {
        log: Buffer::from_vec(ran.log),
        runs: ran.runs,
        ends: ran.ends,
        derived,
    })
}

/// Plays the ports of a session, one after the other.
fn run_ports(alloc: Global, session: &ModemSession, base: &Session) -> Result<PortsRan, NoMemory>
    requires within { IsModemSessionWithin (modem_session_of session.now) }
    requires base { session_of base.now ≡ nothing_passed (modem_session_of session.now) }
    ensures { IfOk result (λ ran. AreFirstPlayed (modem_session_of session.now) (modem_session_of session.now).ports
        (map logged_of ran.log.items) ran.runs.items ran.ends.items) }
{
    let ports = session.session.ports;
    let count = usize::from(ports);
    let mut log = Vec::new(alloc);
    let mut runs = Buffer::new(alloc);
    runs.reserve(count)?;
    let mut ends = Buffer::new(alloc);
    ends.reserve(count)?;
    for number in 0..ports {
        let played = play_port(alloc, session, base, number)?;
        add_log(&mut log, played.log)?;
        runs.add(played.run);
        ends.add(played.end);
    }
    Ok(PortsRan { log, runs, ends })
}

/// Adds what was logged of a port.
fn add_log(log: &mut Vec<ModemLog>, mut more: Vec<ModemLog>) -> Result<(), NoMemory>
    ensures { OnOk result (log.new.items ≡ log.old.items ++ more.items) }
{
    log.append(&mut more)?;
    Ok(())
}
