//! The session that the ports were played, and what it is before anything was passed down.

ghost use Rattle.std.specs.Prelude.{◌≡◌, ◌<◌, All, IfOk, length, map};
ghost use Rattle.tty_calls.specs.Sessions.{session_of};
ghost use Rattle.passed_calls.specs.Within.{ArePassedWithin};
ghost use Rattle.modem_text.specs.Events.{logged_of};
ghost use Rattle.modem_text.specs.Sessions.{modem_session_of};
ghost use Rattle.modem_text.specs.Within.{IsModemSessionWithin};
ghost use Rattle.modem_one.specs.Played.{derived_with, all_passed};
ghost use Rattle.modem_derived.specs.Blocks.{nothing_passed, own_of};
ghost use Rattle.order_laws.specs.Sessions.{journal_on};

use crate::carriers::carriers_of;
use crate::passing::passed_in;
use derived_session::derive;
use modem_text::{ModemLog, ModemPart, ModemSession, OwnCall};
use passed_calls::PlacedCall;
use std::alloc::Global;
use tty_base::NoMemory;
use tty_calls::{PortRun, Session};

/// The session of the ports in which nothing was passed down, with `carrier` in each phase.
pub fn base_of(alloc: Global, session: &ModemSession) -> Result<Session, NoMemory>
    requires { IsModemSessionWithin (modem_session_of session.now) }
    ensures { IfOk result (λ base. session_of base ≡ nothing_passed (modem_session_of session.now)) }
{
    let placed = placed_of(alloc, session.parts.as_slice())?;
    let carriers = carriers_of(alloc, session)?;
    derive(
        alloc,
        &session.session,
        placed.as_slice(),
        carriers.as_slice(),
        &[],
    )
}

/// The session that the ports were played, which have these runs. `base` is the session in which nothing was passed
/// down.
pub fn derive_session(
    alloc: Global,
    session: &ModemSession,
    base: &Session,
    log: &[ModemLog],
    runs: &[PortRun],
) -> Result<Session, NoMemory>
    requires within { IsModemSessionWithin (modem_session_of session.now) }
    requires base { session_of base.now ≡ nothing_passed (modem_session_of session.now) }
    requires log { All (λ l. l.port < (modem_session_of session.now).ports) (map logged_of log.now) }
    requires runs { length runs.now ≡ (modem_session_of session.now).ports }
    requires passed { ArePassedWithin (λ p.
        all_passed (modem_session_of session.now) (map logged_of log.now) p (journal_on runs.now p)) }
    ensures { IfOk result (λ derived. session_of derived
        ≡ derived_with (modem_session_of session.now) (map logged_of log.now) runs.now) }
{
    let placed = placed_of(alloc, session.parts.as_slice())?;
    let carriers = carriers_of(alloc, session)?;
    let passed = passed_in(alloc, base, log, runs)?;
    derive(
        alloc,
        &session.session,
        placed.as_slice(),
        carriers.as_slice(),
        passed.as_slice(),
    )
}

/// The calls that no port sees, phase by phase.
fn placed_of(alloc: Global, parts: &[ModemPart]) -> Result<Vec<&[PlacedCall<OwnCall>]>, NoMemory>
    ensures { IfOk result (λ placed. map (λ s. s.now) placed.items ≡ map own_of parts.now) }
{
    let mut placed = Vec::new(alloc);
    for part in parts {
        placed.push(part.own.as_slice())?;
    }
    Ok(placed)
}
