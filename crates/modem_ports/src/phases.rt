//! The phases of a session with modem lines on a port.

ghost use Rattle.std.specs.Prelude.{◌≡◌, ◌+◌, ◌<◌, [], IfOk, IfErr, length, map, slice_index_or};
ghost use Rattle.tty_calls.specs.declared.answers.Denied.TheVariants as denied;
ghost use Rattle.tty_calls.specs.Sessions.{session_of};
ghost use Rattle.play_base.specs.Roles.{scene_of};
ghost use Rattle.calls_left.specs.Remaining.{calls_of_port};
ghost use Rattle.modem_text.specs.Sessions.{modem_session_of};
ghost use Rattle.modem_text.specs.Within.{IsModemSessionWithin};
ghost use Rattle.modem_derived.specs.Blocks.{items_of_port, nothing_passed, pins_of};
ghost use Rattle.modem_ports.specs.Between.{BeginsPhase, IsBetween, IsStoppedBy, Setting, setting_of};

use crate::blocks::{items_in, own_in};
use calls_left::Remaining;
use line_steps::LineSteps;
use modem_one::{Desk, Items, play_after_line};
use modem_text::{ModemPart, ModemSession, OwnCall, PinItem};
use one_thread::{Nobody, Stand, play_line};
use passed_calls::PlacedCall;
use passed_ports::{cast_in, take_steps};
use play_base::{Role, Station, scripts_of, steps_of, ticks_of};
use std::alloc::Global;
use tty_base::NoMemory;
use tty_calls::{Denied, Names, Script, Session};

/// A port that is played, the names of its callers, and its desk.
#[derive(Drop)]
pub struct ModemStation {
    pub names: Names,
    pub station: Station,
    pub desk: Desk,
}

/// Plays a phase: its line, and what comes after it. `base` is the session of the ports with the blocks of `carrier`,
/// in which nothing was passed down. Answers the number of the next flush run.
pub(crate) fn play_phase(
    alloc: Global,
    session: &ModemSession,
    base: &Session,
    number: u8,
    k: usize,
    at: &mut ModemStation,
    run: u32,
) -> Result<u32, Denied>
    ghost setting: { Setting }
    requires setting { setting ≡ setting_of number session.now base.now k }
    requires within { IsModemSessionWithin (modem_session_of session.now) }
    requires base { session_of base.now ≡ nothing_passed (modem_session_of session.now) }
    requires port { number < (session_of base.now).ports }
    requires phase { k < length (session_of base.now).phases }
    requires before { IsBetween (scene_of number base.now) (modem_session_of session.now) k run at.old }
    ensures ok { IfOk result
        (λ next. IsBetween (scene_of number base.now) (modem_session_of session.now) (k + 1) next at.new) }
    ensures err { IfErr result
        (λ d. IsStoppedBy d (scene_of number base.now) (modem_session_of session.now) at.new) }
{
    let port = usize::from(number);
    let parts = session.parts.as_slice();
    take_steps(&at.station.port, at.station.steps.as_mut_slice());
    let roles = cast_in(
        alloc,
        scripts_of(base, k),
        port,
        &at.names,
        at.station.steps.as_slice(),
    )?;
    let mut calls = calls_in(
        alloc,
        scripts_of(&session.session, k),
        own_in(parts, k),
        number,
    )?;
    let pins = pins_in(alloc, parts, k, number)?;
    let mut items = Items::of(pins.as_slice());
    play_parts(
        at,
        roles.as_slice(),
        &mut calls,
        &mut items,
        steps_of(base, port, k),
        ticks_of(base, port, k),
        run,
    )
}

/// What the callers of a port have to call in a phase.
fn calls_in<'a>(
    alloc: Global,
    scripts: &'a [Script],
    placed: &'a [PlacedCall<OwnCall>],
    port: u8,
) -> Result<Remaining<'a, OwnCall>, Denied>
    ensures ok { IfOk result (λ calls. calls ≡ calls_of_port port scripts.now placed.now) }
    ensures err { IfErr result (λ d. d ≡ denied.NoMemory) }
{
    match Remaining::of(alloc, scripts, placed, port) {
        Ok(calls) => Ok(calls),
        Err(NoMemory) => Err(Denied::NoMemory),
    }
}

/// The items of a port's modem block in a phase.
fn pins_in(alloc: Global, parts: &[ModemPart], k: usize, port: u8) -> Result<Vec<PinItem>, Denied>
    ensures ok { IfOk result (λ items. items.items ≡ items_of_port port (slice_index_or (map pins_of parts.now) k [])) }
    ensures err { IfErr result (λ d. d ≡ denied.NoMemory) }
{
    match items_in(alloc, parts, k, port) {
        Ok(items) => Ok(items),
        Err(NoMemory) => Err(Denied::NoMemory),
    }
}

/// The line of a phase, and what comes after it. Answers the number of the next flush run.
fn play_parts(
    at: &mut ModemStation,
    roles: &[Role],
    calls: &mut Remaining<OwnCall>,
    items: &mut Items,
    steps: &LineSteps,
    ticks: u32,
    run: u32,
) -> Result<u32, Denied>
    ghost setting: { Setting }
    requires { BeginsPhase setting roles.now at.old at.old.station.port.terminal.phase
        run calls.old items.old steps.now.items ticks }
    ensures ok { IfOk result
        (λ next. IsBetween setting.first setting.session (at.old.station.port.terminal.phase + 1) next at.new) }
    ensures err { IfErr result (λ d. IsStoppedBy d setting.first setting.session at.new) }
{
    let played = play_line(
        &mut at.station.port,
        &mut at.station.putter,
        &mut at.station.line,
        &mut Nobody,
        steps,
        run,
    );
    at.station.port.known();
    let run = played?;
    let stand = Stand {
        run,
        part: 0,
        ticks,
        going: None,
    };
    let ended = play_after_line(
        &mut at.station.port,
        &mut at.station.putter,
        &mut at.desk,
        roles,
        calls,
        items,
        stand,
    );
    let _end = at.station.port.journal(); // known: the journal is a run
    ended
}
