//! The turns that come behind the line of a phase, one by one.

ghost use Rattle.std.specs.Prelude.{IfOk, IfErr};
ghost use Rattle.calls_left.specs.Remaining.{any_call_of};
ghost use Rattle.modem_text.specs.Sessions.{step_of};
ghost use Rattle.passed_calls.specs.Scripts.{plain, further};
ghost use Rattle.tty_calls.specs.Plain.{call_of};
ghost use Rattle.modem_one.specs.declared.turns.Next.TheVariants as next;
ghost use Rattle.modem_one.specs.AfterLine.{IsFrameWithin, IsAtTurn, IsTurnOf, IsNextOf, IsItemOf, IsHangingUp};
ghost use Rattle.modem_one.specs.AfterLine.{TakesCall, TakesNoCall, TakesItem, TakesHangup, StopsTurns};
ghost use Rattle.modem_one.specs.Playing.{Frame};

use crate::controls::has_live;
use crate::desks::Desk;
use calls_left::NextCall;
use live_handles::least_live;
use modem_text::{OwnCall, PinItem};
use one_thread::{Stand, flush, pass, try_call};
use play_base::Role;
use port_core::{Port, Tried};
use tty_calls::{Call, Denied};

/// What a caller's turn came to: whether a call was answered, and where the player stands then.
#[derive(Clone, Copy)]
pub struct Taken {
    pub answered: bool,
    pub stand: Stand,
}

/// The next piece of a flush run.
pub(crate) fn take_flush(
    port: &mut Port,
    desk: &Desk,
    roles: &[Role],
    stand: Stand,
) -> Result<Stand, Denied>
    ghost frame: { Frame }
    requires at { IsAtTurn frame roles.now port.old desk.now stand }
    requires next { IsTurnOf frame roles.now port.old desk.now stand next.Flush }
    ensures ok { IfOk result (λ now. TakesNoCall frame roles.now port.old port.new desk.now now) }
    ensures err { IfErr result (λ d. StopsTurns d frame roles.now port.new desk.now) }
{
    let _ = desk; // for the contract alone
    let _before = port.journal(); // known: the journal is a run
    let now = flush(port, roles, stand)?;
    let _behind = port.journal(); // known: the journal is a run
    Ok(now)
}

/// A tick, or the end of the clock.
pub(crate) fn take_pass(
    port: &mut Port,
    desk: &Desk,
    roles: &[Role],
    stand: Stand,
) -> Result<Stand, Denied>
    ghost frame: { Frame }
    requires at { IsAtTurn frame roles.now port.old desk.now stand }
    requires next { IsTurnOf frame roles.now port.old desk.now stand next.Pass }
    ensures ok { IfOk result (λ now. TakesNoCall frame roles.now port.old port.new desk.now now) }
    ensures err { IfErr result (λ d. StopsTurns d frame roles.now port.new desk.now) }
{
    let _ = desk; // for the contract alone
    let _before = port.journal(); // known: the journal is a run
    let now = pass(port, roles, stand)?;
    let _behind = port.journal(); // known: the journal is a run
    Ok(now)
}

/// An attempt of a caller's call that is for the port. Where the port answers it, that is logged.
fn take_plain(
    port: &mut Port,
    desk: &mut Desk,
    roles: &[Role],
    place: usize,
    call: &Call,
    stand: Stand,
) -> Result<Taken, Denied>
    ghost frame: { Frame }
    requires frame { IsFrameWithin frame }
    requires at { IsAtTurn frame roles.now port.old desk.old stand }
    requires next { IsTurnOf frame roles.now port.old desk.old stand (next.Call place) }
    requires call { IsNextOf frame roles.now desk.old place (plain (call_of call.now)) }
    ensures ok { IfOk result (λ taken. TakesCall frame roles.now place port.old port.new desk.old desk.new taken) }
    ensures err { IfErr result (λ d. StopsTurns d frame roles.now port.new desk.new) }
{
    let caller = roles[place].number;
    let was_live = has_live(port);
    let _before = port.journal(); // known: the journal is a run
    let (tried, now) = try_call(port, roles, place, call, stand)?;
    let _behind = port.journal(); // known: the journal is a run
    match tried {
        Tried::Done(answer) => {
            desk.pass(port, caller, call, answer, was_live)?;
            Ok(Taken {
                answered: true,
                stand: now,
            })
        }
        Tried::Part => Ok(Taken {
            answered: false,
            stand: now,
        }),
        Tried::MustWait => Ok(Taken {
            answered: false,
            stand: now,
        }),
    }
}

/// A caller's call of modem lines, which is answered without the port.
fn take_own(
    port: &Port,
    desk: &mut Desk,
    roles: &[Role],
    place: usize,
    call: OwnCall,
    stand: Stand,
) -> Result<Taken, Denied>
    ghost frame: { Frame }
    requires at { IsAtTurn frame roles.now port.now desk.old stand }
    requires next { IsTurnOf frame roles.now port.now desk.old stand (next.Call place) }
    requires call { IsNextOf frame roles.now desk.old place (further call) }
    ensures ok { IfOk result (λ taken. TakesCall frame roles.now place port.now port.now desk.old desk.new taken) }
    ensures err { IfErr result (λ d. StopsTurns d frame roles.now port.now desk.new) }
{
    port.known();
    desk.control(port, roles[place].number, call)?;
    Ok(Taken {
        answered: true,
        stand,
    })
}

/// A caller's next call, where it can go on.
pub(crate) fn take_call(
    port: &mut Port,
    desk: &mut Desk,
    roles: &[Role],
    place: usize,
    call: &NextCall<OwnCall>,
    stand: Stand,
) -> Result<Taken, Denied>
    ghost frame: { Frame }
    requires frame { IsFrameWithin frame }
    requires at { IsAtTurn frame roles.now port.old desk.old stand }
    requires next { IsTurnOf frame roles.now port.old desk.old stand (next.Call place) }
    requires call { IsNextOf frame roles.now desk.old place (any_call_of call.now) }
    ensures ok { IfOk result (λ taken. TakesCall frame roles.now place port.old port.new desk.old desk.new taken) }
    ensures err { IfErr result (λ d. StopsTurns d frame roles.now port.new desk.new) }
{
    match call {
        NextCall::Port(call) => take_plain(port, desk, roles, place, call, stand),
        NextCall::Own(call) => take_own(port, desk, roles, place, *call, stand),
    }
}

/// An item of the modem block. Where the carrier is lost by it, the port is hung up.
pub(crate) fn take_item(
    port: &mut Port,
    desk: &mut Desk,
    roles: &[Role],
    item: PinItem,
    stand: Stand,
) -> Result<Stand, Denied>
    ghost frame: { Frame }
    requires frame { IsFrameWithin frame }
    requires at { IsAtTurn frame roles.now port.old desk.old stand }
    requires next { IsTurnOf frame roles.now port.old desk.old stand next.Pin }
    requires item { IsItemOf frame port.old desk.old (step_of item) }
    ensures ok { IfOk result (λ now. TakesItem frame roles.now port.old port.new desk.old desk.new now) }
    ensures err { IfErr result (λ d. StopsTurns d frame roles.now port.new desk.new) }
{
    port.known();
    let lost = desk.set_pin(port, item.pin, item.up)?;
    if !lost {
        return Ok(stand);
    }
    match least_live(port) {
        Some(h) => hang_up(port, desk, roles, h, stand),
        None => Ok(stand),
    }
}

/// The hangup of a carrier that is lost, which is never refused and never waits.
fn hang_up(
    port: &mut Port,
    desk: &mut Desk,
    roles: &[Role],
    h: u8,
    stand: Stand,
) -> Result<Stand, Denied>
    ghost frame: { Frame }
    requires hangs_up { IsHangingUp frame roles.now port.old desk.old stand h }
    ensures ok { IfOk result (λ now. TakesHangup frame roles.now port.old port.new desk.old desk.new now) }
    ensures err { IfErr result (λ d. StopsTurns d frame roles.now port.new desk.new) }
{
    let place = roles.len() - 1;
    let _before = port.journal(); // known: the journal is a run
    let (_tried, now) = try_call(port, roles, place, &Call::Vhangup { h }, stand)?;
    let _behind = port.journal(); // known: the journal is a run
    desk.hang_up(port, h)?;
    Ok(now)
}
