//! The turns that come after the line of a phase, one by one.

ghost use Rattle.std.specs.Prelude.{Some, IfOk, IfErr};
ghost use Rattle.passed_calls.specs.Scripts.{plain, further};
ghost use Rattle.one_thread.specs.declared.after_line.Turn.TheVariants as turn;
ghost use Rattle.tty_calls.specs.Plain.{call_of};
ghost use Rattle.job_one.specs.Frames.{Frame, IsAtTurn, IsForPort, IsHangingUp, IsNextTurn, IsOwnCall};
ghost use Rattle.job_one.specs.AfterLine.{StopsTurns, IsFrameWithin};
ghost use Rattle.job_one.specs.Taken.{IsNextOf, TakesCall, TakesNoCall};

use crate::controls::hangup_through;
use crate::desks::Desk;
use job_text::OwnCall;
use one_thread::{Stand, flush, pass, try_call};
use play_base::Role;
use port_core::{Port, Tried};
use tty_calls::{Call, Denied};

/// What a caller's turn came to: whether a call was answered, and where the player stands then.
#[derive(Clone, Copy)]
pub struct Taken {
    pub answered: bool,
    pub stand: Stand,
}

/// The next piece of a flush run, and the signals that it has raised.
pub(crate) fn take_flush(
    port: &mut Port,
    desk: &mut Desk,
    roles: &[Role],
    stand: Stand,
) -> Result<Stand, Denied>
    ghost frame: { Frame }
    requires at { IsAtTurn frame roles.now port.old desk.old stand }
    requires next { IsNextTurn frame roles.now port.old stand turn.Flush }
    ensures ok { IfOk result (λ now. TakesNoCall frame roles.now port.old port.new desk.old desk.new now) }
    ensures err { IfErr result (λ d. StopsTurns d frame roles.now port.new desk.new) }
{
    let _before = port.journal(); // known: the journal is a run
    let now = flush(port, roles, stand)?;
    let _behind = port.journal(); // known: the journal is a run
    desk.send_new(port)?;
    Ok(now)
}

/// A tick, or the end of the clock.
pub(crate) fn take_pass(
    port: &mut Port,
    desk: &Desk,
    roles: &[Role],
    stand: Stand,
) -> Result<Stand, Denied>
    ghost frame: { Frame }
    requires at { IsAtTurn frame roles.now port.old desk.now stand }
    requires next { IsNextTurn frame roles.now port.old stand turn.Pass }
    ensures ok { IfOk result (λ now. TakesNoCall frame roles.now port.old port.new desk.now desk.now now) }
    ensures err { IfErr result (λ d. StopsTurns d frame roles.now port.new desk.now) }
{
    let _ = desk; // for the contract alone
    let _before = port.journal(); // known: the journal is a run
    let now = pass(port, roles, stand)?;
    let _behind = port.journal(); // known: the journal is a run
    Ok(now)
}

/// An attempt of a caller's call that is for the port. Where the port answers it, that is logged, and a hangup tells
/// the leader of the session.
pub(crate) fn take_call(
    port: &mut Port,
    desk: &mut Desk,
    roles: &[Role],
    place: usize,
    call: &Call,
    stand: Stand,
) -> Result<Taken, Denied>
    ghost frame: { Frame }
    requires at { IsAtTurn frame roles.now port.old desk.old stand }
    requires next { IsNextTurn frame roles.now port.old stand (turn.Call place) }
    requires call { IsForPort frame roles.now port.old desk.old stand place (call_of call.now) }
    ensures ok { IfOk result (λ taken. TakesCall frame roles.now place port.old port.new desk.old desk.new taken) }
    ensures err { IfErr result (λ d. StopsTurns d frame roles.now port.new desk.new) }
{
    let caller = roles[place].number;
    let _before = port.journal(); // known: the journal is a run
    let (tried, now) = try_call(port, roles, place, call, stand)?;
    let _behind = port.journal(); // known: the journal is a run
    match tried {
        Tried::Done(answer) => {
            desk.pass_answer(port, caller, call, answer)?;
            Ok(Taken {
                answered: true,
                stand: now,
            })
        }
        Tried::Part => Ok(Taken {
            answered: false,
            stand: now,
        }),
        Tried::MustWait => Ok(Taken {
            answered: false,
            stand: now,
        }),
    }
}

/// A caller's call from the background, which is answered without the port.
pub(crate) fn take_stop(
    port: &Port,
    desk: &mut Desk,
    roles: &[Role],
    place: usize,
    call: &Call,
    stand: Stand,
) -> Result<Taken, Denied>
    ghost frame: { Frame }
    requires at { IsAtTurn frame roles.now port.now desk.old stand }
    requires next { IsNextTurn frame roles.now port.now stand (turn.Call place) }
    requires own { IsOwnCall frame roles.now port.now desk.old place (plain (call_of call.now)) }
    ensures ok { IfOk result (λ taken. TakesCall frame roles.now place port.now port.now desk.old desk.new taken) }
    ensures err { IfErr result (λ d. StopsTurns d frame roles.now port.now desk.new) }
{
    let caller = roles[place].number;
    port.known();
    let judged = desk.judge(port, caller, call);
    desk.stop(port, caller, judged)?;
    Ok(Taken {
        answered: true,
        stand,
    })
}

/// A caller's call of job control. Where a process ends that leads the session that holds the port, the port is hung up
/// for it.
pub(crate) fn take_own(
    port: &mut Port,
    desk: &mut Desk,
    roles: &[Role],
    place: usize,
    call: OwnCall,
    stand: Stand,
) -> Result<Taken, Denied>
    ghost frame: { Frame }
    requires frame { IsFrameWithin frame }
    requires at { IsAtTurn frame roles.now port.old desk.old stand }
    requires next { IsNextTurn frame roles.now port.old stand (turn.Call place) }
    requires call { IsNextOf frame roles.now desk.old place (further call) }
    ensures ok { IfOk result (λ taken. TakesCall frame roles.now place port.old port.new desk.old desk.new taken) }
    ensures err { IfErr result (λ d. StopsTurns d frame roles.now port.new desk.new) }
{
    let caller = roles[place].number;
    port.known();
    let due = desk.control(port, caller, call)?;
    match hangup_through(port, due) {
        Some(h) => {
            let now = hang_up(port, desk, roles, place, h, stand)?;
            Ok(Taken {
                answered: true,
                stand: now,
            })
        }
        None => Ok(Taken {
            answered: true,
            stand,
        }),
    }
}

/// The hangup for a process that has ended, which is never refused and never waits.
fn hang_up(
    port: &mut Port,
    desk: &mut Desk,
    roles: &[Role],
    place: usize,
    h: u8,
    stand: Stand,
) -> Result<Stand, Denied>
    ghost frame: { Frame }
    requires next { IsNextTurn frame roles.now port.old stand (turn.Call place) }
    requires hangs_up { IsHangingUp frame roles.now port.old desk.old stand place h }
    ensures ok { IfOk result (λ now. TakesNoCall frame roles.now port.old port.new desk.old desk.new now) }
    ensures err { IfErr result (λ d. StopsTurns d frame roles.now port.new desk.new) }
{
    let caller = roles[place].number;
    let _before = port.journal(); // known: the journal is a run
    let (_tried, now) = try_call(port, roles, place, &Call::Vhangup { h }, stand)?;
    let _behind = port.journal(); // known: the journal is a run
    desk.pass_down(port, caller, h)?;
    Ok(now)
}
