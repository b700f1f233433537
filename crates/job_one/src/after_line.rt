//! What comes after the line of a phase: flushes, callers at the desk, and the clock, up to the end of the phase.

ghost use Rattle.std.specs.Prelude.{◌≡◌, ◌≢◌, ◌<◌, ◌-◌, [], Some, true, false, not, is_none};
ghost use Rattle.std.specs.Prelude.{IfOk, IfErr, IsTrue, MatchBool, OnErr, OnOk, if◌then◌else◌};
ghost use Rattle.std.specs.Prelude.{length, slice_index_or, slice_set, sum};
ghost use Rattle.tty_calls.specs.Plain.{call_of};
ghost use Rattle.tty_terminal.specs.Terminals.{caller_at, has_begun};
ghost use Rattle.legal_runs.specs.Order.{is_of_consoles};
ghost use Rattle.one_thread.specs.declared.after_line.Turn.TheVariants as turn;
ghost use Rattle.job_control.specs.declared.processes.Judged.TheVariants.{Pass};
ghost use Rattle.passed_calls.specs.Scripts.{plain};
ghost use Rattle.job_steps.specs.Steps.{judged_answer, judged_call};
ghost use Rattle.job_one.specs.Frames.{Frame, IsAtTurn, IsNextTurn};
ghost use Rattle.job_one.specs.AfterLine.{IsFrameWithin, BeginsTurns, EndsTurns, StopsTurns};
ghost use Rattle.calls_left.specs.Remaining.{after_next, any_call_of, left_at};
ghost use Rattle.order_laws.specs.Left.{turns_left};
ghost use Rattle.job_one.specs.Taken.{GoesToPort, IsBetweenTurns, IsNextOf, TakesCall};

use crate::desks::Desk;
use crate::turns::{Taken, take_call, take_flush, take_own, take_pass, take_stop};
use calls_left::{NextCall, Remaining};
use flip_buffer::FlipIn;
use job_control::Judged;
use job_text::OwnCall;
use one_thread::{Stand, Turn, end_calls, end_phase, turn_of};
use play_base::Role;
use port_core::Port;
use tty_calls::{Call, Denied};

/// Whether a caller has begun a call that is not answered.
fn has_begun(port: &Port, caller: u16) -> bool
    requires { caller < sum port.now.counts }
    ensures { result ≡ has_begun (caller_at port.now.terminal caller) }
{
    match port.caller(caller).bound {
        Some(_) => true,
        None => false,
    }
}

/// Whether a call goes on.
fn passes(judged: Judged) -> bool
    ensures { MatchBool result (judged ≡ Pass) (IsTrue (not (is_none (judged_answer judged)))) }
{
    matches!(judged, Judged::Pass)
}

/// Whether a call goes to the port: the one that its caller has begun, or one that the background check lets go on.
fn goes_to_port(port: &Port, desk: &Desk, caller: u16, call: &Call) -> bool
    requires known { caller < sum port.now.counts }
    requires caller { caller < length desk.now.callers }
    ensures { GoesToPort result (has_begun (caller_at port.now.terminal caller))
        (judged_call desk.now.jobs port.now.terminal (slice_index_or desk.now.callers caller 0) (call_of call.now)) }
{
    if has_begun(port, caller) {
        return true;
    }
    passes(desk.judge(port, caller, call))
}

/// A caller's next call, which is for the port unless it is stopped.
fn take_plain(
    port: &mut Port,
    desk: &mut Desk,
    roles: &[Role],
    place: usize,
    call: &Call,
    stand: Stand,
) -> Result<Taken, Denied>
    ghost frame: { Frame }
    requires frame { IsFrameWithin frame }
    requires at { IsAtTurn frame roles.now port.old desk.old stand }
    requires next { IsNextTurn frame roles.now port.old stand (turn.Call place) }
    requires call { IsNextOf frame roles.now desk.old place (plain (call_of call.now)) }
    ensures ok { IfOk result (λ taken. TakesCall frame roles.now place port.old port.new desk.old desk.new taken) }
    ensures err { IfErr result (λ d. StopsTurns d frame roles.now port.new desk.new) }
{
    let caller = roles[place].number;
    if goes_to_port(port, desk, caller, call) {
        return take_call(port, desk, roles, place, call, stand);
    }
    take_stop(port, desk, roles, place, call, stand)
}

/// A caller's next call.
fn take_next(
    port: &mut Port,
    desk: &mut Desk,
    roles: &[Role],
    place: usize,
    call: &NextCall<OwnCall>,
    stand: Stand,
) -> Result<Taken, Denied>
    ghost frame: { Frame }
    requires frame { IsFrameWithin frame }
    requires at { IsAtTurn frame roles.now port.old desk.old stand }
    requires next { IsNextTurn frame roles.now port.old stand (turn.Call place) }
    requires call { IsNextOf frame roles.now desk.old place (any_call_of call.now) }
    ensures ok { IfOk result (λ taken. TakesCall frame roles.now place port.old port.new desk.old desk.new taken) }
    ensures err { IfErr result (λ d. StopsTurns d frame roles.now port.new desk.new) }
{
    match call {
        NextCall::Port(call) => take_plain(port, desk, roles, place, call, stand),
        NextCall::Own(call) => take_own(port, desk, roles, place, *call, stand),
    }
}

/// The end of a caller's calls of the phase.
fn take_last(
    port: &mut Port,
    desk: &Desk,
    roles: &[Role],
    calls: &Remaining<OwnCall>,
    place: usize,
    stand: Stand,
) -> Result<Stand, Denied>
    ghost frame: { Frame }
    requires between { IsBetweenTurns frame roles.now port.old desk.now stand calls.now }
    requires next { IsNextTurn frame roles.now port.old stand (turn.Call place) }
    requires none { left_at calls.now place ≡ [] }
    ensures ok { IfOk result (λ now. IsBetweenTurns frame roles.now port.new desk.now now calls.now) }
    ensures less { OnOk result (turns_left port.new calls.now < turns_left port.old calls.now) }
    ensures err { IfErr result (λ d. StopsTurns d frame roles.now port.new desk.now) }
{
    let _ = desk; // for the contract alone
    let _ = calls; // for the contract alone
    let _before = port.journal(); // known: the journal is a run
    let now = end_calls(port, roles, place, stand)?;
    let _behind = port.journal(); // known: the journal is a run
    Ok(now)
}

fn pass_if(answered: bool, calls: &mut Remaining<OwnCall>, place: usize)
    ensures { calls.new
        ≡ (if answered then slice_set calls.old place (after_next (left_at calls.old place)) else calls.old) }
{
    if answered {
        calls.pass(place);
    }
}

/// A caller's next call of the phase, or the end of its calls there.
fn go_on(
    port: &mut Port,
    desk: &mut Desk,
    roles: &[Role],
    calls: &mut Remaining<OwnCall>,
    place: usize,
    stand: Stand,
) -> Result<Stand, Denied>
    ghost frame: { Frame }
    requires between { IsBetweenTurns frame roles.now port.old desk.old stand calls.old }
    requires next { IsNextTurn frame roles.now port.old stand (turn.Call place) }
    ensures ok { IfOk result (λ now. IsBetweenTurns frame roles.now port.new desk.new now calls.new) }
    ensures less { OnOk result (turns_left port.new calls.new < turns_left port.old calls.old) }
    ensures err { IfErr result (λ d. StopsTurns d frame roles.now port.new desk.new) }
{
    match calls.next(place) {
        Some(call) => {
            let taken = take_next(port, desk, roles, place, &call, stand)?;
            pass_if(taken.answered, calls, place);
            Ok(taken.stand)
        }
        None => take_last(port, desk, roles, calls, place, stand),
    }
}

/// One turn, by whose it is.
fn play_turn(
    port: &mut Port,
    desk: &mut Desk,
    roles: &[Role],
    calls: &mut Remaining<OwnCall>,
    next: Turn,
    stand: Stand,
) -> Result<Stand, Denied>
    ghost frame: { Frame }
    requires between { IsBetweenTurns frame roles.now port.old desk.old stand calls.old }
    requires turn { IsNextTurn frame roles.now port.old stand next }
    requires goes_on { next ≢ turn.End }
    ensures ok { IfOk result (λ now. IsBetweenTurns frame roles.now port.new desk.new now calls.new) }
    ensures less { OnOk result (turns_left port.new calls.new < turns_left port.old calls.old) }
    ensures err { IfErr result (λ d. StopsTurns d frame roles.now port.new desk.new) }
{
    match next {
        Turn::Flush => take_flush(port, desk, roles, stand),
        Turn::Call(place) => go_on(port, desk, roles, calls, place, stand),
        Turn::Pass => take_pass(port, desk, roles, stand),
        Turn::End => unreachable!(),
    }
}

/// What comes after the line of a phase, from where the player stands then. `calls` has what the callers of the roles
/// have to call in the phase. It gives the number of the next flush run.
pub fn play_after_line(
    port: &mut Port,
    putter: &mut FlipIn,
    desk: &mut Desk,
    roles: &[Role],
    calls: &mut Remaining<OwnCall>,
    stand: Stand,
    clock_first: bool,
) -> Result<u32, Denied>
    ghost frame: { Frame }
    requires begins { BeginsTurns frame roles.now port.old desk.old stand calls.old }
    requires first { clock_first ≡ is_of_consoles frame.first.session }
    requires ring { putter.old.ring ≡ port.old.flip.ring }
    ensures ok { IfOk result (λ next. EndsTurns frame roles.now port.new putter.old putter.new desk.new next) }
    ensures err { IfErr result (λ d. StopsTurns d frame roles.now port.new desk.new) }
    ensures putter { OnErr result (putter.new ≡ putter.old) }
{
    let mut stand = stand;
    let mut next = turn_of(port, roles, stand.going, clock_first);
    while !matches!(next, Turn::End) {
        stand = play_turn(port, desk, roles, calls, next, stand)?;
        next = turn_of(port, roles, stand.going, clock_first);
    }
    let _last = port.journal(); // known: the journal is a run
    let run = end_phase(port, putter, roles, stand)?;
    let _behind = port.journal(); // known: the journal is a run
    Ok(run)
}
