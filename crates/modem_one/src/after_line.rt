//! What comes after the line of a phase: flushes, callers, the modem block and the clock, up to the end of the phase.

ghost use Rattle.std.specs.Prelude.{◌≡◌, ◌≢◌, ◌<◌, Some, [], IfOk, IfErr, OnErr, OnOk, if◌then◌else◌, slice_set};
ghost use Rattle.calls_left.specs.Remaining.{after_next, left_at};
ghost use Rattle.modem_one.specs.declared.turns.Next.TheVariants as turn;
ghost use Rattle.modem_one.specs.AfterLine.{IsBetween, IsTurnOf, BeginsTurns, EndsTurns, StopsTurns};
ghost use Rattle.modem_one.specs.Left.{turns_left};
ghost use Rattle.modem_one.specs.Playing.{Frame};

use crate::acts::{take_call, take_flush, take_item, take_pass};
use crate::desks::Desk;
use crate::items::Items;
use crate::turns::{Next, next_of};
use calls_left::Remaining;
use flip_buffer::FlipIn;
use modem_text::OwnCall;
use one_thread::{Stand, end_calls, end_phase};
use play_base::Role;
use port_core::Port;
use tty_calls::Denied;

/// The end of a caller's calls of the phase.
fn take_last(
    port: &mut Port,
    desk: &Desk,
    roles: &[Role],
    calls: &Remaining<OwnCall>,
    items: &Items,
    place: usize,
    stand: Stand,
) -> Result<Stand, Denied>
    ghost frame: { Frame }
    requires between { IsBetween frame roles.now port.old desk.now stand calls.now items.now }
    requires next { IsTurnOf frame roles.now port.old desk.now stand (turn.Call place) }
    requires none { left_at calls.now place ≡ [] }
    ensures ok { IfOk result (λ now. IsBetween frame roles.now port.new desk.now now calls.now items.now) }
    ensures less { OnOk result (turns_left port.new calls.now items.now < turns_left port.old calls.now items.now) }
    ensures err { IfErr result (λ d. StopsTurns d frame roles.now port.new desk.now) }
{
    let _ = desk; // for the contract alone
    let _ = calls; // for the contract alone
    let _ = items; // for the contract alone
    let _before = port.journal(); // known: the journal is a run
    let now = end_calls(port, roles, place, stand)?;
    let _behind = port.journal(); // known: the journal is a run
    Ok(now)
}

fn pass_if(answered: bool, calls: &mut Remaining<OwnCall>, place: usize)
    ensures { calls.new
        ≡ (if answered then slice_set calls.old place (after_next (left_at calls.old place)) else calls.old) }
{
    if answered {
        calls.pass(place);
    }
}

/// A caller's next call of the phase, or the end of its calls there.
fn go_on(
    port: &mut Port,
    desk: &mut Desk,
    roles: &[Role],
    calls: &mut Remaining<OwnCall>,
    items: &Items,
    place: usize,
    stand: Stand,
) -> Result<Stand, Denied>
    ghost frame: { Frame }
    requires between { IsBetween frame roles.now port.old desk.old stand calls.old items.now }
    requires next { IsTurnOf frame roles.now port.old desk.old stand (turn.Call place) }
    ensures ok { IfOk result (λ now. IsBetween frame roles.now port.new desk.new now calls.new items.now) }
    ensures less { OnOk result (turns_left port.new calls.new items.now < turns_left port.old calls.old items.now) }
    ensures err { IfErr result (λ d. StopsTurns d frame roles.now port.new desk.new) }
{
    match calls.next(place) {
        Some(call) => {
            let taken = take_call(port, desk, roles, place, &call, stand)?;
            pass_if(taken.answered, calls, place);
            Ok(taken.stand)
        }
        None => take_last(port, desk, roles, calls, items, place, stand),
    }
}

/// The caller whose open waits in vain is told so.
fn tell(
    port: &Port,
    desk: &mut Desk,
    roles: &[Role],
    calls: &mut Remaining<OwnCall>,
    items: &Items,
    place: usize,
    stand: Stand,
) -> Result<Stand, Denied>
    ghost frame: { Frame }
    requires between { IsBetween frame roles.now port.now desk.old stand calls.old items.now }
    requires next { IsTurnOf frame roles.now port.now desk.old stand (turn.Tell place) }
    ensures ok { IfOk result (λ now. IsBetween frame roles.now port.now desk.new now calls.new items.now) }
    ensures less { OnOk result (turns_left port.now calls.new items.now < turns_left port.now calls.old items.now) }
    ensures err { IfErr result (λ d. StopsTurns d frame roles.now port.now desk.new) }
{
    let _ = items; // for the contract alone
    port.known();
    desk.tell(port, roles[place].number)?;
    calls.pass(place);
    Ok(stand)
}

/// The next item of the modem block.
fn do_item(
    port: &mut Port,
    desk: &mut Desk,
    roles: &[Role],
    calls: &Remaining<OwnCall>,
    items: &mut Items,
    stand: Stand,
) -> Result<Stand, Denied>
    ghost frame: { Frame }
    requires between { IsBetween frame roles.now port.old desk.old stand calls.now items.old }
    requires next { IsTurnOf frame roles.now port.old desk.old stand turn.Pin }
    ensures ok { IfOk result (λ now. IsBetween frame roles.now port.new desk.new now calls.now items.new) }
    ensures less { OnOk result (turns_left port.new calls.now items.new < turns_left port.old calls.now items.old) }
    ensures err { IfErr result (λ d. StopsTurns d frame roles.now port.new desk.new) }
{
    let _ = calls; // for the contract alone
    match items.next() {
        Some(item) => {
            let now = take_item(port, desk, roles, item, stand)?;
            items.pass();
            Ok(now)
        }
        None => unreachable!(),
    }
}

/// One turn, by whose it is.
fn play_turn(
    port: &mut Port,
    desk: &mut Desk,
    roles: &[Role],
    calls: &mut Remaining<OwnCall>,
    items: &mut Items,
    next: Next,
    stand: Stand,
) -> Result<Stand, Denied>
    ghost frame: { Frame }
    requires between { IsBetween frame roles.now port.old desk.old stand calls.old items.old }
    requires turn { IsTurnOf frame roles.now port.old desk.old stand next }
    requires goes_on { next ≢ turn.End }
    ensures ok { IfOk result (λ now. IsBetween frame roles.now port.new desk.new now calls.new items.new) }
    ensures less { OnOk result (turns_left port.new calls.new items.new < turns_left port.old calls.old items.old) }
    ensures err { IfErr result (λ d. StopsTurns d frame roles.now port.new desk.new) }
{
    match next {
        Next::Flush => take_flush(port, desk, roles, stand),
        Next::Call(place) => go_on(port, desk, roles, calls, items, place, stand),
        Next::Pin => do_item(port, desk, roles, calls, items, stand),
        Next::Pass => take_pass(port, desk, roles, stand),
        Next::Tell(place) => tell(port, desk, roles, calls, items, place, stand),
        Next::End => unreachable!(),
    }
}

/// What comes after the line of a phase, from where the player stands then. `calls` has what the callers of the roles
/// have to call in the phase, and `items` the port's modem block there. It gives the number of the next flush run.
pub fn play_after_line(
    port: &mut Port,
    putter: &mut FlipIn,
    desk: &mut Desk,
    roles: &[Role],
    calls: &mut Remaining<OwnCall>,
    items: &mut Items,
    stand: Stand,
) -> Result<u32, Denied>
    ghost frame: { Frame }
    requires begins { BeginsTurns frame roles.now port.old desk.old stand calls.old items.old }
    requires ring { putter.old.ring ≡ port.old.flip.ring }
    ensures ok { IfOk result (λ next. EndsTurns frame roles.now port.new putter.old putter.new desk.new next) }
    ensures err { IfErr result (λ d. StopsTurns d frame roles.now port.new desk.new) }
    ensures putter { OnErr result (putter.new ≡ putter.old) }
{
    let mut stand = stand;
    let mut next = next_of(port, desk, roles, calls, items, stand.going);
    while !matches!(next, Next::End) {
        stand = play_turn(port, desk, roles, calls, items, next, stand)?;
        next = next_of(port, desk, roles, calls, items, stand.going);
    }
    let _last = port.journal(); // known: the journal is a run
    let run = end_phase(port, putter, roles, stand)?;
    let _behind = port.journal(); // known: the journal is a run
    Ok(run)
}
