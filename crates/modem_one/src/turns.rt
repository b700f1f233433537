//! Whose turn it is behind the line of a phase.

ghost use Rattle.std.specs.Prelude.{◌≡◌, ◌<◌, [], Some, None, length, slice_get, slice_index, sum, take};
ghost use Rattle.std.specs.Prelude.{ℕ};
ghost use Rattle.port_core.specs.Ports.{call_in};
ghost use Rattle.calls_left.specs.Remaining.{left_at};
ghost use Rattle.one_thread.specs.Turns.{role_numbers};
ghost use Rattle.modem_steps.specs.Steps.{waits_for_carrier};
ghost use Rattle.modem_steps.specs.Order.{goes_on, goes_on_with, turn_by_rank, turn_in_vain, turn_of_others};
ghost use Rattle.modem_one.specs.Desk.{state_at};
ghost use Rattle.modem_one.specs.Playing.{Frame};
ghost use Rattle.modem_one.specs.Turns.{port_now, is_so, IsFirst, IsNextTurn, IsNextWithin, whose};
ghost use Rattle.modem_one.specs.AfterLine.{AreAsked, AreItems};

use crate::desks::Desk;
use crate::items::Items;
use calls_left::{NextCall, Remaining};
use modem_text::OwnCall;
use play_base::Role;
use port_core::Port;

/// What is done next: a piece of a flush run, a call of the caller at a place, an item of the modem block, a tick or
/// the end of the clock, an answer to the caller at a place that no carrier comes, or the end of the phase.
#[derive(Clone, Copy)]
pub enum Next {
    Flush,
    Call(usize),
    Pin,
    Pass,
    Tell(usize),
    End,
}

/// What is asked of a caller: whether it can go on, whether its open waits for the carrier, or whether it waits.
#[derive(Clone, Copy)]
pub enum Asked {
    GoesOn,
    Held,
    Waits,
}

/// Whether the next call at a place is an open that waits for the carrier.
fn is_held(port: &Port, desk: &Desk, calls: &Remaining<OwnCall>, place: usize) -> bool
    ensures { result ≡ waits_for_carrier desk.now.lines port.now.terminal (slice_get (left_at calls.now place) 0) }
{
    match calls.next(place) {
        Some(NextCall::Port(call)) => desk.holds(port, &call),
        Some(NextCall::Own(_)) => false,
        None => false,
    }
}

/// Whether a caller can go on.
fn goes_on(port: &Port, desk: &Desk, calls: &Remaining<OwnCall>, place: usize, caller: u16) -> bool
    requires { caller < sum port.now.counts }
    ensures { result
        ≡ goes_on_with desk.now.lines (call_in port.now.kept) port.now.terminal
        (slice_get (left_at calls.now place) 0) caller }
{
    let state = port.caller(caller);
    if state.over {
        return false;
    }
    if state.waits.is_some() {
        return !port.must_wait(caller);
    }
    !is_held(port, desk, calls, place)
}

fn is_so(
    port: &Port,
    desk: &Desk,
    roles: &[Role],
    calls: &Remaining<OwnCall>,
    place: usize,
    asked: Asked,
) -> bool
    ghost frame: { Frame }
    requires known { AreAsked frame roles.now port.now desk.now calls.now }
    requires place { place < length calls.now }
    ensures { result
        ≡ is_so asked (port_now frame.first.port frame.session port.now) (state_at desk.now 0 []) port.now.terminal
        (slice_index (role_numbers roles.now) place) }
{
    let caller = roles[place].number;
    match asked {
        Asked::GoesOn => goes_on(port, desk, calls, place, caller),
        Asked::Held => !port.caller(caller).over && is_held(port, desk, calls, place),
        Asked::Waits => port.caller(caller).waits.is_some(),
    }
}

/// The place of the first caller that is such a one. `carrier` is none of them.
fn first_of(
    port: &Port,
    desk: &Desk,
    roles: &[Role],
    calls: &Remaining<OwnCall>,
    asked: Asked,
) -> Option<usize>
    ghost frame: { Frame }
    requires known { AreAsked frame roles.now port.now desk.now calls.now }
    ensures { IsFirst
        (is_so asked (port_now frame.first.port frame.session port.now) (state_at desk.now 0 []) port.now.terminal)
        (take (length calls.now) (role_numbers roles.now)) result }
{
    for place in 0..roles.len() - 1 {
        if is_so(port, desk, roles, calls, place, asked) {
            return Some(place);
        }
    }
    None
}

/// The turn of the clock, or else of those that wait in vain, or the end of the phase.
fn next_in_vain(port: &Port, desk: &Desk, roles: &[Role], calls: &Remaining<OwnCall>) -> Next
    ghost frame: { Frame }
    requires known { AreAsked frame roles.now port.now desk.now calls.now }
    ensures turn { whose (role_numbers roles.now) result
        ≡ turn_in_vain (port_now frame.first.port frame.session port.now) (state_at desk.now 0 []) port.now.terminal
        (take (length calls.now) (role_numbers roles.now)) }
    ensures within { IsNextWithin result (length roles.now) }
{
    if !port.clock_is_over() {
        return Next::Pass;
    }
    match first_of(port, desk, roles, calls, Asked::Held) {
        Some(place) => Next::Tell(place),
        None => match first_of(port, desk, roles, calls, Asked::Waits) {
            Some(place) => Next::Call(place),
            None => Next::End,
        },
    }
}

/// The turn where no caller can go on.
fn next_of_others(
    port: &Port,
    desk: &Desk,
    roles: &[Role],
    calls: &Remaining<OwnCall>,
    items: &Items,
) -> Next
    ghost frame: { Frame }
    requires known { AreAsked frame roles.now port.now desk.now calls.now }
    requires items { AreItems frame port.now desk.now items.now }
    ensures turn { whose (role_numbers roles.now) result
        ≡ turn_of_others (port_now frame.first.port frame.session port.now) (state_at desk.now 0 []) port.now.terminal
        (take (length calls.now) (role_numbers roles.now)) }
    ensures within { IsNextWithin result (length roles.now) }
{
    if items.next().is_some() {
        return Next::Pin;
    }
    let last = roles.len() - 1;
    if !port.caller(roles[last].number).over {
        return Next::Call(last);
    }
    next_in_vain(port, desk, roles, calls)
}

/// Whose turn it is, where no write goes on.
fn next_by_rank(
    port: &Port,
    desk: &Desk,
    roles: &[Role],
    calls: &Remaining<OwnCall>,
    items: &Items,
) -> Next
    ghost frame: { Frame }
    requires known { AreAsked frame roles.now port.now desk.now calls.now }
    requires items { AreItems frame port.now desk.now items.now }
    ensures turn { whose (role_numbers roles.now) result
        ≡ turn_by_rank (port_now frame.first.port frame.session port.now) (state_at desk.now 0 [])
        port.now.terminal }
    ensures within { IsNextWithin result (length roles.now) }
{
    if !port.has_nothing_to_flush() {
        return Next::Flush;
    }
    match first_of(port, desk, roles, calls, Asked::GoesOn) {
        Some(place) => Next::Call(place),
        None => next_of_others(port, desk, roles, calls, items),
    }
}

/// Whose turn it is.
pub(crate) fn next_of(
    port: &Port,
    desk: &Desk,
    roles: &[Role],
    calls: &Remaining<OwnCall>,
    items: &Items,
    going: Option<usize>,
) -> Next
    ghost frame: { Frame }
    requires known { AreAsked frame roles.now port.now desk.now calls.now }
    requires items { AreItems frame port.now desk.now items.now }
    requires place { (i : ℕ) → going ≡ Some i → i < length roles.now }
    ensures { IsNextTurn frame.first.port frame.session port.now desk.now roles.now going result }
{
    match going {
        Some(place) => Next::Call(place),
        None => next_by_rank(port, desk, roles, calls, items),
    }
}
