//! What a caller's thread does in a phase: its calls, and their end.

ghost use Rattle.std.specs.Prelude.{◌+◌, ◌<◌, ◌^◌, IfErr, OnOk, OnErr, All, length, sum};
ghost use Rattle.tty_calls.specs.Limits.{IsCallWithin};
ghost use Rattle.port_cell.specs.Knowledge.{list_seen};
ghost use Rattle.tty_port.specs.Seen.{IsBetweenCalls};
ghost use Rattle.tty_port.specs.Adding.{IsFull};
ghost use Rattle.tty_port.specs.Shared.{IsHere, name_of_port};
ghost use Rattle.many_threads.specs.Parts.{MakesInRole, PlaysCaller};

use std::sync::Wait;
use tty_calls::{Calls, Denied};
use tty_port::{Gate, Seat, SharedPort};

/// Makes calls of a caller from this step on, each once the one before is answered.
fn make_calls<R: Wait, G: Gate>(
    rt: &R,
    shared: &SharedPort,
    seat: &mut Seat,
    caller: u16,
    first: u32,
    calls: &Calls,
    gate: &G,
) -> Result<(), Denied>
    requires seat { IsHere shared.now caller seat.old }
    requires known { caller < sum (name_of_port shared.now).counts }
    requires within { All IsCallWithin calls.now.items }
    requires few { first + length calls.now.items < 2 ^ 32 }
    requires between { IsBetweenCalls caller first (list_seen seat.old) }
    ensures seat { IsHere shared.now caller seat.new }
    ensures makes { MakesInRole caller first calls.now.items (list_seen seat.old) seat.new }
    ensures ok { OnOk result (IsBetweenCalls caller (first + length calls.now.items) (list_seen seat.new)) }
    ensures full { IfErr result (λ d. IsFull (name_of_port shared.now) d (list_seen seat.new)) }
{
    let mut step = first;
    for place in 0..calls.len() {
        let call = calls.at(place);
        let _answer = shared.call(rt, seat, caller, step, &call, gate)?;
        step += 1;
    }
    Ok(())
}

/// Plays a caller: its calls of the phase, the first of which has this step, and then its end.
pub(crate) fn play_caller<R: Wait, G: Gate>(
    rt: &R,
    shared: &SharedPort,
    seat: &mut Seat,
    caller: u16,
    first: u32,
    calls: &Calls,
    gate: &G,
) -> Result<(), Denied>
    requires seat { IsHere shared.now caller seat.old }
    requires known { caller < sum (name_of_port shared.now).counts }
    requires within { All IsCallWithin calls.now.items }
    requires few { first + length calls.now.items < 2 ^ 32 }
    requires between { IsBetweenCalls caller first (list_seen seat.old) }
    ensures seat { IsHere shared.now caller seat.new }
    ensures ok { OnOk result (PlaysCaller caller first calls.now.items (list_seen seat.old) seat.new) }
    ensures err { OnErr result (MakesInRole caller first calls.now.items (list_seen seat.old) seat.new) }
    ensures full { IfErr result (λ d. IsFull (name_of_port shared.now) d (list_seen seat.new)) }
{
    make_calls(rt, shared, seat, caller, first, calls, gate)?;
    shared.caller_end(rt, seat, caller)
}
