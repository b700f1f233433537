//! What the clock's thread does in a phase: its ticks, and their end.

ghost use Rattle.std.specs.Prelude.{◌≡◌, ◌+◌, false, IfErr, OnOk, OnErr};
ghost use Rattle.port_cell.specs.Knowledge.{list_seen};
ghost use Rattle.tty_port.specs.Seen.{marks_at};
ghost use Rattle.tty_port.specs.Adding.{IsFull};
ghost use Rattle.tty_port.specs.Shared.{IsHere, name_of_port};
ghost use Rattle.many_threads.specs.Parts.{MakesTicks, StopsClock, PlaysClock};

use std::sync::Wait;
use tty_calls::Denied;
use tty_port::{Seat, SharedPort};

/// Makes so many ticks.
fn make_ticks<R: Wait>(
    rt: &R,
    shared: &SharedPort,
    seat: &mut Seat,
    ticks: u32,
) -> Result<(), Denied>
    requires seat { IsHere shared.now ((name_of_port shared.now).callers + 2) seat.old }
    requires not_over { (marks_at (list_seen seat.old)).clock_over ≡ false }
    ensures seat { IsHere shared.now ((name_of_port shared.now).callers + 2) seat.new }
    ensures ok { OnOk result (MakesTicks ticks (list_seen seat.old) seat.new) }
    ensures not_over { OnOk result ((marks_at (list_seen seat.new)).clock_over ≡ false) }
    ensures err { OnErr result
        (StopsClock ((name_of_port shared.now).callers + 2) ticks (list_seen seat.old) seat.new) }
    ensures full { IfErr result (λ d. IsFull (name_of_port shared.now) d (list_seen seat.new)) }
{
    for _ in 0..ticks {
        shared.tick(rt, seat)?;
    }
    Ok(())
}

/// Plays a clock: so many ticks, and then its end.
pub fn play_clock<R: Wait>(
    rt: &R,
    shared: &SharedPort,
    seat: &mut Seat,
    ticks: u32,
) -> Result<(), Denied>
    requires seat { IsHere shared.now ((name_of_port shared.now).callers + 2) seat.old }
    requires not_over { (marks_at (list_seen seat.old)).clock_over ≡ false }
    ensures seat { IsHere shared.now ((name_of_port shared.now).callers + 2) seat.new }
    ensures ok { OnOk result (PlaysClock ((name_of_port shared.now).callers + 2) ticks (list_seen seat.old) seat.new) }
    ensures err { OnErr result
        (StopsClock ((name_of_port shared.now).callers + 2) ticks (list_seen seat.old) seat.new) }
    ensures full { IfErr result (λ d. IsFull (name_of_port shared.now) d (list_seen seat.new)) }
{
    make_ticks(rt, shared, seat, ticks)?;
    shared.clock_end(rt, seat)
}
