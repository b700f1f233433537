//! What the flusher's thread does in a phase: flush runs, until the phase may end.

ghost use Rattle.std.specs.Prelude.{◌≡◌, IfOk, IfErr, OnErr};
ghost use Rattle.port_cell.specs.Knowledge.{list_seen};
ghost use Rattle.tty_port.specs.Seen.{next_run};
ghost use Rattle.tty_port.specs.Adding.{IsFull};
ghost use Rattle.tty_port.specs.Shared.{IsHere, name_of_port};
ghost use Rattle.many_threads.specs.Parts.{PlaysFlusher, StopsFlusher};

use std::sync::Wait;
use tty_calls::Denied;
use tty_port::{Seat, SharedPort};

/// Plays a flusher: makes flush runs, the first of which has this number, and after a run of nothing
/// waits for a while, until the phase may end. It gives the number of the next run.
pub(crate) fn play_flusher<R: Wait>(
    rt: &R,
    shared: &SharedPort,
    seat: &mut Seat,
    run: u32,
) -> Result<u32, Denied>
    requires seat { IsHere shared.now (name_of_port shared.now).callers seat.old }
    requires next { run ≡ next_run (list_seen seat.old) }
    ensures seat { IsHere shared.now (name_of_port shared.now).callers seat.new }
    ensures ok { IfOk result (λ next. PlaysFlusher (name_of_port shared.now) run seat.old next seat.new) }
    ensures err { OnErr result (StopsFlusher (name_of_port shared.now) run seat.old seat.new) }
    ensures full { IfErr result (λ d. IsFull (name_of_port shared.now) d (list_seen seat.new)) }
{
    let mut next = run;
    for _ in rt.forever() {
        let count = shared.flush_run(rt, seat, next)?;
        if count > 0 {
            next += 1;
        } else if shared.ended(rt, seat) {
            return Ok(next);
        } else {
            shared.pause(rt, seat);
        }
    }
    unreachable!()
}
