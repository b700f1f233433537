//! The ends of the consoles' lines and clocks in a phase, behind the last of its keys.

ghost use Rattle.std.specs.Prelude.{◌≡◌, ℕ, ◌<◌, Option, Some, length, slice_get, slice_index_or};
ghost use Rattle.tty_base.specs.declared.characters.Flagged.{Flagged};
ghost use Rattle.word_ring.specs.Ends.{PutterState};
ghost use Rattle.tty_port.specs.declared.shared.SharedPort.{SharedPort};
ghost use Rattle.vt_keyboard.specs.declared.console_ends.KeySeats.{KeySeats};
ghost use Rattle.vt_keyboard.specs.Consoles.{CanEndConsole, CanEndIf, EndsAt, EndsConsole, EndsIf, PairAt, PairsAll};

use flip_buffer::FlipIn;
use many_threads::play_clock;
use std::sync::Wait;
use tty_calls::{Denied, Who};
use tty_port::{Gate, Seat, SharedPort};

/// What the keyboard's thread has of a console beside its line: the seats of line and clock, how many ticks the clock
/// makes, and what their ends were answered.
#[derive(Drop)]
pub struct KeySeats {
    pub line: Seat,
    pub clock: Seat,
    pub ticks: u32,
    pub line_result: Result<(), Denied>,
    pub clock_result: Result<(), Denied>,
}

/// Ends line and clock of a console.
fn end_console<R: Wait, G: Gate>(
    rt: &R,
    gate: &G,
    shared: &SharedPort,
    seats: &mut KeySeats,
    end: &mut FlipIn,
    phase: u32,
)
    requires { CanEndConsole shared.now seats.old end.old }
    ensures { EndsConsole shared.now seats.old seats.new end.old end.new }
{
    gate.pass(rt, Who::Line, phase, 0);
    seats.line_result = shared.line_end(rt, &mut seats.line, end);
    seats.clock_result = play_clock(rt, shared, &mut seats.clock, seats.ticks);
}

/// Ends line and clock of a console whose port is shared.
fn end_shared<R: Wait, G: Gate>(
    rt: &R,
    gate: &G,
    port: &Option<SharedPort>,
    seats: &mut Option<KeySeats>,
    end: &mut FlipIn,
    phase: u32,
)
    requires { CanEndIf port.now seats.old end.old }
    ensures { EndsIf port.now seats.old seats.new end.old end.new }
{
    let Some(shared) = port else {
        return;
    };
    let Some(seats) = seats else {
        return;
    };
    end_console(rt, gate, shared, seats, end, phase);
}

fn end_console_at<R: Wait, G: Gate>(
    rt: &R,
    gate: &G,
    ports: &[Option<SharedPort>],
    seats: &mut [Option<KeySeats>],
    ends: &mut [FlipIn],
    phase: u32,
    p: usize,
)
    requires port { p < length ports.now }
    requires seat { p < length seats.old }
    requires end { p < length ends.old }
    requires can { (port : Option SharedPort) (s : Option KeySeats) (e : PutterState Flagged)
        → port ≡ slice_index_or ports.now p port
        → s ≡ slice_index_or seats.old p s
        → e ≡ slice_index_or ends.old p e
        → CanEndIf port s e }
    ensures { PairAt (EndsAt ports.now) p seats.old seats.new ends.old ends.new }
{
    end_shared(rt, gate, &ports[p], &mut seats[p], &mut ends[p], phase);
}

/// Ends the lines and clocks of all consoles whose ports are shared.
pub(crate) fn end_consoles<R: Wait, G: Gate>(
    rt: &R,
    gate: &G,
    ports: &[Option<SharedPort>],
    seats: &mut [Option<KeySeats>],
    ends: &mut [FlipIn],
    phase: u32,
)
    requires ports { length ports.now ≡ length seats.old }
    requires ends { length ends.old ≡ length seats.old }
    requires can { (p : ℕ) (port : Option SharedPort) (s : Option KeySeats) (e : PutterState Flagged)
        → slice_get ports.now p ≡ Some port
        → slice_get seats.old p ≡ Some s
        → slice_get ends.old p ≡ Some e
        → CanEndIf port s e }
    ensures { PairsAll (EndsAt ports.now) seats.old seats.new ends.old ends.new }
{
    for p in 0..ports.len() {
        end_console_at(rt, gate, ports, seats, ends, phase, p);
    }
}
