//! What the line's thread does in a phase: the line's steps, and its end.

ghost use Rattle.std.specs.Prelude.{◌≡◌, ◌+◌, ◌-◌, ◌≤◌, false, IsTrue, List, IfErr, OnOk, OnErr, All, length};
ghost use Rattle.tty_base.specs.Sizes.{MOST_SENT};
ghost use Rattle.tty_base.specs.Lines.{is_step, arrival_count};
ghost use Rattle.tty_base.specs.declared.lines.LineStep.{LineStep};
ghost use Rattle.uart_line.specs.LineState.{HasDone};
ghost use Rattle.port_cell.specs.Knowledge.{number_of, list_seen};
ghost use Rattle.tty_port.specs.Seen.{marks_at};
ghost use Rattle.tty_port.specs.Adding.{IsFull};
ghost use Rattle.tty_port.specs.Shared.{IsHere, name_of_port};
ghost use Rattle.many_threads.specs.Parts.{RunsLine, PlaysLine};

use flip_buffer::FlipIn;
use std::sync::Wait;
use tty_base::LineStep;
use tty_calls::{Denied, Who};
use tty_port::{Gate, Pace, Seat, SharedPort};
use uart_line::Line;

/// Does the steps of a line, and the two that close it.
fn send<R: Wait>(
    rt: &R,
    shared: &SharedPort,
    seat: &mut Seat,
    line: &mut Line,
    putter: &mut FlipIn,
    steps: &[LineStep],
)
    requires seat { IsHere shared.now (number_of seat.old) seat.old }
    requires good { All (λ step. IsTrue (is_step step)) steps.now }
    requires room { line.old.report.arrived + arrival_count steps.now ≤ line.old.most }
    requires put { line.old.most ≤ (MOST_SENT - length putter.old.sent) + line.old.handed }
    ensures seat { seat.new ≡ seat.old }
    ensures runs { RunsLine steps.now line.old line.new putter.old putter.new }
{
    let mut pace = Pace::new();
    for step in steps {
        shared.give_way(rt, seat, putter, &mut pace);
        line.step(*step, putter);
    }
    line.run(&[], putter);
}

/// The line of a port in a phase: its seat, the line, and the end of the flip buffer that it puts to.
#[derive(Drop)]
pub struct Receiver {
    pub seat: Seat,
    pub line: Line,
    pub putter: FlipIn,
}

/// Plays a line: these steps and the two that close them, whose characters go to the putter, and then
/// its end.
pub(crate) fn play_line<R: Wait, G: Gate>(
    rt: &R,
    gate: &G,
    shared: &SharedPort,
    receiver: &mut Receiver,
    steps: &[LineStep],
    phase: u32,
) -> Result<(), Denied>
    requires seat { IsHere shared.now ((name_of_port shared.now).callers + 1) receiver.old.seat }
    requires not_over { (marks_at (list_seen receiver.old.seat)).line_over ≡ false }
    requires ring { receiver.old.putter.ring ≡ (name_of_port shared.now).ring }
    requires sent { (marks_at (list_seen receiver.old.seat)).sent ≤ length receiver.old.putter.sent }
    requires done { (before : List LineStep) × HasDone receiver.old.line before }
    requires good { All (λ step. IsTrue (is_step step)) steps.now }
    requires room { receiver.old.line.report.arrived + arrival_count steps.now ≤ receiver.old.line.most }
    requires put { receiver.old.line.most ≤ (MOST_SENT - length receiver.old.putter.sent) + receiver.old.line.handed }
    ensures seat { IsHere shared.now ((name_of_port shared.now).callers + 1) receiver.new.seat }
    ensures ok { OnOk result (PlaysLine ((name_of_port shared.now).callers + 1) steps.now receiver.old.line
        receiver.new.line receiver.old.putter receiver.new.putter (list_seen receiver.old.seat) receiver.new.seat) }
    ensures err { OnErr result (RunsLine steps.now receiver.old.line receiver.new.line
        receiver.old.putter receiver.new.putter) }
    ensures full { IfErr result (λ d. IsFull (name_of_port shared.now) d (list_seen receiver.new.seat)) }
{
    let Receiver { seat, line, putter } = receiver;
    send(rt, shared, seat, line, putter, steps);
    gate.pass(rt, Who::Line, phase, 0);
    shared.line_end(rt, seat, putter)
}
