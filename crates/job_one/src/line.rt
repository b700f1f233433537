//! The line of a phase, with the signals that it raises sent on behind each flush.

ghost use Rattle.std.specs.Prelude.{IfErr, IfOk, IsTrue, All, OnOk};
ghost use Rattle.tty_base.specs.Lines.{is_step};
ghost use Rattle.one_thread.specs.Acts.{BeginsLine, PlaysItsLine, StopsItsLine};
ghost use Rattle.job_one.specs.Along.{SendsAlong, StopsBy};

use crate::desks::Desk;
use flip_buffer::FlipIn;
use line_steps::LineSteps;
use one_thread::Follower;
use port_core::Port;
use tty_calls::Denied;
use uart_line::Line;

impl Follower for Desk {
    ghost use Rattle.job_one.specs.Along.{SendsNew};

    ghost follows = { SendsNew };

    fn follow(&mut self, port: &Port) -> Result<(), Denied> {
        self.send_new(port)
    }
}

/// Plays the line of a phase, and sends on the signals that it raises. Answers the number of the next flush run.
pub fn play_line(
    port: &mut Port,
    putter: &mut FlipIn,
    line: &mut Line,
    desk: &mut Desk,
    steps: &LineSteps,
    run: u32,
) -> Result<u32, Denied>
    requires begins { BeginsLine steps.now.items port.old putter.old line.old run }
    requires good { All (λ step. IsTrue (is_step step)) steps.now.items }
    ensures ok { IfOk result
        (λ next. PlaysItsLine steps.now.items port.old port.new putter.old putter.new line.old line.new run next) }
    ensures err { IfErr result
        (λ d. StopsItsLine d steps.now.items port.old port.new putter.old putter.new line.old line.new run) }
    ensures sends { OnOk result (SendsAlong port.old port.new desk.old desk.new) }
    ensures stops { IfErr result (λ d. StopsBy d port.old port.new desk.old desk.new) }
{
    one_thread::play_line(port, putter, line, desk, steps, run)
}
