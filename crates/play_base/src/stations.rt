//! A port that is played, and what a phase of its session is played of.

ghost use Rattle.std.specs.Prelude.{◌≡◌, ◌<◌, IsTrue, All, length};
ghost use Rattle.tty_base.specs.Lines.{is_step};
ghost use Rattle.tty_calls.specs.Limits.{IsWithinLimits};
ghost use Rattle.tty_calls.specs.Sessions.{session_of, line_on, ticks_on};
ghost use Rattle.legal_runs.specs.Legal.{phase_at};
ghost use Rattle.play_base.specs.Casting.{scripts_at};

use flip_buffer::FlipIn;
use line_steps::LineSteps;
use port_core::Port;
use tty_calls::{Script, Session};
use uart_line::Line;

/// A port that is played, the end of its flip buffer that puts in, its line, and the next step of each
/// of its callers.
#[derive(Drop)]
pub struct Station {
    pub port: Port,
    pub putter: FlipIn,
    pub line: Line,
    pub steps: Vec<u32>,
}

/// The scripts of a phase, on all ports.
pub fn scripts_of(session: &Session, k: usize) -> &[Script]
    requires { k < length (session_of session.now).phases }
    ensures { result.now ≡ scripts_at session.now k }
{
    session.phases.as_slice()[k].callers.as_slice()
}

/// The steps of a port's line in a phase.
pub fn steps_of(session: &Session, number: usize, k: usize) -> &LineSteps
    requires within { IsWithinLimits (session_of session.now) }
    requires phase { k < length (session_of session.now).phases }
    requires port { number < (session_of session.now).ports }
    ensures line { result.now.items ≡ line_on number (phase_at (session_of session.now) k) }
    ensures good { All (λ step. IsTrue (is_step step)) result.now.items }
{
    &session.phases.as_slice()[k].lines.as_slice()[number]
}

/// The ticks of a port's clock in a phase.
pub fn ticks_of(session: &Session, number: usize, k: usize) -> u32
    requires within { IsWithinLimits (session_of session.now) }
    requires phase { k < length (session_of session.now).phases }
    requires port { number < (session_of session.now).ports }
    ensures { result ≡ ticks_on number (phase_at (session_of session.now) k) }
{
    session.phases.as_slice()[k].ticks.as_slice()[number]
}
