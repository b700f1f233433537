//! The end of a port whose phases were played.

ghost use Rattle.std.specs.Prelude.{IfOk, length};
ghost use Rattle.play_base.specs.Roles.{Scene};
ghost use Rattle.play_base.specs.Played.{IsPlayedOn};
ghost use Rattle.many_threads.specs.InPlay.{WerePlayedBefore, CanEnd};

use crate::shared_phase::PhaseEnd;
use play_base::{Station, hang_up, stop};
use tty_base::NoMemory;
use tty_calls::{PortEnd, PortRun};

/// Ends a port: it is hung up, unless its journal is full.
pub fn end_port(station: Station, end: PhaseEnd) -> Result<(PortRun, PortEnd), NoMemory>
    requires { CanEnd station end }
    ensures { (s : Scene)
        → WerePlayedBefore s (length s.session.phases) station end
        → IfOk result (λ played. IsPlayedOn s.port s.session played.0 played.1) }
{
    let Station {
        port,
        putter,
        line,
        steps: _,
    } = station;
    match end {
        PhaseEnd::Over(_) => hang_up(port, putter, line),
        PhaseEnd::Full => Ok(stop(port, putter, line)),
    }
}
