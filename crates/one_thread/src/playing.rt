//! A session played on one thread, and what became of its ports.

ghost use Rattle.std.specs.Prelude.{IfOk};
ghost use Rattle.tty_calls.specs.Limits.{IsWithinLimits};
ghost use Rattle.tty_calls.specs.Sessions.{session_of};
ghost use Rattle.play_base.specs.Played.{ArePlayed, AreInOneOrder};

use crate::ports::play_port;
use play_base::Played;
use std::alloc::Global;
use tty_base::{Buffer, NoMemory};
use tty_calls::Session;

/// Plays a session on one thread, its ports one after the other. A port whose journal is full is played
/// no further.
pub fn play(alloc: Global, session: &Session) -> Result<Played, NoMemory>
    requires { IsWithinLimits (session_of session.now) }
    ensures played { IfOk result (λ played. ArePlayed (session_of session.now) played.runs.items played.ends.items) }
    ensures in_order { IfOk result (λ played. AreInOneOrder (session_of session.now) played.runs.items) }
{
    let ports = usize::from(session.ports);
    let mut runs = Buffer::new(alloc);
    runs.reserve(ports)?;
    let mut ends = Buffer::new(alloc);
    ends.reserve(ports)?;
    for number in 0..ports {
        let (run, end) = play_port(alloc, session, number)?;
        runs.add(run);
        ends.add(end);
    }
    Ok(Played { runs, ends })
}
