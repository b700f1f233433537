//! The consoles of a session from their opening to their end.

ghost use Rattle.std.specs.Prelude.{◌≡◌, ◌^◌, ◌<◌, [], IfOk, length, map};
ghost use Rattle.tty_calls.specs.Sessions.{PlainSession};
ghost use Rattle.play_base.specs.Played.{ArePlayed, IsPlayedOn};
ghost use Rattle.play_base.specs.Roles.{Scene};
ghost use Rattle.many_threads.specs.InPlay.{CanEnd, WerePlayedBefore};
ghost use Rattle.vt_text.specs.Sessions.{vt_phase_of, vt_session_of};
ghost use Rattle.vt_account.specs.Keyed.{IsWithinKeys, all_keys};
ghost use Rattle.vt_threads.specs.declared.consoles.Console.{Console};
ghost use Rattle.vt_play.specs.Parts.{AreConsolesBefore, CanEndAll, StandAtEnd};

use many_threads::end_port;
use play_base::Played;
use std::alloc::Global;
use tty_base::{Buffer, NoMemory};
use tty_calls::{PortEnd, PortRun};
use vt_text::{VtPhase, VtSession};
use vt_threads::{Console, open_first};

/// How many keys phases have in all.
fn key_count(phases: &[VtPhase]) -> u32
    requires { length (all_keys (map vt_phase_of phases.now)) < 2 ^ 32 }
    ensures { result ≡ length (all_keys (map vt_phase_of phases.now)) }
{
    let mut count = 0;
    for k in 0..phases.len() {
        count += phases[k].keys.len() as u32;
    }
    count
}

/// All consoles at the beginning of a session.
pub(crate) fn open_all(alloc: Global, session: &VtSession) -> Result<Vec<Console>, NoMemory>
    requires { IsWithinKeys (vt_session_of session.now) }
    ensures before { IfOk result (λ all. AreConsolesBefore (vt_session_of session.now) 0 [] all.items) }
    ensures count { IfOk result (λ all. length all.items ≡ (vt_session_of session.now).calls.ports) }
{
    let keys = key_count(session.phases.as_slice());
    let mut all = Vec::new(alloc);
    for number in 0..usize::from(session.calls.ports) {
        all.push(open_first(alloc, session, number, keys)?)?;
    }
    Ok(all)
}

/// Ends a console: it is hung up, unless its journal is full.
fn end_console(console: Console) -> Result<(PortRun, PortEnd), NoMemory>
    requires { CanEnd console.station console.end }
    ensures { (s : Scene)
        → WerePlayedBefore s (length s.session.phases) console.station console.end
        → IfOk result (λ played. IsPlayedOn s.port s.session played.0 played.1) }
{
    let Console {
        names: _,
        callers: _,
        station,
        end,
    } = console;
    end_port(station, end)
}

/// Ends all consoles.
pub(crate) fn end_all(alloc: Global, consoles: Vec<Console>) -> Result<Played, NoMemory>
    requires { CanEndAll consoles.items }
    ensures { (x : PlainSession)
        → length consoles.items ≡ x.ports
        → StandAtEnd x consoles.items
        → IfOk result (λ played. ArePlayed x played.runs.items played.ends.items) }
{
    let count = consoles.len();
    let mut runs = Buffer::new(alloc);
    runs.reserve(count)?;
    let mut ends = Buffer::new(alloc);
    ends.reserve(count)?;
    for console in consoles {
        let (run, port_end) = end_console(console)?;
        runs.add(run);
        ends.add(port_end);
    }
    Ok(Played { runs, ends })
}
