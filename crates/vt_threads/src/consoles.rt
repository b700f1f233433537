//! A console between two phases, from its opening on.

ghost use Rattle.std.specs.Prelude.{◌≡◌, ◌<◌, [], IfOk, length};
ghost use Rattle.vt_text.specs.Sessions.{vt_session_of};
ghost use Rattle.vt_account.specs.Keyed.{IsWithinKeys, all_keys};
ghost use Rattle.vt_threads.specs.Between.{IsConsoleBefore};

use crate::opening::open_console;
use many_threads::{PhaseEnd, caller_count};
use play_base::{Station, counts_of};
use std::alloc::Global;
use tty_base::NoMemory;
use tty_calls::Names;
use vt_text::VtSession;

/// A console that is played: the names of its callers, and how many callers its phases have; its port with its line and
/// their next steps; and what its latest phase came to.
#[derive(Drop)]
pub struct Console {
    pub names: Names,
    pub callers: usize,
    pub station: Station,
    pub end: PhaseEnd,
}

/// A console at the beginning of its session, in which so many keys come in all.
pub fn open_first(
    alloc: Global,
    session: &VtSession,
    number: usize,
    keys: u32,
) -> Result<Console, NoMemory>
    requires within { IsWithinKeys (vt_session_of session.now) }
    requires port { number < (vt_session_of session.now).calls.ports }
    requires keys { keys ≡ length (all_keys (vt_session_of session.now).phases) }
    ensures { IfOk result (IsConsoleBefore (vt_session_of session.now) number 0 []) }
{
    let calls = &session.calls;
    let counts = counts_of(alloc, calls, number)?;
    let callers = caller_count(counts.as_slice());
    let names = Names::on_port(alloc, calls, number)?;
    let station = open_console(alloc, calls, number, &names, keys)?;
    Ok(Console {
        names,
        callers,
        station,
        end: PhaseEnd::Over(0),
    })
}
