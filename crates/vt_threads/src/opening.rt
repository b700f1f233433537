//! A console at the beginning of its session, before its keys have come.

ghost use Rattle.std.specs.Prelude.{◌≡◌, ◌<◌, ◌≤◌, IfOk};
ghost use Rattle.tty_base.specs.Sizes.{MOST_ARRIVALS};
ghost use Rattle.tty_calls.specs.Limits.{IsWithinLimits, character_count};
ghost use Rattle.tty_calls.specs.Sessions.{PlainSession, session_of};
ghost use Rattle.play_base.specs.Roles.{scene_of, names_in};
ghost use Rattle.many_threads.specs.InPlay.{IsBeforePhase};
ghost use Rattle.vt_threads.specs.Openings.{DifferInLines};

use flip_buffer::flip;
use play_base::{Station, counts_of};
use port_core::Port;
use std::alloc::Global;
use tty_base::NoMemory;
use tty_base::sizes::MOST_ENTRIES;
use tty_calls::{Names, Session};
use uart_line::Line;

/// A console at the beginning of its session, on whose line so many characters may arrive. Whatever these are, it
/// stands before the first phase of the session in which they come.
pub fn open_console(
    alloc: Global,
    session: &Session,
    number: usize,
    names: &Names,
    most: u32,
) -> Result<Station, NoMemory>
    requires within { IsWithinLimits (session_of session.now) }
    requires port { number < (session_of session.now).ports }
    requires names { names.now ≡ names_in (scene_of number session.now) }
    requires most { most ≤ MOST_ARRIVALS }
    ensures { (x : PlainSession) → DifferInLines x (session_of session.now) → character_count number x.phases ≤ most
        → IfOk result (λ station. IsBeforePhase (record { port = number; session = x }) 0 station 0) }
{
    let capacity = session.flips.as_slice()[number] as usize;
    let counts = counts_of(alloc, session, number)?;
    let steps = vec![in alloc; 0; names.len()]?;
    let line = Line::new(alloc, most)?;
    let (putter, taker) = flip(alloc, capacity)?;
    Ok(Station {
        port: Port::new(alloc, counts.as_slice(), MOST_ENTRIES, taker)?,
        putter,
        line,
        steps,
    })
}
