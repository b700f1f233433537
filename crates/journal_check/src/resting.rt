//! How many callers rest, where a phase may have more of them than the terminal's own questions take.

ghost use Rattle.std.specs.Prelude.{◌≡◌, ◌≤◌, ◌<◌, IfOk, length, count_by};
ghost use Rattle.tty_base.specs.Sizes.{MOST_NUMBERED};
ghost use Rattle.tty_terminal.specs.Terminals.{caller_at, is_over, is_resting};
ghost use Rattle.tty_terminal.specs.Steps.{quiet_with, may_end_with};

use tty_base::NoMemory;
use tty_base::sizes::MOST_NUMBERED;
use tty_terminal::Terminal;

/// The most callers of a phase of which the terminal itself says whether they rest.
const MOST_WATCHED: usize = 255;

fn rests(terminal: &Terminal, caller: u16) -> bool
    requires { caller < length terminal.now.terminal.callers }
    ensures { result ≡ is_resting (caller_at terminal.now.terminal caller) }
{
    let state = terminal.caller(caller);
    state.over || state.waits.is_some()
}

/// How many of so many callers are over, or wait.
fn resting_of(terminal: &Terminal, known: usize) -> usize
    requires known { known ≡ length terminal.now.terminal.callers }
    requires few { known ≤ MOST_NUMBERED }
    ensures { result ≡ count_by is_resting terminal.now.terminal.callers }
{
    let mut count = 0;
    for caller in 0..known {
        if rests(terminal, caller as u16) {
            count += 1;
        }
    }
    count
}

/// How many of so many callers are over.
fn over_of(terminal: &Terminal, known: usize) -> usize
    requires known { known ≡ length terminal.now.terminal.callers }
    requires few { known ≤ MOST_NUMBERED }
    ensures { result ≡ count_by is_over terminal.now.terminal.callers }
{
    let mut count = 0;
    for caller in 0..known {
        if terminal.caller(caller as u16).over {
            count += 1;
        }
    }
    count
}

/// Whether nothing can happen any more but that waiting calls are told so, where the phase has so many callers of so
/// many. Where neither the terminal counts them nor a number each, that is want of memory.
pub(crate) fn is_quiet(terminal: &Terminal, known: usize, callers: usize) -> Result<bool, NoMemory>
    requires { known ≡ length terminal.now.terminal.callers }
    ensures { IfOk result (λ quiet. quiet ≡ quiet_with callers terminal.now.terminal) }
{
    if callers <= MOST_WATCHED {
        return Ok(terminal.is_quiet(callers as u8));
    }
    if known > MOST_NUMBERED {
        return Err(NoMemory);
    }
    Ok(terminal.is_quiet(0) && callers <= resting_of(terminal, known))
}

/// Likewise whether the phase may end.
pub(crate) fn may_end(terminal: &Terminal, known: usize, callers: usize) -> Result<bool, NoMemory>
    requires { known ≡ length terminal.now.terminal.callers }
    ensures { IfOk result (λ may. may ≡ may_end_with callers terminal.now.terminal) }
{
    if callers <= MOST_WATCHED {
        return Ok(terminal.may_end(callers as u8));
    }
    if known > MOST_NUMBERED {
        return Err(NoMemory);
    }
    Ok(terminal.may_end(0) && callers <= over_of(terminal, known))
}
