//! The account of a port: what its journal and its line report owe beside entries that are fine.

ghost use Rattle.std.specs.Prelude.{◌≡◌, ◌↔◌, ◌<◌, IsTrue, IfOk};
ghost use Rattle.tty_calls.specs.Sessions.{session_of};
ghost use Rattle.uart_line.specs.Offered.{AreShown};
ghost use Rattle.journal_check.specs.WellFormed.{IsWellFormed};
ghost use Rattle.legal_runs.specs.Legal.{flip_on, AreSeen, IsAccounted};
ghost use Rattle.journal_check.specs.Verdicts.{HasNoWrong};
ghost use Rattle.journal_check.specs.Receipts.{IsReceived};
ghost use Rattle.journal_check.specs.Findings.{IsAccountKept};

use crate::characters::are_chars_of;
use crate::finishing::goes_well;
use crate::lines::{Received, received_on};
use crate::overruns::are_shown;
use crate::seen::{are_between, taken_by};
use std::alloc::Global;
use tty_base::NoMemory;
use tty_calls::{PortRun, Session};

/// The capacity of a port's flip buffer.
pub(crate) fn capacity_of(session: &Session, port: usize) -> u32
    ensures { result ≡ flip_on port (session_of session.now) }
{
    match session.flips.as_slice().get(port) {
        Some(capacity) => *capacity,
        None => 0,
    }
}

/// Whether a journal is finished, its characters are those that its line received without the
/// overruns, and the line's report has the numbers of its steps.
fn is_kept(session: &Session, port: usize, run: &PortRun, received: &Received) -> bool
    requires received { IsReceived port (session_of session.now) run.now.line.overruns.items received.now }
    requires shown { AreShown (flip_on port (session_of session.now)) 0 0 run.now.line.overruns.items }
    requires no_wrong { HasNoWrong port (session_of session.now) run.now.journal.items }
    ensures { IsTrue result ↔ IsAccountKept port (session_of session.now) run.now }
{
    if run.line.arrived != received.arrived {
        return false;
    }
    if run.line.fifo_lost != received.fifo_lost {
        return false;
    }
    if run.line.sent != received.kept.len() as u64 {
        return false;
    }
    if !are_chars_of(&run.journal, received.kept.as_slice()) {
        return false;
    }
    goes_well(session, port, received.sents.as_slice(), &run.journal)
}

/// Whether each overrun has seen taken what was taken before its phase, and nothing after the end of
/// its line.
fn is_seen(
    alloc: Global,
    session: &Session,
    port: usize,
    run: &PortRun,
    received: &Received,
) -> Result<bool, NoMemory>
    requires received { IsReceived port (session_of session.now) run.now.line.overruns.items received.now }
    requires shown { AreShown (flip_on port (session_of session.now)) 0 0 run.now.line.overruns.items }
    requires kept { IsAccountKept port (session_of session.now) run.now }
    ensures { IfOk result (λ seen.
        IsTrue seen ↔ AreSeen port (session_of session.now) run.now.journal.items run.now.line.overruns.items) }
{
    let _ = session; // for the contract alone
    let _ = port; // for the contract alone
    let _ = received.kept.len();
    let taken = taken_by(alloc, &run.journal)?;
    Ok(are_between(
        received.ends.as_slice(),
        taken.starts.as_slice(),
        taken.stops.as_slice(),
        run.line.overruns.as_slice(),
    ))
}

/// Whether the account of a port is right, where no entry of its journal is wrong.
pub(crate) fn is_accounted(
    alloc: Global,
    session: &Session,
    port: usize,
    run: &PortRun,
) -> Result<bool, NoMemory>
    requires formed { IsWellFormed (session_of session.now) }
    requires no_wrong { HasNoWrong port (session_of session.now) run.now.journal.items }
    ensures { IfOk result (λ right. IsTrue right ↔ IsAccounted port (session_of session.now) run.now) }
{
    let overruns = run.line.overruns.as_slice();
    if !are_shown(capacity_of(session, port), overruns) {
        return Ok(false); // an overrun where the buffer was not full
    }
    let received = received_on(alloc, session, port, overruns)?;
    if !is_kept(session, port, run, &received) {
        return Ok(false);
    }
    is_seen(alloc, session, port, run, &received)
}
