//! The judge of the journals of a session.

ghost use Rattle.std.specs.Prelude.{◌≡◌, ◌<◌, All, IfOk, length};
ghost use Rattle.tty_calls.specs.Sessions.{session_of};
ghost use Rattle.journal_check.specs.WellFormed.{IsWellFormed};
ghost use Rattle.journal_check.specs.Verdicts.{IsCountable, HasNoWrong, VerdictFits};
ghost use Rattle.journal_check.specs.Findings.{Finds, first_found};

use crate::account::is_accounted;
use crate::judging::first_wrong;
use crate::verdicts::Verdict;
use std::alloc::Global;
use tty_base::NoMemory;
use tty_calls::{PortRun, Session};

/// What is found of the run of one port.
#[derive(Clone, Copy)]
pub(crate) enum Finding {
    Legal,
    /// Its first wrong entry.
    Wrong(u32),
    /// No entry is wrong, and it is all the same not legal.
    Account,
}

/// Judges the run of a port.
fn judge_run(
    alloc: Global,
    session: &Session,
    port: usize,
    run: &PortRun,
) -> Result<Finding, NoMemory>
    requires formed { IsWellFormed (session_of session.now) }
    requires few { IsCountable run.now }
    ensures { IfOk result (λ finding. Finds port (session_of session.now) run.now finding) }
{
    match first_wrong(alloc, session, port, &run.journal)? {
        Some(entry) => Ok(Finding::Wrong(entry)),
        None => judge_account(alloc, session, port, run),
    }
}

/// Judges the run of a port of whose journal no entry is wrong.
fn judge_account(
    alloc: Global,
    session: &Session,
    port: usize,
    run: &PortRun,
) -> Result<Finding, NoMemory>
    requires formed { IsWellFormed (session_of session.now) }
    requires no_wrong { HasNoWrong port (session_of session.now) run.now.journal.items }
    ensures { IfOk result (λ finding. Finds port (session_of session.now) run.now finding) }
{
    if is_accounted(alloc, session, port, run)? {
        return Ok(Finding::Legal);
    }
    Ok(Finding::Account)
}

/// Judges the runs of a session, one for each port: whether all are legal, else the first port with a
/// wrong entry and the first of these, else the first port whose run is all the same not legal. Each
/// journal has fewer than 2^31 entries, as each has that a text of fewer bytes spells. The session need not be within
/// the limits of a text. `NoMemory` is also the answer where what it asks for is more than the judge's numbers count:
/// 2^32 characters on a line, or bytes of a call, 2^64 calls of a caller, or more than 255 callers in a phase of a port
/// that has more than 65536.
pub fn check(alloc: Global, session: &Session, runs: &[PortRun]) -> Result<Verdict, NoMemory>
    requires runs { length runs.now ≡ (session_of session.now).ports }
    requires formed { IsWellFormed (session_of session.now) }
    requires few { All IsCountable runs.now }
    ensures { IfOk result (λ verdict. VerdictFits (session_of session.now) runs.now verdict) }
{
    let mut account = None;
    for port in 0..session.ports {
        let place = usize::from(port);
        let run = &runs[place];
        match judge_run(alloc, session, place, run)? {
            Finding::Legal => {}
            Finding::Wrong(entry) => return Ok(Verdict::Wrong { port, entry }),
            Finding::Account => account = first_of(account, port),
        }
    }
    match account {
        None => Ok(Verdict::Legal),
        Some(port) => Ok(Verdict::Account { port }),
    }
}

/// The first port that was found.
fn first_of(found: Option<u8>, port: u8) -> Option<u8>
    ensures { result ≡ first_found found port }
{
    match found {
        None => Some(port),
        found => found,
    }
}
