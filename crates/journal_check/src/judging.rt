//! The judge of one port's journal.

ghost use Rattle.std.specs.Prelude.{◌≡◌, ◌==◌, [], ◌<◌, MatchOption, IfOk, length, map, filter, sum};
ghost use Rattle.tty_base.specs.Sizes.{NUMBER_END};
ghost use Rattle.tty_calls.specs.Sessions.{script_of, session_of, scripts_over, names_of, counts_on};
ghost use Rattle.journal_check.specs.WellFormed.{IsWellFormed};
ghost use Rattle.journal_check.specs.Verdicts.{HasNoWrong, IsFirstWrong};
ghost use Rattle.journal_check.specs.Scripts.{AreTurns};
ghost use Rattle.journal_check.specs.Replaying.{Follows};

use crate::account::capacity_of;
use crate::replay::{Replay, begin_phase, judge};
use crate::turns::{NO_TURN, Turn, sum_of};
use std::alloc::Global;
use tty_base::NoMemory;
use tty_calls::{Journal, Names, Script, Session};
use tty_terminal::Terminal;

/// How many of these scripts are of a port.
fn count_of(scripts: &[Script], port: usize) -> usize
    ensures { result ≡ length (filter (λ s. s.port == port) (map script_of scripts.now)) }
{
    let mut count = 0;
    for script in scripts {
        if usize::from(script.port) == port {
            count += 1;
        }
    }
    count
}

/// How many callers a port has in each phase.
fn counts_in(alloc: Global, session: &Session, port: usize) -> Result<Vec<usize>, NoMemory>
    ensures { IfOk result (λ counts. counts.items ≡ counts_on port (session_of session.now)) }
{
    let mut counts = Vec::new(alloc);
    for phase in session.phases.as_slice() {
        counts.push(count_of(phase.callers.as_slice(), port))?;
    }
    Ok(counts)
}

/// The sum of these numbers.
fn total(counts: &[usize]) -> Result<usize, NoMemory>
    ensures { IfOk result (λ all. all ≡ sum counts.now) }
{
    let mut all = 0;
    for count in counts {
        all = sum_of(all, *count)?;
    }
    Ok(all)
}

/// Each caller's turn in the first phase.
fn first_turns(
    alloc: Global,
    names: &Names,
    session: &Session,
    port: usize,
    callers: usize,
) -> Result<Vec<Turn>, NoMemory>
    requires names { names.now ≡ names_of (scripts_over port (session_of session.now).phases) }
    requires callers { callers ≡ sum (counts_on port (session_of session.now)) }
    ensures turns { IfOk result (λ turns. AreTurns port (session_of session.now) 0 turns.items) }
    ensures many { IfOk result (λ turns. length turns.items ≡ callers) }
{
    let mut turns = vec![in alloc; NO_TURN; callers]?;
    begin_phase(turns.as_mut_slice(), names, session, port, 0)?;
    Ok(turns)
}

/// The replay of a port of a session, before its first entry.
fn begin(alloc: Global, session: &Session, port: usize) -> Result<Replay, NoMemory>
    ensures { IfOk result (λ replay. Follows port (session_of session.now) [] replay) }
{
    let names = Names::on_port(alloc, session, port)?;
    let counts = counts_in(alloc, session, port)?;
    let callers = total(counts.as_slice())?;
    let turns = first_turns(alloc, &names, session, port, callers)?;
    let capacity = capacity_of(session, port);
    Ok(Replay {
        terminal: Terminal::new(alloc, callers, capacity)?,
        turns,
        names,
        counts,
        latest: 0,
    })
}

/// The place of the first of these entries that is wrong, counted from 0, where none came before.
fn first_wrong_of(
    alloc: Global,
    replay: &mut Replay,
    session: &Session,
    port: usize,
    journal: &Journal,
) -> Result<Option<u32>, NoMemory>
    requires formed { IsWellFormed (session_of session.now) }
    requires few { length journal.now.items < NUMBER_END }
    requires first { Follows port (session_of session.now) [] replay.old }
    ensures { IfOk result (λ found. MatchOption found (HasNoWrong port (session_of session.now) journal.now.items)
        (λ place. IsFirstWrong port (session_of session.now) journal.now.items place)) }
{
    for place in 0..journal.len() {
        let entry = journal.at(place);
        if !judge(alloc, replay, session, port, &entry)? {
            return Ok(Some(place as u32));
        }
    }
    Ok(None)
}

/// The place of the first wrong entry of a journal, counted from 0.
pub(crate) fn first_wrong(
    alloc: Global,
    session: &Session,
    port: usize,
    journal: &Journal,
) -> Result<Option<u32>, NoMemory>
    requires formed { IsWellFormed (session_of session.now) }
    requires few { length journal.now.items < NUMBER_END }
    ensures { IfOk result (λ found. MatchOption found (HasNoWrong port (session_of session.now) journal.now.items)
        (λ place. IsFirstWrong port (session_of session.now) journal.now.items place)) }
{
    let mut replay = begin(alloc, session, port)?;
    first_wrong_of(alloc, &mut replay, session, port, journal)
}
