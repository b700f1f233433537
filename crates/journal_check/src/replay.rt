//! A journal replayed, entry by entry.

ghost use Rattle.std.specs.Prelude.{◌≡◌, List, ◌∷◌, [], ◌++◌, ◌+◌, ◌<◌, ◌≤◌};
ghost use Rattle.std.specs.Prelude.{true, false, MatchBool, IfOk, OnOk, length};
ghost use Rattle.tty_base.specs.Sizes.{NUMBER_END};
ghost use Rattle.tty_calls.specs.Plain.{PlainEntry, entry_of, event_of};
ghost use Rattle.tty_calls.specs.Sessions.{session_of, scripts_over, names_of};
ghost use Rattle.legal_runs.specs.Legal.{is_phase_end};
ghost use Rattle.journal_check.specs.Verdicts.{IsFine};
ghost use Rattle.journal_check.specs.Scripts.{AreTurns, AreIdle};
ghost use Rattle.journal_check.specs.Replaying.{CanBeJudged, Follows, latest_after};

use crate::entries::{Table, stays, try_entry};
use crate::turns::{Turn, is_in_phase, open_phase};
use std::alloc::Global;
use tty_base::NoMemory;
use tty_calls::{Entry, Event, Names, Session};
use tty_terminal::Terminal;

/// The one-thread terminal to which the entries so far have led, and what is kept of them beside it.
#[derive(Drop)]
pub(crate) struct Replay {
    pub(crate) terminal: Terminal,
    /// Each caller's turn.
    pub(crate) turns: Vec<Turn>,
    pub(crate) names: Names,
    /// How many callers each phase has.
    pub(crate) counts: Vec<usize>,
    /// The generation of the latest flush run.
    pub(crate) latest: u32,
}

/// In a new phase the callers that have scripts there have their turns.
pub(crate) fn begin_phase(
    turns: &mut [Turn],
    names: &Names,
    session: &Session,
    port: usize,
    phase: u32,
) -> Result<(), NoMemory>
    requires names { names.now ≡ names_of (scripts_over port (session_of session.now).phases) }
    requires small { phase ≤ NUMBER_END }
    requires idle { AreIdle port (session_of session.now) phase turns.old }
    ensures turns { OnOk result (AreTurns port (session_of session.now) phase turns.new) }
    ensures many { OnOk result (length turns.new ≡ length turns.old) }
{
    if (phase as usize) < session.phases.len() {
        open_phase(turns, names, session, port, phase)?;
    }
    Ok(())
}

/// What an entry leaves beside the terminal.
fn note(replay: &mut Replay, session: &Session, port: usize, entry: &Entry) -> Result<(), NoMemory>
    requires names { replay.old.names ≡ names_of (scripts_over port (session_of session.now).phases) }
    requires small { replay.old.terminal.terminal.phase ≤ NUMBER_END }
    requires idle { is_phase_end (event_of entry.now.event) ≡ true
        → AreIdle port (session_of session.now) replay.old.terminal.terminal.phase replay.old.turns.items }
    ensures same { OnOk result (replay.new
        ≡ record replay.old {
          turns = replay.new.turns;
          latest = latest_after (event_of entry.now.event) entry.now.generation replay.old.latest;
        }) }
    ensures begins { OnOk result (is_phase_end (event_of entry.now.event) ≡ true
        → AreTurns port (session_of session.now) replay.old.terminal.terminal.phase replay.new.turns.items) }
    ensures stays { OnOk result
        (is_phase_end (event_of entry.now.event) ≡ false → replay.new.turns.items ≡ replay.old.turns.items) }
    ensures many { OnOk result (length replay.new.turns.items ≡ length replay.old.turns.items) }
{
    match entry.event {
        Event::Flush(_) => {
            replay.latest = entry.generation;
            Ok(())
        }
        Event::PhaseEnd => begin_phase(
            replay.turns.as_mut_slice(),
            &replay.names,
            session,
            port,
            replay.terminal.phase(),
        ),
        _ => Ok(()),
    }
}

/// Whether an entry is fine after those that led here. Where it is, the replay has gone on by it.
pub(crate) fn judge(
    alloc: Global,
    replay: &mut Replay,
    session: &Session,
    port: usize,
    entry: &Entry,
) -> Result<bool, NoMemory>
    requires { CanBeJudged port (session_of session.now) replay.old }
    ensures { IfOk result (λ fine.
        (before : List PlainEntry)
        → Follows port (session_of session.now) before replay.old
        → MatchBool fine
        (IsFine port (session_of session.now) before replay.old.terminal.terminal (entry_of entry.now)
        × Follows port (session_of session.now) (before ++ entry_of entry.now ∷ []) replay.new)
        (IsFine port (session_of session.now) before replay.old.terminal.terminal (entry_of entry.now) → ⊥)) }
{
    if entry.generation != replay.terminal.generation() {
        return Ok(false);
    }
    if !is_in_phase(replay.turns.as_slice(), replay.terminal.phase(), entry) {
        return Ok(false);
    }
    if !stays(&replay.terminal, replay.turns.len(), replay.latest, entry) {
        return Ok(false);
    }
    let (turns, counts) = (replay.turns.as_slice(), replay.counts.as_slice());
    let table = Table {
        turns,
        names: &replay.names,
        counts,
    };
    if !try_entry(alloc, &mut replay.terminal, &table, session, port, entry)? {
        return Ok(false);
    }
    note(replay, session, port, entry)?;
    Ok(true)
}
