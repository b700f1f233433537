//! How a session with its report is tried.

use super::texts::written_out;
use super::three_bytes::SESSION;
use super::told::{Told, are_legal, told_of, told_on_threads};
use super::{
    consoles, editing, journals, modems, output, overruns, processes, receiving, switching, waiting,
};
use std::alloc::{AllocError, Global};
use std::process::Abort;
use std::sync::Wait;
use std::thread::Threads;

/// A session and its report. In both `[61*4095]` stands for 4,095 times 61.
#[derive(Clone, Copy)]
pub(crate) struct Row {
    pub(crate) session: &'static str,
    pub(crate) report: &'static str,
}

/// In these sessions each phase has one caller, or a line alone, or a caller that waits for a line that is
/// flushed whole before its phase ends: so no schedule changes an answer.
const ALIKE: [Row; 8] = [
    receiving::READ_A_PHASE_LATER,
    receiving::EMPTY_SESSION,
    overruns::ONE_OVERRUN,
    output::TABS_AND_NEWLINES,
    output::SMALL_CALLS,
    switching::SAME_AND_UNKNOWN_DISCIPLINE,
    waiting::BLOCKING_AND_NOT,
    waiting::NOTHING_COMES,
];

const CARRIER_IS_TAKEN: Row = Row {
    session: "tty-session 1|ports 1|phase|caller carrier 0|end|",
    report: "bad session line 4: word\n",
};

const NO_PROCESS: Row = Row {
    session: "tty-session 1|ports 1|phase|caller a 0|end|",
    report: "bad session line 4: order\n",
};

const NO_CONSOLES: Row = Row {
    session: SESSION,
    report: "bad session line 1: header\n",
};

/// What is told of the session of seven.
const SEVEN: &str = "gen 7
calls 98
arrived 240000
taken 240000
bytes 240000
generations 34
done
";

/// Whether a call of the program ended with this status, and told this.
fn has_ended(alloc: Global, ended: &Told, status: u8, told: &str) -> Result<bool, AllocError> {
    let told = written_out(alloc, told)?;
    Ok(ended.status == status && ended.text == told)
}

/// Whether this is told of a session with these words, with this status.
pub(crate) fn is_told(
    alloc: Global,
    words: &[&str],
    session: &str,
    status: u8,
    told: &str,
) -> Result<bool, AllocError> {
    let ended = told_of(alloc, words, written_out(alloc, session)?)?;
    has_ended(alloc, &ended, status, told)
}

/// Likewise, on threads.
fn is_told_on_threads<R: Threads + Wait + Sync>(
    rt: &R,
    alloc: Global,
    words: &[&str],
    row: &Row,
    status: u8,
) -> Result<bool, AllocError> {
    let ended = told_on_threads(rt, alloc, words, written_out(alloc, row.session)?)?;
    has_ended(alloc, &ended, status, row.report)
}

/// Each session is told by its report with these words, with this status.
fn are_told(rt: &impl Abort, alloc: Global, words: &[&str], rows: &[Row], status: u8) {
    for row in rows {
        let told = is_told(alloc, words, row.session, status, row.report);
        assert!(rt; told == Ok(true), "at {}", row.session);
    }
}

/// Whether the journals of a session that is played on one thread are legal.
fn is_legal(alloc: Global, session: &str) -> Result<bool, AllocError> {
    let words = ["run", "--one", "--journal"];
    let played = told_of(alloc, &words, written_out(alloc, session)?)?;
    are_legal(alloc, session, played.text.as_slice())
}

#[test]
fn sessions_are_told_by_their_reports_and_are_legal(rt: HostRuntime) {
    for rows in [
        receiving::ROWS.as_slice(),
        editing::ROWS.as_slice(),
        output::ROWS.as_slice(),
        overruns::ROWS.as_slice(),
        switching::ROWS.as_slice(),
        waiting::ROWS.as_slice(),
    ] {
        are_told(&rt, rt.alloc(), &["run", "--one"], rows, 0);
        for row in rows {
            let legal = is_legal(rt.alloc(), row.session);
            assert!(rt; legal == Ok(true), "at {}", row.session);
        }
    }
}

/// Whether a session is told with its journals where these words ask for them.
fn is_told_with(
    alloc: Global,
    words: &[&str],
    row: &Row,
    journals: &str,
) -> Result<bool, AllocError> {
    let report = row.report.strip_suffix("done\n").unwrap_or("");
    let told = format!(in alloc; "{report}{journals}")?;
    is_told(alloc, words, row.session, 0, told.as_str())
}

#[test]
fn journals_are_told_where_they_are_asked_for(rt: HostRuntime) {
    for words in [["run", "--one", "--journal"], ["run", "--journal", "--one"]] {
        for (row, journals) in journals::ROWS {
            let told = is_told_with(rt.alloc(), words.as_slice(), &row, journals);
            assert!(rt; told == Ok(true), "at {}", row.session);
        }
    }
}

#[test]
fn further_sessions_are_told_and_others_refused(rt: HostRuntime) {
    for (words, rows, other) in [
        (
            ["vt", "--one"].as_slice(),
            consoles::ROWS.as_slice(),
            NO_CONSOLES,
        ),
        (
            ["modem"].as_slice(),
            modems::ROWS.as_slice(),
            CARRIER_IS_TAKEN,
        ),
        (["jobs"].as_slice(), processes::ROWS.as_slice(), NO_PROCESS),
    ] {
        are_told(&rt, rt.alloc(), words, rows, 0);
        are_told(&rt, rt.alloc(), words, &[other], 1);
    }
}

#[test]
fn the_session_of_seven_is_summed_up(rt: HostRuntime) {
    assert!(rt; is_told(rt.alloc(), &["gen", "7"], "", 0, SEVEN) == Ok(true));
}

#[test]
fn what_no_schedule_changes_is_told_as_on_one_thread(rt: HostRuntime) {
    for row in ALIKE {
        let told = is_told_on_threads(&rt, rt.alloc(), &["run"], &row, 0);
        assert!(rt; told == Ok(true), "at {}", row.session);
    }
    for row in consoles::ROWS {
        let told = is_told_on_threads(&rt, rt.alloc(), &["vt"], &row, 0);
        assert!(rt; told == Ok(true), "at {}", row.session);
    }
    let told = is_told_on_threads(&rt, rt.alloc(), &["vt"], &NO_CONSOLES, 1);
    assert!(rt; told == Ok(true));
}
