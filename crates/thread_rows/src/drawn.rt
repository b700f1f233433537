//! Sessions that are drawn from a number, played on one thread and on many.

use super::plays::{is_legally_played, played};
use drawn_sessions::drawn_session;
use std::alloc::{AllocError, Global};
use std::sync::Wait;
use std::thread::Threads;

/// How many sessions are played. `tools/drawn_sessions` plays more.
const SESSIONS: u32 = 20;

const ONE: &[&str] = &["run", "--one", "--journal"];

const MANY: &[&str] = &["run", "--journal"];

/// Whether a session is told the same at a second play on one thread.
fn is_told_alike<R: Threads + Wait + Sync>(
    rt: &R,
    alloc: Global,
    session: &str,
) -> Result<bool, AllocError> {
    let first = played(rt, alloc, ONE, session)?;
    let second = played(rt, alloc, ONE, session)?;
    Ok(first.status == 0 && first.text == second.text)
}

/// Whether the session of a number is told alike, and its journals are legal on one thread and on many.
fn is_well_played<R: Threads + Wait + Sync>(
    rt: &R,
    alloc: Global,
    number: u32,
) -> Result<bool, AllocError> {
    let session = drawn_session(alloc, number)?;
    let session = session.as_str();
    let alike = is_told_alike(rt, alloc, session) == Ok(true);
    let one = is_legally_played(rt, alloc, ONE, session) == Ok(true);
    Ok(alike && one && is_legally_played(rt, alloc, MANY, session) == Ok(true))
}

#[test]
fn drawn_sessions_are_well_played(rt: HostRuntime) {
    for number in 0..SESSIONS {
        let well = is_well_played(&rt, rt.alloc(), number);
        assert!(rt; well == Ok(true), "of {number}");
    }
}
