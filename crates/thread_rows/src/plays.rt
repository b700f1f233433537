//! How a session is played on threads.

use std::alloc::{AllocError, Global};
use std::str;
use std::sync::Wait;
use std::thread::Threads;
use tty_port::Gate;
use tty_rows::{Told, told_behind, told_on_threads, with_journals, written_out};

const MANY: &[&str] = &["run", "--journal"];

/// What is told of a session that is played behind a gate, with its journals.
pub(crate) fn played_behind<R: Threads + Wait + Sync, G: Gate + Sync>(
    rt: &R,
    alloc: Global,
    session: &str,
    gate: &G,
) -> Result<Told, AllocError> {
    told_behind(rt, alloc, MANY, written_out(alloc, session)?, gate)
}

/// What is told of a session that is played with these words.
pub(crate) fn played<R: Threads + Wait + Sync>(
    rt: &R,
    alloc: Global,
    words: &[&str],
    session: &str,
) -> Result<Told, AllocError> {
    told_on_threads(rt, alloc, words, written_out(alloc, session)?)
}

/// Whether a session was played, and the journals in what was told of it are legal.
pub(crate) fn is_legal<R: Threads + Wait + Sync>(
    rt: &R,
    alloc: Global,
    session: &str,
    told: &Told,
) -> Result<bool, AllocError> {
    let text = with_journals(alloc, session, told.text.as_slice())?;
    let judged = told_on_threads(rt, alloc, &["check"], text)?;
    Ok(told.status == 0 && judged.status == 0 && judged.text.as_slice() == b"legal\n".as_slice())
}

/// Whether the journals of a session that is played with these words are legal.
pub(crate) fn is_legally_played<R: Threads + Wait + Sync>(
    rt: &R,
    alloc: Global,
    words: &[&str],
    session: &str,
) -> Result<bool, AllocError> {
    let told = played(rt, alloc, words, session)?;
    is_legal(rt, alloc, session, &told)
}

/// Whether all these pieces stand in a text, each behind those before it.
pub(crate) fn are_in_order(text: &[u8], pieces: &[&str]) -> bool {
    let Ok(mut rest) = str::from_utf8(text) else {
        return false;
    };
    for piece in pieces {
        match rest.split_once(*piece) {
            Some((_, behind)) => rest = behind,
            None => return false,
        }
    }
    true
}
