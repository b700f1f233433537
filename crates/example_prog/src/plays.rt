//! What becomes of an example.

use crate::files::Example;
use std::alloc::{AllocError, Global};
use std::sync::Wait;
use std::thread::Threads;
use tty_rows::{are_legal, told_of, told_on_threads};

/// The examples whose report no schedule can change. In each of their phases there is one caller, or a line
/// alone, or a caller who waits for the line.
const ALIKE: [&str; 5] = ["login", "mode_words", "output", "overruns", "unread_line"];

/// The examples that are sessions of consoles, of ports with modem lines, and of processes. No schedule can change the
/// report of the first.
const CONSOLES: [&str; 1] = ["two_consoles"];

const MODEM_LINES: [&str; 1] = ["dial_in"];

const PROCESSES: [&str; 1] = ["shell_jobs"];

/// What is wrong with an example; nothing, where it is told as its files say, and its journals are legal.
pub(crate) fn fault_of<R: Threads + Wait + Sync>(
    rt: &R,
    alloc: Global,
    example: &Example,
) -> Result<Option<&'static str>, AllocError> {
    let name = example.name.as_str();
    if CONSOLES.contains(&name) {
        return fault_of_consoles(rt, alloc, example);
    }
    if MODEM_LINES.contains(&name) {
        return fault_alone(alloc, &["modem"], example);
    }
    if PROCESSES.contains(&name) {
        return fault_alone(alloc, &["jobs"], example);
    }
    fault_of_ports(rt, alloc, example)
}

/// Likewise, of an example that is a session of ports alone.
fn fault_of_ports<R: Threads + Wait + Sync>(
    rt: &R,
    alloc: Global,
    example: &Example,
) -> Result<Option<&'static str>, AllocError> {
    let report = example.report.as_slice();
    let session = example.session.as_str();
    let told = told_of(alloc, &["run", "--one"], text_of(alloc, example)?)?;
    if told.text.as_slice() != report {
        return Ok(Some("another report"));
    }
    let is_alike = ALIKE.contains(&example.name.as_str());
    let told = told_on_threads(rt, alloc, &["run"], text_of(alloc, example)?)?;
    if is_alike && told.text.as_slice() != report {
        return Ok(Some("another report on threads"));
    }
    let words = ["run", "--one", "--journal"];
    let told = told_of(alloc, &words, text_of(alloc, example)?)?;
    if let Some(journal) = &example.journal {
        if told.text.as_slice() != journal.as_slice() {
            return Ok(Some("another journal"));
        }
    }
    if !are_legal(alloc, session, told.text.as_slice())? {
        return Ok(Some("not legal on one thread"));
    }
    let told = told_on_threads(rt, alloc, &["run", "--journal"], text_of(alloc, example)?)?;
    if !are_legal(alloc, session, told.text.as_slice())? {
        return Ok(Some("not legal on threads"));
    }
    Ok(None)
}

/// What is wrong with an example of consoles: nothing, where it is told as its file says, on one thread and on threads.
fn fault_of_consoles<R: Threads + Wait + Sync>(
    rt: &R,
    alloc: Global,
    example: &Example,
) -> Result<Option<&'static str>, AllocError> {
    let told = told_on_threads(rt, alloc, &["vt"], text_of(alloc, example)?)?;
    if told.text.as_slice() != example.report.as_slice() {
        return Ok(Some("another report on threads"));
    }
    fault_alone(alloc, &["vt", "--one"], example)
}

/// What is wrong with an example that these words alone play: nothing, where it is told as its file says.
fn fault_alone(
    alloc: Global,
    words: &[&str],
    example: &Example,
) -> Result<Option<&'static str>, AllocError> {
    let told = told_of(alloc, words, text_of(alloc, example)?)?;
    if told.text.as_slice() != example.report.as_slice() {
        return Ok(Some("another report"));
    }
    Ok(None)
}

fn text_of(alloc: Global, example: &Example) -> Result<Vec<u8>, AllocError> {
    example.session.as_bytes().to_vec(alloc)
}
