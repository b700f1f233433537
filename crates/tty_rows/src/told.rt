//! What is told of a text: a call of the program over memory.

use super::texts::with_journals;
use std::alloc::{AllocError, Global};
use std::sync::Wait;
use std::thread::Threads;
use tty_base::{Bytes, MemSink, MemSource};
use tty_one::tty_one;
use tty_port::{Gate, OpenGate};
use tty_run::tty_run;

/// How many bytes a source or a sink moves at most in one call.
const PIECE: usize = 4_096;

/// How many bytes a sink takes in all: more than any report has.
const ROOM: usize = 65_536;

/// What a call of the program came to: its status, and the text that it gave.
#[derive(Drop)]
pub struct Told {
    pub status: u8,
    pub text: Vec<u8>,
}

/// What is told of a text with these words, without threads.
pub fn told_of(alloc: Global, words: &[&str], text: Vec<u8>) -> Result<Told, AllocError> {
    let mut sink = sink(alloc)?;
    let mut source = source(alloc, text);
    told_through(alloc, words, &mut source, &mut sink)
}

/// With which status a text with these words ends, without threads.
pub fn status_of(alloc: Global, words: &[&str], text: Vec<u8>) -> Result<u8, AllocError> {
    let told = told_of(alloc, words, text)?;
    Ok(told.status)
}

/// Whether the journals in what was told of a session are legal.
pub fn are_legal(alloc: Global, session: &str, told: &[u8]) -> Result<bool, AllocError> {
    let judged = told_of(alloc, &["check"], with_journals(alloc, session, told)?)?;
    Ok(judged.status == 0 && judged.text.as_slice() == b"legal\n".as_slice())
}

/// What is told of a source, through an empty sink.
pub(crate) fn told_through(
    alloc: Global,
    words: &[&str],
    source: &mut MemSource,
    sink: &mut MemSink,
) -> Result<Told, AllocError> {
    let status = tty_one(alloc, words, source, sink).status;
    given(alloc, status, sink)
}

/// What is told of a text with these words, on threads.
pub fn told_on_threads<R: Threads + Wait + Sync>(
    rt: &R,
    alloc: Global,
    words: &[&str],
    text: Vec<u8>,
) -> Result<Told, AllocError> {
    told_behind(rt, alloc, words, text, &OpenGate)
}

/// Likewise, behind a gate.
pub fn told_behind<R: Threads + Wait + Sync, G: Gate + Sync>(
    rt: &R,
    alloc: Global,
    words: &[&str],
    text: Vec<u8>,
    gate: &G,
) -> Result<Told, AllocError> {
    let mut sink = sink(alloc)?;
    let mut source = source(alloc, text);
    let status = tty_run(rt, alloc, words, &mut source, &mut sink, gate).status;
    given(alloc, status, &sink)
}

/// A status, and the text that a sink was given.
fn given(alloc: Global, status: u8, sink: &MemSink) -> Result<Told, AllocError> {
    let text = sink.given().to_vec(alloc)?;
    Ok(Told { status, text })
}

/// A source of this text.
pub fn source(alloc: Global, text: Vec<u8>) -> MemSource {
    MemSource::new(Bytes::from_vec(text), PIECE, Vec::new(alloc))
}

/// An empty sink.
pub fn sink(alloc: Global) -> Result<MemSink, AllocError> {
    match MemSink::new(alloc, PIECE, ROOM, Vec::new(alloc)) {
        Ok(sink) => Ok(sink),
        Err(_) => Err(AllocError),
    }
}
