//! Words, texts, sources and sinks that end a call of the program early.

use super::rows::is_told;
use super::three_bytes::{REPORT, SESSION};
use super::told::{Told, told_of, told_through};
use std::alloc::{AllocError, Global};
use tty_base::{Bytes, MemSink, MemSource};

const ONE: [&str; 2] = ["run", "--one"];

/// How many bytes a source or a sink moves at most in one call.
const PIECE: usize = 8;

/// How often a source of the 130 bytes of the session is read: 17 times for its bytes, and once for its end.
const READS: u32 = 18;

/// How often a sink is given a piece of the 284 bytes of the report.
const WRITES: u32 = 36;

/// How many bytes a sink takes in all: more than any text here has.
const ROOM: usize = 65_536;

/// The longest text that is read.
const LONGEST: usize = 4_194_304;

/// Words that are none of the program's.
const OTHERS: [&[&str]; 11] = [
    &[],
    &["run", "--two"],
    &["vt"],
    &["jobs", "--one"],
    &["modem", "--one"],
    &["run", "--one", "--one"],
    &["run", "--journal", "--journal"],
    &["gen"],
    &["gen", "07"],
    &["gen", "-1"],
    &["gen", "4294967296"],
];

#[test]
fn other_words_are_bad(rt: HostRuntime) {
    for words in OTHERS {
        let told = is_told(rt.alloc(), words, SESSION, 2, "bad words\n");
        assert!(rt; told == Ok(true), "{words:?}");
    }
}

/// Whether a comment of so many bytes ends so.
fn is_told_of_comment(
    alloc: Global,
    length: usize,
    status: u8,
    told: &str,
) -> Result<bool, AllocError> {
    let ended = told_of(alloc, &ONE, vec![in alloc; b'#'; length]?)?;
    Ok(ended.status == status && ended.text.as_slice() == told.as_bytes())
}

#[test]
fn one_byte_more_than_the_longest_text_is_too_long(rt: HostRuntime) {
    let longest = is_told_of_comment(rt.alloc(), LONGEST, 1, "bad session line 2: order\n");
    let longer = is_told_of_comment(rt.alloc(), LONGEST + 1, 6, "session too long\n");
    assert!(rt; longest == Ok(true) && longer == Ok(true));
}

/// The session, of which these reads fail.
fn source_of(alloc: Global, reads: Vec<u32>) -> Result<MemSource, AllocError> {
    let text = SESSION.as_bytes().to_vec(alloc)?;
    Ok(MemSource::new(Bytes::from_vec(text), PIECE, reads))
}

/// A sink that has room for so many bytes, of which these writes fail.
fn sink_of(alloc: Global, writes: Vec<u32>, room: usize) -> Result<MemSink, AllocError> {
    match MemSink::new(alloc, PIECE, room, writes) {
        Ok(sink) => Ok(sink),
        Err(_) => Err(AllocError),
    }
}

/// What is told of three bytes where these reads and writes fail, and the sink has room for so many bytes.
fn told_with(
    alloc: Global,
    reads: Vec<u32>,
    writes: Vec<u32>,
    room: usize,
) -> Result<Told, AllocError> {
    let mut source = source_of(alloc, reads)?;
    let mut sink = sink_of(alloc, writes, room)?;
    told_through(alloc, &ONE, &mut source, &mut sink)
}

/// Whether a source that fails at a read is told so. The last of these reads is not made.
fn is_read_fault(alloc: Global, read: u32) -> Result<bool, AllocError> {
    let told = told_with(alloc, vec![in alloc; read]?, Vec::new(alloc), ROOM)?;
    let text = told.text.as_slice();
    let is_fault = told.status == 3 && text == b"read fault\n".as_slice();
    let is_whole = told.status == 0 && text == REPORT.as_bytes();
    Ok(if read < READS { is_fault } else { is_whole })
}

#[test]
fn a_source_that_fails_is_told_at_each_read(rt: HostRuntime) {
    for read in 0..=READS {
        assert!(rt;
            is_read_fault(rt.alloc(), read) == Ok(true),
            "at read {read}"
        );
    }
}

/// Whether a write fault is told, and so many bytes of the report were given.
fn has_front(told: &Told, length: usize) -> bool {
    told.status == 4 && REPORT.as_bytes().get(..length) == Some(told.text.as_slice())
}

/// Whether a sink that fails at a write has the front of the report.
fn has_front_at(alloc: Global, write: u32) -> Result<bool, AllocError> {
    let told = told_with(alloc, Vec::new(alloc), vec![in alloc; write]?, ROOM)?;
    Ok(has_front(&told, (write as usize).saturating_mul(PIECE)))
}

/// Whether a sink that has room for so many bytes has the front of the report.
fn has_front_of(alloc: Global, room: usize) -> Result<bool, AllocError> {
    let told = told_with(alloc, Vec::new(alloc), Vec::new(alloc), room)?;
    Ok(has_front(&told, room))
}

#[test]
fn a_sink_that_fails_has_the_front_of_the_report(rt: HostRuntime) {
    for write in 0..WRITES {
        assert!(rt;
            has_front_at(rt.alloc(), write) == Ok(true),
            "at write {write}"
        );
    }
    for room in 0..REPORT.len() {
        assert!(rt;
            has_front_of(rt.alloc(), room) == Ok(true),
            "with room for {room}"
        );
    }
}
