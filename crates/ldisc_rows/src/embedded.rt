//! A terminal that a program embeds: editing and echo, MIN and TIME, signals, and output that is held and taken in
//! pieces.

use std::alloc::Global;
use tty_base::{Flag, NoMemory, Signal};
use tty_embed::Tty;

/// What is done to a terminal, and what is to come of it.
#[derive(Clone, Copy)]
enum Step {
    /// These characters come one by one, and each is accepted.
    Types(&'static [u8]),
    /// Of these characters, which come in one call, so many are accepted.
    Receives(&'static [u8], usize),
    /// A read that began to wait at tick 0 gives these bytes.
    Reads(&'static [u8]),
    /// Such a read has to wait.
    Waits,
    /// So many bytes are unread.
    Keeps(usize),
    /// Of these bytes so many are written.
    Writes(&'static [u8], usize),
    /// These bytes went out, as far as a place of 8 bytes holds them.
    Sends(&'static [u8]),
    /// Whether this word sets a mode.
    Sets(&'static [u8], bool),
    /// The clock is set.
    Ticks(u64),
    /// This is the first signal that was raised.
    Raises(Option<Signal>),
}

/// A line is edited, with its echo, and read once it is complete.
const EDITED: &[Step] = &[
    Step::Types(b"ab\x7fc"),
    Step::Waits,
    Step::Keeps(2),
    Step::Types(b"\r"),
    Step::Reads(b"ac\n"),
    Step::Keeps(0),
    Step::Sends(b"ab\x08 \x08c\r\n"),
    Step::Sends(b""),
];

/// A line that comes in one call is edited, with its echo, as one that comes by single characters; raw bytes are kept
/// as they are.
const IN_ONE_CALL: &[Step] = &[
    Step::Receives(b"ab\x7fc\r", 5),
    Step::Reads(b"ac\n"),
    Step::Sends(b"ab\x08 \x08c\r\n"),
    Step::Sends(b""),
    Step::Sets(b"raw", true),
    Step::Receives(b"a\x03\x7f\r", 4),
    Step::Reads(b"a\x03\x7f\r"),
    Step::Receives(&[0x62; 100], 64),
    Step::Keeps(64),
];

/// What is edited can be read once the modes are raw.
const RECAST: &[Step] = &[
    Step::Types(b"ab"),
    Step::Waits,
    Step::Sets(b"raw", true),
    Step::Reads(b"ab"),
];

/// A read out of canonical mode waits for MIN bytes, or for TIME after the last; and a word that is none is refused.
const MIN_AND_TIME: &[Step] = &[
    Step::Sets(b"raw", true),
    Step::Sets(b"min=3", true),
    Step::Sets(b"time=2", true),
    Step::Types(b"ab"),
    Step::Waits,
    Step::Types(b"c\x03"),
    Step::Reads(b"abc\x03"),
    Step::Types(b"d"),
    Step::Ticks(1),
    Step::Waits,
    Step::Ticks(2),
    Step::Reads(b"d"),
    Step::Sets(b"-raw", false),
];

/// INTR drops what was typed and raises a signal, which is told once.
const INTERRUPTED: &[Step] = &[
    Step::Types(b"ab\x03"),
    Step::Keeps(0),
    Step::Sends(b"ab^C"),
    Step::Raises(Some(Signal::Int)),
    Step::Raises(None),
];

/// What STOP halts is held until START, and what went out is taken in pieces.
const HELD: &[Step] = &[
    Step::Writes(b"abc\ndef\tgh", 10),
    Step::Types(b"\x13"),
    Step::Writes(&[0x62; 100], 64),
    Step::Sends(b"abc\r\ndef"),
    Step::Sends(b"\tgh"),
    Step::Sends(b""),
    Step::Types(b"\x11"),
    Step::Sends(b"bbbbbbbb"),
];

fn types(tty: &mut Tty, bytes: &[u8]) -> Result<bool, NoMemory> {
    for byte in bytes {
        if !tty.receive(*byte, Flag::Normal)? {
            return Ok(false);
        }
    }
    Ok(true)
}

fn reads(tty: &mut Tty, bytes: &[u8]) -> Result<bool, NoMemory> {
    let mut place = [0; 64];
    let is_ready = tty.ready(false, 0, 64);
    let count = tty.read(false, 0, &mut place)?;
    Ok(is_ready && count == Some(bytes.len()) && place.starts_with(bytes))
}

fn waits(tty: &mut Tty) -> Result<bool, NoMemory> {
    let mut place = [0; 64];
    let is_ready = tty.ready(false, 0, 64);
    Ok(tty.read(false, 0, &mut place)? == None && !is_ready)
}

fn sends(tty: &mut Tty, bytes: &[u8]) -> Result<bool, NoMemory> {
    let mut place = [0; 8];
    let count = tty.take_wire(&mut place)?;
    Ok(count == bytes.len() && place.starts_with(bytes))
}

/// Whether a step goes as it is to go.
fn follows(tty: &mut Tty, step: &Step) -> Result<bool, NoMemory> {
    match step {
        Step::Types(bytes) => types(tty, bytes),
        Step::Reads(bytes) => reads(tty, bytes),
        Step::Waits => waits(tty),
        Step::Sends(bytes) => sends(tty, bytes),
        Step::Receives(bytes, count) => Ok(tty.receive_bytes(bytes)? == *count),
        Step::Writes(bytes, count) => Ok(tty.write(bytes)? == *count),
        Step::Sets(word, is_set) => Ok(tty.set(word)? == *is_set),
        Step::Raises(signal) => Ok(tty.take_signal()? == *signal),
        Step::Keeps(count) => Ok(tty.unread() == *count),
        Step::Ticks(tick) => {
            tty.advance(*tick);
            Ok(true)
        }
    }
}

/// Whether each step of a row goes as it is to go.
fn follows_all(tty: &mut Tty, row: &[Step]) -> Result<bool, NoMemory> {
    for step in row {
        if !follows(tty, step)? {
            return Ok(false);
        }
    }
    Ok(true)
}

fn goes(alloc: Global, row: &[Step]) -> Result<bool, NoMemory> {
    let mut tty = Tty::new(alloc)?;
    follows_all(&mut tty, row)
}

#[test]
fn a_terminal_edits_waits_raises_signals_and_holds_output(rt: HostRuntime) {
    for row in [EDITED, IN_ONE_CALL, RECAST, MIN_AND_TIME, INTERRUPTED, HELD] {
        assert!(rt;
            goes(rt.alloc(), row) == Ok(true),
            "a row of {} steps",
            row.len()
        );
    }
}
