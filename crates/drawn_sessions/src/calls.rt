//! What callers call.

use super::draws::Draws;
use super::lines::put_characters;
use std::alloc::AllocError;

/// Calls that have a handle alone. Those that are often made stand more than once.
const BY_HANDLE: [&str; 13] = [
    "close", "getm", "getd", "inq", "inq", "outq", "excl", "nxcl", "drain", "counts", "vhangup",
    "take", "take",
];

const FLAGS: [&str; 29] = [
    "ignbrk", "brkint", "ignpar", "parmrk", "inpck", "istrip", "inlcr", "igncr", "icrnl", "ixon",
    "ixany", "ixoff", "opost", "onlcr", "ocrnl", "onocr", "tab3", "isig", "icanon", "echo",
    "echoe", "echok", "echoke", "echonl", "echoctl", "noflsh", "iexten", "iutf8", "tostop",
];

const CHARACTERS: [&str; 15] = [
    "intr", "quit", "erase", "kill", "eof", "time", "min", "start", "stop", "susp", "eol",
    "reprint", "werase", "lnext", "eol2",
];

/// Adds a call's name and its handle, most often 0.
fn put_name(text: &mut String, draws: &mut Draws, name: &str) -> Result<(), AllocError> {
    let handle = draws.one_of(&["0", "0", "0", "0", "0", "0", "1", "1", "2", "31"]);
    write!(text, "{name} {handle}")
}

/// Adds a call.
pub(crate) fn put_call(text: &mut String, draws: &mut Draws) -> Result<(), AllocError> {
    match draws.below(24) {
        0 | 1 => put_open(text, draws),
        2..=5 => put_read(text, draws),
        6..=9 => put_bytes_of(text, draws, "write", 200),
        10..=12 => put_modes(text, draws),
        13 => put_choice(
            text,
            draws,
            "setd",
            &["0", "0", "1", "1", "1", "2", "4294967295"],
        ),
        14 => put_choice(text, draws, "flush", &["in", "out", "both"]),
        15 => put_choice(text, draws, "xonc", &["ooff", "oon", "oon", "ioff", "ion"]),
        16 | 17 => put_bytes_of(text, draws, "send", 40),
        _ => {
            let name = draws.one_of(&BY_HANDLE);
            put_name(text, draws, name)?;
            text.push_str("\n")
        }
    }
}

fn put_open(text: &mut String, draws: &mut Draws) -> Result<(), AllocError> {
    put_name(text, draws, "open")?;
    let access = draws.one_of(&["r", "w", "rw", "rw"]);
    let wait = draws.one_of(&["", " nonblock"]);
    write!(text, " {access}{wait}\n")
}

fn put_read(text: &mut String, draws: &mut Draws) -> Result<(), AllocError> {
    put_name(text, draws, "read")?;
    let most = if draws.once_in(4) { 65_536 } else { 64 };
    let number = draws.number_from(1, most);
    write!(text, " {number}\n")
}

fn put_bytes_of(
    text: &mut String,
    draws: &mut Draws,
    name: &str,
    most: u32,
) -> Result<(), AllocError> {
    put_name(text, draws, name)?;
    put_characters(text, " ", draws, most)
}

fn put_choice(
    text: &mut String,
    draws: &mut Draws,
    name: &str,
    words: &[&str],
) -> Result<(), AllocError> {
    put_name(text, draws, name)?;
    let word = draws.one_of(words);
    write!(text, " {word}\n")
}

fn put_modes(text: &mut String, draws: &mut Draws) -> Result<(), AllocError> {
    put_name(text, draws, "modes")?;
    let when = draws.one_of(&["now", "now", "drain", "flush"]);
    write!(text, " {when}")?;
    for _ in 0..draws.number_from(1, 4) {
        put_mode(text, draws)?;
    }
    text.push_str("\n")
}

/// Adds a mode word.
fn put_mode(text: &mut String, draws: &mut Draws) -> Result<(), AllocError> {
    match draws.below(8) {
        0 => text.push_str(" sane"),
        1 => text.push_str(" raw"),
        2 => {
            let name = draws.one_of(&CHARACTERS);
            let number = draws.below(256);
            write!(text, " {name}={number}")
        }
        3 => {
            let name = draws.one_of(&["min", "time"]);
            let number = draws.below(5);
            write!(text, " {name}={number}")
        }
        _ => {
            let sign = draws.one_of(&["", "-"]);
            let flag = draws.one_of(&FLAGS);
            write!(text, " {sign}{flag}")
        }
    }
}
