//! What a line receives.

use super::draws::Draws;
use std::alloc::AllocError;

/// What means something to a discipline: control characters, framing, bytes above 127, and ends of lines.
const SPECIAL: [&str; 28] = [
    "00", "03", "04", "08", "09", "0a", "0a", "0d", "0d", "11", "11", "12", "13", "15", "16", "17",
    "1a", "1c", "7f", "7f", "80", "c0", "c0", "c3", "db", "dc", "dd", "ff",
];

/// Adds so many drawn bytes.
pub(crate) fn put_bytes(
    text: &mut String,
    draws: &mut Draws,
    count: u32,
) -> Result<(), AllocError> {
    for _ in 0..count {
        if draws.once_in(3) {
            text.push_str(draws.one_of(&SPECIAL))?;
        } else {
            let byte = draws.number_from(0x20, 0x5f);
            write!(text, "{byte:02x}")?;
        }
    }
    Ok(())
}

/// Adds an item of a line block.
pub(crate) fn put_step(text: &mut String, draws: &mut Draws) -> Result<(), AllocError> {
    match draws.below(12) {
        0 => text.push_str("break\n"),
        1 => text.push_str("mask\n"),
        2 | 3 => text.push_str("unmask\n"),
        4 => put_number(text, "idle ", draws.number_from(1, 8)),
        5 => {
            let trigger = draws.one_of(&["1", "4", "8", "14"]);
            write!(text, "trigger {trigger}\n")
        }
        6 => put_characters(text, "rxp ", draws, 3),
        7 => put_characters(text, "rxf ", draws, 3),
        _ => put_characters(text, "rx ", draws, 60),
    }
}

/// Adds a line of this word and a number.
pub(crate) fn put_number(text: &mut String, word: &str, number: u32) -> Result<(), AllocError> {
    write!(text, "{word}{number}\n")
}

/// Adds a line of this word and so many bytes at most.
pub(crate) fn put_characters(
    text: &mut String,
    word: &str,
    draws: &mut Draws,
    most: u32,
) -> Result<(), AllocError> {
    text.push_str(word)?;
    let count = draws.number_from(1, most);
    put_bytes(text, draws, count)?;
    text.push_str("\n")
}
