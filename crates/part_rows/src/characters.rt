//! A character and a break that pass through a flip buffer.

use arrayvec::ArrayVec;
use flip_buffer::flip;
use std::alloc::Global;
use tty_base::{Flag, Flagged, NoMemory, Put};

const LETTER: Flagged = Flagged {
    byte: b'a',
    flag: Flag::Normal,
};

const PAUSE: Flagged = Flagged {
    byte: 0,
    flag: Flag::Break,
};

/// Whether a character and a break come through a flip buffer.
fn both_pass(alloc: Global) -> Result<bool, NoMemory> {
    let (mut input, mut output) = flip(alloc, 64)?;
    let mut taken = ArrayVec::<Flagged, 64>::new();
    if input.put(LETTER).is_ok() && input.put(PAUSE).is_ok() {
        input.push();
        output.take(64, &mut taken);
    }
    Ok(taken.as_slice() == [LETTER, PAUSE].as_slice())
}

#[test]
fn a_character_and_a_break_pass(rt: HostRuntime) {
    assert!(rt; both_pass(rt.alloc()) == Ok(true));
}
