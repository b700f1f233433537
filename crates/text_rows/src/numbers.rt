//! Sessions that are made from a number, as tests: the first bytes of some.

use session_gen::make;
use std::alloc::Global;
use tty_base::{Flagged, LineStep, NoMemory};
use tty_calls::{Phase, Session};

/// Whether the first step of a port's line is this good byte.
fn begins(alloc: Global, phase: &Phase, port: usize, byte: u8) -> Result<bool, NoMemory> {
    let Some(line) = phase.lines.as_slice().get(port) else {
        return Ok(false);
    };
    let steps = line.written_out(alloc)?;
    Ok(steps.as_slice().first().copied() == Some(LineStep::Rx(Flagged::good(byte))))
}

/// Whether the lines of both ports in the second phase begin so, and that of the first port in the third.
fn begin(alloc: Global, session: &Session, bytes: [u8; 3]) -> Result<bool, NoMemory> {
    let [_, second, third, ..] = session.phases.as_slice() else {
        return Ok(false);
    };
    let [first, next_port, next_phase] = bytes;
    Ok(
        begins(alloc, second, 0, first)?
            && begins(alloc, second, 1, next_port)?
            && begins(alloc, third, 0, next_phase)?,
    )
}

/// Whether the session of a number begins so.
fn number_begins(alloc: Global, number: u32, bytes: [u8; 3]) -> Result<bool, NoMemory> {
    let session = make(alloc, number)?;
    let begins = begin(alloc, &session, bytes);
    drop(session);
    begins
}

#[test]
fn the_first_bytes_of_some_numbers(rt: HostRuntime) {
    for (number, bytes) in [
        (0, [0x3c, 0x5e, 0xe3]),
        (7, [0x3d, 0x16, 0x5d]),
        (u32::MAX, [0x3c, 0x69, 0x1b]),
    ] {
        assert!(rt;
            number_begins(rt.alloc(), number, bytes) == Ok(true),
            "of {number}"
        );
    }
}
