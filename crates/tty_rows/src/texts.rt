//! Texts of sessions: how repeated bytes are written, and how journals are put after a session.

use std::alloc::{AllocError, Global};

/// The text with its repeated bytes written out: in it `[61*4095]` stands for 4,095 times 61, and `|` for a line feed.
pub fn written_out(alloc: Global, text: &str) -> Result<Vec<u8>, AllocError> {
    let mut writing = Writing {
        whole: Vec::new(alloc),
        times: Vec::new(alloc),
        inside: false,
    };
    for byte in text.bytes() {
        writing.add(if byte == b'|' { b'\n' } else { byte })?;
    }
    Ok(writing.whole)
}

/// What is written out so far, and what stands behind an open bracket.
#[derive(Drop)]
struct Writing {
    whole: Vec<u8>,
    times: Vec<u8>,
    inside: bool,
}

impl Writing {
    fn add(&mut self, byte: u8) -> Result<(), AllocError> {
        match byte {
            b'[' => self.inside = true,
            b']' => {
                put_times(&mut self.whole, self.times.as_slice())?;
                self.times.clear();
                self.inside = false;
            }
            _ if self.inside => self.times.push(byte)?,
            _ => self.whole.push(byte)?,
        }
        Ok(())
    }
}

/// Adds what `61*4095` stands for.
fn put_times(whole: &mut Vec<u8>, times: &[u8]) -> Result<(), AllocError> {
    let piece = times.iter().take_while(|byte| **byte != b'*').count();
    let mut count = 0usize;
    for digit in times.iter().skip(piece + 1) {
        count = count
            .saturating_mul(10)
            .saturating_add(usize::from(digit.wrapping_sub(b'0')));
    }
    for _ in 0..count {
        for byte in times.iter().take(piece) {
            whole.push(*byte)?;
        }
    }
    Ok(())
}

/// The session, followed by the journals in the text of its play.
pub fn with_journals(alloc: Global, session: &str, played: &[u8]) -> Result<Vec<u8>, AllocError> {
    let heading = b"journals\n".as_slice();
    let before = played
        .windows(heading.len())
        .take_while(|piece| *piece != heading)
        .count();
    let mut text = written_out(alloc, session)?;
    for byte in played.iter().skip(before) {
        text.push(*byte)?;
    }
    Ok(text)
}
