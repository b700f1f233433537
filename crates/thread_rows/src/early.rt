//! Input that is flushed while the line still runs.

use super::places::Place;
use super::plays::{are_in_order, played_behind};
use std::alloc::{AllocError, Global};
use std::sync::Wait;
use std::thread::Threads;
use tty_calls::Who;
use tty_port::Gate;

/// A caller waits for characters of the line.
const A_READ_BESIDE_THE_LINE: &str = "tty-session 1
ports 1
phase
caller a 0
open 0 rw
modes 0 now raw
phase
line 0
rx 68690a
caller a 0
read 0 8
getd 0
end
";

/// Holds the line of the second phase before its end until the reader has come to its next call.
#[derive(Drop)]
struct BeforeLineEnd {
    after_the_read: Place,
}

impl Gate for BeforeLineEnd {
    fn pass<R: Wait>(&self, _rt: &R, who: Who, step: u32, _part: u32) {
        match (who, step) {
            (Who::Line, 1) => self.after_the_read.wait(),
            (Who::Caller(0), 3) => self.after_the_read.reach(),
            _ => {}
        }
    }
}

/// The flush, the answer of the read, and the line's end, as the journal tells them.
const IN_ORDER: [&str; 3] = [
    "*flush 0 0 0 flush ",
    "a 2 0 0 answer ",
    "*line 1 0 0 line_end ",
];

/// Whether the flush came before the read, and the read before the line's end.
fn is_early<R: Threads + Wait + Sync>(
    rt: &R,
    alloc: Global,
    gate: &BeforeLineEnd,
) -> Result<bool, AllocError> {
    let told = played_behind(rt, alloc, A_READ_BESIDE_THE_LINE, gate)?;
    Ok(told.status == 0 && are_in_order(told.text.as_slice(), &IN_ORDER))
}

#[test]
fn flush_early(rt: HostRuntime) {
    let gate = BeforeLineEnd {
        after_the_read: Place::new(),
    };
    assert!(rt; is_early(&rt, rt.alloc(), &gate) == Ok(true));
    assert!(rt; gate.after_the_read.was_met());
}
