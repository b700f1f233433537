//! Two callers whose turns mix within a write.

use super::places::Place;
use super::plays::{are_in_order, played_behind};
use std::alloc::{AllocError, Global};
use std::sync::Wait;
use std::thread::Threads;
use tty_calls::Who;
use tty_port::Gate;

/// One caller writes in four parts, and another reads, beside it.
const A_WRITE_AND_A_READ: &str = "tty-session 1
ports 1
phase
caller a 0
open 0 rw nonblock
phase
caller a 0
write 0 [61*200]
caller b 0
read 0 8
getd 0
end
";

/// Holds the read until the write stands before its second turn, and the write there until the reader
/// has come to its next call.
#[derive(Drop)]
struct BetweenParts {
    after_a_part: Place,
    after_the_read: Place,
}

impl Gate for BetweenParts {
    fn pass<R: Wait>(&self, _rt: &R, who: Who, step: u32, part: u32) {
        match (who, step, part) {
            (Who::Caller(1), 0, 0) => self.after_a_part.wait(),
            (Who::Caller(0), 1, 1) => {
                self.after_a_part.reach();
                self.after_the_read.wait();
            }
            (Who::Caller(1), 1, 0) => self.after_the_read.reach(),
            _ => {}
        }
    }
}

/// A part of the write, the answer of the read, and the next part, as the journal tells them.
const IN_ORDER: [&str; 3] = ["a 1 0 0 part ", "b 0 0 0 answer ", "a 1 1 0 part "];

/// Whether the read was answered between two parts of the write.
fn are_mixed<R: Threads + Wait + Sync>(
    rt: &R,
    alloc: Global,
    gate: &BetweenParts,
) -> Result<bool, AllocError> {
    let told = played_behind(rt, alloc, A_WRITE_AND_A_READ, gate)?;
    Ok(told.status == 0 && are_in_order(told.text.as_slice(), &IN_ORDER))
}

#[test]
fn two_in_flight(rt: HostRuntime) {
    let gate = BetweenParts {
        after_a_part: Place::new(),
        after_the_read: Place::new(),
    };
    assert!(rt; are_mixed(&rt, rt.alloc(), &gate) == Ok(true));
    assert!(rt; gate.after_a_part.was_met() && gate.after_the_read.was_met());
}
