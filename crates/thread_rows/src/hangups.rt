//! A hangup, or a change of the discipline, at each moment of a write.

use super::places::MOST_TURNS;
use super::plays::{are_in_order, is_legal, played_behind};
use std::alloc::{AllocError, Global};
use std::sync::Wait;
use std::sync::atomic::{AtomicBool, AtomicU32, Ordering};
use std::thread::{self, Threads};
use tty_calls::Who;
use tty_port::Gate;
use tty_rows::Told;

/// A number of passes that no play has.
const MOST_PASSES: u32 = 40;

/// How many turns a thread steps aside that has let the held call go on.
const TURNS_ASIDE: u32 = 100;

/// The callers whose turns are counted or held: one writes, and the call of another is held.
const WRITER: u16 = 0;

const HELD: u16 = 1;

/// The step of the writer's last call.
const LAST: u32 = 3;

/// A session up to the call that is held.
const BEGIN: &str = "tty-session 1
ports 1
phase
caller a 0
open 0 rw
phase
caller a 0
getd 0
write 0 [61*200]
getd 0
caller b 0
";

const HANGUP: &str = "vhangup 0\n";

const CHANGE: &str = "setd 0 1\n";

const NO_CHANGE: &str = "setd 0 0\n";

/// What may go on beside the write.
const NOTHING: &str = "";

const A_READ: &str = "caller c 0\nread 0 64\n";

const A_LINE: &str = "line 0\nrx [61*5000]\n";

/// Holds a call until there were so many passes of other callers and of the line, or until the writer has
/// come to its last call.
#[derive(Drop)]
struct AtPass {
    at: u32,
    passes: AtomicU32,
    is_over: AtomicBool,
    is_given_up: AtomicBool,
}

impl AtPass {
    fn new(at: u32) -> AtPass {
        AtPass {
            at,
            passes: AtomicU32::new(0),
            is_over: AtomicBool::new(false),
            is_given_up: AtomicBool::new(false),
        }
    }

    fn passes(&self) -> u32 {
        self.passes.load(Ordering::SeqCst)
    }

    fn hold(&self) {
        for _ in 0..MOST_TURNS {
            if self.passes() >= self.at || self.is_over.load(Ordering::SeqCst) {
                return;
            }
            thread::yield_now();
        }
        self.is_given_up.store(true, Ordering::SeqCst);
    }

    fn count(&self) {
        let before = self.passes.fetch_add(1, Ordering::SeqCst);
        if before.saturating_add(1) == self.at {
            for _ in 0..TURNS_ASIDE {
                thread::yield_now();
            }
        }
    }
}

impl Gate for AtPass {
    fn pass<R: Wait>(&self, _rt: &R, who: Who, step: u32, _part: u32) {
        if who == Who::Caller(HELD) {
            self.hold();
            return;
        }
        self.count();
        if who == Who::Caller(WRITER) && step == LAST {
            self.is_over.store(true, Ordering::SeqCst);
        }
    }
}

/// Whether a report tells this line.
fn tells(told: &Told, line: &str) -> bool {
    are_in_order(told.text.as_slice(), &[line])
}

/// Whether a write was done whole, or refused because of the call that was held.
fn is_well_written(told: &Told, held: &str) -> bool {
    tells(told, "0.a.2 write 200\n") || held != NO_CHANGE && tells(told, "0.a.2 write EIO\n")
}

/// Whether a read of which no byte came ended as the call that was held has it.
fn is_well_read(told: &Told, held: &str) -> bool {
    if held == HANGUP {
        tells(told, "0.c.0 read 0\n")
    } else if held == CHANGE {
        tells(told, "0.c.0 read EIO\n")
    } else {
        tells(told, "0.c.0 read idle\n")
    }
}

/// Whether the write and the read of a play were answered as the call that was held has it.
fn is_well_answered(told: &Told, held: &str, beside: &str) -> bool {
    is_well_written(told, held) && (beside != A_READ || is_well_read(told, held))
}

/// Plays a session whose held call goes on at a pass. Answers how many passes there were, where all goes well.
fn passes_at<R: Threads + Wait + Sync>(
    rt: &R,
    alloc: Global,
    session: &str,
    held: &str,
    beside: &str,
    at: u32,
) -> Result<Option<u32>, AllocError> {
    let gate = AtPass::new(at);
    let told = played_behind(rt, alloc, session, &gate)?;
    let well = is_well_answered(&told, held, beside) && is_legal(rt, alloc, session, &told)?;
    let is_held = !gate.is_given_up.load(Ordering::SeqCst);
    Ok(if well && is_held {
        Some(gate.passes())
    } else {
        None
    })
}

/// Whether all goes well where the call that is held goes on at each pass, until a play has fewer passes.
fn goes_well<R: Threads + Wait + Sync>(
    rt: &R,
    alloc: Global,
    session: &str,
    held: &str,
    beside: &str,
) -> Result<bool, AllocError> {
    for at in 1..=MOST_PASSES {
        match passes_at(rt, alloc, session, held, beside, at)? {
            Some(passes) if passes < at => return Ok(true),
            Some(_) => {}
            None => return Ok(false),
        }
    }
    Ok(false)
}

fn goes_well_beside<R: Threads + Wait + Sync>(
    rt: &R,
    alloc: Global,
    held: &str,
    beside: &str,
) -> Result<bool, AllocError> {
    let session = format!(in alloc; "{BEGIN}{held}{beside}end\n")?;
    goes_well(rt, alloc, session.as_str(), held, beside)
}

/// Whether all goes well beside nothing, a read and a line.
fn goes_well_beside_each<R: Threads + Wait + Sync>(
    rt: &R,
    alloc: Global,
    held: &str,
) -> Result<bool, AllocError> {
    let alone = goes_well_beside(rt, alloc, held, NOTHING)?;
    let read = goes_well_beside(rt, alloc, held, A_READ)?;
    Ok(alone && read && goes_well_beside(rt, alloc, held, A_LINE)?)
}

#[test]
fn a_write_is_whole_or_refused_by_what_was_held(rt: HostRuntime) {
    for held in [HANGUP, CHANGE, NO_CHANGE] {
        let well = goes_well_beside_each(&rt, rt.alloc(), held);
        assert!(rt; well == Ok(true), "with {held}");
    }
}
