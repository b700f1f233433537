//! How a line gives way to those who take its characters.

ghost use Rattle.std.specs.Prelude.{◌≡◌, ◌<◌, ℕ, ◌++◌, List};
ghost use Rattle.std.specs.List.Sorted.{IsNonDecreasing};
ghost use Rattle.port_cell.specs.Knowledge.{number_of};
ghost use Rattle.tty_port.specs.Pacing.{steps_left};
ghost use Rattle.tty_port.specs.Shared.{IsHere};

use crate::shared::{Seat, SharedPort};
use change_wait::ChangeCount;
use flip_buffer::FlipIn;
use std::sync::Wait;

/// For how long a line waits for room while nothing happens, in milliseconds.
const PATIENCE: u32 = 1_000;

/// So much of its patience a wait takes where the flusher has looked and found nothing that it can do.
const VAIN: u32 = 10;

/// How many steps a line does between two looks at the flip buffer.
const STRIDE: u32 = 16;

/// How a line goes on from step to step.
#[derive(Drop)]
pub struct Pace {
    /// So many steps come before the one that looks next.
    pub steps: u32,
    /// How long it may still wait for room while nothing happens.
    pub(crate) patience: u32,
    /// What had happened when it last looked.
    pub(crate) since: Option<ChangeCount>,
}

impl Pace {
    /// The pace of a line before its first step, which looks.
    pub fn new() -> Pace
        ensures { result.steps ≡ 0 }
    {
        Pace {
            steps: 0,
            patience: PATIENCE,
            since: None,
        }
    }

    /// Has all its patience again where something has happened.
    fn note(&mut self, now: ChangeCount) {
        if self.since != Some(now) {
            self.patience = PATIENCE;
            self.since = Some(now);
        }
    }
}

impl SharedPort {
    /// What a line does before a step: once in so many steps it wakes the flusher, and where more than half
    /// of the flip buffer is in use it gives time to those who take characters, as a line does that is slower
    /// than they are. That the line waits, and for how long, is in no clause; which steps look is.
    pub fn give_way<R: Wait>(&self, rt: &R, seat: &mut Seat, putter: &mut FlipIn, pace: &mut Pace)
        requires { IsHere self.now (number_of seat.old) seat.old }
        ensures looks { pace.new.steps ≡ steps_left pace.old.steps }
        ensures between { 0 < pace.old.steps → putter.new ≡ putter.old }
        ensures seat { seat.new ≡ seat.old }
        ensures sent { putter.new.sent ≡ putter.old.sent }
        ensures same { (putter.new.ring ≡ putter.old.ring) × (putter.new.capacity ≡ putter.old.capacity) }
        ensures heads { (loaded : List ℕ) × (putter.new.heads ≡ putter.old.heads ++ loaded) }
        ensures rise { IsNonDecreasing putter.old.heads → IsNonDecreasing putter.new.heads }
    {
        if pace.steps > 0 {
            pace.steps -= 1;
        } else {
            self.await_room(rt, seat, putter, pace);
            pace.steps = STRIDE - 1;
        }
    }

    /// Waits until no more than half of the flip buffer is in use, as long as the line has patience.
    fn await_room<R: Wait>(&self, rt: &R, seat: &mut Seat, putter: &mut FlipIn, pace: &mut Pace)
        requires { IsHere self.now (number_of seat.old) seat.old }
        ensures seat { seat.new ≡ seat.old }
        ensures sent { putter.new.sent ≡ putter.old.sent }
        ensures same { (putter.new.ring ≡ putter.old.ring) × (putter.new.capacity ≡ putter.old.capacity) }
        ensures heads { (loaded : List ℕ) × (putter.new.heads ≡ putter.old.heads ++ loaded) }
        ensures rise { IsNonDecreasing putter.old.heads → IsNonDecreasing putter.new.heads }
    {
        for _ in rt.forever() {
            // so that a flusher that waits after this has looked since
            self.wake_flusher();
            let now = self.cell.for_change.changes();
            pace.note(now);
            let waiting = putter.waiting();
            if pace.patience == 0 || waiting <= putter.capacity() as u64 / 2 {
                return;
            }
            self.cell.park(rt, seat, now);
            let cost = if self.flusher_waits() { VAIN } else { 1 };
            pace.patience = pace.patience.saturating_sub(cost);
        }
        unreachable!()
    }
}
