//! Places that one thread comes to and another waits for.

use std::sync::atomic::{AtomicBool, Ordering};
use std::thread;

/// How many turns a thread waits at most.
pub(crate) const MOST_TURNS: u32 = 10_000_000;

/// A place that one thread comes to, and another waits for.
#[derive(Drop)]
pub(crate) struct Place {
    reached: AtomicBool,
    given_up: AtomicBool,
}

impl Place {
    pub(crate) fn new() -> Place {
        Place {
            reached: AtomicBool::new(false),
            given_up: AtomicBool::new(false),
        }
    }

    /// A thread has come to the place.
    pub(crate) fn reach(&self) {
        self.reached.store(true, Ordering::SeqCst);
    }

    /// Waits until a thread has come to the place, or gives up.
    pub(crate) fn wait(&self) {
        for _ in 0..MOST_TURNS {
            if self.reached.load(Ordering::SeqCst) {
                return;
            }
            thread::yield_now();
        }
        self.given_up.store(true, Ordering::SeqCst);
    }

    /// Whether a thread has come to the place before another gave it up.
    pub(crate) fn was_met(&self) -> bool {
        self.reached.load(Ordering::SeqCst) && !self.given_up.load(Ordering::SeqCst)
    }
}
