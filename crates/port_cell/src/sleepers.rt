//! Who sleeps until the turn is given back: announcing it, sleeping, and waking one, so that a call for which nobody
//! sleeps is no call of the system.

use std::sync::Wait;
use std::sync::atomic::{AtomicU64, Ordering};

const NOBODY: u32 = 0;

const SOMEBODY: u32 = 1;

/// Whether somebody sleeps, or is about to, who was not called. Who wants to sleep announces it first; who
/// gives the turn back calls after that. So whoever looks once more between the two misses no call, and of
/// many calls only the first calls the system.
#[derive(Drop)]
pub(crate) struct Sleepers {
    asleep: AtomicU64,
}

impl Sleepers {
    pub(crate) fn new() -> Sleepers {
        Sleepers {
            asleep: AtomicU64::new(u64::from(NOBODY)),
        }
    }

    /// Somebody is about to sleep, or has woken and may have left others asleep.
    pub(crate) fn announce(&self) {
        self.asleep.store(u64::from(SOMEBODY), Ordering::SeqCst);
    }

    /// Sleeps until a call, where none came since the announcement.
    pub(crate) fn sleep<R: Wait>(&self, rt: &R) {
        self.asleep.park(rt, SOMEBODY);
    }

    /// Wakes one who sleeps, where somebody was announced. Who wakes announces those who are left asleep.
    pub(crate) fn call_one(&self) {
        if self.was_announced() {
            self.asleep.wake_one();
        }
    }

    // Takes the announcement. Mostly there is none, and a load is less than a swap.
    fn was_announced(&self) -> bool {
        let nobody = u64::from(NOBODY);
        self.asleep.load(Ordering::SeqCst) != nobody
            && self.asleep.swap(nobody, Ordering::SeqCst) != nobody
    }
}
