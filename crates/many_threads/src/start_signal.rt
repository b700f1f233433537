//! The start of a phase: no thread of it acts before all are made, since they wait for one another.

use std::sync::atomic::{AtomicU32, Ordering};
use std::sync::{OnceLock, Wait};
use tty_base::NoMemory;
use tty_calls::Calls;
use tty_port::SharedPort;

/// Tells the threads of a phase whether all of them could be made. Those of several ports can have one start.
#[derive(Drop)]
pub struct Start {
    all_made: OnceLock<bool>,
    left: AtomicU32,
}

impl Start {
    pub fn new() -> Start {
        Start::of_all(1)
    }

    /// A start of so many ports: it is open once each of them has opened it.
    pub fn of_all(ports: u32) -> Start {
        Start {
            all_made: OnceLock::new(),
            left: AtomicU32::new(ports),
        }
    }

    /// Waits until all threads are made; it is refused where one could not be.
    pub fn wait<R: Wait>(&self, rt: &R) -> Result<(), NoMemory> {
        if *self.all_made.wait(rt) {
            Ok(())
        } else {
            Err(NoMemory)
        }
    }

    /// Lets all threads go on, now that those of a port are made, where those of the other ports are.
    pub fn open<R: Wait>(&self, rt: &R) {
        if self.left.fetch_sub(1, Ordering::SeqCst) == 1 {
            let _ = self.all_made.set(rt, true);
        }
    }

    /// Has all threads give up, since one could not be made.
    pub fn refuse<R: Wait>(&self, rt: &R) -> NoMemory {
        let _ = self.all_made.set(rt, false);
        NoMemory
    }
}

/// Where the threads of a phase meet: at this port, and at its start. A caller with no script makes no calls.
#[derive(Clone, Copy)]
pub struct Site<'s> {
    pub shared: &'s SharedPort,
    pub start: &'s Start,
    pub no_calls: &'s Calls,
}
