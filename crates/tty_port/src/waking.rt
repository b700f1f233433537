//! Who waits for what others do with the port, and who is woken. Time is in no clause: that somebody is woken,
//! and how soon, is said in words alone.

ghost use Rattle.std.specs.Prelude.{◌≡◌};
ghost use Rattle.port_cell.specs.Knowledge.{number_of};
ghost use Rattle.tty_port.specs.Shared.{IsHere};

use crate::shared::{Seat, SharedPort};
use change_wait::ChangeCount;
use std::sync::Wait;
use std::sync::atomic::Ordering;

/// Who may go on after a turn.
pub(crate) enum Woken {
    Nobody,
    /// The flusher, where a read left room.
    Flusher,
    All,
}

impl SharedPort {
    /// Wakes those who may go on.
    pub(crate) fn wake(&self, woken: Woken) {
        match woken {
            Woken::Nobody => {}
            Woken::Flusher => self.wake_flusher(),
            Woken::All => {
                self.cell.for_change.wake();
                self.wake_flusher();
            }
        }
    }

    /// Wakes the flusher, for which what a line pushes is something to do.
    pub(crate) fn wake_flusher(&self) {
        self.for_flusher.wake();
    }

    /// Notes that the flusher looks now, so that its next wait misses nothing that happens from here on.
    pub(crate) fn note_flusher_look(&self) {
        let count = self.for_flusher.changes();
        self.flusher_looked.store(count.word, Ordering::SeqCst);
    }

    /// Whether the flusher waits: it has looked since it was woken last, and found nothing that it can do.
    pub(crate) fn flusher_waits(&self) -> bool {
        self.for_flusher.has_sleeper()
    }

    /// The flusher waits for something that may be work for it and that happened after its latest flush run
    /// began. It comes back without that too, after a millisecond at the latest.
    pub fn pause<R: Wait>(&self, rt: &R, seat: &mut Seat)
        requires { IsHere self.now (number_of seat.old) seat.old }
        ensures { seat.new ≡ seat.old }
    {
        let _seat = &*seat; // for the contract alone
        let word = self.flusher_looked.load(Ordering::SeqCst);
        self.for_flusher.wait(rt, ChangeCount { word });
    }
}
