//! Those who wait for a change.

ghost use Rattle.std.specs.Prelude.{◌≡◌, ◌%◌};

use std::hint::spin_loop;
use std::sync::Wait;
use std::sync::atomic::{AtomicU64, Ordering};
use std::time::Duration;

/// The longest that somebody waits without a look, in milliseconds.
const PATIENCE: u64 = 1;

/// How often somebody looks for a change before it sleeps: for about as long as a wake takes.
const LOOKS: u32 = 400;

/// The lowest bit of the word tells that somebody sleeps, or is about to, whom no change has woken. The
/// rest counts the changes.
const ASLEEP: u64 = 1;

const CHANGE: u64 = 2;

/// What the system compares, before it lets somebody sleep, is the word modulo this.
const COMPARED: u64 = 1 << 32;

/// How many changes there were, as a word to which each of them adds two. It may be kept as that word,
/// which nobody else makes.
#[derive(Clone, Copy, Debug, PartialEq, Eq)]
pub struct ChangeCount {
    pub word: u64,
}

/// Those who wait for a change. Who may have to wait asks for the count of changes first, then looks
/// whether it has to, and then waits for a change since that count: so it misses none. A change for which
/// nobody waits is no call of the system.
#[derive(Drop)]
pub struct Waiters {
    word: AtomicU64,
}

impl Waiters {
    /// Nobody waits, and there was no change.
    pub fn new() -> Waiters {
        Waiters {
            word: AtomicU64::new(0),
        }
    }

    /// How many changes there were. Who sleeps is not in it, so that it differs from an earlier count only
    /// where there was a change.
    pub fn changes(&self) -> ChangeCount
        ensures even { result.word % 2 ≡ 0 }
    {
        let word = self.word.load(Ordering::SeqCst);
        ChangeCount {
            word: word - word % CHANGE,
        }
    }

    /// Whether somebody sleeps, or is about to, whom no change has woken.
    pub fn has_sleeper(&self) -> bool {
        self.word.load(Ordering::SeqCst) % CHANGE == ASLEEP
    }

    /// Waits for a change since that count, for no longer than a millisecond. It comes back without a
    /// change too.
    pub fn wait<R: Wait>(&self, rt: &R, since: ChangeCount) {
        for _ in 0..LOOKS {
            if self.changes() != since {
                return;
            }
            spin_loop();
        }
        if let Some(announced) = self.announce(since) {
            let patience = Duration::from_millis(PATIENCE);
            self.word
                .park_timeout(rt, (announced % COMPARED) as u32, patience);
        }
    }

    /// Announces somebody who is about to sleep, where there was no change since that count, and gives the
    /// word as it is then.
    fn announce(&self, since: ChangeCount) -> Option<u64> {
        let quiet = since.word;
        let announced = quiet | ASLEEP;
        match self
            .word
            .compare_exchange(quiet, announced, Ordering::SeqCst, Ordering::SeqCst)
        {
            Ok(_) => Some(announced),
            Err(found) if found == announced => Some(announced),
            Err(_) => None,
        }
    }

    /// Counts a change, and wakes those who sleep.
    pub fn wake(&self) {
        let before = self.word.fetch_add(CHANGE, Ordering::SeqCst);
        if before % CHANGE == ASLEEP {
            let announced = before.wrapping_add(CHANGE);
            // where this fails, a later change was counted, and that one takes the announcement
            let _ = self.word.compare_exchange(
                announced,
                announced - ASLEEP,
                Ordering::SeqCst,
                Ordering::SeqCst,
            );
            self.word.wake_all();
        }
    }
}
