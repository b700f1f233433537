//! The overruns of a line.

ghost use Rattle.std.specs.Prelude.{◌≡◌, ◌↔◌, ◌+◌, ◌≤◌, ◌<◌, IsTrue, length};
ghost use Rattle.tty_base.specs.Sizes.{COUNT_END};
ghost use Rattle.uart_line.specs.Offered.{AreShown};

use tty_base::Overrun;

/// Whether an overrun is the k-th, at a place from `floor` on, and at a full buffer.
fn is_shown(capacity: u32, k: u64, floor: u64, overrun: &Overrun) -> bool
    ensures { IsTrue result
        ↔ ((floor ≤ overrun.now.at)
        × (overrun.now.sent + k ≡ overrun.now.at)
        × (overrun.now.sent ≡ overrun.now.seen + capacity)) }
{
    let at = u64::from(overrun.at);
    let capacity = u64::from(capacity);
    floor <= at
        && k <= at
        && overrun.sent == at - k
        && capacity <= overrun.sent
        && overrun.seen == overrun.sent - capacity
}

/// The place after an overrun's.
fn place_after(overrun: Overrun) -> u64
    ensures { result ≡ overrun.at + 1 }
{
    u64::from(overrun.at) + 1
}

/// Whether the places of these overruns rise, and each is shown at a full buffer.
pub(crate) fn are_shown(capacity: u32, overruns: &[Overrun]) -> bool
    requires { length overruns.now < COUNT_END }
    ensures { IsTrue result ↔ AreShown capacity 0 0 overruns.now }
{
    let mut k = 0;
    let mut floor = 0;
    for overrun in overruns {
        if !is_shown(capacity, k, floor, overrun) {
            return false;
        }
        k += 1;
        floor = place_after(*overrun);
    }
    true
}
