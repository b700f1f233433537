//! A new flip buffer.
ghost use Rattle.std.specs.Prelude.{◌≡◌, ◌≤◌, false, [], IfOk};
ghost use Rattle.tty_base.specs.Sizes.{LEAST_FLIP, MOST_FLIP};

use crate::input::FlipIn;
use crate::output::FlipOut;
use std::alloc::Global;
use tty_base::NoMemory;
use word_ring::ring;

/// The two ends of a new flip buffer, which has room for `n` characters.
pub fn flip(alloc: Global, n: usize) -> Result<(FlipIn, FlipOut), NoMemory>
    requires { (LEAST_FLIP ≤ n) × (n ≤ MOST_FLIP) }
    ensures input { IfOk result
        (λ e. e.0 ≡ record { ring = e.1.ring; capacity = n; sent = []; pushed = []; heads = []; floor = 0 }) }
    ensures output { IfOk result (λ e.
        e.1
        ≡ record {
          ring = e.1.ring;
          capacity = n;
          taken = [];
          peeked = [];
          released = [];
          tails = [];
          floor = 0;
          ended = false;
          sent = [];
        }) }
{
    let (putter, taker) = ring(alloc, n)?;
    Ok((FlipIn { putter }, FlipOut { taker }))
}
