//! Four numbers in a word.
ghost use Rattle.std.specs.Prelude.{◌≡◌, ℕ, ◌+◌, ◌-◌, ◌<◌, [], ◌∷◌, ◌++◌};
ghost use Rattle.word_ring.specs.Lanes.{lane, lanes, top_lanes};

/// A lane has the numbers below this.
pub const LANE: u64 = 1 << 16;

/// Two lanes together have the numbers below this.
pub const TWO_LANES: u64 = 1 << 32;

/// Three lanes together have the numbers below this.
pub const THREE_LANES: u64 = 1 << 48;

/// The word with one more number in its last lane. Each number before stands one lane lower.
#[inline(always)]
pub(crate) fn with_next(word: u64, x: u16) -> u64
    ensures { (k : ℕ) → k < 4 → top_lanes result (k + 1) ≡ top_lanes word k ++ x ∷ [] }
{
    word / LANE + u64::from(x) * THREE_LANES
}

/// The number in lane `l`.
#[inline(always)]
pub(crate) fn lane_of(word: u64, l: u64) -> u16
    requires { l < 4 }
    ensures { result ≡ lane word l }
{
    ((word >> (l * 16)) % LANE) as u16
}

/// The word with these numbers, the first in its first lane.
#[inline(always)]
pub(crate) fn word_of(xs: [u16; 4]) -> u64
    ensures { lanes result 4 ≡ xs }
{
    let [a, b, c, d] = xs;
    u64::from(a) + u64::from(b) * LANE + u64::from(c) * TWO_LANES + u64::from(d) * THREE_LANES
}

/// The word with the numbers in the last `k` lanes of one word, and then those in the first lanes of the next.
#[inline(always)]
pub(crate) fn joined(word: u64, next: u64, k: u64) -> u64
    requires { (0 < k) × (k < 4) }
    ensures { lanes result 4 ≡ top_lanes word k ++ lanes next (4 - k) }
{
    (word >> (64 - k * 16)) + (next << (k * 16))
}
