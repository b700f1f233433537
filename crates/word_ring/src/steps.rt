//! Where words stand, and stores of a word.
ghost use Rattle.std.specs.Prelude.{◌≡◌, ◌+◌, ◌-◌, ◌/◌, ◌%◌, ◌<◌, ◌≤◌, true, ◌++◌, length, IfSome, IsNone};
ghost use Rattle.std.proofs.Common.{◌⊎◌};
ghost use Rattle.tty_base.specs.Sizes.{MOST_FLIP};
ghost use mathlib.Core.List.{IsPrefix};
ghost use Rattle.word_ring.specs.Lanes.{top_lanes, whole_words};
ghost use Rattle.word_ring.specs.Plays.{with_written};
ghost use Rattle.word_ring.specs.Rule.{place};

use crate::lanes::{LANE, THREE_LANES, TWO_LANES};
use crate::table::{RingSeat, Steps, StoreLanes};

/// The place of the word after the one at `at`, where that ends before number `next`.
#[inline(always)]
pub(crate) fn place_of_next(capacity: u64, next: u64, at: usize) -> usize
    requires { (capacity ≤ MOST_FLIP) × (0 < next) × (next % 4 ≡ 0) × (at ≡ place capacity ((next - 1) / 4)) }
    ensures { result ≡ place capacity (next / 4) }
{
    let _ = next; // for the contract alone
    if at < (capacity / 4 + 3) as usize {
        at + 1
    } else {
        2
    }
}

/// The place of the word that has number `next`, where the one at `at` has number `sent`, at most the capacity before.
#[inline(always)]
pub(crate) fn place_further(capacity: u64, sent: u64, next: u64, at: usize) -> usize
    requires small { capacity ≤ MOST_FLIP }
    requires order { (sent ≤ next) × (next ≤ sent + capacity) }
    requires at { at ≡ place capacity (sent / 4) }
    ensures { result ≡ place capacity (next / 4) }
{
    let words = (capacity / 4 + 2) as usize;
    let further = at + (next / 4 - sent / 4) as usize;
    if further < words + 2 {
        further
    } else {
        further - words
    }
}

/// The place of the word that has number `next`, where the number before it is in the word at `at`.
pub(crate) fn place_after(capacity: u64, next: u64, at: usize) -> usize
    requires { (capacity ≤ MOST_FLIP) × (0 < next) × (at ≡ place capacity ((next - 1) / 4)) }
    ensures { result ≡ place capacity (next / 4) }
{
    if next % 4 != 0 {
        return at;
    }
    place_of_next(capacity, next, at)
}

/// The place of the word that has number `head`, not after `next`, where the number before `next` is in
/// the word at `at`.
pub(crate) fn place_of_head(capacity: u64, head: u64, next: u64, at: usize) -> usize
    requires { (capacity ≤ MOST_FLIP) × (0 < next) × (at ≡ place capacity ((next - 1) / 4)) }
    ensures { result ≡ place capacity (head / 4) }
{
    if head == next {
        place_after(capacity, next, at)
    } else {
        (2 + head / 4 % (capacity / 4 + 2)) as usize
    }
}

/// The place of the word that begins with number `next`.
#[inline(always)]
pub(crate) fn place_of_word(capacity: u64, taken: u64, next: u64, start: usize, at: usize) -> usize
    requires small { capacity ≤ MOST_FLIP }
    requires order { taken ≤ next }
    requires start { start ≡ place capacity (taken / 4) }
    requires at { taken < next → at ≡ place capacity ((next - 1) / 4) }
    requires begins { next % 4 ≡ 0 }
    ensures { result ≡ place capacity (next / 4) }
{
    if next == taken {
        start
    } else {
        place_of_next(capacity, next, at)
    }
}

/// The place of the word that has number `next`, unless it was loaded with the number before.
pub(crate) fn place_to_load(
    capacity: u64,
    taken: u64,
    next: u64,
    start: usize,
    at: usize,
) -> Option<usize>
    requires small { capacity ≤ MOST_FLIP }
    requires order { taken ≤ next }
    requires start { start ≡ place capacity (taken / 4) }
    requires at { taken < next → at ≡ place capacity ((next - 1) / 4) }
    ensures load { IfSome result (λ p. (p ≡ place capacity (next / 4)) × ((next ≡ taken) ⊎ (next % 4 ≡ 0))) }
    ensures there { IsNone result → (taken < next) × (0 < next % 4) }
{
    if next == taken {
        return Some(start);
    }
    if next % 4 == 0 {
        return Some(place_after(capacity, next, at));
    }
    None
}

/// Stores the word in whose last lanes are the last numbers put, so many. Where it has none there is nothing to store.
#[inline(always)]
pub(crate) fn store_lanes(steps: &Steps, seat: &mut RingSeat, at: usize, word: u64, count: u64)
    requires seat { (seat.old.table_id ≡ steps.now.table_id) × (seat.old.me.0.puts ≡ true) }
    requires words { (1 < at) × (at < steps.now.table_id.words) }
    requires at { at ≡ place seat.old.me.0.puts_within (length seat.old.me.0.written / 4) }
    requires count { count ≤ 4 }
    requires begins { IsPrefix seat.old.me.0.written (whole_words seat.old.me.0.written ++ top_lanes word count) }
    requires fits { length (whole_words seat.old.me.0.written ++ top_lanes word count)
        ≤ seat.old.me.0.head + seat.old.me.0.puts_within }
    ensures same { (seat.new.table_id ≡ seat.old.table_id)
        × (seat.new.id ≡ seat.old.id)
        × (seat.new.me.1 ≡ seat.old.me.1) }
    ensures stored { seat.new.me.0
        ≡ with_written seat.old.me.0 (whole_words seat.old.me.0.written ++ top_lanes word count) }
{
    match count {
        0 => {}
        4 => steps.store::<StoreLanes<4>>(seat, at, word),
        _ => store_part(steps, seat, at, word, count),
    }
}

/// Stores a word that is not full: one to three lanes of it.
#[inline(never)]
fn store_part(steps: &Steps, seat: &mut RingSeat, at: usize, word: u64, count: u64)
    requires seat { (seat.old.table_id ≡ steps.now.table_id) × (seat.old.me.0.puts ≡ true) }
    requires words { (1 < at) × (at < steps.now.table_id.words) }
    requires at { at ≡ place seat.old.me.0.puts_within (length seat.old.me.0.written / 4) }
    requires count { (0 < count) × (count < 4) }
    requires begins { IsPrefix seat.old.me.0.written (whole_words seat.old.me.0.written ++ top_lanes word count) }
    requires fits { length (whole_words seat.old.me.0.written ++ top_lanes word count)
        ≤ seat.old.me.0.head + seat.old.me.0.puts_within }
    ensures same { (seat.new.table_id ≡ seat.old.table_id)
        × (seat.new.id ≡ seat.old.id)
        × (seat.new.me.1 ≡ seat.old.me.1) }
    ensures stored { seat.new.me.0
        ≡ with_written seat.old.me.0 (whole_words seat.old.me.0.written ++ top_lanes word count) }
{
    match count {
        1 => steps.store::<StoreLanes<1>>(seat, at, word / THREE_LANES),
        2 => steps.store::<StoreLanes<2>>(seat, at, word / TWO_LANES),
        _ => steps.store::<StoreLanes<3>>(seat, at, word / LANE),
    }
}
