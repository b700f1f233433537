//! Runs of good characters, eight at a time.
#![tactic(auto)]

ghost use Rattle.std.specs.Prelude.{◌≡◌, ◌≢◌, ◌↔◌, slice_index_or, false, ◌+◌, ◌<◌, ◌≤◌, ◌++◌};
ghost use Rattle.std.specs.Prelude.{IsTrue, length, take, drop, map, vec_len, vec_capacity};
ghost use Rattle.std.specs.List.{AllByRecursion};
ghost use Rattle.std.specs.Simd.Lanes.{mask_l};
ghost use Rattle.char_lanes.specs.Between.{AreBetween, is_outside};
ghost use Rattle.char_lanes.specs.Runs.{IsInBounds, bytes_in, number_of, number_of_flag};

use std::simd::prelude::*;
use tty_base::{Flag, Flagged, rest_of};

/// How many characters stand in a vector.
const EIGHT: usize = 8;

/// How many bytes stand in one.
const SIXTEEN: usize = 16;

/// Adds the bytes of the good characters at the front that are from `first` to `last`, and none of `without`, in room
/// that is there. Answers how many.
#[inline(always)]
pub fn push_run(
    bytes: &mut Vec<u8>,
    chars: &[Flagged],
    first: u8,
    last: u8,
    without: &[u8],
) -> usize
    requires { vec_len bytes.old + length chars.now ≤ vec_capacity bytes.old }
    ensures within { result ≤ length chars.now }
    ensures run { AllByRecursion (IsInBounds first last without.now) (take result chars.now) }
    ensures stops { (c : Flagged)
        → result < length chars.now
        → ¬ IsInBounds first last without.now (slice_index_or chars.now result c) }
    ensures items { bytes.new.items ≡ bytes.old.items ++ bytes_in (take result chars.now) }
    ensures len { vec_len bytes.new ≡ vec_len bytes.old + result }
    ensures capacity { vec_capacity bytes.old ≤ vec_capacity bytes.new }
{
    let eights = push_eights(bytes, chars, first, last, without);
    eights + push_each(bytes, rest_of(chars, eights), first, last, without)
}

/// Adds the bytes of a run as far as all of eight characters are of it.
#[inline(always)]
fn push_eights(bytes: &mut Vec<u8>, chars: &[Flagged], first: u8, last: u8, without: &[u8]) -> usize
    requires { vec_len bytes.old + length chars.now ≤ vec_capacity bytes.old }
    ensures within { result ≤ length chars.now }
    ensures run { AllByRecursion (IsInBounds first last without.now) (take result chars.now) }
    ensures items { bytes.new.items ≡ bytes.old.items ++ bytes_in (take result chars.now) }
    ensures len { vec_len bytes.new ≡ vec_len bytes.old + result }
    ensures capacity { vec_capacity bytes.old ≤ vec_capacity bytes.new }
{
    let mut count = 0;
    while chars.len() - count >= EIGHT {
        let taken = push_eight(bytes, eight_of(chars, count), first, last, without);
        if !taken {
            return count;
        }
        count += EIGHT;
    }
    count
}

/// Adds the bytes of eight characters, where all of them are of the run.
#[inline(always)]
fn push_eight(bytes: &mut Vec<u8>, eight: [Flagged; 8], first: u8, last: u8, without: &[u8]) -> bool
    requires { vec_len bytes.old + 8 ≤ vec_capacity bytes.old }
    ensures run { IsTrue result → AllByRecursion (IsInBounds first last without.now) eight }
    ensures items { IsTrue result → bytes.new.items ≡ bytes.old.items ++ bytes_in eight }
    ensures len { IsTrue result → vec_len bytes.new ≡ vec_len bytes.old + 8 }
    ensures same { result ≡ false → bytes.new ≡ bytes.old }
    ensures capacity { vec_capacity bytes.old ≤ vec_capacity bytes.new }
{
    let numbers = numbers_of(&eight);
    if !are_in(numbers, first, last, without) {
        return false;
    }
    match bytes.extend_from_slice(bytes_of(numbers).as_slice()) {
        Ok(()) => true,
        Err(_) => unreachable!(),
    }
}

/// Adds the bytes of the characters of the run at the front one by one.
#[inline(always)]
fn push_each(bytes: &mut Vec<u8>, chars: &[Flagged], first: u8, last: u8, without: &[u8]) -> usize
    requires { vec_len bytes.old + length chars.now ≤ vec_capacity bytes.old }
    ensures within { result ≤ length chars.now }
    ensures run { AllByRecursion (IsInBounds first last without.now) (take result chars.now) }
    ensures stops { (c : Flagged)
        → result < length chars.now
        → ¬ IsInBounds first last without.now (slice_index_or chars.now result c) }
    ensures items { bytes.new.items ≡ bytes.old.items ++ bytes_in (take result chars.now) }
    ensures len { vec_len bytes.new ≡ vec_len bytes.old + result }
    ensures capacity { vec_capacity bytes.new ≡ vec_capacity bytes.old }
{
    let mut count = 0;
    for c in chars {
        if !is_in(*c, first, last, without) {
            return count;
        }
        bytes.push_reserved(c.byte);
        count += 1;
    }
    count
}

/// Whether a character is of the run.
#[inline(always)]
fn is_in(c: Flagged, first: u8, last: u8, without: &[u8]) -> bool
    ensures { IsTrue result ↔ IsInBounds first last without.now c }
{
    match c.flag {
        Flag::Normal => first <= c.byte && c.byte <= last && is_none_of(c.byte, without),
        _ => false,
    }
}

#[inline(always)]
fn is_none_of(byte: u8, without: &[u8]) -> bool
    ensures { IsTrue result ↔ AllByRecursion (λ x. byte ≢ x) without.now }
{
    for other in without {
        if byte == *other {
            return false;
        }
    }
    true
}

/// The eight characters after so many.
#[inline(always)]
fn eight_of(chars: &[Flagged], from: usize) -> [Flagged; 8]
    requires { from + 8 ≤ length chars.now }
    ensures { result ≡ take 8 (drop from chars.now) }
{
    match rest_of(chars, from).first_chunk::<8>() {
        Some(eight) => *eight,
        None => unreachable!(),
    }
}

/// Eight characters as numbers.
#[inline(always)]
fn numbers_of(eight: &[Flagged; 8]) -> u16x8
    ensures { result ≡ map number_of eight.now }
{
    let [a, b, c, d, e, f, g, h] = *eight;
    u16x8::from_array([
        number_of(a),
        number_of(b),
        number_of(c),
        number_of(d),
        number_of(e),
        number_of(f),
        number_of(g),
        number_of(h),
    ])
}

/// A character as a number: its byte, and above it its flag, which is 0 for a good one.
#[inline(always)]
fn number_of(c: Flagged) -> u16
    ensures { result ≡ number_of c }
{
    u16::from(c.byte) + 256 * flag_number(c.flag)
}

#[inline(always)]
fn flag_number(flag: Flag) -> u16
    ensures { result ≡ number_of_flag flag }
{
    match flag {
        Flag::Normal => 0,
        Flag::Break => 1,
        Flag::Parity => 2,
        Flag::Frame => 3,
        Flag::Overrun => 4,
    }
}

/// Whether these numbers are those of characters of the run.
#[inline(always)]
fn are_in(numbers: u16x8, first: u8, last: u8, without: &[u8]) -> bool
    ensures low { IsTrue result → AllByRecursion (λ n. first ≤ n) numbers }
    ensures high { IsTrue result → AllByRecursion (λ n. n ≤ last) numbers }
    ensures none { IsTrue result → AllByRecursion (λ x. AllByRecursion (λ n. n ≢ x) numbers) without.now }
{
    none_below(numbers, u16::from(first))
        && none_above(numbers, u16::from(last))
        && have_none_of(numbers, without)
}

#[inline(always)]
fn none_below(numbers: u16x8, first: u16) -> bool
    ensures { IsTrue result → AllByRecursion (λ n. first ≤ n) numbers }
{
    numbers.simd_lt(u16x8::splat(first)).to_bitmask() == 0
}

#[inline(always)]
fn none_above(numbers: u16x8, last: u16) -> bool
    ensures { IsTrue result → AllByRecursion (λ n. n ≤ last) numbers }
{
    numbers.simd_gt(u16x8::splat(last)).to_bitmask() == 0
}

#[inline(always)]
fn have_none_of(numbers: u16x8, without: &[u8]) -> bool
    ensures { IsTrue result → AllByRecursion (λ x. AllByRecursion (λ n. n ≢ x) numbers) without.now }
{
    for other in without {
        if !none_is(numbers, u16::from(*other)) {
            return false;
        }
    }
    true
}

#[inline(always)]
fn none_is(numbers: u16x8, other: u16) -> bool
    ensures { IsTrue result → AllByRecursion (λ n. n ≢ other) numbers }
{
    numbers.simd_eq(u16x8::splat(other)).to_bitmask() == 0
}

/// The numbers as bytes.
#[inline(always)]
fn bytes_of(numbers: u16x8) -> [u8; 8]
    requires { AllByRecursion (λ n. n ≤ 255) numbers }
    ensures { result ≡ numbers }
{
    numbers.cast::<u8>().to_array()
}

/// How many bytes from `first` to `last` stand at the front.
pub fn bytes_between(bytes: &[u8], first: u8, last: u8) -> usize
    requires { first ≤ last }
    ensures within { result ≤ length bytes.now }
    ensures run { AreBetween first last bytes.now 0 result }
{
    if bytes.len() < SIXTEEN {
        return short_between(bytes, first, last);
    }
    let mut count = 0;
    while bytes.len() - count >= SIXTEEN {
        let more = sixteen_between(bytes, count, first, last);
        count += more;
        if more < SIXTEEN {
            return count;
        }
    }
    // the last sixteen, of which some were seen
    let end = bytes.len() - SIXTEEN;
    end + sixteen_between(bytes, end, first, last)
}

/// How many of few bytes lie between two, up to the first that does not.
#[inline(always)]
fn short_between(bytes: &[u8], first: u8, last: u8) -> usize
    ensures within { result ≤ length bytes.now }
    ensures run { AreBetween first last bytes.now 0 result }
{
    let mut count = 0;
    for byte in bytes {
        if *byte < first || *byte > last {
            return count;
        }
        count += 1;
    }
    count
}

/// How many of the sixteen bytes after so many stand before one that is not from `first` to `last`.
#[inline(always)]
fn sixteen_between(bytes: &[u8], from: usize, first: u8, last: u8) -> usize
    requires order { first ≤ last }
    requires room { from + 16 ≤ length bytes.now }
    ensures within { result ≤ 16 }
    ensures run { AreBetween first last bytes.now from (from + result) }
{
    let stops = outside(u8x16::from_slice(&bytes[from..]), first, last);
    if stops == 0 {
        SIXTEEN
    } else {
        stops.trailing_zeros() as usize
    }
}

/// The lanes that are not from `first` to `last`, as bits. Others wrap past the last.
#[inline(always)]
fn outside(lanes: u8x16, first: u8, last: u8) -> u64
    requires { first ≤ last }
    ensures { result ≡ mask_l (map (is_outside first last) lanes) }
{
    (lanes - u8x16::splat(first))
        .simd_gt(u8x16::splat(last - first))
        .to_bitmask()
}
