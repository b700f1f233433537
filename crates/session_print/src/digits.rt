//! Numbers in decimal digits, and bytes in hexadecimal.

ghost use Rattle.std.specs.Prelude.{◌≡◌, ◌++◌, ◌+◌, ◌∷◌, [], ◌<◌, ◌≤◌, ◌*◌, OnOk};
ghost use Rattle.std.specs.Prelude.{decimal, length, slice_index, string_bytes, take};
ghost use Rattle.hex.specs.Hex.{encode_lower, lower_digits};
ghost use Rattle.session_print.specs.Printing.{tens};
ghost use Rattle.session_print.specs.Sizes.{MOST_AT_ONCE};

use std::alloc::AllocError;
use std::str;

/// The most bytes whose digits are written at a time.
const MOST_AT_ONCE: usize = 64;

/// How many bytes the processor turns into digits at once.
const EIGHT: usize = 8;

/// Adds a number in decimal digits.
#[inline(always)]
pub(crate) fn put_number(text: &mut String, number: u64) -> Result<(), AllocError>
    ensures { OnOk result (string_bytes text.new ≡ string_bytes text.old ++ decimal number) }
{
    if number < 10 {
        text.push_str(digit_text(number))
    } else if number < 100 {
        text.push_str(digit_text(number / 10))?;
        text.push_str(digit_text(number % 10))
    } else {
        put_long_number(text, number)
    }
}

/// Adds a number of three or more digits in decimal digits. It stands apart, so that what adds a digit stays small.
#[inline(never)]
fn put_long_number(text: &mut String, number: u64) -> Result<(), AllocError>
    ensures { OnOk result (string_bytes text.new ≡ string_bytes text.old ++ decimal number) }
{
    let mut buffer = itoa::Buffer::new();
    text.push_str(buffer.format(number))
}

/// Adds what ten steps share of their number: its digits before the last.
pub(crate) fn put_tens(text: &mut String, step: u64) -> Result<(), AllocError>
    ensures { OnOk result (string_bytes text.new ≡ string_bytes text.old ++ tens step) }
{
    if step < 10 {
        return Ok(());
    }
    put_number(text, step / 10)
}

/// The text of a number of one digit.
#[inline(always)]
pub(crate) fn digit_text(digit: u64) -> &'static str
    requires { digit < 10 }
    ensures { result.now ≡ decimal digit }
{
    sign_of(digit)
}

#[inline(always)]
fn sign_of(digit: u64) -> &'static str
    requires { digit < 10 }
    ensures { result.now ≡ (48 + digit) ∷ [] }
{
    match digit {
        0 => "0",
        1 => "1",
        2 => "2",
        3 => "3",
        4 => "4",
        5 => "5",
        6 => "6",
        7 => "7",
        8 => "8",
        _ => "9",
    }
}

/// Adds bytes in hexadecimal.
#[inline(always)]
pub(crate) fn put_hex(text: &mut String, bytes: &[u8]) -> Result<(), AllocError>
    ensures { OnOk result (string_bytes text.new ≡ string_bytes text.old ++ encode_lower bytes.now) }
{
    text.reserve(bytes.len().saturating_mul(2))?;
    let mut rest = bytes;
    while !rest.is_empty() {
        let (piece, after) = rest.split_at(rest.len().min(MOST_AT_ONCE));
        put_piece(text, piece)?;
        rest = after;
    }
    Ok(())
}

/// Adds the digits of bytes, as many as are written at a time.
pub(crate) fn put_piece(text: &mut String, bytes: &[u8]) -> Result<(), AllocError>
    requires { length bytes.now ≤ MOST_AT_ONCE }
    ensures { OnOk result (string_bytes text.new ≡ string_bytes text.old ++ encode_lower bytes.now) }
{
    let mut digits = [0; 2 * MOST_AT_ONCE];
    write_digits(bytes, &mut digits);
    text.push_str(first_digits(&digits, bytes))
}

/// Writes two digits for each byte, each to its place.
#[inline(always)]
fn write_digits(bytes: &[u8], digits: &mut [u8; 2 * MOST_AT_ONCE])
    requires { length bytes.now ≤ MOST_AT_ONCE }
    ensures { take (2 * length bytes.now) digits.new ≡ encode_lower bytes.now }
{
    let count = bytes.len();
    if count < EIGHT || count % EIGHT == 0 {
        write_some(bytes, 0, count, digits);
    } else {
        // eight at once take no longer than two one by one, so the last eight are written again
        write_some(bytes, 0, count - count % EIGHT, digits);
        write_some(bytes, count - EIGHT, count, digits);
    }
}

/// Writes the digits of the bytes from a place up to another, where those of the bytes before stand.
#[inline(always)]
fn write_some(bytes: &[u8], from: usize, to: usize, digits: &mut [u8; 2 * MOST_AT_ONCE])
    requires order { from ≤ to }
    requires within { to ≤ length bytes.now }
    requires few { length bytes.now ≤ MOST_AT_ONCE }
    requires before { take (2 * from) digits.old ≡ encode_lower (take from bytes.now) }
    ensures { take (2 * to) digits.new ≡ encode_lower (take to bytes.now) }
{
    for place in from..to {
        let byte = bytes[place];
        digits[2 * place] = digit_of(byte / 16);
        digits[2 * place + 1] = digit_of(byte % 16);
    }
}

/// The text of the digits that were written for these bytes.
#[inline(always)]
fn first_digits<'a>(digits: &'a [u8; 2 * MOST_AT_ONCE], bytes: &[u8]) -> &'a str
    requires few { length bytes.now ≤ MOST_AT_ONCE }
    requires written { take (2 * length bytes.now) digits.now ≡ encode_lower bytes.now }
    ensures { result.now ≡ encode_lower bytes.now }
{
    let written = &digits[..2 * bytes.len()];
    unsafe { str::from_utf8_unchecked(written) }
}

#[inline(always)]
fn digit_of(value: u8) -> u8
    requires { value < 16 }
    ensures { result ≡ slice_index lower_digits value }
{
    let further = if value > 9 { b'a' - 10 - b'0' } else { 0 };
    value + b'0' + further
}
