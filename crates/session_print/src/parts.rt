//! The numbers in the line of an entry: the last digit of its step, its part and its generation.

ghost use Rattle.std.specs.Prelude.{◌≡◌, ◌++◌, ◌+◌, ◌∷◌, ◌<◌, OnOk, codes, decimal, string_bytes};
ghost use Rattle.session_print.specs.Printing.{places_text};

use super::digits::{digit_text, put_number};
use std::alloc::AllocError;
use std::str;

/// Adds the last digit of an entry's step, its part and its generation, with a blank after each. Mostly
/// all three are digits.
#[inline(always)]
pub(crate) fn put_places(
    text: &mut String,
    digit: u8,
    part: u32,
    generation: u32,
) -> Result<(), AllocError>
    requires { digit < 10 }
    ensures { OnOk result
        (string_bytes text.new ≡ string_bytes text.old ++ (decimal digit ++ places_text part generation)) }
{
    if part < 10 && generation < 10 {
        return put_digits(text, digit, part as u8, generation as u8);
    }
    put_numbers(text, u64::from(digit), part, generation)
}

#[inline(always)]
fn put_digits(text: &mut String, digit: u8, part: u8, generation: u8) -> Result<(), AllocError>
    requires digit { digit < 10 }
    requires part { part < 10 }
    requires generation { generation < 10 }
    ensures { OnOk result
        (string_bytes text.new ≡ string_bytes text.old ++ (decimal digit ++ places_text part generation)) }
{
    let signs = [
        b'0' + digit,
        b' ',
        b'0' + part,
        b' ',
        b'0' + generation,
        b' ',
    ];
    let written = unsafe { str::from_utf8_unchecked(&signs) };
    text.push_str(written)
}

/// Adds the last digit of a step, and a part and a generation of any length, with a blank after each. It stands
/// apart, so that what adds digits stays small.
#[inline(never)]
fn put_numbers(text: &mut String, digit: u64, part: u32, generation: u32) -> Result<(), AllocError>
    requires { digit < 10 }
    ensures { OnOk result
        (string_bytes text.new ≡ string_bytes text.old ++ (decimal digit ++ places_text part generation)) }
{
    text.push_str(spaced_digit(digit))?;
    put_spaced(text, u64::from(part))?;
    put_spaced(text, u64::from(generation))
}

/// Adds a number and a blank.
#[inline(always)]
fn put_spaced(text: &mut String, number: u64) -> Result<(), AllocError>
    ensures { OnOk result (string_bytes text.new ≡ string_bytes text.old ++ (decimal number ++ codes " ")) }
{
    if number < 10 {
        text.push_str(spaced_digit(number))
    } else if number < 100 {
        text.push_str(digit_text(number / 10))?;
        text.push_str(spaced_digit(number % 10))
    } else {
        put_number(text, number)?;
        text.push_str(" ")
    }
}

/// The text of a number of one digit, and a blank.
#[inline(always)]
fn spaced_digit(digit: u64) -> &'static str
    requires { digit < 10 }
    ensures { result.now ≡ (48 + digit) ∷ codes " " }
{
    match digit {
        0 => "0 ",
        1 => "1 ",
        2 => "2 ",
        3 => "3 ",
        4 => "4 ",
        5 => "5 ",
        6 => "6 ",
        7 => "7 ",
        8 => "8 ",
        _ => "9 ",
    }
}
