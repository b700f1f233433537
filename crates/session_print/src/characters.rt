//! The text of characters: for each the letter of its flag, and its byte in hexadecimal.

ghost use Rattle.std.specs.Prelude.{◌≡◌, ◌++◌, ◌∷◌, ◌<◌, ◌≤◌, [], OnOk, flat_map, length, slice_index, string_bytes};
ghost use Rattle.hex.specs.Hex.{lower_digits};
ghost use Rattle.tty_base.specs.declared.characters.Flagged.{Flagged};
ghost use Rattle.session_print.specs.Journals.{char_text, flag_letter};

use std::alloc::AllocError;
use std::str;
use tty_base::{Flag, Flagged};

/// How many characters are made text at once: so many are mostly flushed together.
const EIGHT: usize = 8;

const DIGITS: &[u8; 16] = b"0123456789abcdef";

/// Adds the letter of each character's flag and its byte in hexadecimal.
#[inline(always)]
pub(crate) fn put_each_character(
    text: &mut String,
    characters: &[Flagged],
) -> Result<(), AllocError>
    ensures { OnOk result (string_bytes text.new ≡ string_bytes text.old ++ flat_map char_text characters.now) }
{
    let mut rest = characters;
    while !rest.is_empty() {
        let (some, after) = rest.split_at(rest.len().min(EIGHT));
        put_some(text, some)?;
        rest = after;
    }
    Ok(())
}

/// Adds the letter and the byte of each of at most eight characters. That they are eight is told where it is, so
/// that this is no loop then.
#[inline(always)]
fn put_some(text: &mut String, characters: &[Flagged]) -> Result<(), AllocError>
    requires { length characters.now ≤ 8 }
    ensures { OnOk result (string_bytes text.new ≡ string_bytes text.old ++ flat_map char_text characters.now) }
{
    if characters.len() == EIGHT {
        put_signs(text, characters, EIGHT)
    } else {
        put_signs(text, characters, characters.len())
    }
}

#[inline(always)]
fn put_signs(text: &mut String, characters: &[Flagged], count: usize) -> Result<(), AllocError>
    requires all { count ≡ length characters.now }
    requires few { count ≤ 8 }
    ensures { OnOk result (string_bytes text.new ≡ string_bytes text.old ++ flat_map char_text characters.now) }
{
    let mut signs = [0; 3 * EIGHT];
    for place in 0..count {
        let character = characters[place];
        signs[3 * place] = letter_of(character.flag);
        signs[3 * place + 1] = digit_of(character.byte / 16);
        signs[3 * place + 2] = digit_of(character.byte % 16);
    }
    let written = unsafe { str::from_utf8_unchecked(&signs[..3 * count]) };
    text.push_str(written)
}

#[inline(always)]
fn letter_of(flag: Flag) -> u8
    ensures { result ∷ [] ≡ flag_letter flag }
{
    match flag {
        Flag::Normal => b'n',
        Flag::Break => b'b',
        Flag::Parity => b'p',
        Flag::Frame => b'f',
        Flag::Overrun => b'o',
    }
}

#[inline(always)]
fn digit_of(value: u8) -> u8
    requires { value < 16 }
    ensures { result ≡ slice_index lower_digits value }
{
    DIGITS[usize::from(value)]
}
