//! A character in a number of 16 bits.
ghost use Rattle.std.specs.Prelude.{◌≡◌, ◌+◌, ◌-◌, ◌/◌, ◌%◌, ◌<◌, ◌≤◌, ◌++◌, map, length, IsTrue};
ghost use Rattle.arrayvec.specs.ArrayVec.{array_vec_len};
ghost use Rattle.word_ring.specs.Lanes.{LANE, THREE_LANES, TWO_LANES, lanes};
ghost use Rattle.flip_buffer.specs.Packed.{char_of, flag_of_number, FlagMark};

use arrayvec::ArrayVec;
use tty_base::{Chars, Flag, Flagged};
use word_ring::{LANE, THREE_LANES, TWO_LANES};

#[inline(always)]
fn flag_number(flag: Flag) -> u16
    ensures fits { result ≤ 4 }
    ensures flag { flag_of_number result ≡ flag }
{
    match flag {
        Flag::Normal => 0,
        Flag::Break => 1,
        Flag::Parity => 2,
        Flag::Frame => 3,
        Flag::Overrun => 4,
    }
}

#[inline(always)]
fn numbered_flag(number: u16) -> Flag
    ensures { result ≡ flag_of_number number }
{
    match number {
        0 => Flag::Normal,
        1 => Flag::Break,
        2 => Flag::Parity,
        3 => Flag::Frame,
        _ => Flag::Overrun,
    }
}

/// What is added to a byte that has this flag.
#[inline(always)]
pub(crate) fn mark_of(flag: Flag) -> u16
    ensures { FlagMark flag result }
{
    256 * flag_number(flag)
}

/// The number that stands for a character.
#[inline(always)]
pub(crate) fn number_of(c: Flagged) -> u16
    ensures { char_of result ≡ c }
{
    u16::from(c.byte) + 256 * flag_number(c.flag)
}

/// The character that a number stands for.
#[inline(always)]
pub(crate) fn character_of(x: u16) -> Flagged
    ensures { result ≡ char_of x }
{
    Flagged {
        byte: (x % 256) as u8,
        flag: numbered_flag(x / 256),
    }
}

/// Adds the characters that these numbers stand for.
pub(crate) fn add_each(numbers: &[u16], out: &mut ArrayVec<Flagged, 64>)
    requires { array_vec_len out.old + length numbers.now ≤ 64 }
    ensures { out.new.items ≡ out.old.items ++ map char_of numbers.now }
{
    for x in numbers {
        out.push(character_of(*x));
    }
}

/// Adds the characters that the numbers of a word stand for, in room that was reserved. Mostly all of
/// them are good.
#[inline(always)]
pub(crate) fn add_characters(word: u64, out: &mut Chars)
    requires { 4 ≤ out.old.spare }
    ensures { out.new ≡ record { items = out.old.items ++ map char_of (lanes word 4); spare = out.old.spare - 4 } }
{
    if are_good(word) {
        out.add_four([
            good_character_of(word),
            good_character_of(word / LANE),
            good_character_of(word / TWO_LANES),
            good_character_of(word / THREE_LANES),
        ]);
    } else {
        add_any_characters(word, out);
    }
}

/// Adds the characters of a word of which one or more may have an error.
#[inline(never)]
fn add_any_characters(word: u64, out: &mut Chars)
    requires { 4 ≤ out.old.spare }
    ensures { out.new ≡ record { items = out.old.items ++ map char_of (lanes word 4); spare = out.old.spare - 4 } }
{
    out.add_four([
        character_of((word % LANE) as u16),
        character_of((word / LANE % LANE) as u16),
        character_of((word / TWO_LANES % LANE) as u16),
        character_of((word / THREE_LANES % LANE) as u16),
    ]);
}

/// Whether the numbers of a word all stand for good characters.
#[inline(always)]
fn are_good(word: u64) -> bool
    ensures { IsTrue result
        → (word % LANE < 256)
        × (word / LANE % LANE < 256)
        × (word / TWO_LANES % LANE < 256)
        × (word / THREE_LANES % LANE < 256) }
{
    word / 256 % 256 == 0
        && word / 16777216 % 256 == 0
        && word / 1099511627776 % 256 == 0
        && word / 72057594037927936 == 0
}

/// The good character that the first number of a word stands for.
#[inline(always)]
fn good_character_of(word: u64) -> Flagged
    requires { word % LANE < 256 }
    ensures { result ≡ char_of (word % LANE) }
{
    Flagged::good((word % 256) as u8)
}
