//! Mode words from their texts.

ghost use Rattle.std.specs.Prelude.{◌≡◌, ◌≢◌, ℕ, List, None, Some, IfOk, OnErr, IfSome, ◌+◌};
ghost use Rattle.std.specs.Prelude.{◌-◌, ◌*◌, ◌<◌, ◌&&◌, ◌==◌, ◌||◌, nat_lt, bytes_eq, codes};
ghost use Rattle.std.specs.Prelude.{length, option_map, position, slice_index, if◌then◌else◌};
ghost use Rattle.std.specs.Char.{is_ascii_digit};
ghost use Rattle.std.specs.Result.{result_ok};
ghost use Rattle.tty_modes.specs.declared.words.Word.{Word};
ghost use Rattle.tty_modes.specs.declared.words.Word.TheVariants.{Off};
ghost use Rattle.tty_modes.specs.Names.{flag_names, character_names};
ghost use Rattle.tty_modes.specs.Reading.{place_of, byte_of, character_word_of, word_of};
ghost use Rattle.tty_modes.specs.Word.{IsModeWord, word_text};

use crate::names::{character_name, flag_name};
use crate::slots::{character_near, flag_near, slot_of};
use crate::texts::is_same;
use crate::words::Word;

/// A text that is no mode word.
#[derive(Clone, Copy, PartialEq, Eq, Debug)]
pub struct BadWord;

/// Reads a mode word: a flag's name, `-` and the name, `NAME=N` with N from 0 to 255 in decimal digits without sign
/// or leading zero, `raw` or `sane`.
///
/// `BadWord` comes exactly where the text is none of these.
pub fn set_word(text: &str) -> Result<Word, BadWord>
    ensures word { IfOk result (λ w. IsModeWord w × (word_text w ≡ text.now)) }
    ensures read_back { (w : Word) → IsModeWord w → word_text w ≡ text.now → result ≡ Ok w }
    ensures bad { OnErr result ((w : Word) → IsModeWord w → word_text w ≢ text.now) }
    ensures value { result_ok result ≡ word_of text.now }
{
    set_word_bytes(text.as_bytes())
}

/// Reads a mode word as [`set_word`] does, from bytes that need not be a text.
#[inline(always)]
pub fn set_word_bytes(bytes: &[u8]) -> Result<Word, BadWord>
    ensures word { IfOk result (λ w. IsModeWord w × (word_text w ≡ bytes.now)) }
    ensures read_back { (w : Word) → IsModeWord w → word_text w ≡ bytes.now → result ≡ Ok w }
    ensures bad { OnErr result ((w : Word) → IsModeWord w → word_text w ≢ bytes.now) }
    ensures value { result_ok result ≡ word_of bytes.now }
{
    read_word(bytes).ok_or(BadWord)
}

/// Each mode word is read back from its text, what is read spells the text, and different mode words have different
/// texts.
pub fn words_are_their_texts()
    ensures read_back { (w : Word) → IsModeWord w → word_of (word_text w) ≡ Some w }
    ensures spelled { (text : List ℕ) → IfSome (word_of text) (λ w. IsModeWord w × (word_text w ≡ text)) }
    ensures distinct { (v w : Word) → IsModeWord v → IsModeWord w → word_text v ≡ word_text w → v ≡ w }
{}

#[inline(always)]
fn read_word(text: &[u8]) -> Option<Word>
    ensures { result ≡ word_of text.now }
{
    if !text.is_empty() && text[0] == b'-' {
        return cleared_flag(&text[1..]);
    }
    if is_raw(text) {
        return Some(Word::Raw);
    }
    if is_sane(text) {
        return Some(Word::Sane);
    }
    if let Some(flag) = flag_place(text) {
        return Some(Word::On(flag));
    }
    character_word(text)
}

/// The word that clears the flag of this name.
fn cleared_flag(name: &[u8]) -> Option<Word>
    ensures { result ≡ option_map Off (place_of flag_names name.now) }
{
    flag_place(name).map(|flag| Word::Off(flag))
}

fn is_raw(text: &[u8]) -> bool
    ensures { result ≡ bytes_eq text.now (codes "raw") }
{
    is_same(text, b"raw".as_slice())
}

fn is_sane(text: &[u8]) -> bool
    ensures { result ≡ bytes_eq text.now (codes "sane") }
{
    is_same(text, b"sane".as_slice())
}

fn character_word(text: &[u8]) -> Option<Word>
    ensures { result ≡ character_word_of text.now }
{
    let at = equals_in(text)?;
    let place = character_place(&text[..at])?;
    let value = byte_of(&text[at + 1..])?;
    Some(Word::Cc(place, value))
}

fn equals_in(text: &[u8]) -> Option<usize>
    ensures { result ≡ position (λ byte. byte == 61) text.now }
{
    text.iter().position(|byte| *byte == b'=')
}

fn flag_place(name: &[u8]) -> Option<u32>
    ensures { result ≡ place_of flag_names name.now }
{
    let flag = flag_near(slot_of(name));
    if is_same(flag_name(flag).as_bytes(), name) {
        Some(flag)
    } else {
        None
    }
}

fn character_place(name: &[u8]) -> Option<u8>
    ensures { result ≡ place_of character_names name.now }
{
    let place = character_near(slot_of(name));
    if is_same(character_name(place).as_bytes(), name) {
        Some(place)
    } else {
        None
    }
}

fn byte_of(digits: &[u8]) -> Option<u8>
    ensures { result ≡ byte_of digits.now }
{
    if !starts_plainly(digits) {
        return None;
    }
    let mut value = 0u8;
    for digit in digits {
        value = with_digit(value, *digit)?;
    }
    Some(value)
}

// Some digit stands first, and no zero with more behind it.
fn starts_plainly(digits: &[u8]) -> bool
    ensures { result
        ≡ (nat_lt 0 (length digits.now) && (nat_lt 48 (slice_index digits.now 0) || length digits.now == 1)) }
{
    !digits.is_empty() && (digits[0] > b'0' || digits.len() == 1)
}

// A number with one digit more, where that is a digit and the number still a byte.
fn with_digit(value: u8, digit: u8) -> Option<u8>
    ensures { result
        ≡ (if is_ascii_digit digit && nat_lt (value * 10 + (digit - 48)) 256
        then Some (value * 10 + (digit - 48))
        else None) }
{
    if !digit.is_ascii_digit() {
        return None;
    }
    value.checked_mul(10)?.checked_add(digit - b'0')
}
