//! Reads CHARS: `-`, or characters, each as the letter of its flag and two hexadecimal digits.

ghost use Rattle.std.specs.Prelude.{◌≡◌, ◌<◌, [], IfSome};
ghost use Rattle.hex.specs.Hex.{hex_digit_value};
ghost use Rattle.session_text.specs.declared.faults.Reason.TheVariants.{Hex};
ghost use Rattle.check_text.specs.Fields.{or_else};
ghost use Rattle.check_text.specs.Characters.{flag_of as flag_by_letter, char_of, chars_from, chars_of};
ghost use Rattle.check_text.specs.Results.{ReadsAs};

use super::faults::LineFault;
use session_text::Reason;
use tty_base::{Chars, Flag, Flagged};

/// Reads the characters that CHARS writes.
pub(crate) fn read_characters(word: &[u8], characters: &mut Chars) -> Result<(), LineFault>
    ensures { ReadsAs (λ _. characters.new.items) result (or_else Hex (chars_of word.now)) }
{
    characters.truncate(0);
    if word == b"-".as_slice() {
        return Ok(());
    }
    add_characters(word, characters)
}

fn add_characters(word: &[u8], characters: &mut Chars) -> Result<(), LineFault>
    requires { characters.old.items ≡ [] }
    ensures { ReadsAs (λ _. characters.new.items) result (or_else Hex (chars_from word.now)) }
{
    let mut rest = word;
    while let [letter, high, low, after @ ..] = rest {
        match character_of(*letter, *high, *low) {
            None => return Err(LineFault::Wrong(Reason::Hex)),
            Some(character) => {
                characters.reserve(1)?;
                characters.add(character);
            }
        }
        rest = after;
    }
    if rest.is_empty() {
        Ok(())
    } else {
        Err(LineFault::Wrong(Reason::Hex))
    }
}

fn character_of(letter: u8, high: u8, low: u8) -> Option<Flagged>
    ensures { result ≡ char_of letter high low }
{
    let flag = flag_of(letter)?;
    let high = digit_of(high)?;
    let low = digit_of(low)?;
    Some(Flagged {
        byte: high * 16 + low,
        flag,
    })
}

fn flag_of(letter: u8) -> Option<Flag>
    ensures { result ≡ flag_by_letter letter }
{
    match letter {
        b'n' => Some(Flag::Normal),
        b'b' => Some(Flag::Break),
        b'p' => Some(Flag::Parity),
        b'f' => Some(Flag::Frame),
        b'o' => Some(Flag::Overrun),
        _ => None,
    }
}

/// The value of a hexadecimal digit, in either case.
fn digit_of(digit: u8) -> Option<u8>
    ensures value { result ≡ hex_digit_value digit }
    ensures small { IfSome result (λ value. value < 16) }
{
    match digit {
        b'A'..=b'F' => Some(digit - 55),
        b'a'..=b'f' => Some(digit - 87),
        b'0'..=b'9' => Some(digit - 48),
        _ => None,
    }
}
