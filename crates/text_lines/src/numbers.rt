//! Words that are numbers.

ghost use Rattle.std.specs.Prelude.{◌≡◌, ◌≤◌, ◌<◌, ◌^◌, ◌==◌, length, IsTrue, IfSome, None, Some, if◌then◌else◌};
ghost use Rattle.std.specs.List.{list_all};
ghost use Rattle.text_lines.specs.Lines.{words_of};
ghost use Rattle.text_lines.specs.Values.{is_digit, begins_number, is_number, number_of, number_at};

use super::lines::word_at;

const MOST_DIGITS: usize = 10;

/// Whether a word is a number: `0`, or 1 to 10 decimal digits without a leading 0.
pub fn is_number(word: &[u8]) -> bool
    ensures { result ≡ is_number word.now }
{
    read_number(word).is_some()
}

fn begins_number(word: &[u8]) -> bool
    ensures { result ≡ begins_number word.now }
{
    word.first() != Some(&b'0') || word.len() == 1
}

fn is_digit(byte: u8) -> bool
    ensures { result ≡ is_digit byte }
{
    b'0' <= byte && byte <= b'9'
}

/// The number that a word writes, which is known to be one: its digits are not tested again.
#[inline(always)]
pub fn number_of(word: &[u8]) -> u64
    requires { IsTrue (is_number word.now) }
    ensures value { result ≡ number_of word.now }
    ensures small { result < 10 ^ 10 }
{
    let mut number = 0;
    for digit in word {
        number = number * 10 + u64::from(*digit - b'0');
    }
    number
}

/// The number that a word is, read in one walk, and `None` where it is none.
#[inline(always)]
pub fn read_number(word: &[u8]) -> Option<u64>
    ensures { result ≡ (if is_number word.now then Some (number_of word.now) else None) }
{
    if word.is_empty() || !begins_number(word) || word.len() > MOST_DIGITS {
        return None;
    }
    read_digits(word)
}

#[inline(always)]
fn read_digits(digits: &[u8]) -> Option<u64>
    requires { length digits.now ≤ 10 }
    ensures value { result ≡ (if list_all is_digit digits.now then Some (number_of digits.now) else None) }
    ensures small { IfSome result (λ value. value < 10 ^ 10) }
{
    let mut value = 0;
    for digit in digits {
        if !is_digit(*digit) {
            return None;
        }
        value = value * 10 + u64::from(*digit - b'0');
    }
    Some(value)
}

/// The number at a place of a line, counted from 0, and 0 where no number is there.
pub fn number_at(line: &[u8], place: usize) -> u64
    ensures { result ≡ number_at (words_of line.now) place }
{
    number_in(word_at(line, place))
}

/// The number that a word is, and 0 where it is none.
#[inline(always)]
pub(crate) fn number_in(word: &[u8]) -> u64
    ensures { result ≡ (if is_number word.now then number_of word.now else 0) }
{
    read_number(word).unwrap_or(0)
}
