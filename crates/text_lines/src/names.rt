//! Words that are names.

ghost use Rattle.std.specs.Prelude.{◌≡◌, IsTrue};
ghost use Rattle.std.specs.List.{list_all};
ghost use Rattle.text_lines.specs.Values.{begins_name, is_name, is_name_byte};

use arrayvec::ArrayString;
use std::str;
use tty_base::sizes::MOST_NAME;

/// Whether a word is a name: a letter a to z, and up to 15 letters a to z, digits or `_`.
pub fn is_name(word: &[u8]) -> bool
    ensures { result ≡ is_name word.now }
{
    begins_name(word) && are_name_bytes(word) && word.len() <= MOST_NAME
}

/// A name as text.
pub fn name_of(word: &[u8]) -> ArrayString<16>
    requires { IsTrue (is_name word.now) }
    ensures { result.bytes ≡ word.now }
{
    let mut name = ArrayString::new();
    match str::from_utf8(word) {
        Ok(text) => match name.try_push_str(text) {
            Ok(()) => name,
            Err(_) => unreachable!(),
        },
        Err(_) => unreachable!(),
    }
}

fn begins_name(word: &[u8]) -> bool
    ensures { result ≡ begins_name word.now }
{
    match word.first() {
        Some(first) => first.is_ascii_lowercase(),
        None => false,
    }
}

fn are_name_bytes(word: &[u8]) -> bool
    ensures { result ≡ list_all is_name_byte word.now }
{
    word.iter().all(|byte| is_name_byte(*byte))
}

fn is_name_byte(byte: u8) -> bool
    ensures { result ≡ is_name_byte byte }
{
    byte.is_ascii_lowercase() || byte.is_ascii_digit() || byte == b'_'
}
